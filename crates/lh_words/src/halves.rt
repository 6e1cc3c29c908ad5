//! A split's move in a traced file: the seat of the bucket becomes those of its halves.
ghost use Rattle.std.specs.Prelude.{◌≡◌, true, false, [], ◌∷◌};

use crate::mode::Mode;
use crate::perches::taken;
use crate::plays::{GiveBack, Halves, MoveSplit, TakeIn};
use crate::seat_view::SeatView;
use crate::shown::Shown;
use crate::table::WordTable;
use atomic_table::{Perch, Seat};
use lh_addr::laws::{hashes_are_nested, root_is_only_pair, split_moves_one_bucket};
use lh_bucket::SizedBucket;
use std::marker::Brand;
use std::sync::Wait;

impl<M: Mode> WordTable<M> {
    ghost use Rattle.lh_bucket.specs.Bucket.{Seen};
    ghost use Rattle.lh_words.specs.History.Buckets.{IsNextSplit, HasDivided};
    ghost use Rattle.lh_words.specs.Plays.{MayMove};
    ghost use Rattle.lh_words.specs.Seats.{holder, mover, upper_half, moved_by};

    /// Divides the seat of a bucket that lies with the hand, as the bucket was: the lower half stays with the hand. A
    /// call picks the halves by the last two arguments.
    fn cut<H: Halves, B: Shown>(
        &self,
        seat: &mut Seat<(), SeatView>,
        _low: &B,
        _high: &B,
    ) -> Seat<(), SeatView>
        requires at { seat.old.table_id ≡ self.now.id }
        requires right { seat.old.me.0.view.has_right ≡ true }
        requires unmoved { seat.old.me.0.moved ≡ false }
        requires halves { (p : Seen) × (seat.old.me.0.parts ≡ p ∷ [])
            × IsNextSplit self.now.listing.config.initial seat.old.me.0.view.known p × HasDivided p H.low H.high }
        ensures at { seat.new.table_id ≡ seat.old.table_id }
        ensures low { seat.new.me ≡ (mover H.low seat.old.me.0, seat.old.me.1) }
        ensures table { result.table_id ≡ self.now.id }
        ensures high { result.me ≡ (upper_half H.high, []) }
    {
        // Their laws: the halves have the numbers and levels of a file of one bucket more, and each code is one half's.
        root_is_only_pair();
        split_moves_one_bucket();
        hashes_are_nested();
        self.words.shared.split_seat::<MoveSplit<H>>(seat)
    }

    /// Makes of a split bucket's seat those of its lower and its upper half. The hand has moved the split.
    pub fn move_split<R: Wait, const ROOM: usize>(
        &self,
        rt: &R,
        perch: &Perch<(), SeatView>,
        seat: &mut Seat<(), SeatView>,
        low: &SizedBucket<ROOM>,
        high: &SizedBucket<ROOM>,
    ) -> (Seat<(), SeatView>, Seat<(), SeatView>)
        requires at { seat.old.table_id ≡ self.now.id }
        requires there { perch.now.table_id ≡ self.now.id }
        requires may { MayMove seat.old.me.0.view.known seat.old.me }
        requires halves { (p : Seen) × (perch.now.view ≡ holder (p ∷ []))
            × IsNextSplit self.now.listing.config.initial seat.old.me.0.view.known p × HasDivided p low.now high.now }
        ensures at { seat.new.table_id ≡ seat.old.table_id }
        ensures moved { seat.new.me ≡ (moved_by true seat.old.me.0, []) }
        ensures low_table { result.0.table_id ≡ self.now.id }
        ensures low { result.0.me ≡ (holder (low.now ∷ []), []) }
        ensures high_table { result.1.table_id ≡ self.now.id }
        ensures high { result.1.me ≡ (holder (high.now ∷ []), []) }
    {
        let bucket_seat = taken(rt, perch);
        self.words.shared.join_seat::<TakeIn>(seat, bucket_seat);
        let upper = self.cut::<Brand, _>(seat, low, high);
        let lower = self.words.shared.split_seat::<GiveBack>(seat);
        (lower, upper)
    }
}
