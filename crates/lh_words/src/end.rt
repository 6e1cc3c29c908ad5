//! How the words of a file end: the seats of its buckets come back, and then no step is taken any more.
ghost use Rattle.std.specs.Prelude.{◌≡◌, [], ◌∷◌};
ghost use Rattle.lh_words.specs.Seats.{holder, with_parts};
ghost use Rattle.lh_words.specs.Table.{IsEnd};

use crate::mode::Mode;
use crate::numbers::FileWords;
use crate::offsets::{DELETES, INSERTS, ROOT, STAMPS};
use crate::plays::TakeIn;
use crate::seat_view::SeatView;
use crate::table::WordTable;
use atomic_table::Seat;
use lh_bucket::SizedBucket;

impl<M: Mode> WordTable<M> {
    /// A bucket's seat comes into another one.
    pub fn take_in<const ROOM: usize>(
        &self,
        seat: &mut Seat<(), SeatView>,
        bucket_seat: Seat<(), SeatView>,
        _bucket: &SizedBucket<ROOM>,
    )
        requires at { seat.old.table_id ≡ self.now.id }
        requires there { bucket_seat.table_id ≡ self.now.id }
        requires bucket_seat { bucket_seat.me ≡ (holder (_bucket.now ∷ []), []) }
        ensures at { seat.new.table_id ≡ seat.old.table_id }
        ensures taken { seat.new.me ≡ (with_parts seat.old.me.0 (holder (_bucket.now ∷ [])), seat.old.me.1) }
    {
        self.words.shared.join_seat::<TakeIn>(seat, bucket_seat);
    }

    /// The last words of the file.
    pub fn end(self, seat: Seat<(), SeatView>) -> FileWords
        requires { seat.table_id ≡ self.id }
        ensures { IsEnd M.traced self.listing result seat.me.0 }
    {
        let WordTable { words } = self;
        let closed = words.close_with(seat);
        let last = FileWords {
            root: closed.word(ROOT),
            stamps: closed.word(STAMPS),
            inserts: closed.word(INSERTS),
            deletes: closed.word(DELETES),
        };
        closed.free();
        last
    }
}
