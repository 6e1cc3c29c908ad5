//! How the seats of buckets whose locks are held shared come to a hand and go back.
ghost use Rattle.std.specs.Prelude.{◌≡◌, true, false, [], ◌∷◌};

use crate::buckets::brand::FileBrand;
use crate::buckets::slot::Slot;
use crate::words::Words;
use atomic_table::Seat;
use lh_words::{Mode, SeatView, give_back, taken};
use std::sync::Wait;

impl<M: Mode> Words<M> {
    ghost use Rattle.lh_words.specs.Dealing.{dealt_seat, first_bucket_of};
    ghost use Rattle.lh_words.specs.Seats.{holder, with_parts};

    /// Takes in the seat of a bucket of a traced file, whose lock the caller has: whether the bucket has one of this
    /// file's.
    pub(crate) fn borrow_seat<J: FileBrand, R: Wait, const ROOM: usize>(
        &self,
        rt: &R,
        seat: &mut Seat<(), SeatView>,
        slot: &Slot<J, ROOM>,
    ) -> bool
        requires at { seat.old.table_id ≡ self.now.table }
        requires brand { self.now.table ≡ J.tables self.now.shard }
        ensures at { seat.new.table_id ≡ seat.old.table_id }
        ensures taken { result ≡ true → seat.new.me
            ≡ (with_parts seat.old.me.0 (holder (slot.now ∷ [])), seat.old.me.1) }
        ensures same { result ≡ false → seat.new.me ≡ seat.old.me }
    {
        let Slot {
            bucket,
            seat: bucket_seat,
            brand: _,
        } = slot;
        match bucket_seat {
            Some(own) if own.shard == self.shard => {
                self.table.take_in(seat, taken(rt, &own.perch), bucket);
                true
            }
            _ => false,
        }
    }

    /// Gives a bucket its seat back, the first of those that lie with this one.
    pub(crate) fn return_seat<J: FileBrand, const ROOM: usize>(
        &self,
        seat: &mut Seat<(), SeatView>,
        slot: &Slot<J, ROOM>,
    )
        requires at { seat.old.table_id ≡ self.now.table }
        requires brand { self.now.table ≡ J.tables self.now.shard }
        requires first { first_bucket_of seat.old.me.0.parts ≡ slot.now ∷ [] }
        ensures at { seat.new.table_id ≡ seat.old.table_id }
        ensures left { seat.new.me ≡ (dealt_seat seat.old.me.0, seat.old.me.1) }
    {
        let bucket_seat = self.table.deal_out(seat);
        let Slot {
            bucket: _,
            seat: place,
            brand: _,
        } = slot;
        match place {
            Some(own) if own.shard == self.shard => give_back(&own.perch, bucket_seat),
            // The seat was taken from this bucket.
            _ => {}
        }
    }
}
