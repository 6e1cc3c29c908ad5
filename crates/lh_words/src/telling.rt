//! What a seat is told of the history of a traced file.
ghost use Rattle.std.specs.Prelude.{◌≡◌, ◌<◌, ◌≤◌, true, List};

use crate::mode::Mode;
use crate::offsets::STAMPS;
use crate::plays::{Opened, Tell};
use crate::seat_view::SeatView;
use crate::table::WordTable;
use atomic_table::Seat;
use std::marker::Brand;

impl<M: Mode> WordTable<M> {
    ghost use Rattle.lh_words.specs.declared.seat_view.Entry.{Entry};
    ghost use Rattle.lh_words.specs.History.Told.{IsSurveyed};
    ghost use Rattle.lh_words.specs.Seats.{told_seat};

    /// One load of the stamp word. A call picks what the file was opened from.
    fn tell<O: Opened>(&self, seat: &mut Seat<(), SeatView>) -> u64
        requires at { seat.old.table_id ≡ self.now.id }
        requires live { 0 < seat.old.me.0.view.initial }
        requires opened { O.listing ≡ self.now.listing }
        ensures at { seat.new.table_id ≡ seat.old.table_id }
        ensures rises { seat.old.me.0.view.floor ≤ result }
        ensures told { (log : List Entry) × (seat.new.me ≡ (told_seat result log seat.old.me.0, seat.old.me.1))
            × (M.traced ≡ true → IsSurveyed O.listing result
            seat.old.me.0.entries seat.old.me.0.logs seat.old.me.0.parts log) }
    {
        self.words.shared.load::<Tell<M, O>>(seat, STAMPS)
    }

    /// How many acts there were so far. In a traced file they are one legal history, in which the seat's own acts
    /// stand, and which leaves just what the buckets hold that lie with the seat.
    pub fn survey(&self, seat: &mut Seat<(), SeatView>) -> u64
        requires at { seat.old.table_id ≡ self.now.id }
        requires live { 0 < seat.old.me.0.view.initial }
        ensures at { seat.new.table_id ≡ seat.old.table_id }
        ensures rises { seat.old.me.0.view.floor ≤ result }
        ensures told { (log : List Entry) × (seat.new.me ≡ (told_seat result log seat.old.me.0, seat.old.me.1))
            × (M.traced ≡ true → IsSurveyed self.now.listing result
            seat.old.me.0.entries seat.old.me.0.logs seat.old.me.0.parts log) }
    {
        self.tell::<Brand>(seat)
    }
}
