//! The seat of a hand divided in two, and those of two hands made one.
ghost use Rattle.std.specs.Prelude.{◌≡◌, ◌<◌, ◌≤◌, ◌+◌, ◌^◌, [], false, length};

use crate::mode::Mode;
use crate::offsets::INSERTS;
use crate::plays::{Amount, Divide, LoadInserts, Unite};
use crate::seat_view::SeatView;
use crate::table::WordTable;
use atomic_table::Seat;
use std::marker::Brand;

impl<M: Mode> WordTable<M> {
    ghost use Rattle.lh_words.specs.Rule.{rights_of};
    ghost use Rattle.lh_words.specs.Seats.{lessened_seat, branch_seat, joined_seats};

    /// Divides a seat: `A.calls` of what it may draw go to a new one. A call picks that number by the last
    /// argument.
    fn divide_by<A: Amount>(&self, seat: &mut Seat<(), SeatView>, _calls: u64) -> Seat<(), SeatView>
        requires at { seat.old.table_id ≡ self.now.id }
        requires live { 0 < seat.old.me.0.view.initial }
        requires enough { A.calls ≤ seat.old.me.0.view.left }
        ensures first_table { seat.new.table_id ≡ seat.old.table_id }
        ensures first { seat.new.me ≡ (lessened_seat A.calls seat.old.me.0, seat.old.me.1) }
        ensures second_table { result.table_id ≡ seat.old.table_id }
        ensures second { result.me ≡ (branch_seat A.calls seat.old.me.0, []) }
    {
        self.words.shared.split_seat::<Divide<A>>(seat)
    }

    /// Divides a seat: this many of the stamps that it may draw go to a new one.
    pub fn divide(&self, seat: &mut Seat<(), SeatView>, calls: u64) -> Seat<(), SeatView>
        requires at { seat.old.table_id ≡ self.now.id }
        requires live { 0 < seat.old.me.0.view.initial }
        requires enough { calls ≤ seat.old.me.0.view.left }
        ensures first_table { seat.new.table_id ≡ seat.old.table_id }
        ensures first { seat.new.me ≡ (lessened_seat calls seat.old.me.0, seat.old.me.1) }
        ensures second_table { result.table_id ≡ seat.old.table_id }
        ensures second { result.me ≡ (branch_seat calls seat.old.me.0, []) }
    {
        self.divide_by::<Brand>(seat, calls)
    }

    /// Makes one seat of two hands' seats.
    pub fn unite(&self, seat: &mut Seat<(), SeatView>, other: Seat<(), SeatView>)
        requires first { seat.old.table_id ≡ self.now.id }
        requires second { other.table_id ≡ self.now.id }
        requires live { 0 < seat.old.me.0.view.initial }
        requires free { other.me.1 ≡ [] }
        requires right { other.me.0.view.has_right ≡ false }
        requires unmoved { other.me.0.moved ≡ false }
        ensures at { seat.new.table_id ≡ seat.old.table_id }
        ensures united { seat.new.me ≡ (joined_seats seat.old.me.0 other.me.0, seat.old.me.1) }

        // The rule bounds what both together know and may draw.
        ensures greatest { seat.new.me.0.view.known + rights_of seat.new.me.0.view ≤ seat.new.me.0.view.max }
        ensures budget { seat.new.me.0.view.left + length seat.new.me.0.view.stamps ≤ 2 ^ 63 }
    {
        self.words.shared.join_seat::<Unite>(seat, other);
        // A load tells what the rule says of a seat.
        self.words.shared.load::<LoadInserts>(seat, INSERTS);
    }
}
