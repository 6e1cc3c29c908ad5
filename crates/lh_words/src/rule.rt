//! The rule of the words.
ghost use Rattle.lh_words.specs.Seats.{first_seat};
ghost use Rattle.lh_words.specs.Table.{IsFileTable};

use crate::mode::Mode;
use crate::seat_view::SeatView;
use atomic_table::TableRule;
use lh_bucket::Listing;
use std::marker::PhantomData;

/// The rule that holds of a running file's words and of all its seats, between any two steps. The listing is what the
/// file was opened from.
pub struct RunningRule<M> {
    of: PhantomData<M>,
}

impl<M: Mode> TableRule<(), SeatView, Listing> for RunningRule<M> {
    ghost holds = { IsFileTable M.traced };

    ghost first = { first_seat M.traced };
}
