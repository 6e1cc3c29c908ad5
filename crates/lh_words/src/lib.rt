//! The words that all threads on a linear hash file change, under one rule, and the history of the file as far as it is
//! traced.
//!
//! A file has four words in a table: the root with the right to split, the next stamp, and the counts of inserts and of
//! deletes. They change in single atomic steps of a few kinds. Whoever takes a step has a seat at the table: a thread
//! by its hand, and in a traced file each bucket, whose seat is with the hand that acts on it. The rule speaks of the
//! words and of what is known of each seat, and holds between any two steps; of a traced file it says that the acts are
//! one legal history of a plain map, and that each bucket holds just what the history leaves of its keys. A function
//! here is one step, or a few that belong together, and its contract says what the step tells and does to the seat.
//!
//! Nothing here knows of locks, of how a call finds its bucket, or of what a hand keeps beside its seat.
#![tactic(auto)]

mod acts;
mod begin;
mod counts;
mod end;
mod halves;
pub mod laws;
mod mode;
mod numbers;
mod offsets;
mod perches;
mod plays;
mod root;
mod rule;
mod seat_view;
mod shares;
mod shown;
mod table;
mod telling;
mod view;

pub use acts::{Stamped, StampedChange, StampedSearch};
pub use mode::{Mode, Traced, Untraced};
pub use numbers::FileWords;
pub use perches::{give_back, perch_of, resting, taken};
pub use seat_view::{Entry, SeatView};
pub use table::WordTable;
pub use view::View;
