//! What tests of a running file share: files and hands, tasks for hands as data, how far a test has come, and gates
//! that hold calls.
#![tactic(auto)]

mod files;
mod gates;
mod progress;
mod settled;
mod tasks;

pub use files::{
    closed, closed_by, file_of, join_again, joined, made, made_again, second_of, split_once,
};
pub use gates::{GiveWay, Hold};
pub use progress::Progress;
pub use settled::{empty_again, settle_again, settled_acts};
pub use tasks::{
    BUSY, FIRST_RIGHT, FOURTH_RIGHT, REFUSED, SECOND_RIGHT, THIRD_RIGHT, Task, Told, asked, done,
    drop_right, found, one, split,
};
