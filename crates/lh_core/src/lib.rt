//! The world of a linear hash file: sixteen workers and one splitter that take atomic steps over
//! its buckets, in any order.
//!
//! Whatever the order, the accepted acts have the replies of one plain map, and each record of that
//! map stands in the bucket of its address: [`step`](World::step) says so at every moment, and
//! [`run`] of whole lists of events. [`serial`] is the file with one caller, and [`serial_from`] that of a listing.
//!
//! The twelve steps. A step that isn't allowed is refused with the first refusal of its row that applies, and changes
//! nothing:
//!
//! - C1: the worker or the splitter isn't in the state of the second column, or there is no such worker.
//! - C2: the bucket is held; searches share one with each other. At `SplitLock` it is the bucket that splits.
//! - C3: the bucket's level is above the worker's.
//! - C4: the bucket's level is the worker's.
//! - C5: a split is under way.
//! - C6: the file is full.
//! - C7: there was no memory; of the acts, only that of an insert takes any.
//!
//! | Event | Allowed where | Refused | What it does | Effect |
//! |---|---|---|---|---|
//! | `Call(worker, call)` | the worker is idle | C1 | the call comes in | `Called` |
//! | `Read(worker)` | it has a call | C1 | it aims: the bucket of its key by the root, at that bucket's level | `Aim` |
//! | `Lock(worker)` | it has an aim | C1, C2 | it holds the bucket | `Locked` |
//! | `Rehash(worker)` | it holds a bucket, and has not acted | C1, C4 | it lets go, and aims one level up | `Aim` |
//! | `Act(worker)` | it holds a bucket, and has not acted | C1, C3, C7 | the bucket serves the call | `Answered` |
//! | `Release(worker)` | it holds a bucket | C1 | it lets go, and is idle | `Released`, or `GivenUp` before the act |
//! | `SplitBegin` | no split is under way | C5, C6 | the splitter has the right to split | `Begun` |
//! | `SplitLock` | the split has begun | C1, C2 | it holds the bucket that splits, and the new one | `Both` |
//! | `SplitMove` | it holds both, with nothing moved | C1, C7 | the records are divided, both levels raised | `Moved` |
//! | `SplitRelease` | it holds both | C1 | it lets both go | `Freed` |
//! | `SplitPoint` | the records are moved, nothing is held | C1 | one bucket more, and the right is free | `Point` |
//! | `SplitDrop` | the split has begun, with nothing moved or held | C1 | the right is free | `Dropped` |
#![tactic(auto)]

mod control;
mod effect;
mod event;
pub mod laws;
mod listing;
mod opened;
mod quiet;
mod ran;
mod row;
mod serial_ran;
mod splitting;
mod state;
mod working;
mod world;

pub use effect::{Effect, Refusal};
pub use event::Event;
pub use lh_bucket::Memory;
pub use opened::{count_before, serial_from};
pub use ran::{Ran, run};
pub use serial_ran::{SerialRan, Served, serial};
pub use state::{SplitState, WorkerState};
pub use world::World;
