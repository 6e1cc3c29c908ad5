//! What the hands of a file have done, and whether it is one legal history.
//!
//! An act is a call that was served, its reply and its stamp. Acts are settled with a closed file, or with a snapshot
//! of one, where in the order of their stamps they are one legal history of a plain map, and the file holds just what
//! that leaves, each record in the bucket of its address. Nothing here knows of threads, words or locks: whoever has
//! the parts of a closed file and the acts can settle them.
//!
//! ```text
//! let closed = Closed::new(config, RootWord::new(2, false), 1, lists);
//! let history = settle(alloc, &Listing::empty(alloc, config)?, &closed, &Acts::new(lines))?;
//! history.at(0).reply                                                      // the first reply that was given
//! ```
#![tactic(auto)]

mod act;
mod closed_file;
mod contents;
mod history;
pub mod laws;
mod order;
mod plain_map;
mod replay;
mod settle_fault;
mod settling;

pub use act::{ActLine, Acts};
pub use closed_file::Closed;
pub use history::History;
pub use lh_bucket::Memory;
pub use settle_fault::SettleFault;
pub use settling::{settle, settle_snapshot};
