//! A linear hash file that many threads use at once. Of a traced one the history is proved: whatever the schedule, its
//! calls are those of one plain map. Of any other, recorded acts can be settled after the run.
//!
//! While it works a file can be copied, all of it at one moment ([`HashFile::snapshot`]) or bucket by bucket
//! ([`Scan`]).
//!
//! Each thread takes part with a [`Hand`] of its own. What all of them change stands in four words: the
//! root with the right to split, the next stamp, and the counts of inserts and of deletes. They change
//! in single atomic steps of a few kinds, under one rule about the words and about what each hand knows,
//! has and did; the rule holds between any two steps. Each bucket has a reader-writer lock of its own.
//! A call holds one bucket at a time, a split the two that it divides, the lower number first, and a snapshot all of
//! them, in the same order.
//!
//! The steps that calls and splits take are those of the stepping core, and a comment names each where it
//! is taken: `Call`, `Read`, `Lock`, `Rehash`, `Act` and `Release` of a call, `SplitBegin`, `SplitLock`,
//! `SplitMove`, `SplitRelease`, and `SplitPoint` or `SplitDrop` of a split.
//!
//! ```text
//! let (file, mut first) = HashFile::create(alloc, config, true, NoGate)?;
//! let mut second = file.split_hand(&mut first, 1_000)?;        // for another thread
//! file.insert(&rt, &mut first, key, value)?.reply()            // Inserted
//! file.search(&rt, &mut second, key)?.reply()                  // Found(value)
//! let hand = file.join_hands(first, second)?;
//! let (closed, acts) = file.close(&rt, hand)?;
//! settle(alloc, &Listing::empty(alloc, config)?, &closed, &acts)?.len()    // 2: one legal history
//! ```
#![tactic(auto)]

mod buckets;
mod calls;
mod close;
mod create;
mod crew;
mod fault;
mod file;
mod gate;
pub mod laws;
mod opening;
mod room;
pub mod scan_laws;
pub mod settle_laws;
mod snapshots;
mod words;

pub use buckets::brand::{FileBrand, Unbranded};
pub use buckets::segment::{Segment, SizedSegment};
pub use calls::atomic::Compared;
pub use calls::coded::{Coded, CodedKey};
pub use calls::parts;
pub use fault::{FileFault, JoinAllFault, JoinFault, RoomFault};
pub use file::{HashFile, SizedFile};
pub use gate::{Gate, NoGate, Point};
pub use lh_bucket::{Memory, WIDEST_ROOM};
pub use lh_settling::{ActLine, Acts, Closed, History, SettleFault, settle, settle_snapshot};
pub use lh_words::{Mode, Traced, Untraced, View};
pub use opening::Opening;
pub use snapshots::bucket_copy::BucketCopy;
pub use snapshots::scan::Scan;
pub use words::hand::Hand;
pub use words::load::Load;
pub use words::right::Right;
