//! Buckets of a linear hash file: calls and their replies, the trait of all buckets with two of
//! them, the answers that a bucket gives, and listings of whole files.
//!
//! A bucket is a finite map from keys to values, with a number and a level. Whoever stands on this
//! crate needs to know nothing of pages.
//!
//! ```text
//! let mut old = PagedBucket::make(alloc, 1, 14, 0, Some(0))?;    // bucket 0 of a file of one bucket
//! old.compare(fnv1a(key.bytes()), 0)                             // Here
//! old.serve(&Call::Insert(key, value), 0)?.reply()               // Inserted
//! let mut new = PagedBucket::make(alloc, 1, 14, 1, None)?;       // bucket 1, not filled yet
//! old.split_into(&mut new)?;                                     // both are at level 1 now
//! ```
#![tactic(auto)]

mod answer;
mod bucket;
mod call;
mod change;
mod copied;
mod home;
pub mod laws;
mod leaving;
mod listing;
mod listing_faults;
mod paged_bucket;
mod plain_bucket;
mod verdict;

pub use answer::Answer;
pub use bucket::Bucket;
pub use call::{Call, Reply};
pub use change::{Change, ChangeReply};
pub use copied::copied_pairs;
pub use home::Home;
pub use lh_page::Memory;
pub use lh_page::limits::WIDEST_ROOM;
pub use listing::{Listing, ListingFault};
pub use paged_bucket::{PagedBucket, SizedBucket};
pub use plain_bucket::PlainBucket;
pub use verdict::Verdict;
