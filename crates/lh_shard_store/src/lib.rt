//! Up to 1,024 files as one open table, whose sessions have the calls of any other table's.
//!
//! ```text
//! let mut users = ShardStore::new(rt.alloc(), Config::default(), 8)?;
//! let mut session = users.session(&rt)?;
//! session.put(b"Ada", b"0171")?;                      // true: the record is new
//! ```
//!
//! A table of one file has 65,536 buckets at most, and each call of each thread adds to its one stamp word. This one has
//! room for as many times more records as it has shards, and calls on different shards share no word. Its history isn't
//! traced, and there is no snapshot of it, since its shards have no moment in common.
#![tactic(auto)]

mod all_shards;
mod shard_store;
mod sharded_session;

pub use lh_bucket::Listing;
pub use lh_shards::{ClosedShards, CreateFault, ListingsFault, MOST_SHARDS, OpenFault, SplitFault};
pub use lh_store::{
    BucketCopy, CallFault, Compared, Config, ExtendFault, FileFault, Key, KeyLength, Memory,
    Session, Value, ValueLength,
};
pub use shard_store::ShardStore;
pub use sharded_session::ShardedSession;
