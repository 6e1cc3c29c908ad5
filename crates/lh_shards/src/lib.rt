//! Many tables as one: up to 1,024 linear hash files, of which the code of a key chooses one.
//!
//! One file has 65,536 buckets at most, and each call of each thread adds to its one stamp word. [`Shards`] has room
//! for as many times more records as it has files, and calls on different files share no word.
//!
//! A caller takes part with [`Hands`], one hand of each file. Each call is that of the key's file, and leaves the hands
//! of the others as they were. The law [`shards_are_one_map`](laws::shards_are_one_map) joins legal histories of the
//! files to those of one plain map.
//!
//! The files are untraced, or traced: see [`Openings`].
//!
//! ```text
//! let (shards, mut hands) = Shards::create(alloc, config, 8, false)?;
//! shards.put(&rt, &mut hands, &key, &value)?          // true: the record is new
//! shards.get(&rt, &mut hands, &key)?                  // Some(value)
//! let second = shards.split_hands(&mut hands, 1_000)?;    // 1,000 calls of each file, for another thread
//! ```
#![tactic(auto)]

mod calls;
mod closed;
mod closed_shard;
mod closing;
mod counts;
mod dividing;
mod fault;
mod hands;
mod joining;
mod known_key;
pub mod laws;
mod listings;
mod number;
mod opening;
mod openings;
mod room;
mod scan;
mod settling;
mod shards;
mod snapshot;
mod told;

pub use closed::ClosedShards;
pub use closed_shard::ClosedShard;
pub use fault::{
    CreateFault, JoinShardsFault, ListingsFault, OpenFault, ShardFault, ShardRoomFault, SplitFault,
};
pub use hands::Hands;
pub use listings::empty_listings;
pub use number::{MOST_SHARDS, mixed, shard_of};
pub use openings::Openings;
pub use scan::ShardScan;
pub use shards::{Shards, SizedShards};
