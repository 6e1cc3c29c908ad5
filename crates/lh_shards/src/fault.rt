//! Why shards are not created, opened or settled, and why their hands are not divided or joined.
ghost use Rattle.std.specs.Prelude.{◌≡◌};

use crate::hands::Hands;
use lh_bucket::{ListingFault, Memory};
use lh_file::{RoomFault, SettleFault};
use thiserror::Error;

/// Why shards are not created.
#[derive(Clone, Copy, Debug, PartialEq, Eq, Error)]
pub enum CreateFault {
    /// There are to be none, or more than 1,024.
    #[error("not 1 to 1024 shards")]
    Count,
    /// A growth was refused.
    #[error("no memory")]
    Memory,
}

impl From<Memory> for CreateFault {
    ghost use Rattle.std.specs.Prelude.{◌≡◌};
    ghost use Rattle.lh_shards.specs.declared.fault.CreateFault.TheVariants.{Memory as NoMemory};

    ghost from_gives = { λ _ fault. fault ≡ NoMemory };

    fn from(_memory: Memory) -> Self {
        CreateFault::Memory
    }
}

/// Why hands are not divided. They are as they were.
#[derive(Clone, Copy, Debug, PartialEq, Eq, Error)]
pub enum SplitFault {
    /// The hand of this shard, the first such one, may make only so many calls, fewer than its new hand was to have.
    #[error("{left} calls left in shard {shard}")]
    Spent { shard: u32, left: u64 },
    /// A growth was refused.
    #[error("no memory")]
    Memory,
}

impl From<Memory> for SplitFault {
    ghost use Rattle.std.specs.Prelude.{◌≡◌};
    ghost use Rattle.lh_shards.specs.declared.fault.SplitFault.TheVariants.{Memory as NoMemory};

    ghost from_gives = { λ _ fault. fault ≡ NoMemory };

    fn from(_memory: Memory) -> Self {
        SplitFault::Memory
    }
}

/// Hands that were to be joined. There was no memory for the acts of the second hand of this shard, and of no shard
/// before it. All hands are as they were.
#[derive(Debug, Drop, Error)]
#[error("no memory in shard {shard}")]
pub struct JoinShardsFault {
    pub shard: u32,
    pub first: Hands,
    pub second: Hands,
}

/// Why closed shards are not settled: what is wrong in the first shard that is not.
#[derive(Clone, Copy, Debug, PartialEq, Eq, Error)]
#[error("shard {shard}: {fault}")]
pub struct ShardFault {
    pub shard: u32,
    pub fault: SettleFault,
}

/// Why shards are not opened from listings: the first reason that applies, in this order.
#[derive(Clone, Copy, Debug, PartialEq, Eq, Error)]
pub enum OpenFault {
    /// There is no listing, or there are more than 1,024.
    #[error("not 1 to 1024 listings")]
    Count,
    /// The configuration of this listing, the first such one, is not that of the first listing.
    #[error("shard {shard} has another configuration")]
    Config {
        shard: u32,
    },
    /// The record at this place of a bucket of this shard, the first such record, belongs to another shard.
    #[error("the record at place {place} of bucket {bucket} of shard {shard} belongs to another shard")]
    Misplaced {
        shard: u32,
        bucket: u32,
        place: usize,
    },
    /// A growth was refused.
    #[error("no memory")]
    Memory,
}

impl From<Memory> for OpenFault {
    ghost use Rattle.std.specs.Prelude.{◌≡◌};
    ghost use Rattle.lh_shards.specs.declared.fault.OpenFault.TheVariants.{Memory as NoMemory};

    ghost from_gives = { λ _ fault. fault ≡ NoMemory };

    fn from(_memory: Memory) -> Self {
        OpenFault::Memory
    }
}

/// Shards were to be opened from listings, and a record of the one at this place, the first such one, has no room in their
/// buckets: the first such record there. The records of [`Shards`](crate::Shards) have room for all.
#[derive(Clone, Copy, Debug, PartialEq, Eq, Error)]
#[error("shard {shard}: {fault}")]
pub struct ShardRoomFault {
    pub shard: usize,
    pub fault: RoomFault,
}

/// Why the listings of closed shards are not there: the fault that the closed file of this shard, the first such one,
/// has as a listing.
#[derive(Clone, Copy, Debug, PartialEq, Eq, Error)]
#[error("shard {shard}: {fault}")]
pub struct ListingsFault {
    pub shard: u32,
    pub fault: ListingFault,
}
