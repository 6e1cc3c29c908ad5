//! Effects of events, and refusals.

use lh_bucket::Reply;
use thiserror::Error;

/// What an accepted event did.
#[derive(Clone, Copy, Debug, PartialEq, Eq)]
pub enum Effect {
    /// A call came in.
    Called,
    /// A worker aims at this bucket, with this level: the effect of reading and of rehashing.
    Aim { level: u8, bucket: u32 },
    /// A worker holds this bucket, whose local level is this.
    Locked { bucket: u32, level: u8 },
    /// An act got this reply.
    Answered(Reply),
    /// A worker that had acted is idle.
    Released,
    /// A worker that had not acted is idle, and its call has no reply.
    GivenUp,
    /// A split of bucket `old` into itself and `new` has begun.
    Begun { old: u32, new: u32 },
    /// The splitter holds both buckets.
    Both { old: u32, new: u32 },
    /// The records are divided.
    Moved { old: u32, new: u32 },
    /// The splitter holds nothing.
    Freed,
    /// The split is done, and the file has this number of buckets.
    Point { buckets: u32 },
    /// The split was given up.
    Dropped,
}

/// Why an event is refused. The world is as it was before.
#[derive(Clone, Copy, Debug, PartialEq, Eq, Error)]
pub enum Refusal {
    /// The worker or the splitter isn't in a state for the event, or there is no such worker (C1).
    #[error("not in a state for it")]
    WrongState,
    /// The bucket is held by another (C2).
    #[error("the bucket is held")]
    Held,
    /// The bucket's level is above the worker's, which has to rehash first (C3).
    #[error("the place has to rehash")]
    MustRehash,
    /// The bucket's level is the worker's (C4).
    #[error("there is nothing to rehash")]
    NothingToRehash,
    /// A split is under way (C5).
    #[error("a split is under way")]
    SplitBusy,
    /// The file has its greatest number of buckets (C6).
    #[error("the file is full")]
    FileFull,
    /// Memory ran out (C7), as it may for the act of an insert and for the moving of a split's records
    /// alone. The same event once more may be accepted.
    #[error("no memory")]
    Memory,
}
