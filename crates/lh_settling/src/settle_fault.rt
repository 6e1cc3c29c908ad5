//! Why a file is not settled.
ghost use Rattle.std.specs.Prelude.{◌≡◌};

use lh_bucket::{Memory, Reply as ReplyOf};
use lh_page::{Key, KeyText};
use std::alloc::AllocError;
use thiserror::Error;

/// Why a closed file is not settled: the first reason that holds, in this order.
#[derive(Clone, Copy, Debug, PartialEq, Eq, Error)]
pub enum SettleFault {
    /// A hand still had the right to split when the file was closed.
    #[error("split under way")]
    SplitUnderWay,
    /// The stamps of the acts, sorted, are not 0, 1 and so on up to the last one that was drawn:
    /// this is the first place where they differ, or where one of the two rows ends. A hand
    /// that was never joined is missed so, and so is every act of a file that keeps none.
    #[error("missing stamp {0}")]
    MissingStamp(u64),
    /// The act with this stamp, the least such one, was given another reply than it was due by the
    /// acts before it.
    #[error("reply at {stamp}")]
    Reply {
        stamp: u64,
        given: ReplyOf,
        due: ReplyOf,
    },
    /// The least key that doesn't stand in the file just as the history leaves it: it stands nowhere
    /// or more than once, has another value, or should not be there.
    #[error("content of {}", KeyText(.0))]
    Content(Key),
    /// The key stands in another bucket than that of its address: the least bucket in which that is
    /// so, and the least such key there. The bucket is named by its place in the file.
    #[error("place of {} in bucket {bucket}", KeyText(.key))]
    Placed {
        bucket: u32,
        key: Key,
    },
    /// A growth was refused. It says nothing of the file, and the same call may be made again.
    #[error("no memory")]
    Memory,
}

impl From<Memory> for SettleFault {
    ghost use Rattle.std.specs.Prelude.{◌≡◌};
    ghost use Rattle.lh_settling.specs.declared.settle_fault.SettleFault.TheVariants.{Memory as NoMemory};

    ghost from_gives = { λ _ e. e ≡ NoMemory };

    fn from(_error: Memory) -> Self {
        SettleFault::Memory
    }
}
