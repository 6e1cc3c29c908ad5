//! The faults of a session's calls, and of an opening.
ghost use Rattle.std.specs.Prelude.{◌≡◌};

use lh_file::{FileFault, Memory, RoomFault};
use lh_page::{KeyLength, ValueLength};
use thiserror::Error;

/// Why a session's call was not made. No record has changed.
#[derive(Clone, Copy, Debug, PartialEq, Eq, Error)]
pub enum CallFault {
    /// A key has 1 to 56 bytes.
    #[error("{0}")]
    Key(KeyLength),
    /// A value has 0 to 112 bytes.
    #[error("{0}")]
    Value(ValueLength),
    /// Key and value have so many bytes together, and the table's records have room for fewer. A table whose type names no
    /// room has it for all.
    #[error("{bytes} bytes of key and value, and room for {room}")]
    Room { bytes: usize, room: usize },
    /// Memory ran out, the session may make no more calls, or (a defect) a bucket isn't what it has to be.
    #[error("{0}")]
    File(FileFault),
}

impl From<KeyLength> for CallFault {
    ghost use Rattle.lh_store.specs.declared.fault.CallFault.TheVariants as case;

    ghost from_gives = { λ length fault. fault ≡ case.Key length };

    fn from(length: KeyLength) -> Self {
        CallFault::Key(length)
    }
}

impl From<ValueLength> for CallFault {
    ghost use Rattle.lh_store.specs.declared.fault.CallFault.TheVariants as case;

    ghost from_gives = { λ length fault. fault ≡ case.Value length };

    fn from(length: ValueLength) -> Self {
        CallFault::Value(length)
    }
}

impl From<FileFault> for CallFault {
    ghost use Rattle.lh_store.specs.declared.fault.CallFault.TheVariants as case;

    ghost from_gives = { λ file fault. fault ≡ case.File file };

    fn from(fault: FileFault) -> Self {
        CallFault::File(fault)
    }
}

impl From<Memory> for CallFault {
    fn from(_memory: Memory) -> Self {
        CallFault::File(FileFault::Memory)
    }
}

/// Why not all records were added. Those in front of the first that was not are there.
#[derive(Clone, Copy, Debug, PartialEq, Eq, Error)]
#[error("record {done}: {fault}")]
pub struct ExtendFault {
    /// How many records were gone through: the place of the one that was not added, from 0 on.
    pub done: usize,
    /// How many of these were new.
    pub added: usize,
    /// Why it was not added.
    pub fault: CallFault,
}

/// Why a table was not opened from a store, at the room that its type names.
#[derive(Clone, Copy, Debug, PartialEq, Eq, Error)]
pub enum OpenStoreFault {
    #[error("no memory")]
    Memory,
    /// The first record, by bucket and place, that has no room.
    #[error("{0}")]
    Room(RoomFault),
}

impl From<Memory> for OpenStoreFault {
    ghost use Rattle.lh_store.specs.declared.fault.OpenStoreFault.TheVariants as case;

    ghost from_gives = { λ _ fault. fault ≡ case.Memory };

    fn from(_memory: Memory) -> Self {
        OpenStoreFault::Memory
    }
}

impl From<RoomFault> for OpenStoreFault {
    ghost use Rattle.lh_store.specs.declared.fault.OpenStoreFault.TheVariants as case;

    ghost from_gives = { λ room fault. fault ≡ case.Room room };

    fn from(room: RoomFault) -> Self {
        OpenStoreFault::Room(room)
    }
}
