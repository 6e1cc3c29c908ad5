//! Whether records have room for a key and a value.
ghost use Rattle.std.specs.Prelude.{◌+◌, length, IfErr, OnOk};
ghost use Rattle.lh_store.specs.Rooms.{HasRoomFor, TellsRoom};

use crate::fault::CallFault;
use lh_file::WIDEST_ROOM;
use lh_page::{Key, Value};

/// Makes sure that records have room for so many bytes, key and value together.
#[inline(always)]
pub(crate) fn check_room<const ROOM: usize>(bytes: usize) -> Result<(), CallFault>
    ensures ok { OnOk result (HasRoomFor ROOM bytes) }
    ensures err { IfErr result (TellsRoom ROOM bytes) }
{
    if ROOM < WIDEST_ROOM && ROOM < bytes {
        return Err(CallFault::Room { bytes, room: ROOM });
    }
    Ok(())
}

/// Makes sure that records have room for this key with this value.
#[inline(always)]
pub(crate) fn check_fit<const ROOM: usize>(key: &Key, value: &Value) -> Result<(), CallFault>
    ensures fits { OnOk result (HasRoomFor ROOM (length key.now + length value.now)) }
    ensures err { IfErr result (TellsRoom ROOM (length key.now + length value.now)) }
{
    check_room::<ROOM>(key.bytes().len() + value.bytes().len())
}
