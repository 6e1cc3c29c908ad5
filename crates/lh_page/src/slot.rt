//! The slots of a page.
ghost use Rattle.std.specs.Prelude.{◌≡◌, Some, None, length, if◌then◌else◌};
ghost use Rattle.lh_page.specs.Format.{slot_size, FitsSlot, IsWithinLimits};
ghost use Rattle.lh_page.specs.PageTable.{slot_text};
ghost use Rattle.lh_page.specs.PageFields.{pair_of, is_bad_record};
ghost use Rattle.lh_page.specs.Rows.{zeros};

use crate::format::{Format, LENGTHS};
use crate::head::is_zero;
use crate::key::Key;
use crate::pair::Pair;
use crate::value::Value;

/// The record in a slot, if no part of the slot is faulty.
#[tactic(auto, unfolding(crate::specs::PageFields::is_bad_record))]
pub fn read_slot(bytes: &[u8], format: Format) -> Option<Pair>
    requires size { length bytes.now ≡ slot_size format }
    requires limits { IsWithinLimits format }
    ensures { result ≡ (if is_bad_record format bytes.now then None else Some (pair_of format bytes.now)) }
{
    let key_length = bytes[0] as usize;
    let value_length = bytes[1] as usize;
    if key_length > format.key || value_length > format.value {
        return None;
    }
    let start = LENGTHS + format.key;
    if !is_zero(&bytes[LENGTHS + key_length..start]) || !is_zero(&bytes[start + value_length..]) {
        return None;
    }
    let Ok(key) = Key::new(&bytes[LENGTHS..LENGTHS + key_length]) else {
        return None;
    };
    let Ok(value) = Value::new(&bytes[start..start + value_length]) else {
        return None;
    };
    Some(Pair { key, value })
}

/// Writes a record into a slot of zeros.
pub fn write_slot(bytes: &mut [u8], format: Format, pair: &Pair)
    requires blank { bytes.old ≡ zeros (slot_size format) }
    requires fits { FitsSlot format pair.now }
    ensures text { bytes.new ≡ slot_text format (Some pair.now) }
    ensures size { length bytes.new ≡ slot_size format }
{
    let key = pair.key.bytes();
    let value = pair.value.bytes();
    bytes[0] = key.len() as u8;
    bytes[1] = value.len() as u8;
    bytes[LENGTHS..LENGTHS + key.len()].copy_from_slice(key);
    let start = LENGTHS + format.key;
    bytes[start..start + value.len()].copy_from_slice(value);
}
