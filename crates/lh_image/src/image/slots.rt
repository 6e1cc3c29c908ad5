//! The slots of a page, looked at where they stand.
ghost use Rattle.std.specs.Prelude.{◌≡◌, ◌<◌, ◌≤◌, Option, Some, None, ◌∷◌, [], not, true, ℕ, length, IfOk};
ghost use Rattle.std.specs.Prelude.{if◌then◌else◌, ◌&&◌};
ghost use Rattle.std.specs.List.{list_any};
ghost use Rattle.std.specs.Option.{is_some};
ghost use Rattle.std.specs.Result.{result_err};
ghost use Rattle.std.specs.Str.{bytes_eq};
ghost use Rattle.lh_addr.specs.Fnv.{code_of};
ghost use Rattle.lh_addr.specs.Growth.{address};
ghost use Rattle.lh_page.specs.declared.pair.Pair.{Pair};
ghost use Rattle.lh_page.specs.Format.{slot_size, page_size, IsWithinLimits};
ghost use Rattle.lh_page.specs.PageFields.{bad_slot, is_bad_record, key_length, pair_of, pairs_of, used_of};
ghost use Rattle.lh_page.specs.PageFields.{value_length};
ghost use Rattle.lh_page.specs.PageTable.{slot};
ghost use Rattle.lh_image.specs.declared.fault.ImageFault.TheVariants.{Slot, Misfit};
ghost use Rattle.lh_image.specs.Faults.{first_fault_of, where_so};
ghost use Rattle.lh_image.specs.LookUp.{IsSlotOf, met_first};
ghost use Rattle.lh_image.specs.Misplaced.{is_home};

use crate::fault::ImageFault;
use lh_addr::{Root, fnv1a};
use lh_page::format::{Format, LENGTHS};
use lh_page::{Key, is_zero};

/// One of the slots.
pub(crate) fn slot_at(page: &[u8], format: Format, place: usize) -> &[u8]
    requires size { length page.now ≡ page_size format }
    requires limits { IsWithinLimits format }
    requires within { place < format.slots }
    ensures slot { result.now ≡ slot format page.now place }
    ensures size { length result.now ≡ slot_size format }
{
    &page[format.slot_start(place)..format.slot_start(place + 1)]
}

/// Whether a slot in use has no record: a length out of its range, or a byte behind key or value that isn't zero.
#[tactic(auto, unfolding(lh_page::specs::PageFields::is_bad_record))]
pub(crate) fn is_bad_record(slot: &[u8], format: Format) -> bool
    requires size { length slot.now ≡ slot_size format }
    requires limits { IsWithinLimits format }
    ensures { result ≡ is_bad_record format slot.now }
{
    let key = slot[0] as usize;
    let value = slot[1] as usize;
    if key == 0 || key > format.key || value > format.value {
        return true;
    }
    let start = LENGTHS + format.key;
    !is_zero(&slot[LENGTHS + key..start]) || !is_zero(&slot[start + value..])
}

/// The key in a slot that has a record.
pub(crate) fn key_in(slot: &[u8], format: Format) -> &[u8]
    requires size { length slot.now ≡ slot_size format }
    requires limits { IsWithinLimits format }
    requires key { key_length slot.now ≤ format.key }
    ensures { result.now ≡ (pair_of format slot.now).key }
{
    &slot[LENGTHS..LENGTHS + slot[0] as usize]
}

/// The value in a slot that has a record.
pub(crate) fn value_in(slot: &[u8], format: Format) -> &[u8]
    requires size { length slot.now ≡ slot_size format }
    requires limits { IsWithinLimits format }
    requires value { value_length slot.now ≤ format.value }
    ensures value { result.now ≡ (pair_of format slot.now).value }
    ensures short { length result.now ≤ format.value }
{
    let start = LENGTHS + format.key;
    &slot[start..start + slot[1] as usize]
}

/// Whether a slot's record has the key.
#[inline]
pub(crate) fn has_key(slot: &[u8], format: Format, key: &[u8]) -> bool
    requires size { length slot.now ≡ slot_size format }
    requires limits { IsWithinLimits format }
    requires short { key_length slot.now ≤ format.key }
    ensures { result ≡ bytes_eq (pair_of format slot.now).key key.now }
{
    slot[0] as usize == key.len() && &slot[LENGTHS..LENGTHS + key.len()] == key
}

/// Whether a key's address is another bucket. That of the key that is looked for is known.
fn is_away(key: &[u8], is_sought: bool, root: &Root, bucket: u32) -> bool
    requires { is_sought ≡ true → is_home root.now bucket key.now ≡ true }
    ensures { result ≡ not (is_home root.now bucket key.now) }
{
    !is_sought && root.address(fnv1a(key)) != bucket
}

/// The first place of the key: the one that was met before, or else this one, if it is one.
fn met(before: Option<usize>, place: usize, is_sought: bool) -> Option<usize>
    ensures { result ≡ met_first before place is_sought }
{
    if is_sought && before.is_none() {
        Some(place)
    } else {
        before
    }
}

/// The place of the key among the records of a page that has the number `number`, or the fault of its slots. Each slot
/// is looked at once.
pub(crate) fn place_in(
    page: &[u8],
    format: Format,
    used: usize,
    root: &Root,
    bucket: u32,
    key: &Key,
    number: u32,
) -> Result<Option<usize>, ImageFault>
    requires size { length page.now ≡ page_size format }
    requires limits { IsWithinLimits format }
    requires used { used ≡ used_of page.now }
    requires few { used ≤ format.slots }
    requires home { is_home root.now bucket key.now ≡ true }
    ensures fault { result_err result ≡ first_fault_of (
        where_so (is_some (bad_slot format page.now)) (Slot number)
        ∷ where_so (list_any (λ (r : Pair). not (is_home root.now bucket r.key)) (pairs_of format page.now))
        (Misfit number)
        ∷ []) }
    ensures place { IfOk result (IsSlotOf format page.now key.now (pairs_of format page.now)) }
{
    let mut place_found = None;
    let mut strange = false;
    for place in 0..used {
        let slot = slot_at(page, format, place);
        if is_bad_record(slot, format) {
            return Err(ImageFault::Slot(number));
        }
        let own = key_in(slot, format);
        let is_sought = own == key.bytes();
        strange |= is_away(own, is_sought, root, bucket);
        place_found = met(place_found, place, is_sought);
    }
    if !is_zero(&page[format.slot_start(used)..]) {
        return Err(ImageFault::Slot(number));
    }
    if strange {
        return Err(ImageFault::Misfit(number));
    }
    Ok(place_found)
}
