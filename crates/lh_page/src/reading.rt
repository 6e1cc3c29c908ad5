//! Reading a page from bytes.
ghost use Rattle.std.specs.Prelude.{◌≡◌, ◌<◌, ◌≤◌, [], IfOk, OnOk, IfSome, IfNone, option_map, length};
ghost use Rattle.std.specs.Result.{result_err};
ghost use Rattle.lh_page.specs.Format.{version_1, version_2, slot_size, page_size, IsWithinLimits};
ghost use Rattle.lh_page.specs.Limits.{IsPageCapacity};
ghost use Rattle.lh_page.specs.PageFields.{head_of, page_of, pairs_of, used_of, bad_slot, fault_of, FirstFilled};
ghost use Rattle.lh_page.specs.PageFields.{UnusedAreZero};
ghost use Rattle.lh_page.specs.PageTable.{slot};

use crate::fault::PageFault;
use crate::format::{Format, PAGE_1, PAGE_2, VERSION_1, VERSION_2};
use crate::head::{PageHead, head_in, is_zero};
use crate::page::{Page, PageKind};
use crate::pairs::Pairs;
use crate::slot::read_slot;

/// The page that the 1,024 bytes of version 1 show, with room for `capacity` records (1 to 14), or the first
/// fault of the bytes.
///
/// All 14 slots are looked at, whatever the capacity is.
pub fn page_from_bytes(bytes: &[u8; PAGE_1], capacity: u32) -> Result<Page, PageFault>
    requires { (1 ≤ capacity) × (capacity ≤ version_1.slots) }
    ensures page { IfOk result (λ page. page ≡ page_of version_1 bytes.now) }
    ensures fault { result_err result ≡ fault_of version_1 bytes.now capacity }
{
    read_page(bytes, VERSION_1, capacity)
}

/// The page that the 4,096 bytes of version 2 show, with room for `capacity` records (1 to 24), or the first
/// fault of the bytes.
///
/// All 24 slots are looked at, whatever the capacity is.
pub fn page2_from_bytes(bytes: &[u8; PAGE_2], capacity: u32) -> Result<Page, PageFault>
    requires { IsPageCapacity capacity }
    ensures page { IfOk result (λ page. page ≡ page_of version_2 bytes.now) }
    ensures fault { result_err result ≡ fault_of version_2 bytes.now capacity }
{
    read_page(bytes, VERSION_2, capacity)
}

/// The page that bytes of a format show, or their first fault.
fn read_page(bytes: &[u8], format: Format, capacity: u32) -> Result<Page, PageFault>
    requires size { length bytes.now ≡ page_size format }
    requires limits { IsWithinLimits format }
    requires capacity { capacity ≤ format.slots }
    ensures page { IfOk result (λ page. page ≡ page_of format bytes.now) }
    ensures fault { result_err result ≡ fault_of format bytes.now capacity }
{
    let head = head_in(bytes);
    let mut page = Page {
        kind: if head.kind == 1 {
            PageKind::Primary
        } else {
            PageKind::Overflow
        },
        level: head.level,
        bucket: head.bucket,
        next: head.next,
        pairs: Pairs::new(),
    };
    pairs_behind_head(&head, bytes, format, capacity, &mut page.pairs)?;
    Ok(page)
}

/// Puts the records of a page, whose head has been read, in place of others, or tells the page's first fault. A page is
/// long to make and to move: a reader of many makes room for their records once.
#[tactic(auto, unfolding(crate::specs::PageFields::fault_of, crate::specs::PageFields::has_bad_kind))]
pub fn pairs_behind_head(
    head: &PageHead,
    bytes: &[u8],
    format: Format,
    capacity: u32,
    pairs: &mut Pairs,
) -> Result<(), PageFault>
    requires head { head.now ≡ head_of bytes.now }
    requires size { length bytes.now ≡ page_size format }
    requires limits { IsWithinLimits format }
    requires capacity { capacity ≤ format.slots }
    ensures pairs { OnOk result (pairs.new ≡ pairs_of format bytes.now) }
    ensures fault { result_err result ≡ fault_of format bytes.now capacity }
{
    if head.kind != 1 && head.kind != 2 || !head.clear {
        return Err(PageFault::Kind);
    }
    if head.used as u32 > capacity {
        return Err(PageFault::Used);
    }
    pairs.clear();
    read_pairs(bytes, format, head.used as usize, pairs)
}

/// Appends the records in the used slots to none, or tells the first faulty slot of all.
fn read_pairs(bytes: &[u8], format: Format, used: usize, pairs: &mut Pairs) -> Result<(), PageFault>
    requires size { length bytes.now ≡ page_size format }
    requires limits { IsWithinLimits format }
    requires few { used ≤ format.slots }
    requires used { used ≡ used_of bytes.now }
    requires empty { pairs.old ≡ [] }
    ensures pairs { OnOk result (pairs.new ≡ pairs_of format bytes.now) }
    ensures fault { result_err result ≡ option_map PageFault.Slot (bad_slot format bytes.now) }
{
    for place in 0..used {
        match read_slot(slot_at(bytes, format, place), format) {
            Some(pair) => pairs.push(pair),
            None => return Err(PageFault::Slot(place)),
        }
    }
    match first_filled(bytes, format, used) {
        Some(place) => Err(PageFault::Slot(place)),
        None => Ok(()),
    }
}

/// The first slot from a place on that isn't all zeros.
fn first_filled(bytes: &[u8], format: Format, used: usize) -> Option<usize>
    requires size { length bytes.now ≡ page_size format }
    requires limits { IsWithinLimits format }
    requires few { used ≤ format.slots }
    ensures found { IfSome result (λ place. FirstFilled format bytes.now used place) }
    ensures absent { IfNone result (UnusedAreZero format bytes.now used format.slots) }
{
    // Of a sound page nothing is filled, which one look at all of its unused slots shows.
    if is_zero(&bytes[format.slot_start(used)..]) {
        return None;
    }
    for place in used..format.slots {
        if !is_zero(slot_at(bytes, format, place)) {
            return Some(place);
        }
    }
    None
}

/// One of the slots.
fn slot_at(bytes: &[u8], format: Format, place: usize) -> &[u8]
    requires size { length bytes.now ≡ page_size format }
    requires limits { IsWithinLimits format }
    requires within { place < format.slots }
    ensures slot { result.now ≡ slot format bytes.now place }
    ensures size { length result.now ≡ slot_size format }
{
    &bytes[format.slot_start(place)..format.slot_start(place + 1)]
}
