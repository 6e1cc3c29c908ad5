//! Pages that are looked at where they stand: nothing of them is copied but what look-ups want.
ghost use Rattle.std.specs.Prelude.{◌≡◌, ◌<◌, ◌≤◌, true, drop, length, IfSome};
ghost use Rattle.lh_page.specs.Format.{IsWithinLimits, page_size, slot_start};
ghost use Rattle.lh_page.specs.PageFields.{all_zero};
ghost use Rattle.lh_image.specs.Layout.{view_of};
ghost use Rattle.lh_image.specs.LookUp.{IsOpenedImage};
ghost use Rattle.lh_image.specs.Misplaced.{is_home};
ghost use Rattle.lh_image.specs.Plain.{ArePlain, HasMarks, IsFaultlessPage, IsPut};

use crate::checked::index::{MOST, NOTHING, PageIndex, mark_of};
use crate::header::Header;
use crate::image::slots::{is_bad_record, key_in, slot_at};
use crate::image::walk::{fault_of_head, head_at, names_bad_next, page_at};
use lh_addr::{Root, fnv1a};
use lh_page::format::Format;
use lh_page::{PageHead, is_zero};

/// Whether each of a page's used slots has a record of the bucket, and the others are zeros. The mark of each key is put
/// at its place.
fn mark_records(
    page: &[u8],
    format: Format,
    used: usize,
    root: &Root,
    bucket: u32,
    marks: &mut [u8; MOST],
) -> bool
    requires size { length page.now ≡ page_size format }
    requires limits { IsWithinLimits format }
    requires few { used ≤ format.slots }
    requires room { format.slots ≤ MOST }
    ensures marked { result ≡ true → HasMarks format page.now (is_home root.now bucket) used marks.new }
    ensures clear { result ≡ true → all_zero (drop (slot_start format used) page.now) ≡ true }
{
    for place in 0..used {
        let slot = slot_at(page, format, place);
        if is_bad_record(slot, format) {
            return false;
        }
        let code = fnv1a(key_in(slot, format));
        if root.address(code) != bucket {
            return false;
        }
        marks[place] = mark_of(code);
    }
    is_zero(&page[format.slot_start(used)..])
}

/// What look-ups want of a page, if nothing is wrong with it by itself.
fn entry_of(
    bytes: &[u8],
    header: &Header,
    root: &Root,
    number: u32,
    head: &PageHead,
) -> Option<PageIndex>
    requires opened { IsOpenedImage bytes.now header.now root.now }
    requires from { 1 ≤ number }
    requires below { number < header.now.pages }
    requires head { head.now ≡ (view_of bytes.now).head number }
    ensures { IfSome result (IsFaultlessPage bytes.now number) }
{
    if let Some(_fault) = fault_of_head(bytes, header, root, number, head) {
        return None;
    }
    if names_bad_next(bytes, header, root, number, head) {
        return None;
    }
    let page = page_at(bytes, header, root, number);
    let format = header.version.format();
    let used = head.used as usize;
    let mut marks = [0; MOST];
    if !mark_records(page, format, used, root, head.bucket, &mut marks) {
        return None;
    }
    Some(PageIndex {
        marks,
        used: head.used,
        next: head.next,
    })
}

/// Puts the entry of a page into its place, if nothing is wrong with the page by itself: how many records it has.
fn put_plain(
    bytes: &[u8],
    header: &Header,
    root: &Root,
    number: u32,
    index: &mut [PageIndex],
) -> Option<u8>
    requires opened { IsOpenedImage bytes.now header.now root.now }
    requires from { 1 ≤ number }
    requires below { number < header.now.pages }
    requires size { length index.old ≡ header.now.pages }
    ensures size { length index.new ≡ length index.old }
    ensures put { IfSome result (IsPut bytes.now number index.old index.new) }
{
    let head = head_at(bytes, header, root, number);
    let Some(entry) = entry_of(bytes, header, root, number, &head) else {
        return None;
    };
    index[number as usize] = entry;
    Some(head.used)
}

/// Whether nothing is wrong with any page by itself, nor with the number of all records. Then the index has what
/// look-ups want of each, and of the header's page nothing.
pub(crate) fn are_plain(bytes: &[u8], header: &Header, root: &Root, index: &mut [PageIndex]) -> bool
    requires opened { IsOpenedImage bytes.now header.now root.now }
    requires size { length index.old ≡ header.now.pages }
    ensures size { length index.new ≡ length index.old }
    ensures plain { result ≡ true → ArePlain bytes.now header.now.pages index.new header.now.records }
{
    index[0] = NOTHING;
    let mut sum = 0_u64;
    for page in 1..header.pages {
        let Some(used) = put_plain(bytes, header, root, page, index) else {
            return false;
        };
        sum += used as u64;
    }
    sum == header.records
}
