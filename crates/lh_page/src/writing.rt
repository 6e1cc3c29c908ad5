//! Writing a page as bytes.
ghost use Rattle.std.specs.Prelude.{◌≡◌, ◌<◌, length};
ghost use Rattle.lh_page.specs.Format.{version_1, version_2, slot_size, page_size, FitsFormat, FitsSlot};
ghost use Rattle.lh_page.specs.Format.{IsWithinLimits};
ghost use Rattle.lh_page.specs.PageTable.{IsPage, WritesSlot, head_text, slot};
ghost use Rattle.lh_page.specs.Records.{FitsPage};
ghost use Rattle.lh_page.specs.Rows.{zeros};

use crate::format::{Format, HEAD, PAGE_1, PAGE_2, VERSION_1, VERSION_2};
use crate::page::{Page, PageKind};
use crate::pair::Pair;
use crate::slot::write_slot;
use byteorder::{ByteOrder, LittleEndian};

/// The 1,024 bytes of a page in an image of version 1: 16 bytes of fields, then 14 slots of 72 bytes. Numbers are
/// little-endian. What isn't used is zero. The page has at most 14 records, each with a key of at most 30 bytes
/// and a value of at most 40.
pub fn page_to_bytes(page: &Page) -> [u8; PAGE_1]
    requires { FitsFormat version_1 page.now.pairs }
    ensures { IsPage version_1 result page.now }
{
    let mut bytes = [0; PAGE_1];
    let head = head_bytes(page);
    write_page(&mut bytes, VERSION_1, &head, page);
    bytes
}

/// The 4,096 bytes of a page in an image of version 2: 16 bytes of fields, then 24 slots of 170 bytes. Numbers
/// are little-endian. What isn't used is zero.
pub fn page2_to_bytes(page: &Page) -> [u8; PAGE_2]
    ensures { IsPage version_2 result page.now }
{
    let mut bytes = [0; PAGE_2];
    let head = head_bytes(page);
    write_page(&mut bytes, VERSION_2, &head, page);
    bytes
}

/// Writes a page of a format, of which the head is known, over zeros.
fn write_page(bytes: &mut [u8], format: Format, head: &[u8; HEAD], page: &Page)
    requires blank { bytes.old ≡ zeros (page_size format) }
    requires limits { IsWithinLimits format }
    requires head { head.now ≡ head_text page.now }
    requires fits { FitsFormat format page.now.pairs }
    ensures { IsPage format bytes.new page.now }
{
    bytes[..HEAD].copy_from_slice(head);
    for place in 0..page.pairs.len() {
        write_at(bytes, format, place, &page.pairs.at(place));
    }
}

/// The head of a page.
fn head_bytes(page: &Page) -> [u8; HEAD]
    ensures text { result ≡ head_text page.now }
    ensures kept { FitsPage page.now.pairs }
{
    let mut bytes = [0; HEAD];
    bytes[0] = match page.kind {
        PageKind::Primary => 1,
        PageKind::Overflow => 2,
    };
    bytes[1] = page.pairs.len() as u8;
    bytes[2] = page.level;
    LittleEndian::write_u32(&mut bytes[4..8], page.bucket);
    LittleEndian::write_u32(&mut bytes[8..12], page.next);
    bytes
}

/// Writes a record into a slot of zeros.
fn write_at(bytes: &mut [u8], format: Format, place: usize, pair: &Pair)
    requires size { length bytes.old ≡ page_size format }
    requires limits { IsWithinLimits format }
    requires within { place < format.slots }
    requires blank { slot format bytes.old place ≡ zeros (slot_size format) }
    requires fits { FitsSlot format pair.now }
    ensures { WritesSlot format bytes.old bytes.new place pair.now }
{
    let slot = &mut bytes[format.slot_start(place)..format.slot_start(place + 1)];
    write_slot(slot, format, pair);
}
