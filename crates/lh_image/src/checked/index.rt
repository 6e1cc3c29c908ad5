//! What is kept of the pages of an image that was checked, so that a look-up goes to few of them.
ghost use Rattle.std.specs.Prelude.{◌≡◌, ◌<◌, ◌≤◌, false, ℕ, length};
ghost use Rattle.lh_addr.specs.Fnv.{code_of};
ghost use Rattle.lh_page.specs.Format.{IsWithinLimits, page_size};
ghost use Rattle.lh_page.specs.PageFields.{is_bad_record, pair_of, used_of};
ghost use Rattle.lh_page.specs.PageTable.{slot};
ghost use Rattle.lh_image.specs.Checked.{AreIndexed, IsIndexed, code_mark};
ghost use Rattle.lh_image.specs.Image.{IsImage, listing_of};
ghost use Rattle.lh_image.specs.Layout.{view_of};
ghost use Rattle.lh_image.specs.LookUp.{IsOpenedImage};

use crate::header::Header;
use crate::image::slots::{key_in, slot_at};
use crate::image::walk::page_at;
use crate::laws::image_is_of_only_listing;
use crate::reading::page::{next_of, used_of};
use lh_addr::{Root, fnv1a};
use lh_page::format::{Format, VERSION_2};

/// The most records that a page of either version has.
pub(crate) const MOST: usize = VERSION_2.slots;

/// What is kept of the header's page, and of any before it is looked at: nothing.
pub(crate) const NOTHING: PageIndex = PageIndex {
    marks: [0; MOST],
    used: 0,
    next: 0,
};

/// What is kept of a page: how many records it has, the next page of its chain, and the mark of each of its keys.
#[repr(C)]
#[derive(Clone, Copy)]
pub struct PageIndex {
    pub marks: [u8; MOST],
    pub used: u8,
    pub next: u32,
}

/// The byte of a code that tells most keys apart: its highest, since the lowest bits are those of the address.
#[inline]
pub(crate) fn mark_of(code: u64) -> u8
    ensures { result ≡ code_mark code }
{
    (code >> 56) as u8
}

/// The mark of a slot's key.
fn mark_in(page: &[u8], format: Format, place: usize) -> u8
    requires size { length page.now ≡ page_size format }
    requires limits { IsWithinLimits format }
    requires within { place < format.slots }
    requires good { is_bad_record format (slot format page.now place) ≡ false }
    ensures { result ≡ code_mark (code_of (pair_of format (slot format page.now place)).key) }
{
    mark_of(fnv1a(key_in(slot_at(page, format, place), format)))
}

/// The entry of a page without a fault.
fn index_of(page: &[u8], format: Format) -> PageIndex
    requires size { length page.now ≡ page_size format }
    requires limits { IsWithinLimits format }
    requires room { format.slots ≤ MOST }
    requires few { used_of page.now ≤ format.slots }
    requires good { (i : ℕ) → i < used_of page.now → is_bad_record format (slot format page.now i) ≡ false }
    ensures { IsIndexed format page.now result }
{
    let used = used_of(page);
    let mut marks = [0; MOST];
    for place in 0..used as usize {
        marks[place] = mark_in(page, format, place);
    }
    PageIndex {
        marks,
        used,
        next: next_of(page),
    }
}

/// Puts the entries of all pages of an image into an index.
pub(crate) fn put_index(bytes: &[u8], header: &Header, root: &Root, index: &mut [PageIndex])
    requires opened { IsOpenedImage bytes.now header.now root.now }
    requires image { IsImage bytes.now (listing_of (view_of bytes.now)) }
    requires size { length index.old ≡ header.now.pages }
    ensures { AreIndexed bytes.now header.now.pages index.new }
{
    // Its law: an image has no fault, and so none of its pages has one.
    image_is_of_only_listing();
    let format = header.version.format();
    for page in 1..header.pages {
        index[page as usize] = index_of(page_at(bytes, header, root, page), format);
    }
}
