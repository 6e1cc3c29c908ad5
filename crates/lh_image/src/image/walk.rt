//! The pages of a chain, one after the other, until one has a fault or the key.
ghost use Rattle.std.specs.Prelude.{◌≡◌, ◌+◌, ◌<◌, ◌≤◌, ◌∷◌, [], List, ℕ, Option, length};
ghost use Rattle.lh_page.specs.Format.{IsWithinLimits};
ghost use Rattle.lh_page.specs.PageFields.{value_length};
ghost use Rattle.lh_image.specs.Faults.{bad_next, first_fault_of};
ghost use Rattle.lh_image.specs.Layout.{page, view_of};
ghost use Rattle.lh_image.specs.LookUp.{IsLookedAt, IsOpenedImage, IsPlace, head_rows_at, home_of, slot_of, slot_value};
ghost use Rattle.lh_image.specs.Version.{format_of, page_bytes, version_of};
ghost use Rattle.lh_image.specs.View.{bucket, links};

use crate::fault::ImageFault;
use crate::header::Header;
use crate::image::slots::{place_in, slot_at, value_in};
use crate::judge::page_checks::{has_bad_bucket, has_bad_kind, has_bad_level, has_bad_used};
use crate::reading::page::head_of;
use lh_addr::{Root, fnv1a};
use lh_page::{Key, PageHead};

/// The bytes of a page.
#[inline]
pub(crate) fn page_at<'a>(bytes: &'a [u8], header: &Header, root: &Root, number: u32) -> &'a [u8]
    requires opened { IsOpenedImage bytes.now header.now root.now }
    requires below { number < header.now.pages }
    ensures page { result.now ≡ page bytes.now number }
    ensures size { length result.now ≡ page_bytes header.now.version }
{
    let size = header.version.page_bytes();
    let start = size * number as usize;
    &bytes[start..start + size]
}

/// The head of a page.
pub(crate) fn head_at(bytes: &[u8], header: &Header, root: &Root, number: u32) -> PageHead
    requires opened { IsOpenedImage bytes.now header.now root.now }
    requires from { 1 ≤ number }
    requires below { number < header.now.pages }
    ensures { result ≡ (view_of bytes.now).head number }
{
    head_of(header.version, page_at(bytes, header, root, number))
}

/// The first fault of a page by its head.
pub(crate) fn fault_of_head(
    bytes: &[u8],
    header: &Header,
    root: &Root,
    number: u32,
    head: &PageHead,
) -> Option<ImageFault>
    requires opened { IsOpenedImage bytes.now header.now root.now }
    requires from { 1 ≤ number }
    requires head { head.now ≡ (view_of bytes.now).head number }
    ensures { result ≡ first_fault_of (head_rows_at (view_of bytes.now) number) }
{
    if has_bad_kind(header, number, head) {
        return Some(ImageFault::Kind(number));
    }
    if has_bad_bucket(header, number, head) {
        return Some(ImageFault::BucketNumber(number));
    }
    if has_bad_level(header, root, head) {
        return Some(ImageFault::Level(number));
    }
    if has_bad_used(header, head) {
        return Some(ImageFault::Used(number));
    }
    None
}

/// Whether the next page that a page names is no overflow page of its bucket.
pub(crate) fn names_bad_next(
    bytes: &[u8],
    header: &Header,
    root: &Root,
    number: u32,
    head: &PageHead,
) -> bool
    requires opened { IsOpenedImage bytes.now header.now root.now }
    requires head { head.now ≡ (view_of bytes.now).head number }
    ensures { result ≡ bad_next (links (view_of bytes.now)) number }
{
    if head.next == 0 {
        return false;
    }
    if head.next <= header.buckets || head.next >= header.pages {
        return true;
    }
    head_at(bytes, header, root, head.next).bucket != head.bucket
}

/// A page's slot of the key and the page that follows, if the page has no fault by itself.
fn look_at(
    bytes: &[u8],
    header: &Header,
    root: &Root,
    key: &Key,
    home: u32,
    number: u32,
) -> Result<(Option<usize>, u32), ImageFault>
    requires opened { IsOpenedImage bytes.now header.now root.now }
    requires home { home ≡ home_of (view_of bytes.now) key.now }
    requires from { 1 ≤ number }
    requires below { number < header.now.pages }
    ensures { IsLookedAt bytes.now key.now number result }
{
    let page = page_at(bytes, header, root, number);
    let head = head_of(header.version, page);
    if let Some(fault) = fault_of_head(bytes, header, root, number, &head) {
        return Err(fault);
    }
    if names_bad_next(bytes, header, root, number, &head) {
        return Err(ImageFault::Next(number));
    }
    let format = header.version.format();
    let place = place_in(page, format, head.used as usize, root, home, key, number)?;
    Ok((place, head.next))
}

/// The page and the slot of a key's value, if it has one.
pub(crate) fn place_of(
    bytes: &[u8],
    header: &Header,
    root: &Root,
    key: &Key,
) -> Result<Option<(u32, usize)>, ImageFault>
    requires { IsOpenedImage bytes.now header.now root.now }
    ensures { IsPlace bytes.now key.now result }
{
    let home = root.address(fnv1a(key.bytes()));
    let mut number = 1 + home;
    for _ in 0..header.pages {
        let (place, next) = look_at(bytes, header, root, key, home, number)?;
        if let Some(place) = place {
            return Ok(Some((number, place)));
        }
        if next == 0 {
            return Ok(None);
        }
        number = next;
    }
    // More pages than the file has: this one leads back to itself.
    Err(ImageFault::Twice(number))
}

/// The value in a slot of a page.
pub(crate) fn value_at<'a>(
    bytes: &'a [u8],
    header: &Header,
    root: &Root,
    number: u32,
    place: usize,
) -> &'a [u8]
    requires opened { IsOpenedImage bytes.now header.now root.now }
    requires below { number < header.now.pages }
    requires slot { place < (format_of (version_of bytes.now)).slots }
    requires short { value_length (slot_of bytes.now number place) ≤ (format_of (version_of bytes.now)).value }
    ensures value { result.now ≡ slot_value bytes.now number place }
    ensures short { length result.now ≤ (format_of (version_of bytes.now)).value }
{
    let format = header.version.format();
    value_in(
        slot_at(page_at(bytes, header, root, number), format, place),
        format,
    )
}
