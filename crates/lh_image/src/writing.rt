//! Writing an image, page by page.
ghost use Rattle.std.specs.Prelude.{◌≡◌, ◌+◌, ◌-◌, ◌<◌, ◌≤◌, IfErr, IfOk, length};
ghost use Rattle.std.specs.List.{range_with_len, flat_map};
ghost use Rattle.lh_bucket.specs.Listing.{IsListing, size};
ghost use Rattle.lh_image.specs.Canonical.{canonical, page_count_in, page_total, overflow_before, overflow_text};
ghost use Rattle.lh_image.specs.Canonical.{text_in};
ghost use Rattle.lh_image.specs.Fitting.{FitsVersion};
ghost use Rattle.lh_image.specs.Writing.{FitsImage, IsNotOld, IsSent, IsWriteRefusal, IsWritten};
ghost use Rattle.lh_image.specs.Layout.{most_pages};
ghost use Rattle.lh_image.specs.declared.version.Version.{Version};

mod fitting;
pub(crate) mod listing_pages;
pub(crate) mod sending;

use crate::fault::WriteImageFault;
use crate::laws::written_images_have_their_pages;
use crate::limits::MAX_PAGES;
use crate::version::Version;
use crate::writing::fitting::first_too_long;
use crate::writing::listing_pages::{
    following_after, header_bytes, page_count_in, page_total, put_page,
};
use crate::writing::sending::{WriteFailed, send_all};
use lh_addr::Root;
use lh_bucket::Listing;
use lh_page::laws::a_page_is_its_bytes;
use lh_page::{Page, PageKind, Pairs, page_to_bytes, page2_to_bytes};
use std::io::Write;

/// Writes page `k` of a bucket, which is put in place of another. `following` is the number of the bucket's first
/// overflow page, if it has any.
fn write_page_of<W: Write>(
    listing: &Listing,
    version: Version,
    root: &Root,
    bucket: u32,
    k: u32,
    following: u32,
    page: &mut Page,
    writer: &mut W,
) -> Result<(), WriteFailed>
    requires fits { FitsVersion version listing.now }
    requires root { root.now ≡ record { initial = listing.now.config.initial; buckets = size listing.now } }
    requires bucket { bucket < size listing.now }
    requires k { k < page_count_in listing.now bucket }
    requires few { page_total listing.now ≤ most_pages }
    requires following { following ≡ 1 + size listing.now + overflow_before listing.now bucket }
    ensures { IsSent (text_in version listing.now bucket k) result (W.contents writer.old) (W.contents writer.new) }
{
    // Its law: a page has one row of bytes, so those that are written are its text.
    a_page_is_its_bytes();
    put_page(page, listing, root, bucket, k, following);
    match version {
        Version::One => send_all(writer, &page_to_bytes(page)),
        Version::Two => send_all(writer, &page2_to_bytes(page)),
    }
}

/// Writes the primary page of each bucket.
fn write_primary_pages<W: Write>(
    listing: &Listing,
    version: Version,
    root: &Root,
    page: &mut Page,
    writer: &mut W,
) -> Result<(), WriteFailed>
    requires fits { FitsVersion version listing.now }
    requires root { root.now ≡ record { initial = listing.now.config.initial; buckets = size listing.now } }
    requires few { page_total listing.now ≤ most_pages }
    ensures { IsSent (flat_map (λ i. text_in version listing.now i 0) (range_with_len 0 (size listing.now))) result
        (W.contents writer.old) (W.contents writer.new) }
{
    let buckets = listing.buckets();
    let mut following = 1 + buckets;
    for bucket in 0..buckets {
        let after = following_after(listing, bucket, following);
        write_page_of(listing, version, root, bucket, 0, following, page, writer)?;
        following = after;
    }
    Ok(())
}

/// Writes the overflow pages of a bucket, the first of which has the number `following`.
fn write_overflow_pages_of<W: Write>(
    listing: &Listing,
    version: Version,
    root: &Root,
    bucket: u32,
    following: u32,
    page: &mut Page,
    writer: &mut W,
) -> Result<(), WriteFailed>
    requires fits { FitsVersion version listing.now }
    requires root { root.now ≡ record { initial = listing.now.config.initial; buckets = size listing.now } }
    requires few { page_total listing.now ≤ most_pages }
    requires bucket { bucket < size listing.now }
    requires following { following ≡ 1 + size listing.now + overflow_before listing.now bucket }
    ensures { IsSent (overflow_text version listing.now bucket) result (W.contents writer.old)
        (W.contents writer.new) }
{
    for k in 1..page_count_in(listing, bucket) as u32 {
        write_page_of(listing, version, root, bucket, k, following, page, writer)?;
    }
    Ok(())
}

/// Writes the overflow pages of all buckets.
fn write_overflow_pages<W: Write>(
    listing: &Listing,
    version: Version,
    root: &Root,
    page: &mut Page,
    writer: &mut W,
) -> Result<(), WriteFailed>
    requires fits { FitsVersion version listing.now }
    requires root { root.now ≡ record { initial = listing.now.config.initial; buckets = size listing.now } }
    requires few { page_total listing.now ≤ most_pages }
    ensures { IsSent (flat_map (overflow_text version listing.now) (range_with_len 0 (size listing.now))) result
        (W.contents writer.old) (W.contents writer.new) }
{
    let buckets = listing.buckets();
    let mut following = 1 + buckets;
    for bucket in 0..buckets {
        write_overflow_pages_of(listing, version, root, bucket, following, page, writer)?;
        following = following_after(listing, bucket, following);
    }
    Ok(())
}

/// Writes the header page, the primary pages and the overflow pages.
fn write_pages<W: Write>(
    listing: &Listing,
    version: Version,
    pages: u32,
    writer: &mut W,
) -> Result<(), WriteFailed>
    requires fits { FitsVersion version listing.now }
    requires few { page_total listing.now ≤ most_pages }
    requires pages { pages ≡ page_total listing.now }
    ensures { IsSent (canonical version listing.now) result (W.contents writer.old) (W.contents writer.new) }
{
    let root = listing.root();
    let header = header_bytes(listing, version, pages);
    send_all(writer, &header[..version.page_bytes()])?;
    let mut page = Page {
        kind: PageKind::Primary,
        level: 0,
        bucket: 0,
        next: 0,
        pairs: Pairs::new(),
    };
    write_primary_pages(listing, version, &root, &mut page, writer)?;
    write_overflow_pages(listing, version, &root, &mut page, writer)
}

/// The number of pages of an image, if an image may have this many.
fn image_pages(listing: &Listing) -> Result<u32, WriteImageFault>
    ensures kept { IsListing listing.now }
    ensures pages { IfOk result (λ pages. pages ≡ page_total listing.now) }
    ensures few { IfOk result (λ _. page_total listing.now ≤ most_pages) }
    ensures fault { IfErr result (λ f. f ≡ WriteImageFault.TooLarge) }
    ensures many { IfErr result (λ _. most_pages < page_total listing.now) }
{
    let pages = page_total(listing);
    if pages > u64::from(MAX_PAGES) {
        return Err(WriteImageFault::TooLarge);
    }
    Ok(pages as u32)
}

/// Writes a listing for which the pages of a version have room, and flushes.
fn write_version<W: Write>(
    listing: &Listing,
    version: Version,
    pages: u32,
    writer: &mut W,
) -> Result<(), WriteImageFault>
    requires fits { FitsVersion version listing.now }
    requires few { page_total listing.now ≤ most_pages }
    requires pages { pages ≡ page_total listing.now }
    ensures sent { IsSent (canonical version listing.now) result (W.contents writer.old) (W.contents writer.new) }
    ensures fault { IfErr result (λ f. f ≡ WriteImageFault.WriteFault) }
{
    if let Err(WriteFailed) = write_pages(listing, version, pages, writer) {
        return Err(WriteImageFault::WriteFault);
    }
    if writer.flush().is_err() {
        return Err(WriteImageFault::WriteFault);
    }
    Ok(())
}

/// How many bytes the image of version 2 of a listing has, where it isn't too large for one.
pub fn image_len(listing: &Listing) -> Result<u64, WriteImageFault>
    ensures ok { IfOk result (λ n. FitsImage Version.Two listing.now
        × (n ≡ length (canonical Version.Two listing.now))) }
    ensures err { IfErr result (IsWriteRefusal Version.Two listing.now) }
    ensures not_old { IfErr result IsNotOld }
{
    // Its law: the image has its pages, one behind the other.
    written_images_have_their_pages();
    let pages = image_pages(listing)?;
    Ok(u64::from(pages) * Version::Two.page_bytes() as u64)
}

/// Writes a listing as an image of version 2: the header, the primary page of each bucket, and the overflow
/// pages in the order of bucket and place, and flushes. Writes are taken as they come, each of at most a page,
/// and one that fails is never tried again. No memory is taken.
pub fn write_image<W: Write>(listing: &Listing, writer: &mut W) -> Result<(), WriteImageFault>
    ensures written { IsWritten Version.Two listing.now result (W.contents writer.old) (W.contents writer.new) }
    ensures not_old { IfErr result IsNotOld }
{
    let pages = image_pages(listing)?;
    write_version(listing, Version::Two, pages, writer)
}

/// Writes a listing as an image of version 1, as [`write_image`] writes one of version 2, if its pages have room
/// for at most 14 records and these have keys of at most 30 bytes and values of at most 40.
pub fn write_image_v1<W: Write>(listing: &Listing, writer: &mut W) -> Result<(), WriteImageFault>
    ensures { IsWritten Version.One listing.now result (W.contents writer.old) (W.contents writer.new) }
{
    if listing.config().capacity() > Version::One.slots() {
        return Err(WriteImageFault::OldCapacity);
    }
    if let Some((bucket, place)) = first_too_long(listing, Version::One.format()) {
        return Err(WriteImageFault::OldRecord { bucket, place });
    }
    let pages = image_pages(listing)?;
    write_version(listing, Version::One, pages, writer)
}
