//! The pages of a listing, as they are written: how many there are, and the bytes of each.
ghost use Rattle.std.specs.Prelude.{◌≡◌, ◌==◌, if◌then◌else◌, ◌+◌, ◌-◌, ◌*◌, ◌^◌, ◌<◌, ◌≤◌, length, min, take, drop};
ghost use Rattle.lh_bucket.specs.Listing.{IsListing, size, list_at, count_of};
ghost use Rattle.lh_image.specs.Canonical.{page_count_in, overflow_before, page_in, page_total};
ghost use Rattle.lh_page.specs.PageTable.{IsWritable};
ghost use Rattle.lh_page.specs.declared.page.PageKind.TheVariants.{Primary, Overflow};
ghost use Rattle.lh_image.specs.Fitting.{FitsVersion};
ghost use Rattle.lh_image.specs.Image.{header_for};
ghost use Rattle.lh_image.specs.Layout.{header_text, most_pages, number_text};
ghost use Rattle.lh_image.specs.Version.{format_of, page_bytes};
ghost use Rattle.lh_image.specs.declared.version.Version.{Version};

use crate::layout::{FIELDS, FIELDS_END, MAGIC, RECORDS};
use crate::version::Version;
use byteorder::{ByteOrder, LittleEndian};
use lh_addr::Root;
use lh_bucket::Listing;
use lh_page::format::PAGE_2;
use lh_page::laws::pages_are_pieces;
use lh_page::{Page, PageKind, Pairs, pages_needed};

/// The number of pages of a bucket, the primary page counted.
pub(crate) fn page_count_in(listing: &Listing, bucket: u32) -> usize
    requires { bucket < size listing.now }
    ensures value { result ≡ page_count_in listing.now bucket }
    ensures some { 1 ≤ result }
    ensures kept { IsListing listing.now }
{
    // Its law: a chain of packed pages has as many as `pages_needed` says.
    pages_are_pieces();
    pages_needed(listing.len_of(bucket), listing.config().capacity())
}

/// The number of pages of an image, the header counted, where it is below 2^64; a memory that held more
/// records would answer 2^64 - 1.
pub(crate) fn page_total(listing: &Listing) -> u64
    ensures value { result ≡ min (page_total listing.now) (2 ^ 64 - 1) }
    ensures kept { IsListing listing.now }
{
    let buckets = listing.buckets();
    let mut pages = 1 + u64::from(buckets);
    for bucket in 0..buckets {
        pages = pages.saturating_add((page_count_in(listing, bucket) - 1) as u64);
    }
    pages
}

/// The numbers of the header, as they stand behind the bytes of the version.
fn number_bytes(
    initial: u32,
    capacity: u32,
    load: u32,
    buckets: u32,
    max: u32,
    pages: u32,
    records: u64,
) -> [u8; FIELDS]
    ensures { (version : Version) → result ≡ number_text (record {
      version = version;
      config = record { initial = initial; capacity = capacity; load = load; max = max };
      buckets = buckets;
      pages = pages;
      records = records;
    }) }
{
    let mut bytes = [0; FIELDS];
    let numbers = [initial, capacity, load, buckets, max, pages];
    LittleEndian::write_u32_into(&numbers, &mut bytes[..RECORDS - MAGIC]);
    LittleEndian::write_u64(&mut bytes[RECORDS - MAGIC..], records);
    bytes
}

/// The header page, in the first bytes of the array: as many as a page has. `pages` is the number of all pages.
pub(crate) fn header_bytes(listing: &Listing, version: Version, pages: u32) -> [u8; PAGE_2]
    requires few { page_total listing.now ≤ most_pages }
    requires pages { pages ≡ page_total listing.now }
    ensures { take (page_bytes version) result ≡ header_text (header_for version listing.now pages) }
{
    // Its law: no page has more records than it may hold, so in so few pages there are fewer than 2^64.
    pages_are_pieces();
    let config = listing.config();
    let numbers = number_bytes(
        config.initial(),
        config.capacity(),
        config.load(),
        listing.buckets(),
        config.max(),
        pages,
        listing.len(),
    );
    let mut bytes = [0; PAGE_2];
    bytes[..MAGIC].copy_from_slice(version.magic());
    bytes[MAGIC..FIELDS_END].copy_from_slice(&numbers);
    bytes
}

/// Puts the records of a bucket from a place on, as many as a page holds, in place of others.
fn put_pairs(pairs: &mut Pairs, listing: &Listing, bucket: u32, start: usize)
    requires bucket { bucket < size listing.now }
    requires start { start ≤ length (list_at listing.now.lists bucket) }
    ensures { pairs.new ≡ take listing.now.config.capacity (drop start (list_at listing.now.lists bucket)) }
{
    let count = (listing.len_of(bucket) - start).min(listing.config().capacity() as usize);
    pairs.clear();
    for place in 0..count {
        pairs.push(listing.pair_at(bucket, start + place));
    }
}

/// The number of the first overflow page of the bucket behind `bucket`, of which it is `following`.
pub(crate) fn following_after(listing: &Listing, bucket: u32, following: u32) -> u32
    requires bucket { bucket < size listing.now }
    requires few { page_total listing.now ≤ most_pages }
    requires following { following ≡ 1 + size listing.now + overflow_before listing.now bucket }
    ensures value { result ≡ 1 + size listing.now + overflow_before listing.now (bucket + 1) }
    ensures some { 0 < page_count_in listing.now bucket }
    ensures within { result ≤ most_pages }
{
    following + (page_count_in(listing, bucket) - 1) as u32
}

/// The kind of page `k` of a chain.
fn kind_of(k: u32) -> PageKind
    ensures { result ≡ (if k == 0 then Primary else Overflow) }
{
    if k == 0 {
        PageKind::Primary
    } else {
        PageKind::Overflow
    }
}

/// The number of the page behind page `k` of a bucket, 0 for none.
fn next_page(listing: &Listing, bucket: u32, k: u32, following: u32) -> u32
    requires bucket { bucket < size listing.now }
    requires page { k < page_count_in listing.now bucket }
    requires fits { following + k ≤ most_pages }
    ensures { result ≡ (if k + 1 == page_count_in listing.now bucket then 0 else following + k) }
{
    if k as usize + 1 == page_count_in(listing, bucket) {
        0
    } else {
        following + k
    }
}

/// Puts page `k` of a bucket in place of another. `following` is the number of the bucket's first overflow page, if it
/// has any. A page is long to make and to move: a writer of many has room for one.
pub(crate) fn put_page(
    page: &mut Page,
    listing: &Listing,
    root: &Root,
    bucket: u32,
    k: u32,
    following: u32,
)
    requires root { root.now ≡ record { initial = listing.now.config.initial; buckets = size listing.now } }
    requires bucket { bucket < size listing.now }
    requires page { k < page_count_in listing.now bucket }
    requires few { page_total listing.now ≤ most_pages }
    requires following { following ≡ 1 + size listing.now + overflow_before listing.now bucket }
    ensures value { page.new ≡ page_in listing.now bucket k }
    ensures writable { (version : Version) → FitsVersion version listing.now →
        IsWritable (format_of version) page.new }
{
    // Its law: page `k` of a chain holds the records from place `k` times the capacity on.
    pages_are_pieces();
    let kind = kind_of(k);
    let level = root.level_of(bucket);
    let next = next_page(listing, bucket, k, following);
    let start = k as usize * listing.config().capacity() as usize;
    page.kind = kind;
    page.level = level;
    page.bucket = bucket;
    page.next = next;
    put_pairs(&mut page.pairs, listing, bucket, start);
}
