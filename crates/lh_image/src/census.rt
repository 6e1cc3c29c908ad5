//! The counts of an image.
ghost use Rattle.std.specs.Prelude.{◌≡◌, ◌≤◌, IfSome};
ghost use Rattle.lh_bucket.specs.Listing.{size};
ghost use Rattle.lh_image.specs.Canonical.{page_total};
ghost use Rattle.lh_image.specs.Census.{census_of, longest_before};
ghost use Rattle.lh_image.specs.Reading.{IsDueAnswer, Leaves, reading_of};
ghost use Rattle.lh_image.specs.Layout.{most_pages};

use crate::fault::ImageFault;
use crate::laws::census_counts_pages;
use crate::reading::read_image;
use crate::writing::listing_pages::{page_count_in, page_total};
use lh_bucket::Listing;
use lh_page::laws::pages_are_pieces;
use std::alloc::Global;
use std::io::Read;

/// The counts of an image.
#[derive(Clone, Copy, Debug, PartialEq, Eq)]
pub struct Census {
    /// The number of buckets.
    pub buckets: u32,
    /// The level of the file.
    pub level: u8,
    /// The split pointer.
    pub pointer: u32,
    /// The number of records.
    pub records: u64,
    /// The number of pages, the header among them.
    pub pages: u32,
    /// The number of overflow pages.
    pub overflow: u32,
    /// The greatest number of pages in one chain.
    pub longest: u32,
}

/// A number of pages or of overflow pages, which is below 2^32 in an image.
fn below_2_32(count: u64) -> u32
    ensures { count ≤ most_pages → result ≡ count }
{
    count.min(u64::from(u32::MAX)) as u32
}

/// The greatest number of pages in one chain.
fn longest_chain(listing: &Listing) -> usize
    ensures { result ≡ longest_before listing.now (size listing.now) }
{
    let mut longest = 0;
    for bucket in 0..listing.buckets() {
        longest = page_count_in(listing, bucket).max(longest);
    }
    longest
}

/// The census of a listing whose image is not too large.
fn census_of(listing: &Listing) -> Census
    ensures { page_total listing.now ≤ most_pages → result ≡ census_of listing.now }
{
    // Its law: no page has more records than it may hold, so in so few pages there are fewer than 2^64.
    pages_are_pieces();
    let root = listing.root();
    let buckets = listing.buckets();
    let pages = page_total(listing);
    Census {
        buckets,
        level: root.level(),
        pointer: root.pointer(),
        records: listing.len(),
        pages: below_2_32(pages),
        overflow: below_2_32(pages - 1 - u64::from(buckets)),
        longest: below_2_32(longest_chain(listing) as u64),
    }
}

/// The census of the image that the reader's bytes are, or why they are none, as [`read_image`](crate::read_image)
/// says it.
pub fn check_image<R: Read>(alloc: Global, reader: &mut R) -> Result<Census, ImageFault>
    ensures exact { IfSome (R.remaining reader.old) (λ bytes.
        IsDueAnswer (λ census l. census ≡ census_of l) result (reading_of bytes)) }
    ensures rest { IfSome (R.remaining reader.old) (λ bytes. Leaves result bytes (R.remaining reader.new)) }
{
    // Its law: the listing of an image takes as many pages as the image has, so they are not too many.
    census_counts_pages();
    let listing = read_image(alloc, reader)?;
    Ok(census_of(&listing))
}
