//! What is counted of the buckets of a file.
ghost use Rattle.std.specs.Prelude.{◌≡◌, ◌+◌, ◌*◌, ◌-◌, ◌^◌, ◌<◌, ◌≤◌, length};
ghost use Rattle.lh_bucket.specs.Listing.{IsListing, list_at, size};
ghost use Rattle.lh_draw.specs.Columns.{chain_length, lists_between, tally_of};

use lh_bucket::Listing;
use lh_page::pages_needed;

/// How many records and pages some buckets have, and how many pages the longest of their chains has.
#[derive(Clone, Copy, Debug, PartialEq, Eq)]
pub struct Tally {
    pub records: u128,
    pub pages: u128,
    pub longest: usize,
}

/// How many pages the chain of a bucket has.
pub fn chain_length(listing: &Listing, bucket: u32) -> usize
    requires { bucket < size listing.now }
    ensures value { result ≡ chain_length listing.now.config.capacity (list_at listing.now.lists bucket) }
    ensures some { 1 ≤ result }
    ensures kept { IsListing listing.now }
{
    pages_needed(listing.len_of(bucket), listing.config().capacity())
}

/// What is counted of the buckets from one up to another.
pub fn counted_between(listing: &Listing, first: u32, end: u32) -> Tally
    requires order { first ≤ end }
    requires within { end ≤ size listing.now }
    ensures value { result ≡ tally_of listing.now.config.capacity (lists_between listing.now first end) }
    ensures pages { result.pages < 2 ^ 96 }
    ensures some { first < end → 1 ≤ result.pages }
    ensures longest { first < end → 1 ≤ result.longest }
    ensures records { result.records ≤ listing.now.config.capacity * result.pages }
{
    let mut tally = Tally {
        records: 0,
        pages: 0,
        longest: 0,
    };
    for bucket in first..end {
        let pages = chain_length(listing, bucket);
        tally.records += listing.len_of(bucket) as u128;
        tally.pages += pages as u128;
        tally.longest = tally.longest.max(pages);
    }
    tally
}
