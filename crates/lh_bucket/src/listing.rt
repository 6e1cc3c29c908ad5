//! Listings: whole files as lists of records.
ghost use Rattle.std.specs.Prelude.{◌≡◌, ℕ, ◌^◌, ◌<◌, ◌-◌, [], length, map, min, replicate, slice_get, Some, IfOk};
ghost use Rattle.std.specs.Prelude.{IfErr};
ghost use Rattle.std.specs.List.{All};
ghost use Rattle.lh_page.specs.Records.{IsRecord};
ghost use Rattle.lh_bucket.specs.Listing.{list_at};

use crate::listing_faults::first_fault;
use lh_addr::{Config, Root};
use lh_page::{Memory, Pair};
use std::alloc::Global;
use std::marker::Model;
use thiserror::Error;

/// Why lists of records are no listing: the first reason that applies, in this order. A record that
/// is named is the one in the least bucket, and there at the least place.
#[derive(Clone, Copy, Debug, PartialEq, Eq, Error)]
pub enum ListingFault {
    /// The number of buckets is not the initial one to the greatest one of the configuration, or
    /// not the number of lists.
    #[error("not one list for each bucket of the file")]
    Shape,
    /// The record's key belongs to another bucket.
    #[error("the record at place {place} of bucket {bucket} belongs to another bucket")]
    Misplaced { bucket: u32, place: usize },
    /// A record before it in its list has the same key.
    #[error("the key at place {place} of bucket {bucket} stands there twice")]
    Twice { bucket: u32, place: usize },
    /// There was no memory to look for keys that stand twice. Only lists of more than 32 records
    /// take it.
    #[error("no memory")]
    Memory,
}

/// A whole file that is not in use: its configuration, and a list of records for each bucket. Each
/// record stands in the bucket of its address, and no key stands twice.
#[derive(Debug, Drop)]
pub struct Listing {
    config: Config,
    lists: Vec<Vec<Pair>>,
}

impl Model for Listing {
    ghost use Rattle.std.specs.Prelude.{map};
    ghost use Rattle.lh_bucket.specs.Listing.{Lists, IsListing};

    ghost Value = { Lists };

    ghost view = { λ l. record { config = l.config; lists = map (λ v. v.items) l.lists.items } };

    ghost invariant = { λ l. IsListing (record { config = l.config; lists = map (λ v. v.items) l.lists.items }) };
}

/// Keys and values have the lengths that they may have. That is known by their types: the loop serves the proof alone.
fn have_lengths(pairs: &[Pair])
    ensures { All IsRecord pairs.now }
{
    for place in 0..pairs.len() {
        let pair = &pairs[place];
        let _ = pair.key.bytes();
        let _ = pair.value.bytes();
    }
}

/// The same of each list.
fn lists_have_lengths(lists: &[Vec<Pair>])
    ensures { (bucket : ℕ) → All IsRecord (list_at (map (λ v. v.items) lists.now) bucket) }
{
    for place in 0..lists.len() {
        have_lengths(&lists[place]);
    }
}

impl Listing {
    ghost use Rattle.std.specs.List.{IsDistinct};
    ghost use Rattle.std.specs.Str.{bytes_eq};
    ghost use Rattle.lh_addr.specs.Extent.{IsExtent};
    ghost use Rattle.lh_page.specs.Records.{keys_of};
    ghost use Rattle.lh_bucket.specs.Listing.{IsListing, IsShape, IsHome, EachPlace, size, count_of};
    ghost use Rattle.lh_bucket.specs.ListingFault.{IsFaultOf};

    /// The listing of an empty file, which has its initial number of buckets.
    pub fn empty(alloc: Global, config: Config) -> Result<Listing, Memory>
        ensures { IfOk result (λ listing. listing ≡ record { config = config; lists = replicate config.initial [] }) }
    {
        let mut lists = Vec::new(alloc);
        for _bucket in 0..config.initial() {
            lists.push(Vec::new(alloc))?;
        }
        Ok(Listing { config, lists })
    }

    /// A listing of these lists, the list of bucket `i` at place `i`, or the first fault that they
    /// have. `buckets` is the number of the file's buckets.
    pub fn new(
        alloc: Global,
        config: Config,
        buckets: u32,
        lists: Vec<Vec<Pair>>,
    ) -> Result<Listing, ListingFault>
        ensures ok { IfOk result (λ listing. listing
            ≡ record { config = config; lists = map (λ v. v.items) lists.items }) }
        ensures buckets { IfOk result (λ listing. size listing ≡ buckets) }
        ensures kept { IfOk result IsListing }
        ensures err { IfErr result (IsFaultOf config buckets (map (λ v. v.items) lists.items)) }
    {
        if buckets < config.initial() || buckets > config.max() || lists.len() != buckets as usize {
            return Err(ListingFault::Shape);
        }
        let root = config.root(buckets);
        match first_fault(alloc, &root, &lists) {
            Some(fault) => Err(fault),
            None => Ok(Listing { config, lists }),
        }
    }

    /// A listing of lists that are known to be one, as those of a snapshot are. No key is compared and no memory taken.
    pub fn of_known(config: Config, lists: Vec<Vec<Pair>>) -> Listing
        requires shape { IsShape config (length lists.items) (map (λ v. v.items) lists.items) }
        requires home { EachPlace (IsHome config.initial (length lists.items)) (map (λ v. v.items) lists.items) }
        requires distinct { (bucket : ℕ) →
            IsDistinct bytes_eq (keys_of (list_at (map (λ v. v.items) lists.items) bucket)) }
        ensures value { result ≡ record { config = config; lists = map (λ v. v.items) lists.items } }
        ensures kept { IsListing result }
    {
        // What these ensure is known of a configuration and of records by their types.
        let _initial = config.initial();
        lists_have_lengths(&lists);
        Listing { config, lists }
    }

    /// The configuration of the file.
    pub fn config(&self) -> Config
        ensures value { result ≡ self.now.config }
        ensures kept { IsListing self.now }
    {
        self.config
    }

    /// The number of buckets.
    pub fn buckets(&self) -> u32
        ensures value { result ≡ size self.now }
        ensures kept { IsListing self.now }
    {
        self.lists.len() as u32
    }

    /// The root of the file.
    pub fn root(&self) -> Root
        ensures value { result ≡ record { initial = self.now.config.initial; buckets = size self.now } }
        ensures extent { IsExtent result }
        ensures kept { IsListing self.now }
    {
        self.config.root(self.buckets())
    }

    /// The number of records in all buckets, where it is below 2^64; a memory that held more would
    /// answer 2^64 - 1.
    pub fn len(&self) -> u64
        ensures { result ≡ min (count_of self.now.lists) (2 ^ 64 - 1) }
    {
        let mut count = 0_u64;
        for list in &self.lists {
            count = count.saturating_add(list.len() as u64);
        }
        count
    }

    /// The number of records in a bucket.
    pub fn len_of(&self, bucket: u32) -> usize
        requires { bucket < size self.now }
        ensures value { result ≡ length (list_at self.now.lists bucket) }
        ensures kept { IsListing self.now }
    {
        self.lists[bucket as usize].len()
    }

    /// The records of a bucket, in the order of their places.
    pub fn pairs_of(&self, bucket: u32) -> &[Pair]
        requires { bucket < size self.now }
        ensures value { result.now ≡ list_at self.now.lists bucket }
        ensures kept { IsListing self.now }
    {
        &self.lists[bucket as usize]
    }

    /// The record at a place of a bucket.
    pub fn pair_at(&self, bucket: u32, place: usize) -> Pair
        requires bucket { bucket < size self.now }
        requires place { place < length (list_at self.now.lists bucket) }
        ensures { slice_get (list_at self.now.lists bucket) place ≡ Some result }
    {
        self.lists[bucket as usize][place]
    }
}
