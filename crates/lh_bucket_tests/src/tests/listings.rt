//! Listings, and buckets that are filled with their records at once.
ghost use Rattle.std.specs.Prelude.{◌<◌};
ghost use Rattle.std.specs.Bool.{IsTrue};
ghost use Rattle.lh_page.specs.Slots.{IsRoom, FitAll};
ghost use Rattle.lh_bucket.specs.Listing.{size};

use super::calls::{keys_of, pair};
use lh_addr::laws::{address_is_only_bucket, levels_reach_their_buckets};
use lh_addr::{Config, Root};
use lh_bucket::{Bucket, Listing, ListingFault, PagedBucket, SizedBucket};
use lh_expect::expect_eq;
use lh_page::Pair;
use std::alloc::Global;
use std::process::Abort;
use std::test::Fail;

/// Lists of records with these first bytes of keys.
pub(super) fn lists_of(alloc: Global, keys: &[&[u8]]) -> Result<Vec<Vec<Pair>>, Fail> {
    let mut lists = Vec::new(alloc);
    for list in keys {
        let mut pairs = Vec::new(alloc);
        for key in *list {
            pairs.push(pair(&[*key], b"1")?)?;
        }
        lists.push(pairs)?;
    }
    Ok(lists)
}

/// The fault of lists for a file of 1 to 4 buckets.
fn fault_of(alloc: Global, buckets: u32, keys: &[&[u8]]) -> Result<Option<ListingFault>, Fail> {
    let config = Config::new(1, 14, 100, 4).ok().ok_or("config")?;
    Ok(Listing::new(alloc, config, buckets, lists_of(alloc, keys)?).err())
}

#[test]
fn each_fault_has_its_text(rt: HostRuntime) -> Result<(), Fail> {
    let (bucket, place) = (1026, 31);
    let texts = [
        (
            ListingFault::Shape,
            "not one list for each bucket of the file",
        ),
        (
            ListingFault::Misplaced { bucket, place },
            "the record at place 31 of bucket 1026 belongs to another bucket",
        ),
        (
            ListingFault::Twice { bucket, place },
            "the key at place 31 of bucket 1026 stands there twice",
        ),
        (ListingFault::Memory, "no memory"),
    ];
    for (fault, text) in texts {
        expect_eq!(rt; fault.to_string(rt.alloc())?.as_str(), text);
    }
    Ok(())
}

#[test]
fn listings_name_their_first_fault(rt: HostRuntime) -> Result<(), Fail> {
    let alloc = rt.alloc();
    let misplaced = Some(ListingFault::Misplaced {
        bucket: 1,
        place: 0,
    });
    let twice = Some(ListingFault::Twice {
        bucket: 0,
        place: 1,
    });
    expect_eq!(&rt, fault_of(alloc, 0, &[])?, Some(ListingFault::Shape));
    expect_eq!(
        &rt,
        fault_of(alloc, 5, &[b"", b"", b"", b"", b""])?,
        Some(ListingFault::Shape)
    );
    expect_eq!(&rt, fault_of(alloc, 2, &[b"a"])?, Some(ListingFault::Shape));
    expect_eq!(rt; fault_of(alloc, 2, &[b"", b"a"])?, misplaced);
    expect_eq!(rt; fault_of(alloc, 2, &[b"aa", b""])?, twice);
    expect_eq!(rt; fault_of(alloc, 2, &[b"aa", b"a"])?, misplaced);
    Ok(())
}

/// Listings without a record.
fn expect_empty(rt: &impl Abort, alloc: Global, config: Config) -> Result<(), Fail> {
    let widest = Config::new(256, 14, 100, 256).ok().ok_or("config")?;
    expect_eq!(rt, Listing::empty(alloc, widest)?.buckets(), 256);
    let empty = Listing::empty(alloc, config)?;
    expect_eq!(rt, empty.buckets(), 2);
    expect_eq!(rt, empty.len(), 0);
    Ok(())
}

fn expect_three_records(rt: &impl Abort, config: Config, listing: &Listing) -> Result<(), Fail> {
    let due = pair(b"a", b"1")?;
    expect_eq!(rt; listing.config(), config);
    expect_eq!(rt, listing.buckets(), 2);
    expect_eq!(rt, Some(listing.root()), Root::new(2, 2));
    expect_eq!(rt, listing.len(), 3);
    expect_eq!(rt, listing.len_of(0), 2);
    expect_eq!(rt; listing.pair_at(0, 1), due);
    Ok(())
}

#[test]
fn listings_give_their_lists(rt: HostRuntime) -> Result<(), Fail> {
    let alloc = rt.alloc();
    let config = Config::new(2, 14, 100, 4).ok().ok_or("config")?;
    expect_empty(&rt, alloc, config)?;
    let listing = Listing::new(alloc, config, 2, lists_of(alloc, &[b"ca", b"b"])?)?;
    expect_three_records(&rt, config, &listing)
}

/// Whether each record has room.
pub(super) fn all_fit<const ROOM: usize>(pairs: &[Pair]) -> bool
    ensures { IsTrue result → FitAll ROOM pairs.now }
{
    for pair in pairs {
        if !SizedBucket::<ROOM>::fits(&pair.key, &pair.value) {
            return false;
        }
    }
    true
}

/// A bucket of a listing, whose records have room for their bytes.
pub(super) fn bucket_of<const ROOM: usize>(
    alloc: Global,
    listing: &Listing,
    number: u32,
) -> Result<SizedBucket<ROOM>, Fail>
    requires number { number < size listing.now }
    requires room { IsRoom ROOM }
{
    address_is_only_bucket();
    levels_reach_their_buckets();
    let config = listing.config();
    if !all_fit::<ROOM>(listing.pairs_of(number)) {
        return Err("no room")?;
    }
    let bucket = SizedBucket::filled(
        alloc,
        config.initial(),
        config.capacity(),
        number,
        listing.root().level_of(number),
        listing.pairs_of(number),
    )?;
    Ok(bucket)
}

fn expect_filled(rt: &impl Abort, alloc: Global, bucket: &PagedBucket) -> Result<(), Fail> {
    expect_eq!(rt, keys_of(alloc, bucket)?.as_slice(), b"ca".as_slice());
    expect_eq!(rt, (bucket.number(), bucket.level()), (0, Some(0)));
    Ok(())
}

/// A file of two buckets that had them from the start, so both are at level 0.
#[test]
fn a_bucket_is_filled_with_a_list(rt: HostRuntime) -> Result<(), Fail> {
    let alloc = rt.alloc();
    let config = Config::new(2, 14, 100, 4).ok().ok_or("config")?;
    let listing = Listing::new(alloc, config, 2, lists_of(alloc, &[b"ca", b"b"])?)?;
    expect_eq!(&rt, listing.pairs_of(0).len(), 2);
    expect_filled(&rt, alloc, &bucket_of(alloc, &listing, 0)?)
}

/// The one list of a file of one bucket, with a hundred records, of which the last has this number as its key.
fn long_list(alloc: Global, last: u8) -> Result<Vec<Vec<Pair>>, Fail> {
    let mut pairs = Vec::new(alloc);
    for number in 0..99_u8 {
        pairs.push(pair(&[number], b"1")?)?;
    }
    pairs.push(pair(&[last], b"1")?)?;
    let mut lists = Vec::new(alloc);
    lists.push(pairs)?;
    Ok(lists)
}

fn expect_twice(rt: &impl Abort, alloc: Global, config: Config) -> Result<(), Fail> {
    expect_eq!(
        rt,
        Listing::new(alloc, config, 1, long_list(alloc, 0)?).err(),
        Some(ListingFault::Twice {
            bucket: 0,
            place: 99,
        })
    );
    Ok(())
}

fn expect_hundred(rt: &impl Abort, alloc: Global, listing: &Listing) -> Result<(), Fail> {
    expect_eq!(rt, listing.len(), 100);
    expect_eq!(rt, listing.buckets(), 1);
    let bucket: PagedBucket = bucket_of(alloc, listing, 0)?;
    expect_eq!(rt, bucket.len(), 100);
    Ok(())
}

/// Lists that are looked through by a set, and a bucket with more records than have marks, a page for each.
#[test]
fn long_lists_are_listings(rt: HostRuntime) -> Result<(), Fail> {
    let alloc = rt.alloc();
    let config = Config::new(1, 1, 100, 1).ok().ok_or("config")?;
    expect_twice(&rt, alloc, config)?;
    let listing = Listing::new(alloc, config, 1, long_list(alloc, 99)?)?;
    expect_hundred(&rt, alloc, &listing)
}
