//! What stands after growth that is refused: run with each request for memory refused in turn, one in each run.
ghost use Rattle.std.specs.Prelude.{◌≡◌};
ghost use Rattle.lh_bucket.specs.Bucket.{CanSplit};

use super::calls::{pair, reply_of, serve_here};
use lh_addr::Config;
use lh_bucket::{Bucket, Call, Listing, ListingFault, Memory, PagedBucket, PlainBucket, Reply};
use lh_expect::{expect, expect_eq};
use lh_page::Pair;
use std::alloc::Global;
use std::process::Abort;
use std::test::Fail;

/// The bucket has the records of these letters in this order, each with a 1 as its value.
fn expect_records<B: Bucket>(rt: &impl Abort, bucket: &B, letters: &[u8]) -> Result<(), Fail> {
    expect_eq!(rt, bucket.len(), letters.len());
    for (place, letter) in letters.iter().enumerate() {
        expect!(rt, place < bucket.len());
        expect_eq!(rt, bucket.pair_at(place), pair(&[*letter], b"1")?);
    }
    Ok(())
}

/// Inserts a record into a bucket of level 0 that has the records of these letters. The growth may be refused once:
/// then nothing has changed, and the same call again succeeds.
fn insert_again<B: Bucket>(
    rt: &impl Abort,
    bucket: &mut B,
    letters: &[u8],
    record: Pair,
) -> Result<(), Fail>
    ensures { (B.seen bucket.new).head ≡ (B.seen bucket.old).head }
{
    let call = Call::Insert(record.key, record.value);
    match serve_here(bucket, &call, 0) {
        Ok(answer) => {
            expect_eq!(rt, answer.ok_or("not the bucket")?.reply(), Reply::Inserted);
        }
        Err(Memory) => {
            expect_records(rt, bucket, letters)?;
            expect_eq!(
                rt,
                reply_of(bucket, Call::Search(record.key))?,
                Reply::Absent
            );
            expect_eq!(rt, reply_of(bucket, call)?, Reply::Inserted);
        }
    }
    Ok(())
}

/// Splits a bucket of level 0 that has the records of these letters, where each growth may be refused once: then
/// nothing has changed, and the same call again succeeds.
fn split_again<B: Bucket>(
    rt: &impl Abort,
    old: &mut B,
    new: &mut B,
    letters: &[u8],
) -> Result<(), Fail>
    requires { CanSplit (B.seen old.old).head (B.seen new.old).head }
{
    match old.split_into(new) {
        Ok(()) => Ok(()),
        Err(Memory) => {
            expect_records(rt, old, letters)?;
            expect_records(rt, new, b"")?;
            expect_eq!(rt, (old.level(), new.level()), (Some(0), None));
            old.split_into(new)?;
            Ok(())
        }
    }
}

/// Fills a bucket and splits it.
fn grow<B: Bucket>(rt: &impl Abort, old: &mut B, new: &mut B) -> Result<(), Fail>
    requires { CanSplit (B.seen old.old).head (B.seen new.old).head }
{
    let letters = b"abcdefghij";
    for (place, letter) in letters.iter().enumerate() {
        insert_again(rt, old, &letters[..place], pair(&[*letter], b"1")?)?;
    }
    split_again(rt, old, new, letters)?;
    expect_records(rt, old, b"acegi")?;
    expect_records(rt, new, b"bdfhj")?;
    expect_eq!(rt, (old.level(), new.level()), (Some(1), Some(1)));
    Ok(())
}

fn growth_may_be_refused<B: Bucket>(rt: &impl Abort, alloc: Global) -> Result<(), Fail> {
    let mut old = B::make(alloc, 1, 1, 0, Some(0))?;
    let mut new = B::make(alloc, 1, 1, 1, None)?;
    grow(rt, &mut old, &mut new)
}

#[test]
fn refused_growth_changes_no_bucket(rt: HostRuntime) -> Result<(), Fail> {
    growth_may_be_refused::<PlainBucket>(&rt, rt.alloc())?;
    growth_may_be_refused::<PagedBucket>(&rt, rt.alloc())
}

/// How many records the listing of two lists has, or why they are none.
fn listed(
    alloc: Global,
    config: Config,
    first: &[Pair],
    second: &[Pair],
) -> Result<u64, ListingFault> {
    let mut lists = Vec::new(alloc);
    for list in [first, second] {
        let Ok(copy) = list.to_vec(alloc) else {
            return Err(ListingFault::Memory);
        };
        if lists.push(copy).is_err() {
            return Err(ListingFault::Memory);
        }
    }
    Ok(Listing::new(alloc, config, 2, lists)?.len())
}

/// The same, asked for once more where memory was refused.
fn listed_again(
    alloc: Global,
    config: Config,
    first: &[Pair],
    second: &[Pair],
) -> Result<u64, ListingFault> {
    match listed(alloc, config, first, second) {
        Err(ListingFault::Memory) => listed(alloc, config, first, second),
        answer => answer,
    }
}

/// How many buckets and records a listing without a record has, asked for once more where memory was refused.
fn empty_again(alloc: Global, config: Config) -> Result<(u32, u64), Memory> {
    let empty = match Listing::empty(alloc, config) {
        Ok(listing) => listing,
        Err(Memory) => Listing::empty(alloc, config)?,
    };
    Ok((empty.buckets(), empty.len()))
}

#[test]
fn refused_growth_of_a_listing_is_told(rt: HostRuntime) -> Result<(), Fail> {
    let config = Config::new(1, 14, 100, 4).ok().ok_or("config")?;
    let (a, b, c) = (pair(b"a", b"1")?, pair(b"b", b"2")?, pair(b"c", b"3")?);
    let (bucket, place) = (0, 2);
    let twice = Err(ListingFault::Twice { bucket, place });
    let (bucket, place) = (1, 1);
    let misplaced = Err(ListingFault::Misplaced { bucket, place });
    let alloc = rt.alloc();
    expect_eq!(&rt, listed_again(alloc, config, &[a, c], &[b]), Ok(3));
    expect_eq!(rt; listed_again(alloc, config, &[a, c, a], &[b]), twice);
    expect_eq!(rt; listed_again(alloc, config, &[a, c], &[b, a]), misplaced);
    expect_eq!(&rt, empty_again(alloc, config)?, (1, 0));
    Ok(())
}
