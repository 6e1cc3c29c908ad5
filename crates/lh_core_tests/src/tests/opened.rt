//! Calls served on the file of a listing.
use super::calls::{delete, insert, search};
use lh_addr::Config;
use lh_bucket::{Call, Listing, PagedBucket, Reply};
use lh_core::{SerialRan, SplitState, WorkerState, World, serial, serial_from};
use lh_expect::expect_eq;
use lh_page::Value;
use std::alloc::Global;
use std::process::Abort;
use std::test::Fail;

/// Inserts of ten keys, a delete that leaves a hole, and a search: pages have two records.
fn calls(alloc: Global) -> Result<Vec<Call>, Fail> {
    let mut calls = Vec::new(alloc);
    for key in b'a'..=b'j' {
        calls.push(insert(&[key], b"1")?)?;
    }
    calls.push(delete(b"a")?)?;
    calls.push(insert(b"k", b"2")?)?;
    calls.push(search(b"b")?)?;
    Ok(calls)
}

/// Both listings have the same lists, in the same order.
fn are_same(rt: &impl Abort, one: &Listing, other: &Listing) {
    expect_eq!(rt, one.config(), other.config());
    expect_eq!(rt, one.buckets(), other.buckets());
    for bucket in 0..one.buckets() {
        expect_eq!(rt, one.pairs_of(bucket), other.pairs_of(bucket));
    }
}

/// The listing that calls leave.
fn listing_after(alloc: Global, config: Config, calls: &[Call]) -> Result<Listing, Fail> {
    Ok(
        serial::<PagedBucket>(alloc, config, calls)?
            .world
            .listing()?,
    )
}

/// Calls go on from a listing with these replies, and leave the other listing.
fn goes_on(
    rt: &impl Abort,
    alloc: Global,
    before: &Listing,
    calls: &[Call],
    due: &[Reply],
    after: &Listing,
) -> Result<(), Fail> {
    let SerialRan { replies, world } = serial_from(alloc, before, calls)?;
    expect_eq!(rt; replies.as_slice(), due);
    are_same(rt, &world.listing()?, after);
    Ok(())
}

/// Wherever calls are cut, the second part goes on from the listing that the first one leaves.
fn goes_on_everywhere(
    rt: &impl Abort,
    alloc: Global,
    config: Config,
    calls: &[Call],
    due: &[Reply],
    after: &Listing,
) -> Result<(), Fail> {
    expect_eq!(rt, due.len(), calls.len());
    for cut in 0..=calls.len() {
        let (first, second) = calls.split_at(cut);
        let before = listing_after(alloc, config, first)?;
        goes_on(rt, alloc, &before, second, &due[cut..], after)?;
    }
    Ok(())
}

#[test]
fn a_file_goes_on_from_a_listing(rt: HostRuntime) -> Result<(), Fail> {
    let config = Config::new(1, 2, 100, 65536)?;
    let calls = calls(rt.alloc())?;
    let SerialRan { replies, world } = serial::<PagedBucket>(rt.alloc(), config, &calls)?;
    goes_on_everywhere(&rt, rt.alloc(), config, &calls, &replies, &world.listing()?)
}

/// The listing that those calls leave.
fn listing_after_all(alloc: Global, config: Config) -> Result<Listing, Fail> {
    let calls = calls(alloc)?;
    listing_after(alloc, config, &calls)
}

/// The world has so many buckets, and neither its splitter nor its last worker does anything.
fn expect_at_rest(rt: &impl Abort, world: &World<PagedBucket>, buckets: u32) {
    expect_eq!(
        rt,
        (world.root().buckets(), world.filled()),
        (buckets, buckets)
    );
    expect_eq!(
        rt,
        (world.splitter(), world.worker(15)),
        (SplitState::Idle, WorkerState::Idle)
    );
}

#[test]
fn a_world_is_opened_from_a_listing(rt: HostRuntime) -> Result<(), Fail> {
    let config = Config::new(2, 2, 100, 65536)?;
    let before = listing_after_all(rt.alloc(), config)?;
    let world = World::open_from(rt.alloc(), &before)?;
    expect_at_rest(&rt, &world, before.buckets());
    are_same(&rt, &world.listing()?, &before);
    Ok(())
}

/// A key that is there changes nothing.
fn expect_no_split(rt: &impl Abort, alloc: Global, before: &Listing) -> Result<(), Fail> {
    let calls = [insert(b"a", b"5")?, search(b"a")?];
    let found = Reply::Found(Value::new(b"1")?);
    let ran = serial_from(alloc, before, &calls)?;
    expect_eq!(
        rt,
        ran.replies.as_slice(),
        [Reply::Exists, found].as_slice()
    );
    expect_eq!(rt, ran.world.root().buckets(), 2);
    Ok(())
}

/// A new key splits a bucket.
fn expect_split(rt: &impl Abort, alloc: Global, before: &Listing) -> Result<(), Fail> {
    let ran = serial_from(alloc, before, &[insert(b"e", b"5")?])?;
    expect_eq!(rt, ran.world.root().buckets(), 3);
    Ok(())
}

/// The number of records is that of the listing: four fill two pages, and the fifth splits a bucket.
#[test]
fn records_of_a_listing_count_for_the_load(rt: HostRuntime) -> Result<(), Fail> {
    let config = Config::new(2, 2, 100, 65536)?;
    let four = [
        insert(b"a", b"1")?,
        insert(b"b", b"2")?,
        insert(b"c", b"3")?,
        insert(b"d", b"4")?,
    ];
    let before = listing_after(rt.alloc(), config, &four)?;
    expect_eq!(&rt, before.buckets(), 2);
    expect_no_split(&rt, rt.alloc(), &before)?;
    expect_split(&rt, rt.alloc(), &before)
}
