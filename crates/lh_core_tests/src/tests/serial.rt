//! Calls served one after another.
ghost use Rattle.lh_core.specs.Serial.{IsAtRest};

use super::calls::{delete, insert, search, small};
use lh_addr::Config;
use lh_bucket::{Bucket, Call, Listing, PagedBucket, PlainBucket, Reply};
use lh_core::{SerialRan, World, serial};
use lh_expect::expect_eq;
use lh_page::Value;
use std::alloc::Global;
use std::process::Abort;
use std::test::Fail;

/// The replies to calls, and the number of buckets after them.
fn replies_of<B: Bucket>(
    alloc: Global,
    config: Config,
    calls: &[Call],
) -> Result<(Vec<Reply>, u32), Fail> {
    let SerialRan { replies, world } = serial::<B>(alloc, config, calls)?;
    Ok((replies, world.root().buckets()))
}

#[test]
fn serial_answers_as_a_map(rt: HostRuntime) -> Result<(), Fail> {
    let calls = [
        delete(b"a")?,
        insert(b"a", b"1")?,
        insert(b"a", b"2")?,
        search(b"a")?,
        delete(b"a")?,
        search(b"a")?,
    ];
    let want = [
        Reply::Absent,
        Reply::Inserted,
        Reply::Exists,
        Reply::Found(Value::new(b"1")?),
        Reply::Deleted,
        Reply::Absent,
    ];
    expect_replies::<PlainBucket>(&rt, rt.alloc(), &calls, &want)?;
    expect_replies::<PagedBucket>(&rt, rt.alloc(), &calls, &want)
}

/// The replies to calls, after which a file has one bucket.
fn expect_replies<B: Bucket>(
    rt: &impl Abort,
    alloc: Global,
    calls: &[Call],
    want: &[Reply],
) -> Result<(), Fail> {
    let (replies, size) = replies_of::<B>(alloc, small()?, calls)?;
    expect_eq!(rt; replies.as_slice(), want);
    expect_eq!(rt; size, 1);
    Ok(())
}

/// The lengths of the lists of a listing.
fn lengths_of<B: Bucket>(
    alloc: Global,
    config: Config,
    calls: &[Call],
) -> Result<Vec<usize>, Fail> {
    let SerialRan { replies: _, world } = serial::<B>(alloc, config, calls)?;
    lengths_in(alloc, &world.listing()?)
}

fn lengths_in(alloc: Global, listing: &Listing) -> Result<Vec<usize>, Fail> {
    let mut lengths = Vec::new(alloc);
    for bucket in 0..listing.buckets() {
        lengths.push(listing.len_of(bucket))?;
    }
    Ok(lengths)
}

fn expect_lengths<B: Bucket>(
    rt: &impl Abort,
    alloc: Global,
    config: Config,
    calls: &[Call],
) -> Result<(), Fail> {
    expect_eq!(
        rt,
        lengths_of::<B>(alloc, config, calls)?.as_slice(),
        [2, 2, 1].as_slice()
    );
    Ok(())
}

#[test]
fn a_file_grows_past_the_threshold_and_not_at_it(rt: HostRuntime) -> Result<(), Fail> {
    let calls = [
        insert(b"a", b"1")?,
        insert(b"b", b"2")?,
        insert(b"c", b"3")?,
        insert(b"d", b"4")?,
        insert(b"e", b"5")?,
    ];
    let full = Config::new(1, 2, 100, 65536)?;
    let fuller = Config::new(1, 2, 200, 65536)?;
    expect_lengths::<PlainBucket>(&rt, rt.alloc(), full, &calls)?;
    expect_lengths::<PagedBucket>(&rt, rt.alloc(), full, &calls)?;
    expect_eq!(
        &rt,
        replies_of::<PagedBucket>(rt.alloc(), fuller, &calls)?.1,
        2
    );
    Ok(())
}

/// The first bytes of the keys, each behind the number of its bucket.
fn keys_in(alloc: Global, world: &World<PagedBucket>) -> Result<Vec<(u32, u8)>, Fail> {
    let mut keys = Vec::new(alloc);
    for i in 0..world.filled() {
        let bucket = world.bucket(i);
        for place in 0..bucket.len() {
            keys.push((i, bucket.pair_at(place).key.bytes()[0]))?;
        }
    }
    Ok(keys)
}

#[test]
fn buckets_hold_their_records_in_order(rt: HostRuntime) -> Result<(), Fail> {
    let calls = [
        insert(b"a", b"1")?,
        insert(b"b", b"2")?,
        insert(b"c", b"3")?,
    ];
    let config = Config::new(1, 2, 100, 65536)?;
    let SerialRan { replies: _, world } = serial::<PagedBucket>(rt.alloc(), config, &calls)?;
    expect_eq!(
        &rt,
        keys_in(rt.alloc(), &world)?.as_slice(),
        [(0, b'a'), (0, b'c'), (1, b'b')].as_slice()
    );
    Ok(())
}

fn forty_inserts(alloc: Global) -> Result<Vec<Call>, Fail> {
    let mut calls = Vec::new(alloc);
    for key in 0..40_u8 {
        calls.push(insert(&[key], b"1")?)?;
    }
    Ok(calls)
}

/// How many buckets a file has after forty inserts with pages of one record, and how many records are listed.
fn after_forty<B: Bucket>(alloc: Global, max: u32) -> Result<(usize, u32, u64), Fail> {
    let config = Config::new(1, 1, 100, max)?;
    let SerialRan { replies, world } = serial::<B>(alloc, config, &forty_inserts(alloc)?)?;
    let inserted = replies.iter().filter(|reply| **reply == Reply::Inserted);
    let listing = world.listing()?;
    Ok((inserted.count(), world.root().buckets(), listing.len()))
}

/// No number of calls is too many, nor of buckets, and a file that has as many as it may is filled further.
#[test]
fn many_calls_are_served(rt: HostRuntime) -> Result<(), Fail> {
    let alloc = rt.alloc();
    expect_eq!(&rt, after_forty::<PlainBucket>(alloc, 65536)?, (40, 40, 40));
    expect_eq!(&rt, after_forty::<PagedBucket>(alloc, 65536)?, (40, 40, 40));
    expect_eq!(&rt, after_forty::<PlainBucket>(alloc, 2)?, (40, 2, 40));
    expect_eq!(&rt, after_forty::<PagedBucket>(alloc, 2)?, (40, 2, 40));
    Ok(())
}

/// Serves an insert of the key of this number: the numbers of records and of buckets from then on, and whether a split was
/// refused.
fn inserted<B: Bucket>(world: &mut World<B>, number: u8) -> Result<(u64, u32, bool), Fail>
    requires { IsAtRest world.old.state }
    ensures { IsAtRest world.new.state }
{
    let served = world.serve(insert(&[number], b"1")?, u64::from(number))?;
    Ok((served.records, world.root().buckets(), served.split_refused))
}

fn insert_four(rt: &impl Abort, world: &mut World<PagedBucket>) -> Result<(), Fail>
    requires { IsAtRest world.old.state }
{
    expect_eq!(rt, inserted(world, 0)?, (1, 1, false));
    expect_eq!(rt, inserted(world, 1)?, (2, 2, false));
    expect_eq!(rt, inserted(world, 2)?, (3, 3, false));
    expect_eq!(rt, inserted(world, 3)?, (4, 4, false));
    Ok(())
}

/// A caller who goes on where memory runs out has as many buckets as the policy wants, and is told of no refused split.
#[test]
fn each_served_call_splits_where_the_policy_wants_it(rt: HostRuntime) -> Result<(), Fail> {
    insert_four(
        &rt,
        &mut World::new(rt.alloc(), Config::new(1, 1, 100, 65536)?)?,
    )
}
