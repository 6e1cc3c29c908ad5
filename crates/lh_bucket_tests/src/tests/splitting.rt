//! Which records a split sends where, and in what order.
ghost use Rattle.lh_bucket.specs.Bucket.{CanSplit};

use super::calls::{fill, keys_of, pair, serve_here};
use lh_bucket::{Bucket, Call, PagedBucket, PlainBucket};
use lh_expect::expect_eq;
use lh_page::Key;
use std::alloc::Global;
use std::process::Abort;
use std::test::Fail;

fn divide_three_keys<B: Bucket>(
    rt: &impl Abort,
    alloc: Global,
    old: &mut B,
    new: &mut B,
) -> Result<(), Fail>
    requires { CanSplit (B.seen old.old).head (B.seen new.old).head }
{
    fill(old, b"abc", 0)?;
    old.split_into(new)?;
    expect_eq!(rt, keys_of(alloc, old)?.as_slice(), b"ac".as_slice());
    expect_eq!(rt, keys_of(alloc, new)?.as_slice(), b"b".as_slice());
    expect_eq!(rt, old.level(), Some(1));
    expect_eq!(rt, new.level(), Some(1));
    Ok(())
}

fn split_divides_three_keys<B: Bucket>(rt: &impl Abort, alloc: Global) -> Result<(), Fail> {
    let mut old = B::make(alloc, 1, 14, 0, Some(0))?;
    let mut new = B::make(alloc, 1, 14, 1, None)?;
    divide_three_keys(rt, alloc, &mut old, &mut new)
}

#[test]
fn a_split_divides_three_keys(rt: HostRuntime) -> Result<(), Fail> {
    split_divides_three_keys::<PlainBucket>(&rt, rt.alloc())?;
    split_divides_three_keys::<PagedBucket>(&rt, rt.alloc())
}

fn expect_keys<B: Bucket>(
    rt: &impl Abort,
    alloc: Global,
    bucket: &B,
    keys: &[u8],
) -> Result<(), Fail> {
    expect_eq!(rt; keys_of(alloc, bucket)?.as_slice(), keys);
    Ok(())
}

/// The keys of two buckets after inserts and a delete, and after a split, in the order of their places.
fn expect_places<B: Bucket>(
    rt: &impl Abort,
    alloc: Global,
    old: &mut B,
    new: &mut B,
    dues: [&[u8]; 3],
) -> Result<(), Fail>
    requires { CanSplit (B.seen old.old).head (B.seen new.old).head }
{
    let [before, stay, gone] = dues;
    fill(old, b"acegbd", 0)?;
    serve_here(old, &Call::Delete(Key::new(b"a")?), 0)?.ok_or("not the bucket")?;
    expect_keys(rt, alloc, old, before)?;
    old.split_into(new)?;
    expect_keys(rt, alloc, old, stay)?;
    expect_keys(rt, alloc, new, gone)
}

fn split_keeps_order<B: Bucket>(
    rt: &impl Abort,
    alloc: Global,
    dues: [&[u8]; 3],
) -> Result<(), Fail> {
    let mut old = B::make(alloc, 1, 2, 0, Some(0))?;
    let mut new = B::make(alloc, 1, 2, 1, None)?;
    expect_places(rt, alloc, &mut old, &mut new, dues)
}

#[test]
fn places_keep_their_order(rt: HostRuntime) -> Result<(), Fail> {
    split_keeps_order::<PagedBucket>(&rt, rt.alloc(), [b"dcegb", b"ceg", b"db"])?;
    split_keeps_order::<PlainBucket>(&rt, rt.alloc(), [b"bcdeg", b"ceg", b"bd"])
}

/// A bucket of level 0 has no greatest number of records, nor has a split of it.
fn divide_many_records<B: Bucket>(rt: &impl Abort, old: &mut B, new: &mut B) -> Result<(), Fail>
    requires { CanSplit (B.seen old.old).head (B.seen new.old).head }
{
    for number in 0..1000_u16 {
        let record = pair(&number.to_be_bytes(), b"1")?;
        let call = Call::Insert(record.key, record.value);
        serve_here(old, &call, 0)?.ok_or("not the bucket")?;
    }
    expect_eq!(rt, old.len(), 1000);
    old.split_into(new)?;
    expect_eq!(rt, (old.len(), new.len()), (500, 500));
    Ok(())
}

fn split_divides_many_records<B: Bucket>(rt: &impl Abort, alloc: Global) -> Result<(), Fail> {
    let mut old = B::make(alloc, 1, 24, 0, Some(0))?;
    let mut new = B::make(alloc, 1, 24, 1, None)?;
    divide_many_records(rt, &mut old, &mut new)
}

#[test]
fn a_split_divides_many_records(rt: HostRuntime) -> Result<(), Fail> {
    split_divides_many_records::<PlainBucket>(&rt, rt.alloc())?;
    split_divides_many_records::<PagedBucket>(&rt, rt.alloc())
}
