//! Buckets whose records have less room than the longest needs.
ghost use Rattle.std.specs.Prelude.{◌≡◌};
ghost use Rattle.lh_bucket.specs.Bucket.{CanSplit};
ghost use Rattle.lh_bucket.specs.Call.{CallFits};
ghost use Rattle.lh_bucket.specs.Change.{call_of};

use super::calls::pair;
use super::listings::{all_fit, bucket_of, lists_of};
use lh_addr::{Config, fnv1a};
use lh_bucket::{Change, ChangeReply, Listing, PagedBucket, SizedBucket, Verdict};
use lh_expect::{expect, expect_eq};
use lh_page::{Key, Pair, Value};
use std::alloc::Global;
use std::process::Abort;
use std::test::Fail;

/// Serves a change at a bucket of level 0.
fn served<const ROOM: usize>(
    bucket: &mut SizedBucket<ROOM>,
    change: Change<'_>,
) -> Result<ChangeReply, Fail>
    requires { CallFits ROOM (call_of change) }
    ensures { bucket.new.head ≡ bucket.old.head }
{
    match bucket.compare(fnv1a(change.key().bytes()), 0) {
        Verdict::Here => Ok(bucket.change(change, 0)?),
        _ => Err("not the bucket")?,
    }
}

/// Inserts records that fit.
fn insert_all<const ROOM: usize>(
    rt: &impl Abort,
    bucket: &mut SizedBucket<ROOM>,
    records: &[Pair],
    reply: ChangeReply,
) -> Result<(), Fail>
    ensures { bucket.new.head ≡ bucket.old.head }
{
    for record in records {
        if !SizedBucket::<ROOM>::fits(&record.key, &record.value) {
            return Err("no room")?;
        }
        expect_eq!(rt; served(bucket, Change::Insert(&record.key, &record.value))?, reply);
    }
    Ok(())
}

/// Gives keys values that fit beside them.
fn replace_all<const ROOM: usize>(
    rt: &impl Abort,
    bucket: &mut SizedBucket<ROOM>,
    records: &[Pair],
) -> Result<(), Fail>
    ensures { bucket.new.head ≡ bucket.old.head }
{
    for record in records {
        if !SizedBucket::<ROOM>::fits(&record.key, &record.value) {
            return Err("no room")?;
        }
        expect_eq!(
            rt,
            served(bucket, Change::Replace(&record.key, &record.value))?,
            ChangeReply::Replaced
        );
    }
    Ok(())
}

/// The bucket has these records in this order.
fn expect_records<const ROOM: usize>(
    rt: &impl Abort,
    alloc: Global,
    bucket: &SizedBucket<ROOM>,
    records: &[Pair],
) -> Result<(), Fail> {
    expect_eq!(rt; bucket.copied_pairs(alloc)?.as_slice(), records);
    Ok(())
}

/// A key and a value of so many bytes fit.
fn has_room<const ROOM: usize>(key: usize, value: usize) -> Result<bool, Fail> {
    let bytes = [b'1'; 120];
    let key = Key::new(bytes.get(..key).ok_or("too long")?)?;
    let value = Value::new(bytes.get(..value).ok_or("too long")?)?;
    Ok(SizedBucket::<ROOM>::fits(&key, &value))
}

#[test]
fn a_room_is_for_key_and_value_together(rt: HostRuntime) -> Result<(), Fail> {
    let rows = [(1, 1, true), (2, 0, true), (2, 1, false), (1, 2, false)];
    for (key, value, fits) in rows {
        expect_eq!(rt; has_room::<2>(key, value)?, fits);
    }
    let rows = [
        (16, 16, true),
        (32, 0, true),
        (1, 31, true),
        (16, 17, false),
        (33, 0, false),
    ];
    for (key, value, fits) in rows {
        expect_eq!(rt; has_room::<32>(key, value)?, fits);
    }
    let rooms = (
        has_room::<167>(56, 111)?,
        has_room::<167>(56, 112)?,
        has_room::<168>(56, 112)?,
    );
    expect_eq!(rt; rooms, (true, false, true));
    Ok(())
}

/// Inserts records, each of which is new, and the bucket has just these then.
fn fill<const ROOM: usize>(
    rt: &impl Abort,
    alloc: Global,
    bucket: &mut SizedBucket<ROOM>,
    records: &[Pair],
) -> Result<(), Fail>
    ensures { bucket.new.head ≡ bucket.old.head }
{
    insert_all(rt, bucket, records, ChangeReply::Inserted)?;
    expect_records(rt, alloc, bucket, records)
}

/// Gives keys values that fit beside them, and the bucket has these records then.
fn replace<const ROOM: usize>(
    rt: &impl Abort,
    alloc: Global,
    bucket: &mut SizedBucket<ROOM>,
    records: &[Pair],
    due: &[Pair],
) -> Result<(), Fail>
    ensures { bucket.new.head ≡ bucket.old.head }
{
    replace_all(rt, bucket, records)?;
    expect_records(rt, alloc, bucket, due)
}

/// Deletes the record of a key, and the bucket has these records then.
fn delete<const ROOM: usize>(
    rt: &impl Abort,
    alloc: Global,
    bucket: &mut SizedBucket<ROOM>,
    key: &Key,
    due: &[Pair],
) -> Result<(), Fail>
    ensures { bucket.new.head ≡ bucket.old.head }
{
    expect_eq!(
        rt,
        served(bucket, Change::Delete(key))?,
        ChangeReply::Deleted
    );
    expect_records(rt, alloc, bucket, due)
}

/// Splits bucket 0, and the two buckets have these records then.
fn split<const ROOM: usize>(
    rt: &impl Abort,
    alloc: Global,
    old: &mut SizedBucket<ROOM>,
    new: &mut SizedBucket<ROOM>,
    stay: &[Pair],
    gone: &[Pair],
) -> Result<(), Fail>
    requires { CanSplit old.old.head new.old.head }
{
    old.split_into(new)?;
    expect_records(rt, alloc, old, stay)?;
    expect_records(rt, alloc, new, gone)
}

/// Records of 32 bytes, and of fewer. By the sum of their bytes, `a` and `long` stay where bucket 0 is split, and the
/// others go.
fn change_and_split(
    rt: &impl Abort,
    alloc: Global,
    old: &mut SizedBucket<32>,
    new: &mut SizedBucket<32>,
) -> Result<(), Fail>
    requires { CanSplit old.old.head new.old.head }
{
    let long = pair(&[b'k'; 31], b"1")?;
    let half = pair(&[b'h'; 16], &[b'w'; 16])?;
    let (b, empty_b) = (pair(b"b", &[b'v'; 31])?, pair(b"b", b"")?);
    let (a, full_a) = (pair(b"a", b"")?, pair(b"a", &[b'x'; 31])?);
    fill(rt, alloc, old, &[long, b, half, a])?;
    insert_all(rt, old, &[full_a], ChangeReply::Exists)?;
    expect_records(rt, alloc, old, &[long, b, half, a])?;
    replace(
        rt,
        alloc,
        old,
        &[full_a, empty_b],
        &[long, empty_b, half, full_a],
    )?;
    delete(rt, alloc, old, &long.key, &[full_a, empty_b, half])?;
    split(rt, alloc, old, new, &[full_a], &[empty_b, half])
}

#[test]
fn a_room_of_32_bytes_is_divided_freely(rt: HostRuntime) -> Result<(), Fail> {
    let alloc = rt.alloc();
    let mut old = SizedBucket::make(alloc, 1, 2, 0, Some(0))?;
    let mut new = SizedBucket::make(alloc, 1, 2, 1, None)?;
    change_and_split(&rt, alloc, &mut old, &mut new)
}

/// The same with records of two bytes: the split leaves `a` and `c`, and sends `d` away.
fn change_and_split_small(
    rt: &impl Abort,
    alloc: Global,
    old: &mut SizedBucket<2>,
    new: &mut SizedBucket<2>,
) -> Result<(), Fail>
    requires { CanSplit old.old.head new.old.head }
{
    let (a, b, c, d) = (
        pair(b"a", b"1")?,
        pair(b"b", b"2")?,
        pair(b"c", b"3")?,
        pair(b"d", b"")?,
    );
    let (other_a, empty_c, full_d) = (pair(b"a", b"9")?, pair(b"c", b"")?, pair(b"d", b"4")?);
    fill(rt, alloc, old, &[a, b, c, d])?;
    replace(
        rt,
        alloc,
        old,
        &[other_a, empty_c, full_d],
        &[other_a, b, empty_c, full_d],
    )?;
    delete(rt, alloc, old, &b.key, &[other_a, full_d, empty_c])?;
    split(rt, alloc, old, new, &[other_a, empty_c], &[full_d])
}

#[test]
fn a_room_of_two_bytes_has_a_byte_for_each(rt: HostRuntime) -> Result<(), Fail> {
    let alloc = rt.alloc();
    let mut old = SizedBucket::make(alloc, 1, 1, 0, Some(0))?;
    let mut new = SizedBucket::make(alloc, 1, 1, 1, None)?;
    change_and_split_small(&rt, alloc, &mut old, &mut new)
}

/// Of the longest record, at the widest room: nobody asks whether it fits.
fn change_longest(rt: &impl Abort, alloc: Global, bucket: &mut PagedBucket) -> Result<(), Fail> {
    let longest = pair(&[b'k'; 56], &[b'v'; 112])?;
    let empty = pair(&[b'k'; 56], b"")?;
    expect_eq!(
        rt,
        served(bucket, Change::Insert(&empty.key, &empty.value))?,
        ChangeReply::Inserted
    );
    expect_eq!(
        rt,
        served(bucket, Change::Replace(&longest.key, &longest.value))?,
        ChangeReply::Replaced
    );
    expect_records(rt, alloc, bucket, &[longest])
}

#[test]
fn the_widest_room_takes_the_longest_record(rt: HostRuntime) -> Result<(), Fail> {
    change_longest(
        &rt,
        rt.alloc(),
        &mut PagedBucket::make(rt.alloc(), 1, 14, 0, Some(0))?,
    )
}

/// The first bucket of a file of two, at level 0, with these records.
fn expect_filled(
    rt: &impl Abort,
    alloc: Global,
    bucket: &SizedBucket<2>,
    records: &[Pair],
) -> Result<(), Fail> {
    expect_eq!(rt, (bucket.number(), bucket.initial()), (0, 2));
    expect_eq!(
        rt,
        (bucket.capacity(), bucket.level(), bucket.len()),
        (14, Some(0), 2)
    );
    expect_records(rt, alloc, bucket, records)
}

#[test]
fn a_small_bucket_is_filled_with_a_list(rt: HostRuntime) -> Result<(), Fail> {
    let alloc = rt.alloc();
    let config = Config::new(2, 14, 100, 4).ok().ok_or("config")?;
    let listing = Listing::new(alloc, config, 2, lists_of(alloc, &[b"ca", b"b"])?)?;
    expect!(&rt, !all_fit::<1>(listing.pairs_of(0)));
    expect_filled(
        &rt,
        alloc,
        &bucket_of(alloc, &listing, 0)?,
        listing.pairs_of(0),
    )
}
