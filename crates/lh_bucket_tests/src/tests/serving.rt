//! What both buckets answer.
ghost use Rattle.std.specs.Prelude.{◌≡◌, IfSome};
ghost use Rattle.lh_bucket.specs.declared.call.Call.TheVariants.{Search};
ghost use Rattle.lh_bucket.specs.Bucket.{answer};

use super::calls::{expect_replies, fill, keys_of, pair};
use lh_addr::fnv1a;
use lh_bucket::{Answer, Bucket, Call, PagedBucket, PlainBucket, Reply, Verdict};
use lh_expect::expect_eq;
use lh_page::{Key, Value};
use std::alloc::Global;
use std::process::Abort;
use std::test::Fail;

fn bucket_compares_levels<B: Bucket>(rt: &impl Abort, alloc: Global) -> Result<(), Fail> {
    let next = Verdict::Next { k: 1, bucket: 1 };
    for (level, key, k, verdict) in [
        (Some(2), b"h", 0, next),
        (Some(2), b"h", 1, Verdict::Defect),
        (Some(2), b"a", 2, Verdict::Here),
        (Some(0), b"a", 0, Verdict::Here),
        (Some(0), b"a", 1, Verdict::Defect),
        (None, b"a", 0, Verdict::Defect),
    ] {
        let bucket = B::make(alloc, 1, 14, 0, level)?;
        expect_eq!(rt; bucket.compare(fnv1a(key), k), verdict);
        expect_eq!(rt; bucket.level(), level);
    }
    Ok(())
}

#[test]
fn buckets_compare_levels(rt: HostRuntime) -> Result<(), Fail> {
    bucket_compares_levels::<PlainBucket>(&rt, rt.alloc())?;
    bucket_compares_levels::<PagedBucket>(&rt, rt.alloc())
}

/// No key of one byte among these is inserted again.
fn expect_all_there<B: Bucket>(rt: &impl Abort, bucket: &mut B, keys: &[u8]) -> Result<(), Fail> {
    let other = Value::new(b"2")?;
    for key in keys {
        let again = Call::Insert(Key::new(&[*key])?, other);
        expect_replies(rt, bucket, &[(again, Reply::Exists)])?;
    }
    Ok(())
}

fn serves_calls<B: Bucket>(rt: &impl Abort, bucket: &mut B) -> Result<(), Fail> {
    let a = pair(b"a", b"1")?;
    expect_replies(
        rt,
        bucket,
        &[
            (Call::Delete(a.key), Reply::Absent),
            (Call::Insert(a.key, a.value), Reply::Inserted),
            (Call::Insert(a.key, Value::new(b"2")?), Reply::Exists),
            (Call::Search(a.key), Reply::Found(a.value)),
        ],
    )?;
    expect_eq!(rt, bucket.len(), 1);
    fill(bucket, b"bcdefg", 0)?;
    expect_all_there(rt, bucket, b"abcdefg")?;
    expect_eq!(rt, bucket.len(), 7);
    expect_replies(
        rt,
        bucket,
        &[
            (Call::Delete(a.key), Reply::Deleted),
            (Call::Search(a.key), Reply::Absent),
        ],
    )
}

fn bucket_serves_calls<B: Bucket>(rt: &impl Abort, alloc: Global) -> Result<(), Fail> {
    let mut bucket = B::make(alloc, 1, 2, 0, Some(0))?;
    serves_calls(rt, &mut bucket)?;
    expect_eq!(
        rt,
        (bucket.number(), bucket.initial(), bucket.capacity()),
        (0, 1, 2)
    );
    Ok(())
}

#[test]
fn buckets_serve_calls(rt: HostRuntime) -> Result<(), Fail> {
    bucket_serves_calls::<PlainBucket>(&rt, rt.alloc())?;
    bucket_serves_calls::<PagedBucket>(&rt, rt.alloc())
}

fn replaces_values<B: Bucket>(rt: &impl Abort, alloc: Global, bucket: &mut B) -> Result<(), Fail> {
    let (a, b) = (pair(b"a", b"a")?, pair(b"b", b"a longer value")?);
    let replace = Call::Replace(b.key, b.value);
    let empty = Value::new(b"")?;
    expect_replies(rt, bucket, &[(replace, Reply::Absent)])?;
    expect_eq!(rt, bucket.len(), 0);
    fill(bucket, b"abc", 0)?;
    expect_replies(
        rt,
        bucket,
        &[
            (replace, Reply::Replaced),
            (Call::Search(b.key), Reply::Found(b.value)),
        ],
    )?;
    expect_eq!(rt, keys_of(alloc, bucket)?.as_slice(), b"abc".as_slice());
    expect_replies(
        rt,
        bucket,
        &[
            (Call::Replace(b.key, empty), Reply::Replaced),
            (Call::Search(b.key), Reply::Found(empty)),
            (Call::Search(a.key), Reply::Found(a.value)),
        ],
    )
}

fn bucket_replaces_values<B: Bucket>(rt: &impl Abort, alloc: Global) -> Result<(), Fail> {
    replaces_values(rt, alloc, &mut B::make(alloc, 1, 1, 0, Some(0))?)
}

#[test]
fn buckets_replace_values(rt: HostRuntime) -> Result<(), Fail> {
    bucket_replaces_values::<PlainBucket>(&rt, rt.alloc())?;
    bucket_replaces_values::<PagedBucket>(&rt, rt.alloc())
}

/// Answers a search at a bucket of level 0, and answers nothing at another bucket.
fn look_here<B: Bucket>(bucket: &B, key: Key) -> Option<Answer>
    ensures { IfSome result (λ a. a ≡ answer (B.seen bucket.now) (Search key) 0) }
{
    match bucket.compare(fnv1a(key.bytes()), 0) {
        Verdict::Here => Some(bucket.look(&Call::Search(key), 0)),
        _ => None,
    }
}

fn expect_found<B: Bucket>(rt: &impl Abort, bucket: &B) -> Result<(), Fail> {
    let record = pair(b"b", b"b")?;
    let answer = look_here(bucket, record.key).ok_or("not the bucket")?;
    expect_eq!(rt, answer.call(), Call::Search(record.key));
    expect_eq!(rt, answer.reply(), Reply::Found(record.value));
    expect_eq!(
        rt,
        (answer.bucket(), answer.level(), answer.initial()),
        (0, 0, 1)
    );
    Ok(())
}

fn look_answers_a_search<B: Bucket>(rt: &impl Abort, alloc: Global) -> Result<(), Fail> {
    let mut bucket = B::make(alloc, 1, 14, 0, Some(0))?;
    fill(&mut bucket, b"ab", 0)?;
    expect_found(rt, &bucket)
}

#[test]
fn looks_answer_a_search(rt: HostRuntime) -> Result<(), Fail> {
    look_answers_a_search::<PlainBucket>(&rt, rt.alloc())?;
    look_answers_a_search::<PagedBucket>(&rt, rt.alloc())
}
