//! Calls with key and value lent, at a bucket of pages.
ghost use Rattle.std.specs.Prelude.{◌≡◌, OnErr, IfOk, IfSome};
ghost use Rattle.lh_bucket.specs.Bucket.{answer};
ghost use Rattle.lh_bucket.specs.Change.{call_of};

use super::calls::pair;
use lh_addr::fnv1a;
use lh_bucket::{
    Answer, Bucket, Call, Change, ChangeReply, Home, Memory, PagedBucket, Reply, Verdict,
};
use lh_expect::{expect, expect_eq, expect_ne};
use lh_page::{Key, Pair, Value};
use std::process::Abort;
use std::test::Fail;

/// Serves a change at a bucket of level 0, and answers nothing at another bucket.
fn change_here(bucket: &mut PagedBucket, change: Change<'_>) -> Result<Option<Answer>, Memory>
    ensures answer { IfOk result (λ r. IfSome r (λ a. a ≡ answer bucket.old (call_of change.entry) 0)) }
    ensures err { OnErr result (bucket.new ≡ bucket.old) }
{
    let code = fnv1a(change.key().bytes());
    match bucket.compare(code, 0) {
        Verdict::Here => {
            let home = bucket.home(code, 0);
            let reply = bucket.change(change, 0)?;
            Ok(Some(Answer::of_change(change, reply, home)))
        }
        _ => Ok(None),
    }
}

/// Searches at a bucket of level 0, and answers nothing at another bucket.
fn search_here(bucket: &PagedBucket, key: &Key) -> Option<Answer> {
    let code = fnv1a(key.bytes());
    match bucket.compare(code, 0) {
        Verdict::Here => {
            let home = bucket.home(code, 0);
            let mut value = Value::empty();
            match bucket.find(key) {
                Some(place) => {
                    value.set(bucket.value_bytes(place));
                    Some(Answer::of_search(key, Some(&value), home))
                }
                None => Some(Answer::of_search(key, None, home)),
            }
        }
        _ => None,
    }
}

/// The reply to a change at a bucket of level 0. The growth may be refused once: then nothing has changed, and the
/// same change again succeeds.
fn reply_to(rt: &impl Abort, bucket: &mut PagedBucket, change: Change<'_>) -> Result<Reply, Fail> {
    let count = bucket.len();
    let answer = match change_here(bucket, change) {
        Ok(answer) => answer,
        Err(Memory) => {
            expect_eq!(rt; bucket.len(), count);
            expect_eq!(rt, bucket.find(change.key()), None);
            change_here(bucket, change)?
        }
    };
    let answer = answer.ok_or("not the bucket")?;
    expect_eq!(rt, answer.call(), change.call());
    Ok(answer.reply())
}

fn expect_reply(
    rt: &impl Abort,
    bucket: &mut PagedBucket,
    change: Change<'_>,
    reply: Reply,
) -> Result<(), Fail> {
    expect_eq!(rt; reply_to(rt, bucket, change)?, reply);
    Ok(())
}

/// A search for a key at bucket 0 of a file of one bucket has this reply.
fn expect_found(
    rt: &impl Abort,
    bucket: &PagedBucket,
    key: &Key,
    reply: Reply,
) -> Result<(), Fail> {
    let met = search_here(bucket, key).ok_or("not the bucket")?;
    expect_eq!(rt, met.call(), Call::Search(*key));
    expect_eq!(rt; met.reply(), reply);
    expect_eq!(rt, (met.bucket(), met.level(), met.initial()), (0, 0, 1));
    Ok(())
}

fn serve_changes(rt: &impl Abort, bucket: &mut PagedBucket) -> Result<(), Fail> {
    let Pair { key, value } = pair(b"a", b"1")?;
    let longer = Value::new(&[b'2'; 112])?;
    let insert = Change::Insert(&key, &value);
    let again = Change::Insert(&key, &longer);
    let replace = Change::Replace(&key, &longer);
    let delete = Change::Delete(&key);
    expect_reply(rt, bucket, delete, Reply::Absent)?;
    expect_reply(rt, bucket, replace, Reply::Absent)?;
    expect_eq!(rt, bucket.len(), 0);
    expect_reply(rt, bucket, insert, Reply::Inserted)?;
    expect_reply(rt, bucket, again, Reply::Exists)?;
    expect_found(rt, bucket, &key, Reply::Found(value))?;
    expect_reply(rt, bucket, replace, Reply::Replaced)?;
    expect_found(rt, bucket, &key, Reply::Found(longer))?;
    expect_reply(rt, bucket, delete, Reply::Deleted)?;
    expect_found(rt, bucket, &key, Reply::Absent)
}

#[test]
fn a_paged_bucket_serves_changes(rt: HostRuntime) -> Result<(), Fail> {
    serve_changes(&rt, &mut PagedBucket::make(rt.alloc(), 1, 2, 0, Some(0))?)
}

/// The home of a code at a bucket of level 0, and none at another bucket.
fn home_here(bucket: &PagedBucket, code: u64) -> Option<Home> {
    match bucket.compare(code, 0) {
        Verdict::Here => Some(bucket.home(code, 0)),
        _ => None,
    }
}

fn expect_home(rt: &impl Abort, bucket: &PagedBucket) -> Result<(), Fail> {
    let code = fnv1a(b"a");
    let home = home_here(bucket, code).ok_or("not the bucket")?;
    expect_eq!(rt; home.code(), code);
    expect_eq!(rt, (home.bucket(), home.level(), home.initial()), (0, 0, 1));
    Ok(())
}

#[test]
fn a_home_names_its_bucket(rt: HostRuntime) -> Result<(), Fail> {
    expect_home(&rt, &PagedBucket::make(rt.alloc(), 1, 2, 0, Some(0))?)
}

#[test]
fn calls_are_changes(rt: HostRuntime) -> Result<(), Fail> {
    let a = pair(b"a", b"1")?;
    let insert = Call::Insert(a.key, a.value);
    expect!(&rt, Change::of_call(&Call::Search(a.key)).is_none());
    let change = Change::of_call(&insert).ok_or("a search")?;
    expect_eq!(&rt, change.key(), &a.key);
    expect_eq!(rt; change.call(), insert);
    expect_eq!(&rt, ChangeReply::Exists.reply(), Reply::Exists);
    expect_ne!(&rt, ChangeReply::Exists, ChangeReply::Inserted);
    Ok(())
}
