//! Calls at buckets, as the tests make them.
ghost use Rattle.std.specs.Prelude.{◌≡◌, ◌≤◌, OnErr, IfOk, IfSome, IfNone};
ghost use Rattle.lh_bucket.specs.Bucket.{answer, content};
ghost use Rattle.lh_bucket.specs.PlainMap.{after};

use lh_addr::fnv1a;
use lh_bucket::{Answer, Bucket, Call, Memory, Reply, Verdict};
use lh_expect::expect_eq;
use lh_page::{Key, Pair, Value};
use std::alloc::Global;
use std::process::Abort;
use std::test::Fail;

pub(super) fn pair(key: &[u8], value: &[u8]) -> Result<Pair, Fail> {
    Ok(Pair {
        key: Key::new(key)?,
        value: Value::new(value)?,
    })
}

/// Serves a call at a bucket that it looks for at level `k`, and answers nothing at another bucket.
pub(super) fn serve_here<B: Bucket>(
    bucket: &mut B,
    call: &Call,
    k: u8,
) -> Result<Option<Answer>, Memory>
    requires { k ≤ 16 }
    ensures answer { IfOk result (λ r. IfSome r (λ a. a ≡ answer (B.seen bucket.old) call.now k)) }
    ensures content { IfOk result (λ r. IfSome r
        (λ _. content (B.seen bucket.new) ≡ after (content (B.seen bucket.old)) call.now)) }
    ensures passed { IfOk result (λ r. IfNone r (B.seen bucket.new ≡ B.seen bucket.old)) }
    ensures head { (B.seen bucket.new).head ≡ (B.seen bucket.old).head }
    ensures err { OnErr result (B.seen bucket.new ≡ B.seen bucket.old) }
{
    match bucket.compare(fnv1a(call.key().bytes()), k) {
        Verdict::Here => {
            let answer = bucket.serve(call, k)?;
            Ok(Some(answer))
        }
        _ => Ok(None),
    }
}

/// The reply to a call at a bucket of level 0.
pub(super) fn reply_of<B: Bucket>(bucket: &mut B, call: Call) -> Result<Reply, Fail>
    ensures { (B.seen bucket.new).head ≡ (B.seen bucket.old).head }
{
    let answer = serve_here(bucket, &call, 0)?;
    Ok(answer.ok_or("not the bucket")?.reply())
}

/// Calls at a bucket of level 0, each with the reply that is due.
pub(super) fn expect_replies<B: Bucket>(
    rt: &impl Abort,
    bucket: &mut B,
    rows: &[(Call, Reply)],
) -> Result<(), Fail>
    ensures { (B.seen bucket.new).head ≡ (B.seen bucket.old).head }
{
    for (call, reply) in rows {
        expect_eq!(rt, reply_of(bucket, *call)?, *reply);
    }
    Ok(())
}

/// Inserts keys of one byte each, with their places as values, at level `k`.
pub(super) fn fill<B: Bucket>(bucket: &mut B, keys: &[u8], k: u8) -> Result<(), Fail>
    requires { k ≤ 16 }
    ensures { (B.seen bucket.new).head ≡ (B.seen bucket.old).head }
{
    for key in keys {
        let record = pair(&[*key], &[*key])?;
        let answer = serve_here(bucket, &Call::Insert(record.key, record.value), k)?;
        answer.ok_or("not the bucket")?;
    }
    Ok(())
}

/// The first bytes of the keys, in the order of their places.
pub(super) fn keys_of<B: Bucket>(alloc: Global, bucket: &B) -> Result<Vec<u8>, Fail> {
    let mut keys = Vec::new(alloc);
    for place in 0..bucket.len() {
        keys.push(bucket.pair_at(place).key.bytes()[0])?;
    }
    Ok(keys)
}

#[test]
fn calls_are_of_kinds(rt: HostRuntime) -> Result<(), Fail> {
    let record = pair(b"a", b"1")?;
    for (call, is_search, is_insert) in [
        (Call::Search(record.key), true, false),
        (Call::Insert(record.key, record.value), false, true),
        (Call::Delete(record.key), false, false),
        (Call::Replace(record.key, record.value), false, false),
    ] {
        expect_eq!(
            &rt,
            (call.is_search(), call.is_insert()),
            (is_search, is_insert)
        );
    }
    Ok(())
}
