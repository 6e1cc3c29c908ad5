//! Calls by a key with its code.
ghost use Rattle.lh_file.specs.FileState.{IsOf};

use lh_addr::Config;
use lh_bucket::{Answer, Reply};
use lh_expect::expect_eq;
use lh_file::{CodedKey, FileFault, Hand, HashFile, NoGate};
use lh_page::{Key, Value};
use std::process::Abort;
use std::sync::Wait;
use std::test::Fail;

/// The reply of an answer.
fn reply_of(answer: Result<Answer, FileFault>) -> Result<Reply, FileFault> {
    Ok(answer?.reply())
}

/// Calls by a key, and by the key with its code.
fn expect_replies<R: Wait + Abort>(
    rt: &R,
    file: &HashFile<NoGate>,
    hand: &mut Hand,
    key: Key,
    value: Value,
)
    requires { IsOf file.now.state hand.old }
{
    let coded = CodedKey::new(key);
    let inserted = reply_of(file.insert(rt, hand, coded, value));
    expect_eq!(rt; inserted, Ok(Reply::Inserted));
    let found = reply_of(file.search(rt, hand, key));
    expect_eq!(rt; found, Ok(Reply::Found(value)));
    let replaced = reply_of(file.replace(rt, hand, coded, Value::empty()));
    expect_eq!(rt; replaced, Ok(Reply::Replaced));
    let found = reply_of(file.search(rt, hand, coded));
    expect_eq!(rt; found, Ok(Reply::Found(Value::empty())));
    let deleted = reply_of(file.delete(rt, hand, coded));
    expect_eq!(rt; deleted, Ok(Reply::Deleted));
    let absent = reply_of(file.search(rt, hand, key));
    expect_eq!(rt; absent, Ok(Reply::Absent));
}

#[test]
fn answers_take_a_key_with_its_code(rt: HostRuntime) -> Result<(), Fail> {
    let (key, value) = (Key::new(b"key")?, Value::new(b"value")?);
    let (file, mut hand) = HashFile::new(rt.alloc(), Config::default())?;
    expect_replies(&rt, &file, &mut hand, key, value);
    Ok(())
}
