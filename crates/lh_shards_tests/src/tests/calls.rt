//! Each call once, and the counts of shards.
ghost use Rattle.std.specs.Prelude.{IfOk};
ghost use Rattle.lh_shards.specs.Hands.{AreOf};

use lh_addr::Config;
use lh_bucket::{Answer, Reply};
use lh_expect::{expect, expect_eq};
use lh_file::{CodedKey, Compared, FileFault};
use lh_page::{Key, Value};
use lh_shards::{CreateFault, Hands, Shards, SplitFault};
use std::alloc::Global;
use std::process::Abort;
use std::sync::Wait;
use std::test::Fail;

pub(crate) fn shards_of(alloc: Global, count: u32) -> Result<(Shards, Hands), Fail>
    ensures { IfOk result (λ made. AreOf made.0 made.1) }
{
    let config = Config::new(1, 2, 100, 16)?;
    Ok(Shards::create(alloc, config, count, true)?)
}

#[test]
fn none_and_too_many_are_refused(rt: HostRuntime) -> Result<(), Fail> {
    let config = Config::new(1, 2, 100, 16)?;
    for count in [0, 1_025, u32::MAX] {
        match Shards::create(rt.alloc(), config, count, false) {
            Err(fault) => expect_eq!(rt; fault, CreateFault::Count),
            Ok(_) => return Err(Fail::new("created")),
        }
    }
    for count in [1, 2, 1_024] {
        let (shards, _) = Shards::create(rt.alloc(), config, count, false)?;
        expect_eq!(rt; shards.count(), count);
    }
    Ok(())
}

/// Inserts each letter, which is there from then on.
pub(crate) fn insert_letters<R: Abort + Wait>(
    rt: &R,
    shards: &Shards,
    hands: &mut Hands,
) -> Result<(), Fail>
    requires { AreOf shards.now hands.old }
    ensures { AreOf shards.now hands.new }
{
    for letter in b'a'..b'z' {
        let (key, value) = (Key::new(&[letter])?, Value::new(&[letter, letter])?);
        expect_eq!(rt, shards.put(rt, hands, &key, &value), Ok(true));
        expect_eq!(
            rt,
            shards.put(rt, hands, &CodedKey::new(key), &value),
            Ok(false)
        );
        expect_eq!(rt, shards.get(rt, hands, &key), Ok(Some(value)));
    }
    Ok(())
}

/// Each call that is lent its key, after letters were inserted.
fn make_lent_calls<R: Abort + Wait>(rt: &R, shards: &Shards, hands: &mut Hands) -> Result<(), Fail>
    requires { AreOf shards.now hands.old }
{
    let (key, value) = (CodedKey::new(Key::new(b"b")?), Value::new(b"other")?);
    insert_letters(rt, shards, hands)?;
    expect_eq!(rt, shards.set(rt, hands, &key, &value), Ok(true));
    let mut read = Value::empty();
    let is_there = shards.read_into(rt, hands, &key, &mut read);
    expect_eq!(rt, (is_there, read), (Ok(true), value));
    let length = shards.with_value(rt, hands, &key, |bytes| bytes.len());
    expect_eq!(rt; length, Ok(Some(5)));
    expect_eq!(rt, shards.remove(rt, hands, &key), Ok(true));
    expect_eq!(rt, shards.remove(rt, hands, &key), Ok(false));
    expect_eq!(rt, shards.get(rt, hands, &key), Ok(None));
    Ok(())
}

#[test]
fn calls_with_keys_lent_are_those_of_a_map(rt: HostRuntime) -> Result<(), Fail> {
    let (shards, mut hands) = shards_of(rt.alloc(), 8)?;
    make_lent_calls(&rt, &shards, &mut hands)
}

/// The value of the next digit.
fn next(bytes: &[u8]) -> Value {
    let digit = bytes.first().map_or(0, |&digit| digit);
    Value::new(&[digit.wrapping_add(1)]).unwrap_or(Value::empty())
}

/// Each call that reads and writes in one step, after letters were inserted.
fn make_calls_in_one_step<R: Abort + Wait>(
    rt: &R,
    shards: &Shards,
    hands: &mut Hands,
) -> Result<(), Fail>
    requires { AreOf shards.now hands.old }
{
    let (key, new) = (CodedKey::new(Key::new(b"b")?), Key::new(b"0")?);
    let (one, two, letters) = (Value::new(b"1")?, Value::new(b"2")?, Value::new(b"bb")?);
    let next_letter = Value::new(b"c")?;
    insert_letters(rt, shards, hands)?;
    expect_eq!(
        rt,
        shards.get_or_put(rt, hands, &key, &one),
        Ok(Some(letters))
    );
    expect_eq!(rt, shards.get_or_put(rt, hands, &new, &one), Ok(None));
    expect_eq!(rt, shards.merge(rt, hands, &new, &one, next), Ok(false));
    expect_eq!(rt, shards.update(rt, hands, &key, next), Ok(true));
    expect_eq!(rt, shards.get(rt, hands, &key), Ok(Some(next_letter)));
    let told = shards.compare_and_set(rt, hands, &new, &one, &letters);
    expect_eq!(rt; told, Ok(Compared::Differs));
    let told = shards.compare_and_set(rt, hands, &new, &two, &letters);
    expect_eq!(rt; told, Ok(Compared::Replaced));
    expect_eq!(rt, shards.take(rt, hands, &new), Ok(Some(letters)));
    make_records_anew(rt, shards, hands, &new, one, two);
    Ok(())
}

/// The calls that add a record, by a key that isn't there.
fn make_records_anew<R: Abort + Wait>(
    rt: &R,
    shards: &Shards,
    hands: &mut Hands,
    new: &Key,
    one: Value,
    two: Value,
)
    requires { AreOf shards.now hands.old }
{
    expect_eq!(rt, shards.upsert(rt, hands, new, &two), Ok(true));
    expect_eq!(rt, shards.upsert(rt, hands, new, &one), Ok(false));
    expect_eq!(rt, shards.take(rt, hands, new), Ok(Some(one)));
    expect_eq!(rt, shards.merge(rt, hands, new, &two, next), Ok(true));
    expect_eq!(rt, shards.get(rt, hands, new), Ok(Some(two)));
}

#[test]
fn calls_in_one_step_are_those_of_a_map(rt: HostRuntime) -> Result<(), Fail> {
    let (shards, mut hands) = shards_of(rt.alloc(), 8)?;
    make_calls_in_one_step(&rt, &shards, &mut hands)
}

/// The reply in an answer.
fn reply_in(answer: Result<Answer, FileFault>) -> Result<Reply, FileFault> {
    Ok(answer?.reply())
}

/// Each call that has an answer.
fn make_calls<R: Abort + Wait>(rt: &R, shards: &Shards, hands: &mut Hands) -> Result<(), Fail>
    requires { AreOf shards.now hands.old }
{
    let (key, value) = (Key::new(b"key")?, Value::new(b"value")?);
    let inserted = reply_in(shards.insert(rt, hands, key, value));
    expect_eq!(rt; inserted, Ok(Reply::Inserted));
    let found = reply_in(shards.search(rt, hands, key));
    expect_eq!(rt; found, Ok(Reply::Found(value)));
    let replaced = reply_in(shards.replace(rt, hands, key, Value::empty()));
    expect_eq!(rt; replaced, Ok(Reply::Replaced));
    let deleted = reply_in(shards.delete(rt, hands, key));
    expect_eq!(rt; deleted, Ok(Reply::Deleted));
    let absent = reply_in(shards.delete(rt, hands, key));
    expect_eq!(rt; absent, Ok(Reply::Absent));
    Ok(())
}

#[test]
fn answers_tell_all(rt: HostRuntime) -> Result<(), Fail> {
    let (shards, mut hands) = shards_of(rt.alloc(), 3)?;
    make_calls(&rt, &shards, &mut hands)
}

/// The same by a key with its code.
fn make_coded_calls<R: Abort + Wait>(rt: &R, shards: &Shards, hands: &mut Hands) -> Result<(), Fail>
    requires { AreOf shards.now hands.old }
{
    let (key, value) = (Key::new(b"key")?, Value::new(b"value")?);
    let coded = CodedKey::new(key);
    let inserted = reply_in(shards.insert(rt, hands, coded, value));
    expect_eq!(rt; inserted, Ok(Reply::Inserted));
    let found = reply_in(shards.search(rt, hands, key));
    expect_eq!(rt; found, Ok(Reply::Found(value)));
    let replaced = reply_in(shards.replace(rt, hands, coded, Value::empty()));
    expect_eq!(rt; replaced, Ok(Reply::Replaced));
    let found = reply_in(shards.search(rt, hands, coded));
    expect_eq!(rt; found, Ok(Reply::Found(Value::empty())));
    let deleted = reply_in(shards.delete(rt, hands, coded));
    expect_eq!(rt; deleted, Ok(Reply::Deleted));
    let absent = reply_in(shards.search(rt, hands, key));
    expect_eq!(rt; absent, Ok(Reply::Absent));
    Ok(())
}

#[test]
fn answers_take_a_key_with_its_code(rt: HostRuntime) -> Result<(), Fail> {
    let (shards, mut hands) = shards_of(rt.alloc(), 3)?;
    make_coded_calls(&rt, &shards, &mut hands)
}

/// Hands of ten calls in each shard have made one of a key.
fn expect_spent<R: Abort + Wait>(rt: &R, shards: &Shards, few: &mut Hands) -> Result<(), Fail>
    requires { AreOf shards.now few.old }
{
    let key = Key::new(b"key")?;
    expect_eq!(rt, shards.get(rt, few, &key)?, None);
    let home = shards.shard_of(lh_addr::fnv1a(key.bytes()));
    match shards.split_hands(few, 10) {
        Err(fault) => expect_eq!(rt;
            fault,
            SplitFault::Spent {
                shard: home,
                left: 9
            }
        ),
        Ok(_) => return Err(Fail::new("divided")),
    }
    let _ = shards.split_hands(few, 9)?;
    Ok(())
}

#[test]
fn a_hand_that_has_too_few_calls_is_named(rt: HostRuntime) -> Result<(), Fail> {
    let (shards, mut hands) = shards_of(rt.alloc(), 4)?;
    let mut few = shards.split_hands(&mut hands, 10)?;
    expect_spent(&rt, &shards, &mut few)
}
