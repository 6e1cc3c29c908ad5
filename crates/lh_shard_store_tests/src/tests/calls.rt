//! Each call of a session.
ghost use Rattle.std.specs.Prelude.{◌≤◌, length};

use lh_expect::{expect, expect_eq};
use lh_shard_store::{
    BucketCopy, CallFault, Compared, Config, CreateFault, ExtendFault, KeyLength, Session,
    ShardStore, Value, ValueLength,
};
use std::test::Fail;

/// A value of one byte, the next after the first of these.
fn next_of(bytes: &[u8]) -> Value
    ensures { length result ≤ 1 }
{
    let first = bytes.first().copied().unwrap_or(b'-');
    Value::new(&[first.wrapping_add(1)]).unwrap_or(Value::empty())
}

/// The first byte of a value.
fn first_of(value: Option<Value>) -> Option<u8> {
    value.and_then(|value| value.bytes().first().copied())
}

/// Whether the value under a key, or none, is read over another one, which stays where there is none.
fn reads<S: Session>(table: &mut S, key: &[u8], due: Option<u8>) -> Result<bool, CallFault> {
    let mut value = next_of(b"8");
    let is_there = table.read_into(key, &mut value)?;
    Ok(is_there == due.is_some() && first_of(Some(value)) == Some(due.unwrap_or(b'9')))
}

/// Whether twelve calls by a key that isn't there are answered, which add no record.
fn misses<S: Session>(table: &mut S) -> Result<bool, CallFault> {
    Ok(
        table.get(b"a")?.is_none()
            && reads(table, b"a", None)?
            && table.with_value(b"a", |_bytes: &[u8]| ())?.is_none()
            && !table.contains(b"a")?
            && !table.set(b"a", b"1")?
            && !table.remove(b"a")?
            && table.take(b"a")?.is_none()
            && !table.update(b"a", |bytes: &[u8]| next_of(bytes))?
            && !table.update_within(b"a", 1, next_of)?
            && table.compare_and_set(b"a", b"1", b"2")? == Compared::Absent
            && table.upsert(b"a", b"1")?
            && table.remove(b"a")?,
    )
}

/// Whether fifteen calls by a key that the first of them adds, and the last removes, are answered.
fn hits<S: Session>(table: &mut S) -> Result<bool, CallFault> {
    Ok(
        table.put(b"a", b"1")?
            && !table.put(b"a", b"2")?
            && first_of(table.get(b"a")?) == Some(b'1')
            && reads(table, b"a", Some(b'1'))?
            && table.with_value(b"a", |bytes: &[u8]| bytes.len())? == Some(1)
            && table.contains(b"a")?
            && table.set(b"a", b"3")?
            && !table.upsert(b"a", b"4")?
            && first_of(table.get_or_put(b"a", b"5")?) == Some(b'4')
            && table.update(b"a", |bytes: &[u8]| next_of(bytes))?
            && !table.merge(b"a", b"9", |bytes: &[u8]| next_of(bytes))?
            && !table.merge_within(b"a", b"9", 1, next_of)?
            && table.compare_and_set(b"a", b"6", b"8")? == Compared::Differs
            && table.compare_and_set(b"a", b"7", b"8")? == Compared::Replaced
            && first_of(table.take(b"a")?) == Some(b'8'),
    )
}

/// Whether three calls that add a record each are answered.
fn adds<S: Session>(table: &mut S) -> Result<bool, CallFault> {
    Ok(
        table.get_or_put(b"b", b"1")?.is_none()
            && table.merge(b"c", b"2", |bytes: &[u8]| next_of(bytes))?
            && table.merge_within(b"d", b"3", 1, next_of)?,
    )
}

/// How many records a closure is given.
fn given<S: Session>(table: &mut S) -> Result<u64, CallFault> {
    let mut given = 0_u64;
    table.for_each(|copy: BucketCopy| given = given.saturating_add(copy.pairs.len() as u64))?;
    Ok(given)
}

#[test]
fn each_call_is_answered(rt: HostRuntime) -> Result<(), Fail> {
    let mut table = ShardStore::new(rt.alloc(), Config::default(), 4)?;
    let mut session = table.session(&rt)?;
    let left = session.left();
    expect_eq!(&rt, misses(&mut session), Ok(true));
    expect_eq!(&rt, hits(&mut session), Ok(true));
    expect_eq!(&rt, adds(&mut session), Ok(true));
    expect_eq!(&rt, (session.len(), session.told()), (3, 30));
    expect_eq!(&rt, (given(&mut session), left), (Ok(3), 1 << 44));

    // All calls by "a" went to one shard.
    expect!(&rt, session.left() <= left - 27);
    Ok(())
}

/// The records of a letter each, in three shards and more.
#[test]
fn all_shards_are_one_table(rt: HostRuntime) -> Result<(), Fail> {
    let mut table = ShardStore::new(rt.alloc(), Config::default(), 8)?;
    let mut session = table.session(&rt)?;
    for letter in b'a'..=b'z' {
        expect_eq!(&rt, session.put(&[letter], b"1"), Ok(true));
    }
    for letter in b'a'..=b'z' {
        expect_eq!(&rt, session.contains(&[letter]), Ok(true));
    }
    expect_eq!(&rt, (session.len(), session.told()), (26, 52));
    expect_eq!(&rt, session.buckets(), 8);
    expect_eq!(&rt, given(&mut session), Ok(26));
    Ok(())
}

/// Whether what can't be a key or a value is told, and is no act.
fn checks_lengths<S: Session>(table: &mut S) -> bool {
    let (key, value) = ([b'k'; 57], [b'v'; 113]);
    let fault = CallFault::Key(KeyLength { length: 57 });
    let long = CallFault::Value(ValueLength { length: 113 });
    table.get(&key) == Err(fault)
        && table.put(&key, &value) == Err(fault)
        && table.put(b"a", &value) == Err(long)
        && table.told() == 0
        && table.put(&key[..56], &value[..112]) == Ok(true)
}

#[test]
fn lengths_are_checked(rt: HostRuntime) -> Result<(), Fail> {
    let mut table = ShardStore::new(rt.alloc(), Config::default(), 2)?;
    expect!(&rt, checks_lengths(&mut table.session(&rt)?));
    let fault = CallFault::Key(KeyLength { length: 0 });
    let told = table
        .session(&rt)?
        .extend(&[(b"a", b"1"), (b"b", b"2"), (b"a", b"3"), (b"", b"4")]);
    let due = ExtendFault {
        done: 3,
        added: 2,
        fault,
    };
    expect_eq!(&rt, told, Err(due));
    Ok(())
}

#[test]
fn numbers_of_shards_are_refused(rt: HostRuntime) -> Result<(), Fail> {
    for shards in [0, 1_025] {
        let refused = ShardStore::new(rt.alloc(), Config::default(), shards).err();
        expect_eq!(&rt, refused, Some(CreateFault::Count));
    }
    for shards in [1, 1_024] {
        let table = ShardStore::new(rt.alloc(), Config::default(), shards)?;
        expect_eq!(&rt, table.shards(), shards);
    }
    Ok(())
}
