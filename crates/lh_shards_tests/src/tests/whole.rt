//! Shards as a whole: counted, divided, joined, closed and settled.
ghost use Rattle.std.specs.Prelude.{◌≡◌, length, IfOk};
ghost use Rattle.lh_shards.specs.Hands.{AreOf};

use super::calls::{insert_letters, shards_of};
use lh_addr::Config;
use lh_bucket::Listing;
use lh_expect::{expect, expect_eq};
use lh_file::{History, Load, SettleFault};
use lh_page::{Key, Value};
use lh_shards::{ClosedShards, Hands, ShardFault, Shards, empty_listings};
use std::alloc::Global;
use std::process::Abort;
use std::sync::Wait;
use std::test::Fail;

/// The listings that shards begin as.
pub(crate) fn openings(alloc: Global, closed: &ClosedShards) -> Result<Vec<Listing>, Fail>
    ensures { IfOk result (λ listings. length listings.items ≡ length closed.now) }
{
    let config = Config::new(1, 2, 100, 16)?;
    Ok(empty_listings(alloc, config, closed.count())?)
}

/// How many acts all histories have.
pub(crate) fn acts_in(histories: &[History]) -> u64 {
    let mut acts = 0_u64;
    for history in histories {
        acts = acts.saturating_add(history.len() as u64);
    }
    acts
}

/// How many records all closed shards have.
pub(crate) fn records_in(closed: &ClosedShards) -> u64 {
    let mut records = 0_u64;
    for shard in 0..closed.count() {
        records = records.saturating_add(closed.shard(shard).closed.records());
    }
    records
}

fn expect_sums<R: Abort + Wait>(rt: &R, shards: &Shards, hands: &mut Hands) -> Result<(), Fail>
    requires { AreOf shards.now hands.old }
{
    expect_eq!(rt, shards.buckets(hands), 8);
    let mut load = Load {
        opening: 0,
        inserted: 0,
        deleted: 0,
    };
    expect_eq!(rt; shards.load(hands), load);
    insert_letters(rt, shards, hands)?;
    expect!(rt, shards.buckets(hands) > 8);
    let key = Key::new(b"c")?;
    expect!(rt, shards.remove(rt, hands, &key)?);
    load.inserted = 25;
    load.deleted = 1;
    expect_eq!(rt; shards.load(hands), load);
    Ok(())
}

#[test]
fn sums_are_of_all_shards(rt: HostRuntime) -> Result<(), Fail> {
    let (shards, mut hands) = shards_of(rt.alloc(), 8)?;
    expect_sums(&rt, &shards, &mut hands)
}

/// Letters are inserted by hands that are joined into the first ones.
fn joined_after_letters<R: Abort + Wait>(
    rt: &R,
    shards: &Shards,
    mut first: Hands,
) -> Result<Hands, Fail>
    requires { AreOf shards.now first }
    ensures { IfOk result (AreOf shards.now) }
{
    let key = Key::new(b"a")?;
    let mut second = shards.split_hands(&mut first, 1_000)?;
    insert_letters(rt, shards, &mut second)?;
    expect!(rt, shards.get(rt, &mut first, &key)?.is_some());
    match shards.join_hands(first, second) {
        Ok(hands) => Ok(hands),
        Err(_) => Err(Fail::new("not joined")),
    }
}

fn expect_whole(
    rt: &impl Abort,
    alloc: Global,
    count: u32,
    closed: &ClosedShards,
) -> Result<(), Fail> {
    expect_eq!(rt; closed.count(), count);
    expect_eq!(rt, records_in(closed), 25);
    let openings = openings(alloc, closed)?;
    let histories = closed.settle(alloc, &openings)?;
    expect_eq!(rt, histories.len(), count as usize);
    expect_eq!(rt, acts_in(&histories), 76);
    Ok(())
}

/// Letters are inserted into so many shards by hands that are joined into the first ones, and all is settled.
fn check_whole<R: Abort + Wait>(rt: &R, alloc: Global, count: u32) -> Result<(), Fail> {
    let (shards, first) = shards_of(alloc, count)?;
    let hands = joined_after_letters(rt, &shards, first)?;
    expect_whole(rt, alloc, count, &shards.close(rt, hands)?)
}

#[test]
fn one_shard_is_settled(rt: HostRuntime) -> Result<(), Fail> {
    check_whole(&rt, rt.alloc(), 1)
}

#[test]
fn eight_shards_are_settled(rt: HostRuntime) -> Result<(), Fail> {
    check_whole(&rt, rt.alloc(), 8)
}

#[test]
fn the_most_shards_are_settled(rt: HostRuntime) -> Result<(), Fail> {
    check_whole(&rt, rt.alloc(), 1_024)
}

/// Inserts a key by a hand that is dropped.
fn put_and_drop<R: Abort + Wait>(
    rt: &R,
    shards: &Shards,
    first: &mut Hands,
    key: &Key,
) -> Result<(), Fail>
    requires { AreOf shards.now first.old }
    ensures { AreOf shards.now first.new }
{
    let value = Value::new(b"value")?;
    let mut second = shards.split_hands(first, 1_000)?;
    expect!(rt, shards.put(rt, &mut second, key, &value)?);
    Ok(())
}

/// The first act of a shard is missing.
fn expect_missing(
    rt: &impl Abort,
    alloc: Global,
    closed: &ClosedShards,
    shard: u32,
) -> Result<(), Fail> {
    let openings = openings(alloc, closed)?;
    match closed.settle(alloc, &openings) {
        Err(fault) => expect_eq!(rt;
            fault,
            ShardFault {
                shard,
                fault: SettleFault::MissingStamp(0)
            }
        ),
        Ok(_) => return Err(Fail::new("settled")),
    }
    Ok(())
}

/// A hand that is dropped is missed in the shard of the key that it has used, and in no other.
#[test]
fn a_dropped_hand_is_missed_in_its_shard(rt: HostRuntime) -> Result<(), Fail> {
    let key = Key::new(b"key")?;
    let (shards, mut first) = shards_of(rt.alloc(), 8)?;
    put_and_drop(&rt, &shards, &mut first, &key)?;
    let shard = shards.shard_of(lh_addr::fnv1a(key.bytes()));
    expect!(&rt, shard > 0);
    expect_missing(&rt, rt.alloc(), &shards.close(&rt, first)?, shard)
}
