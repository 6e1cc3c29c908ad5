//! Snapshots and scans of each shard, which meet what the shards have.
ghost use Rattle.std.specs.Prelude.{◌<◌, length};
ghost use Rattle.lh_shards.specs.Hands.{AreOf};
ghost use Rattle.lh_shards.specs.Openings.{AreBrandsOf};

use super::calls::{insert_letters, shards_of};
use lh_addr::{Config, fnv1a};
use lh_expect::{expect, expect_eq};
use lh_file::{FileBrand, Mode, Traced};
use lh_page::{Key, Pair, Value};
use lh_shards::{Hands, Openings, ShardScan, Shards, empty_listings};
use std::alloc::Global;
use std::collections::BTreeMap;
use std::marker::Brand;
use std::process::Abort;
use std::sync::Wait;
use std::test::Fail;

/// Records by their keys.
type Records = BTreeMap<Key, Value>;

/// Adds the records of a shard to those that were met before. Each belongs there, and is met once.
fn meet<M: Mode, J: FileBrand, R: Abort>(
    rt: &R,
    shards: &Shards<M, J>,
    shard: u32,
    pairs: &[Pair],
    met: &mut Records,
) -> Result<(), Fail> {
    for pair in pairs {
        expect_eq!(rt; shards.shard_of(fnv1a(pair.key.bytes())), shard);
        expect_eq!(rt, met.insert(pair.key, pair.value)?, None);
    }
    Ok(())
}

/// Adds the records that a shard has at one moment. No more acts were made there than the shard tells then.
fn take<M: Mode, J: FileBrand, R: Abort + Wait>(
    rt: &R,
    shards: &Shards<M, J>,
    hands: &mut Hands,
    shard: u32,
    met: &mut Records,
) -> Result<(), Fail>
    requires of { AreOf shards.now hands.old }
    requires within { shard < length shards.now }
    ensures { AreOf shards.now hands.new }
{
    let snapshot = shards.snapshot(rt, hands, shard)?;
    expect_eq!(rt, snapshot.stamps(), shards.told(hands, shard));
    let listing = snapshot.into_known_listing();
    for bucket in 0..listing.buckets() {
        meet(rt, shards, shard, listing.pairs_of(bucket), met)?;
    }
    Ok(())
}

/// Adds the records that a scan of a shard meets, and answers how many buckets it visited.
fn scan<M: Mode, J: FileBrand, R: Abort + Wait>(
    rt: &R,
    alloc: Global,
    shards: &Shards<M, J>,
    hands: &mut Hands,
    shard: u32,
    met: &mut Records,
) -> Result<u64, Fail>
    requires of { AreOf shards.now hands.old }
    requires within { shard < length shards.now }
    ensures { AreOf shards.now hands.new }
{
    let mut scan = ShardScan::new(alloc, shards, shard)?;
    let mut visited = 0_u64;
    for _ in rt.forever() {
        let Some(copy) = scan.next(rt, shards, hands)? else {
            break;
        };
        meet(rt, shards, shard, &copy.pairs, met)?;
        visited = visited.saturating_add(1);
    }
    Ok(visited)
}

/// A snapshot and a scan of each shard meet as many records, all of them the same, and the scans visit each bucket.
fn look<M: Mode, J: FileBrand, R: Abort + Wait>(
    rt: &R,
    alloc: Global,
    shards: &Shards<M, J>,
    hands: &mut Hands,
    records: usize,
) -> Result<(), Fail>
    requires { AreOf shards.now hands.old }
    ensures { AreOf shards.now hands.new }
{
    let mut taken = BTreeMap::new(alloc);
    let mut scanned = BTreeMap::new(alloc);
    let mut visited = 0_u64;
    for shard in 0..shards.count() {
        take(rt, shards, hands, shard, &mut taken)?;
        visited = visited.saturating_add(scan(rt, alloc, shards, hands, shard, &mut scanned)?);
    }
    expect_eq!(rt; taken.len(), records);
    expect_eq!(rt; visited, shards.buckets(hands));
    expect!(rt, taken == scanned);
    Ok(())
}

#[test]
fn each_shard_can_be_looked_at(rt: HostRuntime) -> Result<(), Fail> {
    let alloc = rt.alloc();
    for count in [1, 3] {
        let (shards, mut hands) = shards_of(alloc, count)?;
        look(&rt, alloc, &shards, &mut hands, 0)?;
        insert_letters(&rt, &shards, &mut hands)?;
        look(&rt, alloc, &shards, &mut hands, 25)?;
    }
    Ok(())
}

/// Adds a record for each letter.
fn put_letters<J: FileBrand, R: Abort + Wait>(
    rt: &R,
    shards: &Shards<Traced, J>,
    hands: &mut Hands,
) -> Result<(), Fail>
    requires { AreOf shards.now hands.old }
    ensures { AreOf shards.now hands.new }
{
    for letter in b'a'..b'z' {
        let (key, value) = (Key::new(&[letter])?, Value::new(&[letter, letter])?);
        expect!(rt, shards.put(rt, hands, &key, &value)?);
    }
    Ok(())
}

/// Looks at traced shards with one record for each letter.
fn look_at_traced<J: FileBrand, R: Abort + Wait>(
    rt: &R,
    alloc: Global,
    openings: Openings<'_>,
) -> Result<(), Fail>
    requires { AreBrandsOf J.named J.tables openings }
{
    let (shards, mut hands): (Shards<Traced, J>, Hands) = openings.shards::<J>()?;
    put_letters(rt, &shards, &mut hands)?;
    look(rt, alloc, &shards, &mut hands, 25)
}

#[test]
fn each_traced_shard_can_be_looked_at(rt: HostRuntime) -> Result<(), Fail> {
    let alloc = rt.alloc();
    let listings = empty_listings(alloc, Config::new(1, 2, 100, 16)?, 3)?;
    look_at_traced::<Brand, _>(&rt, alloc, Openings::of(alloc, &listings, false)?)
}
