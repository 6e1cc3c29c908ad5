//! Memory that is refused: run with each request for it refused in turn, one in each run. Each call is made once more
//! where it was refused, and nothing is lost then.
ghost use Rattle.std.specs.Prelude.{◌≡◌, ◌<◌, length, IfOk, IfSome};
ghost use Rattle.lh_shards.specs.Hands.{AreOf};
ghost use Rattle.lh_shards.specs.Openings.{AreBrandsOf};
ghost use Rattle.lh_shards.specs.Snapshots.{IsScanOf};

mod narrow;

use super::whole::{acts_in, records_in};
use lh_addr::Config;
use lh_bucket::Listing;
use lh_expect::{expect, expect_eq};
use lh_file::{BucketCopy, FileBrand, FileFault, History, Memory, SettleFault};
use lh_page::{Key, Value};
use lh_shards::{
    ClosedShards, CreateFault, Hands, JoinShardsFault, OpenFault, Openings, ShardFault, ShardScan,
    Shards, SplitFault, empty_listings,
};
use std::alloc::Global;
use std::marker::Brand;
use std::process::Abort;
use std::sync::Wait;
use std::test::Fail;

/// Four shards that record.
fn made_again(alloc: Global, config: Config) -> Result<(Shards, Hands), CreateFault>
    ensures { IfOk result (λ made. AreOf made.0 made.1) }
{
    match Shards::create(alloc, config, 4, true) {
        Err(CreateFault::Memory) => Shards::create(alloc, config, 4, true),
        made => made,
    }
}

/// Hands that may make 100 calls in each shard.
fn divided_again(shards: &Shards, hands: &mut Hands) -> Result<Hands, SplitFault>
    requires { AreOf shards.now hands.old }
    ensures old { AreOf shards.now hands.new }
    ensures new { IfOk result (AreOf shards.now) }
{
    match shards.split_hands(hands, 100) {
        Err(SplitFault::Memory) => shards.split_hands(hands, 100),
        given => given,
    }
}

/// Adds a record by one of four calls: whether it is new.
fn added<R: Wait>(
    rt: &R,
    shards: &Shards,
    hands: &mut Hands,
    key: &Key,
    value: &Value,
) -> Result<bool, FileFault>
    requires { AreOf shards.now hands.old }
    ensures { AreOf shards.now hands.new }
{
    match key.bytes() {
        b"a" | b"e" | b"i" => shards.upsert(rt, hands, key, value),
        b"b" | b"f" | b"j" => shards
            .get_or_put(rt, hands, key, value)
            .map(|there| there.is_none()),
        b"c" | b"g" | b"k" => shards.merge(rt, hands, key, value, |_bytes: &[u8]| Value::empty()),
        _ => shards.put(rt, hands, key, value),
    }
}

/// Inserts a letter: whether all went as it has to. Where the insert was refused, the other hands don't find the
/// letter.
fn put_again<R: Wait>(
    rt: &R,
    shards: &Shards,
    hands: &mut Hands,
    other: &mut Hands,
    letter: u8,
) -> bool
    requires hands { AreOf shards.now hands.old }
    requires other { AreOf shards.now other.old }
    ensures hands { AreOf shards.now hands.new }
    ensures other { AreOf shards.now other.new }
{
    let (Ok(key), Ok(value)) = (Key::new(&[letter]), Value::new(&[letter])) else {
        return false;
    };
    let mut put = added(rt, shards, hands, &key, &value);
    if put == Err(FileFault::Memory) {
        if shards.get(rt, other, &key) != Ok(None) {
            return false;
        }
        put = added(rt, shards, hands, &key, &value);
    }
    put == Ok(true)
}

/// Two callers insert twelve letters each: whether all went as it has to.
fn fill_again<R: Wait>(rt: &R, shards: &Shards, first: &mut Hands, second: &mut Hands) -> bool
    requires first { AreOf shards.now first.old }
    requires second { AreOf shards.now second.old }
    ensures first { AreOf shards.now first.new }
    ensures second { AreOf shards.now second.new }
{
    for letter in b'a'..b'm' {
        if !put_again(rt, shards, first, second, letter)
            || !put_again(rt, shards, second, first, letter - 32)
        {
            return false;
        }
    }
    true
}

/// Joins hands. Where that was refused, a shard is named, and both come back.
fn joined_again(shards: &Shards, first: Hands, second: Hands) -> Option<Hands>
    requires first { AreOf shards.now first }
    requires second { AreOf shards.now second }
    ensures { IfSome result (AreOf shards.now) }
{
    let JoinShardsFault {
        shard,
        first,
        second,
    } = match shards.join_hands(first, second) {
        Ok(hands) => return Some(hands),
        Err(fault) => fault,
    };
    if shard >= shards.count() {
        return None;
    }
    shards.join_hands(first, second).ok()
}

/// Four shards are filled, by hands that are joined, and closed. None where a call went wrong.
fn filled_and_closed<R: Wait>(
    rt: &R,
    alloc: Global,
    config: Config,
) -> Option<Result<ClosedShards, Memory>> {
    let (shards, mut first) = made_again(alloc, config).ok()?;
    let mut second = divided_again(&shards, &mut first).ok()?;
    if !fill_again(rt, &shards, &mut first, &mut second) {
        return None;
    }
    let mut hands = joined_again(&shards, first, second)?;
    if shards.load(&mut hands).inserted != 24 {
        return None;
    }
    Some(shards.close(rt, hands))
}

/// The listings that shards begin as.
fn openings_again(
    alloc: Global,
    config: Config,
    closed: &ClosedShards,
) -> Result<Vec<Listing>, Memory>
    ensures { IfOk result (λ listings. length listings.items ≡ length closed.now) }
{
    match empty_listings(alloc, config, closed.count()) {
        Err(Memory) => empty_listings(alloc, config, closed.count()),
        listings => listings,
    }
}

/// Whether a settling was refused for memory.
fn is_refused(settled: &Result<Vec<History>, ShardFault>) -> bool {
    match settled {
        Ok(_) => false,
        Err(at) => at.fault == SettleFault::Memory,
    }
}

/// The histories of closed shards.
fn settled_again(
    alloc: Global,
    openings: &[Listing],
    closed: &ClosedShards,
) -> Result<Vec<History>, ShardFault>
    requires { length openings.now ≡ length closed.now }
{
    let settled = closed.settle(alloc, openings);
    if is_refused(&settled) {
        closed.settle(alloc, openings)
    } else {
        settled
    }
}

/// All that was done in closed shards is settled.
fn expect_settled(
    rt: &impl Abort,
    alloc: Global,
    config: Config,
    closed: &ClosedShards,
) -> Result<(), Fail> {
    expect_eq!(rt, records_in(closed), 24);
    let openings = openings_again(alloc, config, closed)?;
    let histories = settled_again(alloc, &openings, closed)?;
    expect!(rt, acts_in(&histories) == 24 || acts_in(&histories) == 25);
    Ok(())
}

#[test]
fn refused_growth_loses_nothing(rt: HostRuntime) -> Result<(), Fail> {
    let config = Config::new(1, 2, 100, 16)?;
    let closed = filled_and_closed(&rt, rt.alloc(), config).ok_or("a call went wrong")?;
    // A refused close has taken shards and hands along: others are used then.
    let closed = match closed {
        Ok(closed) => closed,
        Err(Memory) => filled_and_closed(&rt, rt.alloc(), config).ok_or("a call went wrong")??,
    };
    expect_settled(&rt, rt.alloc(), config, &closed)
}

/// How many records a snapshot of a shard has.
fn taken_again<R: Wait>(
    rt: &R,
    shards: &Shards,
    hands: &mut Hands,
    shard: u32,
) -> Result<u64, FileFault>
    requires of { AreOf shards.now hands.old }
    requires within { shard < length shards.now }
    ensures { AreOf shards.now hands.new }
{
    let snapshot = match shards.snapshot(rt, hands, shard) {
        Err(FileFault::Memory) => shards.snapshot(rt, hands, shard),
        taken => taken,
    };
    Ok(snapshot?.records())
}

/// A scan of a shard.
fn begun_again(alloc: Global, shards: &Shards, shard: u32) -> Result<ShardScan, Memory>
    requires { shard < length shards.now }
    ensures { IfOk result (IsScanOf shards.now) }
{
    match ShardScan::new(alloc, shards, shard) {
        Err(Memory) => ShardScan::new(alloc, shards, shard),
        scan => scan,
    }
}

/// A copy of the next bucket of a scan.
fn next_again<R: Wait>(
    rt: &R,
    shards: &Shards,
    hands: &mut Hands,
    scan: &mut ShardScan,
) -> Result<Option<BucketCopy>, FileFault>
    requires scan { IsScanOf shards.now scan.old }
    requires of { AreOf shards.now hands.old }
    ensures scan { IsScanOf shards.now scan.new }
    ensures of { AreOf shards.now hands.new }
{
    match scan.next(rt, shards, hands) {
        Err(FileFault::Memory) => scan.next(rt, shards, hands),
        next => next,
    }
}

/// How many records a scan of a shard meets.
fn scanned_again<R: Wait>(
    rt: &R,
    alloc: Global,
    shards: &Shards,
    hands: &mut Hands,
    shard: u32,
) -> Result<u64, FileFault>
    requires of { AreOf shards.now hands.old }
    requires within { shard < length shards.now }
    ensures { AreOf shards.now hands.new }
{
    let mut scan = begun_again(alloc, shards, shard)?;
    let mut met = 0_u64;
    for _ in rt.forever() {
        let Some(copy) = next_again(rt, shards, hands, &mut scan)? else {
            break;
        };
        met = met.saturating_add(copy.pairs.len() as u64);
    }
    Ok(met)
}

/// How many records snapshots of all shards have, and how many scans of them meet.
fn looked_again<R: Wait>(
    rt: &R,
    alloc: Global,
    shards: &Shards,
    hands: &mut Hands,
) -> Result<(u64, u64), FileFault>
    requires { AreOf shards.now hands.old }
    ensures { AreOf shards.now hands.new }
{
    let (mut taken, mut met) = (0_u64, 0_u64);
    for shard in 0..shards.count() {
        taken = taken.saturating_add(taken_again(rt, shards, hands, shard)?);
        met = met.saturating_add(scanned_again(rt, alloc, shards, hands, shard)?);
    }
    Ok((taken, met))
}

/// Two callers fill the shards, and the first looks.
fn fill_and_look<R: Wait + Abort>(
    rt: &R,
    alloc: Global,
    shards: &Shards,
    first: &mut Hands,
) -> Result<(), Fail>
    requires { AreOf shards.now first.old }
{
    let mut second = divided_again(shards, first)?;
    expect!(rt, fill_again(rt, shards, first, &mut second));
    expect_eq!(rt, looked_again(rt, alloc, shards, first)?, (24, 24));
    Ok(())
}

/// A refused look is told as such, and the same look is taken as well after it.
#[test]
fn memory_refused_in_a_look_loses_nothing(rt: HostRuntime) -> Result<(), Fail> {
    let config = Config::new(1, 2, 100, 16)?;
    let (shards, mut first) = made_again(rt.alloc(), config)?;
    fill_and_look(&rt, rt.alloc(), &shards, &mut first)
}

/// How many shards there are once traced ones are open.
fn count_of<J: FileBrand>(openings: Openings<'_>) -> Result<u32, Memory>
    requires { AreBrandsOf J.named J.tables openings }
{
    let (shards, _) = openings.shards::<J>()?;
    Ok(shards.count())
}

/// The same of traced shards that are opened from listings.
fn opened_count(alloc: Global, listings: &[Listing]) -> Result<u32, OpenFault> {
    let openings = Openings::of(alloc, listings, true)?;
    Ok(count_of::<Brand>(openings)?)
}

/// A refused opening is told as such, and the listings are opened as well after it.
#[test]
fn memory_refused_while_traced_shards_open(rt: HostRuntime) -> Result<(), Fail> {
    let config = Config::new(1, 2, 100, 16)?;
    let listings = match empty_listings(rt.alloc(), config, 4) {
        Ok(listings) => listings,
        Err(Memory) => empty_listings(rt.alloc(), config, 4)?,
    };
    let count = match opened_count(rt.alloc(), &listings) {
        Ok(count) => count,
        Err(fault) => {
            expect_eq!(rt; fault, OpenFault::Memory);
            opened_count(rt.alloc(), &listings)?
        }
    };
    expect_eq!(rt; count, 4);
    Ok(())
}
