//! Shards whose records have less room than the longest key and value want: 32 bytes.
ghost use Rattle.std.specs.Prelude.{IfOk, IfSome};
ghost use Rattle.lh_page.specs.Slots.{FitsRoom};
ghost use Rattle.lh_shards.specs.Hands.{AreOf};
ghost use Rattle.lh_shards.specs.Openings.{AreBrandsOf};
ghost use Rattle.lh_shards.specs.Rooms.{FitFiles};

use super::whole::{acts_in, records_in};
use lh_addr::Config;
use lh_bucket::Listing;
use lh_expect::{expect, expect_eq};
use lh_file::{Compared, FileBrand, Memory, RoomFault, Unbranded, Untraced};
use lh_page::{Key, Pair, Value};
use lh_shards::{Hands, Openings, ShardRoomFault, Shards, SizedShards, empty_listings};
use std::alloc::Global;
use std::marker::Brand;
use std::process::Abort;
use std::sync::Wait;
use std::test::Fail;

/// Shards whose records have 32 bytes.
pub(crate) type Narrow = SizedShards<Untraced, Unbranded, 32>;

/// A key and a value of this number, each with half of the room.
pub(crate) fn record(number: u8) -> Option<(Key, Value)>
    ensures { IfSome result (λ made. FitsRoom 32 made.0 made.1) }
{
    let key = Key::new(&[number; 16]).ok()?;
    let value = Value::new(&[number; 16]).ok()?;
    if Narrow::fits(&key, &value) {
        Some((key, value))
    } else {
        None
    }
}

/// Makes the call of a round by the record of a number below 128: whether it was told what is due. None where the call
/// is refused.
fn call<R: Wait>(rt: &R, shards: &Narrow, hands: &mut Hands, number: u8, round: u8) -> Option<bool>
    requires { AreOf shards.now hands.old }
    ensures { AreOf shards.now hands.new }
{
    let (key, old) = record(number)?;
    let (_, new) = record(number ^ 0x80)?;
    if !Narrow::fits(&key, &new) {
        return None;
    }
    match round {
        0 => shards.put(rt, hands, &key, &old).ok(),
        1 => Some(shards.upsert(rt, hands, &key, &new).ok()? == false),
        2 => Some(shards.get(rt, hands, &key).ok()? == Some(new)),
        3 => shards.set(rt, hands, &key, &old).ok(),
        4 => {
            let compared = shards.compare_and_set(rt, hands, &key, &old, &new).ok()?;
            Some(compared == Compared::Replaced)
        }
        5 => Some(shards.get_or_put(rt, hands, &key, &old).ok()? == Some(new)),
        6 => shards
            .update(rt, hands, &key, move |_bytes: &[u8]| old)
            .ok(),
        _ => Some(shards.take(rt, hands, &key).ok()? == Some(old)),
    }
}

/// How many of a hundred numbers' calls in a round were told what is due.
fn round<R: Wait>(rt: &R, shards: &Narrow, hands: &mut Hands, round: u8) -> u32
    requires { AreOf shards.now hands.old }
    ensures { AreOf shards.now hands.new }
{
    let mut due = 0;
    for number in 1..101 {
        if call(rt, shards, hands, number, round) == Some(true) {
            due += 1;
        }
    }
    due
}

/// Makes the calls of all rounds, each of which is told what is due. The shards have grown in the first.
fn make_rounds<R: Abort + Wait>(rt: &R, shards: &Narrow, hands: &mut Hands) -> Result<(), Fail>
    requires { AreOf shards.now hands.old }
    ensures { AreOf shards.now hands.new }
{
    for number in 0..8_u8 {
        expect_eq!(rt, round(rt, shards, hands, number), 100);
        expect!(rt, shards.buckets(hands) > 16);
    }
    Ok(())
}

/// A bucket of one shard of four is split at each fourth of its records.
fn config() -> Result<Config, Fail> {
    Ok(Config::new(1, 4, 100, 65536)?)
}

fn made(alloc: Global) -> Result<(Narrow, Hands), Fail>
    ensures { IfOk result (λ made. AreOf made.0 made.1) }
{
    Ok(Narrow::create(alloc, config()?, 4, true)?)
}

#[test]
fn records_of_32_bytes_are_served(rt: HostRuntime) -> Result<(), Fail> {
    let (shards, mut hands) = made(rt.alloc())?;
    make_rounds(&rt, &shards, &mut hands)?;
    let closed = shards.close(&rt, hands)?;
    let openings = empty_listings(rt.alloc(), config()?, closed.count())?;
    let histories = closed.settle(rt.alloc(), &openings)?;
    expect_eq!(&rt, acts_in(&histories), 800);
    expect_eq!(&rt, records_in(&closed), 0);
    Ok(())
}

/// A listing of one bucket with records by these letters, whose values have so many bytes.
fn listed(alloc: Global, records: &[(u8, usize)]) -> Result<Listing, Fail> {
    let mut pairs = Vec::new(alloc);
    for (letter, length) in records {
        let bytes = [b'.'; 112];
        let Some(text) = bytes.get(..*length) else {
            return Err(Fail::new("no value is so long"));
        };
        let (key, value) = (Key::new(&[*letter])?, Value::new(text)?);
        pairs.push(Pair { key, value })?;
    }
    let mut lists = Vec::new(alloc);
    lists.push(pairs)?;
    Ok(Listing::new(alloc, Config::new(1, 4, 100, 16)?, 1, lists)?)
}

/// Listings of these, with records by as many letters.
fn listings_of(alloc: Global, lengths: &[&[(u8, usize)]]) -> Result<Vec<Listing>, Fail> {
    let mut listings = Vec::new(alloc);
    for records in lengths {
        listings.push(listed(alloc, records)?)?;
    }
    Ok(listings)
}

/// Listings whose second and third one have records that are longer than 32 bytes.
fn long_listings(alloc: Global) -> Result<Vec<Listing>, Fail> {
    let first: [(u8, usize); 2] = [(b'a', 31), (b'b', 0)];
    let second: [(u8, usize); 3] = [(b'c', 31), (b'd', 32), (b'e', 112)];
    let third: [(u8, usize); 1] = [(b'f', 33)];
    listings_of(alloc, &[&first, &second, &third])
}

#[test]
fn the_first_record_without_room_is_named(rt: HostRuntime) -> Result<(), Fail> {
    let listings = long_listings(rt.alloc())?;
    let fault = RoomFault {
        bucket: 0,
        place: 1,
    };
    let due = ShardRoomFault { shard: 1, fault };
    expect_eq!(&rt, Narrow::fit_listings(&listings), Err(due));
    expect_eq!(
        &rt,
        Shards::<Untraced, Unbranded>::fit_listings(&listings),
        Ok(())
    );
    let text = format!(in rt.alloc(); "{due}")?;
    expect_eq!(
        &rt,
        text.as_str(),
        "shard 1: the record at place 1 of bucket 0 has no room"
    );
    Ok(())
}

/// One listing whose records have room.
fn short_listings(alloc: Global) -> Result<Vec<Listing>, Fail> {
    let short: [(u8, usize); 3] = [(b'a', 31), (b'b', 0), (b'c', 16)];
    listings_of(alloc, &[&short])
}

/// Shards that are opened from a listing have its records.
fn look_up<R: Abort + Wait>(rt: &R, shards: &Narrow, hands: &mut Hands) -> Result<(), Fail>
    requires { AreOf shards.now hands.old }
{
    let value = Value::new(&[b'.'; 31])?;
    expect_eq!(rt, shards.get(rt, hands, &Key::new(b"a")?)?, Some(value));
    expect_eq!(
        rt,
        shards.get(rt, hands, &Key::new(b"b")?)?,
        Some(Value::empty())
    );
    expect_eq!(rt, shards.get(rt, hands, &Key::new(b"d")?)?, None);
    Ok(())
}

fn open_and_look<R: Abort + Wait>(rt: &R, alloc: Global, listings: &[Listing]) -> Result<(), Fail> {
    Narrow::fit_listings(listings)?;
    let (shards, mut hands) = Narrow::open_from(alloc, listings, false)?;
    look_up(rt, &shards, &mut hands)
}

#[test]
fn listings_whose_records_have_room_are_opened(rt: HostRuntime) -> Result<(), Fail> {
    open_and_look(&rt, rt.alloc(), &short_listings(rt.alloc())?)
}

/// How many shards there are once traced ones of 32 bytes a record are open.
fn count_of<J: FileBrand>(openings: Openings<'_>) -> Result<u32, Memory>
    requires brands { AreBrandsOf J.named J.tables openings }
    requires fits { FitFiles 32 openings }
{
    let (shards, _) = openings.sized_shards::<J, 32>()?;
    Ok(shards.count())
}

/// The same of traced shards that are opened from listings.
fn opened_count(alloc: Global, listings: &[Listing]) -> Result<u32, Fail> {
    Narrow::fit_listings(listings)?;
    let openings = Openings::of(alloc, listings, true)?;
    Ok(count_of::<Brand>(openings)?)
}

#[test]
fn traced_shards_have_less_room_too(rt: HostRuntime) -> Result<(), Fail> {
    let listings = short_listings(rt.alloc())?;
    expect_eq!(&rt, opened_count(rt.alloc(), &listings)?, 1);
    Ok(())
}
