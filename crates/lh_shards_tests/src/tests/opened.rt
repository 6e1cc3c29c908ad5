//! Shards that are opened from listings, and listings that are refused.
ghost use Rattle.lh_shards.specs.Hands.{AreOf};

use super::calls::{insert_letters, shards_of};
use super::whole::{openings, records_in};
use lh_addr::{Config, fnv1a};
use lh_bucket::Listing;
use lh_expect::{expect, expect_eq};
use lh_file::Load;
use lh_page::{Key, Pair, Value};
use lh_shards::{ClosedShards, Hands, OpenFault, Shards, empty_listings, shard_of};
use std::alloc::Global;
use std::process::Abort;
use std::sync::Wait;
use std::test::Fail;

/// Why listings are not taken.
fn fault_of(alloc: Global, listings: &[Listing]) -> Result<OpenFault, Fail> {
    match Shards::open_from(alloc, listings, false) {
        Ok(_) => Err(Fail::new("opened")),
        Err(fault) => Ok(fault),
    }
}

/// The acts of closed shards are settled.
fn settle(alloc: Global, closed: &ClosedShards) -> Result<(), Fail> {
    let openings = openings(alloc, closed)?;
    let _ = closed.settle(alloc, &openings)?;
    Ok(())
}

/// The listings of closed shards with 25 letters, whose acts are settled.
fn settled_listings(
    rt: &impl Abort,
    alloc: Global,
    closed: ClosedShards,
) -> Result<Vec<Listing>, Fail> {
    settle(alloc, &closed)?;
    expect_eq!(rt, records_in(&closed), 25);
    Ok(closed.into_listings()?)
}

/// The listings of eight shards with 25 letters.
fn filled<R: Abort + Wait>(rt: &R, alloc: Global) -> Result<Vec<Listing>, Fail> {
    let (shards, mut hands) = shards_of(alloc, 8)?;
    insert_letters(rt, &shards, &mut hands)?;
    settled_listings(rt, alloc, shards.close(rt, hands)?)
}

/// One of those letters is removed.
fn remove_letter<R: Abort + Wait>(rt: &R, shards: &Shards, hands: &mut Hands) -> Result<(), Fail>
    requires { AreOf shards.now hands.old }
    ensures { AreOf shards.now hands.new }
{
    expect_eq!(rt, shards.count(), 8);
    let load = Load {
        opening: 25,
        inserted: 0,
        deleted: 0,
    };
    expect_eq!(rt; shards.load(hands), load);
    let (key, value) = (Key::new(b"q")?, Value::new(b"qq")?);
    expect_eq!(rt, shards.get(rt, hands, &key)?, Some(value));
    expect!(rt, shards.remove(rt, hands, &key)?);
    Ok(())
}

/// What was done since shards were opened from listings is settled.
fn expect_one_less(
    rt: &impl Abort,
    alloc: Global,
    listings: &[Listing],
    closed: &ClosedShards,
) -> Result<(), Fail> {
    expect_eq!(rt, listings.len(), closed.count() as usize);
    let histories = closed.settle(alloc, listings)?;
    expect_eq!(rt, histories.len(), 8);
    expect_eq!(rt, records_in(closed), 24);
    Ok(())
}

fn open_and_close<R: Abort + Wait>(
    rt: &R,
    alloc: Global,
    listings: &[Listing],
) -> Result<(), Fail> {
    let (shards, mut hands) = Shards::open_from(alloc, listings, true)?;
    remove_letter(rt, &shards, &mut hands)?;
    expect_one_less(rt, alloc, listings, &shards.close(rt, hands)?)
}

#[test]
fn settled_shards_are_opened_again(rt: HostRuntime) -> Result<(), Fail> {
    open_and_close(&rt, rt.alloc(), &filled(&rt, rt.alloc())?)
}

#[test]
fn numbers_of_listings_are_refused(rt: HostRuntime) -> Result<(), Fail> {
    let config = Config::new(1, 2, 100, 16)?;
    for count in [0, 1_025] {
        let listings = empty_listings(rt.alloc(), config, count)?;
        expect_eq!(&rt, fault_of(rt.alloc(), &listings)?, OpenFault::Count);
    }
    for count in [1, 1_024] {
        let listings = empty_listings(rt.alloc(), config, count)?;
        let (shards, _) = Shards::open_from(rt.alloc(), &listings, false)?;
        expect_eq!(rt; shards.count(), count);
    }
    Ok(())
}

#[test]
fn another_configuration_is_refused(rt: HostRuntime) -> Result<(), Fail> {
    let mut listings = empty_listings(rt.alloc(), Config::new(1, 2, 100, 16)?, 3)?;
    listings.push(Listing::empty(rt.alloc(), Config::new(1, 3, 100, 16)?)?)?;
    expect_eq!(
        &rt,
        fault_of(rt.alloc(), &listings)?,
        OpenFault::Config { shard: 3 }
    );
    Ok(())
}

/// A listing of one bucket with a record of each of these keys.
fn listed(alloc: Global, keys: &[&[u8]]) -> Result<Listing, Fail> {
    let mut pairs = Vec::new(alloc);
    for bytes in keys {
        let (key, value) = (Key::new(bytes)?, Value::empty());
        pairs.push(Pair { key, value })?;
    }
    let mut lists = Vec::new(alloc);
    lists.push(pairs)?;
    Ok(Listing::new(alloc, Config::new(1, 2, 100, 16)?, 1, lists)?)
}

/// Those of eight letters that belong to one of two shards.
fn letters_of<'a>(alloc: Global, shard: u32) -> Result<Vec<&'a [u8]>, Fail> {
    let letters: [&[u8]; 8] = [b"a", b"b", b"c", b"d", b"e", b"f", b"g", b"h"];
    let mut own = Vec::new(alloc);
    for letter in letters {
        if shard_of(fnv1a(letter), 2) == shard {
            own.push(letter)?;
        }
    }
    Ok(own)
}

/// Two listings whose first one has a record of the second shard behind those of its own, and the place of that.
pub(crate) fn listings_astray(alloc: Global) -> Result<(Vec<Listing>, usize), Fail> {
    let (mut first, mut second) = (letters_of(alloc, 0)?, letters_of(alloc, 1)?);
    let own = first.len();
    let Some(stray) = second.pop() else {
        return Err(Fail::new("no key of the second shard"));
    };
    first.push(stray)?;
    let mut listings = Vec::new(alloc);
    listings.push(listed(alloc, &first)?)?;
    listings.push(listed(alloc, &second)?)?;
    Ok((listings, own))
}

#[test]
fn a_record_of_another_shard_is_named(rt: HostRuntime) -> Result<(), Fail> {
    let (listings, place) = listings_astray(rt.alloc())?;
    expect!(&rt, place > 0);
    expect_eq!(
        &rt,
        fault_of(rt.alloc(), &listings)?,
        OpenFault::Misplaced {
            shard: 0,
            bucket: 0,
            place
        }
    );
    Ok(())
}
