//! Files that are opened from a listing.
ghost use Rattle.lh_file.specs.FileState.{IsOf};

use super::turns::{Ended, Turn, play_in_turn};
use lh_addr::Config;
use lh_bucket::Listing;
use lh_expect::{expect, expect_eq};
use lh_file::{Hand, HashFile, Load, NoGate, Right};
use lh_page::{Key, Pair, Value};
use lh_stage::{Task, Told};
use std::alloc::Global;
use std::process::Abort;
use std::sync::Wait;
use std::test::Fail;

/// A record of each letter, in their order, with a 1 as its value.
fn records(alloc: Global, letters: &[u8]) -> Result<Vec<Pair>, Fail> {
    let mut pairs = Vec::new(alloc);
    for &letter in letters {
        pairs.push(Pair {
            key: Key::new(&[letter])?,
            value: Value::new(b"1")?,
        })?;
    }
    Ok(pairs)
}

/// Lists of the records of these letters.
fn lists_of(alloc: Global, buckets: &[&[u8]]) -> Result<Vec<Vec<Pair>>, Fail> {
    let mut lists = Vec::new(alloc);
    for letters in buckets {
        lists.push(records(alloc, letters)?)?;
    }
    Ok(lists)
}

/// Five records in three buckets.
fn growth_example(alloc: Global) -> Result<Listing, Fail> {
    let config = Config::new(1, 2, 100, 65536)?;
    Ok(Listing::new(alloc, config, 3, lists_of(alloc, &[b"ae", b"bd", b"c"])?)?)
}

/// Whether a bucket of a listing has just these letters, in their order.
fn has_letters(listing: &Listing, bucket: u32, letters: &[u8]) -> bool {
    if bucket >= listing.buckets() || listing.len_of(bucket) != letters.len() {
        return false;
    }
    for (place, letter) in letters.iter().enumerate() {
        if listing.pair_at(bucket, place).key.bytes() != [*letter].as_slice() {
            return false;
        }
    }
    true
}

/// The second insert splits a bucket.
const TWO_INSERTS: [Turn; 4] = [
    (1, Task::Insert(b'f'), Told::Inserted),
    (1, Task::Buckets, Told::Number(3)),
    (2, Task::Insert(b'g'), Told::Inserted),
    (1, Task::Buckets, Told::Number(4)),
];

/// Two hands use the opened file.
fn used<R: Wait>(rt: &R, alloc: Global) -> Result<Ended, Fail> {
    let listing = growth_example(alloc)?;
    Ok(play_in_turn(rt, alloc, &listing, &TWO_INSERTS).ok_or("no memory")?)
}

#[test]
fn two_hands_use_an_opened_file(rt: HostRuntime) -> Result<(), Fail> {
    let ended = used(&rt, rt.alloc())?;
    expect_eq!(rt; ended.wrong, None);
    expect_eq!(rt; ended.settled, Ok(2));
    expect_eq!(&rt, ended.closed.records(), 7);
    Ok(())
}

#[test]
fn an_opened_file_is_listed(rt: HostRuntime) -> Result<(), Fail> {
    let after = used(&rt, rt.alloc())?.closed.listing()?;
    expect_eq!(&rt, after.buckets(), 4);
    expect!(
        &rt,
        has_letters(&after, 0, b"ae") && has_letters(&after, 1, b"bf")
    );
    expect!(
        &rt,
        has_letters(&after, 2, b"cg") && has_letters(&after, 3, b"d")
    );
    Ok(())
}

/// The records of seven letters in five buckets of a file that began with three.
fn seven_letters(alloc: Global) -> Result<Listing, Fail> {
    let config = Config::new(3, 14, 100, 65536)?;
    let lists = lists_of(alloc, &[b"ce", b"bd", b"g", b"f", b"a"])?;
    Ok(Listing::new(alloc, config, 5, lists)?)
}

/// A file has the five buckets and the seven records that it was opened with, and is split next where it was to be.
fn expect_opened(rt: &impl Abort, file: &HashFile<NoGate>, hand: &mut Hand)
    requires { IsOf file.now.state hand.old }
{
    expect_eq!(rt, file.buckets(hand), 5);
    expect_eq!(rt, (hand.left(), hand.has_right()), (1 << 63, false));
    let load = Load {
        opening: 7,
        inserted: 0,
        deleted: 0,
    };
    expect_eq!(rt; file.load(hand), load);
    expect_eq!(
        rt,
        file.try_split_right(hand),
        Right::Got { old: 2, new: 5 }
    );
}

#[test]
fn a_file_opens_as_it_was(rt: HostRuntime) -> Result<(), Fail> {
    let listing = seven_letters(rt.alloc())?;
    let (file, mut hand) = HashFile::open_from(rt.alloc(), &listing, false, NoGate)?;
    expect_opened(&rt, &file, &mut hand);
    Ok(())
}

/// This many records in the one bucket of a file, on pages of two.
fn long_chain(alloc: Global, count: u16) -> Result<Listing, Fail> {
    let mut pairs = Vec::new(alloc);
    let value = Value::new(b"1")?;
    for number in 0..count {
        let key = Key::new(&number.to_be_bytes())?;
        pairs.push(Pair { key, value })?;
    }
    let mut lists = Vec::new(alloc);
    lists.push(pairs)?;
    Ok(Listing::new(alloc, Config::new(1, 2, 100, 1)?, 1, lists)?)
}

/// The listing of a file that is opened from one and closed at once.
fn reopened<R: Wait>(rt: &R, alloc: Global, listing: &Listing) -> Result<Listing, Fail> {
    let ended = play_in_turn(rt, alloc, listing, &[]).ok_or("no memory")?;
    Ok(ended.closed.into_listing()?)
}

#[test]
fn a_file_is_opened_with_a_long_chain(rt: HostRuntime) -> Result<(), Fail> {
    let listing = long_chain(rt.alloc(), 500)?;
    let after = reopened(&rt, rt.alloc(), &listing)?;
    expect_eq!(&rt, (after.buckets(), after.len()), (1, 500));
    Ok(())
}

#[test]
fn a_file_may_begin_with_256_buckets(rt: HostRuntime) -> Result<(), Fail> {
    let config = Config::new(256, 24, 10, 65536)?;
    let listing = Listing::empty(rt.alloc(), config)?;
    let after = reopened(&rt, rt.alloc(), &listing)?;
    expect_eq!(
        &rt,
        (after.config(), after.buckets(), after.len()),
        (config, 256, 0)
    );
    Ok(())
}

/// A file of as many buckets as one may have, all of which are at level 16.
fn greatest(alloc: Global) -> Result<Listing, Fail> {
    let mut lists = Vec::with_capacity(alloc, 65_536)?;
    for _ in 0..65_536 {
        lists.push(Vec::new(alloc))?;
    }
    Ok(Listing::new(alloc, Config::new(1, 1, 100, 65_536)?, 65_536, lists)?)
}

const IN_THE_GREATEST: [Turn; 5] = [
    (1, Task::Insert(b'a'), Told::Inserted),
    (2, Task::Search(b'a'), Told::Found(b'1')),
    (1, Task::Replace(b'a'), Told::Replaced),
    (2, Task::Delete(b'a'), Told::Deleted),
    (1, Task::TryRight, Told::Right(Right::Full)),
];

#[test]
fn a_file_of_the_greatest_size_is_served(rt: HostRuntime) -> Result<(), Fail> {
    let listing = greatest(rt.alloc())?;
    let ended = play_in_turn(&rt, rt.alloc(), &listing, &IN_THE_GREATEST).ok_or("no memory")?;
    expect_eq!(rt; ended.wrong, None);
    expect_eq!(rt; ended.settled, Ok(4));
    expect_eq!(
        &rt,
        (ended.closed.buckets(), ended.closed.records()),
        (65_536, 0)
    );
    Ok(())
}
