//! Files whose records have less room than the longest key and value want: 32 bytes, or two.
ghost use Rattle.std.specs.Prelude.{◌≡◌, IfOk};
ghost use Rattle.lh_page.specs.Slots.{IsRoom};
ghost use Rattle.lh_file.specs.FileState.{IsOf};

use lh_addr::Config;
use lh_bucket::Listing;
use lh_expect::{expect, expect_eq};
use lh_file::{
    Acts, Closed, Compared, Hand, HashFile, NoGate, RoomFault, SizedFile, Unbranded, Untraced,
    settle,
};
use lh_page::{Key, Pair, Value};
use std::alloc::Global;
use std::sync::Wait;
use std::test::Fail;

/// A file whose records have this much room.
type Narrow<const ROOM: usize> = SizedFile<NoGate, Untraced, Unbranded, ROOM>;

/// A key and a value of this number, each with half of the room.
fn record(room: usize, number: u8) -> Option<(Key, Value)> {
    let bytes = [number; 16];
    let half = bytes.get(..room / 2)?;
    Some((Key::new(half).ok()?, Value::new(half).ok()?))
}

/// Makes the call of a round by the record of a number below 128: whether it was told what is due. None where the call is
/// refused.
fn call<const ROOM: usize, R: Wait>(
    rt: &R,
    file: &Narrow<ROOM>,
    hand: &mut Hand,
    number: u8,
    round: u8,
) -> Option<bool>
    requires { IsOf file.now.state hand.old }
    ensures { IsOf file.now.state hand.new }
{
    let (key, old) = record(ROOM, number)?;
    let (_, new) = record(ROOM, number ^ 0x80)?;
    if !Narrow::<ROOM>::fits(&key, &old) || !Narrow::<ROOM>::fits(&key, &new) {
        return None;
    }
    match round {
        0 => file.put(rt, hand, &key, &old).ok(),
        1 => Some(file.upsert(rt, hand, &key, &new).ok()? == false),
        2 => Some(file.get(rt, hand, &key).ok()? == Some(new)),
        3 => file.set(rt, hand, &key, &old).ok(),
        4 => {
            let compared = file.compare_and_set(rt, hand, &key, &old, &new).ok()?;
            Some(compared == Compared::Replaced)
        }
        5 => Some(file.get_or_put(rt, hand, &key, &old).ok()? == Some(new)),
        _ => file.remove(rt, hand, &key).ok(),
    }
}

/// How many of a hundred numbers' calls in a round were told what is due.
fn round<const ROOM: usize, R: Wait>(rt: &R, file: &Narrow<ROOM>, hand: &mut Hand, round: u8) -> u32
    requires { IsOf file.now.state hand.old }
    ensures { IsOf file.now.state hand.new }
{
    let mut due = 0;
    for number in 1..101 {
        if call(rt, file, hand, number, round) == Some(true) {
            due += 1;
        }
    }
    due
}

/// Makes the calls of all rounds, and answers how many were told what is due.
fn rounds<const ROOM: usize, R: Wait>(rt: &R, file: &Narrow<ROOM>, hand: &mut Hand) -> [u32; 7]
    requires { IsOf file.now.state hand.old }
    ensures { IsOf file.now.state hand.new }
{
    let mut due = [0; 7];
    for number in 0..7_u8 {
        due[number as usize] = round(rt, file, hand, number);
    }
    due
}

/// A bucket is split at each fourth record.
fn config() -> Result<Config, Fail> {
    Ok(Config::new(1, 4, 100, 65536)?)
}

/// A file of this room.
fn made<const ROOM: usize>(alloc: Global) -> Result<(Narrow<ROOM>, Hand), Fail>
    requires { IsRoom ROOM }
    ensures { IfOk result (λ made. IsOf made.0.state made.1) }
{
    Ok(Narrow::<ROOM>::create(alloc, config()?, true, NoGate)?)
}

/// How many acts a closed file is settled with.
fn settled(alloc: Global, closed: &Closed, acts: &Acts) -> Result<usize, Fail> {
    let opening = Listing::empty(alloc, config()?)?;
    Ok(settle(alloc, &opening, closed, acts)?.len())
}

/// All rounds in a new file: how many calls were told what is due, how many buckets there are, how many records are
/// left, and how many acts are settled.
fn served<const ROOM: usize, R: Wait>(
    rt: &R,
    alloc: Global,
) -> Result<([u32; 7], u32, u64, usize), Fail>
    requires { IsRoom ROOM }
{
    let (file, mut hand) = made::<ROOM>(alloc)?;
    let due = rounds(rt, &file, &mut hand);
    let (closed, acts) = file.close(rt, hand)?;
    let settled = settled(alloc, &closed, &acts)?;
    Ok((due, closed.buckets(), closed.records(), settled))
}

#[test]
fn records_of_32_bytes_are_served(rt: HostRuntime) -> Result<(), Fail> {
    let (due, buckets, records, settled) = served::<32, _>(&rt, rt.alloc())?;
    expect_eq!(rt; due, [100; 7]);
    expect!(&rt, buckets > 16);
    expect_eq!(rt; records, 0);
    expect_eq!(rt; settled, 700);
    Ok(())
}

#[test]
fn records_of_two_bytes_are_served(rt: HostRuntime) -> Result<(), Fail> {
    let (due, buckets, records, settled) = served::<2, _>(&rt, rt.alloc())?;
    expect_eq!(rt; due, [100; 7]);
    expect!(&rt, buckets > 16);
    expect_eq!(rt; records, 0);
    expect_eq!(rt; settled, 700);
    Ok(())
}

/// A listing of one bucket, whose records have these lengths of their keys and values.
fn listing_of(alloc: Global, lengths: &[(usize, usize)]) -> Result<Listing, Fail> {
    let mut pairs = Vec::new(alloc);
    for (place, &(key, value)) in lengths.iter().enumerate() {
        let bytes = [place.min(255) as u8; 112];
        pairs.push(Pair {
            key: Key::new(&bytes[..key.min(56)])?,
            value: Value::new(&bytes[..value.min(112)])?,
        })?;
    }
    let mut lists = Vec::new(alloc);
    lists.push(pairs)?;
    Ok(Listing::new(alloc, config()?, 1, lists)?)
}

#[test]
fn a_record_without_room_is_named(rt: HostRuntime) -> Result<(), Fail> {
    let listing = listing_of(rt.alloc(), &[(16, 16), (32, 0), (1, 32), (56, 112)])?;
    expect_eq!(
        &rt,
        Narrow::<32>::fit_listing(&listing).err(),
        Some(RoomFault {
            bucket: 0,
            place: 2
        })
    );
    expect_eq!(
        &rt,
        Narrow::<31>::fit_listing(&listing).err(),
        Some(RoomFault {
            bucket: 0,
            place: 0
        })
    );
    expect_eq!(
        &rt,
        Narrow::<167>::fit_listing(&listing).err(),
        Some(RoomFault {
            bucket: 0,
            place: 3
        })
    );
    expect!(&rt, HashFile::<NoGate>::fit_listing(&listing).is_ok());
    Ok(())
}
