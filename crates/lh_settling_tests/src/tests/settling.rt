//! Settling by hand-made files: the records of what bucket, and which acts.

use lh_addr::Config;
use lh_bucket::{Call, Listing, Reply};
use lh_expect::{expect, expect_eq};
use lh_file::{ActLine, Acts, Closed, History, SettleFault, settle};
use lh_page::{Key, Pair, Value};
use std::alloc::Global;
use std::test::Fail;

pub(crate) fn key(byte: u8) -> Result<Key, Fail> {
    Ok(Key::new(&[byte])?)
}

pub(crate) fn value(byte: u8) -> Result<Value, Fail> {
    Ok(Value::new(&[byte])?)
}

/// Lists of records, each given by the byte of its key and that of its value.
fn lists_of(alloc: Global, lists: &[&[(u8, u8)]]) -> Result<Vec<Vec<Pair>>, Fail> {
    let mut made = Vec::new(alloc);
    for list in lists {
        let mut pairs = Vec::new(alloc);
        for entry in *list {
            pairs.push(Pair {
                key: key(entry.0)?,
                value: value(entry.1)?,
            })?;
        }
        made.push(pairs)?;
    }
    Ok(made)
}

/// A file of 1 to 4 buckets that began with one.
pub(crate) fn config() -> Result<Config, Fail> {
    Ok(Config::new(1, 2, 100, 4).ok().ok_or("config")?)
}

pub(crate) fn closed(
    alloc: Global,
    root: u64,
    stamps: u64,
    lists: &[&[(u8, u8)]],
) -> Result<Closed, Fail> {
    let config = config()?;
    let lists = lists_of(alloc, lists)?;
    if root / 2 < config.initial() as u64
        || root / 2 > config.max() as u64
        || lists.len() > config.max() as usize
    {
        return Err(Fail::from("no closed file"));
    }
    Ok(Closed::new(config, root, stamps, lists))
}

fn opening(alloc: Global, lists: &[&[(u8, u8)]]) -> Result<Listing, Fail> {
    Ok(Listing::new(
        alloc,
        config()?,
        lists.len().min(4) as u32,
        lists_of(alloc, lists)?,
    )?)
}

pub(crate) fn act(stamp: u64, call: Call, reply: Reply) -> ActLine {
    ActLine { stamp, call, reply }
}

/// The inserts of the keys a, b and so on, each with itself as its value.
fn inserts(alloc: Global, stamps: &[u64]) -> Result<Acts, Fail> {
    let mut lines = Vec::new(alloc);
    for stamp in stamps {
        let byte = b'a' + (*stamp % 26) as u8;
        lines.push(act(
            *stamp,
            Call::Insert(key(byte)?, value(byte)?),
            Reply::Inserted,
        ))?;
    }
    Ok(Acts::new(lines))
}

/// How many acts of a file that began without records are settled, or why they aren't.
pub(crate) fn settled(
    alloc: Global,
    closed: &Closed,
    acts: &Acts,
) -> Result<Result<usize, SettleFault>, Fail> {
    let opening = opening(alloc, &[&[]])?;
    Ok(settle(alloc, &opening, closed, acts).map(|history| history.len()))
}

/// The first fault of a closed file with these root and stamp words and records, and inserts with these
/// stamps.
pub(crate) fn fault_of(
    alloc: Global,
    root: u64,
    drawn: u64,
    lists: &[&[(u8, u8)]],
    stamps: &[u64],
) -> Result<Option<SettleFault>, Fail> {
    let closed = closed(alloc, root, drawn, lists)?;
    Ok(settled(alloc, &closed, &inserts(alloc, stamps)?)?.err())
}

/// The history of inserts with these stamps, in a closed file that is settled.
pub(crate) fn history_of(
    alloc: Global,
    root: u64,
    lists: &[&[(u8, u8)]],
    stamps: &[u64],
) -> Result<History, Fail> {
    let closed = closed(alloc, root, stamps.len() as u64, lists)?;
    let acts = inserts(alloc, stamps)?;
    history_by(alloc, &closed, &acts)
}

/// The history of the acts of a file that began without records and is settled.
fn history_by(alloc: Global, closed: &Closed, acts: &Acts) -> Result<History, Fail> {
    let opening = opening(alloc, &[&[]])?;
    Ok(
        settle(alloc, &opening, closed, acts)
            .ok()
            .ok_or("not settled")?,
    )
}

pub(crate) const AE: &[(u8, u8)] = &[(b'a', b'a'), (b'e', b'e')];

pub(crate) const BD: &[(u8, u8)] = &[(b'b', b'b'), (b'd', b'd')];

pub(crate) const C: &[(u8, u8)] = &[(b'c', b'c')];

/// Whether an act is the insert that has this stamp.
fn is_insert(line: &ActLine, stamp: usize) -> Result<bool, Fail> {
    let byte = b'a' + (stamp % 26) as u8;
    let call = Call::Insert(key(byte)?, value(byte)?);
    Ok(*line == act(stamp as u64, call, Reply::Inserted))
}

#[test]
fn acts_are_settled_in_the_order_of_their_stamps(rt: HostRuntime) -> Result<(), Fail> {
    let history = history_of(rt.alloc(), 6, &[AE, BD, C, &[]], &[3, 0, 4, 2, 1])?;
    expect_eq!(&rt, history.len(), 5);
    for stamp in 0..history.len() {
        expect!(&rt, is_insert(&history.at(stamp), stamp)?);
    }
    Ok(())
}

#[test]
fn acts_stand_as_they_were_kept(rt: HostRuntime) -> Result<(), Fail> {
    let acts = inserts(rt.alloc(), &[3, 0, 4, 2, 1])?;
    expect_eq!(&rt, acts.len(), 5);
    expect!(&rt, acts.len() > 0 && is_insert(&acts.at(0), 3)?);
    Ok(())
}

const ORDERS: [[u64; 4]; 24] = [
    [0, 1, 2, 3],
    [0, 1, 3, 2],
    [0, 2, 1, 3],
    [0, 2, 3, 1],
    [0, 3, 1, 2],
    [0, 3, 2, 1],
    [1, 0, 2, 3],
    [1, 0, 3, 2],
    [1, 2, 0, 3],
    [1, 2, 3, 0],
    [1, 3, 0, 2],
    [1, 3, 2, 0],
    [2, 0, 1, 3],
    [2, 0, 3, 1],
    [2, 1, 0, 3],
    [2, 1, 3, 0],
    [2, 3, 0, 1],
    [2, 3, 1, 0],
    [3, 0, 1, 2],
    [3, 0, 2, 1],
    [3, 1, 0, 2],
    [3, 1, 2, 0],
    [3, 2, 0, 1],
    [3, 2, 1, 0],
];

#[test]
fn every_order_of_acts_is_settled(rt: HostRuntime) -> Result<(), Fail> {
    for order in &ORDERS {
        let history = history_of(rt.alloc(), 6, &[&[(b'a', b'a')], BD, C], order)?;
        expect_eq!(&rt, history.len(), 4);
    }
    Ok(())
}

/// Acts of every kind on a file that was opened with a record.
fn mixed(alloc: Global) -> Result<Acts, Fail> {
    let (a, b) = (key(b'a')?, key(b'b')?);
    let lines = [
        act(4, Call::Search(b), Reply::Absent),
        act(2, Call::Insert(a, value(b'2')?), Reply::Inserted),
        act(0, Call::Search(a), Reply::Found(value(b'1')?)),
        act(3, Call::Insert(a, value(b'3')?), Reply::Exists),
        act(5, Call::Delete(b), Reply::Absent),
        act(6, Call::Replace(a, value(b'4')?), Reply::Replaced),
        act(7, Call::Replace(b, value(b'5')?), Reply::Absent),
        act(1, Call::Delete(a), Reply::Deleted),
    ];
    Ok(Acts::new(lines.to_vec(alloc)?))
}

/// How many of those acts are settled, in a file that was opened with a list of records and closed with
/// another, or why they aren't.
fn mixed_settled(
    alloc: Global,
    opened: &[(u8, u8)],
    left: &[(u8, u8)],
) -> Result<Result<usize, SettleFault>, Fail> {
    let opening = opening(alloc, &[opened])?;
    let closed = closed(alloc, 2, 8, &[left])?;
    let acts = mixed(alloc)?;
    Ok(settle(alloc, &opening, &closed, &acts).map(|history| history.len()))
}

#[test]
fn a_history_begins_with_the_opening(rt: HostRuntime) -> Result<(), Fail> {
    let alloc = rt.alloc();
    let stray = SettleFault::Content(key(b'a')?);
    let given = Reply::Found(value(b'1')?);
    let due = Reply::Absent;
    let wrong = SettleFault::Reply {
        stamp: 0,
        given,
        due,
    };
    expect_eq!(
        &rt,
        mixed_settled(alloc, &[(b'a', b'1')], &[(b'a', b'4')])?,
        Ok(8)
    );
    expect_eq!(
        &rt,
        mixed_settled(alloc, &[(b'a', b'1')], &[(b'a', b'1')])?,
        Err(stray)
    );
    expect_eq!(&rt, mixed_settled(alloc, &[], &[(b'a', b'4')])?, Err(wrong));
    Ok(())
}

/// The file may hold neither the value that was replaced nor a record that a replace missed.
#[test]
fn records_are_compared_with_what_replaces_left(rt: HostRuntime) -> Result<(), Fail> {
    let alloc = rt.alloc();
    let opened: &[(u8, u8)] = &[(b'a', b'1')];
    expect_eq!(
        &rt,
        mixed_settled(alloc, opened, &[(b'a', b'2')])?,
        Err(SettleFault::Content(key(b'a')?))
    );
    expect_eq!(
        &rt,
        mixed_settled(alloc, opened, &[(b'a', b'4'), (b'b', b'5')])?,
        Err(SettleFault::Content(key(b'b')?))
    );
    Ok(())
}
