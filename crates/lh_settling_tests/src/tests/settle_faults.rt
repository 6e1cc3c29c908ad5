//! The first fault of files that are not settled, and the texts of faults.

use super::settling::{AE, BD, C, act, closed, fault_of, history_of, key, settled, value};
use lh_bucket::{Call, Reply};
use lh_expect::{expect, expect_eq};
use lh_file::{Acts, SettleFault};
use lh_page::Key;
use std::alloc::Global;
use std::test::Fail;

/// The record of key a.
const A: &[(u8, u8)] = &[(b'a', b'a')];

/// Stamp words, records, the stamps of acts, and the first that is missing, if one is.
const MISSING: [(u64, &[(u8, u8)], &[u64], Option<u64>); 9] = [
    (0, &[], &[], None),
    (1, A, &[0], None),
    (2, A, &[], Some(0)),
    (3, A, &[1, 0, 0], Some(1)),
    (3, A, &[1, 0], Some(2)),
    (3, A, &[2, 0], Some(1)),
    (2, A, &[0, 2, 1], Some(2)),
    (1, A, &[5, 0, 1], Some(1)),
    (1, A, &[u64::MAX], Some(0)),
];

/// Whether a closed file with these root and stamp words and records, and inserts with these stamps, has this
/// fault: a stamp that is missing, or none.
fn misses(
    alloc: Global,
    root: u64,
    drawn: u64,
    lists: &[&[(u8, u8)]],
    stamps: &[u64],
    missing: Option<u64>,
) -> Result<bool, Fail> {
    let due = match missing {
        Some(stamp) => Some(SettleFault::MissingStamp(stamp)),
        None => None,
    };
    Ok(fault_of(alloc, root, drawn, lists, stamps)? == due)
}

#[test]
fn missing_stamps_are_named(rt: HostRuntime) -> Result<(), Fail> {
    let alloc = rt.alloc();
    for (drawn, list, stamps, missing) in &MISSING {
        expect!(&rt, misses(alloc, 2, *drawn, &[*list], stamps, *missing)?);
    }
    Ok(())
}

/// Two inserts of a key, and a search that misses it.
fn missed_acts(alloc: Global) -> Result<Acts, Fail> {
    let a = key(b'a')?;
    let call = Call::Insert(a, value(b'a')?);
    let lines = [
        act(2, Call::Search(a), Reply::Absent),
        act(1, call, Reply::Inserted),
        act(0, call, Reply::Inserted),
    ];
    Ok(Acts::new(lines.to_vec(alloc)?))
}

/// How many of these acts are settled.
fn missed(alloc: Global) -> Result<Result<usize, SettleFault>, Fail> {
    let closed = closed(alloc, 2, 3, &[&[(b'a', b'a')]])?;
    settled(alloc, &closed, &missed_acts(alloc)?)
}

#[test]
fn the_first_wrong_reply_is_named(rt: HostRuntime) -> Result<(), Fail> {
    let wrong = SettleFault::Reply {
        stamp: 1,
        given: Reply::Inserted,
        due: Reply::Exists,
    };
    expect_eq!(&rt, missed(rt.alloc())?, Err(wrong));
    Ok(())
}

/// An insert, and a replace of this letter that was told this.
fn replaced_acts(alloc: Global, letter: u8, told: Reply) -> Result<Acts, Fail> {
    let value = value(b'a')?;
    let lines = [
        act(0, Call::Insert(key(b'a')?, value), Reply::Inserted),
        act(1, Call::Replace(key(letter)?, value), told),
    ];
    Ok(Acts::new(lines.to_vec(alloc)?))
}

/// How many of these acts are settled, or why they aren't.
fn replaced(alloc: Global, letter: u8, told: Reply) -> Result<Result<usize, SettleFault>, Fail> {
    let closed = closed(alloc, 2, 2, &[A])?;
    settled(alloc, &closed, &replaced_acts(alloc, letter, told)?)
}

fn wrong_at_1(given: Reply, due: Reply) -> Result<usize, SettleFault> {
    let stamp = 1;
    Err(SettleFault::Reply { stamp, given, due })
}

#[test]
fn a_wrong_reply_to_a_replace_is_named(rt: HostRuntime) -> Result<(), Fail> {
    let alloc = rt.alloc();
    let (done, missed) = (Reply::Replaced, Reply::Absent);
    expect_eq!(&rt, replaced(alloc, b'a', done)?, Ok(2));
    expect_eq!(&rt, replaced(alloc, b'b', missed)?, Ok(2));
    expect_eq!(
        &rt,
        replaced(alloc, b'a', missed)?,
        wrong_at_1(missed, done)
    );
    expect_eq!(&rt, replaced(alloc, b'b', done)?, wrong_at_1(done, missed));
    Ok(())
}

/// Whether the key of a letter is the least whose content is wrong, in a closed file with these
/// records after inserts with the stamps 0, 1 and so on.
fn strays(
    alloc: Global,
    root: u64,
    lists: &[&[(u8, u8)]],
    stamps: &[u64],
    letter: u8,
) -> Result<bool, Fail> {
    let fault = fault_of(alloc, root, stamps.len() as u64, lists, stamps)?;
    Ok(fault == Some(SettleFault::Content(key(letter)?)))
}

const MORE: &[(u8, u8)] = &[(b'd', b'd'), (b'b', b'b'), (b'a', b'a')];

/// Lists of records, the stamps of inserts, and the least key whose content is wrong.
const STRAYS: [(&[(u8, u8)], &[u64], u8); 5] = [
    (&[], &[0], b'a'),
    (&[(b'b', b'b'), (b'a', b'0')], &[0, 1], b'a'),
    (MORE, &[0, 1], b'd'),
    (MORE, &[0, 1, 2], b'c'),
    (&[(b'b', b'0'), (b'a', b'0')], &[0, 1], b'a'),
];

#[test]
fn the_least_stray_key_is_named(rt: HostRuntime) -> Result<(), Fail> {
    for (list, stamps, letter) in &STRAYS {
        expect!(&rt, strays(rt.alloc(), 2, &[*list], stamps, *letter)?);
    }
    Ok(())
}

/// Root words and lists of a file in which the key a stands twice.
const TWICE: [(u64, &[&[(u8, u8)]]); 3] = [
    (2, &[&[(b'a', b'a'), (b'a', b'a')]]),
    (4, &[A, A]),
    (2, &[A, A]),
];

#[test]
fn a_key_that_stands_twice_is_stray(rt: HostRuntime) -> Result<(), Fail> {
    for (root, lists) in &TWICE {
        expect!(&rt, strays(rt.alloc(), *root, lists, &[0], b'a')?);
    }
    Ok(())
}

/// Whether the key of a letter, in a bucket, is the first that stands in another than its own, in a
/// closed file of three buckets with these records after the inserts of a to e.
fn strands(alloc: Global, lists: &[&[(u8, u8)]], bucket: u32, letter: u8) -> Result<bool, Fail> {
    let fault = fault_of(alloc, 6, 5, lists, &[0, 1, 2, 3, 4])?;
    let key = key(letter)?;
    Ok(fault == Some(SettleFault::Placed { bucket, key }))
}

const EA: &[(u8, u8)] = &[(b'e', b'e'), (b'a', b'a')];

#[test]
fn records_may_stand_in_any_order(rt: HostRuntime) -> Result<(), Fail> {
    let history = history_of(rt.alloc(), 6, &[EA, BD, C], &[0, 1, 2, 3, 4])?;
    expect_eq!(&rt, history.len(), 5);
    Ok(())
}

/// Lists of a file of three buckets, and the bucket and the key of the first record that stands in another
/// than its own.
const MISPLACED: [(&[&[(u8, u8)]], u32, u8); 4] = [
    (&[BD, AE, C], 0, b'b'),
    (&[AE, C, BD], 1, b'c'),
    (&[AE, BD, &[], C], 3, b'c'),
    (&[&[], BD, C, EA], 3, b'a'),
];

#[test]
fn the_first_misplaced_key_is_named(rt: HostRuntime) -> Result<(), Fail> {
    for (lists, bucket, letter) in &MISPLACED {
        expect!(&rt, strands(rt.alloc(), lists, *bucket, *letter)?);
    }
    Ok(())
}

/// An insert that was told that its key is there, and another one.
fn wrong_acts(alloc: Global) -> Result<Acts, Fail> {
    let lines = [
        act(1, Call::Insert(key(b'b')?, value(b'b')?), Reply::Inserted),
        act(0, Call::Insert(key(b'a')?, value(b'a')?), Reply::Exists),
    ];
    Ok(Acts::new(lines.to_vec(alloc)?))
}

/// How many of these acts are settled in a file with these words and a list with a stray key, or why
/// they aren't.
fn wrong_settled(alloc: Global, root: u64, drawn: u64) -> Result<Result<usize, SettleFault>, Fail> {
    let closed = closed(alloc, root, drawn, &[&[(b'b', b'b'), (b'c', b'c')]])?;
    settled(alloc, &closed, &wrong_acts(alloc)?)
}

/// Whether this is why.
fn is_wrong(alloc: Global, root: u64, drawn: u64, fault: SettleFault) -> Result<bool, Fail> {
    Ok(wrong_settled(alloc, root, drawn)? == Err(fault))
}

/// A file with every fault: the first is named, in their order, as one after another is mended.
#[test]
fn the_first_fault_is_named(rt: HostRuntime) -> Result<(), Fail> {
    let alloc = rt.alloc();
    let wrong = SettleFault::Reply {
        stamp: 0,
        given: Reply::Exists,
        due: Reply::Inserted,
    };
    expect!(&rt, is_wrong(alloc, 5, 3, SettleFault::SplitUnderWay)?);
    expect!(&rt, is_wrong(alloc, 4, 3, SettleFault::MissingStamp(2))?);
    expect!(&rt, is_wrong(alloc, 4, 2, wrong)?);
    Ok(())
}

/// Whether a closed file of two buckets with these records, after the inserts of a and b, has this fault.
fn has_fault(alloc: Global, lists: &[&[(u8, u8)]], fault: SettleFault) -> Result<bool, Fail> {
    Ok(fault_of(alloc, 4, 2, lists, &[1, 0])? == Some(fault))
}

/// The same with the right replies.
#[test]
fn the_first_fault_of_contents_is_named(rt: HostRuntime) -> Result<(), Fail> {
    let alloc = rt.alloc();
    let stray: &[(u8, u8)] = &[(b'b', b'b'), (b'c', b'c')];
    let away: &[(u8, u8)] = &[(b'b', b'b'), (b'a', b'a')];
    let misplaced = SettleFault::Placed {
        bucket: 0,
        key: key(b'b')?,
    };
    let content = SettleFault::Content(key(b'a')?);
    expect!(&rt, has_fault(alloc, &[stray], content)?);
    expect!(&rt, has_fault(alloc, &[away], misplaced)?);
    expect!(
        &rt,
        misses(alloc, 4, 2, &[A, &[(b'b', b'b')]], &[1, 0], None)?
    );
    Ok(())
}

fn has_text(alloc: Global, fault: SettleFault, text: &str) -> Result<bool, Fail> {
    Ok(fault.to_string(alloc)?.as_str() == text)
}

#[test]
fn faults_have_texts(rt: HostRuntime) -> Result<(), Fail> {
    let alloc = rt.alloc();
    let key = Key::new(b"a\x0f")?;
    let given = Reply::Absent;
    let wrong = SettleFault::Reply {
        stamp: 3,
        given,
        due: Reply::Exists,
    };
    let texts = [
        (SettleFault::SplitUnderWay, "split under way"),
        (SettleFault::MissingStamp(7), "missing stamp 7"),
        (wrong, "reply at 3"),
        (SettleFault::Content(key), "content of 610f"),
        (
            SettleFault::Placed { bucket: 2, key },
            "place of 610f in bucket 2",
        ),
        (SettleFault::Memory, "no memory"),
    ];
    for (fault, text) in &texts {
        expect!(&rt, has_text(alloc, *fault, text)?);
    }
    Ok(())
}
