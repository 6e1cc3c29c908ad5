//! Memory that is refused: run with each request for it refused in turn, one in each run. A run in threads says so, and
//! made once more it has its totals; look-ups in an image say so, and made once more they have their lines.
use lh_addr::Config;
use lh_bucket::Call;
use lh_expect::{expect, expect_eq};
use lh_file::NoGate;
use lh_page::{Key, Value};
use lhash::{DriveFault, Driven, drive_shards_with, drive_with_snapshots, run};
use lhash_expect::{FIVE, FIVE_WORDS};
use std::alloc::Global;
use std::process::Abort;
use std::sync::Wait;
use std::test::Fail;
use std::thread::Threads;

/// An insert of each of twelve letters, and a search for each.
fn inserts_and_searches(alloc: Global) -> Option<Vec<Call>> {
    let mut calls = Vec::new(alloc);
    let value = Value::new(b"1").ok()?;
    for letter in b'a'..b'm' {
        let key = Key::new(&[letter]).ok()?;
        calls.push(Call::Insert(key, value)).ok()?;
    }
    for letter in b'a'..b'm' {
        let key = Key::new(&[letter]).ok()?;
        calls.push(Call::Search(key)).ok()?;
    }
    Some(calls)
}

/// The calls, which are made again where there was no memory for them.
fn twenty_four_calls(alloc: Global) -> Result<Vec<Call>, Fail> {
    let calls = match inserts_and_searches(alloc) {
        Some(calls) => calls,
        None => inserts_and_searches(alloc).ok_or("no memory for the calls")?,
    };
    Ok(calls)
}

/// What such a run has in the end.
const TOTALS: Driven = Driven {
    calls: 24,
    found: 12,
    absent: 0,
    inserted: 12,
    exists: 0,
    deleted: 0,
    replaced: 0,
    records: 12,
};

/// Whether a run may be made again: there was no memory, for a thread or for something else.
fn is_refused<T>(driven: &Result<T, DriveFault>) -> bool {
    matches!(driven, Err(DriveFault::Memory | DriveFault::Thread))
}

#[test]
fn a_refused_run_on_shards_may_be_made_again(rt: HostRuntime) -> Result<(), Fail> {
    let config = Config::new(1, 1, 100, 65536)?;
    let calls = twenty_four_calls(rt.alloc())?;
    let mut driven = drive_shards_with(&rt, rt.alloc(), config, calls.as_slice(), 2, 4);
    if is_refused(&driven) {
        driven = drive_shards_with(&rt, rt.alloc(), config, calls.as_slice(), 2, 4);
    }
    expect_eq!(rt; driven, Ok(TOTALS));
    Ok(())
}

/// Snapshots that wait for the calls of a thread wait no longer where a call of it was refused.
#[test]
fn a_refused_run_with_snapshots_may_be_made_again(rt: HostRuntime) -> Result<(), Fail> {
    let config = Config::new(1, 1, 100, 65536)?;
    let calls = twenty_four_calls(rt.alloc())?;
    let mut driven = drive_with_snapshots(&rt, rt.alloc(), config, calls.as_slice(), 2, 3, NoGate);
    if is_refused(&driven) {
        driven = drive_with_snapshots(&rt, rt.alloc(), config, calls.as_slice(), 2, 3, NoGate);
    }
    expect_eq!(rt; driven, Ok(TOTALS));
    Ok(())
}

/// The image of five records, or nothing where there was no memory.
fn built(rt: &(impl AllocGlobal + Threads + Wait + Sync)) -> Vec<u8> {
    let mut script = FIVE.as_bytes();
    let mut image = Vec::new(rt.alloc());
    let status = run(rt, FIVE_WORDS, false, &mut script, &mut image);
    if status.code() != 0 {
        image.clear();
    }
    image
}

/// The image of five records, which is built again where there was no memory for it.
fn five(rt: &(impl AllocGlobal + Threads + Wait + Sync)) -> Vec<u8> {
    let mut image = built(rt);
    if image.is_empty() {
        image = built(rt);
    }
    image
}

/// The status of look-ups, one of which finds no key, and what was written.
fn looked_up(rt: &(impl AllocGlobal + Threads + Wait + Sync), image: &[u8]) -> (u8, Vec<u8>) {
    let mut source = image;
    let mut output = Vec::new(rt.alloc());
    let words = ["lhash", "get", "-", "61", "66"];
    let status = run(rt, words.as_slice(), false, &mut source, &mut output);
    (status.code(), output)
}

/// The writer may be refused memory, too, which is a failed write.
#[test]
fn refused_look_ups_may_be_made_again(rt: HostRuntime) -> Result<(), Fail> {
    let image = five(&rt);
    let (mut code, mut written) = looked_up(&rt, &image);
    expect!(&rt, code != 4 || written.is_empty());
    if code == 3 || code == 4 {
        (code, written) = looked_up(&rt, &image);
    }
    expect_eq!(&rt, code, 6);
    expect!(&rt, written.as_slice() == b"found 31\nabsent\n".as_slice());
    Ok(())
}
