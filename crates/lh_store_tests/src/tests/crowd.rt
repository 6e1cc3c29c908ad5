//! Threads that share a store.
ghost use Rattle.std.specs.Prelude.{◌≤◌, length};

use lh_expect::{expect, expect_eq};
use lh_store::{CallFault, Config, OpenStore, Session, Snapshots, Store, Value, Work};
use std::test::Fail;
use std::thread::{self, Threads};

/// The number of four bytes.
pub(crate) fn number_in(bytes: &[u8]) -> u32 {
    match bytes {
        [a, b, c, d] => u32::from_be_bytes([*a, *b, *c, *d]),
        _ => 0,
    }
}

/// The number after that of four bytes.
fn one_more(bytes: &[u8]) -> Value
    ensures { length result ≤ 4 }
{
    let next = number_in(bytes).wrapping_add(1);
    Value::new(&next.to_be_bytes()).unwrap_or(Value::empty())
}

/// A thread's number as a byte.
fn byte_of(thread: usize) -> u8 {
    let [.., last] = thread.to_be_bytes();
    last
}

/// Makes 250 calls: puts a hundred records of this thread, removes every second one, and counts each under one key of
/// all threads. How many of its own were new, and were there to be removed.
fn count<S: Session>(table: &mut S, thread: u8) -> Result<(u32, u32), CallFault> {
    let (mut new, mut removed) = (0_u32, 0_u32);
    for turn in 0..100_u8 {
        let key = [thread, turn];
        let is_new = table.put(&key, b"1")?;
        new = new.saturating_add(u32::from(is_new));
        table.merge_within(b"all", &1_u32.to_be_bytes(), 4, one_more)?;
        if turn % 2 == 0 {
            let was_there = table.remove(&key)?;
            removed = removed.saturating_add(u32::from(was_there));
        }
    }
    Ok((new, removed))
}

/// Counts in each thread, and tells its number.
struct Counting;

impl Work for Counting {
    type Done = (usize, Result<(u32, u32), CallFault>);

    fn run<S: Session>(&self, thread: usize, table: &mut S) -> Self::Done {
        (thread, count(table, byte_of(thread)))
    }
}

/// What all have counted.
struct Total;

impl Work for Total {
    type Done = Result<Option<u32>, CallFault>;

    fn run<S: Session>(&self, _thread: usize, table: &mut S) -> Self::Done {
        table.with_value(b"all", |bytes: &[u8]| number_in(bytes))
    }
}

#[test]
fn what_eight_threads_do_adds_up(rt: HostRuntime) -> Result<(), Fail> {
    let mut store = Store::new(rt.alloc(), Config::default().with_capacity(2)?)?;
    let ran = store.run(&rt, 8, &Counting)?;
    expect_eq!(&rt, (ran.acts, ran.done.len()), (8 * 250, 8));
    for (place, done) in ran.done.iter().enumerate() {
        expect_eq!(&rt, *done, (place, Ok((100, 50))));
    }
    expect_eq!(&rt, store.len(), 8 * 50 + 1);
    let ran = store.run(&rt, 1, &Total)?;
    expect_eq!(&rt, (ran.acts, ran.done.first()), (1, Some(&Ok(Some(800)))));
    Ok(())
}

/// Where no thread works, nothing is done.
#[test]
fn a_store_is_as_it_was_after_no_threads(rt: HostRuntime) -> Result<(), Fail> {
    let mut store = Store::new(rt.alloc(), Config::default())?;
    store.run(&rt, 1, &Counting)?;
    let ran = store.run(&rt, 0, &Counting)?;
    expect_eq!(&rt, (ran.acts, ran.done.len(), store.len()), (0, 0, 51));
    Ok(())
}

#[test]
fn threads_work_on_an_open_store(rt: HostRuntime) -> Result<(), Fail> {
    let mut table = OpenStore::new(rt.alloc(), Config::default())?;
    expect_eq!(&rt, table.run(&rt, 0, &Counting)?.len(), 0);
    let done = table.run(&rt, 4, &Counting)?;
    expect_eq!(&rt, done.len(), 4);
    for (place, done) in done.iter().enumerate() {
        expect_eq!(&rt, *done, (place, Ok((100, 50))));
    }
    let mut session = table.session(&rt)?;
    expect_eq!(&rt, (session.len(), session.told()), (4 * 50 + 1, 4 * 250));
    let (buckets, left) = (session.buckets(), session.snapshot()?);
    expect!(&rt, buckets > 1);
    expect_eq!(&rt, buckets, u64::from(left.listing().buckets()));
    Ok(())
}

/// Makes one call: whether it was answered.
struct One;

impl Work for One {
    type Done = bool;

    fn run<S: Session>(&self, _thread: usize, table: &mut S) -> bool {
        table.contains(b"a").is_ok()
    }
}

/// What the threads of a run don't call is there for the next one. Had each run taken even half of the calls, none of
/// 2^63 were left after 63 of them.
#[test]
fn calls_that_are_left_come_back(rt: HostRuntime) -> Result<(), Fail> {
    let mut table = OpenStore::new(rt.alloc(), Config::default())?;
    for _ in 0..70 {
        let done = table.run(&rt, 2, &One)?;
        expect!(&rt, done.as_slice() == [true, true].as_slice());
    }
    Ok(())
}

/// Counts with each session, two at a time.
pub(crate) fn count_by_all<S: Session + Send>(rt: &(impl Threads + Sync), sessions: &mut [S]) {
    thread::for_each_mut(
        rt,
        sessions,
        2,
        &|thread: usize, own: &mut S| {
            let _ = count(own, byte_of(thread));
        },
    );
}

/// Threads may take the sessions of a table as they like.
#[test]
fn sessions_see_one_table(rt: HostRuntime) -> Result<(), Fail> {
    let mut table = OpenStore::new(rt.alloc(), Config::default())?;
    let mut sessions = table.sessions(&rt, 4)?;
    count_by_all(&rt, &mut sessions);
    for session in &mut sessions {
        expect_eq!(&rt, session.len(), 4 * 50 + 1);
    }
    Ok(())
}
