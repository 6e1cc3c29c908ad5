//! Hands of many threads.
ghost use Rattle.std.specs.Prelude.{◌≡◌, [], All, IfSome, IfOk};
ghost use Rattle.lh_file.specs.FileState.{IsOf};

use lh_bucket::Reply;
use lh_expect::{expect, expect_eq};
use lh_file::{Acts, Hand, HashFile, JoinFault, Memory, NoGate, Right};
use lh_page::{Key, Pair, Value};
use lh_stage::{file_of, join_again, joined, second_of, split_once};
use std::alloc::{AllocError, Global};
use std::process::Abort;
use std::sync::Wait;
use std::test::Fail;
use std::thread;
use std::thread::{Promise, PromisedHandle, Threads};

/// The hand that comes back from a thread is one of this file.
#[derive(Clone, Copy)]
struct OfFile<'a>(&'a HashFile<NoGate>);

impl<'a> Promise<Hand> for OfFile<'a> {
    ghost kept_by = { λ file hand. IsOf file.0.now.state hand };
}

/// Inserts a record in an even turn and deletes it in an odd one, unless the call is refused, and asks for the right to
/// split: where it is got, a bucket is split in an even turn and the right is dropped in an odd one.
fn take_turn<R: Wait>(rt: &R, file: &HashFile<NoGate>, hand: &mut Hand, record: &Pair, turn: u64)
    requires { IsOf file.now.state hand.old }
    ensures { IsOf file.now.state hand.new }
{
    if turn % 2 == 0 {
        // A call that is refused leaves no act, and is missing in the number of acts then.
        let _ = file.insert(rt, hand, record.key, record.value);
        split_once(rt, file, hand);
    } else {
        let _ = file.delete(rt, hand, record.key);
        if let Right::Got { .. } = file.try_split_right(hand) {
            file.drop_right(hand);
        }
    }
}

/// Takes a turn with a hand of its own, and joins that hand in.
fn take_turn_apart<R: Wait>(
    rt: &R,
    file: &HashFile<NoGate>,
    mut hand: Hand,
    record: &Pair,
    turn: u64,
) -> Hand
    requires { IsOf file.now.state hand }
    ensures { IsOf file.now.state result }
{
    let Some(mut part) = second_of(file, &mut hand, 1) else {
        return hand;
    };
    take_turn(rt, file, &mut part, record, turn);
    if part.has_right() {
        return hand;
    }
    match join_again(file, hand, part) {
        Ok(both) => both,
        Err(JoinFault { first, second: _ }) => first,
    }
}

/// In each turn inserts or deletes a record that no other thread has, and one that all threads have.
fn work<R: Wait>(
    rt: &R,
    file: &HashFile<NoGate>,
    mut hand: Hand,
    own: Pair,
    shared: Pair,
    turns: u64,
) -> Hand
    requires { IsOf file.now.state hand }
    ensures { IsOf file.now.state result }
{
    for turn in 0..turns {
        take_turn(rt, file, &mut hand, &own, turn);
        hand = take_turn_apart(rt, file, hand, &shared, turn);
    }
    hand
}

/// Looks at the size and at the counts: whether none of them ever went down.
fn look(file: &HashFile<NoGate>, mut hand: Hand, turns: u64) -> (Hand, bool)
    requires { IsOf file.now.state hand }
    ensures { IsOf file.now.state result.0 }
{
    let mut rising = true;
    let mut before = file.load(&mut hand);
    let mut size = file.buckets(&mut hand);
    for _ in 0..turns {
        let now = file.load(&mut hand);
        let grown = file.buckets(&mut hand);
        rising = rising
            && before.inserted <= now.inserted
            && before.deleted <= now.deleted
            && size <= grown;
        before = now;
        size = grown;
    }
    (hand, rising)
}

/// Keeps a worker beside the others, or answers that there is no memory for it.
fn keep<'a>(
    file: &'a HashFile<NoGate>,
    workers: &mut Vec<PromisedHandle<Hand, OfFile<'a>>>,
    worker: PromisedHandle<Hand, OfFile<'a>>,
) -> bool
    requires others { All (λ worker. worker.promise.0.now ≡ file.now) workers.old.items }
    requires new { worker.promise.0.now ≡ file.now }
    ensures { All (λ worker. worker.promise.0.now ≡ file.now) workers.new.items }
{
    workers.push(worker).is_ok()
}

/// Joins the hands of all workers into the first.
fn join_all<R: Threads + Wait>(
    rt: &R,
    file: &HashFile<NoGate>,
    mut all: Hand,
    workers: Vec<PromisedHandle<Hand, OfFile<'_>>>,
) -> Option<Hand>
    requires first { IsOf file.now.state all }
    requires others { All (λ worker. worker.promise.0.now ≡ file.now) workers.items }
    ensures { IfSome result (IsOf file.now.state) }
{
    for worker in workers {
        all = joined(file, all, worker.join(rt))?;
    }
    Some(all)
}

/// Room for this many workers, asked for once more where memory was refused.
fn room_for<'a>(alloc: Global, threads: u32) -> Option<Vec<PromisedHandle<Hand, OfFile<'a>>>>
    ensures { IfSome result (λ workers. workers.items ≡ []) }
{
    match Vec::with_capacity(alloc, threads as usize) {
        Ok(workers) => Some(workers),
        Err(AllocError) => Vec::with_capacity(alloc, threads as usize).ok(),
    }
}

/// A record with this key.
fn record_of(key: &[u8]) -> Option<Pair> {
    let (Ok(key), Ok(value)) = (Key::new(key), Value::new(b"1")) else {
        return None;
    };
    Some(Pair { key, value })
}

/// Works in this many threads while this one looks, and joins all hands into the first. A thread that is refused takes
/// no part.
fn work_in_threads<R: Threads + Wait + Sync>(
    rt: &R,
    alloc: Global,
    file: &HashFile<NoGate>,
    hand: Hand,
    threads: u32,
    turns: u64,
) -> Option<(Hand, bool)>
    requires { IsOf file.now.state hand }
    ensures { IfSome result (λ worked. IsOf file.now.state worked.0) }
{
    thread::scope(
        thread::scope_env(),
        rt,
        |scope| -> Option<(Hand, bool)>
            requires { IsOf file.now.state hand }
            ensures { IfSome result (λ worked. IsOf file.entry.now.state worked.0) }
        {
            let mut all = hand;
            let mut workers = room_for(alloc, threads)?;
            let shared = record_of(b"a")?;
            for i in 0..threads {
                let own = record_of(&[b'a', (i % 256) as u8])?;
                let part = second_of(file, &mut all, 1 << 40)?;
                let Ok(worker) = scope.spawn_with(
                    OfFile(file),
                    move || work(rt, file, part, own, shared, turns),
                ) else {
                    continue;
                };
                if !keep(file, &mut workers, worker) {
                    return None;
                }
            }
            let (all, rising) = look(file, all, 1000);
            Some((join_all(rt, file, all, workers)?, rising))
        },
    )
}

/// Whether each number below that of the acts is the stamp of one, and so of just one.
fn has_each_stamp(alloc: Global, acts: &Acts) -> Result<bool, Fail> {
    let count = acts.len();
    let mut there = match vec![in alloc; false; count] {
        Ok(there) => there,
        Err(AllocError) => vec![in alloc; false; count]?,
    };
    for i in 0..acts.len() {
        if let Some(place) = there.get_mut(acts.at(i).stamp as usize) {
            *place = true;
        }
    }
    Ok(there.iter().all(|&is| is))
}

/// How many of the acts have this reply.
fn count_of(acts: &Acts, reply: Reply) -> u64 {
    let mut count = 0_u64;
    for i in 0..acts.len() {
        if acts.at(i).reply == reply {
            count = count.saturating_add(1);
        }
    }
    count
}

/// This many hands in threads take turns in a file, of two calls each. The file, and the hand into which all were
/// joined.
pub(crate) fn worked_apart<R: Threads + Wait + Abort + Sync>(
    rt: &R,
    alloc: Global,
    threads: u32,
    turns: u64,
) -> Result<(HashFile<NoGate>, Hand), Fail>
    ensures { IfOk result (λ worked. IsOf worked.0.state worked.1) }
{
    let (file, first) = file_of(alloc, 65536)?;
    let Some((all, rising)) = work_in_threads(rt, alloc, &file, first, threads, turns) else {
        return Err(Fail::from("a hand was lost"));
    };
    expect!(rt, rising);
    Ok((file, all))
}

/// Closes a file, and checks that no act is lost, and that each that inserted or deleted a record is counted. The number
/// of acts; none where memory was refused, and with it the closed file.
pub(crate) fn check_acts<R: Wait + Abort>(
    rt: &R,
    alloc: Global,
    file: HashFile<NoGate>,
    mut all: Hand,
) -> Result<Option<usize>, Fail>
    requires { IsOf file.state all }
{
    let load = file.load(&mut all);
    let size = file.buckets(&mut all);
    let (closed, acts) = match file.close(rt, all) {
        Ok(ended) => ended,
        Err(Memory) => return Ok(None),
    };
    expect_eq!(
        rt,
        (load.inserted, load.deleted),
        (
            count_of(&acts, Reply::Inserted),
            count_of(&acts, Reply::Deleted)
        )
    );
    expect_eq!(
        rt,
        closed.records(),
        load.inserted.wrapping_sub(load.deleted)
    );
    expect_eq!(rt, (closed.buckets(), closed.split_open()), (size, false));
    expect_eq!(rt, closed.stamps(), acts.len() as u64);
    expect!(rt, has_each_stamp(alloc, &acts)?);
    Ok(Some(acts.len()))
}

#[test]
fn threads_lose_no_act(rt: HostRuntime) -> Result<(), Fail> {
    let (file, all) = worked_apart(&rt, rt.alloc(), 8, 250)?;
    expect_eq!(&rt, all.left(), (1 << 63) - 4000);
    expect_eq!(&rt, check_acts(&rt, rt.alloc(), file, all)?, Some(4000));
    Ok(())
}
