//! Eight threads on eight shards, each with hands of its own. What they did is settled, and merged into one history.
ghost use Rattle.std.specs.Prelude.{◌≡◌, [], All, IfSome};
ghost use Rattle.lh_shards.specs.Hands.{AreOf};

use super::calls::shards_of;
use super::whole::{acts_in, openings, records_in};
use lh_bucket::{Call, Reply};
use lh_expect::expect_eq;
use lh_file::{ActLine, History};
use lh_page::{Key, Value};
use lh_shards::{ClosedShards, Hands, Shards};
use std::alloc::{AllocError, Global};
use std::collections::BTreeMap;
use std::process::Abort;
use std::sync::Wait;
use std::test::Fail;
use std::thread;
use std::thread::{Promise, PromisedHandle, Threads};

/// The hands that come back from a thread are those of these shards.
#[derive(Clone, Copy)]
struct OfShards<'a>(&'a Shards);

impl<'a> Promise<Hands> for OfShards<'a> {
    ghost kept_by = { λ shards hands. AreOf shards.0.now hands };
}

/// Five calls of a key, of which the last removes it for some of the keys.
fn take_turn<R: Wait>(rt: &R, shards: &Shards, hands: &mut Hands, number: u8, own: u8)
    requires { AreOf shards.now hands.old }
    ensures { AreOf shards.now hands.new }
{
    let (Ok(key), Ok(value)) = (Key::new(&[number]), Value::new(&[own])) else {
        return;
    };
    let _ = shards.put(rt, hands, &key, &value);
    let _ = shards.get(rt, hands, &key);
    let _ = shards.set(rt, hands, &key, &value);
    let _ = shards.search(rt, hands, key);
    if number % 3 == 0 {
        let _ = shards.remove(rt, hands, &key);
    } else {
        let _ = shards.get(rt, hands, &key);
    }
}

/// What each thread does: it takes turns at 60 keys, which are those of all threads.
fn work<R: Wait>(rt: &R, shards: &Shards, mut hands: Hands, own: u8) -> Hands
    requires { AreOf shards.now hands }
    ensures { AreOf shards.now result }
{
    for number in 0..60_u8 {
        take_turn(rt, shards, &mut hands, number, own);
    }
    hands
}

/// Keeps a worker beside the others, or answers that there is no memory for it.
fn keep<'a>(
    shards: &'a Shards,
    workers: &mut Vec<PromisedHandle<Hands, OfShards<'a>>>,
    worker: PromisedHandle<Hands, OfShards<'a>>,
) -> bool
    requires others { All (λ worker. worker.promise.0.now ≡ shards.now) workers.old.items }
    requires new { worker.promise.0.now ≡ shards.now }
    ensures { All (λ worker. worker.promise.0.now ≡ shards.now) workers.new.items }
{
    workers.push(worker).is_ok()
}

/// Hands that may make so many calls in each shard.
fn part_of(shards: &Shards, hands: &mut Hands, calls: u64) -> Option<Hands>
    requires { AreOf shards.now hands.old }
    ensures old { AreOf shards.now hands.new }
    ensures new { IfSome result (AreOf shards.now) }
{
    shards.split_hands(hands, calls).ok()
}

/// Joins the hands of all workers into the first ones.
fn join_all<R: Threads + Wait>(
    rt: &R,
    shards: &Shards,
    mut all: Hands,
    workers: Vec<PromisedHandle<Hands, OfShards<'_>>>,
) -> Option<Hands>
    requires first { AreOf shards.now all }
    requires others { All (λ worker. worker.promise.0.now ≡ shards.now) workers.items }
    ensures { IfSome result (AreOf shards.now) }
{
    for worker in workers {
        all = shards.join_hands(all, worker.join(rt)).ok()?;
    }
    Some(all)
}

/// Room for eight workers.
fn room_for<'a>(alloc: Global) -> Option<Vec<PromisedHandle<Hands, OfShards<'a>>>>
    ensures { IfSome result (λ workers. workers.items ≡ []) }
{
    match Vec::with_capacity(alloc, 8) {
        Ok(workers) => Some(workers),
        Err(AllocError) => None,
    }
}

/// Works in eight threads, and joins all hands into the first ones.
fn work_in_threads<R: Threads + Wait + Sync>(
    rt: &R,
    alloc: Global,
    shards: &Shards,
    hands: Hands,
) -> Option<Hands>
    requires { AreOf shards.now hands }
    ensures { IfSome result (AreOf shards.now) }
{
    thread::scope(
        thread::scope_env(),
        rt,
        |scope| -> Option<Hands>
            requires { AreOf shards.now hands }
            ensures { IfSome result (AreOf shards.entry.now) }
        {
            let mut all = hands;
            let mut workers = room_for(alloc)?;
            for own in 0..8_u8 {
                let part = part_of(shards, &mut all, 1 << 40)?;
                let worker = scope
                    .spawn_with(OfShards(shards), move || work(rt, shards, part, own))
                    .ok()?;
                if !keep(shards, &mut workers, worker) {
                    return None;
                }
            }
            join_all(rt, shards, all, workers)
        },
    )
}

/// What a plain map answers to a call.
pub(crate) fn reply_of(map: &mut BTreeMap<Key, Value>, call: &Call) -> Result<Reply, AllocError> {
    Ok(match call {
        Call::Search(key) => match map.get(key) {
            Some(value) => Reply::Found(*value),
            None => Reply::Absent,
        },
        Call::Insert(key, value) => {
            if map.contains_key(key) {
                Reply::Exists
            } else {
                map.insert(*key, *value)?;
                Reply::Inserted
            }
        }
        Call::Delete(key) => match map.remove(key) {
            Some(_) => Reply::Deleted,
            None => Reply::Absent,
        },
        Call::Replace(key, value) => match map.get_mut(key) {
            Some(old) => {
                *old = *value;
                Reply::Replaced
            }
            None => Reply::Absent,
        },
    })
}

/// An act's reply is that of the map, which is after it as the act leaves it.
fn check_act(rt: &impl Abort, map: &mut BTreeMap<Key, Value>, act: &ActLine) -> Result<(), Fail> {
    expect_eq!(rt; reply_of(map, &act.call)?, act.reply);
    Ok(())
}

/// Takes one act of each history after another through one map, as long as there are some, and answers how many records
/// the map has at last.
fn records_of_turns(rt: &impl Abort, alloc: Global, histories: &[History]) -> Result<u64, Fail> {
    let mut map = BTreeMap::new(alloc);
    for place in 0..2_400 {
        for history in histories {
            if place < history.len() {
                check_act(rt, &mut map, &history.at(place))?;
            }
        }
    }
    Ok(map.len() as u64)
}

/// The same, one history after another, from the last one to the first.
fn records_of_runs(rt: &impl Abort, alloc: Global, histories: &[History]) -> Result<u64, Fail> {
    let mut map = BTreeMap::new(alloc);
    for history in histories.iter().rev() {
        for place in 0..history.len() {
            check_act(rt, &mut map, &history.at(place))?;
        }
    }
    Ok(map.len() as u64)
}

/// The histories of shards merge into those of one map, which leaves this many records.
fn expect_one_map(
    rt: &impl Abort,
    alloc: Global,
    histories: &[History],
    records: u64,
) -> Result<(), Fail> {
    expect_eq!(rt, acts_in(histories), 8 * 60 * 5);
    expect_eq!(rt; records_of_turns(rt, alloc, histories)?, records);
    expect_eq!(rt; records_of_runs(rt, alloc, histories)?, records);
    Ok(())
}

fn expect_settled(rt: &impl Abort, alloc: Global, closed: &ClosedShards) -> Result<(), Fail> {
    let openings = openings(alloc, closed)?;
    let histories = closed.settle(alloc, &openings)?;
    expect_one_map(rt, alloc, &histories, records_in(closed))
}

#[test]
fn eight_threads_make_one_map(rt: HostRuntime) -> Result<(), Fail> {
    let (shards, hands) = shards_of(rt.alloc(), 8)?;
    let Some(hands) = work_in_threads(&rt, rt.alloc(), &shards, hands) else {
        return Err(Fail::new("a hand was lost"));
    };
    expect_settled(&rt, rt.alloc(), &shards.close(&rt, hands)?)
}
