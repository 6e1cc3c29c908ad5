//! Traced shards: what each shard told orders the acts of threads, and is their history at the end.
ghost use Rattle.std.specs.Prelude.{◌≡◌, ◌<◌, length, All, IfOk, IfSome};
ghost use Rattle.lh_shards.specs.Hands.{AreOf};
ghost use Rattle.lh_shards.specs.Openings.{AreBrandsOf};

use super::opened::listings_astray;
use super::threads::reply_of;
use super::whole::{acts_in, records_in};
use lh_addr::{Config, fnv1a};
use lh_bucket::{Answer, Call, Listing};
use lh_expect::{expect, expect_eq};
use lh_file::{ActLine, FileBrand, FileFault, History, Traced};
use lh_page::{Key, Value};
use lh_shards::{ClosedShards, Hands, OpenFault, Openings, Shards, empty_listings};
use std::alloc::Global;
use std::collections::BTreeMap;
use std::marker::Brand;
use std::process::Abort;
use std::sync::{OnceLock, Wait};
use std::test::Fail;
use std::thread;
use std::thread::{Promise, PromisedHandle, Threads};

/// Shards whose histories are traced. `J` names their tables.
type TracedShards<J> = Shards<Traced, J>;

/// How many messages the threads send. The remainder of a message's number by four is the thread that sends it, and the
/// remainder by three is the shard that it is about.
const MESSAGES: u8 = 60;

/// Why traced shards are not opened from listings.
fn fault_of(alloc: Global, listings: &[Listing]) -> Result<OpenFault, Fail> {
    match Openings::of(alloc, listings, true) {
        Ok(_) => Err(Fail::new("opened")),
        Err(fault) => Ok(fault),
    }
}

/// No listings are refused, and two of which the second has another configuration.
fn expect_refused(rt: &impl Abort, alloc: Global, listings: &mut Vec<Listing>) -> Result<(), Fail> {
    expect_eq!(rt, fault_of(alloc, listings)?, OpenFault::Count);
    for capacity in [2, 3] {
        let config = Config::new(1, capacity, 100, 16)?;
        listings.push(Listing::empty(alloc, config)?)?;
    }
    expect_eq!(
        rt,
        fault_of(alloc, listings)?,
        OpenFault::Config { shard: 1 }
    );
    Ok(())
}

#[test]
fn traced_shards_are_refused_as_others_are(rt: HostRuntime) -> Result<(), Fail> {
    let alloc = rt.alloc();
    let config = Config::new(1, 2, 100, 16)?;
    expect_refused(&rt, alloc, &mut empty_listings(alloc, config, 0)?)?;
    let (listings, place) = listings_astray(alloc)?;
    expect_eq!(
        &rt,
        fault_of(alloc, &listings)?,
        OpenFault::Misplaced {
            shard: 0,
            bucket: 0,
            place
        }
    );
    Ok(())
}

/// Makes a call by its key.
fn serve<J: FileBrand, R: Wait>(
    rt: &R,
    shards: &TracedShards<J>,
    hands: &mut Hands,
    call: Call,
) -> Result<Answer, FileFault>
    requires { AreOf shards.now hands.old }
    ensures { AreOf shards.now hands.new }
{
    match call {
        Call::Search(key) => shards.search(rt, hands, key),
        Call::Insert(key, value) => shards.insert(rt, hands, key, value),
        Call::Delete(key) => shards.delete(rt, hands, key),
        Call::Replace(key, value) => shards.replace(rt, hands, key, value),
    }
}

/// The call of a turn, by one of 121 keys. A key takes part in each 121st turn, by one kind of call after another.
fn call_of(turn: u32) -> Result<Call, Fail> {
    let key = Key::new(&(turn.wrapping_mul(7) % 121).to_be_bytes())?;
    let value = Value::new(&turn.to_be_bytes())?;
    Ok(match turn % 5 {
        0 | 1 => Call::Insert(key, value),
        2 => Call::Replace(key, value),
        3 => Call::Search(key),
        _ => Call::Delete(key),
    })
}

/// Makes 605 calls, to which a plain map replies as the shards do, and answers how many records the map has.
fn make_calls<J: FileBrand, R: Abort + Wait>(
    rt: &R,
    alloc: Global,
    shards: &TracedShards<J>,
    hands: &mut Hands,
) -> Result<u64, Fail>
    requires { AreOf shards.now hands.old }
    ensures { AreOf shards.now hands.new }
{
    let mut map = BTreeMap::new(alloc);
    for turn in 0..605_u32 {
        let call = call_of(turn)?;
        let answer = serve(rt, shards, hands, call)?;
        expect_eq!(rt, answer.reply(), reply_of(&mut map, &call)?);
    }
    Ok(map.len() as u64)
}

/// Shards that are closed after these calls, how many buckets they had then, and how many records the plain map has.
fn called<J: FileBrand, R: Abort + Wait>(
    rt: &R,
    alloc: Global,
    openings: Openings<'_>,
) -> Result<(ClosedShards, u64, u64), Fail>
    requires { AreBrandsOf J.named J.tables openings }
    ensures { IfOk result (λ ended. length ended.0 ≡ length openings.entry) }
{
    let (shards, mut hands) = openings.shards::<J>()?;
    let records = make_calls(rt, alloc, &shards, &mut hands)?;
    let buckets = shards.buckets(&mut hands);
    Ok((shards.close(rt, hands)?, buckets, records))
}

/// What was done since traced shards were opened from listings is settled.
fn expect_settled(
    rt: &impl Abort,
    alloc: Global,
    listings: &[Listing],
    closed: &ClosedShards,
    records: u64,
) -> Result<(), Fail>
    requires { length listings.now ≡ length closed.now }
{
    for shard in 0..closed.count() {
        expect!(rt, closed.shard(shard).closed.gathered());
    }
    expect_eq!(rt; records_in(closed), records);
    let histories = closed.settle(alloc, listings)?;
    expect_eq!(rt, histories.len(), 3);
    expect_eq!(rt, acts_in(&histories), 605);
    Ok(())
}

#[test]
fn traced_shards_close_with_their_histories(rt: HostRuntime) -> Result<(), Fail> {
    let alloc = rt.alloc();
    let listings = empty_listings(alloc, Config::new(1, 2, 100, 1_024)?, 3)?;
    let openings = Openings::of(alloc, &listings, true)?;
    let (closed, buckets, records) = called::<Brand, _>(&rt, alloc, openings)?;
    expect!(&rt, buckets > 3);
    expect_settled(&rt, alloc, &listings, &closed, records)
}

/// What a thread brings back: its hands, and whether all went as it has to.
#[derive(Drop)]
struct Finished {
    hands: Hands,
    is_well: bool,
}

/// The hands that come back from a thread are those of these shards.
#[derive(Clone, Copy)]
struct OfShards<'a, J: FileBrand>(&'a TracedShards<J>);

impl<'a, J: FileBrand> Promise<Finished> for OfShards<'a, J> {
    ghost kept_by = { λ shards finished. AreOf shards.0.now finished.hands };
}

/// A key of a shard, for an act that is made after the messages before the first number, and before those from the last
/// number on. The key says these numbers.
fn key_of<J: FileBrand>(shards: &TracedShards<J>, shard: u32, first: u8, last: u8) -> Option<Key> {
    for letter in 0..u8::MAX {
        let key = Key::new(&[first, last, letter]).ok()?;
        if shards.shard_of(fnv1a(key.bytes())) == shard {
            return Some(key);
        }
    }
    None
}

/// Inserts a key, or deletes it: whether it was new, or was there.
fn act<J: FileBrand, R: Wait>(
    rt: &R,
    shards: &TracedShards<J>,
    hands: &mut Hands,
    key: &Key,
    is_insert: bool,
) -> bool
    requires { AreOf shards.now hands.old }
    ensures { AreOf shards.now hands.new }
{
    if is_insert {
        shards.put(rt, hands, key, &Value::empty()) == Ok(true)
    } else {
        shards.remove(rt, hands, key) == Ok(true)
    }
}

/// Waits for a message: whether its shard tells no smaller a number than the message says.
fn hear<J: FileBrand, R: Wait>(
    rt: &R,
    shards: &TracedShards<J>,
    hands: &mut Hands,
    messages: &[OnceLock<u64>],
    number: u8,
) -> bool
    requires { AreOf shards.now hands.old }
    ensures { AreOf shards.now hands.new }
{
    let Some(message) = messages.get(number as usize) else {
        return false;
    };
    let said = *message.wait(rt);
    said <= shards.told(hands, number as u32 % shards.count())
}

/// Acts in the shard of a message, and sends what that shard tells then: whether all went as it has to.
fn send<J: FileBrand, R: Wait>(
    rt: &R,
    shards: &TracedShards<J>,
    hands: &mut Hands,
    messages: &[OnceLock<u64>],
    number: u8,
) -> bool
    requires { AreOf shards.now hands.old }
    ensures { AreOf shards.now hands.new }
{
    let shard = number as u32 % shards.count();
    let Some(key) = key_of(shards, shard, number, number) else {
        return false;
    };
    let is_new = act(rt, shards, hands, &key, true);
    let told = shards.told(hands, shard);
    match messages.get(number as usize) {
        Some(message) => message.set(rt, told).is_ok() && is_new,
        None => false,
    }
}

/// Inserts a key into each shard, and deletes it, while other threads send the next three messages.
fn act_beside<J: FileBrand, R: Wait>(
    rt: &R,
    shards: &TracedShards<J>,
    hands: &mut Hands,
    number: u8,
) -> bool
    requires { AreOf shards.now hands.old }
    ensures { AreOf shards.now hands.new }
{
    let mut is_well = true;
    for shard in 0..shards.count() {
        let (first, last) = (number.wrapping_add(1), number.wrapping_add(4));
        let Some(key) = key_of(shards, shard, first, last) else {
            return false;
        };
        is_well = act(rt, shards, hands, &key, true) && is_well;
        is_well = act(rt, shards, hands, &key, false) && is_well;
    }
    is_well
}

/// Sends every fourth message, each after the one before it was heard.
fn exchange<J: FileBrand, R: Wait>(
    rt: &R,
    shards: &TracedShards<J>,
    mut hands: Hands,
    messages: &[OnceLock<u64>],
    own: u8,
) -> Finished
    requires { AreOf shards.now hands }
    ensures { AreOf shards.now result.hands }
{
    let mut is_well = true;
    for number in 0..MESSAGES {
        if number % 4 == own {
            if number > 0 {
                is_well = hear(rt, shards, &mut hands, messages, number - 1) && is_well;
            }
            is_well = send(rt, shards, &mut hands, messages, number) && is_well;
            is_well = act_beside(rt, shards, &mut hands, number) && is_well;
        }
    }
    Finished { hands, is_well }
}

/// Keeps a worker beside the others, or answers that there is no memory for it.
fn keep<'a, J: FileBrand>(
    shards: &'a TracedShards<J>,
    workers: &mut Vec<PromisedHandle<Finished, OfShards<'a, J>>>,
    worker: PromisedHandle<Finished, OfShards<'a, J>>,
) -> bool
    requires others { All (λ worker. worker.promise.0.now ≡ shards.now) workers.old.items }
    requires new { worker.promise.0.now ≡ shards.now }
    ensures { All (λ worker. worker.promise.0.now ≡ shards.now) workers.new.items }
{
    workers.push(worker).is_ok()
}

/// Waits for a worker, and joins its hands to others. None where something didn't go as it has to.
fn join<J: FileBrand, R: Threads + Wait>(
    rt: &R,
    shards: &TracedShards<J>,
    all: Hands,
    worker: PromisedHandle<Finished, OfShards<'_, J>>,
) -> Option<Hands>
    requires first { AreOf shards.now all }
    requires worker { worker.promise.0.now ≡ shards.now }
    ensures { IfSome result (AreOf shards.now) }
{
    let Finished { hands, is_well } = worker.join(rt);
    if !is_well {
        return None;
    }
    shards.join_hands(all, hands).ok()
}

/// Four threads send all messages, and their hands are joined into the first ones.
fn exchange_in_threads<J: FileBrand + Send + Sync, R: Threads + Wait + Sync>(
    rt: &R,
    alloc: Global,
    shards: &TracedShards<J>,
    hands: Hands,
    messages: &[OnceLock<u64>],
) -> Option<Hands>
    requires { AreOf shards.now hands }
    ensures { IfSome result (AreOf shards.now) }
{
    thread::scope(
        thread::scope_env(),
        rt,
        |scope| -> Option<Hands>
            requires { AreOf shards.now hands }
            ensures { IfSome result (AreOf shards.entry.now) }
        {
            let mut all = hands;
            let mut workers = Vec::new(alloc);
            for own in 0..4_u8 {
                let part = shards.split_hands(&mut all, 1_000).ok()?;
                let worker = scope
                    .spawn_with(
                        OfShards(shards),
                        move || -> Finished
                            requires { AreOf shards.now part }
                            ensures { AreOf shards.entry.now result.hands }
                        { exchange(rt, shards, part, messages, own) },
                    )
                    .ok()?;
                if !keep(shards, &mut workers, worker) {
                    return None;
                }
            }
            for worker in workers {
                all = join(rt, shards, all, worker)?;
            }
            Some(all)
        },
    )
}

/// Shards that are closed after all messages were sent. None where something didn't go as it has to.
fn exchanged<J: FileBrand + Send + Sync, R: Threads + Wait + Sync>(
    rt: &R,
    alloc: Global,
    openings: Openings<'_>,
    messages: &[OnceLock<u64>],
) -> Option<ClosedShards>
    requires { AreBrandsOf J.named J.tables openings }
    ensures { IfSome result (λ closed. length closed ≡ length openings.entry) }
{
    let (shards, hands) = openings.shards::<J>().ok()?;
    let all = exchange_in_threads(rt, alloc, &shards, hands, messages)?;
    shards.close(rt, all).ok()
}

/// Compares the stamp of an act with what its shard told for a message: an act that was made after the message has no
/// smaller stamp, and one that was made before it has a smaller one. Answers whether it was made on one of these sides.
fn check_order(rt: &impl Abort, act: &ActLine, number: u8, told: u64) -> Result<bool, Fail> {
    let [first, last, _] = act.call.key().bytes() else {
        return Err(Fail::new("another key"));
    };
    if number < *first {
        expect!(rt, told <= act.stamp);
        return Ok(true);
    }
    if number >= *last {
        expect!(rt, act.stamp < told);
        return Ok(true);
    }
    Ok(false)
}

/// Compares all acts of a shard with all messages about it, and answers how many of these pairs have an order.
fn check_orders(
    rt: &impl Abort,
    history: &History,
    messages: &[OnceLock<u64>],
    shard: u8,
) -> Result<u64, Fail> {
    let mut ordered = 0_u64;
    for number in 0..MESSAGES {
        if number % 3 == shard {
            let message = messages.get(number as usize).ok_or("no such message")?;
            let told = *message.get().ok_or("a message wasn't sent")?;
            for place in 0..history.len() {
                if check_order(rt, &history.at(place), number, told)? {
                    ordered = ordered.saturating_add(1);
                }
            }
        }
    }
    Ok(ordered)
}

/// Room for all messages.
fn messages_of(alloc: Global) -> Result<Vec<OnceLock<u64>>, Fail> {
    let mut messages = Vec::new(alloc);
    for _ in 0..MESSAGES {
        messages.push(OnceLock::new())?;
    }
    Ok(messages)
}

/// How many pairs of an act and a message have an order, in the histories of all shards.
fn ordered_in(
    rt: &impl Abort,
    histories: &[History],
    messages: &[OnceLock<u64>],
) -> Result<u64, Fail> {
    expect_eq!(rt, histories.len(), 3);
    let mut ordered = 0_u64;
    for (shard, history) in histories.iter().enumerate() {
        // 20 messages, before each of which there is an act, and two acts beside each of the 60.
        expect_eq!(rt, history.len(), 140);
        ordered = ordered.saturating_add(check_orders(rt, history, messages, shard as u8)?);
    }
    Ok(ordered)
}

fn expect_ordered(
    rt: &impl Abort,
    alloc: Global,
    listings: &[Listing],
    closed: &ClosedShards,
    messages: &[OnceLock<u64>],
) -> Result<(), Fail>
    requires { length listings.now ≡ length closed.now }
{
    let histories = closed.settle(alloc, listings)?;
    // Of 3 * 140 * 20 pairs those have no order that are of two acts and a message beside which they were made.
    expect_eq!(
        rt,
        ordered_in(rt, &histories, messages)?,
        8_400 - 2 * (57 * 3 + 2 + 1)
    );
    Ok(())
}

/// Each thread hears of one shard from the thread before it, acts in the next shard, and tells the next thread of that.
/// No shard knows of another one, but whatever was done before a message has stamps below the number that it says, in
/// the history of its shard, and whatever was done after it has none of those.
#[test]
fn told_numbers_order_acts_of_two_shards(rt: HostRuntime) -> Result<(), Fail> {
    let alloc = rt.alloc();
    let messages = messages_of(alloc)?;
    let listings = empty_listings(alloc, Config::new(1, 2, 100, 1_024)?, 3)?;
    let openings = Openings::of(alloc, &listings, true)?;
    let closed = exchanged::<Brand, _>(&rt, alloc, openings, &messages).ok_or("a call went wrong")?;
    expect_ordered(&rt, alloc, &listings, &closed, &messages)
}
