//! Eight threads on one file.
ghost use Rattle.std.specs.Prelude.{◌≡◌, true, IfOk};
ghost use Rattle.lh_file.specs.Buckets.Brands.{IsBrandOf};
ghost use Rattle.lh_file.specs.Buckets.Rooms.{FitListing};
ghost use Rattle.lh_file.specs.FileState.{IsOf, MayBeJoined};

use super::made::{Plain, Small, empty, key_of, number_in, one_more, value_of};
use lh_bucket::Listing;
use lh_expect::expect_eq;
use lh_file::{FileBrand, Hand, Mode, NoGate, Opening, settle};
use std::alloc::Global;
use std::marker::Brand;
use std::sync::Wait;
use std::test::Fail;
use std::thread::{self, Threads};

/// How often each of eight threads takes its turn.
const TURNS: u8 = 100;

/// The number of a thread that no thread has: its keys are those of all.
const ALL: u8 = 255;

/// Adds one to a counter of all threads, which the first of them makes; puts a record of this thread's own, and adds one
/// to it; and takes a snapshot in each fiftieth turn. None where one of these wasn't told what is due.
fn turn_at<M: Mode, J: FileBrand, R: Wait>(
    rt: &R,
    file: &Small<M, J>,
    hand: &mut Hand,
    thread: u8,
    turn: u8,
) -> Option<()>
    requires { IsOf file.now.state hand.old }
    ensures { IsOf file.now.state hand.new }
{
    let (shared, own) = (key_of(ALL, turn % 5).ok()?, key_of(thread, turn).ok()?);
    let _ = file.merge(rt, hand, &shared, &value_of(1), one_more).ok()?;
    let is_new = file.put(rt, hand, &own, &value_of(0)).ok()?;
    let is_there = file.update(rt, hand, &own, one_more).ok()?;
    if turn % 50 == 0 {
        file.snapshot(rt, hand).ok()?;
    }
    if is_new && is_there { Some(()) } else { None }
}

/// All turns of one thread, as far as they are told what is due.
fn work<M: Mode, J: FileBrand, R: Wait>(rt: &R, file: &Small<M, J>, hand: &mut Hand, thread: usize)
    requires { IsOf file.now.state hand.old }
    ensures { MayBeJoined file.now.state hand.new }
{
    for turn in 0..TURNS {
        if turn_at(rt, file, hand, (thread % 8) as u8, turn).is_none() {
            break;
        }
    }
    if hand.has_right() {
        file.drop_right(hand);
    }
}

/// Eight threads at once, each with a hand of its own.
fn in_eight<M: Mode + Send + Sync, J: FileBrand + Send + Sync, R: Threads + Wait + Sync>(
    rt: &R,
    file: &Small<M, J>,
    mut hand: Hand,
) -> Result<Hand, Fail>
    requires { IsOf file.now.state hand }
    ensures { IfOk result (IsOf file.now.state) }
{
    let mut hands = file.split_hands(&mut hand, 8, 1 << 30)?;
    thread::for_each_mut(
        rt,
        &mut hands,
        8,
        &|thread: usize, hand: &mut Hand|
            requires { IsOf file.now.state hand.now }
            ensures { MayBeJoined file.entry.now.state hand.exit.now }
        { work(rt, file, hand, thread) },
    );
    Ok(file.join_all(hand, hands)?)
}

/// The number under the key of a thread's number.
fn number_at<M: Mode, J: FileBrand, R: Wait>(
    rt: &R,
    file: &Small<M, J>,
    hand: &mut Hand,
    thread: u8,
    number: u8,
) -> Result<u64, Fail>
    requires { IsOf file.now.state hand.old }
    ensures { IsOf file.now.state hand.new }
{
    let value = file.get(rt, hand, &key_of(thread, number)?)?;
    Ok(value.map_or(0, |value| number_in(value.bytes())))
}

/// The sums of the counters of all threads, and of the records of each.
fn sums<M: Mode, J: FileBrand, R: Wait>(
    rt: &R,
    file: &Small<M, J>,
    hand: &mut Hand,
) -> Result<(u64, u64), Fail>
    requires { IsOf file.now.state hand.old }
    ensures { IsOf file.now.state hand.new }
{
    let (mut shared, mut own) = (0_u64, 0_u64);
    for number in 0..5_u8 {
        shared = shared.wrapping_add(number_at(rt, file, hand, ALL, number)?);
    }
    for place in 0..800_u16 {
        let (thread, turn) = ((place / 100) as u8, (place % 100) as u8);
        own = own.wrapping_add(number_at(rt, file, hand, thread, turn)?);
    }
    Ok((shared, own))
}

/// What eight threads leave in a file, once it is closed and settled: the sums, and how many records and acts there are.
#[derive(Clone, Copy, Debug, PartialEq, Eq)]
struct Left {
    shared: u64,
    own: u64,
    records: u64,
    acts: usize,
}

fn left_in<M: Mode + Send + Sync, J: FileBrand + Send + Sync, R: Threads + Wait + Sync>(
    rt: &R,
    alloc: Global,
    listing: &Listing,
    file: Small<M, J>,
    hand: Hand,
) -> Result<Left, Fail>
    requires { IsOf file.state hand }
{
    let mut hand = in_eight(rt, &file, hand)?;
    let (shared, own) = sums(rt, &file, &mut hand)?;
    let (closed, acts) = file.close(rt, hand)?;
    Ok(Left {
        shared,
        own,
        records: closed.records(),
        acts: settle(alloc, listing, &closed, &acts)?.len(),
    })
}

/// The same of a traced file that is being opened.
fn left_in_opened<J: FileBrand + Send + Sync, R: Threads + Wait + Sync>(
    rt: &R,
    alloc: Global,
    listing: &Listing,
    opening: Opening<'_, NoGate>,
) -> Result<Left, Fail>
    requires brand { IsBrandOf true J.named J.tables opening }
    requires fits { FitListing 32 opening.listing }
{
    let (file, hand) = opening.sized_file::<J, 32>()?;
    left_in(rt, alloc, listing, file, hand)
}

/// Each thread makes 300 calls, and the sums take 805 more.
const DUE: Left = Left {
    shared: 800,
    own: 800,
    records: 805,
    acts: 3205,
};

#[test]
fn eight_threads_lose_nothing(rt: HostRuntime) -> Result<(), Fail> {
    let listing = empty(rt.alloc())?;
    let (file, hand) = Plain::open_from(rt.alloc(), &listing, true, NoGate)?;
    expect_eq!(&rt, left_in(&rt, rt.alloc(), &listing, file, hand)?, DUE);
    Ok(())
}

#[test]
fn eight_threads_lose_nothing_of_a_traced_file(rt: HostRuntime) -> Result<(), Fail> {
    let listing = empty(rt.alloc())?;
    let opening = Opening::of(rt.alloc(), &listing, true, NoGate)?;
    let left = left_in_opened::<Brand, _>(&rt, rt.alloc(), &listing, opening)?;
    expect_eq!(rt; left, DUE);
    Ok(())
}
