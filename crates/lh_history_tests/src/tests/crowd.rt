//! Eight threads on one traced file, under a gate at which each call lets others go first.
ghost use Rattle.std.specs.Prelude.{◌≡◌, true, false, All, IfSome};
ghost use Rattle.lh_file.specs.Buckets.Brands.{IsBrandOf};
ghost use Rattle.lh_file.specs.FileState.{IsOf};
ghost use Rattle.lh_history_tests.specs.Crowds.{IsFree};

use super::ended::{Ended, File, close};
use lh_addr::Config;
use lh_bucket::{Call, Listing};
use lh_expect::{expect, expect_eq};
use lh_file::{FileBrand, Hand, Opening, Right};
use lh_page::{Key, Value};
use lh_stage::GiveWay;
use std::alloc::Global;
use std::marker::Brand;
use std::sync::Wait;
use std::test::Fail;
use std::thread;
use std::thread::{Promise, PromisedHandle, Threads};

/// A hand that has done its share, whether each of its calls was answered and told from then on, and beside how many of
/// them others acted.
#[derive(Drop)]
struct Finished {
    hand: Hand,
    is_well: bool,
    beside: u64,
}

/// The hand that comes back is one of this file, and hasn't the right to split.
#[derive(Clone, Copy)]
struct OfCrowd<'a, J: FileBrand>(&'a File<GiveWay, J>);

impl<'a, J: FileBrand> Promise<Finished> for OfCrowd<'a, J> {
    ghost kept_by = { λ file finished. IsFree file.0.now.state finished.hand };
}

/// The call of a turn: an insert, a search, a replace or a delete by one of fifty keys. All threads use the same keys,
/// each in an order of its own.
fn call_of(first: u32, turn: u32) -> Option<Call> {
    let place = turn.wrapping_mul(7).wrapping_add(first.wrapping_mul(11));
    let key = Key::new(&(place % 50).to_be_bytes()).ok()?;
    let value = Value::new(&first.to_be_bytes()).ok()?;
    Some(match place / 50 % 5 {
        0 | 1 => Call::Insert(key, value),
        2 => Call::Search(key),
        3 => Call::Replace(key, value),
        _ => Call::Delete(key),
    })
}

/// Makes the call of a turn: how many acts more are told than before it, which are none where it wasn't answered.
fn take_turn<J: FileBrand, R: Wait>(
    rt: &R,
    file: &File<GiveWay, J>,
    hand: &mut Hand,
    first: u32,
    turn: u32,
) -> u64
    requires { IsFree file.now.state hand.old }
    ensures { IsFree file.now.state hand.new }
{
    let Some(call) = call_of(first, turn) else {
        return 0;
    };
    let told = file.told(hand);
    let answer = match call {
        Call::Search(key) => file.search(rt, hand, key),
        Call::Insert(key, value) => file.insert(rt, hand, key, value),
        Call::Delete(key) => file.delete(rt, hand, key),
        Call::Replace(key, value) => file.replace(rt, hand, key, value),
    };
    if answer.is_err() {
        return 0;
    }
    file.told(hand).saturating_sub(told)
}

/// Splits a bucket, where the right to do so is there to be got.
fn grow<J: FileBrand, R: Wait>(rt: &R, file: &File<GiveWay, J>, hand: &mut Hand) -> bool
    requires { IsFree file.now.state hand.old }
    ensures { IsFree file.now.state hand.new }
{
    if let Right::Got { .. } = file.try_split_right(hand) {
        return file.split(rt, hand).is_ok();
    }
    true
}

/// Makes two thousand calls, and asks for a split after each sixteenth.
fn share<J: FileBrand, R: Wait>(
    rt: &R,
    file: &File<GiveWay, J>,
    mut hand: Hand,
    first: u32,
) -> Finished
    requires { IsFree file.now.state hand }
    ensures { IsFree file.now.state result.hand }
{
    let mut is_well = true;
    let mut beside = 0_u64;
    for turn in 0..2000_u32 {
        let acts = take_turn(rt, file, &mut hand, first, turn);
        is_well = acts > 0 && is_well;
        if acts > 1 {
            beside = beside.saturating_add(1);
        }
        if turn % 16 == 0 {
            is_well = grow(rt, file, &mut hand) && is_well;
        }
    }
    Finished {
        hand,
        is_well,
        beside,
    }
}

/// Keeps a worker beside the others, or answers that there is no memory for it.
fn keep<'a, J: FileBrand>(
    file: &'a File<GiveWay, J>,
    workers: &mut Vec<PromisedHandle<Finished, OfCrowd<'a, J>>>,
    worker: PromisedHandle<Finished, OfCrowd<'a, J>>,
) -> bool
    requires others { All (λ worker. worker.promise.0.now.state ≡ file.now.state) workers.old.items }
    requires new { worker.promise.0.now.state ≡ file.now.state }
    ensures { All (λ worker. worker.promise.0.now.state ≡ file.now.state) workers.new.items }
{
    workers.push(worker).is_ok()
}

/// Waits for a worker, adds up the calls beside which others acted, and makes one hand of its hand and another one. None
/// where one of its calls went wrong.
fn join<J: FileBrand, R: Threads + Wait>(
    rt: &R,
    file: &File<GiveWay, J>,
    hand: Hand,
    worker: PromisedHandle<Finished, OfCrowd<'_, J>>,
    all_beside: &mut u64,
) -> Option<Hand>
    requires hand { IsOf file.now.state hand }
    requires worker { worker.promise.0.now.state ≡ file.now.state }
    ensures { IfSome result (IsOf file.now.state) }
{
    let Finished {
        hand: part,
        is_well,
        beside,
    } = worker.join(rt);
    *all_beside = all_beside.saturating_add(beside);
    if !is_well {
        return None;
    }
    file.join_hands(hand, part).ok()
}

/// Eight threads do their shares at once.
fn shares<J: FileBrand + Send + Sync, R: Threads + Wait + Sync>(
    rt: &R,
    alloc: Global,
    file: &File<GiveWay, J>,
    hand: Hand,
) -> Option<Finished>
    requires { IsOf file.now.state hand }
    ensures { IfSome result (λ all. IsOf file.now.state all.hand) }
{
    thread::scope(
        thread::scope_env(),
        rt,
        |scope| -> Option<Finished>
            requires { IsOf file.now.state hand }
            ensures { IfSome result (λ all. IsOf file.entry.now.state all.hand) }
        {
            let mut all = hand;
            let mut workers = Vec::new(alloc);
            for first in 0..8_u32 {
                let part = file.split_hand(&mut all, 2000).ok()?;
                let worker = scope
                    .spawn_with(
                        OfCrowd(file),
                        move || -> Finished
                            requires { IsFree file.now.state part }
                            ensures { IsFree file.entry.now.state result.hand }
                        { share(rt, file, part, first) },
                    )
                    .ok()?;
                if !keep(file, &mut workers, worker) {
                    return None;
                }
            }
            let mut beside = 0_u64;
            for worker in workers {
                all = join(rt, file, all, worker, &mut beside)?;
            }
            Some(Finished {
                hand: all,
                is_well: true,
                beside,
            })
        },
    )
}

/// What a file tells that is closed after eight threads have done their shares, and beside how many calls others acted.
fn crowded<J: FileBrand + Send + Sync, R: Threads + Wait + Sync>(
    rt: &R,
    alloc: Global,
    listing: &Listing,
    opening: Opening<'_, GiveWay>,
) -> Option<(Ended, u64)>
    requires { IsBrandOf true J.named J.tables opening }
{
    let (file, hand) = opening.file::<J>().ok()?;
    let all = shares(rt, alloc, &file, hand)?;
    Some((close(rt, alloc, listing, file, all.hand)?, all.beside))
}

/// Beside so many calls others act, before enough was tried.
const ENOUGH: u64 = 100_000;

/// All calls are told in the midst, and are one history at the end; settling the recorded acts says the same. A round has
/// 16,000 calls, and most have others that act beside them.
#[test]
fn eight_threads_leave_one_history_until_enough_met(rt: HostRuntime) -> Result<(), Fail> {
    let alloc = rt.alloc();
    let listing = Listing::empty(alloc, Config::new(1, 1, 100, 65536)?)?;
    let mut beside = 0_u64;
    for _ in 0..100 {
        let opening = Opening::of(alloc, &listing, true, GiveWay)?;
        let (ended, more) = crowded::<Brand, _>(&rt, alloc, &listing, opening).ok_or(
            "a call went wrong",
        )?;
        let due = Ended {
            told: 16_000,
            gathered: true,
            records: ended.records,
            settled: Some(16_000),
        };
        expect_eq!(rt; ended, due);
        expect!(&rt, ended.records <= 50);
        beside = beside.saturating_add(more);
        if beside >= ENOUGH {
            return Ok(());
        }
    }
    Err(Fail::from("others acted beside too few calls"))
}
