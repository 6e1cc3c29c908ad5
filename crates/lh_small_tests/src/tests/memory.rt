//! Memory that is refused: run with each request for it refused in turn, one in each run. A call that was refused has
//! changed nothing, and is answered when it is made again.
ghost use Rattle.std.specs.Prelude.{◌≡◌, ◌≤◌, true, length, IfSome};
ghost use Rattle.lh_file.specs.Buckets.Brands.{IsBrandOf};
ghost use Rattle.lh_file.specs.Buckets.Rooms.{FitListing};
ghost use Rattle.lh_file.specs.FileState.{IsOf};

use super::made::{Plain, Small, empty, key_of, one_more, value_of};
use lh_bucket::Listing;
use lh_expect::expect_eq;
use lh_file::{
    Compared, FileBrand, FileFault, Hand, Memory, Mode, NoGate, Opening, SettleFault, settle,
};
use lh_page::{Key, Value};
use std::alloc::Global;
use std::marker::Brand;
use std::sync::Wait;
use std::test::Fail;

/// A call by a key.
#[derive(Clone, Copy)]
enum Task {
    Put,
    Set,
    Upsert,
    GetOrPut,
    Take,
    Update,
    Merge,
    CompareAndSet,
}

/// What it tells.
#[derive(Clone, Copy, PartialEq, Eq)]
enum Told {
    Is(bool),
    Was(Option<Value>),
    Compared(Compared),
}

/// Makes the call of a task.
fn made<M: Mode, J: FileBrand, R: Wait>(
    rt: &R,
    file: &Small<M, J>,
    hand: &mut Hand,
    task: Task,
    key: &Key,
) -> Result<Told, FileFault>
    requires of { IsOf file.now.state hand.old }
    requires short { length key.now ≤ 24 }
    ensures { IsOf file.now.state hand.new }
{
    let (one, two, seven) = (value_of(1), value_of(2), value_of(7));
    match task {
        Task::Put => file.put(rt, hand, key, &one).map(Told::Is),
        Task::Set => file.set(rt, hand, key, &two).map(Told::Is),
        Task::Upsert => file.upsert(rt, hand, key, &one).map(Told::Is),
        Task::GetOrPut => file.get_or_put(rt, hand, key, &one).map(Told::Was),
        Task::Take => file.take(rt, hand, key).map(Told::Was),
        Task::Update => file.update(rt, hand, key, one_more).map(Told::Is),
        Task::Merge => file.merge(rt, hand, key, &one, one_more).map(Told::Is),
        Task::CompareAndSet => file
            .compare_and_set(rt, hand, key, &two, &seven)
            .map(Told::Compared),
    }
}

/// The value under a key, looked for once more where memory was refused.
fn found<M: Mode, J: FileBrand, R: Wait>(
    rt: &R,
    file: &Small<M, J>,
    hand: &mut Hand,
    key: &Key,
) -> Result<Option<Value>, FileFault>
    requires { IsOf file.now.state hand.old }
    ensures { IsOf file.now.state hand.new }
{
    match file.get(rt, hand, key) {
        Err(FileFault::Memory) => file.get(rt, hand, key),
        found => found,
    }
}

/// Makes a call, and once more where memory was refused: its key has the value then that it had before, and the hand its
/// calls and its right. Says whether that is so, and what is told is what is due.
fn is_told<M: Mode, J: FileBrand, R: Wait>(
    rt: &R,
    file: &Small<M, J>,
    hand: &mut Hand,
    task: Task,
    key: &Key,
    due: Told,
) -> bool
    requires of { IsOf file.now.state hand.old }
    requires short { length key.now ≤ 24 }
    ensures { IsOf file.now.state hand.new }
{
    let before = found(rt, file, hand, key);
    let (left, right) = (hand.left(), hand.has_right());
    let mut told = made(rt, file, hand, task, key);
    if told == Err(FileFault::Memory) {
        if (hand.left(), hand.has_right()) != (left, right)
            || found(rt, file, hand, key) != before
        {
            return false;
        }
        told = made(rt, file, hand, task, key);
    }
    told == Ok(due)
}

/// All calls by one key, which isn't there before and is afterwards. Says whether all were told what is due.
fn are_told<M: Mode, J: FileBrand, R: Wait>(
    rt: &R,
    file: &Small<M, J>,
    hand: &mut Hand,
    key: &Key,
) -> bool
    requires of { IsOf file.now.state hand.old }
    requires short { length key.now ≤ 24 }
    ensures { IsOf file.now.state hand.new }
{
    for (task, due) in [
        (Task::Take, Told::Was(None)),
        (Task::Update, Told::Is(false)),
        (Task::Set, Told::Is(false)),
        (Task::Merge, Told::Is(true)),
        (Task::CompareAndSet, Told::Compared(Compared::Differs)),
        (Task::Merge, Told::Is(false)),
        (Task::CompareAndSet, Told::Compared(Compared::Replaced)),
        (Task::GetOrPut, Told::Was(Some(value_of(7)))),
        (Task::Update, Told::Is(true)),
        (Task::Put, Told::Is(false)),
        (Task::Take, Told::Was(Some(value_of(8)))),
        (Task::CompareAndSet, Told::Compared(Compared::Absent)),
        (Task::Put, Told::Is(true)),
        (Task::Set, Told::Is(true)),
        (Task::Take, Told::Was(Some(value_of(2)))),
        (Task::GetOrPut, Told::Was(None)),
        (Task::Upsert, Told::Is(false)),
        (Task::Take, Told::Was(Some(value_of(1)))),
        (Task::Upsert, Told::Is(true)),
    ] {
        if !is_told(rt, file, hand, task, key, due) {
            return false;
        }
    }
    true
}

/// How many records a snapshot has, which is taken once more where memory was refused.
fn records_in_snapshot<M: Mode, J: FileBrand, R: Wait>(
    rt: &R,
    file: &Small<M, J>,
    hand: &mut Hand,
) -> Option<u64>
    requires { IsOf file.now.state hand.old }
    ensures { IsOf file.now.state hand.new }
{
    let snapshot = match file.snapshot(rt, hand) {
        Err(FileFault::Memory) => file.snapshot(rt, hand),
        snapshot => snapshot,
    };
    Some(snapshot.ok()?.records())
}

/// All calls by each of eight keys, and a snapshot after those of a key. None where something went otherwise than it has
/// to.
fn filled<M: Mode, J: FileBrand, R: Wait>(
    rt: &R,
    file: &Small<M, J>,
    mut hand: Hand,
) -> Option<Hand>
    requires { IsOf file.now.state hand }
    ensures { IfSome result (IsOf file.now.state) }
{
    for number in 0..8_u8 {
        let key = key_of(0, number).ok()?;
        if !are_told(rt, file, &mut hand, &key)
            || records_in_snapshot(rt, file, &mut hand)? != u64::from(number) + 1
        {
            return None;
        }
    }
    Some(hand)
}

/// How many records a file has that is used, closed and settled with all its acts. None where something went otherwise
/// than it has to.
fn used<M: Mode, J: FileBrand, R: Wait>(
    rt: &R,
    alloc: Global,
    listing: &Listing,
    file: Small<M, J>,
    hand: Hand,
) -> Option<Result<u64, Memory>>
    requires { IsOf file.state hand }
{
    let hand = filled(rt, &file, hand)?;
    let Ok((closed, acts)) = file.close(rt, hand) else {
        return Some(Err(Memory));
    };
    match settle(alloc, listing, &closed, &acts) {
        Ok(history) if history.len() as u64 == closed.stamps() => Some(Ok(closed.records())),
        Err(SettleFault::Memory) => Some(Err(Memory)),
        _ => None,
    }
}

/// The same of an untraced file.
fn used_plain<R: Wait>(rt: &R, alloc: Global, listing: &Listing) -> Option<Result<u64, Memory>>
    requires { FitListing 32 listing.now }
{
    match Plain::open_from(alloc, listing, true, NoGate) {
        Ok((file, hand)) => used(rt, alloc, listing, file, hand),
        Err(Memory) => Some(Err(Memory)),
    }
}

/// The same of a traced one that is being opened.
fn used_opened<J: FileBrand, R: Wait>(
    rt: &R,
    alloc: Global,
    listing: &Listing,
    opening: Opening<'_, NoGate>,
) -> Option<Result<u64, Memory>>
    requires brand { IsBrandOf true J.named J.tables opening }
    requires fits { FitListing 32 opening.listing }
{
    match opening.sized_file::<J, 32>() {
        Ok((file, hand)) => used(rt, alloc, listing, file, hand),
        Err(Memory) => Some(Err(Memory)),
    }
}

/// The same of a traced one.
fn used_traced<R: Wait>(rt: &R, alloc: Global, listing: &Listing) -> Option<Result<u64, Memory>>
    requires { FitListing 32 listing.now }
{
    match Opening::of(alloc, listing, true, NoGate) {
        Ok(opening) => used_opened::<Brand, R>(rt, alloc, listing, opening),
        Err(Memory) => Some(Err(Memory)),
    }
}

/// Where what is refused takes the file along, another one is used.
#[test]
fn refused_calls_change_nothing(rt: HostRuntime) -> Result<(), Fail> {
    let listing = empty(rt.alloc())?;
    let mut used = used_plain(&rt, rt.alloc(), &listing);
    if used == Some(Err(Memory)) {
        used = used_plain(&rt, rt.alloc(), &listing);
    }
    expect_eq!(rt; used, Some(Ok(8)));
    Ok(())
}

#[test]
fn refused_calls_change_nothing_in_a_traced_file(rt: HostRuntime) -> Result<(), Fail> {
    let listing = empty(rt.alloc())?;
    let mut used = used_traced(&rt, rt.alloc(), &listing);
    if used == Some(Err(Memory)) {
        used = used_traced(&rt, rt.alloc(), &listing);
    }
    expect_eq!(rt; used, Some(Ok(8)));
    Ok(())
}
