//! Memory that is refused to calls that read and write in one act, of untraced files and of traced ones: nothing has
//! changed then, and the same call is answered when it is made again.
ghost use Rattle.std.specs.Prelude.{◌≡◌, true, IfOk};
ghost use Rattle.lh_file.specs.Buckets.Brands.{IsBrandOf};
ghost use Rattle.lh_file.specs.FileState.{IsOf};

use lh_addr::Config;
use lh_bucket::Listing;
use lh_expect::expect_eq;
use lh_file::{
    Compared, FileBrand, FileFault, Hand, HashFile, Memory, Mode, NoGate, Opening, Traced, settle,
};
use lh_page::{Key, Value};
use lh_stage::made_again;
use std::alloc::Global;
use std::marker::Brand;
use std::sync::Wait;
use std::test::Fail;

/// A call that reads and writes in one act.
#[derive(Clone, Copy)]
enum Task {
    Upsert,
    GetOrPut,
    Take,
    Update,
    Merge,
    CompareAndSet,
}

/// What it tells.
#[derive(Clone, Copy, PartialEq, Eq)]
enum Told {
    IsNew(bool),
    IsThere(bool),
    Was(Option<Value>),
    Compared(Compared),
}

/// The value of a digit.
fn digit(number: u8) -> Value {
    Value::new(&[number]).unwrap_or(Value::empty())
}

/// The value of the next digit.
fn next(bytes: &[u8]) -> Value {
    digit(bytes.first().map_or(0, |&number| number.wrapping_add(1)))
}

/// Makes the call of a task.
fn made<M: Mode, J: FileBrand, R: Wait>(
    rt: &R,
    file: &HashFile<NoGate, M, J>,
    hand: &mut Hand,
    task: Task,
    key: &Key,
) -> Result<Told, FileFault>
    requires { IsOf file.now.state hand.old }
    ensures { IsOf file.now.state hand.new }
{
    let (one, two, seven) = (digit(1), digit(2), digit(7));
    match task {
        Task::Upsert => file.upsert(rt, hand, key, &one).map(Told::IsNew),
        Task::GetOrPut => file.get_or_put(rt, hand, key, &one).map(Told::Was),
        Task::Take => file.take(rt, hand, key).map(Told::Was),
        Task::Update => file.update(rt, hand, key, next).map(Told::IsThere),
        Task::Merge => file.merge(rt, hand, key, &one, next).map(Told::IsNew),
        Task::CompareAndSet => file
            .compare_and_set(rt, hand, key, &two, &seven)
            .map(Told::Compared),
    }
}

/// The value under a key, looked for once more where memory was refused.
fn found<M: Mode, J: FileBrand, R: Wait>(
    rt: &R,
    file: &HashFile<NoGate, M, J>,
    hand: &mut Hand,
    key: &Key,
) -> Result<Option<Value>, FileFault>
    requires { IsOf file.now.state hand.old }
    ensures { IsOf file.now.state hand.new }
{
    match file.get(rt, hand, key) {
        Err(FileFault::Memory) => file.get(rt, hand, key),
        found => found,
    }
}

/// Makes a call, and once more where memory was refused: its key has the value then that it had before, and the hand its
/// calls and its right. None where that isn't so, or what is told isn't what is due.
fn made_again_if_refused<M: Mode, J: FileBrand, R: Wait>(
    rt: &R,
    file: &HashFile<NoGate, M, J>,
    hand: &mut Hand,
    task: Task,
    key: &Key,
    due: Told,
) -> Option<()>
    requires { IsOf file.now.state hand.old }
    ensures { IsOf file.now.state hand.new }
{
    let before = found(rt, file, hand, key).ok()?;
    let (left, right) = (hand.left(), hand.has_right());
    let mut told = made(rt, file, hand, task, key);
    if told == Err(FileFault::Memory) {
        let is_same = (hand.left(), hand.has_right()) == (left, right);
        if !is_same || found(rt, file, hand, key) != Ok(before) {
            return None;
        }
        told = made(rt, file, hand, task, key);
    }
    if told == Ok(due) { Some(()) } else { None }
}

/// All calls by one key, which isn't there before and is afterwards.
fn made_by_key<M: Mode, J: FileBrand, R: Wait>(
    rt: &R,
    file: &HashFile<NoGate, M, J>,
    hand: &mut Hand,
    key: &Key,
) -> Option<()>
    requires { IsOf file.now.state hand.old }
    ensures { IsOf file.now.state hand.new }
{
    let due = [
        (Task::Take, Told::Was(None)),
        (Task::Update, Told::IsThere(false)),
        (Task::CompareAndSet, Told::Compared(Compared::Absent)),
        (Task::Merge, Told::IsNew(true)),
        (Task::CompareAndSet, Told::Compared(Compared::Differs)),
        (Task::Merge, Told::IsNew(false)),
        (Task::CompareAndSet, Told::Compared(Compared::Replaced)),
        (Task::GetOrPut, Told::Was(Some(digit(7)))),
        (Task::Upsert, Told::IsNew(false)),
        (Task::Take, Told::Was(Some(digit(1)))),
        (Task::GetOrPut, Told::Was(None)),
        (Task::Update, Told::IsThere(true)),
        (Task::Take, Told::Was(Some(digit(2)))),
        (Task::Upsert, Told::IsNew(true)),
    ];
    for (task, told) in due {
        made_again_if_refused(rt, file, hand, task, key, told)?;
    }
    Some(())
}

/// All calls by each of eight keys.
fn made_by_keys<M: Mode, J: FileBrand, R: Wait>(
    rt: &R,
    file: &HashFile<NoGate, M, J>,
    hand: &mut Hand,
) -> Option<()>
    requires { IsOf file.now.state hand.old }
    ensures { IsOf file.now.state hand.new }
{
    for letter in b"abcdefgh" {
        made_by_key(rt, file, hand, &Key::new(&[*letter]).ok()?)?;
    }
    Some(())
}

/// All calls by each of eight keys, in a file with one record to a page, which is then closed and settled: how many
/// records it has. None where a call went wrong.
fn used<M: Mode, J: FileBrand, R: Wait>(
    rt: &R,
    alloc: Global,
    listing: &Listing,
    file: HashFile<NoGate, M, J>,
    mut hand: Hand,
) -> Option<Result<u64, Memory>>
    requires { IsOf file.state hand }
{
    made_by_keys(rt, &file, &mut hand)?;
    let (closed, acts) = match file.close(rt, hand) {
        Ok(closed) => closed,
        Err(Memory) => return Some(Err(Memory)),
    };
    match settle(alloc, listing, &closed, &acts) {
        Ok(_) => Some(Ok(closed.records())),
        Err(_) => Some(Err(Memory)),
    }
}

/// The same in a traced file.
fn used_traced<J: FileBrand, R: Wait>(
    rt: &R,
    alloc: Global,
    listing: &Listing,
    opening: Opening<'_, NoGate>,
) -> Option<Result<u64, Memory>>
    requires { IsBrandOf true J.named J.tables opening }
{
    match opening.file::<J>() {
        Ok((file, hand)) => used::<Traced, J, R>(rt, alloc, listing, file, hand),
        Err(Memory) => Some(Err(Memory)),
    }
}

/// One untraced file, and one traced one. None where a call went wrong.
fn use_both<R: Wait>(rt: &R, alloc: Global) -> Option<Result<[u64; 2], Memory>> {
    let config = Config::new(1, 1, 100, 65536).ok()?;
    let (Ok(listing), Ok((file, hand))) = (Listing::empty(alloc, config), made_again(alloc, config))
    else {
        return Some(Err(Memory));
    };
    let Ok(untraced) = used(rt, alloc, &listing, file, hand)? else {
        return Some(Err(Memory));
    };
    let Ok(opening) = Opening::of(alloc, &listing, true, NoGate) else {
        return Some(Err(Memory));
    };
    let traced = used_traced::<Brand, R>(rt, alloc, &listing, opening)?;
    Some(traced.map(|traced| [untraced, traced]))
}

/// Where what is refused takes the file along, other files are used.
#[test]
fn refused_calls_change_nothing(rt: HostRuntime) -> Result<(), Fail> {
    let used = match use_both(&rt, rt.alloc()).ok_or("a call went wrong")? {
        Ok(used) => used,
        Err(Memory) => use_both(&rt, rt.alloc()).ok_or("a call went wrong")??,
    };
    expect_eq!(rt; used, [8, 8]);
    Ok(())
}
