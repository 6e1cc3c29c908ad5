//! Searches, inserts, deletes and replaces, each made once more where memory was refused.
ghost use Rattle.lh_file.specs.FileState.{IsOf};

use super::lean::lean_as;
use super::rights::split_if_free;
use super::tasks::Task;
use lh_bucket::Call;
use lh_file::{FileBrand, Gate, Hand, HashFile, Mode};
use lh_page::{Key, Value};
use lh_stage::{REFUSED, Told, asked};
use std::sync::Wait;

/// The keys that tests look for, at least one of each bucket of a file that began with one, two or four buckets and has
/// at most eight.
pub(crate) const LETTERS: [u8; 8] = *b"abcdefgh";

/// Makes a call, and once more where memory was refused.
fn asked_again<G: Gate, M: Mode, J: FileBrand, R: Wait>(
    rt: &R,
    file: &HashFile<G, M, J>,
    hand: &mut Hand,
    call: &Call,
) -> Told
    requires { IsOf file.now.state hand.old }
    ensures { IsOf file.now.state hand.new }
{
    let told = asked(rt, file, hand, call);
    if told == REFUSED {
        return asked(rt, file, hand, call);
    }
    told
}

/// The call of a task by a letter.
pub(crate) fn call_of(task: Task) -> Option<Call> {
    let (Task::Insert(letter)
    | Task::Search(letter)
    | Task::Delete(letter)
    | Task::Replace(letter)
    | Task::Set(letter, _)) = task
    else {
        return None;
    };
    let key = Key::new(&[letter]).ok()?;
    Some(match task {
        Task::Insert(_) => Call::Insert(key, Value::new(b"1").ok()?),
        Task::Delete(_) => Call::Delete(key),
        Task::Replace(_) => Call::Replace(key, Value::new(b"2").ok()?),
        Task::Set(_, value) => Call::Replace(key, Value::new(&[value]).ok()?),
        _ => Call::Search(key),
    })
}

/// Makes the call of a task by a letter.
pub(crate) fn call<G: Gate, M: Mode, J: FileBrand, R: Wait>(
    rt: &R,
    file: &HashFile<G, M, J>,
    hand: &mut Hand,
    task: Task,
) -> Told
    requires { IsOf file.now.state hand.old }
    ensures { IsOf file.now.state hand.new }
{
    match call_of(task) {
        Some(call) => asked_again(rt, file, hand, &call),
        None => Told::Wrong,
    }
}

/// Inserts the eight letters: whether each was inserted.
pub(crate) fn fill<G: Gate, M: Mode, J: FileBrand, R: Wait>(
    rt: &R,
    file: &HashFile<G, M, J>,
    hand: &mut Hand,
) -> bool
    requires { IsOf file.now.state hand.old }
    ensures { IsOf file.now.state hand.new }
{
    for letter in LETTERS {
        if call(rt, file, hand, Task::Insert(letter)) != Told::Inserted {
            return false;
        }
    }
    true
}

/// Replaces the values of the eight letters, and finds the new ones: whether each call was answered so. Then no
/// bucket's lock is held, and in a traced file each bucket has its seat.
pub(crate) fn works_on<G: Gate, M: Mode, J: FileBrand, R: Wait>(
    rt: &R,
    file: &HashFile<G, M, J>,
    hand: &mut Hand,
) -> bool
    requires { IsOf file.now.state hand.old }
    ensures { IsOf file.now.state hand.new }
{
    for letter in LETTERS {
        let replaced = call(rt, file, hand, Task::Replace(letter));
        let found = call(rt, file, hand, Task::Search(letter));
        if replaced != Told::Replaced || found != Told::Found(b'2') {
            return false;
        }
    }
    true
}

/// The call of a turn: an insert, a search, a replace or a delete by one of forty keys, none of which is a letter. All
/// threads use the same keys, each in an order of its own.
fn drawn(number: u32, turn: u32) -> Option<Call> {
    let place = turn.wrapping_mul(7).wrapping_add(number.wrapping_mul(11));
    let key = Key::new(&[(place % 40) as u8]).ok()?;
    let value = Value::new(&turn.to_be_bytes()).ok()?;
    Some(match place / 40 % 5 {
        0 | 1 => Call::Insert(key, value),
        2 => Call::Search(key),
        3 => Call::Replace(key, value),
        _ => Call::Delete(key),
    })
}

/// Makes a hundred calls, every third as one makes it of a map, and asks for a split after each eighth: whether each
/// call was answered.
pub(crate) fn draw_calls<G: Gate, M: Mode, J: FileBrand, R: Wait>(
    rt: &R,
    file: &HashFile<G, M, J>,
    hand: &mut Hand,
    number: u32,
) -> bool
    requires { IsOf file.now.state hand.old }
    ensures { IsOf file.now.state hand.new }
{
    for turn in 0..100_u32 {
        let Some(call) = drawn(number, turn) else {
            return false;
        };
        let told = if turn % 3 == 0 {
            lean_as(rt, file, hand, &call)
        } else {
            asked_again(rt, file, hand, &call)
        };
        if let Told::Fault(_) = told {
            return false;
        }
        if turn % 8 == 0 && !split_if_free(rt, file, hand) {
            return false;
        }
    }
    true
}
