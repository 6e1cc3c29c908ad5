//! Tasks for hands, as data, and what comes of them.
ghost use Rattle.lh_file.specs.FileState.{IsOf};

use crate::progress::Progress;
use lh_bucket::{Call, Reply};
use lh_file::{FileBrand, FileFault, Gate, Hand, HashFile, Mode, Right};
use lh_page::{Key, Value};
use std::sync::Wait;

/// What a hand is to do. The key of a call is one letter, and its value a 1, but that of a replace a 2.
#[derive(Clone, Copy)]
pub enum Task {
    Insert(u8),
    Search(u8),
    Delete(u8),
    Replace(u8),
    Buckets,
    Inserted,
    Deleted,
    TryRight,
    DropRight,
    Split,
    Reach(u64),
    Wait(u64),
}

/// What came of it.
#[derive(Clone, Copy, Debug, PartialEq, Eq)]
pub enum Told {
    /// The only byte of the value that was found.
    Found(u8),
    Absent,
    Inserted,
    Exists,
    Deleted,
    Replaced,
    Fault(FileFault),
    Number(u64),
    /// How many inserts have added a record, and how many deletes have removed one.
    Load(u64, u64),
    Right(Right),
    Done,
    /// Something else than what a task is about.
    Wrong,
}

/// The answer to a call for which there was no memory.
pub const REFUSED: Told = Told::Fault(FileFault::Memory);

/// The right to split a file that began with one bucket, before its first, second, third and fourth split.
pub const FIRST_RIGHT: Told = Told::Right(Right::Got { old: 0, new: 1 });

pub const SECOND_RIGHT: Told = Told::Right(Right::Got { old: 0, new: 2 });

pub const THIRD_RIGHT: Told = Told::Right(Right::Got { old: 1, new: 3 });

pub const FOURTH_RIGHT: Told = Told::Right(Right::Got { old: 0, new: 4 });

/// What a hand is told while another one has the right to split a file of one bucket.
pub const BUSY: Told = Told::Right(Right::Busy { seen: 3 });

/// Done, or wrong.
pub fn done(is_well: bool) -> Told {
    if is_well { Told::Done } else { Told::Wrong }
}

/// What is told of a value that was found.
pub fn found(value: &[u8]) -> Told {
    match value.first() {
        Some(byte) if value.len() == 1 => Told::Found(*byte),
        _ => Told::Wrong,
    }
}

/// What a reply tells.
fn telling_of(reply: Reply) -> Told {
    match reply {
        Reply::Found(value) => found(value.bytes()),
        Reply::Absent => Told::Absent,
        Reply::Inserted => Told::Inserted,
        Reply::Exists => Told::Exists,
        Reply::Deleted => Told::Deleted,
        Reply::Replaced => Told::Replaced,
    }
}

/// Makes a call.
pub fn asked<G: Gate, M: Mode, J: FileBrand, R: Wait>(
    rt: &R,
    file: &HashFile<G, M, J>,
    hand: &mut Hand,
    call: &Call,
) -> Told
    requires { IsOf file.now.state hand.old }
    ensures { IsOf file.now.state hand.new }
{
    let answer = match call {
        Call::Search(key) => file.search(rt, hand, *key),
        Call::Insert(key, value) => file.insert(rt, hand, *key, *value),
        Call::Delete(key) => file.delete(rt, hand, *key),
        Call::Replace(key, value) => file.replace(rt, hand, *key, *value),
    };
    match answer {
        Ok(answer) => telling_of(answer.reply()),
        Err(fault) => Told::Fault(fault),
    }
}

/// Makes the call of a task.
fn call<G: Gate, M: Mode, J: FileBrand, R: Wait>(
    rt: &R,
    file: &HashFile<G, M, J>,
    hand: &mut Hand,
    task: Task,
    letter: u8,
) -> Told
    requires { IsOf file.now.state hand.old }
    ensures { IsOf file.now.state hand.new }
{
    let (Ok(key), Ok(value), Ok(new)) = (Key::new(&[letter]), Value::new(b"1"), Value::new(b"2"))
    else {
        return Told::Wrong;
    };
    let call = match task {
        Task::Insert(_) => Call::Insert(key, value),
        Task::Delete(_) => Call::Delete(key),
        Task::Replace(_) => Call::Replace(key, new),
        _ => Call::Search(key),
    };
    asked(rt, file, hand, &call)
}

/// Splits, if the hand has the right.
pub fn split<G: Gate, M: Mode, J: FileBrand, R: Wait>(
    rt: &R,
    file: &HashFile<G, M, J>,
    hand: &mut Hand,
) -> Told
    requires { IsOf file.now.state hand.old }
    ensures { IsOf file.now.state hand.new }
{
    if !hand.has_right() {
        return Told::Wrong;
    }
    match file.split(rt, hand) {
        Ok(()) => Told::Done,
        Err(fault) => Told::Fault(fault),
    }
}

/// Drops the right, if the hand has it: whether it had it.
pub fn drop_right<G: Gate, M: Mode, J: FileBrand>(file: &HashFile<G, M, J>, hand: &mut Hand) -> bool
    requires { IsOf file.now.state hand.old }
    ensures { IsOf file.now.state hand.new }
{
    if !hand.has_right() {
        return false;
    }
    file.drop_right(hand);
    true
}

/// Does one task.
pub fn one<G: Gate, M: Mode, J: FileBrand, R: Wait>(
    rt: &R,
    file: &HashFile<G, M, J>,
    progress: &Progress,
    hand: &mut Hand,
    task: Task,
) -> Told
    requires { IsOf file.now.state hand.old }
    ensures { IsOf file.now.state hand.new }
{
    match task {
        Task::Insert(letter) => call(rt, file, hand, task, letter),
        Task::Search(letter) => call(rt, file, hand, task, letter),
        Task::Delete(letter) => call(rt, file, hand, task, letter),
        Task::Replace(letter) => call(rt, file, hand, task, letter),
        Task::Buckets => Told::Number(u64::from(file.buckets(hand))),
        Task::Inserted => Told::Number(file.load(hand).inserted),
        Task::Deleted => Told::Number(file.load(hand).deleted),
        Task::TryRight => try_right(file, hand),
        Task::DropRight => done(drop_right(file, hand)),
        Task::Split => split(rt, file, hand),
        Task::Reach(step) => {
            progress.reach(step);
            Told::Done
        }
        Task::Wait(step) => {
            progress.wait(step);
            Told::Done
        }
    }
}

/// Asks for the right to split.
fn try_right<G: Gate, M: Mode, J: FileBrand>(file: &HashFile<G, M, J>, hand: &mut Hand) -> Told
    requires { IsOf file.now.state hand.old }
    ensures { IsOf file.now.state hand.new }
{
    Told::Right(file.try_split_right(hand))
}
