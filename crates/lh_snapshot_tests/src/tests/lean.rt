//! Calls as one makes them of a map.
ghost use Rattle.lh_file.specs.FileState.{IsOf};

use super::scene::{ONE_BUCKET, Scene, perform};
use super::tasks::Task;
use lh_bucket::Call;
use lh_file::{Coded, CodedKey, FileBrand, FileFault, Gate, Hand, HashFile, Mode};
use lh_page::{Key, Value};
use lh_stage::{Told, found};
use std::sync::Wait;
use std::test::Fail;

/// A call without an answer. A put has the value 1, and a set the value 2.
#[derive(Clone, Copy)]
pub(crate) enum Lean {
    Get,
    ReadInto,
    WithValue,
    Put,
    Set,
    Remove,
}

/// One of two answers.
fn either(is_first: bool, first: Told, second: Told) -> Told {
    if is_first { first } else { second }
}

/// Reads a value over one that is there, which stays where the key is absent.
fn read<K: Coded, G: Gate, M: Mode, J: FileBrand, R: Wait>(
    rt: &R,
    file: &HashFile<G, M, J>,
    hand: &mut Hand,
    key: &K,
) -> Result<Told, FileFault>
    requires { IsOf file.now.state hand.old }
    ensures { IsOf file.now.state hand.new }
{
    let mut value = Value::empty();
    value.set(b"unread");
    if file.read_into(rt, hand, key, &mut value)? {
        return Ok(found(value.bytes()));
    }
    let is_unread = value.bytes() == b"unread".as_slice();
    Ok(either(is_unread, Told::Absent, Told::Wrong))
}

/// Makes a call by a key.
fn make_lean<K: Coded, G: Gate, M: Mode, J: FileBrand, R: Wait>(
    rt: &R,
    file: &HashFile<G, M, J>,
    hand: &mut Hand,
    call: Lean,
    key: &K,
    value: &Value,
) -> Result<Told, FileFault>
    requires { IsOf file.now.state hand.old }
    ensures { IsOf file.now.state hand.new }
{
    Ok(match call {
        Lean::Get => match file.get(rt, hand, key)? {
            Some(value) => found(value.bytes()),
            None => Told::Absent,
        },
        Lean::ReadInto => read(rt, file, hand, key)?,
        Lean::WithValue => {
            let told = file.with_value(rt, hand, key, |bytes: &[u8]| {
                // A closure may rely on the length that values have.
                let _length = bytes.len() as u8;
                found(bytes)
            })?;
            told.unwrap_or(Told::Absent)
        }
        Lean::Put => either(
            file.put(rt, hand, key, value)?,
            Told::Inserted,
            Told::Exists,
        ),
        Lean::Set => either(
            file.set(rt, hand, key, value)?,
            Told::Replaced,
            Told::Absent,
        ),
        Lean::Remove => either(file.remove(rt, hand, key)?, Told::Deleted, Told::Absent),
    })
}

/// Makes a call by a key with its code, and by the key alone where memory was refused.
fn lean_either<G: Gate, M: Mode, J: FileBrand, R: Wait>(
    rt: &R,
    file: &HashFile<G, M, J>,
    hand: &mut Hand,
    call: Lean,
    key: Key,
    value: &Value,
) -> Told
    requires { IsOf file.now.state hand.old }
    ensures { IsOf file.now.state hand.new }
{
    match make_lean(rt, file, hand, call, &CodedKey::new(key), value) {
        Err(FileFault::Memory) => match make_lean(rt, file, hand, call, &key, value) {
            Ok(told) => told,
            Err(fault) => Told::Fault(fault),
        },
        Ok(told) => told,
        Err(fault) => Told::Fault(fault),
    }
}

/// Makes a call by a key of one letter, and once more where memory was refused.
pub(crate) fn lean_again<G: Gate, M: Mode, J: FileBrand, R: Wait>(
    rt: &R,
    file: &HashFile<G, M, J>,
    hand: &mut Hand,
    call: Lean,
    letter: u8,
) -> Told
    requires { IsOf file.now.state hand.old }
    ensures { IsOf file.now.state hand.new }
{
    let digit = match call {
        Lean::Set => b"2",
        _ => b"1",
    };
    match (Key::new(&[letter]), Value::new(digit)) {
        (Ok(key), Ok(value)) => lean_either(rt, file, hand, call, key, &value),
        _ => Told::Wrong,
    }
}

/// Makes a call without an answer in place of one with an answer.
pub(crate) fn lean_as<G: Gate, M: Mode, J: FileBrand, R: Wait>(
    rt: &R,
    file: &HashFile<G, M, J>,
    hand: &mut Hand,
    call: &Call,
) -> Told
    requires { IsOf file.now.state hand.old }
    ensures { IsOf file.now.state hand.new }
{
    let none = Value::empty();
    match call {
        Call::Search(key) => lean_either(rt, file, hand, Lean::WithValue, *key, &none),
        Call::Insert(key, value) => lean_either(rt, file, hand, Lean::Put, *key, value),
        Call::Delete(key) => lean_either(rt, file, hand, Lean::Remove, *key, &none),
        Call::Replace(key, value) => lean_either(rt, file, hand, Lean::Set, *key, value),
    }
}

/// Each call without an answer, by a key that is there and by one that isn't, among the calls that have one. The put of
/// a second record has the bucket split.
const ONE_BY_ONE: Scene = Scene {
    settings: [1, 1, 100, 65536],
    first: &[
        (Task::Lean(Lean::Get, b'a'), Told::Absent),
        (Task::Lean(Lean::ReadInto, b'a'), Told::Absent),
        (Task::Lean(Lean::WithValue, b'a'), Told::Absent),
        (Task::Lean(Lean::Set, b'a'), Told::Absent),
        (Task::Lean(Lean::Remove, b'a'), Told::Absent),
        (Task::Lean(Lean::Put, b'a'), Told::Inserted),
        (Task::Search(b'a'), Told::Found(b'1')),
        (Task::Lean(Lean::Get, b'a'), Told::Found(b'1')),
        (Task::Lean(Lean::Set, b'a'), Told::Replaced),
        (Task::Lean(Lean::Put, b'a'), Told::Exists),
        (Task::Lean(Lean::ReadInto, b'a'), Told::Found(b'2')),
        (Task::Lean(Lean::WithValue, b'a'), Told::Found(b'2')),
        (Task::Search(b'a'), Told::Found(b'2')),
        (Task::Buckets, Told::Number(1)),
        (Task::Lean(Lean::Put, b'b'), Told::Inserted),
        (Task::Buckets, Told::Number(2)),
        (Task::Lean(Lean::Remove, b'a'), Told::Deleted),
        (Task::Search(b'a'), Told::Absent),
        (Task::Insert(b'a'), Told::Inserted),
        (Task::Lean(Lean::WithValue, b'a'), Told::Found(b'1')),
        (Task::Told, Told::Number(18)),
    ],
    ..ONE_BUCKET
};

#[test]
fn calls_without_an_answer_tell_the_same(rt: HostRuntime) -> Result<(), Fail> {
    perform(&rt, rt.alloc(), &ONE_BY_ONE)
}

/// What was refused was not done, and is done then.
pub(crate) const REFUSED_ONCE: Scene = Scene {
    settings: [2, 1, 100, 65536],
    first: &[
        (Task::Lean(Lean::Put, b'a'), Told::Inserted),
        (Task::Lean(Lean::Put, b'c'), Told::Inserted),
        (Task::Lean(Lean::Put, b'e'), Told::Inserted),
        (Task::Lean(Lean::Get, b'e'), Told::Found(b'1')),
        (Task::Lean(Lean::Set, b'c'), Told::Replaced),
        (Task::Lean(Lean::WithValue, b'c'), Told::Found(b'2')),
        (Task::Lean(Lean::Remove, b'a'), Told::Deleted),
        (Task::Lean(Lean::ReadInto, b'a'), Told::Absent),
        (Task::Told, Told::Number(8)),
    ],
    ..ONE_BUCKET
};
