//! Memory that is refused: run with each request for it refused in turn, one in each run. Each call is made once more
//! where it was refused, and the file works on in between.
ghost use Rattle.lh_file.specs.FileState.{IsOf};

use super::calls::{LETTERS, call_of};
use super::lean::REFUSED_ONCE;
use super::scene::{ONE_BUCKET, Scene, perform_refused};
use super::stage::{Counts, Course};
use super::tasks::Task;
use lh_file::{FileBrand, Gate, Hand, HashFile, Mode};
use lh_stage::{REFUSED, Told, asked, drop_right};
use std::sync::Wait;
use std::test::Fail;

const ONE_SNAPSHOT: Scene = Scene {
    settings: [2, 14, 100, 65536],
    first: &[
        (Task::Fill, Told::Done),
        (Task::Grow(1), Told::Done),
        (Task::WorksOn, Told::Done),
        (Task::Snapshot, Told::Done),
        (Task::WorksOn, Told::Done),
    ],
    taken: &[&[b"a2e2", b"b2d2f2h2", b"c2g2"]],
    ..ONE_BUCKET
};

#[test]
fn a_refused_snapshot_holds_nothing(rt: HostRuntime) -> Result<(), Fail> {
    perform_refused(&rt, rt.alloc(), &ONE_SNAPSHOT)
}

/// A copy that was refused is made then, and the scan meets each letter once all the same.
const ONE_SCAN: Scene = Scene {
    settings: [2, 14, 100, 65536],
    first: &[
        (Task::Fill, Told::Done),
        (Task::Grow(1), Told::Done),
        (Task::Scan(&[3]), Told::Done),
        (Task::ForEach, Told::Done),
        (Task::WorksOn, Told::Done),
    ],
    ..ONE_BUCKET
};

#[test]
fn a_refused_scan_meets_all(rt: HostRuntime) -> Result<(), Fail> {
    perform_refused(&rt, rt.alloc(), &ONE_SCAN)
}

#[test]
fn refused_calls_without_an_answer_do_nothing(rt: HostRuntime) -> Result<(), Fail> {
    perform_refused(&rt, rt.alloc(), &REFUSED_ONCE)
}

/// Inserts a letter, and once more where memory was refused: whether it was inserted. A refused insert has stood at no
/// point that tells of an act or a split.
fn insert<G: Gate, M: Mode, J: FileBrand, R: Wait>(
    rt: &R,
    file: &HashFile<G, M, J>,
    course: &Course,
    hand: &mut Hand,
    letter: u8,
) -> bool
    requires { IsOf file.now.state hand.old }
    ensures { IsOf file.now.state hand.new }
{
    let Some(call) = call_of(Task::Insert(letter)) else {
        return false;
    };
    let before = course.counts();
    let told = asked(rt, file, hand, &call);
    if told != REFUSED {
        return told == Told::Inserted;
    }
    course.counts() == before && asked(rt, file, hand, &call) == Told::Inserted
}

/// Whether the right to split is there to be got. It is given up again.
fn is_right_free<G: Gate, M: Mode, J: FileBrand>(file: &HashFile<G, M, J>, hand: &mut Hand) -> bool
    requires { IsOf file.now.state hand.old }
    ensures { IsOf file.now.state hand.new }
{
    if hand.has_right() {
        return false;
    }
    file.try_split_right(hand);
    drop_right(file, hand)
}

/// Inserts a letter, which asks for a split: whether a bucket was split, or none where something went wrong. Where the
/// split was refused, the file has its size, and no point tells of a move or of a new pointer. The right is free again.
fn insert_and_split<G: Gate, M: Mode, J: FileBrand, R: Wait>(
    rt: &R,
    file: &HashFile<G, M, J>,
    course: &Course,
    hand: &mut Hand,
    letter: u8,
) -> Option<bool>
    requires { IsOf file.now.state hand.old }
    ensures { IsOf file.now.state hand.new }
{
    let (size, before) = (file.buckets(hand), course.counts());
    if !insert(rt, file, course, hand, letter) {
        return None;
    }
    let splits = u64::from(file.buckets(hand).wrapping_sub(size));
    let due = Counts {
        acted: before.acted.wrapping_add(1),
        rights: before.rights.wrapping_add(1),
        moved: before.moved.wrapping_add(splits),
        pointed: before.pointed.wrapping_add(splits),
    };
    if course.counts() != due || splits > 1 || !is_right_free(file, hand) {
        return None;
    }
    Some(splits == 1)
}

/// Inserts the eight letters, each of which asks for a split: whether all went as it has to, and no more than one split
/// was refused.
pub(crate) fn fill_and_grow<G: Gate, M: Mode, J: FileBrand, R: Wait>(
    rt: &R,
    file: &HashFile<G, M, J>,
    course: &Course,
    hand: &mut Hand,
) -> bool
    requires { IsOf file.now.state hand.old }
    ensures { IsOf file.now.state hand.new }
{
    let mut refused: u64 = 0;
    for letter in LETTERS {
        match insert_and_split(rt, file, course, hand, letter) {
            Some(true) => {}
            Some(false) => refused = refused.wrapping_add(1),
            None => return false,
        }
    }
    refused <= 1
}

/// The answer of an insert stands where its split is refused, which gives the right back.
const GROWING: Scene = Scene {
    settings: [1, 1, 10, 65536],
    first: &[(Task::FillAndGrow, Told::Done), (Task::WorksOn, Told::Done)],
    ..ONE_BUCKET
};

#[test]
fn a_refused_split_of_an_insert_gives_the_right_back(rt: HostRuntime) -> Result<(), Fail> {
    perform_refused(&rt, rt.alloc(), &GROWING)
}
