//! The right to split, which a snapshot neither wants nor keeps.
ghost use Rattle.lh_file.specs.FileState.{IsOf};

use super::scene::{EIGHT, ONE_BUCKET, Scene, perform};
use super::tasks::Task;
use lh_file::{FileBrand, Gate, Hand, HashFile, Mode, Right};
use lh_stage::{BUSY, FIRST_RIGHT, Told, split_once};
use std::sync::Wait;
use std::test::Fail;

/// Splits a bucket, where the right to do so is free: whether no fault was met.
pub(crate) fn split_if_free<G: Gate, M: Mode, J: FileBrand, R: Wait>(
    rt: &R,
    file: &HashFile<G, M, J>,
    hand: &mut Hand,
) -> bool
    requires { IsOf file.now.state hand.old }
    ensures { IsOf file.now.state hand.new }
{
    if let Right::Got { .. } = file.try_split_right(hand) {
        return file.split(rt, hand).is_ok();
    }
    true
}

/// Splits so many buckets, each once more where memory was refused: whether they were split.
pub(crate) fn grow<G: Gate, M: Mode, J: FileBrand, R: Wait>(
    rt: &R,
    file: &HashFile<G, M, J>,
    hand: &mut Hand,
    count: u32,
) -> bool
    requires { IsOf file.now.state hand.old }
    ensures { IsOf file.now.state hand.new }
{
    for _split in 0..count {
        if !split_once(rt, file, hand) && !split_once(rt, file, hand) {
            return false;
        }
    }
    true
}

/// Asks for the right to split by a new hand, which is dropped.
pub(crate) fn lose_right<G: Gate, M: Mode, J: FileBrand>(
    file: &HashFile<G, M, J>,
    hand: &mut Hand,
) -> Told
    requires { IsOf file.now.state hand.old }
    ensures { IsOf file.now.state hand.new }
{
    match file.split_hand(hand, 1) {
        Ok(mut lost) => Told::Right(file.try_split_right(&mut lost)),
        Err(fault) => Told::Fault(fault),
    }
}

/// One hand has the right to split while another one takes a snapshot, and takes one itself. No stamp is drawn.
const BESIDE_THE_RIGHT: Scene = Scene {
    hands: &[
        &[
            (Task::Wait(1), Told::Done),
            (Task::Told, EIGHT),
            (Task::Snapshot, Told::Done),
            (Task::Told, EIGHT),
            (Task::TryRight, BUSY),
            (Task::Reach(2), Told::Done),
        ],
        &[
            (Task::TryRight, FIRST_RIGHT),
            (Task::Reach(1), Told::Done),
            (Task::Wait(2), Told::Done),
            (Task::Snapshot, Told::Done),
            (Task::Told, EIGHT),
            (Task::Split, Told::Done),
        ],
    ],
    taken: &[&[b"a1b1c1d1e1f1g1h1"], &[b"a1b1c1d1e1f1g1h1"]],
    ..ONE_BUCKET
};

#[test]
fn a_snapshot_needs_no_right(rt: HostRuntime) -> Result<(), Fail> {
    perform(&rt, rt.alloc(), &BESIDE_THE_RIGHT)
}

/// No bucket can be split any more. No stamp is drawn.
const IN_A_FULL_FILE: Scene = Scene {
    settings: [2, 14, 100, 2],
    first: &[
        (Task::Fill, Told::Done),
        (Task::Told, EIGHT),
        (Task::Snapshot, Told::Done),
        (Task::Told, EIGHT),
        (Task::TryRight, Told::Right(Right::Full)),
        (Task::WorksOn, Told::Done),
    ],
    taken: &[&[b"a1c1e1g1", b"b1d1f1h1"]],
    ..ONE_BUCKET
};

#[test]
fn a_full_file_gives_a_snapshot(rt: HostRuntime) -> Result<(), Fail> {
    perform(&rt, rt.alloc(), &IN_A_FULL_FILE)
}

/// The right to split is lost with its hand, for ever.
const WITH_A_LOST_RIGHT: Scene = Scene {
    first: &[
        (Task::Fill, Told::Done),
        (Task::LoseRight, FIRST_RIGHT),
        (Task::Snapshot, Told::Done),
        (Task::TryRight, BUSY),
        (Task::WorksOn, Told::Done),
    ],
    taken: &[&[b"a1b1c1d1e1f1g1h1"]],
    loses_right: true,
    ..ONE_BUCKET
};

#[test]
fn a_snapshot_outlives_a_lost_right(rt: HostRuntime) -> Result<(), Fail> {
    perform(&rt, rt.alloc(), &WITH_A_LOST_RIGHT)
}
