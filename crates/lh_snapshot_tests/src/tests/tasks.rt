//! Tasks for hands, as data, and what comes of them.
ghost use Rattle.lh_file.specs.FileState.{IsOf};

use super::calls::{call, draw_calls, fill, works_on};
use super::lean::{Lean, lean_again};
use super::looks::{image, keep_snapshot};
use super::memory::fill_and_grow;
use super::rights::{grow, lose_right};
use super::scans::{for_each, scan};
use super::stage::Course;
use lh_file::{Closed, FileBrand, Gate, Hand, HashFile, Mode};
use lh_stage::{Progress, Told, done, drop_right, split};
use std::alloc::Global;
use std::sync::Wait;

/// What a hand is to do.
#[derive(Clone, Copy)]
pub(crate) enum Task {
    /// One call by a key of one letter: an insert of a 1, a search, a delete, or a replace by a 2.
    Insert(u8),
    Search(u8),
    Delete(u8),
    Replace(u8),
    /// A replace by this byte.
    Set(u8, u8),
    /// One call as one makes it of a map, by a key of one letter.
    Lean(Lean, u8),
    /// Inserts the eight letters.
    Fill,
    /// Replaces the values of the eight letters, and finds the new ones.
    WorksOn,
    /// Calls of all kinds, drawn by this number.
    Calls(u32),
    /// Inserts the eight letters, each of which asks for a split.
    FillAndGrow,
    Buckets,
    Load,
    Told,
    TryRight,
    DropRight,
    Split,
    /// Gets the right to split for a hand that is dropped with it.
    LoseRight,
    /// Splits so many buckets, one after another.
    Grow(u32),
    /// Takes a snapshot, which is looked at after the run.
    Snapshot,
    /// Writes the image of a snapshot, and reads it back.
    Image,
    /// Scans the file, and splits so many buckets after each copy.
    Scan(&'static [u32]),
    /// Scans the file, and gives each copy to a closure.
    ForEach,
    Reach(u64),
    Wait(u64),
    /// Gives others turns to come to a step, to which they may not come.
    Rest(u64),
}

/// What a hand is to do, and each answer that is due.
pub(crate) type Tasks = &'static [(Task, Told)];

/// A hand that has done its tasks, the snapshots that it took, and the first answer that was not the one that was due,
/// if there was one.
#[derive(Drop)]
pub(crate) struct Worked {
    pub(crate) hand: Hand,
    pub(crate) taken: Vec<Closed>,
    pub(crate) wrong: Option<Told>,
}

/// How many inserts and deletes the file counts.
fn load<G: Gate, M: Mode, J: FileBrand>(file: &HashFile<G, M, J>, hand: &mut Hand) -> Told
    requires { IsOf file.now.state hand.old }
    ensures { IsOf file.now.state hand.new }
{
    let load = file.load(hand);
    Told::Load(load.inserted, load.deleted)
}

/// Does one task.
fn one<G: Gate, M: Mode, J: FileBrand, R: Wait>(
    rt: &R,
    alloc: Global,
    file: &HashFile<G, M, J>,
    course: &Course,
    hand: &mut Hand,
    taken: &mut Vec<Closed>,
    task: Task,
) -> Told
    requires { IsOf file.now.state hand.old }
    ensures { IsOf file.now.state hand.new }
{
    match task {
        Task::Insert(_) | Task::Search(_) | Task::Delete(_) | Task::Replace(_) | Task::Set(_, _) =>
            { call(rt, file, hand, task) }
        Task::Lean(call, letter) => lean_again(rt, file, hand, call, letter),
        Task::Fill => done(fill(rt, file, hand)),
        Task::WorksOn => done(works_on(rt, file, hand)),
        Task::Calls(number) => done(draw_calls(rt, file, hand, number)),
        Task::FillAndGrow => done(fill_and_grow(rt, file, course, hand)),
        Task::Buckets => Told::Number(u64::from(file.buckets(hand))),
        Task::Load => load(file, hand),
        Task::Told => Told::Number(file.told(hand)),
        Task::TryRight => Told::Right(file.try_split_right(hand)),
        Task::DropRight => done(drop_right(file, hand)),
        Task::Split => split(rt, file, hand),
        Task::LoseRight => lose_right(file, hand),
        Task::Grow(count) => done(grow(rt, file, hand, count)),
        Task::Snapshot => keep_snapshot(rt, file, hand, taken),
        Task::Image => image(rt, alloc, file, hand),
        Task::Scan(splits) => done(scan(rt, alloc, file, hand, splits)),
        Task::ForEach => done(for_each(rt, alloc, file, hand)),
        Task::Reach(_) | Task::Wait(_) | Task::Rest(_) => turn(&course.progress, task),
    }
}

/// Waits for others, or lets them go on.
fn turn(progress: &Progress, task: Task) -> Told {
    match task {
        Task::Reach(step) => progress.reach(step),
        Task::Wait(step) => progress.wait(step),
        Task::Rest(step) => progress.rest(step),
        _ => return Told::Wrong,
    }
    Told::Done
}

/// Does tasks one after another, each beside the answer that is due.
pub(crate) fn work<G: Gate, M: Mode, J: FileBrand, R: Wait>(
    rt: &R,
    alloc: Global,
    file: &HashFile<G, M, J>,
    course: &Course,
    mut hand: Hand,
    tasks: &[(Task, Told)],
) -> Worked
    requires { IsOf file.now.state hand }
    ensures { IsOf file.now.state result.hand }
{
    let mut taken = Vec::new(alloc);
    let mut wrong = None;
    for (task, due) in tasks {
        let told = one(rt, alloc, file, course, &mut hand, &mut taken, *task);
        if told != *due && wrong.is_none() {
            wrong = Some(told);
        }
    }
    Worked { hand, taken, wrong }
}
