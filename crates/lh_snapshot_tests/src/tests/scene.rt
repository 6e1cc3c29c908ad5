//! Scenes: what the hands of a file do beside each other, and what is to come of it.
ghost use Rattle.std.specs.Prelude.{◌≡◌, true};
ghost use Rattle.lh_file.specs.Buckets.Brands.{IsBrandOf};
ghost use Rattle.lh_file.specs.FileState.{IsOf};

use super::sound::{Buckets, first_unsound};
use super::stage::{Course, Rest, Stage};
use super::tasks::{Task, Tasks, Worked, work};
use super::threads::beside;
use lh_addr::Config;
use lh_bucket::Listing;
use lh_file::{FileBrand, Gate, Hand, HashFile, Mode, Opening, Point, SettleFault};
use lh_stage::{Hold, Told, empty_again, settle_again};
use std::alloc::Global;
use std::marker::Brand;
use std::process::Abort;
use std::sync::Wait;
use std::test::Fail;
use std::thread::Threads;

/// What the hands of an empty file are to do and to be told, and what is to come of it.
#[derive(Clone, Copy)]
pub(crate) struct Scene {
    /// The initial number of buckets, the capacity, the load and the greatest number of buckets.
    pub(crate) settings: [u32; 4],
    /// Where calls are held.
    pub(crate) holds: &'static [Hold],
    /// Which of these holds goes on for some turns more, if one does.
    pub(crate) rest: Option<Rest>,
    /// The points that are met from the first step on, in their order; none where that depends on the schedule.
    pub(crate) points: &'static [Point],
    /// Whether each call lets others go first at every point.
    pub(crate) gives_way: bool,
    /// What the first hand does alone.
    pub(crate) first: Tasks,
    /// What the other hands do then, each in a thread of its own.
    pub(crate) hands: &'static [Tasks],
    /// The records of each snapshot, hand by hand.
    pub(crate) taken: &'static [Buckets],
    /// Whether the right to split is lost, so that the closed file is not settled.
    pub(crate) loses_right: bool,
}

/// A file of one bucket with eight records, which doesn't grow of its own accord.
pub(crate) const ONE_BUCKET: Scene = Scene {
    settings: [1, 14, 100, 65536],
    holds: &[],
    rest: None,
    points: &[],
    gives_way: false,
    first: &[(Task::Fill, Told::Done)],
    hands: &[],
    taken: &[],
    loses_right: false,
};

/// How many acts there are when the eight letters are inserted.
pub(crate) const EIGHT: Told = Told::Number(8);

/// What came of a scene: the first answer that was not due, whether a wait went wrong or a point was not due, whether
/// as many points were met as were due, whether the closed file is settled as it has to be, the number of snapshots,
/// and the first one that isn't what it has to be.
#[derive(Clone, Copy, Debug, PartialEq, Eq)]
struct Outcome {
    wrong: Option<Told>,
    has_failed: bool,
    has_met_all: bool,
    is_settled: bool,
    snapshots: usize,
    unsound: Option<usize>,
}

/// Closes a file after a scene. None where memory was wanted for that.
fn ended<G: Gate + Drop, M: Mode, J: FileBrand, R: Wait>(
    rt: &R,
    alloc: Global,
    opening: &Listing,
    file: HashFile<G, M, J>,
    course: &Course,
    worked: Worked,
    scene: &Scene,
) -> Option<Outcome>
    requires { IsOf file.state worked.hand }
{
    let Worked { hand, taken, wrong } = worked;
    let fault = if scene.loses_right {
        Some(SettleFault::SplitUnderWay)
    } else {
        None
    };
    let (closed, acts) = file.close(rt, hand).ok()?;
    Some(Outcome {
        wrong,
        has_failed: course.progress.has_failed(),
        has_met_all: course.has_compared(scene.points.len()),
        is_settled: settle_again(alloc, opening, &closed, &acts).err() == fault,
        snapshots: taken.len(),
        unsound: first_unsound(alloc, opening, &acts, taken, scene.taken),
    })
}

/// Plays a scene in a file that was opened for it. None where memory or a thread was wanted.
fn play<
    G: Gate + Drop + Sync,
    M: Mode + Send + Sync,
    J: FileBrand + Send + Sync,
    R: Threads + Wait + Sync,
>(
    rt: &R,
    alloc: Global,
    opening: &Listing,
    file: HashFile<G, M, J>,
    hand: Hand,
    course: &Course,
    scene: &Scene,
) -> Option<Outcome>
    requires { IsOf file.state hand }
{
    let first = work(rt, alloc, &file, course, hand, scene.first);
    let worked = beside(rt, alloc, &file, course, first, scene.hands)?;
    ended(rt, alloc, opening, file, course, worked, scene)
}

/// Plays a scene in a traced file that is being opened.
fn play_traced<J: FileBrand + Send + Sync, R: Threads + Wait + Sync>(
    rt: &R,
    alloc: Global,
    listing: &Listing,
    opening: Opening<'_, Stage<'_>>,
    course: &Course,
    scene: &Scene,
) -> Option<Outcome>
    requires { IsBrandOf true J.named J.tables opening }
{
    let (file, hand) = opening.file::<J>().ok()?;
    play(rt, alloc, listing, file, hand, course, scene)
}

/// Plays a scene in a traced or in an untraced file. None where memory or a thread was wanted.
fn played<R: Threads + Wait + Sync>(
    rt: &R,
    alloc: Global,
    listing: &Listing,
    scene: &Scene,
    is_traced: bool,
) -> Option<Outcome> {
    let course = Course::new();
    let gate = Stage {
        holds: scene.holds,
        rest: scene.rest,
        points: scene.points,
        course: &course,
        gives_way: scene.gives_way,
    };
    if is_traced {
        let opening = Opening::of(alloc, listing, true, gate).ok()?;
        return play_traced::<Brand, _>(rt, alloc, listing, opening, &course, scene);
    }
    let (file, hand) = HashFile::open_from(alloc, listing, true, gate).ok()?;
    play(rt, alloc, listing, file, hand, &course, scene)
}

/// Plays a scene, and where requests are refused once more in another file, if opening or closing the first one was.
fn played_again<R: Threads + Wait + Sync>(
    rt: &R,
    alloc: Global,
    listing: &Listing,
    scene: &Scene,
    is_traced: bool,
    is_refused: bool,
) -> Option<Outcome> {
    match played(rt, alloc, listing, scene, is_traced) {
        None if is_refused => played(rt, alloc, listing, scene, is_traced),
        outcome => outcome,
    }
}

/// Plays a scene in an untraced and in a traced file, and fails where something else comes of it than was due.
pub(crate) fn perform<R: Threads + Wait + Sync + Abort>(
    rt: &R,
    alloc: Global,
    scene: &Scene,
) -> Result<(), Fail> {
    perform_as(rt, alloc, scene, false)
}

/// Like `perform`, where one request for memory is refused: a scene that lacked memory or a thread is played once more.
pub(crate) fn perform_refused<R: Threads + Wait + Sync + Abort>(
    rt: &R,
    alloc: Global,
    scene: &Scene,
) -> Result<(), Fail> {
    perform_as(rt, alloc, scene, true)
}

fn perform_as<R: Threads + Wait + Sync + Abort>(
    rt: &R,
    alloc: Global,
    scene: &Scene,
    is_refused: bool,
) -> Result<(), Fail> {
    let [initial, capacity, load, max] = scene.settings;
    let config = Config::new(initial, capacity, load, max)?;
    let listing = empty_again(alloc, config)?;
    let due = Outcome {
        wrong: None,
        has_failed: false,
        has_met_all: true,
        is_settled: true,
        snapshots: scene.taken.len(),
        unsound: None,
    };
    let untraced = played_again(rt, alloc, &listing, scene, false, is_refused).ok_or("refused")?;
    assert_eq!(rt; untraced, due, "untraced");
    let traced = played_again(rt, alloc, &listing, scene, true, is_refused).ok_or("refused")?;
    assert_eq!(rt; traced, due, "traced");
    Ok(())
}
