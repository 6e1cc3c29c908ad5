//! Two hands that do their tasks beside each other, and the file that is settled after it.
ghost use Rattle.std.specs.Prelude.{◌≡◌, IfSome};
ghost use Rattle.lh_file.specs.FileState.{IsOf};

use super::stage::{Log, Stage};
use lh_addr::Config;
use lh_expect::{expect, expect_eq};
use lh_file::{FileBrand, Gate, Hand, HashFile, Mode, Point};
use lh_stage::{Hold, Progress, Task, Told, closed, made, one, second_of, settled_acts};
use std::alloc::Global;
use std::process::Abort;
use std::sync::Wait;
use std::test::Fail;
use std::thread;
use std::thread::{Promise, Threads};

/// What two hands of an empty file of one bucket are to do beside each other and what each is to be
/// told, where their calls are held, and what is to come of it: the number of buckets, that of acts,
/// all of which are settled, and the last points that were met.
#[derive(Clone, Copy)]
pub(crate) struct Scene<'a> {
    pub(crate) capacity: u32,
    pub(crate) holds: &'a [Hold],
    pub(crate) first: &'a [(Task, Told)],
    pub(crate) second: &'a [(Task, Told)],
    pub(crate) buckets: u32,
    pub(crate) acts: usize,
    pub(crate) points: &'a [Point],
}

/// Two hands that have done their tasks, and the first answer that was not due.
#[derive(Drop)]
pub(crate) struct Both {
    pub(crate) first: Hand,
    pub(crate) second: Hand,
    pub(crate) wrong: Option<Told>,
}

/// A hand that has done its tasks, and the first answer that was not the one that was due, if there was
/// one.
#[derive(Drop)]
pub(crate) struct Worked {
    hand: Hand,
    pub(crate) wrong: Option<Told>,
}

/// The hand that comes back is one of this file.
#[derive(Clone, Copy)]
struct OfFile<'a, G: Gate>(&'a HashFile<G>);

impl<'a, G: Gate> Promise<Worked> for OfFile<'a, G> {
    ghost kept_by = { λ p r. IsOf p.0.now.state r.hand };
}

/// Does tasks one after another, each beside the answer that is due.
pub(crate) fn work<G: Gate, M: Mode, J: FileBrand, R: Wait>(
    rt: &R,
    file: &HashFile<G, M, J>,
    progress: &Progress,
    mut hand: Hand,
    tasks: &[(Task, Told)],
) -> Worked
    requires { IsOf file.now.state hand }
    ensures { IsOf file.now.state result.hand }
{
    let mut wrong = None;
    for (task, due) in tasks {
        let told = one(rt, file, progress, &mut hand, *task);
        if told != *due && wrong.is_none() {
            wrong = Some(told);
        }
    }
    Worked { hand, wrong }
}

/// Two hands do their tasks, the first in a thread of its own.
pub(crate) fn beside<G: Gate + Sync, R: Threads + Wait + Sync>(
    rt: &R,
    file: &HashFile<G>,
    progress: &Progress,
    first: Hand,
    first_tasks: &[(Task, Told)],
    second: Hand,
    second_tasks: &[(Task, Told)],
) -> Option<Both>
    requires first { IsOf file.now.state first }
    requires second { IsOf file.now.state second }
    ensures { IfSome result (λ both. IsOf file.now.state both.first × IsOf file.now.state both.second) }
{
    thread::scope(
        thread::scope_env(),
        rt,
        |scope| -> Option<Both>
            requires first { IsOf file.now.state first }
            requires second { IsOf file.now.state second }
            ensures { IfSome result (λ both. IsOf file.entry.now.state both.first
                × IsOf file.entry.now.state both.second) }
        {
            let child = scope
                .spawn_with(
                    OfFile(file),
                    move || -> Worked
                        requires { IsOf file.now.state first }
                        ensures { IsOf file.entry.now.state result.hand }
                    { work(rt, file, progress, first, first_tasks) },
                )
                .ok()?;
            let Worked {
                hand: second,
                wrong: two,
            } = work(rt, file, progress, second, second_tasks);
            let Worked {
                hand: first,
                wrong: one,
            } = child.join(rt);
            Some(Both {
                first,
                second,
                wrong: one.or(two),
            })
        },
    )
}

/// What came of a scene: the first answer that was not due, the number of buckets, and that of acts, if
/// they are settled.
#[derive(Clone, Copy, Debug, PartialEq, Eq)]
struct Outcome {
    wrong: Option<Told>,
    buckets: u32,
    acts: Option<usize>,
}

/// A hand of a file and a second one do their tasks beside each other.
fn play<G: Gate + Sync, R: Threads + Wait + Sync>(
    rt: &R,
    file: &HashFile<G>,
    mut first: Hand,
    progress: &Progress,
    scene: Scene<'_>,
) -> Option<Both>
    requires { IsOf file.now.state first }
    ensures { IfSome result (λ both. IsOf file.now.state both.first × IsOf file.now.state both.second) }
{
    let second = second_of(file, &mut first, 1000)?;
    beside(rt, file, progress, first, scene.first, second, scene.second)
}

/// Plays a scene in an empty file under a gate that holds calls. None where memory or a thread was
/// wanted, or a wait took too many turns.
fn staged<R: Threads + Wait + Sync>(
    rt: &R,
    alloc: Global,
    config: Config,
    scene: Scene<'_>,
    log: &Log,
) -> Option<Outcome> {
    let progress = Progress::new();
    let gate = Stage {
        holds: scene.holds,
        progress: &progress,
        log,
    };
    let (file, hand) = made(alloc, config, gate).ok()?;
    let Both {
        first,
        second,
        wrong,
    } = play(rt, &file, hand, &progress, scene)?;
    if progress.has_failed() {
        return None;
    }
    let (closed, acts) = closed(rt, file, first, second)?;
    Some(Outcome {
        wrong,
        buckets: closed.buckets(),
        acts: settled_acts(alloc, config, &closed, &acts),
    })
}

/// Plays a scene, and fails where something else comes of it than was due.
pub(crate) fn perform<R: Threads + Wait + Sync + Abort>(
    rt: &R,
    alloc: Global,
    scene: Scene<'_>,
) -> Result<(), Fail> {
    let config = Config::new(1, scene.capacity, 100, 65536)?;
    let log = Log::new();
    let outcome = staged(rt, alloc, config, scene, &log).ok_or("late")?;
    let due = Outcome {
        wrong: None,
        buckets: scene.buckets,
        acts: Some(scene.acts),
    };
    expect_eq!(rt; outcome, due);
    expect!(rt, log.ends_with(scene.points));
    Ok(())
}
