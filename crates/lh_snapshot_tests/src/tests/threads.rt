//! Hands in threads of their own.
ghost use Rattle.std.specs.Prelude.{◌≡◌, All, IfSome};
ghost use Rattle.lh_file.specs.FileState.{IsOf};

use super::stage::Course;
use super::tasks::{Task, Worked, work};
use lh_file::{FileBrand, Gate, HashFile, Mode};
use lh_stage::Told;
use std::alloc::Global;
use std::sync::Wait;
use std::thread;
use std::thread::{Promise, PromisedHandle, Threads};

/// The hand that comes back from a thread is one of this file.
#[derive(Clone, Copy)]
struct OfFile<'a, G: Gate, M: Mode, J: FileBrand>(&'a HashFile<G, M, J>);

impl<'a, G: Gate, M: Mode, J: FileBrand> Promise<Worked> for OfFile<'a, G, M, J> {
    ghost kept_by = { λ file worked. IsOf file.0.now.state worked.hand };
}

/// Keeps a worker beside the others, or answers that there is no memory for it.
fn keep<'a, G: Gate, M: Mode, J: FileBrand>(
    file: &'a HashFile<G, M, J>,
    workers: &mut Vec<PromisedHandle<Worked, OfFile<'a, G, M, J>>>,
    worker: PromisedHandle<Worked, OfFile<'a, G, M, J>>,
) -> bool
    requires others { All (λ worker. worker.promise.0.now.state ≡ file.now.state) workers.old.items }
    requires new { worker.promise.0.now.state ≡ file.now.state }
    ensures { All (λ worker. worker.promise.0.now.state ≡ file.now.state) workers.new.items }
{
    workers.push(worker).is_ok()
}

/// Waits for a worker, and adds what it has to what others have. None where memory was wanted, or the hand still has
/// the right to split.
fn join<G: Gate, M: Mode, J: FileBrand, R: Threads + Wait>(
    rt: &R,
    file: &HashFile<G, M, J>,
    all: Worked,
    worker: PromisedHandle<Worked, OfFile<'_, G, M, J>>,
) -> Option<Worked>
    requires hand { IsOf file.now.state all.hand }
    requires worker { worker.promise.0.now.state ≡ file.now.state }
    ensures { IfSome result (λ all. IsOf file.now.state all.hand) }
{
    let Worked {
        hand: first,
        mut taken,
        wrong,
    } = all;
    let Worked {
        hand: second,
        taken: mut more,
        wrong: other,
    } = worker.join(rt);
    taken.append(&mut more).ok()?;
    if second.has_right() {
        return None;
    }
    let hand = file.join_hands(first, second).ok()?;
    Some(Worked {
        hand,
        taken,
        wrong: wrong.or(other),
    })
}

/// Hands of a file do their tasks at once, each in a thread of its own, and are joined to the first.
pub(crate) fn beside<
    G: Gate + Sync,
    M: Mode + Send + Sync,
    J: FileBrand + Send + Sync,
    R: Threads + Wait + Sync,
>(
    rt: &R,
    alloc: Global,
    file: &HashFile<G, M, J>,
    course: &Course,
    first: Worked,
    hands: &[&[(Task, Told)]],
) -> Option<Worked>
    requires { IsOf file.now.state first.hand }
    ensures { IfSome result (λ all. IsOf file.now.state all.hand) }
{
    thread::scope(
        thread::scope_env(),
        rt,
        |scope| -> Option<Worked>
            requires { IsOf file.now.state first.hand }
            ensures { IfSome result (λ all. IsOf file.entry.now.state all.hand) }
        {
            let mut all = first;
            let mut workers = Vec::new(alloc);
            for tasks in hands {
                let hand = file.split_hand(&mut all.hand, 1000).ok()?;
                let worker = scope
                    .spawn_with(
                        OfFile(file),
                        move || -> Worked
                            requires { IsOf file.now.state hand }
                            ensures { IsOf file.entry.now.state result.hand }
                        { work(rt, alloc, file, course, hand, tasks) },
                    )
                    .ok()?;
                if !keep(file, &mut workers, worker) {
                    return None;
                }
            }
            for worker in workers {
                all = join(rt, file, all, worker)?;
            }
            Some(all)
        },
    )
}
