//! Threads that share a table, each with a session of its own.
ghost use Rattle.std.specs.Prelude.{◌≡◌, ◌+◌, ◌<◌, ◌≤◌, Bool, length, true, All, IfNone, IfOk, vec_len, vec_capacity};

use crate::session::Session;
use lh_file::Memory;
use std::alloc::Global;
use std::thread::{self, Threads};

/// A session whose calls can be divided among threads.
pub(crate) trait ThreadSession: Session {
    // Whether its type names its table, so that all sessions of the type are of one table.
    ghost named: { Bool };

    /// The allocator of its table.
    fn alloc(&self) -> Global;

    /// A session for each of so many threads, with an equal share of the calls that this one may make. Without memory
    /// the session is as it was.
    fn divide(&mut self, threads: u32) -> Result<Vec<Self>, Memory>
        ensures { IfOk result (λ parts. length parts.items ≡ threads) };

    /// Takes in what a thread has done with its session, and the calls that it hasn't made.
    fn unite(&mut self, part: Self)
        requires { named ≡ true };
}

/// A thread's session, and what came of its work.
#[derive(Drop)]
struct ThreadPart<S, T> {
    session: S,
    done: Option<T>,
}

/// Puts sessions, whose work isn't done, where there is room for all of them.
fn fill_parts<S: Drop, T: Drop>(parts: &mut Vec<ThreadPart<S, T>>, sessions: Vec<S>)
    requires { vec_len parts.old + length sessions.items ≤ vec_capacity parts.old }
    ensures { length parts.new.items ≡ length parts.old.items + length sessions.items }
{
    for session in sessions {
        parts.push_reserved(ThreadPart {
            session,
            done: None,
        });
    }
}

/// Takes in what threads have done, and gathers what came of it, for which there is room.
fn gather_parts<S: ThreadSession + Drop, T: Drop>(
    session: &mut S,
    parts: Vec<ThreadPart<S, T>>,
    all_done: &mut Vec<T>,
)
    requires named { S.named ≡ true }
    requires done { All (λ part. IfNone part.done ⊥) parts.items }
    requires room { vec_len all_done.old + length parts.items ≤ vec_capacity all_done.old }
    ensures { vec_len all_done.new ≡ vec_len all_done.old + length parts.items }
{
    for part in parts {
        let ThreadPart { session: own, done } = part;
        session.unite(own);
        match done {
            Some(done) => all_done.push_reserved(done),
            None => unreachable!(),
        }
    }
}

/// Does a thread's work with its session.
fn do_part<S, T: Drop, F: Fn(usize, &mut S) -> T>(
    work: &F,
    thread: usize,
    part: &mut ThreadPart<S, T>,
)
    requires { F.IsAlwaysCallable work.now }
    ensures { IfNone part.new.done ⊥ }
{
    let done = work(thread, &mut part.session);
    part.done = Some(done);
}

/// Lets threads work on a table, each with a session of its own, and waits for all of them: what came of each thread's
/// work, in their order. Threads are numbered from 0. Where the system starts no thread, their work is done one after
/// the other.
///
/// Without memory for the sessions nothing is done. The work itself and its end take none.
pub(crate) fn on_threads<R, S, T, F>(
    rt: &R,
    session: &mut S,
    threads: u32,
    work: F,
) -> Result<Vec<T>, Memory>
where
    R: Threads + Sync,
    S: ThreadSession + Send + Drop,
    T: Send + Drop,
    F: Fn(usize, &mut S) -> T + Sync + Drop,
    requires named { S.named ≡ true }
    requires callable { F.IsAlwaysCallable work }
    ensures { IfOk result (λ done. length done.items ≡ threads) }
{
    let alloc = session.alloc();
    let mut all_done = Vec::with_capacity(alloc, threads as usize)?;
    let mut parts = Vec::with_capacity(alloc, threads as usize)?;
    let sessions = session.divide(threads)?;
    fill_parts(&mut parts, sessions);
    thread::for_each_mut(
        rt,
        &mut parts,
        threads.max(1) as usize,
        &|thread: usize, part: &mut ThreadPart<S, T>|
            requires { F.IsAlwaysCallable work }
            ensures { IfNone part.exit.now.done ⊥ }
        { do_part(&work, thread, part) },
    );
    gather_parts(session, parts, &mut all_done);
    Ok(all_done)
}
