//! Threads that share a table, and make a script's calls between them.
ghost use Rattle.std.specs.Prelude.{◌≡◌, ℕ, ◌+◌, ◌<◌, ◌^◌, [], All, IfErr, IfOk, OnErr, OnOk, length, sum_by};
ghost use Rattle.lh_file.specs.Calls.Served.{IsNotSpent};
ghost use Rattle.lhash.specs.Crew.{IsWorked, Remembers, places_from};
ghost use Rattle.lhash.specs.Driving.{IsWorkersFault};

use crate::drive::DriveFault;
use lh_bucket::{Answer, Call};
use lh_file::FileFault;
use std::alloc::Global;
use std::sync::Wait;
use std::sync::atomic::{AtomicU64, Ordering};
use std::thread;
use std::thread::{Promise, PromisedHandle, Scope, Threads};

/// What threads share to make calls: a file or shards, and each thread has its own hand, or hands, of it.
pub(crate) trait SharedTable {
    /// A thread's part in the table, with calls that it may make.
    type Hands;

    /// What the thread that waits for the others sees meanwhile.
    type Seen;

    // A part has so many calls in all, and has made so many of them.
    ghost have: { Self → ℕ → ℕ → Self.Hands → Type 0 };

    // For so many snapshots this was seen with a part, or with one that was joined into it.
    ghost saw: { Self → Self.Hands → ℕ → Self.Seen → Type 0 };

    /// Makes a call, which takes one of those that are left.
    fn make<R: Wait>(
        &self,
        rt: &R,
        hands: &mut Self::Hands,
        call: &Call,
    ) -> Result<Answer, FileFault>
        requires { (calls : ℕ) × (made : ℕ) × have self.now calls made hands.old × (made < calls) }
        ensures call { IfOk result (λ answer. answer.call ≡ call.now) }
        ensures made { OnOk result ((calls made : ℕ) → have self.now calls made hands.old →
            have self.now calls (made + 1) hands.new) }
        ensures err { IfErr result IsNotSpent };

    /// A part with so many of the calls of one that has made none.
    fn divide(&self, hands: &mut Self::Hands, calls: u64) -> Result<Self::Hands, DriveFault>
        requires { (others : ℕ) × have self.now (others + calls) 0 hands.old }
        ensures part { IfOk result (have self.now calls 0) }
        ensures kept { OnOk result ((others : ℕ) → have self.now (others + calls) 0 hands.old →
            have self.now others 0 hands.new) }
        ensures unchanged { OnErr result (hands.new ≡ hands.old) }
        ensures err { IfErr result IsWorkersFault };

    /// One part of two. The acts of the second are copied.
    fn join(&self, first: Self::Hands, second: Self::Hands) -> Result<Self::Hands, DriveFault>
        requires first { (calls : ℕ) × (made : ℕ) × have self.now calls made first }
        requires second { (calls : ℕ) × (made : ℕ) × have self.now calls made second }
        ensures both { IfOk result (λ all. (calls made others more : ℕ) → have self.now calls made first →
            have self.now others more second → have self.now (calls + others) (made + more) all) }
        ensures first_saw { IfOk result (Remembers (saw self.now) first) }
        ensures second_saw { IfOk result (Remembers (saw self.now) second) }
        ensures err { IfErr result IsWorkersFault };

    /// Does what is to be done while the workers run: snapshots, where there are any.
    fn look_on<R: Wait>(
        &self,
        rt: &R,
        alloc: Global,
        hands: &mut Self::Hands,
        progress: &WorkersProgress,
        snapshots: u32,
    ) -> Result<Self::Seen, DriveFault>
        requires { (calls : ℕ) × have self.now calls 0 hands.old }
        ensures kept { (calls : ℕ) → have self.now calls 0 hands.old → have self.now calls 0 hands.new }
        ensures saw { IfOk result (saw self.now hands.new snapshots) }
        ensures err { IfErr result IsWorkersFault };
}

/// How many calls a run has, and how many of its workers haven't ended.
#[derive(Drop)]
pub(crate) struct WorkersProgress {
    pub(crate) calls: u64,
    pub(crate) running: AtomicU64,
}

/// Makes every call of a script whose place is `first` plus a multiple of `threads`, in turn, up to
/// the first that isn't answered.
fn work<T: SharedTable, R: Wait>(
    rt: &R,
    table: &T,
    mut hands: T::Hands,
    calls: &[Call],
    first: usize,
    threads: usize,
) -> Result<T::Hands, FileFault>
where
    T::Hands: Drop,
    requires hands { T.have table.now (places_from first threads (length calls.now)) 0 hands }
    requires threads { 0 < threads }
    ensures { IsWorked T.have table.now (places_from first threads (length calls.now)) result }
{
    for place in (first..calls.len()).step_by(threads) {
        table.make(rt, &mut hands, &calls[place])?;
    }
    Ok(hands)
}

/// The same, and tells the others that it has ended.
fn work_to_end<T: SharedTable, R: Wait>(
    rt: &R,
    table: &T,
    hands: T::Hands,
    calls: &[Call],
    first: usize,
    threads: usize,
    progress: &WorkersProgress,
) -> Result<T::Hands, FileFault>
where
    T::Hands: Drop,
    requires hands { T.have table.now (places_from first threads (length calls.now)) 0 hands }
    requires threads { 0 < threads }
    ensures { IsWorked T.have table.now (places_from first threads (length calls.now)) result }
{
    let worked = work(rt, table, hands, calls, first, threads);
    progress.running.fetch_sub(1, Ordering::SeqCst);
    worked
}

/// How many calls of a script `work` makes.
fn calls_of_thread(calls: &[Call], first: usize, threads: usize) -> usize
    requires { 0 < threads }
    ensures { result ≡ places_from first threads (length calls.now) }
{
    calls.len().saturating_sub(first).div_ceil(threads)
}

/// A thread comes back with a part in this table that has made all of so many calls, or with the fault of a call, which
/// is none for want of calls.
#[derive(Clone, Copy)]
struct WorkPromise<'a, T> {
    table: &'a T,
    calls: u64,
}

impl<'a, T: SharedTable> Promise<Result<T::Hands, FileFault>> for WorkPromise<'a, T> {
    ghost kept_by = { λ part worked. IsWorked T.have part.table.now part.calls worked };
}

/// A thread that makes its calls.
type Worker<'a, T> = PromisedHandle<
    Result<<T as SharedTable>::Hands, FileFault>,
    WorkPromise<'a, T>,
>;

/// Starts a thread.
fn start<'s, 'a: 's, E, T: SharedTable + Sync, R: Wait + Sync>(
    rt: &'a R,
    scope: &Scope<'s, E>,
    table: &'a T,
    hands: T::Hands,
    calls: &'a [Call],
    first: usize,
    threads: usize,
    progress: &'a WorkersProgress,
) -> Result<Worker<'a, T>, DriveFault>
where
    T::Hands: Send + Drop + 'a,
    requires hands { T.have table.now (places_from first threads (length calls.now)) 0 hands }
    requires threads { 0 < threads }
    ensures table { IfOk result (λ worker. worker.promise.table.now ≡ table.now) }
    ensures calls { IfOk result (λ worker. worker.promise.calls ≡ places_from first threads (length calls.now)) }
    ensures err { IfErr result IsWorkersFault }
{
    let promise = WorkPromise {
        table,
        calls: calls_of_thread(calls, first, threads) as u64,
    };
    progress.running.fetch_add(1, Ordering::SeqCst);
    match scope.spawn_with(
        promise,
        move || work_to_end(rt, table, hands, calls, first, threads, progress),
    ) {
        Ok(worker) => Ok(worker),
        Err(_) => Err(DriveFault::Thread),
    }
}

/// Keeps a worker beside the others.
fn keep<'a, T: SharedTable>(
    table: &'a T,
    workers: &mut Vec<Worker<'a, T>>,
    worker: Worker<'a, T>,
) -> Result<(), DriveFault>
where
    T::Hands: Drop,
    requires others { All (λ worker. worker.promise.table.now ≡ table.now) workers.old.items }
    requires new { worker.promise.table.now ≡ table.now }
    ensures all { All (λ worker. worker.promise.table.now ≡ table.now) workers.new.items }
    ensures calls { OnOk result (
        sum_by (λ worker. worker.promise.calls) workers.new.items
        ≡ sum_by (λ worker. worker.promise.calls) workers.old.items + worker.entry.promise.calls) }
    ensures err { IfErr result IsWorkersFault }
{
    match workers.push(worker) {
        Ok(()) => Ok(()),
        Err(_) => Err(DriveFault::Memory),
    }
}

/// Starts a thread for each share of the calls, up to the first that can't be.
fn start_all<'s, 'a: 's, E, T: SharedTable + Sync, R: Wait + Sync>(
    rt: &'a R,
    scope: &Scope<'s, E>,
    table: &'a T,
    hands: &mut T::Hands,
    calls: &'a [Call],
    threads: usize,
    progress: &'a WorkersProgress,
    workers: &mut Vec<Worker<'a, T>>,
) -> Result<(), DriveFault>
where
    T::Hands: Send + Drop + 'a,
    requires hands { T.have table.now (2 ^ 63) 0 hands.old }
    requires threads { 0 < threads }
    requires none { workers.old.items ≡ [] }
    ensures hands { (left : ℕ) × T.have table.now left 0 hands.new
        × OnOk result (left + length calls.now ≡ 2 ^ 63) }
    ensures table { All (λ worker. worker.promise.table.now ≡ table.now) workers.new.items }
    ensures calls { OnOk result (sum_by (λ worker. worker.promise.calls) workers.new.items ≡ length calls.now) }
    ensures err { IfErr result IsWorkersFault }
{
    for first in 0..threads {
        let share = calls_of_thread(calls, first, threads) as u64;
        let part = table.divide(hands, share)?;
        let worker = start(rt, scope, table, part, calls, first, threads, progress)?;
        keep(table, workers, worker)?;
    }
    Ok(())
}

/// Waits for a worker, and makes one part of its part and another one. One that did nothing is joined into the
/// worker's, so that no act is copied.
fn join<T: SharedTable, R: Threads + Wait>(
    rt: &R,
    table: &T,
    hands: T::Hands,
    did_nothing: bool,
    worker: Worker<'_, T>,
) -> Result<T::Hands, DriveFault>
where
    T::Hands: Drop,
    requires hands { (calls : ℕ) × (made : ℕ) × T.have table.now calls made hands }
    requires worker { worker.promise.table.now ≡ table.now }
    ensures have { IfOk result (λ all. (calls made : ℕ) → T.have table.now calls made hands →
        T.have table.now (calls + worker.entry.promise.calls) (made + worker.entry.promise.calls) all) }
    ensures saw { IfOk result (Remembers (T.saw table.now) hands) }
    ensures err { IfErr result IsWorkersFault }
{
    let part = worker.join(rt)?;
    if did_nothing {
        table.join(part, hands)
    } else {
        table.join(hands, part)
    }
}

/// Waits for all workers, and makes one part of theirs and another one, which did nothing. The fault of the first
/// worker that has one is answered.
fn join_all<T: SharedTable, R: Threads + Wait>(
    rt: &R,
    table: &T,
    mut hands: T::Hands,
    workers: Vec<Worker<'_, T>>,
) -> Result<T::Hands, DriveFault>
where
    T::Hands: Drop,
    requires hands { (calls : ℕ) × (made : ℕ) × T.have table.now calls made hands }
    requires workers { All (λ worker. worker.promise.table.now ≡ table.now) workers.items }
    ensures have { IfOk result (λ all. (calls made : ℕ) → T.have table.now calls made hands →
        T.have table.now (calls + sum_by (λ worker. worker.promise.calls) workers.entry.items)
        (made + sum_by (λ worker. worker.promise.calls) workers.entry.items) all) }
    ensures saw { IfOk result (Remembers (T.saw table.now) hands) }
    ensures err { IfErr result IsWorkersFault }
{
    let mut did_nothing = true;
    for worker in workers {
        hands = join(rt, table, hands, did_nothing, worker)?;
        did_nothing = false;
    }
    Ok(hands)
}

/// What [`work_in_threads`] does in a scope of threads.
fn work_in_scope<'s, 'a: 's, E, T: SharedTable + Sync, R: Threads + Wait + Sync>(
    rt: &'a R,
    alloc: Global,
    scope: &Scope<'s, E>,
    table: &'a T,
    mut hands: T::Hands,
    calls: &'a [Call],
    threads: usize,
    snapshots: u32,
    progress: &'a WorkersProgress,
) -> Result<(T::Hands, T::Seen), DriveFault>
where
    T::Hands: Send + Drop + 'a,
    T::Seen: Drop,
    requires hands { T.have table.now (2 ^ 63) 0 hands }
    requires threads { 0 < threads }
    ensures have { IfOk result (λ all. T.have table.now (2 ^ 63) (length calls.now) all.0) }
    ensures saw { IfOk result (λ all. T.saw table.now all.0 snapshots all.1) }
    ensures err { IfErr result IsWorkersFault }
{
    let mut workers = Vec::new(alloc);
    let started = start_all(
        rt,
        scope,
        table,
        &mut hands,
        calls,
        threads,
        progress,
        &mut workers,
    );
    let seen = match started {
        Ok(()) => table.look_on(rt, alloc, &mut hands, progress, snapshots),
        Err(fault) => Err(fault),
    };
    let all = join_all(rt, table, hands, workers)?;
    Ok((all, seen?))
}

/// Makes all calls in this number of threads, takes snapshots meanwhile, and makes one part of those of all threads. All
/// threads that were started are waited for. Of several faults it is the one of the first thread that has one.
pub(crate) fn work_in_threads<T: SharedTable + Sync, R: Threads + Wait + Sync>(
    rt: &R,
    alloc: Global,
    table: &T,
    hands: T::Hands,
    calls: &[Call],
    threads: usize,
    snapshots: u32,
) -> Result<(T::Hands, T::Seen), DriveFault>
where
    T::Hands: Send + Drop,
    T::Seen: Drop,
    requires hands { T.have table.now (2 ^ 63) 0 hands }
    requires threads { 0 < threads }
    ensures have { IfOk result (λ all. T.have table.now (2 ^ 63) (length calls.now) all.0) }
    ensures saw { IfOk result (λ all. T.saw table.now all.0 snapshots all.1) }
    ensures err { IfErr result IsWorkersFault }
{
    let progress = &WorkersProgress {
        calls: calls.len() as u64,
        running: AtomicU64::new(0),
    };
    thread::scope(
        thread::scope_env(),
        rt,
        |scope|
            requires hands { T.have table.now (2 ^ 63) 0 hands }
            requires threads { 0 < threads }
        {
            work_in_scope(
                rt, alloc, scope, table, hands, calls, threads, snapshots, progress,
            )
        },
    )
}
