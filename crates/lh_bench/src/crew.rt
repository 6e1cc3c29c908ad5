//! Several threads on one table.

use crate::caller::{Caller, play, play_to_end};
use crate::meter::{Stopwatch, TimeSpent};
use crate::order::{Order, Workload};
use crate::passes::{Passes, make_passes, read_clock};
use crate::starter::Starter;
use crate::streams::{Counts, Misses, Mixed, MostlySearches, OneKey, Part, Skewed};
use crate::table::Table;
use crate::tally::Tally;
use anyhow::{Result, bail};
use std::rt::{Clock, Files};
use std::sync::Wait;
use std::thread;
use std::thread::{JoinHandle, Threads};
use std::time::CpuClock;

/// What threads did, and the table that they shared.
#[derive(Drop)]
pub struct Shift<T> {
    pub table: T,
    pub tally: Tally,
    pub calls: u64,
    pub spent: TimeSpent,
    pub passes: Passes,
}

/// The calls of one thread, which begins when all do.
fn play_part<S: Part, T: Table, R: Wait>(
    rt: &R,
    starter: &Starter,
    caller: Caller<T>,
    order: Order,
    thread: u64,
) -> Tally {
    let stream = S::of_thread(&order, thread);
    starter.stand_by(rt);
    play(rt, caller, stream, order.calls_of_thread()).tally
}

/// The part of one thread: what it was told.
fn work<T: Table, R: Wait + Clock>(
    rt: &R,
    starter: &Starter,
    table: T,
    order: Order,
    thread: u64,
) -> Tally {
    let caller = Caller::new(table, &order);
    match order.workload {
        Workload::MostlySearches => {
            play_part::<MostlySearches, T, R>(rt, starter, caller, order, thread)
        }
        Workload::Skewed => play_part::<Skewed, T, R>(rt, starter, caller, order, thread),
        Workload::Misses => play_part::<Misses, T, R>(rt, starter, caller, order, thread),
        Workload::Counters => play_part::<Counts, T, R>(rt, starter, caller, order, thread),
        Workload::OneKey => play_part::<OneKey, T, R>(rt, starter, caller, order, thread),
        Workload::Snapshots | Workload::Scans | Workload::Readings => {
            let stream = Mixed::of_thread(&order, thread);
            starter.stand_by(rt);
            play_to_end(rt, caller, stream, starter).tally
        }
        _ => play_part::<Mixed, T, R>(rt, starter, caller, order, thread),
    }
}

/// Waits for all workers, and adds what they were told.
fn tally_of<R: Threads>(rt: &R, workers: Vec<JoinHandle<Tally>>) -> Tally {
    let mut all = Tally::new();
    for worker in workers {
        let part = worker.join(rt);
        all.add(&part);
    }
    all
}

/// What one thread more does while workers call: it makes passes, or reads the clock, where the order has that.
fn act_beside<T: Table, R: Wait + Clock + Files + AllocGlobal>(
    rt: &R,
    table: &mut T,
    order: &Order,
) -> Result<Passes> {
    match order.workload {
        Workload::Snapshots | Workload::Scans => make_passes(rt, table, order),
        Workload::Readings => read_clock(rt),
        _ => Ok(Passes::NONE),
    }
}

/// The same, which then lets the workers end.
fn beside_workers<T: Table, R: Wait + Clock + Files + AllocGlobal>(
    rt: &R,
    starter: &Starter,
    table: &mut T,
    order: &Order,
) -> Result<Passes> {
    let passes = act_beside(rt, table, order);
    starter.end();
    passes
}

/// Lets all workers begin at once, and waits for them: what they were told, and in which time. It is a fault if there are
/// fewer than the order has threads.
fn led<T, R>(
    rt: &R,
    starter: &Starter,
    table: &mut T,
    order: &Order,
    workers: Vec<JoinHandle<Tally>>,
) -> Result<(Tally, TimeSpent, Passes)>
where
    T: Table,
    R: Threads + Wait + Clock + CpuClock + Files + AllocGlobal,
{
    let started = workers.len() as u64;
    if started == order.threads {
        starter.await_all(rt, started);
    }
    let watch = Stopwatch::start(rt);
    starter.start();
    let passes = beside_workers(rt, starter, table, order);
    let tally = tally_of(rt, workers);
    let spent = watch?.stop(rt)?;
    if started != order.threads {
        bail!("no memory for {started} threads and one more");
    }
    Ok((tally, spent, passes?))
}

/// How many calls the workers have made.
fn calls_of(order: &Order, tally: &Tally) -> u64 {
    if order.workload.times_calls() {
        tally.replies()
    } else {
        order.calls_of_thread().wrapping_mul(order.threads)
    }
}

/// What workers do who begin at once, and the table.
fn shift_of<T, R>(
    rt: &R,
    starter: &Starter,
    mut table: T,
    order: &Order,
    workers: Vec<JoinHandle<Tally>>,
) -> Result<Shift<T>>
where
    T: Table,
    R: Threads + Wait + Clock + CpuClock + Files + AllocGlobal,
{
    let (tally, spent, passes) = led(rt, starter, &mut table, order, workers)?;
    Ok(Shift {
        table,
        calls: calls_of(order, &tally),
        tally,
        spent,
        passes,
    })
}

/// Plays the parts of an order in as many threads.
pub fn play_in_threads<T, R>(rt: &R, starter: &Starter, table: T, order: Order) -> Result<Shift<T>>
where
    T: Table + Send,
    R: Threads + Wait + Sync + Clock + CpuClock + Files + AllocGlobal,
{
    let alloc = rt.alloc();
    thread::scope(thread::scope_env(), rt, |scope| -> Result<Shift<T>> {
        let mut all = table;
        let mut workers = Vec::new(alloc);
        for thread in 0..order.threads {
            let Ok(part) = all.divide() else {
                break;
            };
            let Ok(worker) = scope.spawn(move || work(rt, starter, part, order, thread)) else {
                break;
            };
            if workers.push(worker).is_err() {
                break;
            }
        }
        shift_of(rt, starter, all, &order, workers)
    })
}
