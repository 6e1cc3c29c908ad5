//! The workloads on a table in memory, which is empty at first.
ghost use Rattle.std.specs.Prelude.{IfOk};
ghost use Rattle.lh_page.specs.Slots.{IsRoom};
ghost use Rattle.lh_file.specs.FileState.{IsOf};
ghost use Rattle.lh_shards.specs.Hands.{AreOf};

use crate::caller::{Caller, play, play_timed};
use crate::crew::{Shift, play_in_threads};
use crate::meter::{Stopwatch, resident_bytes};
use crate::order::{Order, Workload};
use crate::passes::sees_all;
use crate::report::Outcome;
use crate::starter::Starter;
use crate::streams::{Inserts, Picks, Searches};
use crate::table::Table;
use crate::tally::Tally;
use anyhow::{Result, bail};
use lh_addr::Config;
use lh_file::{Hand, HashFile, NoGate, SizedFile, Unbranded, Untraced};
use lh_shards::{Hands, SizedShards};
use std::alloc::Global;
use std::rt::{Clock, Files};
use std::sync::Wait;
use std::thread::Threads;
use std::time::CpuClock;

/// The settings that the program `lhash` takes by default.
pub fn settings() -> Result<Config> {
    let Ok(config) = Config::new(1, 14, 100, 65_536) else {
        bail!("no such configuration");
    };
    Ok(config)
}

/// An empty file with these settings.
pub fn empty_file(alloc: Global, recording: bool) -> Result<(HashFile<NoGate>, Hand)>
    ensures { IfOk result (λ made. IsOf made.0.state made.1) }
{
    Ok(HashFile::create(alloc, settings()?, recording, NoGate)?)
}

/// An empty file with these settings whose records have this much room.
pub fn empty_sized_file<const ROOM: usize>(
    alloc: Global,
) -> Result<(SizedFile<NoGate, Untraced, Unbranded, ROOM>, Hand)>
    requires { IsRoom ROOM }
    ensures { IfOk result (λ made. IsOf made.0.state made.1) }
{
    Ok(SizedFile::create(alloc, settings()?, false, NoGate)?)
}

/// This many empty files with these settings whose records have this much room, as one table.
pub fn empty_shards<const ROOM: usize>(
    alloc: Global,
    shards: u32,
) -> Result<(SizedShards<Untraced, Unbranded, ROOM>, Hands)>
    requires { IsRoom ROOM }
    ensures { IfOk result (λ made. AreOf made.0 made.1) }
{
    Ok(SizedShards::create(alloc, settings()?, shards, false)?)
}

/// The inserts of each `stride`th record.
pub fn load<T: Table, R: Wait>(rt: &R, table: T, order: &Order, stride: u64) -> Caller<T> {
    let stream = Inserts { record: 0, stride };
    let caller = Caller::new(table, order);
    play(rt, caller, stream, order.records)
}

/// The inserts of all records, each timed.
fn load_timed<T: Table, R: Wait + Clock>(rt: &R, table: T, order: &Order) -> Caller<T> {
    let stream = Inserts {
        record: 0,
        stride: 1,
    };
    let caller = Caller::new(table, order);
    play_timed(rt, caller, stream, order.records)
}

/// Inserts. The process had this many bytes of memory before the table was made.
pub fn inserts<T: Table, R>(rt: &R, table: T, order: &Order, before: u64) -> Result<Outcome>
where
    R: Wait + Clock + CpuClock + Files + AllocGlobal,
{
    let watch = Stopwatch::start(rt)?;
    let mut caller = if order.longest {
        load_timed(rt, table, order)
    } else {
        load(rt, table, order, 1)
    };
    let spent = watch.stop(rt)?;
    let tally = caller.tally;
    let is_due = tally.inserted == order.records;
    Ok(Outcome {
        buckets: caller.table.buckets(),
        resident_bytes: resident_bytes(rt).saturating_sub(before),
        ..Outcome::new(order.records, spent, tally, is_due)
    })
}

/// Searches for records that are there.
pub fn searches<T: Table, R: Wait + Clock + CpuClock>(
    rt: &R,
    table: T,
    order: &Order,
) -> Result<Outcome> {
    let loaded = load(rt, table, order, 1);
    let caller = Caller::new(loaded.table, order);
    let watch = Stopwatch::start(rt)?;
    let caller = play(rt, caller, Picks::new(order), order.calls());
    let spent = watch.stop(rt)?;
    let is_due = caller.tally.found == order.calls();
    Ok(Outcome::new(order.calls(), spent, caller.tally, is_due))
}

/// How many of the first `2 * records` records are there.
fn records_there<T: Table, R: Wait>(rt: &R, table: T, order: &Order) -> Tally {
    let stream = Searches {
        record: 0,
        are_there: false,
    };
    let caller = Caller::new(table, order);
    play(rt, caller, stream, order.records.wrapping_mul(2)).tally
}

/// Whether as many searches met their record as are due, where that is known.
fn are_met(workload: Workload, tally: &Tally, calls: u64) -> bool {
    match workload {
        Workload::Skewed | Workload::OneKey => tally.found == calls,
        Workload::Misses => tally.absent == calls,
        _ => true,
    }
}

/// What came of threads that shared a table, which had this many records before.
fn outcome_of<T: Table, R: Wait + AllocGlobal>(
    rt: &R,
    shift: Shift<T>,
    order: &Order,
    before: u64,
) -> Outcome {
    let tally = shift.tally;
    let mut table = shift.table;
    let buckets = table.buckets();
    let are_seen = !order.workload.has_looks()
        || matches!(sees_all(rt, &mut table, order), Ok(true));
    let there = records_there(rt, table, order);
    let due = before
        .wrapping_add(tally.inserted)
        .wrapping_sub(tally.deleted);
    let is_due = there.wrong == 0
        && there.found == due
        && shift.passes.are_due
        && are_seen
        && are_met(order.workload, &tally, shift.calls);
    Outcome {
        buckets,
        passes: shift.passes,
        ..Outcome::new(shift.calls, shift.spent, tally, is_due)
    }
}

/// Calls of several threads, in a table that has this many records before them: each `stride`th from the first on.
pub fn shared<T, R>(rt: &R, table: T, order: &Order, records: u64, stride: u64) -> Result<Outcome>
where
    T: Table + Send,
    R: Threads + Wait + Sync + Clock + CpuClock + Files + AllocGlobal,
{
    let first = Order { records, ..*order };
    let loaded = load(rt, table, &first, stride);
    let shift = play_in_threads(rt, &Starter::new(), loaded.table, *order)?;
    Ok(outcome_of(rt, shift, order, records))
}
