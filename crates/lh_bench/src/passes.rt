//! Passes over all records of a table: snapshots, and scans.

use crate::meter::{Laps, peak_bytes};
use crate::order::{Order, Workload};
use crate::table::Table;
use anyhow::Result;
use lh_bucket::Reply;
use lh_file::Closed;
use lh_page::{Pair, Value};
use std::rt::{Clock, Files};
use std::sync::Wait;

/// How many passes are made at least.
const LEAST: usize = 10;

/// How many nanoseconds they go on at least.
const SECOND: u64 = 1_000_000_000;

/// How many records were met, and the sum of the first bytes of their values.
#[derive(Clone, Copy, PartialEq, Eq)]
pub struct Met {
    records: u64,
    sum: u64,
}

impl Met {
    pub const NONE: Met = Met { records: 0, sum: 0 };

    fn note(&mut self, value: &Value) {
        let first = value.bytes().first().copied().unwrap_or(0);
        self.records = self.records.wrapping_add(1);
        self.sum = self.sum.wrapping_add(first as u64);
    }

    pub fn note_all(&mut self, pairs: &[Pair]) {
        for pair in pairs {
            self.note(&pair.value);
        }
    }
}

/// How long passes took.
#[derive(Clone, Copy)]
pub struct Passes {
    pub made: u64,
    /// Nanoseconds.
    pub shortest: u64,
    pub median: u64,
    pub longest: u64,
    /// The sum of the first bytes of all values that were read.
    pub sum: u64,
    /// The bytes of memory that the process had at most.
    pub peak_bytes: u64,
    /// Whether each pass met about as many records as are due.
    pub are_due: bool,
}

impl Passes {
    pub const NONE: Passes = Passes {
        made: 0,
        shortest: 0,
        median: 0,
        longest: 0,
        sum: 0,
        peak_bytes: 0,
        are_due: true,
    };

    /// Notes what a pass met where this many records are due, and when that can't be by chance.
    // Each of twice as many keys is there with probability 1/2: a deviation is the root of half of the records.
    fn note(&mut self, met: Met, due: u64) {
        let far = met.records.max(due) - met.records.min(due);
        let is_near = far.saturating_mul(far) <= due.saturating_mul(64);
        self.sum = self.sum.wrapping_add(met.sum);
        self.are_due = self.are_due && is_near;
    }

    /// The same passes, which took so long.
    fn timed(self, mut times: Vec<u64>) -> Passes {
        times.sort_unstable();
        Passes {
            made: times.len() as u64,
            shortest: times.first().copied().unwrap_or(0),
            median: times.get(times.len() / 2).copied().unwrap_or(0),
            longest: times.last().copied().unwrap_or(0),
            ..self
        }
    }
}

/// What snapshots of all files have.
fn read_snapshots<T: Table, R: Wait + AllocGlobal>(rt: &R, table: &mut T) -> Result<Met> {
    let mut met = Met::NONE;
    for snapshot in table.snapshots(rt)? {
        let listing = snapshot.into_listing()?;
        for bucket in 0..listing.buckets() {
            met.note_all(listing.pairs_of(bucket));
        }
    }
    Ok(met)
}

/// What searches for all records find.
fn found<T: Table, R: Wait>(rt: &R, table: &mut T, order: &Order) -> Met {
    let mut met = Met::NONE;
    for record in 0..order.records.wrapping_mul(2) {
        if let Ok(answer) = table.search(rt, order.contents().key(record)) {
            if let Reply::Found(value) = answer.reply() {
                met.note(&value);
            }
        }
    }
    met
}

/// Whether a pass over a table that nobody changes meets just what searches find.
pub fn sees_all<T: Table, R: Wait + AllocGlobal>(
    rt: &R,
    table: &mut T,
    order: &Order,
) -> Result<bool> {
    let met = match order.workload {
        Workload::Snapshots => read_snapshots(rt, table)?,
        _ => table.scan(rt)?,
    };
    Ok(met == found(rt, table, order))
}

/// How many records snapshots have. None is read.
fn counted(snapshots: &[Closed]) -> Met {
    let mut records = 0_u64;
    for snapshot in snapshots {
        records = records.saturating_add(snapshot.records());
    }
    Met { records, sum: 0 }
}

/// One pass: what was met, and in how many nanoseconds. The records of snapshots are counted, and not read.
fn pass<T: Table, R: Wait + Clock + AllocGlobal>(
    rt: &R,
    table: &mut T,
    workload: Workload,
) -> Result<(Met, u64)> {
    let mut laps = Laps::start(rt)?;
    if let Workload::Snapshots = workload {
        let snapshots = table.snapshots(rt)?;
        let time = laps.next(rt)?;
        return Ok((counted(&snapshots), time));
    }
    let met = table.scan(rt)?;
    Ok((met, laps.next(rt)?))
}

/// Makes passes one after another, for a second at least, and keeps how long each took.
fn pass_for_a_second<T: Table, R: Wait + Clock + AllocGlobal>(
    rt: &R,
    table: &mut T,
    order: &Order,
    times: &mut Vec<u64>,
) -> Result<Passes> {
    let mut passes = Passes::NONE;
    let mut laps = Laps::start(rt)?;
    let mut passed = 0_u64;
    for _ in rt.forever() {
        let (met, time) = pass(rt, table, order.workload)?;
        passes.note(met, order.records);
        times.push(time)?;
        passed = passed.saturating_add(laps.next(rt)?);
        if times.len() >= LEAST && passed >= SECOND {
            break;
        }
    }
    Ok(passes)
}

/// Makes passes, and tells how long they took.
pub fn make_passes<T: Table, R: Wait + Clock + Files + AllocGlobal>(
    rt: &R,
    table: &mut T,
    order: &Order,
) -> Result<Passes> {
    let mut times = Vec::new(rt.alloc());
    let mut passes = pass_for_a_second(rt, table, order, &mut times)?;
    passes.peak_bytes = peak_bytes(rt);
    Ok(passes.timed(times))
}

/// Reads the clock for a second, one reading after another, and makes no pass.
pub fn read_clock<R: Wait + Clock>(rt: &R) -> Result<Passes> {
    let mut laps = Laps::start(rt)?;
    let mut passed = 0_u64;
    for _ in rt.forever() {
        passed = passed.saturating_add(laps.next(rt)?);
        if passed >= SECOND {
            break;
        }
    }
    Ok(Passes::NONE)
}
