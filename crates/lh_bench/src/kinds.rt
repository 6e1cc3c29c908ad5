//! The workloads on tables of each kind: an untraced file, a traced one, and several as one.
ghost use Rattle.std.specs.Prelude.{true};
ghost use Rattle.lh_page.specs.Slots.{IsRoom};
ghost use Rattle.lh_file.specs.Buckets.Brands.{IsBrandOf};
ghost use Rattle.lh_file.specs.Buckets.Rooms.{FitListing};

use crate::counting::counts;
use crate::meter::resident_bytes;
use crate::on_file::OnFile;
use crate::on_shards::OnShards;
use crate::order::{Order, Room, Workload};
use crate::replacing::replaces;
use crate::report::Outcome;
use crate::table::Table;
use crate::workloads::{empty_shards, empty_sized_file, inserts, searches, settings, shared};
use anyhow::{Result, bail};
use lh_bucket::Listing;
use lh_file::{FileBrand, NoGate, Opening, SizedFile, Unbranded, Untraced, WIDEST_ROOM};
use std::marker::Brand;
use std::rt::{Clock, Files};
use std::sync::Wait;
use std::thread::Threads;
use std::time::CpuClock;

/// Runs a workload on an empty table. The process had this many bytes of memory before that was made.
fn run_on<T, R>(rt: &R, table: T, order: &Order, before: u64) -> Result<Outcome>
where
    T: Table + Send,
    R: Threads + Wait + Sync + Clock + CpuClock + Files + AllocGlobal,
{
    let mut outcome = match order.workload {
        Workload::Inserts => inserts(rt, table, order, before)?,
        Workload::Searches => searches(rt, table, order)?,
        Workload::Replaces => replaces(rt, table, order)?,
        Workload::Counters => counts(rt, table, order)?,
        Workload::MostlySearches => shared(rt, table, order, 0, 1)?,
        Workload::OneKey | Workload::Skewed | Workload::Misses => {
            shared(rt, table, order, order.records, 1)?
        }
        _ => shared(rt, table, order, order.records, 2)?,
    };
    outcome.passes.peak_bytes = outcome.passes.peak_bytes.saturating_sub(before);
    Ok(outcome)
}

/// Runs a workload on an untraced file whose records have this much room.
fn run_sized<R, const ROOM: usize>(rt: &R, order: &Order) -> Result<Outcome>
where
    R: Threads + Wait + Sync + Clock + CpuClock + Files + AllocGlobal,
    requires { IsRoom ROOM }
{
    let before = resident_bytes(rt);
    let (file, hand) = empty_sized_file::<ROOM>(rt.alloc())?;
    run_on(rt, OnFile::new(&file, hand), order, before)
}

/// Runs a workload on an untraced file.
pub fn run_untraced<R>(rt: &R, order: &Order) -> Result<Outcome>
where
    R: Threads + Wait + Sync + Clock + CpuClock + Files + AllocGlobal,
{
    match order.room {
        Room::Any => run_sized::<R, WIDEST_ROOM>(rt, order),
        Room::Bytes64 => run_sized::<R, 64>(rt, order),
        Room::Bytes32 => run_sized::<R, 32>(rt, order),
    }
}

/// Runs a workload on this many untraced files as one, whose records have this much room.
fn run_sized_shards<R, const ROOM: usize>(rt: &R, order: &Order, shards: u32) -> Result<Outcome>
where
    R: Threads + Wait + Sync + Clock + CpuClock + Files + AllocGlobal,
    requires { IsRoom ROOM }
{
    let before = resident_bytes(rt);
    let (shards, hands) = empty_shards::<ROOM>(rt.alloc(), shards)?;
    run_on(rt, OnShards::new(&shards, hands), order, before)
}

/// Runs a workload on this many untraced files as one.
pub fn run_sharded<R>(rt: &R, order: &Order, shards: u32) -> Result<Outcome>
where
    R: Threads + Wait + Sync + Clock + CpuClock + Files + AllocGlobal,
{
    match order.room {
        Room::Any => run_sized_shards::<R, WIDEST_ROOM>(rt, order, shards),
        Room::Bytes64 => run_sized_shards::<R, 64>(rt, order, shards),
        Room::Bytes32 => run_sized_shards::<R, 32>(rt, order, shards),
    }
}

/// Runs a workload on a traced file whose table is named.
fn run_opened<J, R>(
    rt: &R,
    opening: Opening<'_, NoGate>,
    order: &Order,
    before: u64,
) -> Result<Outcome>
where
    J: FileBrand + Send + Sync,
    R: Threads + Wait + Sync + Clock + CpuClock + Files + AllocGlobal,
    requires { IsBrandOf true J.named J.tables opening }
{
    let (file, hand) = opening.file::<J>()?;
    run_on(rt, OnFile::new(&file, hand), order, before)
}

/// The same, whose records have room for 32 bytes.
// No parameter of the room: at a call of a function with one, a caller can't pick the name of a table.
fn run_small_opened<J, R>(
    rt: &R,
    opening: Opening<'_, NoGate>,
    order: &Order,
    before: u64,
) -> Result<Outcome>
where
    J: FileBrand + Send + Sync,
    R: Threads + Wait + Sync + Clock + CpuClock + Files + AllocGlobal,
    requires brand { IsBrandOf true J.named J.tables opening }
    requires fits { FitListing 32 opening.listing }
{
    let (file, hand) = opening.sized_file::<J, 32>()?;
    run_on(rt, OnFile::new(&file, hand), order, before)
}

/// Runs a workload on a traced file with room for any record.
fn run_wide_traced<R>(rt: &R, order: &Order) -> Result<Outcome>
where
    R: Threads + Wait + Sync + Clock + CpuClock + Files + AllocGlobal,
{
    let before = resident_bytes(rt);
    let empty = Listing::empty(rt.alloc(), settings()?)?;
    let opening = Opening::of(rt.alloc(), &empty, false, NoGate)?;
    run_opened::<Brand, R>(rt, opening, order, before)
}

/// Runs a workload on a traced file whose records have room for 32 bytes.
fn run_small_traced<R>(rt: &R, order: &Order) -> Result<Outcome>
where
    R: Threads + Wait + Sync + Clock + CpuClock + Files + AllocGlobal,
{
    let before = resident_bytes(rt);
    let empty = Listing::empty(rt.alloc(), settings()?)?;
    SizedFile::<NoGate, Untraced, Unbranded, 32>::fit_listing(&empty)?;
    let opening = Opening::of(rt.alloc(), &empty, false, NoGate)?;
    run_small_opened::<Brand, R>(rt, opening, order, before)
}

/// Runs a workload on a traced file.
pub fn run_traced<R>(rt: &R, order: &Order) -> Result<Outcome>
where
    R: Threads + Wait + Sync + Clock + CpuClock + Files + AllocGlobal,
{
    match order.room {
        Room::Any => run_wide_traced(rt, order),
        Room::Bytes64 => bail!("no traced file has that room"),
        Room::Bytes32 => run_small_traced(rt, order),
    }
}
