//! The subcommand `drive` on several shards: a command script in threads, on several files as one table, settled, from
//! its bytes to its totals.
ghost use Rattle.std.specs.FinMap.{empty as empty_map};
ghost use Rattle.std.specs.Prelude.{◌≡◌, ◌≤◌, ◌-◌, ◌^◌, ◌<◌, true, All, IfErr, IfOk, IfSome, List, length, min};
ghost use Rattle.std.specs.Prelude.{sum_by};
ghost use Rattle.lh_bucket.specs.declared.call.Call.{Call as CallOf};
ghost use Rattle.lh_bucket.specs.Listing.{count_of};
ghost use Rattle.lh_shards.specs.Hands.{IsCount};
ghost use Rattle.lh_shards.specs.Openings.{AreBegun, AreBrandsOf};
ghost use Rattle.lh_shards.specs.Settling.{AreParts};
ghost use Rattle.lhash.specs.DrivingShards.{EndsDrivingShards, IsDrivenShards, IsDriveShardsFault, IsSettledWhole};
ghost use Rattle.lhash.specs.DrivingShards.{acts_in, empty_files};

use crate::crew::work_in_threads;
use crate::drive::{DriveFault, undriven};
use crate::driven::Driven;
use lh_addr::Config;
use lh_bucket::{Call, Listing};
use lh_file::FileBrand;
use lh_shards::{ClosedShards, OpenFault, Openings, empty_listings};
use lh_subcommands::{DeviceFault, Notation, Status, read_script, write_all};
use std::alloc::Global;
use std::io::{Read, Write};
use std::marker::Brand;
use std::sync::Wait;
use std::thread::Threads;

/// The number of records of all shards, where it is below 2^64; more would be told as 2^64 - 1.
fn records_in(closed: &ClosedShards) -> u64
    ensures { result ≡ min (sum_by (λ shard. count_of shard.closed.lists) closed.now) (2 ^ 64 - 1) }
{
    let mut records = 0_u64;
    for shard in 0..closed.count() {
        records = records.saturating_add(closed.shard(shard).closed.records());
    }
    records
}

/// Counts what was done with shards that were opened from empty listings. That all of them are settled is known;
/// settling says so again, on its own.
fn totals(
    alloc: Global,
    config: Config,
    openings: &[Listing],
    closed: &ClosedShards,
) -> Result<Driven, DriveFault>
    requires empty { openings.now ≡ empty_files config (length closed.now) }
    requires parts { AreParts empty_map openings.now }
    requires configs { All (λ shard. shard.closed.config ≡ config) closed.now }
    requires known { All (IsSettledWhole config) closed.now }
    requires few { acts_in closed.now < 2 ^ 64 }
    ensures ok { IfOk result (λ d. (calls : List CallOf) → length calls ≡ acts_in closed.now →
        IsDrivenShards config (length closed.now) calls d) }
    ensures err { IfErr result (IsDriveShardsFault config (length closed.now)) }
{
    match closed.settle(alloc, openings) {
        Ok(histories) => Ok(Driven::of_all(&histories, records_in(closed))),
        Err(at) => Err(DriveFault::from(at.fault)),
    }
}

/// Runs calls in threads on shards that are opened empty, and settles what they did.
fn driven_in<J: FileBrand + Send + Sync, R: Threads + Wait + Sync>(
    rt: &R,
    alloc: Global,
    config: Config,
    openings: Openings<'_>,
    empty: &[Listing],
    calls: &[Call],
    threads: u32,
) -> Result<Driven, DriveFault>
    requires brands { AreBrandsOf J.named J.tables openings }
    requires begun { AreBegun empty.now true openings }
    requires empty { empty.now ≡ empty_files config (length openings) }
    requires parts { AreParts empty_map empty.now }
    requires threads { 1 ≤ threads }
    ensures ok { IfOk result (IsDrivenShards config (length openings.entry) calls.now) }
    ensures err { IfErr result (IsDriveShardsFault config (length openings.entry)) }
{
    let (shards, hands) = openings.shards::<J>()?;
    let (hands, ()) = work_in_threads(rt, alloc, &shards, hands, calls, threads as usize, 0)?;
    let closed = shards.close(rt, hands)?;
    totals(alloc, config, empty, &closed)
}

/// Runs calls in threads on so many empty shards of this configuration, and settles what they did. The call at place
/// `j` is made by thread `j % threads`, and each thread makes its calls in their order.
///
/// The totals are those of one history of one map, which has as many calls as the script: the shards' histories, one
/// after another. Any other merge of these is legal too (see
/// [`shards_are_one_map`](lh_shards::laws::shards_are_one_map)). Which histories they are depends on how the threads'
/// calls fall together; where all calls on each key go to one thread, the replies don't.
///
/// The shards are traced, so closing them says that they are settled; `settle` finds the same out again, by itself. It
/// answers a fault only where a bucket of a shard was not met when that was closed or a split was under way, or where
/// memory ran out; the fault is that of the first shard that has one.
///
/// If a thread can't be started, or a call isn't answered, all threads that run are waited for, and the fault is
/// answered.
pub fn drive_shards_with<R: Threads + Wait + Sync>(
    rt: &R,
    alloc: Global,
    config: Config,
    calls: &[Call],
    threads: u32,
    shards: u32,
) -> Result<Driven, DriveFault>
    requires threads { 1 ≤ threads }
    requires shards { IsCount shards }
    ensures ok { IfOk result (IsDrivenShards config shards calls.now) }
    ensures err { IfErr result (IsDriveShardsFault config shards) }
{
    let empty = empty_listings(alloc, config, shards)?;
    let openings = match Openings::of(alloc, &empty, true) {
        Ok(openings) => openings,
        Err(OpenFault::Memory) => return Err(DriveFault::Memory),
        // Empty listings have one configuration, and no record.
        Err(OpenFault::Count) => unreachable!(),
        Err(OpenFault::Config { .. }) => unreachable!(),
        Err(OpenFault::Misplaced { .. }) => unreachable!(),
    };
    driven_in::<Brand, R>(rt, alloc, config, openings, &empty, calls, threads)
}

/// Reads a command script whole, makes its calls in threads on so many shards, and writes the totals of what is
/// settled.
pub fn answer_drive_shards<A: Threads + Wait + Sync, R: Read, W: Write>(
    rt: &A,
    alloc: Global,
    notation: Notation,
    config: Config,
    threads: u32,
    shards: u32,
    reader: &mut R,
    writer: &mut W,
) -> Status
    requires threads { 1 ≤ threads }
    requires shards { IsCount shards }
    ensures { IfSome (R.remaining reader.old) (λ input.
        EndsDrivingShards notation config shards input result (W.contents writer.old) (W.contents writer.new)) }
{
    let calls: Vec<Call> = match read_script(alloc, notation, reader) {
        Ok(calls) => calls,
        Err(status) => return status,
    };
    let calls = calls.as_slice();
    let driven = match drive_shards_with(rt, alloc, config, calls, threads, shards) {
        Ok(driven) => driven,
        Err(fault) => return undriven(fault),
    };
    let Ok(text) = format!(in alloc; "{driven}") else {
        return Status::Memory;
    };
    match write_all(writer, text.as_bytes()) {
        Ok(()) => Status::Done,
        Err(_) => Status::Device(DeviceFault::Write),
    }
}
