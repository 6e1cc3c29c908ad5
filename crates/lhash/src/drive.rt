//! The subcommand `drive`: a command script in threads, settled, from its bytes to its totals.
ghost use Rattle.std.specs.Prelude.{◌≡◌, ◌%◌, ◌≤◌, true, All, IfOk, IfErr, IfSome, OnOk, length};
ghost use Rattle.lh_settling.specs.Acts.{calls_of};
ghost use Rattle.lh_file.specs.Buckets.Brands.{IsBrandOf};
ghost use Rattle.lhash.specs.Driving.{EndsDriving, IsDriven, IsDrivenWith, IsDriveFault, IsDriveFaultWith};
ghost use Rattle.lhash.specs.Driving.{IsFaultOfOne, IsSettledBefore, IsSettledWith, empty_file, ended_by, unsettled_as};

use crate::crew::work_in_threads;
use crate::driven::{Driven, SnapshotsText};
use lh_addr::Config;
use lh_bucket::{Call, Listing, Memory};
use lh_file::laws::snapshots_are_settled;
use lh_file::{
    Acts, Closed, FileBrand, FileFault, Gate, NoGate, Opening, SettleFault, settle, settle_snapshot,
};
use lh_subcommands::{DeviceFault, Notation, Status, Unsettled, read_script, write_all};
use std::alloc::Global;
use std::io::{Read, Write};
use std::marker::Brand;
use std::sync::Wait;
use std::thread::Threads;

/// Why a run in threads has no totals. Out of memory is always [`DriveFault::Memory`].
#[derive(Clone, Copy, Debug, PartialEq, Eq)]
pub enum DriveFault {
    /// What the threads did is not settled, by the first fault of the closed file, or of the first snapshot that has
    /// one.
    Settle(SettleFault),
    /// A call was not answered: of the first thread that has such a call, the first one. Or a snapshot was not.
    Call(FileFault),
    /// A thread could not be started.
    Thread,
    /// Memory ran out.
    Memory,
}

impl From<Memory> for DriveFault {
    ghost use Rattle.lhash.specs.declared.drive.DriveFault.TheVariants as case;

    ghost from_gives = { λ _ fault. fault ≡ case.Memory };

    fn from(_memory: Memory) -> DriveFault {
        DriveFault::Memory
    }
}

impl From<FileFault> for DriveFault {
    ghost use Rattle.lhash.specs.Driving.{drive_fault_of};

    ghost from_gives = { λ call fault. fault ≡ drive_fault_of call };

    fn from(fault: FileFault) -> DriveFault {
        match fault {
            FileFault::Memory => DriveFault::Memory,
            fault => DriveFault::Call(fault),
        }
    }
}

impl From<SettleFault> for DriveFault {
    ghost use Rattle.lhash.specs.Driving.{settle_fault_of};

    ghost from_gives = { λ settle fault. fault ≡ settle_fault_of settle };

    fn from(fault: SettleFault) -> DriveFault {
        match fault {
            SettleFault::Memory => DriveFault::Memory,
            fault => DriveFault::Settle(fault),
        }
    }
}

/// Settles snapshots of a file that was empty when it was opened, each with those acts that came before it.
fn settle_each(
    alloc: Global,
    empty: &Listing,
    taken: &[Closed],
    acts: &Acts,
) -> Result<(), DriveFault>
    requires empty { empty.now ≡ empty_file empty.now.config }
    requires configs { All (λ snapshot. snapshot.config ≡ empty.now.config) taken.now }
    ensures ok { OnOk result (All (IsSettledBefore empty.now.config acts.now) taken.now) }
    ensures err { IfErr result (IsFaultOfOne empty.now.config acts.now taken.now) }
{
    for place in 0..taken.len() {
        settle_snapshot(alloc, empty, &taken[place], acts)?;
    }
    Ok(())
}

/// Counts what was done with a file that was empty when it was opened, and settles the snapshots that were taken of it.
/// That all of them are settled is known; settling says so again, on its own.
fn settled(
    alloc: Global,
    empty: &Listing,
    closed: &Closed,
    acts: &Acts,
    taken: &[Closed],
) -> Result<Driven, DriveFault>
    requires empty { empty.now ≡ empty_file closed.now.config }
    requires known { closed.now.gathered ≡ true → closed.now.root % 2 ≡ 0 →
        IsSettledWith empty.now closed.now acts.now taken.now }
    requires configs { All (λ snapshot. snapshot.config ≡ closed.now.config) taken.now }
    ensures ok { IfOk result (IsDrivenWith closed.now.config (calls_of acts.now) (length taken.now)) }
    ensures err { IfErr result (IsDriveFaultWith closed.now.config (length taken.now)) }
{
    // Its law: the history of the acts before a snapshot is the first part of that of all.
    snapshots_are_settled();
    let history = settle(alloc, empty, closed, acts)?;
    settle_each(alloc, empty, taken, acts)?;
    Ok(Driven::of(&history, closed.records()))
}

/// Runs calls in threads on a file that is opened empty, takes snapshots meanwhile, and settles what they did.
fn driven_in<G: Gate + Sync, J: FileBrand + Send + Sync, R: Threads + Wait + Sync>(
    rt: &R,
    alloc: Global,
    opening: Opening<'_, &G>,
    empty: &Listing,
    calls: &[Call],
    threads: u32,
    snapshots: u32,
) -> Result<Driven, DriveFault>
    requires room { IsBrandOf true J.named J.tables opening }
    requires records { opening.recording ≡ true }
    requires from { opening.listing ≡ empty.now }
    requires empty { empty.now ≡ empty_file empty.now.config }
    requires threads { 1 ≤ threads }
    ensures ok { IfOk result (IsDrivenWith empty.now.config calls.now snapshots) }
    ensures err { IfErr result (IsDriveFaultWith empty.now.config snapshots) }
{
    // Its law: where the file has its history, its snapshots are settled.
    snapshots_are_settled();
    let (file, hand) = opening.file::<J>()?;
    let (hand, taken) = work_in_threads(
        rt,
        alloc,
        &file,
        hand,
        calls,
        threads as usize,
        snapshots,
    )?;
    let (closed, acts) = file.close(rt, hand)?;
    settled(alloc, empty, &closed, &acts, &taken)
}

/// Like [`drive_with`], and takes so many snapshots meanwhile, evenly spread over the calls, or later. Each is kept
/// until the file is closed, and then settled with those acts that came before it. A fault of one is answered like one
/// of the closed file, and comes only where a bucket of that was not met when it was closed.
pub fn drive_with_snapshots<G: Gate + Drop + Sync, R: Threads + Wait + Sync>(
    rt: &R,
    alloc: Global,
    config: Config,
    calls: &[Call],
    threads: u32,
    snapshots: u32,
    gate: G,
) -> Result<Driven, DriveFault>
    requires { 1 ≤ threads }
    ensures ok { IfOk result (IsDrivenWith config calls.now snapshots) }
    ensures err { IfErr result (IsDriveFaultWith config snapshots) }
{
    let empty = Listing::empty(alloc, config)?;
    let opening = Opening::of(alloc, &empty, true, &gate)?;
    driven_in::<G, Brand, R>(rt, alloc, opening, &empty, calls, threads, snapshots)
}

/// Runs calls in threads on an empty file of this configuration, and settles what they did. The call
/// at place `j` is made by thread `j % threads`, and each thread makes its calls in their order.
///
/// The totals are those of the history that is settled, which has as many calls as the script. Which one it is depends
/// on how the threads' calls fall together; where all calls on each key go to one thread, the replies don't.
///
/// The file is a traced one, so closing it says that its history is settled; `settle` finds the same out again, by
/// itself. It answers a fault only where a bucket of the file was not met when it was closed or a split was under way,
/// or where memory ran out.
///
/// If a thread can't be started, or a call isn't answered, all threads that run are waited for, and
/// the fault is answered.
pub fn drive_with<G: Gate + Drop + Sync, R: Threads + Wait + Sync>(
    rt: &R,
    alloc: Global,
    config: Config,
    calls: &[Call],
    threads: u32,
    gate: G,
) -> Result<Driven, DriveFault>
    requires { 1 ≤ threads }
    ensures ok { IfOk result (IsDriven config calls.now) }
    ensures err { IfErr result (IsDriveFault config) }
{
    drive_with_snapshots(rt, alloc, config, calls, threads, 0, gate)
}

/// How a run ends that has no totals.
pub(crate) fn undriven(fault: DriveFault) -> Status
    ensures { result ≡ ended_by fault }
{
    match fault {
        DriveFault::Settle(fault) => unsettled(fault),
        DriveFault::Call(_) => Status::NotSettled(Unsettled::Call),
        DriveFault::Thread | DriveFault::Memory => Status::Memory,
    }
}

/// How a run ends whose file is not settled.
fn unsettled(fault: SettleFault) -> Status
    ensures { result ≡ unsettled_as fault }
{
    match fault {
        SettleFault::SplitUnderWay => Status::NotSettled(Unsettled::SplitUnderWay),
        SettleFault::MissingStamp(stamp) => Status::NotSettled(Unsettled::MissingStamp(stamp)),
        SettleFault::Reply { stamp, .. } => Status::NotSettled(Unsettled::Reply(stamp)),
        SettleFault::Content(key) => Status::NotSettled(Unsettled::Content(key)),
        SettleFault::Placed { bucket, key } => {
            Status::NotSettled(Unsettled::Placed { bucket, key })
        }
        SettleFault::Memory => Status::Memory,
    }
}

/// Reads a command script whole, makes its calls in threads, takes snapshots meanwhile, and writes the totals of the
/// settled history.
pub fn answer_drive<A: Threads + Wait + Sync, R: Read, W: Write>(
    rt: &A,
    alloc: Global,
    notation: Notation,
    config: Config,
    threads: u32,
    snapshots: u32,
    reader: &mut R,
    writer: &mut W,
) -> Status
    requires { 1 ≤ threads }
    ensures { IfSome (R.remaining reader.old) (λ input.
        EndsDriving notation config snapshots input result (W.contents writer.old) (W.contents writer.new)) }
{
    let calls: Vec<Call> = match read_script(alloc, notation, reader) {
        Ok(calls) => calls,
        Err(status) => return status,
    };
    let calls = calls.as_slice();
    let driven = match drive_with_snapshots(rt, alloc, config, calls, threads, snapshots, NoGate) {
        Ok(driven) => driven,
        Err(fault) => return undriven(fault),
    };
    let Ok(text) = format!(in alloc; "{driven}{}", SnapshotsText(snapshots)) else {
        return Status::Memory;
    };
    match write_all(writer, text.as_bytes()) {
        Ok(()) => Status::Done,
        Err(_) => Status::Device(DeviceFault::Write),
    }
}
