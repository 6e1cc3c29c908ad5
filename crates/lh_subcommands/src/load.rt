//! The subcommand `load`: from the records of another store to an image.
ghost use Rattle.std.specs.Prelude.{◌≡◌, IfOk, IfSome, Some, map};
ghost use Rattle.std.specs.List.{position};
ghost use Rattle.lh_exchange.specs.Exchanged.{records_in};
ghost use Rattle.lh_subcommands.specs.Loading.{EndsLoading, LoadsCalls, ReadsStream, adding, meets_key};

use crate::device::{ReadError, read_whole};
use crate::images::{unwritten, write_in};
use crate::status::{DeviceFault, InputFault, Status};
use lh_addr::Config;
use lh_bucket::{Call, Listing, PagedBucket, Reply};
use lh_core::serial;
use lh_exchange::{ExchangeError, ExchangeFault, read_records};
use lh_image::Version;
use lh_page::Pair;
use std::alloc::{AllocError, Global};
use std::fmt;
use std::io::{Read, Write};

/// Why records were not loaded.
#[derive(Clone, Copy, Debug, PartialEq, Eq)]
pub enum RecordsFault {
    /// The stream of records is at fault.
    Stream(ExchangeFault),
    /// The key of this record, counted from 1, is that of one in front of it.
    KeyTwice(usize),
}

impl fmt::Display for RecordsFault {
    ghost use Rattle.lh_subcommands.specs.Status.{records_fault_text};

    ghost output = { λ fault. Some (records_fault_text fault) };

    fn fmt<W: fmt::Write>(&self, f: &mut fmt::Formatter<W>) -> fmt::Result {
        match self {
            RecordsFault::Stream(fault) => write!(f, "{fault}"),
            RecordsFault::KeyTwice(record) => write!(f, "record {record}: its key came before"),
        }
    }
}

/// The calls that add records.
fn calls_of(alloc: Global, pairs: &[Pair]) -> Result<Vec<Call>, AllocError>
    ensures { IfOk result (λ calls. calls.items ≡ map adding pairs.now) }
{
    let mut calls = Vec::with_capacity(alloc, pairs.len())?;
    for pair in pairs {
        calls.push(Call::Insert(pair.key, pair.value))?;
    }
    Ok(calls)
}

/// Reads a stream of records whole, as the calls that add them, or says how the run ends.
fn read_calls<R: Read>(alloc: Global, reader: &mut R) -> Result<Vec<Call>, Status>
    ensures { IfSome (R.remaining reader.old) (λ input. ReadsStream result (records_in input)) }
{
    let bytes = match read_whole(alloc, reader) {
        Ok(bytes) => bytes,
        Err(ReadError::Memory) => return Err(Status::Memory),
        Err(ReadError::Failed) => return Err(Status::Device(DeviceFault::Read)),
    };
    let pairs = match read_records(alloc, bytes.as_slice()) {
        Ok(pairs) => pairs,
        Err(ExchangeError::Memory) => return Err(Status::Memory),
        Err(ExchangeError::Fault(fault)) => {
            return Err(Status::Input(InputFault::Load(RecordsFault::Stream(fault))));
        },
    };
    match calls_of(alloc, pairs.as_slice()) {
        Ok(calls) => Ok(calls),
        Err(_) => Err(Status::Memory),
    }
}

/// How many replies stand in front of the first insert that met its key, if one did.
fn before_met(replies: &[Reply]) -> Option<usize>
    ensures { result ≡ position meets_key replies.now }
{
    replies
        .iter()
        .position(|reply| matches!(reply, Reply::Exists))
}

/// The file that calls lead to, each of which adds a record under a key of its own; or how the run ends.
fn file_of(alloc: Global, config: Config, calls: &[Call]) -> Result<Listing, Status>
    ensures { LoadsCalls config calls.now result }
{
    let Ok(ran) = serial::<PagedBucket>(alloc, config, calls) else {
        return Err(Status::Memory);
    };
    if let Some(before) = before_met(ran.replies.as_slice()) {
        return Err(Status::Input(InputFault::Load(RecordsFault::KeyTwice(before + 1))));
    }
    let Ok(listing) = ran.world.listing() else {
        return Err(Status::Memory);
    };
    // In a listing each record is at home, and no key stands twice.
    let _ = listing.buckets();
    Ok(listing)
}

/// Reads the records of a stream in the format of cdb or of db whole, and writes the image of a file that has just
/// these, in a version.
pub fn answer_load<R: Read, W: Write>(
    alloc: Global,
    config: Config,
    version: Version,
    reader: &mut R,
    writer: &mut W,
) -> Status
    ensures { IfSome (R.remaining reader.old) (λ input.
        EndsLoading version config input result (W.contents writer.old) (W.contents writer.new)) }
{
    let calls = match read_calls(alloc, reader) {
        Ok(calls) => calls,
        Err(status) => return status,
    };
    let listing = match file_of(alloc, config, calls.as_slice()) {
        Ok(listing) => listing,
        Err(status) => return status,
    };
    match write_in(version, &listing, writer) {
        Ok(()) => Status::Done,
        Err(fault) => unwritten(fault),
    }
}
