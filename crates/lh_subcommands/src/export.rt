//! The subcommand `dump` in the formats of other stores.
ghost use Rattle.std.specs.Prelude.{◌≡◌, ◌+◌, ◌<◌, ◌≤◌, ℕ, List, Option, [], flat_map, IfOk, IfSome, OnErr, OnOk};
ghost use Rattle.std.specs.Prelude.{length, vec_capacity};
ghost use Rattle.std.specs.Io.KnownBytes.{Appends};
ghost use Rattle.lh_bucket.specs.Listing.{list_at, size};
ghost use Rattle.lh_exchange.specs.StreamTexts.{longest_exchanged, pair_text};
ghost use Rattle.lh_subcommands.specs.Devices.{Adds, Breaks, Sends, TakesBeginning, written_at_once};
ghost use Rattle.lh_subcommands.specs.Exporting.{HasRecordRoom, export_due, exported_text};
ghost use Rattle.lh_subcommands.specs.Run.{Ends};

use crate::device::write_all;
use crate::input::unreadable;
use crate::output::CHUNK;
use crate::status::{DeviceFault, Status};
use lh_bucket::Listing;
use lh_exchange::laws::records_have_room;
use lh_exchange::{LONGEST_RECORD, StreamFormat, head, tail, write_record};
use lh_image::{WriteFailed, read_image};
use std::alloc::{AllocError, Global};
use std::io::{Read, Write};

/// Room for the bytes that wait, so that no record needs memory later.
fn room(alloc: Global) -> Result<Vec<u8>, AllocError>
    ensures empty { IfOk result (λ waiting. waiting.items ≡ []) }
    ensures reserved { IfOk result (λ waiting. written_at_once + longest_exchanged ≤ vec_capacity waiting) }
{
    Vec::with_capacity(alloc, CHUNK + LONGEST_RECORD)
}

/// Writes what waits where it is enough.
#[tactic(auto, using(crate::proofs::Sending::sends_now, crate::proofs::Sending::stops_within))]
fn send_enough<W: Write>(writer: &mut W, waiting: &mut Vec<u8>) -> Result<(), WriteFailed>
    ensures ok { (before : Option (List ℕ)) (text : List ℕ) →
        Sends before (W.contents writer.old) waiting.old.items text →
        OnOk result (Sends before (W.contents writer.new) waiting.new.items text) }
    ensures err { (before : Option (List ℕ)) (text : List ℕ) →
        Sends before (W.contents writer.old) waiting.old.items text →
        OnErr result (TakesBeginning before (W.contents writer.new) text) }
    ensures few { OnOk result (length waiting.new.items < written_at_once) }
    ensures room { vec_capacity waiting.new ≡ vec_capacity waiting.old }
{
    if waiting.len() >= CHUNK {
        write_all(writer, waiting.as_slice())?;
        waiting.clear();
    }
    Ok(())
}

/// Adds bytes, no more than a record has, to those that wait, and writes these where they are enough.
fn put_bytes<W: Write>(
    writer: &mut W,
    waiting: &mut Vec<u8>,
    bytes: &[u8],
) -> Result<(), WriteFailed>
    requires room { HasRecordRoom waiting.old }
    requires short { length bytes.now ≤ longest_exchanged }
    ensures room { OnOk result (HasRecordRoom waiting.new) }
    ensures ok { Adds result (W.contents writer.old) (W.contents writer.new) waiting.old.items waiting.new.items
        bytes.now }
    ensures err { Breaks result (W.contents writer.old) (W.contents writer.new) waiting.old.items bytes.now }
{
    let Ok(()) = waiting.extend_from_slice(bytes) else {
        // There is room for a record more than what waits.
        unreachable!()
    };
    send_enough(writer, waiting)
}

/// Writes the records of a bucket, in the order of the chain.
fn write_pairs<W: Write>(
    writer: &mut W,
    waiting: &mut Vec<u8>,
    format: StreamFormat,
    listing: &Listing,
    bucket: u32,
) -> Result<(), WriteFailed>
    requires bucket { bucket < size listing.now }
    requires room { HasRecordRoom waiting.old }
    ensures room { OnOk result (HasRecordRoom waiting.new) }
    ensures ok { Adds result (W.contents writer.old) (W.contents writer.new) waiting.old.items waiting.new.items
        (flat_map (pair_text format) (list_at listing.now.lists bucket)) }
    ensures err { Breaks result (W.contents writer.old) (W.contents writer.new) waiting.old.items
        (flat_map (pair_text format) (list_at listing.now.lists bucket)) }
{
    // No record is longer than the room that is kept for one.
    records_have_room();
    let mut room = [0; LONGEST_RECORD];
    for place in 0..listing.len_of(bucket) {
        let pair = listing.pair_at(bucket, place);
        put_bytes(writer, waiting, write_record(format, &pair, &mut room))?;
    }
    Ok(())
}

/// Writes all records, the buckets in rising order.
fn write_stream<W: Write>(
    writer: &mut W,
    waiting: &mut Vec<u8>,
    format: StreamFormat,
    listing: &Listing,
) -> Result<(), WriteFailed>
    requires empty { waiting.old.items ≡ [] }
    requires room { written_at_once + longest_exchanged ≤ vec_capacity waiting.old }
    ensures ok { OnOk result (Appends (W.contents writer.old) (W.contents writer.new)
        (exported_text format listing.now)) }
    ensures err { OnErr result (TakesBeginning (W.contents writer.old) (W.contents writer.new)
        (exported_text format listing.now)) }
{
    put_bytes(writer, waiting, head(format))?;
    for bucket in 0..listing.buckets() {
        write_pairs(writer, waiting, format, listing, bucket)?;
    }
    put_bytes(writer, waiting, tail(format))?;
    write_all(writer, waiting.as_slice())
}

/// Reads an image, and writes its records as a stream that another store reads.
pub fn answer_export<R: Read, W: Write>(
    alloc: Global,
    format: StreamFormat,
    reader: &mut R,
    writer: &mut W,
) -> Status
    ensures { IfSome (R.remaining reader.old) (λ input.
        Ends result (export_due format input) (W.contents writer.old) (W.contents writer.new)) }
{
    let listing = match read_image(alloc, reader) {
        Ok(listing) => listing,
        Err(fault) => return unreadable(fault),
    };
    let Ok(mut waiting) = room(alloc) else {
        return Status::Memory;
    };
    match write_stream(writer, &mut waiting, format, &listing) {
        Ok(()) => Status::Done,
        Err(WriteFailed) => Status::Device(DeviceFault::Write),
    }
}
