//! The subcommands for images: `build`, from a script to an image, `migrate`, from an image to one of version 2, and
//! `check` and `dump`, from an image to a text.
ghost use Rattle.std.specs.Prelude.{◌≡◌, IfOk, IfSome};
ghost use Rattle.lh_image.specs.Reading.{IsDueAnswer};
ghost use Rattle.lh_image.specs.Writing.{IsWritten};
ghost use Rattle.lh_subcommands.specs.Images.{EndsBuilding, IsLedTo, check_due, dump_due, migrate_due};
ghost use Rattle.lh_subcommands.specs.Images.{unwritten_as};
ghost use Rattle.lh_subcommands.specs.Run.{Ends};

use crate::device::write_all;
use crate::image_texts::CensusText;
use crate::input::{read_script, unreadable};
use crate::output::{room, write_records};
use crate::status::{DeviceFault, InputFault, Status};
use lh_addr::Config;
use lh_bucket::{Call, Listing, PagedBucket};
use lh_core::{Memory, serial};
use lh_image::laws::census_counts_pages;
use lh_image::{Version, WriteImageFault, check_image, read_image, write_image, write_image_v1};
use lh_script::Notation;
use std::alloc::Global;
use std::io::{Read, Write};

/// The file that calls lead to from an empty one.
fn file_after(alloc: Global, config: Config, calls: &[Call]) -> Result<Listing, Memory>
    ensures { IfOk result (IsLedTo config calls.now) }
{
    let ran = serial::<PagedBucket>(alloc, config, calls)?;
    let listing = ran.world.listing()?;
    // In a listing each record is at home, and no key stands twice.
    let _ = listing.buckets();
    Ok(listing)
}

/// Writes a file as an image of a version.
pub(crate) fn write_in<W: Write>(
    version: Version,
    listing: &Listing,
    writer: &mut W,
) -> Result<(), WriteImageFault>
    ensures { IsWritten version listing.now result (W.contents writer.old) (W.contents writer.new) }
{
    match version {
        Version::One => write_image_v1(listing, writer),
        Version::Two => write_image(listing, writer),
    }
}

/// How a run ends whose file was not written.
#[tactic(auto, using(crate::proofs::Building::unwritten_for_file))]
pub(crate) fn unwritten(fault: WriteImageFault) -> Status
    ensures { result ≡ unwritten_as fault }
{
    match fault {
        WriteImageFault::WriteFault => Status::Device(DeviceFault::Write),
        WriteImageFault::Memory => Status::Memory,
        fault => Status::Input(InputFault::Unwritten(fault)),
    }
}

/// Reads a command script whole, answers its calls in turn from an empty file, and writes that file
/// as an image of a version.
#[tactic(auto, using(crate::proofs::Building::unbuilt, crate::proofs::Building::unbuilt_memory))]
pub fn answer_build<R: Read, W: Write>(
    alloc: Global,
    notation: Notation,
    config: Config,
    version: Version,
    reader: &mut R,
    writer: &mut W,
) -> Status
    ensures { IfSome (R.remaining reader.old) (λ input.
        EndsBuilding notation version config input result (W.contents writer.old) (W.contents writer.new)) }
{
    let calls: Vec<Call> = match read_script(alloc, notation, reader) {
        Ok(calls) => calls,
        Err(status) => return status,
    };
    let Ok(listing) = file_after(alloc, config, calls.as_slice()) else {
        return Status::Memory;
    };
    match write_in(version, &listing, writer) {
        Ok(()) => Status::Done,
        Err(fault) => unwritten(fault),
    }
}

/// Reads an image of either version, and writes its file as one of version 2. That has as many pages, so it is never
/// too large.
pub fn answer_migrate<R: Read, W: Write>(alloc: Global, reader: &mut R, writer: &mut W) -> Status
    ensures { IfSome (R.remaining reader.old) (λ input.
        Ends result (migrate_due input) (W.contents writer.old) (W.contents writer.new)) }
{
    // The image that was read has a page for each of the file's, so those aren't too many for another one.
    census_counts_pages();
    let listing = match read_image(alloc, reader) {
        Ok(listing) => listing,
        Err(fault) => return unreadable(fault),
    };
    match write_image(&listing, writer) {
        Ok(()) => Status::Done,
        Err(fault) => unwritten(fault),
    }
}

/// Reads an image, and writes its counts.
pub fn answer_check<R: Read, W: Write>(alloc: Global, reader: &mut R, writer: &mut W) -> Status
    ensures { IfSome (R.remaining reader.old) (λ input.
        Ends result (check_due input) (W.contents writer.old) (W.contents writer.new)) }
{
    let census = match check_image(alloc, reader) {
        Ok(census) => census,
        Err(fault) => return unreadable(fault),
    };
    let Ok(text) = CensusText(&census).to_string(alloc) else {
        return Status::Memory;
    };
    match write_all(writer, text.as_bytes()) {
        Ok(()) => Status::Done,
        Err(_) => Status::Device(DeviceFault::Write),
    }
}

/// Reads an image, and writes a line for each of its records.
pub fn answer_dump<R: Read, W: Write>(
    alloc: Global,
    notation: Notation,
    reader: &mut R,
    writer: &mut W,
) -> Status
    ensures { IfSome (R.remaining reader.old) (λ input.
        Ends result (dump_due notation input) (W.contents writer.old) (W.contents writer.new)) }
{
    let listing = match read_image(alloc, reader) {
        Ok(listing) => listing,
        Err(fault) => return unreadable(fault),
    };
    let Ok(mut waiting) = room(alloc) else {
        return Status::Memory;
    };
    match write_records(writer, &mut waiting, notation, &listing) {
        Ok(()) => Status::Done,
        Err(_) => Status::Device(DeviceFault::Write),
    }
}
