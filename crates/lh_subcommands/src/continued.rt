//! The subcommands that read an image, and behind its last page or from another input a script of calls: `query` tells
//! their replies, and `apply` writes the image of the file that they leave.
ghost use Rattle.std.specs.Prelude.{◌≡◌, IfOk, IfSome, List, Result};
ghost use Rattle.lh_bucket.specs.Listing.{Lists};
ghost use Rattle.lh_image.specs.Reading.{leading, reading_of};
ghost use Rattle.lh_image.specs.declared.fault.ImageFault.{ImageFault};
ghost use Rattle.lh_script.specs.Commands.{command};
ghost use Rattle.lh_script.specs.Scripts.{script};
ghost use Rattle.lh_script.specs.declared.fault.ScriptFault.{ScriptFault};
ghost use Rattle.lh_subcommands.specs.Continued.{EndsApplying, EndsApplyingTo, EndsLeaving, IsLeft, ReadsContinued};
ghost use Rattle.lh_subcommands.specs.Continued.{query_due, query_due_of, replies_due, script_behind};
ghost use Rattle.lh_subcommands.specs.Run.{Ends};

use crate::answer::tell;
use crate::images::{unwritten, write_in};
use crate::input::{read_script, unreadable};
use crate::status::Status;
use lh_bucket::{Call, Listing};
use lh_core::{Memory, serial_from};
use lh_image::{Version, read_image, read_leading_image};
use lh_script::Notation;
use std::alloc::Global;
use std::io::{Read, Write};

/// A file, and the calls that are to be served on it.
#[derive(Drop)]
pub(crate) struct Continued {
    pub(crate) listing: Listing,
    pub(crate) calls: Vec<Call>,
}

/// Reads an image and the script behind it whole, or says how the run ends.
fn read_continued<R: Read>(
    alloc: Global,
    notation: Notation,
    reader: &mut R,
) -> Result<Continued, Status>
    ensures { IfSome (R.remaining reader.old) (λ input.
        ReadsContinued result (reading_of (leading input)) (script_behind notation input)) }
{
    let listing = match read_leading_image(alloc, reader) {
        Ok(listing) => listing,
        Err(fault) => return Err(unreadable(fault)),
    };
    match read_script(alloc, notation, reader) {
        Ok(calls) => Ok(Continued { listing, calls }),
        Err(status) => Err(status),
    }
}

/// Reads an image, all of an input of its own, and a script whole; or says how the run ends.
fn read_apart<Q: Read, R: Read>(
    alloc: Global,
    notation: Notation,
    image: &mut Q,
    reader: &mut R,
) -> Result<Continued, Status>
    ensures { IfSome (Q.remaining image.old) (λ held. IfSome (R.remaining reader.old) (λ text.
        ReadsContinued result (reading_of held) (script (command notation) text))) }
{
    let listing = read_image(alloc, image).map_err(unreadable)?;
    let calls = read_script(alloc, notation, reader)?;
    Ok(Continued { listing, calls })
}

/// Answers the calls that were read in turn from their file, and writes their replies and the number of buckets.
fn answer_read<W: Write>(
    alloc: Global,
    notation: Notation,
    read: Result<Continued, Status>,
    writer: &mut W,
) -> Status
    ensures { (file : Result Lists ImageFault) (given : Result (List Call) ScriptFault) →
        ReadsContinued read file given →
        Ends result (replies_due notation file given) (W.contents writer.old) (W.contents writer.new) }
{
    let read = match read {
        Ok(read) => read,
        Err(status) => return status,
    };
    match serial_from(alloc, &read.listing, read.calls.as_slice()) {
        Ok(ran) => tell(alloc, notation, &ran, writer),
        Err(_) => Status::Memory,
    }
}

/// Reads an image and a script of calls behind it, answers them in turn from the image's file, and writes their replies
/// and the number of buckets.
pub fn answer_query<R: Read, W: Write>(
    alloc: Global,
    notation: Notation,
    reader: &mut R,
    writer: &mut W,
) -> Status
    ensures { IfSome (R.remaining reader.old) (λ input.
        Ends result (query_due notation input) (W.contents writer.old) (W.contents writer.new)) }
{
    let read = read_continued(alloc, notation, reader);
    answer_read(alloc, notation, read, writer)
}

/// The same of an image that is an input of its own.
pub fn answer_query_of<Q: Read, R: Read, W: Write>(
    alloc: Global,
    notation: Notation,
    image: &mut Q,
    reader: &mut R,
    writer: &mut W,
) -> Status
    ensures { IfSome (Q.remaining image.old) (λ held. IfSome (R.remaining reader.old) (λ text.
        Ends result (query_due_of notation held text) (W.contents writer.old) (W.contents writer.new))) }
{
    let read = read_apart(alloc, notation, image, reader);
    answer_read(alloc, notation, read, writer)
}

/// The file that calls leave of another one.
fn file_left(alloc: Global, file: &Listing, calls: &[Call]) -> Result<Listing, Memory>
    ensures { IfOk result (IsLeft file.now calls.now) }
{
    let ran = serial_from(alloc, file, calls)?;
    let left = ran.world.listing()?;
    // In a listing each record is at home, and no key stands twice.
    let _ = left.buckets();
    Ok(left)
}

/// Answers the calls that were read in turn from their file, and writes the file that they leave as an image of a
/// version.
fn apply_read<W: Write>(
    alloc: Global,
    version: Version,
    read: Result<Continued, Status>,
    writer: &mut W,
) -> Status
    ensures { (file : Result Lists ImageFault) (given : Result (List Call) ScriptFault) →
        ReadsContinued read file given →
        EndsLeaving version result file given (W.contents writer.old) (W.contents writer.new) }
{
    let read = match read {
        Ok(read) => read,
        Err(status) => return status,
    };
    let Ok(left) = file_left(alloc, &read.listing, read.calls.as_slice()) else {
        return Status::Memory;
    };
    match write_in(version, &left, writer) {
        Ok(()) => Status::Done,
        Err(fault) => unwritten(fault),
    }
}

/// Reads an image and a script of calls behind it, answers them in turn from the image's file, and writes the file that
/// they leave as an image of a version.
pub fn answer_apply<R: Read, W: Write>(
    alloc: Global,
    notation: Notation,
    version: Version,
    reader: &mut R,
    writer: &mut W,
) -> Status
    ensures { IfSome (R.remaining reader.old) (λ input.
        EndsApplying notation version input result (W.contents writer.old) (W.contents writer.new)) }
{
    let read = read_continued(alloc, notation, reader);
    apply_read(alloc, version, read, writer)
}

/// The same of an image that is an input of its own.
pub fn answer_apply_to<Q: Read, R: Read, W: Write>(
    alloc: Global,
    notation: Notation,
    version: Version,
    image: &mut Q,
    reader: &mut R,
    writer: &mut W,
) -> Status
    ensures { IfSome (Q.remaining image.old) (λ held. IfSome (R.remaining reader.old) (λ text.
        EndsApplyingTo notation version held text result (W.contents writer.old) (W.contents writer.new))) }
{
    let read = read_apart(alloc, notation, image, reader);
    apply_read(alloc, version, read, writer)
}
