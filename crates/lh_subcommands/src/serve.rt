//! The subcommand `serve`: each line of the input is answered by a line of the output, while both stay open.
ghost use Rattle.std.specs.Prelude.{◌≡◌, ◌<◌, ◌≤◌, ◌++◌, ℕ, List, None, Option, [], false, IfErr, IfOk, IfSome, Ok};
ghost use Rattle.std.specs.Prelude.{OnErr, OnOk, Some, length, take};
ghost use Rattle.std.specs.Io.{ReadsAtMost};
ghost use Rattle.std.specs.Io.KnownBytes.{Appends, Consumes, IsAtEnd, Keeps, ReadConsumes};
ghost use Rattle.lh_bucket.specs.Listing.{Lists};
ghost use Rattle.lh_image.specs.Reading.{following, leading, reading_of};
ghost use Rattle.lh_serving.specs.Answers.{file_of, first_file};
ghost use Rattle.lh_serving.specs.Conversations.{Beginning, IsAt, HasToldAll, beginning, pending};
ghost use Rattle.lh_subcommands.specs.Devices.{TakesBeginning};
ghost use Rattle.lh_subcommands.specs.Serve.{EndsAtFault, EndsServing, EndsServingFrom, EndsServingOf, IsCutShort};
ghost use Rattle.lh_subcommands.specs.Serve.{IsTelling, IsUnopened};

use crate::device::write_all;
use crate::input::unreadable;
use crate::status::{DeviceFault, Status};
use lh_addr::Config;
use lh_image::{WriteFailed, read_image, read_leading_image, write_image};
use lh_script::Notation;
use lh_serving::Conversation;
use std::alloc::{AllocError, Global};
use std::io::{Read, Write};

/// The most bytes that one read is asked for.
const CHUNK: usize = 65_536;

/// As many bytes of answers don't wait until all that was read is answered.
const TOLD_AT_ONCE: usize = 65_536;

fn room_to_listen(alloc: Global) -> Result<Vec<u8>, AllocError>
    ensures { IfOk result (λ chunk. 0 < length chunk.items) }
{
    let mut chunk = Vec::new(alloc);
    chunk.resize(CHUNK, 0)?;
    Ok(chunk)
}

/// One read, before which all answers have been told.
fn listen<R: Read>(
    reader: &mut R,
    talk: &Conversation,
    chunk: &mut [u8],
) -> Result<usize, DeviceFault>
    requires told { HasToldAll talk.now }
    requires room { 0 < length chunk.old }
    ensures bytes { IfOk result (λ n. (n ≤ length chunk.new)
        × Consumes (R.remaining reader.old) (R.remaining reader.new) (take n chunk.new)
        × (n ≡ 0 → IsAtEnd (R.remaining reader.new))) }
    ensures err { OnErr result (Keeps (R.remaining reader.old) (R.remaining reader.new)) }
{
    match reader.read(chunk) {
        Ok(count) => Ok(count),
        Err(_) => Err(DeviceFault::Read),
    }
}

/// Writes what waits, and flushes it.
fn write_pending<W: Write>(writer: &mut W, talk: &Conversation) -> Result<(), WriteFailed>
    ensures ok { OnOk result (Appends (W.contents writer.old) (W.contents writer.new) (pending talk.now)) }
    ensures err { OnErr result (TakesBeginning (W.contents writer.old) (W.contents writer.new) (pending talk.now)) }
{
    write_all(writer, talk.waiting())?;
    let Some(listing) = talk.image() else {
        return Ok(());
    };
    match write_image(listing, writer) {
        Ok(()) => Ok(()),
        Err(_) => Err(WriteFailed),
    }
}

/// Tells what waits, if anything does.
fn tell<W: Write>(writer: &mut W, talk: &mut Conversation) -> Result<(), WriteFailed>
    ensures told { OnOk result (HasToldAll talk.new) }
    ensures ok { (start : Beginning) (before : Option (List ℕ)) (heard : List ℕ) →
        IsTelling start talk.old before (W.contents writer.old) heard →
        OnOk result (IsTelling start talk.new before (W.contents writer.new) heard) }
    ensures err { (start : Beginning) (before : Option (List ℕ)) (heard : List ℕ) →
        IsTelling start talk.old before (W.contents writer.old) heard →
        OnErr result (IsCutShort start before (W.contents writer.new) heard) }
{
    if talk.is_quiet() {
        return Ok(());
    }
    write_pending(writer, talk)?;
    talk.note_told();
    Ok(())
}

/// Tells what waits, where it is enough; an image always is.
fn tell_enough<W: Write>(writer: &mut W, talk: &mut Conversation) -> Result<(), WriteFailed>
    ensures image { OnOk result (talk.new.image ≡ None) }
    ensures ok { (start : Beginning) (before : Option (List ℕ)) (heard : List ℕ) →
        IsTelling start talk.old before (W.contents writer.old) heard →
        OnOk result (IsTelling start talk.new before (W.contents writer.new) heard) }
    ensures err { (start : Beginning) (before : Option (List ℕ)) (heard : List ℕ) →
        IsTelling start talk.old before (W.contents writer.old) heard →
        OnErr result (IsCutShort start before (W.contents writer.new) heard) }
{
    if talk.waiting().len() < TOLD_AT_ONCE && talk.image().is_none() {
        return Ok(());
    }
    tell(writer, talk)
}

/// Hears bytes up to their first LF, and tells what waits where it is enough: what is behind it. An answer that can't
/// be made counts as a failed write; with the room that a conversation has there is none.
fn answer_first<'a, W: Write>(
    writer: &mut W,
    talk: &mut Conversation,
    bytes: &'a [u8],
) -> Result<&'a [u8], WriteFailed>
    requires some { 0 < length bytes.now }
    requires image { talk.old.image ≡ None }
    ensures shorter { IfOk result (λ behind. length behind.now < length bytes.now) }
    ensures image { OnOk result (talk.new.image ≡ None) }
    ensures ok { (start : Beginning) (before : Option (List ℕ)) (heard : List ℕ) →
        IsTelling start talk.old before (W.contents writer.old) heard →
        IfOk result (λ behind. (taken : List ℕ) × (bytes.now ≡ taken ++ behind.now)
        × IsTelling start talk.new before (W.contents writer.new) (heard ++ taken)) }
    ensures err { (start : Beginning) (before : Option (List ℕ)) (heard : List ℕ) →
        IsTelling start talk.old before (W.contents writer.old) heard →
        OnErr result (IsCutShort start before (W.contents writer.new) (heard ++ bytes.now)) }
{
    let Ok(behind) = talk.hear(bytes) else {
        return Err(WriteFailed);
    };
    tell_enough(writer, talk)?;
    Ok(behind)
}

/// Answers the lines that end in bytes which came, and tells all answers.
fn answer_all<W: Write>(
    writer: &mut W,
    talk: &mut Conversation,
    bytes: &[u8],
) -> Result<(), WriteFailed>
    requires { talk.old.image ≡ None }
    ensures told { OnOk result (HasToldAll talk.new) }
    ensures ok { (start : Beginning) (before : Option (List ℕ)) (heard : List ℕ) →
        IsTelling start talk.old before (W.contents writer.old) heard →
        OnOk result (IsTelling start talk.new before (W.contents writer.new) (heard ++ bytes.now)) }
    ensures err { (start : Beginning) (before : Option (List ℕ)) (heard : List ℕ) →
        IsTelling start talk.old before (W.contents writer.old) heard →
        OnErr result (IsCutShort start before (W.contents writer.new) (heard ++ bytes.now)) }
{
    let mut rest = bytes;
    while !rest.is_empty() {
        rest = answer_first(writer, talk, rest)?;
    }
    tell(writer, talk)
}

/// Listens once, and answers the lines that are complete then: whether the input goes on.
fn take_turn<R: Read, W: Write>(
    reader: &mut R,
    writer: &mut W,
    talk: &mut Conversation,
    chunk: &mut [u8],
) -> Result<bool, DeviceFault>
    requires told { HasToldAll talk.old }
    requires room { 0 < length chunk.old }
    ensures told { OnOk result (HasToldAll talk.new) }
    ensures ok { (start : Beginning) (before : Option (List ℕ)) (heard : List ℕ) →
        IsTelling start talk.old before (W.contents writer.old) heard →
        IfOk result (λ more. (bytes : List ℕ) × Consumes (R.remaining reader.old) (R.remaining reader.new) bytes
        × IsTelling start talk.new before (W.contents writer.new) (heard ++ bytes)
        × (more ≡ false → IsAtEnd (R.remaining reader.new))) }
    ensures err { (start : Beginning) (before : Option (List ℕ)) (heard : List ℕ) →
        IsTelling start talk.old before (W.contents writer.old) heard →
        IfErr result (λ fault. (bytes : List ℕ) × Consumes (R.remaining reader.old) (R.remaining reader.new) bytes
        × EndsAtFault start fault before (W.contents writer.new) heard bytes) }
{
    let Ok(count) = listen(reader, talk, chunk) else {
        return Err(DeviceFault::Read);
    };
    if count == 0 {
        return Ok(false);
    }
    match answer_all(writer, talk, &chunk[..count]) {
        Ok(()) => Ok(true),
        Err(WriteFailed) => Err(DeviceFault::Write),
    }
}

/// Answers each line of the input until it ends. At each read just the answers to the complete lines before it have
/// been written, and flushed.
fn converse<R: Read, W: Write>(
    alloc: Global,
    mut talk: Conversation,
    reader: &mut R,
    writer: &mut W,
) -> Status
    requires { HasToldAll talk }
    ensures { (start : Beginning) → IsAt start talk [] [] → IfSome (R.remaining reader.old) (λ input.
        EndsServing start input result (R.remaining reader.new) (W.contents writer.old) (W.contents writer.new)) }
{
    let Ok(mut chunk) = room_to_listen(alloc) else {
        return Status::Memory;
    };
    let chunk = chunk.as_mut_slice();
    'turns: for _ in 0..u64::MAX {
        match take_turn(reader, writer, &mut talk, chunk) {
            Ok(true) => {}
            Ok(false) => return Status::Done,
            Err(fault) => return Status::Device(fault),
        }
    }
    // There are no more reads than can be counted.
    Status::Device(DeviceFault::Read)
}

/// Answers each line of the input, from an empty file of this configuration.
pub fn answer_serve<R: Read, W: Write>(
    alloc: Global,
    notation: Notation,
    is_terminal: bool,
    config: Config,
    reader: &mut R,
    writer: &mut W,
) -> Status
    ensures { IfSome (R.remaining reader.old) (λ input. EndsServing (beginning notation is_terminal (first_file config)) input result
        (R.remaining reader.new) (W.contents writer.old) (W.contents writer.new)) }
{
    match Conversation::new(alloc, notation, is_terminal, config) {
        Ok(talk) => converse(alloc, talk, reader, writer),
        Err(_) => Status::Memory,
    }
}

/// A conversation over the file of the image that the input begins with, or how the run ends.
fn opened<R: Read>(
    alloc: Global,
    notation: Notation,
    is_terminal: bool,
    reader: &mut R,
) -> Result<Conversation, Status>
    ensures quiet { IfOk result HasToldAll }
    ensures ok { IfSome (R.remaining reader.old) (λ input. IfOk result (λ talk.
        (l : Lists) × (reading_of (leading input) ≡ Ok l) × IsAt (beginning notation is_terminal (file_of l)) talk [] [])) }
    ensures rest { IfSome (R.remaining reader.old) (λ input.
        OnOk result (R.remaining reader.new ≡ Some (following input))) }
    ensures err { IfSome (R.remaining reader.old) (λ input.
        IfErr result (λ status. IsUnopened status (reading_of (leading input)))) }
{
    let listing = match read_leading_image(alloc, reader) {
        Ok(listing) => listing,
        Err(fault) => return Err(unreadable(fault)),
    };
    match Conversation::open_from(alloc, notation, is_terminal, &listing) {
        Ok(talk) => Ok(talk),
        Err(_) => Err(Status::Memory),
    }
}

/// Answers each line behind the image that the input begins with, from the image's file.
pub fn answer_serve_from<R: Read, W: Write>(
    alloc: Global,
    notation: Notation,
    is_terminal: bool,
    reader: &mut R,
    writer: &mut W,
) -> Status
    ensures { IfSome (R.remaining reader.old) (λ input. EndsServingFrom notation is_terminal input result
        (R.remaining reader.new) (W.contents writer.old) (W.contents writer.new)) }
{
    match opened(alloc, notation, is_terminal, reader) {
        Ok(talk) => converse(alloc, talk, reader, writer),
        Err(status) => status,
    }
}

/// A conversation over the file of an image that is an input of its own, or how the run ends.
fn opened_apart<Q: Read>(
    alloc: Global,
    notation: Notation,
    is_terminal: bool,
    image: &mut Q,
) -> Result<Conversation, Status>
    ensures quiet { IfOk result HasToldAll }
    ensures ok { IfSome (Q.remaining image.old) (λ held. IfOk result (λ talk.
        (l : Lists) × (reading_of held ≡ Ok l) × IsAt (beginning notation is_terminal (file_of l)) talk [] [])) }
    ensures err { IfSome (Q.remaining image.old) (λ held.
        IfErr result (λ status. IsUnopened status (reading_of held))) }
{
    let listing = read_image(alloc, image).map_err(unreadable)?;
    Conversation::open_from(alloc, notation, is_terminal, &listing).map_err(|_| Status::Memory)
}

/// Answers each line of the input from the file of an image that is an input of its own.
pub fn answer_serve_of<Q: Read, R: Read, W: Write>(
    alloc: Global,
    notation: Notation,
    is_terminal: bool,
    image: &mut Q,
    reader: &mut R,
    writer: &mut W,
) -> Status
    ensures { IfSome (Q.remaining image.old) (λ held. IfSome (R.remaining reader.old) (λ lines.
        EndsServingOf notation is_terminal held lines result (R.remaining reader.new) (W.contents writer.old) (W.contents writer.new))) }
{
    let talk = match opened_apart(alloc, notation, is_terminal, image) {
        Ok(talk) => talk,
        Err(status) => return status,
    };
    converse(alloc, talk, reader, writer)
}
