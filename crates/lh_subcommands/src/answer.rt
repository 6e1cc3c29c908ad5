//! The subcommands `commands` and `steps`, from the bytes of a script to the bytes of the output.
ghost use Rattle.std.specs.Prelude.{IfSome, Ok};
ghost use Rattle.lh_script.specs.Commands.{command};
ghost use Rattle.lh_script.specs.Texts.{commands_text};
ghost use Rattle.lh_subcommands.specs.Run.{Ends, EndsSteps, commands_due};

use crate::input::{read_script, take_steps};
use crate::output::{room, write_entries, write_replies};
use crate::status::{DeviceFault, Status};
use lh_addr::Config;
use lh_bucket::{Call, PagedBucket};
use lh_core::{SerialRan, serial};
use lh_image::WriteFailed;
use lh_script::Notation;
use std::alloc::Global;
use std::io::{Read, Write};

/// Writes the replies to calls that were served, and the number of buckets that they left.
pub(crate) fn tell<W: Write>(
    alloc: Global,
    notation: Notation,
    ran: &SerialRan<PagedBucket>,
    writer: &mut W,
) -> Status
    ensures { Ends result (Ok (commands_text notation ran.now.replies.items ran.now.world.state.buckets))
        (W.contents writer.old) (W.contents writer.new) }
{
    let buckets = ran.world.root().buckets();
    let Ok(mut waiting) = room(alloc) else {
        return Status::Memory;
    };
    match write_replies(
        writer,
        &mut waiting,
        notation,
        ran.replies.as_slice(),
        buckets,
    ) {
        Ok(()) => Status::Done,
        Err(_) => Status::Device(DeviceFault::Write),
    }
}

/// Reads a command script whole, answers its calls in turn from an empty file, and writes their
/// replies and the number of buckets.
#[tactic(auto, using(crate::proofs::Ending::unread), unfolding(crate::specs::Run::commands_due))]
pub fn answer_commands<R: Read, W: Write>(
    alloc: Global,
    notation: Notation,
    config: Config,
    reader: &mut R,
    writer: &mut W,
) -> Status
    ensures { IfSome (R.remaining reader.old) (λ input.
        Ends result (commands_due notation config input) (W.contents writer.old) (W.contents writer.new)) }
{
    let calls: Vec<Call> = match read_script(alloc, notation, reader) {
        Ok(calls) => calls,
        Err(status) => return status,
    };
    match serial::<PagedBucket>(alloc, config, calls.as_slice()) {
        Ok(ran) => tell(alloc, notation, &ran, writer),
        Err(_) => Status::Memory,
    }
}

/// Reads a step script whole, takes its steps in turn from an empty file, and writes a line for each.
/// Nothing is written where memory ran out at one of them.
#[tactic(auto, using(crate::proofs::Ending::no_steps))]
pub fn answer_steps<R: Read, W: Write>(
    alloc: Global,
    notation: Notation,
    config: Config,
    reader: &mut R,
    writer: &mut W,
) -> Status
    ensures { IfSome (R.remaining reader.old) (λ input.
        EndsSteps notation config input result (W.contents writer.old) (W.contents writer.new)) }
{
    let taken = match take_steps(alloc, notation, config, reader) {
        Ok(taken) => taken,
        Err(status) => return status,
    };
    let Ok(mut waiting) = room(alloc) else {
        return Status::Memory;
    };
    match write_entries(writer, &mut waiting, notation, taken.entries.as_slice()) {
        Ok(()) => Status::Done,
        Err(WriteFailed) => Status::Device(DeviceFault::Write),
    }
}
