//! The subcommand `replay`, from a step script to a picture of its schedule.
ghost use Rattle.std.specs.Prelude.{◌≡◌, OnOk, OnErr, IfSome, [], length};
ghost use Rattle.std.specs.String.{string_bytes};
ghost use Rattle.std.specs.Io.KnownBytes.{Appends};
ghost use Rattle.lh_draw.specs.Drawing.{in_turn};
ghost use Rattle.lh_replay.specs.Picture.{picture_of, step_of, top_text};
ghost use Rattle.lh_replay.specs.PictureTexts.{step_text};
ghost use Rattle.lh_subcommands.specs.Devices.{Adds, Breaks, IsReserved, TakesBeginning};
ghost use Rattle.lh_subcommands.specs.Run.{EndsReplay};

use crate::device::write_all;
use crate::input::take_steps;
use crate::output::{put, room};
use crate::status::{DeviceFault, Status};
use lh_addr::Config;
use lh_core::{Effect, Event, Refusal};
use lh_image::WriteFailed;
use lh_replay::{End, canvas_of, caption_of, heading_of, lane_count, step_of};
use lh_script::Notation;
use std::alloc::Global;
use std::io::{Read, Write};

/// Writes what stands above the steps.
fn write_top<W: Write>(
    writer: &mut W,
    waiting: &mut String,
    events: &[Event],
) -> Result<(), WriteFailed>
    ensures ok { Adds result (W.contents writer.old) (W.contents writer.new)
        (string_bytes waiting.old) (string_bytes waiting.new) (top_text events.now) }
    ensures err { Breaks result (W.contents writer.old) (W.contents writer.new)
        (string_bytes waiting.old) (top_text events.now) }
{
    put(writer, waiting, canvas_of(events))?;
    put(writer, waiting, caption_of(events))?;
    for lane in 0..lane_count(events) {
        put(writer, waiting, heading_of(events, lane))?;
    }
    Ok(())
}

/// Writes a row for each step.
fn write_steps<W: Write>(
    writer: &mut W,
    waiting: &mut String,
    events: &[Event],
    entries: &[Result<Effect, Refusal>],
) -> Result<(), WriteFailed>
    requires { length entries.now ≡ length events.now }
    ensures ok { Adds result (W.contents writer.old) (W.contents writer.new)
        (string_bytes waiting.old) (string_bytes waiting.new)
        (in_turn (λ row. step_text (step_of events.now entries.now row)) (length events.now)) }
    ensures err { Breaks result (W.contents writer.old) (W.contents writer.new)
        (string_bytes waiting.old)
        (in_turn (λ row. step_text (step_of events.now entries.now row)) (length events.now)) }
{
    for row in 0..events.len() {
        put(writer, waiting, step_of(events, entries, row))?;
    }
    Ok(())
}

/// Writes a picture of events and of what was told of them.
fn write_picture<W: Write>(
    writer: &mut W,
    waiting: &mut String,
    events: &[Event],
    entries: &[Result<Effect, Refusal>],
) -> Result<(), WriteFailed>
    requires same { length entries.now ≡ length events.now }
    requires empty { string_bytes waiting.old ≡ [] }
    requires room { IsReserved waiting.old }
    ensures ok { OnOk result (Appends (W.contents writer.old) (W.contents writer.new)
        (picture_of events.now entries.now)) }
    ensures err { OnErr result (TakesBeginning (W.contents writer.old) (W.contents writer.new)
        (picture_of events.now entries.now)) }
{
    write_top(writer, waiting, events)?;
    write_steps(writer, waiting, events, entries)?;
    put(writer, waiting, End)?;
    write_all(writer, waiting.as_bytes())
}

/// Reads a step script whole, takes its steps in turn from an empty file, and draws the effect of each. Nothing is
/// written where memory ran out at one of them.
#[tactic(auto, using(crate::proofs::Ending::no_schedule))]
pub fn answer_replay<R: Read, W: Write>(
    alloc: Global,
    config: Config,
    reader: &mut R,
    writer: &mut W,
) -> Status
    ensures { IfSome (R.remaining reader.old) (λ input.
        EndsReplay config input result (W.contents writer.old) (W.contents writer.new)) }
{
    let taken = match take_steps(alloc, Notation::Hexadecimal, config, reader) {
        Ok(taken) => taken,
        Err(status) => return status,
    };
    let Ok(mut waiting) = room(alloc) else {
        return Status::Memory;
    };
    match write_picture(
        writer,
        &mut waiting,
        taken.events.as_slice(),
        taken.entries.as_slice(),
    ) {
        Ok(()) => Status::Done,
        Err(_) => Status::Device(DeviceFault::Write),
    }
}
