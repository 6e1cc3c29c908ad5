//! What subcommands read from their input: a script whole, or the steps of one with what was told of each. Where the
//! input could not be read, or is no script or no image, how the run ends.
ghost use Rattle.std.specs.Prelude.{◌≡◌, IfErr, IfOk, IfSome, Ok};
ghost use Rattle.std.specs.List.{list_any};
ghost use Rattle.lh_core.specs.declared.event.Event.{Event as EventOf};
ghost use Rattle.lh_script.specs.Scripts.{script};
ghost use Rattle.lh_script.specs.Steps.{step};
ghost use Rattle.lh_subcommands.specs.Images.{refused_as};
ghost use Rattle.lh_subcommands.specs.Run.{HaveEntries, ReadsScript, is_want};

use crate::device::{ReadError, read_up_to};
use crate::status::{DeviceFault, InputFault, Status};
use lh_addr::Config;
use lh_bucket::PagedBucket;
use lh_core::{Effect, Event, Refusal, run};
use lh_image::ImageFault;
use lh_script::{MOST_BYTES, Notation, ParseError, Statement, parse};
use std::alloc::Global;
use std::io::Read;

/// Reads and parses a script whole, or says how the run ends.
#[tactic(auto, using(crate::proofs::Ending::same_script))]
pub fn read_script<S: Statement, R: Read>(
    alloc: Global,
    notation: Notation,
    reader: &mut R,
) -> Result<Vec<S>, Status>
    ensures { IfSome (R.remaining reader.old) (λ input. ReadsScript result (script (S.reads notation) input)) }
{
    let bytes = match read_up_to(alloc, reader, MOST_BYTES) {
        Ok(bytes) => bytes,
        Err(ReadError::Memory) => return Err(Status::Memory),
        Err(ReadError::Failed) => return Err(Status::Device(DeviceFault::Read)),
    };
    match parse(alloc, notation, bytes.as_slice()) {
        Ok(statements) => Ok(statements),
        Err(ParseError::Memory) => Err(Status::Memory),
        Err(ParseError::Fault(fault)) => Err(Status::Input(InputFault::Script(fault))),
    }
}

/// Whether memory ran out at an event.
fn is_want_of_memory(entry: &Result<Effect, Refusal>) -> bool
    ensures { result ≡ is_want entry.now }
{
    match entry {
        Err(Refusal::Memory) => true,
        _ => false,
    }
}

/// Whether memory ran out at one of some events.
fn wanted_memory(entries: &[Result<Effect, Refusal>]) -> bool
    ensures { result ≡ list_any is_want entries.now }
{
    entries.iter().any(|entry| is_want_of_memory(entry))
}

/// The events of a step script, and what was told of each.
#[derive(Drop)]
pub struct Taken {
    pub events: Vec<Event>,
    pub entries: Vec<Result<Effect, Refusal>>,
}

/// Reads a step script whole, and takes its steps in turn from an empty file; or says how the run ends, with status 4
/// where memory ran out at one of them.
pub fn take_steps<R: Read>(
    alloc: Global,
    notation: Notation,
    config: Config,
    reader: &mut R,
) -> Result<Taken, Status>
    ensures read { IfOk result (λ taken. IfSome (R.remaining reader.old) (λ input.
        script (step notation) input ≡ Ok taken.events.items)) }
    ensures told { IfOk result (λ taken. HaveEntries config taken.events.items taken.entries.items) }
    ensures err { IfErr result (λ status. IfSome (R.remaining reader.old) (λ input.
        ReadsScript {A = EventOf} (Err status) (script (step notation) input))) }
{
    let events: Vec<Event> = match read_script(alloc, notation, reader) {
        Ok(events) => events,
        Err(status) => return Err(status),
    };
    let Ok(ran) = run::<PagedBucket>(alloc, config, events.as_slice()) else {
        return Err(Status::Memory);
    };
    if wanted_memory(ran.entries.as_slice()) {
        return Err(Status::Memory);
    }
    Ok(Taken {
        events,
        entries: ran.entries,
    })
}

/// How a run ends whose input is no image, or could not be read.
#[tactic(auto, using(crate::proofs::Inspecting::refused_for_bytes))]
pub fn unreadable(fault: ImageFault) -> Status
    ensures { result ≡ refused_as fault }
{
    match fault {
        ImageFault::ReadFault => Status::Device(DeviceFault::Read),
        ImageFault::Memory => Status::Memory,
        fault => Status::Input(InputFault::Image(fault)),
    }
}
