//! The program `lhash`: [`run`] on the process's own words, input and output, or on the files that its words name.
#![tactic(auto)]

ghost use Rattle.std.specs.Prelude.{◌≡◌, ◌⊎◌, ℕ, List, Option, [], IfNone, IfSome, codes, false, map, true};
ghost use Rattle.std.specs.Io.Buffered.{writer_buffer, writer_contents, writer_inner};
ghost use Rattle.std.specs.Io.KnownBytes.{Keeps};
ghost use Rattle.lhash.specs.Serving.{IsFlushedRun, IsFlushedRunOn, IsRun, IsRunOn, IsWhetherImageAsked, WritesAll};
ghost use Rattle.lhash.specs.Serving.{IsWordsOf};

mod ended;
mod hints;
mod named;
mod one_try;
mod progress;

use crate::ended::Ended;
use crate::hints::hint;
use crate::named::{Streams, Terminals, run_named};
use crate::one_try::OneTry;
use lhash::{DeviceFault, Status, asks_for_image, files_of, refuse, run, run_on};
use std::alloc::Global;
use std::env;
use std::io::{BufReader, BufWriter, ErrorKind, IsTerminal, Read, Write};
use std::process::ExitCode;
use std::rt::Runtime;
use std::sync::Wait;
use std::thread::Threads;

/// The most bytes that one read is asked for.
const READ_AHEAD: usize = 65_536;

/// How many bytes of output are gathered for one write.
const GATHERED: usize = 65_536;

/// The words that the process was started with, or how the run ends without them.
fn process_words(rt: &(impl Runtime + AllocGlobal)) -> Result<Vec<String>, Status> {
    match env::args(rt) {
        Ok(words) => words.collect(rt.alloc()).map_err(|_| Status::Memory),
        Err(error) if error.kind() == ErrorKind::OutOfMemory => Err(Status::Memory),
        Err(_) => Err(refuse(rt.alloc(), "an argument is not UTF-8")),
    }
}

/// How a run ends once what it left gathered is written, as it must be where all was done, also with a key absent.
fn finish<W: Write + Drop>(status: Status, output: &mut BufWriter<W>) -> Status
    ensures done { WritesAll result → (result ≡ status) × (writer_buffer output.new ≡ []) }
    ensures flushed { (result ≡ status) ⊎ (WritesAll status × (result ≡ Status.Device DeviceFault.Write)) }
    ensures kept { Keeps (writer_contents W.contents output.old) (writer_contents W.contents output.new) }
{
    match status {
        Status::Done | Status::KeyAbsent => match output.flush() {
            Ok(()) => status,
            Err(_) => Status::Device(DeviceFault::Write),
        },
        other => other,
    }
}

/// How a run ends before it begins: that words ask for an image, and the output is a terminal.
fn refused<'a>(alloc: Global, words: &'a [&'a str], is_terminal: bool) -> Option<Status>
    ensures some { IfSome result (IsWordsOf (codes "an image is not written to a terminal")) }
    ensures only { IfSome result (λ status. (is_terminal ≡ true)
        × ((status ≡ Status.Memory) ⊎ IsWhetherImageAsked (map (λ s. s.now) words.now) true)) }
    ensures none { IfNone result (is_terminal ≡ true → ¬ IsWhetherImageAsked (map (λ s. s.now) words.now) true) }
{
    if !is_terminal {
        return None;
    }
    match asks_for_image(alloc, words) {
        Ok(true) => Some(refuse(alloc, "an image is not written to a terminal")),
        Ok(false) => None,
        Err(_) => Some(Status::Memory),
    }
}

/// Does what the words ask for; but no image is written to a terminal. Where all was done, also with a key absent, all
/// of it is with the device, and nothing is left gathered.
fn run_whole<'a, A: AllocGlobal + Threads + Wait + Sync, R: Read, W: Write + Drop>(
    rt: &A,
    words: &'a [&'a str],
    is_terminal: bool,
    reader: &mut R,
    output: &mut BufWriter<W>,
) -> Status
    ensures done { WritesAll result → (held : Option (List ℕ)) ×
        IsRun is_terminal (map (λ s. s.now) words.now) result (R.remaining reader.old) (R.remaining reader.new)
        (writer_contents W.contents output.old) held
        × Keeps held (W.contents (writer_inner output.new)) }
    ensures ran { (is_terminal ≡ true → IsWhetherImageAsked (map (λ s. s.now) words.now) true → ⊥) →
        (held : Option (List ℕ)) ×
        IsFlushedRun is_terminal (map (λ s. s.now) words.now) result (R.remaining reader.old) (R.remaining reader.new)
        (writer_contents W.contents output.old) held
        × Keeps held (writer_contents W.contents output.new) }
    ensures screen { is_terminal ≡ true → IsWhetherImageAsked (map (λ s. s.now) words.now) true →
        IsWordsOf (codes "an image is not written to a terminal") result
        × (reader.new ≡ reader.old) × (output.new ≡ output.old) }
{
    if let Some(status) = refused(rt.alloc(), words, is_terminal) {
        return status;
    }
    let status = run(rt, words, is_terminal, reader, output);
    finish(status, output)
}

/// The same, with a file that the words name as input.
fn run_whole_on<'a, A: AllocGlobal + Threads + Wait + Sync, Q: Read, R: Read, W: Write + Drop>(
    rt: &A,
    words: &'a [&'a str],
    is_terminal: bool,
    file: &mut Q,
    reader: &mut R,
    output: &mut BufWriter<W>,
) -> Status
    ensures done { WritesAll result → (held : Option (List ℕ)) ×
        IsRunOn is_terminal (map (λ s. s.now) words.now) result (Q.remaining file.old) (Q.remaining file.new)
        (R.remaining reader.old) (R.remaining reader.new) (writer_contents W.contents output.old) held
        × Keeps held (W.contents (writer_inner output.new)) }
    ensures ran { (is_terminal ≡ true → IsWhetherImageAsked (map (λ s. s.now) words.now) true → ⊥) →
        (held : Option (List ℕ)) ×
        IsFlushedRunOn is_terminal (map (λ s. s.now) words.now) result (Q.remaining file.old) (Q.remaining file.new)
        (R.remaining reader.old) (R.remaining reader.new) (writer_contents W.contents output.old) held
        × Keeps held (writer_contents W.contents output.new) }
    ensures screen { is_terminal ≡ true → IsWhetherImageAsked (map (λ s. s.now) words.now) true →
        IsWordsOf (codes "an image is not written to a terminal") result
        × (file.new ≡ file.old) × (reader.new ≡ reader.old) × (output.new ≡ output.old) }
{
    if let Some(status) = refused(rt.alloc(), words, is_terminal) {
        return status;
    }
    let ended = run_on(rt, words, is_terminal, file, reader, output);
    finish(ended, output)
}

/// Runs with a file as input, if there is one, this reader and this writer. Nothing is read before it is asked for;
/// then as much as comes is read at once, and given in the pieces that are asked for. What is written goes out in
/// larger pieces; an image doesn't go to a terminal.
fn run_gathered<'a, A, Q: Read, R: Read + Drop, W: Write + Drop>(
    rt: &A,
    words: &'a [&'a str],
    is_terminal: bool,
    file: Option<&mut Q>,
    reader: R,
    writer: W,
) -> Status
where
    A: AllocGlobal + Threads + Wait + Sync,
{
    let input = BufReader::with_capacity(rt.alloc(), READ_AHEAD, reader);
    let output = BufWriter::with_capacity(rt.alloc(), GATHERED, OneTry(writer));
    match (input, output) {
        (Ok(mut input), Ok(mut output)) => {
            let status = match file {
                None => run_whole(rt, words, is_terminal, &mut input, &mut output),
                Some(file) => run_whole_on(rt, words, is_terminal, file, &mut input, &mut output),
            };
            // Dropped whole it would write once more what a failed write has left.
            let _ = output.into_parts();
            status
        },
        _ => Status::Memory,
    }
}

/// Runs on these words, with the process's input and output where they name no file.
fn run_words<'a, A, R: Read + Drop, W: Write + Drop>(
    rt: &A,
    words: &'a [&'a str],
    streams: Streams<R, W>,
) -> Ended
where
    A: Runtime + AllocGlobal + Threads + Wait + Sync,
{
    match files_of(rt.alloc(), words) {
        Ok(files) => run_named(rt, words, &files, streams),
        Err(_) => Ended::from(Status::Memory),
    }
}

/// Runs on the words of the process, and tells a person what a fault may mean.
fn run_process<A: Runtime + AllocGlobal + Threads + Wait + Sync, R: Read + Drop, W: Write + Drop>(
    rt: &A,
    streams: Streams<R, W>,
) -> (Ended, Option<String>) {
    let words = match process_words(rt) {
        Ok(words) => words,
        Err(status) => return (Ended::from(status), None),
    };
    let texts: Result<Vec<&str>, _> = words.iter().map(|word| word.as_str()).collect(rt.alloc());
    let Ok(texts) = texts else {
        return (Ended::from(Status::Memory), None);
    };
    let is_shown = streams.terminals.error;
    let ended = run_words(rt, texts.as_slice(), streams);
    let told = if is_shown {
        hint(rt.alloc(), texts.as_slice(), &ended).unwrap_or(None)
    } else {
        None
    };
    (ended, told)
}

fn main(rt: HostRuntime) -> ExitCode {
    let (stdin, stdout) = (rt.stdin(), rt.stdout());
    let terminals = Terminals {
        input: stdin.is_terminal(),
        output: stdout.is_terminal(),
        error: rt.stderr().is_terminal(),
    };
    let (ended, told) = run_process(
        &rt,
        Streams {
            reader: stdin,
            writer: stdout,
            terminals,
        },
    );
    let code = ended.code();
    if code != 0 {
        let _ = eprintln!(rt; "lhash: {ended}");
        if let Some(told) = told {
            let _ = eprint!(rt; "{told}");
        }
    }
    ExitCode::from(code)
}
