//! Runs whose input or output is a file that the words name.
ghost use Rattle.std.specs.Prelude.{◌≡◌};

use crate::ended::Ended;
use crate::progress::{Input, Output, Progress};
use crate::{READ_AHEAD, run_gathered};
use lh_draft::{Beside, NotMade};
use lh_output::settle;
use lhash::{DeviceFault, InputFault, NamedFiles, Status, escaped, reads_apart};
use std::alloc::Global;
use std::fs;
use std::fs::Files;
use std::io::{BufReader, Read, Write};
use std::rt::Runtime;
use std::sync::Wait;
use std::thread::Threads;

/// A file to read, as it is opened.
type FileInput<'a, A> = BufReader<Input<'a, A, <A as Files>::File>>;

/// Which of the process's streams are terminals.
#[derive(Clone, Copy)]
pub struct Terminals {
    pub input: bool,
    pub output: bool,
    pub error: bool,
}

/// The process's input and output.
#[derive(Drop)]
pub struct Streams<R, W> {
    pub reader: R,
    pub writer: W,
    pub terminals: Terminals,
}

/// Which of the files that the words name a fault is about.
#[derive(Clone, Copy, Debug, PartialEq, Eq)]
enum Side {
    Input,
    Output,
}

/// Which file a run's fault is about, where files are named: `is_apart` says that the file to read is an image alone,
/// and `has_failed` that a read of it failed.
fn side_of(status: &Status, is_apart: bool, has_failed: bool) -> Option<Side> {
    match status {
        Status::Input(InputFault::Image(_)) => Some(Side::Input),
        Status::Input(InputFault::Load(_)) => Some(Side::Input),
        Status::Input(InputFault::Script(_)) if !is_apart => Some(Side::Input),
        Status::Input(InputFault::Unwritten(_)) => Some(Side::Output),
        Status::Device(DeviceFault::Read) if has_failed => Some(Side::Input),
        Status::Device(DeviceFault::Write) => Some(Side::Output),
        _ => None,
    }
}

/// How the process ends by the fault of the file of a name, if there is one.
fn at(alloc: Global, name: Option<&str>, status: Status) -> Ended {
    match name {
        Some(name) => match escaped(alloc, name) {
            Ok(name) => Ended::At(name, status),
            Err(_) => Ended::from(Status::Memory),
        },
        None => Ended::from(status),
    }
}

/// How the process ends, by how its run did.
fn ended<'a>(
    alloc: Global,
    words: &'a [&'a str],
    files: &NamedFiles,
    status: Status,
    has_failed: bool,
) -> Ended
    ensures done { status ≡ Status.Done → result ≡ Ended.Ran Status.Done }
    ensures absent { status ≡ Status.KeyAbsent → result ≡ Ended.Ran Status.KeyAbsent }
{
    // What was done stays so, though memory may be gone.
    if matches!(status, Status::Done | Status::KeyAbsent) {
        return Ended::Ran(status);
    }
    let Ok(is_apart) = reads_apart(alloc, words) else {
        return Ended::from(Status::Memory);
    };
    match side_of(&status, is_apart, has_failed) {
        Some(Side::Input) => at(alloc, files.input.as_deref(), status),
        Some(Side::Output) => at(alloc, files.output.as_deref(), status),
        None => Ended::from(status),
    }
}

/// How the process ends where a file could not be opened, or not be made.
fn not_opened(alloc: Global, name: &str, fault: DeviceFault, refused: NotMade) -> Ended {
    let Ok(name) = escaped(alloc, name) else {
        return Ended::from(Status::Memory);
    };
    match refused {
        NotMade::NotAFile => Ended::NotAFile(name),
        NotMade::Refused(error) => Ended::NotOpened(name, fault, error),
        NotMade::Memory => Ended::from(Status::Memory),
    }
}

/// The file that the words name as input, if they name one, or how the process ends where it can't be opened.
fn open_input<'a, A: Runtime + AllocGlobal>(
    rt: &A,
    progress: &'a Progress<'a, A>,
    name: Option<&str>,
) -> Result<Option<FileInput<'a, A>>, Ended> {
    let alloc = rt.alloc();
    let Some(name) = name else {
        return Ok(None);
    };
    match fs::open(rt, name) {
        Ok(file) => match BufReader::with_capacity(
            alloc,
            READ_AHEAD,
            Input::new(progress, false, file),
        ) {
            Ok(file) => Ok(Some(file)),
            Err(_) => Err(Ended::from(Status::Memory)),
        },
        Err(error) => Err(not_opened(alloc, name, DeviceFault::Read, NotMade::from(error))),
    }
}

/// Runs with the output that the words name: a new file, which takes its name where all was done, or the process's.
fn run_writing<'a, A, Q: Read, R: Read + Drop, W: Write + Drop>(
    rt: &A,
    words: &'a [&'a str],
    progress: &Progress<'_, A>,
    name: Option<&str>,
    file: Option<&mut Q>,
    streams: Streams<R, W>,
) -> Result<Status, NotMade>
where
    A: Runtime + AllocGlobal + Threads + Wait + Sync,
{
    let terminals = streams.terminals;
    let input = Input::new(progress, terminals.input && terminals.error, streams.reader);
    let Some(name) = name else {
        let is_terminal = terminals.output;
        let output = Output::new(progress, !is_terminal, streams.writer);
        return Ok(run_gathered(rt, words, is_terminal, file, input, output));
    };
    let mut made = Beside::create(rt, rt.alloc(), name)?;
    let output = Output::new(progress, true, &mut made);
    let status = run_gathered(rt, words, false, file, input, output);
    Ok(settle(&mut made.written(), status))
}

/// Runs with the files that the words name, and with the process's streams for those that they don't.
pub fn run_named<'a, A, R: Read + Drop, W: Write + Drop>(
    rt: &A,
    words: &'a [&'a str],
    files: &NamedFiles,
    streams: Streams<R, W>,
) -> Ended
where
    A: Runtime + AllocGlobal + Threads + Wait + Sync,
{
    let alloc = rt.alloc();
    let terminals = streams.terminals;
    let is_told = terminals.error && (files.input.is_some() || !terminals.input);
    let progress = Progress::new(rt, is_told);
    let output = files.output.as_deref();
    let mut file = match open_input(rt, &progress, files.input.as_deref()) {
        Ok(file) => file,
        Err(ended) => return ended,
    };
    let status = run_writing(rt, words, &progress, output, file.as_mut(), streams);
    progress.clear();
    let has_failed = file.is_some_and(|file| file.get_ref().has_failed);
    match status {
        Ok(status) => ended(alloc, words, files, status, has_failed),
        Err(refused) => not_opened(alloc, output.unwrap_or(""), DeviceFault::Write, refused),
    }
}
