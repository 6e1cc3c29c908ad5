//! How far a run is: one line on standard error, written anew in place. It is told where standard error is a terminal
//! and the input is not one, from the first megabyte on.
use std::cell::Cell;
use std::io::{Read, Result, Write};
use std::rt::Runtime;

/// The bytes of a megabyte.
const MEGABYTE: u64 = 1_000_000;

/// The line that is shown of a run, if any.
#[derive(Drop)]
pub struct Progress<'a, A> {
    rt: &'a A,
    is_told: bool,
    is_shown: Cell<bool>,
}

impl<'a, A: Runtime> Progress<'a, A> {
    pub fn new(rt: &'a A, is_told: bool) -> Self {
        Progress {
            rt,
            is_told,
            is_shown: Cell::new(false),
        }
    }

    /// Shows how many megabytes are read or written, where there are more than `before`.
    fn tell(&self, before: u64, megabytes: u64, what: &str) {
        if self.is_told && megabytes > before {
            self.is_shown.set(true);
            let _ = eprint!(self.rt; "\r\x1b[Klhash: {megabytes} MB {what}");
        }
    }

    /// Says that the input is to be typed.
    fn await_input(&self) {
        let _ = eprintln!(self.rt; "lhash: reading from the terminal; Ctrl-D ends the input");
    }

    /// Leaves nothing shown.
    pub fn clear(&self) {
        if self.is_shown.get() {
            self.is_shown.set(false);
            let _ = eprint!(self.rt; "\r\x1b[K");
        }
    }
}

/// An input, how many bytes of it were read, and whether a read failed.
#[derive(Drop)]
pub struct Input<'a, A, R> {
    pub has_failed: bool,
    progress: &'a Progress<'a, A>,
    is_awaited: bool,
    bytes: u64,
    reader: R,
}

impl<'a, A: Runtime, R> Input<'a, A, R> {
    /// An input; where a person is awaited to type it, the first read says so.
    pub fn new(progress: &'a Progress<'a, A>, is_awaited: bool, reader: R) -> Self {
        Input {
            has_failed: false,
            progress,
            is_awaited,
            bytes: 0,
            reader,
        }
    }
}

impl<A: Runtime, R: Read> Read for Input<'_, A, R> {
    ghost remaining = { λ input. R.remaining input.reader };

    fn read(&mut self, buf: &mut [u8]) -> Result<usize> {
        if self.is_awaited {
            self.is_awaited = false;
            self.progress.await_input();
        }
        let count = match self.reader.read(buf) {
            Ok(count) => count,
            Err(error) => {
                self.has_failed = true;
                return Err(error);
            },
        };
        let before = self.bytes / MEGABYTE;
        self.bytes = self.bytes.saturating_add(count as u64);
        let megabytes = self.bytes / MEGABYTE;
        if count == 0 {
            self.progress.tell(0, megabytes, "read, running");
        } else {
            self.progress.tell(before, megabytes, "read");
        }
        Ok(count)
    }
}

/// An output, and how many bytes of it were written.
#[derive(Drop)]
pub struct Output<'a, A, W> {
    progress: &'a Progress<'a, A>,
    is_told: bool,
    bytes: u64,
    writer: W,
}

impl<'a, A: Runtime, W> Output<'a, A, W> {
    /// An output, of which is told how far it is, or nothing.
    pub fn new(progress: &'a Progress<'a, A>, is_told: bool, writer: W) -> Self {
        Output {
            progress,
            is_told,
            bytes: 0,
            writer,
        }
    }
}

impl<A: Runtime, W: Write> Write for Output<'_, A, W> {
    ghost contents = { λ output. W.contents output.writer };

    fn write(&mut self, buf: &[u8]) -> Result<usize> {
        // The output may go to the same terminal.
        if self.bytes == 0 {
            self.progress.clear();
        }
        let count = self.writer.write(buf)?;
        let before = self.bytes / MEGABYTE;
        self.bytes = self.bytes.saturating_add(count as u64);
        if self.is_told {
            self.progress.tell(before, self.bytes / MEGABYTE, "written");
        }
        Ok(count)
    }

    fn flush(&mut self) -> Result<()> {
        self.writer.flush()
    }
}
