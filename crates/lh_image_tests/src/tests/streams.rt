//! Readers that give little, writers that take little, and both where a call fails.
use std::alloc::Global;
use std::io::{self, Error, ErrorKind, Read, Write};

/// Gives at most `most` bytes a read, and fails at read `fails_at`, counted from 0. It notes the
/// longest buffer that it was handed.
#[derive(Drop)]
pub(crate) struct Slow<'a> {
    pub bytes: &'a [u8],
    pub most: usize,
    pub fails_at: usize,
    pub reads: usize,
    pub longest: usize,
}

/// A reader of these bytes that never fails.
pub(crate) fn reader_of(bytes: &[u8], most: usize) -> Slow<'_> {
    Slow {
        bytes,
        most,
        fails_at: usize::MAX,
        reads: 0,
        longest: 0,
    }
}

impl<'a> Read for Slow<'a> {
    fn read(&mut self, buf: &mut [u8]) -> io::Result<usize> {
        let read = self.reads;
        self.reads = self.reads.saturating_add(1);
        self.longest = self.longest.max(buf.len());
        if read == self.fails_at {
            return Err(io::ErrorKind::Interrupted.into());
        }
        let count = self.most.min(buf.len()).min(self.bytes.len());
        buf[..count].copy_from_slice(&self.bytes[..count]);
        self.bytes = &self.bytes[count..];
        Ok(count)
    }
}

/// Takes this many bytes a write, and fails at a write or a flush, counted from 1. It notes the longest
/// buffer that it was handed.
#[derive(Drop)]
pub(crate) struct Sink {
    pub bytes: Vec<u8>,
    pub at_once: usize,
    pub longest: usize,
    pub calls: usize,
    pub failing_call: usize,
}

impl Sink {
    pub(crate) fn new(alloc: Global, at_once: usize, failing_call: usize) -> Sink {
        Sink {
            bytes: Vec::new(alloc),
            at_once,
            longest: 0,
            calls: 0,
            failing_call,
        }
    }

    fn fails(&mut self) -> bool {
        self.calls = self.calls.wrapping_add(1);
        self.calls == self.failing_call
    }
}

impl Write for Sink {
    fn write(&mut self, buf: &[u8]) -> io::Result<usize> {
        if self.fails() {
            return Err(Error::from(ErrorKind::Interrupted));
        }
        self.longest = self.longest.max(buf.len());
        let count = self.at_once.min(buf.len());
        self.bytes.extend_from_slice(&buf[..count])?;
        Ok(count)
    }

    fn flush(&mut self) -> io::Result<()> {
        if self.fails() {
            return Err(Error::from(ErrorKind::Interrupted));
        }
        Ok(())
    }
}
