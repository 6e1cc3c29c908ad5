//! Readers and writers that fail, or that give and take little.
use std::alloc::Global;
use std::io::{self, Error, ErrorKind, Read, Write};

/// Bytes that are read this many at a time, and a read that fails.
#[derive(Drop)]
pub struct Source<'a> {
    pub bytes: &'a [u8],
    pub at_once: usize,
    pub reads: usize,
    pub failing_read: usize,
}

impl Read for Source<'_> {
    fn read(&mut self, buf: &mut [u8]) -> io::Result<usize> {
        self.reads = self.reads.wrapping_add(1);
        if self.reads == self.failing_read {
            return Err(Error::from(ErrorKind::Interrupted));
        }
        let count = self.at_once.min(self.bytes.len()).min(buf.len());
        buf[..count].copy_from_slice(&self.bytes[..count]);
        self.bytes = &self.bytes[count..];
        Ok(count)
    }
}

/// Takes this many bytes a write, and a write, or a flush, that fails.
#[derive(Drop)]
pub struct Sink {
    pub bytes: Vec<u8>,
    pub at_once: usize,
    pub writes: usize,
    pub failing_write: usize,
}

impl Sink {
    pub fn new(alloc: Global, at_once: usize, failing_write: usize) -> Sink {
        Sink {
            bytes: Vec::new(alloc),
            at_once,
            writes: 0,
            failing_write,
        }
    }

    fn fails(&mut self) -> bool {
        self.writes = self.writes.wrapping_add(1);
        self.writes == self.failing_write
    }
}

impl Write for Sink {
    fn write(&mut self, buf: &[u8]) -> io::Result<usize> {
        if self.fails() {
            return Err(Error::from(ErrorKind::Interrupted));
        }
        let count = self.at_once.min(buf.len());
        self.bytes.extend_from_slice(&buf[..count])?;
        Ok(count)
    }

    fn flush(&mut self) -> io::Result<()> {
        if self.fails() {
            return Err(Error::from(ErrorKind::Interrupted));
        }
        Ok(())
    }
}
