//! The faults of a stream.
ghost use Rattle.std.specs.Prelude.{Some};
ghost use Rattle.lh_exchange.specs.StreamFaultTexts.{exchange_error_text, exchange_fault_text, stream_fault_text};

use std::fmt;

/// What is wrong with a stream.
#[derive(Clone, Copy, Debug, PartialEq, Eq)]
pub enum StreamFault {
    /// It begins neither as cdb, with `+` or LF, nor as db, with the line `VERSION=3`.
    NoFormat,
    /// The header ends, and no line `format=` was there.
    NoLayout,
    /// The header's `format=` is neither `bytevalue` nor `print`.
    UnknownLayout,
    /// A line of the header has no `=`.
    NotAHeaderLine,
    /// The records have no keys: `keys=0`.
    NoKeys,
    /// A key may have several values: `duplicates=1` or `dupsort=1`.
    Duplicates,
    /// What stands where a record or the end is due is neither.
    NotARecord,
    /// What stands where the line of a value is due is none.
    NotAValue,
    /// A key of this many bytes, which is 0 or more than a key has.
    KeyLength(usize),
    /// A value of this many bytes, which is more than a value has.
    ValueLength(usize),
    /// It ends in front of its end line.
    NoEnd,
    /// Something stands behind its end line.
    BehindEnd,
}

/// The first fault of a stream, and where it is.
#[derive(Clone, Copy, Debug, PartialEq, Eq)]
pub struct ExchangeFault {
    /// The record by its number from 1, or 0 in front of the first.
    pub record: usize,
    /// The line by its number from 1, where the format is one of lines.
    pub line: Option<usize>,
    pub kind: StreamFault,
}

/// Why a stream was not read.
#[derive(Clone, Copy, Debug, PartialEq, Eq)]
pub enum ExchangeError {
    /// There was no memory for the records.
    Memory,
    /// The stream is at fault.
    Fault(ExchangeFault),
}

impl fmt::Display for StreamFault {
    ghost output = { λ fault. Some (stream_fault_text fault) };

    fn fmt<W: fmt::Write>(&self, f: &mut fmt::Formatter<W>) -> fmt::Result {
        match self {
            StreamFault::NoFormat => f.write_str("neither cdb nor db"),
            StreamFault::NoLayout => f.write_str("no format= line"),
            StreamFault::UnknownLayout => f.write_str("unknown format="),
            StreamFault::NotAHeaderLine => f.write_str("bad header line"),
            StreamFault::NoKeys => f.write_str("records without keys"),
            StreamFault::Duplicates => f.write_str("several values a key"),
            StreamFault::NotARecord => f.write_str("bad record"),
            StreamFault::NotAValue => f.write_str("bad value"),
            StreamFault::KeyLength(length) => write!(f, "key length {length}"),
            StreamFault::ValueLength(length) => write!(f, "value length {length}"),
            StreamFault::NoEnd => f.write_str("no end line"),
            StreamFault::BehindEnd => f.write_str("bytes behind the end"),
        }
    }
}

impl fmt::Display for ExchangeFault {
    ghost output = { λ fault. Some (exchange_fault_text fault) };

    fn fmt<W: fmt::Write>(&self, f: &mut fmt::Formatter<W>) -> fmt::Result {
        let (record, kind) = (self.record, self.kind);
        match self.line {
            Some(line) if record == 0 => write!(f, "line {line}: {kind}"),
            Some(line) => write!(f, "record {record}, line {line}: {kind}"),
            None if record == 0 => write!(f, "{kind}"),
            None => write!(f, "record {record}: {kind}"),
        }
    }
}

impl fmt::Display for ExchangeError {
    ghost output = { λ error. Some (exchange_error_text error) };

    fn fmt<W: fmt::Write>(&self, f: &mut fmt::Formatter<W>) -> fmt::Result {
        match self {
            ExchangeError::Memory => f.write_str("no memory"),
            ExchangeError::Fault(fault) => write!(f, "{fault}"),
        }
    }
}
