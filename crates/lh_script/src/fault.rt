//! The faults of a script.
ghost use Rattle.std.specs.Prelude.{Some};
ghost use Rattle.lh_script.specs.FaultTexts.{line_fault_text, script_fault_text};

use std::fmt;

/// What is wrong with a line.
#[derive(Clone, Copy, Debug, PartialEq, Eq)]
pub enum LineFault {
    /// The first word names no statement.
    UnknownWord,
    /// The statement takes another number of words.
    WordCount,
    /// A byte string has an odd number of digits, or a byte that is no digit.
    BadHexadecimal,
    /// A byte string has a byte that no text is written with, or a backslash without the digits of a byte that is
    /// written by them.
    BadText,
    /// A key of this many bytes, which is 0 or more than a key has.
    KeyLength(usize),
    /// A value of this many bytes, which is more than a value has.
    ValueLength(usize),
    /// A worker's number isn't one or two decimal digits of a value up to 15.
    WorkerNumber,
}

/// What is wrong with a script.
#[derive(Clone, Copy, Debug, PartialEq, Eq)]
pub enum ScriptFault {
    /// It has more bytes than a script may have.
    TooLong,
    /// The first line at fault, by its number from 1.
    AtLine(usize, LineFault),
}

/// Why a script was not read.
#[derive(Clone, Copy, Debug, PartialEq, Eq)]
pub enum ParseError {
    /// There was no memory for the statements.
    Memory,
    /// The script is at fault.
    Fault(ScriptFault),
}

impl fmt::Display for LineFault {
    ghost output = { λ fault. Some (line_fault_text fault) };

    fn fmt<W: fmt::Write>(&self, f: &mut fmt::Formatter<W>) -> fmt::Result {
        match self {
            LineFault::UnknownWord => write!(f, "unknown word"),
            LineFault::WordCount => write!(f, "wrong number of words"),
            LineFault::BadHexadecimal => write!(f, "bad hexadecimal"),
            LineFault::BadText => write!(f, "bad text"),
            LineFault::KeyLength(length) => write!(f, "key length {length}"),
            LineFault::ValueLength(length) => write!(f, "value length {length}"),
            LineFault::WorkerNumber => write!(f, "bad worker number"),
        }
    }
}

impl fmt::Display for ScriptFault {
    ghost output = { λ fault. Some (script_fault_text fault) };

    fn fmt<W: fmt::Write>(&self, f: &mut fmt::Formatter<W>) -> fmt::Result {
        match self {
            ScriptFault::TooLong => write!(f, "script too long"),
            ScriptFault::AtLine(line, fault) => write!(f, "line {line}: {fault}"),
        }
    }
}
