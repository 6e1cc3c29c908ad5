//! What a person is told behind a fault, where standard error is a terminal: what may be meant by it.
use crate::ended::Ended;
use lhash::{InputFault, LineFault, ScriptFault, Status, hint_of};
use std::alloc::{AllocError, Global};

/// What is told of a word that is no pairs of digits.
const HEXADECIMAL: &str =
    "keys and values are hexadecimal, two digits a byte: ada is 616461; --text reads them as text\n";

/// What is told of a word that no bytes are written with as text.
const TEXT: &str =
    "as text a blank is \\20, a backslash \\5c, any other byte that isn't printable ASCII so too, and - is none\n";

/// Some lines on words that are refused, or none: what clap says of them, or of a key that `get` can't read.
fn on_words<'a>(
    alloc: Global,
    words: &'a [&'a str],
    reason: &str,
) -> Result<Option<String>, AllocError> {
    match hint_of(alloc, words)? {
        None if reason.ends_with("bad hexadecimal") => {
            Ok(Some(String::from_str(alloc, HEXADECIMAL)?))
        },
        None if reason.ends_with("bad text") => Ok(Some(String::from_str(alloc, TEXT)?)),
        told => Ok(told),
    }
}

/// Some lines on a fault of a run, or none.
fn on_fault<'a>(
    alloc: Global,
    words: &'a [&'a str],
    fault: &Status,
) -> Result<Option<String>, AllocError> {
    match fault {
        Status::Words(reason) => on_words(alloc, words, reason.as_str()),
        Status::Input(InputFault::Script(ScriptFault::AtLine(_, LineFault::BadHexadecimal))) => {
            Ok(Some(String::from_str(alloc, HEXADECIMAL)?))
        },
        Status::Input(InputFault::Script(ScriptFault::AtLine(_, LineFault::BadText))) => {
            Ok(Some(String::from_str(alloc, TEXT)?))
        },
        _ => Ok(None),
    }
}

/// Some lines on how the process ended, or none.
pub fn hint<'a>(
    alloc: Global,
    words: &'a [&'a str],
    ended: &Ended,
) -> Result<Option<String>, AllocError> {
    match ended {
        Ended::Ran(fault) => on_fault(alloc, words, fault),
        Ended::At(_, fault) => on_fault(alloc, words, fault),
        _ => Ok(None),
    }
}
