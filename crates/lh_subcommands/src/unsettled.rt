//! Why what threads did is not settled.
ghost use Rattle.std.specs.Prelude.{Some};
ghost use Rattle.lh_subcommands.specs.Unsettled.{unsettled_text};

use lh_page::{Key, KeyText};
use std::fmt;

/// Why what threads did to a file is not settled. Running out of memory is no such fault.
#[derive(Clone, Copy, Debug, PartialEq, Eq)]
pub enum Unsettled {
    /// A split was under way when the file was closed.
    SplitUnderWay,
    /// The first number that the acts' stamps, sorted, don't have in its place.
    MissingStamp(u64),
    /// The first act whose reply isn't the one that the acts before it make due, by its stamp.
    Reply(u64),
    /// The least key that doesn't stand in the file just as the acts leave it.
    Content(Key),
    /// A key that stands in another bucket than that of its address.
    Placed { bucket: u32, key: Key },
    /// A call was not answered.
    Call,
}

impl fmt::Display for Unsettled {
    ghost output = { λ fault. Some (unsettled_text fault) };

    fn fmt<W: fmt::Write>(&self, f: &mut fmt::Formatter<W>) -> fmt::Result {
        match self {
            Unsettled::SplitUnderWay => write!(f, "split under way"),
            Unsettled::MissingStamp(stamp) => write!(f, "missing stamp {stamp}"),
            Unsettled::Reply(stamp) => write!(f, "reply at {stamp}"),
            Unsettled::Content(key) => write!(f, "content of {}", KeyText(key)),
            Unsettled::Placed { bucket, key } => {
                write!(f, "place of {} in bucket {bucket}", KeyText(key))
            }
            Unsettled::Call => write!(f, "call fault"),
        }
    }
}
