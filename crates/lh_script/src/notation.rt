//! How keys and values are written.
ghost use Rattle.std.specs.Prelude.{◌≡◌, ◌≤◌, IfSome, length, option_map, take};
ghost use Rattle.lh_script.specs.Notations.{bad_in, byte_string};

use crate::fault::LineFault;
use crate::{hexadecimal, plain};

/// How keys and values are written in scripts and in answers.
#[derive(Clone, Copy, Debug, PartialEq, Eq)]
pub enum Notation {
    /// Two hexadecimal digits for each byte, and `-` for none.
    Hexadecimal,
    /// Printable ASCII as it is, and any other byte, a blank and a backslash as a backslash and two lower-case digits:
    /// `ada\20l` is `ada l`. None is `-`, and a single `-` is `\2d`.
    Text,
}

impl Notation {
    /// The fault of a word that stands for no bytes.
    pub(crate) fn fault(self) -> LineFault
        ensures { result ≡ bad_in self }
    {
        match self {
            Notation::Hexadecimal => LineFault::BadHexadecimal,
            Notation::Text => LineFault::BadText,
        }
    }

    /// The number of bytes that a word stands for. Where `room` is long enough, they are written to its front.
    pub(crate) fn decode(self, word: &[u8], room: &mut [u8]) -> Option<usize>
        ensures length { result ≡ option_map length (byte_string self word.now) }
        ensures bytes { IfSome result (λ n. n ≤ length room.old → byte_string self word.now ≡ Some (take n room.new)) }
    {
        match self {
            Notation::Hexadecimal => hexadecimal::decode(word, room),
            Notation::Text => plain::decode(word, room),
        }
    }
}
