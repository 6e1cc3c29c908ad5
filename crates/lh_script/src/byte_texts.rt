//! Keys and values as words, each as what a type displays.
ghost use Rattle.std.specs.Prelude.{Some};
ghost use Rattle.lh_script.specs.Notations.{byte_text};

use crate::notation::Notation;
use crate::plain::{MOST_CHARACTERS, encode};
use lh_page::{Key, KeyText, Value, ValueText};
use std::fmt;

/// The word of a key, in a notation.
#[derive(Clone, Copy)]
pub struct KeyWord<'a> {
    pub notation: Notation,
    pub key: &'a Key,
}

impl fmt::Display for KeyWord<'_> {
    ghost output = { λ word. Some (byte_text word.notation word.key.now) };

    fn fmt<W: fmt::Write>(&self, f: &mut fmt::Formatter<W>) -> fmt::Result {
        match self.notation {
            Notation::Hexadecimal => write!(f, "{}", KeyText(self.key)),
            Notation::Text => {
                let mut room = [0; MOST_CHARACTERS];
                f.write_str(encode(self.key.bytes(), &mut room))
            }
        }
    }
}

/// The word of a value, in a notation.
#[derive(Clone, Copy)]
pub struct ValueWord<'a> {
    pub notation: Notation,
    pub value: &'a Value,
}

impl fmt::Display for ValueWord<'_> {
    ghost output = { λ word. Some (byte_text word.notation word.value.now) };

    fn fmt<W: fmt::Write>(&self, f: &mut fmt::Formatter<W>) -> fmt::Result {
        match self.notation {
            Notation::Hexadecimal => write!(f, "{}", ValueText(self.value)),
            Notation::Text => {
                let mut room = [0; MOST_CHARACTERS];
                f.write_str(encode(self.value.bytes(), &mut room))
            }
        }
    }
}
