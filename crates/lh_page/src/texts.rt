//! Keys and values as texts.
ghost use Rattle.std.specs.Prelude.{◌≡◌, ◌≤◌, length, Some};
ghost use Rattle.lh_page.specs.Limits.{longest_value};
ghost use Rattle.lh_page.specs.Texts.{hexadecimal_text};

use crate::key::Key;
use crate::limits::LONGEST_VALUE;
use crate::value::Value;
use std::fmt;

/// The most digits that the bytes of a key or a value are written with.
const MOST_DIGITS: usize = 2 * LONGEST_VALUE;

/// Bytes as they are written: pairs of lower-case hexadecimal digits, or `-` for none.
fn hexadecimal<'a>(bytes: &[u8], room: &'a mut [u8; MOST_DIGITS]) -> &'a str
    requires { length bytes.now ≤ longest_value }
    ensures { result.now ≡ hexadecimal_text bytes.now }
{
    if bytes.is_empty() {
        return "-";
    }
    let digits = &mut room[..2 * bytes.len()];
    let Ok(()) = hex::encode_to_slice(bytes, digits) else {
        // There are two digits for each byte.
        unreachable!()
    };
    match str::from_utf8(digits) {
        Ok(text) => text,
        // Digits are text.
        Err(_) => unreachable!(),
    }
}

/// The bytes of a key as pairs of lower-case hexadecimal digits.
#[derive(Clone, Copy)]
pub struct KeyText<'a>(pub &'a Key);

impl fmt::Display for KeyText<'_> {
    ghost output = { λ text. Some (hexadecimal_text text.0.now) };

    fn fmt<W: fmt::Write>(&self, f: &mut fmt::Formatter<W>) -> fmt::Result {
        let mut room = [0; MOST_DIGITS];
        f.write_str(hexadecimal(self.0.bytes(), &mut room))
    }
}

/// The bytes of a value as pairs of lower-case hexadecimal digits, or `-` for none.
#[derive(Clone, Copy)]
pub struct ValueText<'a>(pub &'a Value);

impl fmt::Display for ValueText<'_> {
    ghost output = { λ text. Some (hexadecimal_text text.0.now) };

    fn fmt<W: fmt::Write>(&self, f: &mut fmt::Formatter<W>) -> fmt::Result {
        let mut room = [0; MOST_DIGITS];
        f.write_str(hexadecimal(self.0.bytes(), &mut room))
    }
}
