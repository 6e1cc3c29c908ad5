//! Keys and values as words of a line.
ghost use Rattle.std.specs.Prelude.{◌≡◌};
ghost use Rattle.lh_script.specs.Operands.{key, value};

use crate::fault::LineFault;
use crate::notation::Notation;
use lh_page::limits::{LONGEST_KEY, LONGEST_VALUE};
use lh_page::{Key, Value};

/// The key that a word stands for.
// Inlined, since a key that is handed on through memory is waited for.
#[inline(always)]
pub fn read_key(notation: Notation, word: &[u8]) -> Result<Key, LineFault>
    ensures { result ≡ key notation word.now }
{
    let mut room = [0; LONGEST_KEY];
    let Some(length) = notation.decode(word, &mut room) else {
        return Err(notation.fault());
    };
    if length == 0 || length > LONGEST_KEY {
        return Err(LineFault::KeyLength(length));
    }
    Ok(Key::new(&room[..length]).unwrap())
}

/// The value that a word stands for.
#[inline(always)]
pub fn read_value(notation: Notation, word: &[u8]) -> Result<Value, LineFault>
    ensures { result ≡ value notation word.now }
{
    let mut room = [0; LONGEST_VALUE];
    let Some(length) = notation.decode(word, &mut room) else {
        return Err(notation.fault());
    };
    if length > LONGEST_VALUE {
        return Err(LineFault::ValueLength(length));
    }
    Ok(Value::new(&room[..length]).unwrap())
}
