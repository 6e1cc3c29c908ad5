//! Text that a terminal shows as it stands.
ghost use Rattle.std.specs.Prelude.{◌≡◌, ◌<◌, IfOk, OnOk, false, true};
ghost use Rattle.std.specs.Char.{is_control};
ghost use Rattle.std.specs.String.{string_bytes};
ghost use Rattle.lh_options.specs.Escapes.{has_no_control};

use std::alloc::{AllocError, Global};

/// Adds a character that is no control character.
fn push_plain(shown: &mut String, c: char) -> Result<(), AllocError>
    requires { is_control c ≡ false }
    ensures { has_no_control (string_bytes shown.old) ≡ true →
        OnOk result (has_no_control (string_bytes shown.new) ≡ true) }
{
    shown.push(c)
}

fn hexadecimal_digit(value: u32) -> char
    requires { value < 16 }
    ensures { is_control result ≡ false }
{
    char::from_digit(value, 16).unwrap_or('0')
}

/// Adds the code of a control character, as `\u{1b}`: none has more than two hexadecimal digits.
fn push_code(shown: &mut String, c: char) -> Result<(), AllocError>
    ensures { has_no_control (string_bytes shown.old) ≡ true →
        OnOk result (has_no_control (string_bytes shown.new) ≡ true) }
{
    push_plain(shown, '\\')?;
    push_plain(shown, 'u')?;
    push_plain(shown, '{')?;
    push_plain(shown, hexadecimal_digit(c as u32 / 16 % 16))?;
    push_plain(shown, hexadecimal_digit(c as u32 % 16))?;
    push_plain(shown, '}')
}

/// A text with the code of each control character in its place.
pub fn escaped(alloc: Global, text: &str) -> Result<String, AllocError>
    ensures { IfOk result (λ shown. has_no_control (string_bytes shown) ≡ true) }
{
    let mut shown = String::new(alloc);
    for c in text.chars() {
        if c.is_control() {
            push_code(&mut shown, c)?;
        } else {
            push_plain(&mut shown, c)?;
        }
    }
    Ok(shown)
}
