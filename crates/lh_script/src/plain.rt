//! Byte strings as printable words.
ghost use Rattle.std.specs.Prelude.{◌≡◌, ◌+◌, ◌*◌, ◌<◌, ◌≤◌, ◌++◌, [], ◌∷◌, false, length, slice_set, take, flat_map};
ghost use Rattle.std.specs.Prelude.{codes, IfSome, MatchOption, None, Some};
ghost use Rattle.std.specs.Option.{option_map};
ghost use Rattle.lh_page.specs.Limits.{longest_value};
ghost use Rattle.lh_script.specs.Lines.{is_word};
ghost use Rattle.lh_script.specs.PlainTexts.{character, characters, escaped, in_front, is_literal, lower_digit};
ghost use Rattle.lh_script.specs.PlainTexts.{plain_bytes, plain_text, unless_literal};

use crate::hexadecimal::is_dash_word;
use lh_page::limits::LONGEST_VALUE;

/// The most bytes that a key or a value is written with: three for each of its own.
pub const MOST_CHARACTERS: usize = 3 * LONGEST_VALUE;

/// The digits of a byte that isn't written as it is.
static DIGITS: [u8; 16] = [
    b'0', b'1', b'2', b'3', b'4', b'5', b'6', b'7', b'8', b'9', b'a', b'b', b'c', b'd', b'e', b'f',
];

/// Whether a byte is written as it is.
#[tactic(auto, unfolding(crate::specs::PlainTexts::is_literal))]
fn is_literal_byte(byte: u8) -> bool
    ensures { result ≡ is_literal byte }
{
    byte >= 33 && byte <= 126 && byte != b'\\'
}

// ---- writing

/// Puts a byte behind the first bytes of some room, and gives how many are then in use.
fn put(room: &mut [u8; MOST_CHARACTERS], used: usize, byte: u8) -> usize
    requires { used < MOST_CHARACTERS }
    ensures used { result ≡ used + 1 }
    ensures bytes { take result room.new ≡ take used room.old ++ byte ∷ [] }
{
    room[used] = byte;
    used + 1
}

/// Puts a byte as it is written behind the first bytes of some room.
fn put_character(room: &mut [u8; MOST_CHARACTERS], used: usize, byte: u8) -> usize
    requires { used + 3 ≤ MOST_CHARACTERS }
    ensures used { result ≤ used + 3 }
    ensures bytes { take result room.new ≡ take used room.old ++ character byte }
{
    if is_literal_byte(byte) {
        return put(room, used, byte);
    }
    let used = put(room, used, b'\\');
    let used = put(room, used, DIGITS[(byte / 16) as usize]);
    put(room, used, DIGITS[(byte % 16) as usize])
}

/// Puts bytes as they are written at the front of some room.
fn put_all(room: &mut [u8; MOST_CHARACTERS], bytes: &[u8]) -> usize
    requires { length bytes.now ≤ longest_value }
    ensures used { result ≤ MOST_CHARACTERS }
    ensures bytes { take result room.new ≡ flat_map character bytes.now }
{
    let mut used = 0;
    for byte in bytes {
        used = put_character(room, used, *byte);
    }
    used
}

/// The word of some bytes.
#[tactic(auto, using(crate::proofs::Characters::text_none, crate::proofs::Characters::text_dash, crate::proofs::Characters::text_characters))]
pub fn encode<'a>(bytes: &[u8], room: &'a mut [u8; MOST_CHARACTERS]) -> &'a str
    requires { length bytes.now ≤ longest_value }
    ensures { result.now ≡ plain_text bytes.now }
{
    if bytes.is_empty() {
        return "-";
    }
    if is_dash_word(bytes) {
        return "\\2d";
    }
    let used = put_all(room, bytes);
    match str::from_utf8(&room[..used]) {
        Ok(text) => text,
        // All of them are ASCII.
        Err(_) => unreachable!(),
    }
}

// ---- reading

/// The value of a lower-case digit.
#[tactic(auto, unfolding(crate::specs::PlainTexts::lower_digit))]
fn digit_value(byte: u8) -> Option<u8>
    ensures value { result ≡ lower_digit byte }
    ensures bound { IfSome result (λ digit. digit < 16) }
{
    match byte {
        b'0'..=b'9' => Some(byte - 48),
        b'a'..=b'f' => Some(byte - 87),
        _ => None,
    }
}

/// The byte that three characters stand for, of which the first is a backslash.
fn escaped_byte(first: u8, high: u8, low: u8) -> Option<u8>
    ensures { result ≡ escaped first high low }
{
    if first != b'\\' {
        return None;
    }
    let byte = 16 * digit_value(high)? + digit_value(low)?;
    if is_literal_byte(byte) {
        return None;
    }
    Some(byte)
}

/// The first byte that some characters stand for, and the characters behind it.
fn first_byte(text: &[u8]) -> Option<(u8, &[u8])>
    requires { 0 < length text.now }
    ensures byte { MatchOption result (characters text.now ≡ None)
        (λ x. characters text.now ≡ in_front (Some x.0) (characters x.1.now)) }
    ensures shorter { IfSome result (λ x. length x.1.now < length text.now) }
{
    if is_literal_byte(text[0]) {
        return Some((text[0], &text[1..]));
    }
    if text.len() < 3 {
        return None;
    }
    let byte = escaped_byte(text[0], text[1], text[2])?;
    Some((byte, &text[3..]))
}

/// Writes a byte at a place of some room, where that is.
fn set(room: &mut [u8], place: usize, byte: u8)
    ensures { room.new ≡ slice_set room.old place byte }
{
    if place < room.len() {
        room[place] = byte;
    }
}

/// The number of bytes that some characters stand for. Those for which there is room are written to it.
#[tactic(auto, using(crate::proofs::Characters::characters_end))]
fn decode_characters(text: &[u8], room: &mut [u8]) -> Option<usize>
    ensures length { result ≡ option_map length (characters text.now) }
    ensures bytes { IfSome result (λ n. n ≤ length room.old → characters text.now ≡ Some (take n room.new)) }
{
    let mut rest = text;
    let mut count = 0;
    while !rest.is_empty() {
        let (byte, behind) = first_byte(rest)?;
        set(room, count, byte);
        count += 1;
        rest = behind;
    }
    Some(count)
}

/// Whether a word is that of a single `-`.
fn is_escaped_dash(word: &[u8]) -> bool
    ensures { result ≡ is_word word.now (codes "\\2d") }
{
    word == b"\\2d".as_slice()
}

/// The number of bytes that a word stands for. Where `room` is long enough, they are written to its front.
#[tactic(auto, using(crate::proofs::Characters::plain_none, crate::proofs::Characters::plain_dash, crate::proofs::Characters::plain_escaped_dash, crate::proofs::Characters::plain_characters))]
pub fn decode(word: &[u8], room: &mut [u8]) -> Option<usize>
    ensures length { result ≡ option_map length (plain_bytes word.now) }
    ensures bytes { IfSome result (λ n. n ≤ length room.old → plain_bytes word.now ≡ Some (take n room.new)) }
{
    if word.is_empty() {
        return None;
    }
    if is_dash_word(word) {
        return Some(0);
    }
    if is_escaped_dash(word) {
        set(room, 0, b'-');
        return Some(1);
    }
    decode_characters(word, room)
}
