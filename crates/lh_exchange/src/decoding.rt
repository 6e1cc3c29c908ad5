//! The texts of keys and values in db.
ghost use Rattle.std.specs.Prelude.{◌≡◌, ◌<◌, ◌≤◌, None, Some, MatchOption, IfSome, false, is_some, length, slice_index};
ghost use Rattle.std.specs.Prelude.{slice_set, take};
ghost use Rattle.std.specs.List.{list_all};
ghost use Rattle.std.specs.Option.{option_map};
ghost use Rattle.std.specs.Result.{result_ok};
ghost use Rattle.hex.specs.Hex.{decode_of, hex_digit_value};
ghost use Rattle.lh_exchange.specs.DbTexts.{byte_before, byte_of_digits, is_plain, line_bytes, line_key, line_value};
ghost use Rattle.lh_exchange.specs.DbTexts.{printed, text_bytes};

use crate::fault::StreamFault;
use crate::layout::Layout;
use lh_page::limits::{LONGEST_KEY, LONGEST_VALUE};
use lh_page::{Key, Value};

/// The value of a hexadecimal digit, in either case.
fn digit_value(byte: u8) -> Option<u8>
    ensures { result ≡ hex_digit_value byte }
{
    match byte {
        b'A'..=b'F' => Some(byte - 55),
        b'a'..=b'f' => Some(byte - 87),
        b'0'..=b'9' => Some(byte - 48),
        _ => None,
    }
}

/// The byte of two hexadecimal digits.
fn byte_of(high: u8, low: u8) -> Option<u8>
    ensures { result ≡ byte_of_digits (hex_digit_value high) (hex_digit_value low) }
{
    Some(digit_value(high)? * 16 + digit_value(low)?)
}

/// Whether a byte stands for itself.
fn is_plain_byte(byte: u8) -> bool
    ensures { result ≡ is_plain byte }
{
    byte >= 32 && byte <= 126 && byte != b'\\'
}

/// The byte that a backslash and what is behind it stand for, and what stands behind that.
#[tactic(auto, using(crate::proofs::Printed::escapes))]
fn escaped(text: &[u8]) -> Option<(u8, &[u8])>
    requires some { 0 < length text.now }
    requires not_plain { is_plain (slice_index text.now 0) ≡ false }
    ensures byte { MatchOption result (printed text.now ≡ None)
        (λ x. printed text.now ≡ byte_before (Some x.0) (printed x.1.now)) }
    ensures shorter { IfSome result (λ x. length x.1.now < length text.now) }
{
    if text[0] != b'\\' {
        return None;
    }
    if text.len() < 2 {
        return None;
    }
    if text[1] == b'\\' {
        return Some((b'\\', &text[2..]));
    }
    if text.len() < 3 {
        return None;
    }
    let byte = byte_of(text[1], text[2])?;
    Some((byte, &text[3..]))
}

/// The first byte that a printed text stands for, and the text behind it.
fn first_byte(text: &[u8]) -> Option<(u8, &[u8])>
    requires { 0 < length text.now }
    ensures byte { MatchOption result (printed text.now ≡ None)
        (λ x. printed text.now ≡ byte_before (Some x.0) (printed x.1.now)) }
    ensures shorter { IfSome result (λ x. length x.1.now < length text.now) }
{
    if is_plain_byte(text[0]) {
        return Some((text[0], &text[1..]));
    }
    escaped(text)
}

/// Puts a byte at a place of some room, where that is.
fn put(room: &mut [u8], place: usize, byte: u8)
    ensures { room.new ≡ slice_set room.old place byte }
{
    if place < room.len() {
        room[place] = byte;
    }
}

/// The number of bytes that a printed text stands for. Those for which there is room are written to it.
#[tactic(auto, using(crate::proofs::Printed::text_ends))]
fn decode_printed(text: &[u8], room: &mut [u8]) -> Option<usize>
    ensures length { result ≡ option_map length (printed text.now) }
    ensures bytes { IfSome result (λ n. n ≤ length room.old → printed text.now ≡ Some (take n room.new)) }
{
    let mut rest = text;
    let mut count = 0;
    while !rest.is_empty() {
        let (byte, behind) = first_byte(rest)?;
        put(room, count, byte);
        count += 1;
        rest = behind;
    }
    Some(count)
}

fn are_digits(text: &[u8]) -> bool
    ensures { result ≡ list_all (λ c. is_some (hex_digit_value c)) text.now }
{
    text.iter().all(|byte| digit_value(*byte).is_some())
}

/// The number of bytes that pairs of hexadecimal digits stand for.
#[tactic(auto, using(crate::proofs::Digits::length_of_digits))]
fn pair_count(text: &[u8]) -> Option<usize>
    ensures { result ≡ option_map length (result_ok (decode_of text.now)) }
{
    if text.len() % 2 == 0 && are_digits(text) {
        Some(text.len() / 2)
    } else {
        None
    }
}

/// The number of bytes that hexadecimal digits stand for. Where there is room for all of them, they are written to it.
#[tactic(auto, using(crate::proofs::Digits::room_short))]
fn decode_digits(text: &[u8], room: &mut [u8]) -> Option<usize>
    ensures length { result ≡ option_map length (result_ok (decode_of text.now)) }
    ensures bytes { IfSome result (λ n. n ≤ length room.old →
        result_ok (decode_of text.now) ≡ Some (take n room.new)) }
{
    let length = text.len() / 2;
    if length > room.len() {
        return pair_count(text);
    }
    match hex::decode_to_slice(text, &mut room[..length]) {
        Ok(()) => Some(length),
        Err(_) => None,
    }
}

/// The number of bytes that a text stands for. Where there is room for all of them, they are written to it.
#[tactic(auto, unfolding(crate::specs::DbTexts::text_bytes))]
fn decode(layout: Layout, text: &[u8], room: &mut [u8]) -> Option<usize>
    ensures length { result ≡ option_map length (text_bytes layout text.now) }
    ensures bytes { IfSome result (λ n. n ≤ length room.old → text_bytes layout text.now ≡ Some (take n room.new)) }
{
    match layout {
        Layout::Cdb => None,
        Layout::Bytevalue => decode_digits(text, room),
        Layout::Print => decode_printed(text, room),
    }
}

/// The same of a line, in which a blank stands in front of the text.
fn decode_line(layout: Layout, line: &[u8], room: &mut [u8]) -> Option<usize>
    ensures length { result ≡ option_map length (line_bytes layout line.now) }
    ensures bytes { IfSome result (λ n. n ≤ length room.old → line_bytes layout line.now ≡ Some (take n room.new)) }
{
    let (first, text) = line.split_first()?;
    if *first != b' ' {
        return None;
    }
    decode(layout, text, room)
}

/// The key of a line.
pub fn read_key(layout: Layout, line: &[u8]) -> Result<Key, StreamFault>
    ensures { result ≡ line_key layout line.now }
{
    let mut room = [0; LONGEST_KEY];
    let Some(length) = decode_line(layout, line, &mut room) else {
        return Err(StreamFault::NotARecord);
    };
    if length == 0 || length > LONGEST_KEY {
        return Err(StreamFault::KeyLength(length));
    }
    Ok(Key::new(&room[..length]).unwrap())
}

/// The value of a line.
pub fn read_value(layout: Layout, line: &[u8]) -> Result<Value, StreamFault>
    ensures { result ≡ line_value layout line.now }
{
    let mut room = [0; LONGEST_VALUE];
    let Some(length) = decode_line(layout, line, &mut room) else {
        return Err(StreamFault::NotAValue);
    };
    if length > LONGEST_VALUE {
        return Err(StreamFault::ValueLength(length));
    }
    Ok(Value::new(&room[..length]).unwrap())
}
