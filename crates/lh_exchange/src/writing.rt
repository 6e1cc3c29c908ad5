//! What is written of records, piece by piece.
ghost use Rattle.std.specs.Prelude.{◌≡◌, ◌+◌, ◌*◌, ◌<◌, ◌≤◌, ◌++◌, length, take};
ghost use Rattle.std.specs.Fmt.{decimal};
ghost use Rattle.hex.specs.Hex.{encode_lower};
ghost use Rattle.lh_exchange.specs.StreamTexts.{cdb_text, db_text, digits_line, leading_text, pair_text, closing_text};

use crate::format::StreamFormat;
use itoa::Buffer;
use lh_page::Pair;
use lh_page::limits::{LONGEST_KEY, LONGEST_VALUE};

/// No record takes more bytes ([a law](crate::laws::records_have_room)): in db, two digits for each of key and value, and
/// a blank and an LF for each line.
pub const LONGEST_RECORD: usize = 2 * (LONGEST_KEY + LONGEST_VALUE) + 4;

/// What stands in front of the first record.
pub fn head(format: StreamFormat) -> &'static [u8]
    ensures { result.now ≡ leading_text format }
{
    match format {
        StreamFormat::Cdb => b"".as_slice(),
        StreamFormat::Db => b"VERSION=3\nformat=bytevalue\ntype=btree\nHEADER=END\n".as_slice(),
    }
}

/// What stands behind the last record.
pub fn tail(format: StreamFormat) -> &'static [u8]
    ensures { result.now ≡ closing_text format }
{
    match format {
        StreamFormat::Cdb => b"\n".as_slice(),
        StreamFormat::Db => b"DATA=END\n".as_slice(),
    }
}

/// Puts bytes behind the first of some room, and gives how many are then in use.
fn put(room: &mut [u8; LONGEST_RECORD], used: usize, bytes: &[u8]) -> usize
    requires { used + length bytes.now ≤ LONGEST_RECORD }
    ensures used { result ≡ used + length bytes.now }
    ensures bytes { take result room.new ≡ take used room.old ++ bytes.now }
{
    let end = used + bytes.len();
    room[used..end].copy_from_slice(bytes);
    end
}

/// Puts a number behind the first bytes of some room.
#[tactic(auto, using(crate::proofs::WrittenRecords::few_digits))]
fn put_number(room: &mut [u8; LONGEST_RECORD], used: usize, number: usize) -> usize
    requires number { number < 1000 }
    requires room { used + 3 ≤ LONGEST_RECORD }
    ensures used { result ≤ used + 3 }
    ensures bytes { take result room.new ≡ take used room.old ++ decimal number }
{
    let mut digits = Buffer::new();
    put(room, used, digits.format(number).as_bytes())
}

/// Puts two hexadecimal digits for each byte behind the first bytes of some room.
fn put_digits(room: &mut [u8; LONGEST_RECORD], used: usize, bytes: &[u8]) -> usize
    requires { used + 2 * length bytes.now ≤ LONGEST_RECORD }
    ensures used { result ≡ used + 2 * length bytes.now }
    ensures bytes { take result room.new ≡ take used room.old ++ encode_lower bytes.now }
{
    let end = used + 2 * bytes.len();
    let Ok(()) = hex::encode_to_slice(bytes, &mut room[used..end]) else {
        // There are two digits for each byte.
        unreachable!()
    };
    end
}

/// Puts a line of digits behind the first bytes of some room.
fn put_line(room: &mut [u8; LONGEST_RECORD], used: usize, bytes: &[u8]) -> usize
    requires { used + 2 * length bytes.now + 2 ≤ LONGEST_RECORD }
    ensures used { result ≡ used + 2 * length bytes.now + 2 }
    ensures bytes { take result room.new ≡ take used room.old ++ digits_line bytes.now }
{
    let used = put(room, used, b" ".as_slice());
    let used = put_digits(room, used, bytes);
    put(room, used, b"\n".as_slice())
}

/// Puts a record as cdb has it at the front of some room.
fn put_cdb(room: &mut [u8; LONGEST_RECORD], pair: &Pair) -> usize
    ensures used { result ≤ LONGEST_RECORD }
    ensures bytes { take result room.new ≡ cdb_text pair.now }
{
    let (key, value) = (pair.key.bytes(), pair.value.bytes());
    let used = put(room, 0, b"+".as_slice());
    let used = put_number(room, used, key.len());
    let used = put(room, used, b",".as_slice());
    let used = put_number(room, used, value.len());
    let used = put(room, used, b":".as_slice());
    let used = put(room, used, key);
    let used = put(room, used, b"->".as_slice());
    let used = put(room, used, value);
    put(room, used, b"\n".as_slice())
}

/// Puts a record as db has it at the front of some room.
fn put_db(room: &mut [u8; LONGEST_RECORD], pair: &Pair) -> usize
    ensures used { result ≤ LONGEST_RECORD }
    ensures bytes { take result room.new ≡ db_text pair.now }
{
    let used = put_line(room, 0, pair.key.bytes());
    put_line(room, used, pair.value.bytes())
}

/// A record as a format has it, written to the front of some room. There is room for the longest.
///
/// So a writer keeps the room before its first write, and wants no memory after it.
pub fn write_record<'a>(
    format: StreamFormat,
    pair: &Pair,
    room: &'a mut [u8; LONGEST_RECORD],
) -> &'a [u8]
    ensures { result.now ≡ pair_text format pair.now }
{
    let used = match format {
        StreamFormat::Cdb => put_cdb(room, pair),
        StreamFormat::Db => put_db(room, pair),
    };
    &room[..used]
}
