//! Records as cdb has them: `+3,4:ada->0171` and LF.
ghost use Rattle.std.specs.Prelude.{◌≡◌, ◌+◌, ◌≤◌, IfOk, IfSome, length};
ghost use Rattle.lh_page.specs.Limits.{longest_key, longest_value};
ghost use Rattle.lh_exchange.specs.Cdb.{cdb_record, framed_pair, is_framed, length_until, next_cdb, number_until};
ghost use Rattle.lh_exchange.specs.Cdb.{pair_of_lengths, with_digit};
ghost use Rattle.lh_exchange.specs.StreamParts.{IsFront, IsNextRecord};

use crate::ending::end_before;
use crate::fault::StreamFault;
use lh_page::limits::{LONGEST_KEY, LONGEST_VALUE};
use lh_page::{Key, Pair, Value};

/// A number with one more digit behind it. Behind a single 0 stands no other digit.
#[tactic(auto, using(std::proofs::lemmas::Bool::Decides::nat_tests), unfolding(crate::specs::Cdb::with_digit))]
fn appended(number: usize, byte: u8) -> Option<usize>
    ensures { result ≡ with_digit number byte }
{
    if number == 0 || !byte.is_ascii_digit() {
        return None;
    }
    number.checked_mul(10)?.checked_add((byte - b'0') as usize)
}

/// The number that goes on with the digits up to a mark, and what stands behind the mark.
fn rest_of_number(mark: u8, first: usize, bytes: &[u8]) -> Result<(usize, &[u8]), StreamFault>
    ensures number { IsFront (λ s. s.now) result (number_until mark first bytes.now) }
    ensures shorter { IfOk result (λ x. length x.1.now ≤ length bytes.now) }
{
    let mut number = first;
    for (place, byte) in bytes.iter().enumerate() {
        if *byte == mark {
            return Ok((number, &bytes[place + 1..]));
        }
        let Some(longer) = appended(number, *byte) else {
            return Err(StreamFault::NotARecord);
        };
        number = longer;
    }
    Err(StreamFault::NoEnd)
}

/// The length that stands in front of a mark, and what stands behind the mark.
#[tactic(auto, using(crate::proofs::Numbers::first_digits))]
fn read_length(mark: u8, bytes: &[u8]) -> Result<(usize, &[u8]), StreamFault>
    ensures length { IsFront (λ s. s.now) result (length_until mark bytes.now) }
    ensures shorter { IfOk result (λ x. length x.1.now ≤ length bytes.now) }
{
    let Some((first, rest)) = bytes.split_first() else {
        return Err(StreamFault::NoEnd);
    };
    if !first.is_ascii_digit() {
        return Err(StreamFault::NotARecord);
    }
    rest_of_number(mark, (*first - b'0') as usize, rest)
}

/// Whether a key and a value of these lengths stand in front of their marks, `->` and LF.
fn has_marks(key: usize, value: usize, bytes: &[u8]) -> bool
    requires { key + value + 3 ≤ length bytes.now }
    ensures { result ≡ is_framed key value bytes.now }
{
    bytes[key] == b'-' && bytes[key + 1] == b'>' && bytes[key + 2 + value] == b'\n'
}

/// The key and the value of these lengths, each in front of its mark, and what stands behind them.
#[tactic(auto, unfolding(crate::specs::Cdb::framed_pair))]
fn read_framed(key: usize, value: usize, bytes: &[u8]) -> Result<(Pair, &[u8]), StreamFault>
    requires key { (1 ≤ key) × (key ≤ longest_key) }
    requires value { value ≤ longest_value }
    ensures pair { IsFront (λ s. s.now) result (framed_pair key value bytes.now) }
    ensures shorter { IfOk result (λ x. 1 + length x.1.now ≤ length bytes.now) }
{
    if bytes.len() < key + value + 3 {
        return Err(StreamFault::NoEnd);
    }
    if !has_marks(key, value, bytes) {
        return Err(StreamFault::NotARecord);
    }
    let pair = Pair {
        key: Key::new(&bytes[..key]).unwrap(),
        value: Value::new(&bytes[key + 2..key + 2 + value]).unwrap(),
    };
    Ok((pair, &bytes[key + value + 3..]))
}

/// The same, unless no key or no value has such a length.
#[tactic(auto, unfolding(crate::specs::Cdb::pair_of_lengths))]
fn read_pair(key: usize, value: usize, bytes: &[u8]) -> Result<(Pair, &[u8]), StreamFault>
    ensures pair { IsFront (λ s. s.now) result (pair_of_lengths key value bytes.now) }
    ensures shorter { IfOk result (λ x. 1 + length x.1.now ≤ length bytes.now) }
{
    if key == 0 || key > LONGEST_KEY {
        return Err(StreamFault::KeyLength(key));
    }
    if value > LONGEST_VALUE {
        return Err(StreamFault::ValueLength(value));
    }
    read_framed(key, value, bytes)
}

/// The record behind a `+`, and what stands behind it.
#[tactic(auto, using(crate::proofs::CdbSteps::two_lengths))]
fn read_record(bytes: &[u8]) -> Result<(Pair, &[u8]), StreamFault>
    ensures pair { IsFront (λ s. s.now) result (cdb_record bytes.now) }
    ensures shorter { IfOk result (λ x. 1 + length x.1.now ≤ length bytes.now) }
{
    let (key, rest) = read_length(b',', bytes)?;
    let (value, rest) = read_length(b':', rest)?;
    read_pair(key, value, rest)
}

/// The next record and what stands behind it, or none at the end.
#[tactic(auto, using(crate::proofs::CdbSteps::nexts))]
pub fn next(bytes: &[u8]) -> Result<Option<(Pair, &[u8])>, StreamFault>
    ensures next { IsNextRecord (λ s. s.now) result (next_cdb bytes.now) }
    ensures shorter { IfOk result (λ next. IfSome next (λ x. 2 + length x.1.now ≤ length bytes.now)) }
{
    let Some((first, rest)) = bytes.split_first() else {
        return Err(StreamFault::NoEnd);
    };
    if *first == b'\n' {
        return end_before(rest);
    }
    if *first != b'+' {
        return Err(StreamFault::NotARecord);
    }
    match read_record(rest) {
        Ok(found) => Ok(Some(found)),
        Err(fault) => Err(fault),
    }
}
