//! Chains of records.
use crate::tests::records::pair_of;
use lh_expect::{expect, expect_eq};
use lh_page::{Chain, Key, KeyLength, KeySet, Memory, Pair, Value, ValueLength, pages_needed};
use std::process::Abort;
use std::test::Fail;

/// Pushes a new record, and once more where memory was refused: the chain is as it was then.
fn add(rt: &impl Abort, chain: &mut Chain, key: &[u8], value: &[u8]) -> Result<(), Fail> {
    let pair = pair_of(key, value)?;
    expect_eq!(rt, chain.find(&pair.key), None);
    let before = chain.len();
    if chain.push(pair).is_err() {
        expect_eq!(rt; chain.len(), before);
        expect_eq!(rt, chain.find(&pair.key), None);
        chain.push(pair)?;
    }
    expect_eq!(rt, chain.len(), before + 1);
    expect_eq!(rt, chain.find(&pair.key), Some(before));
    Ok(())
}

fn delete(rt: &impl Abort, chain: &mut Chain, key: &[u8]) -> Result<Pair, Fail> {
    let key = Key::new(key)?;
    let Some(place) = chain.find(&key) else {
        return Err(Fail::from("no record has the key"));
    };
    let removed = chain.remove(place);
    expect_eq!(rt, chain.find(&key), None);
    Ok(removed)
}

/// The first bytes of the chain's keys are these, in their order.
fn expect_keys(rt: &impl Abort, chain: &Chain, keys: &[u8]) {
    expect_eq!(rt, chain.len(), keys.len());
    for (place, key) in keys.iter().enumerate() {
        expect!(rt, place < chain.len());
        expect_eq!(rt, chain.pair_at(place).key.bytes().first(), Some(key));
    }
}

/// A key of a length that begins with a letter.
fn key_of(letter: u8, len: usize) -> Result<Key, KeyLength> {
    let mut bytes = [b'-'; 56];
    bytes[0] = letter;
    Key::new(&bytes[..len.min(56)])
}

/// A value of a length, with its number in each of its bytes.
fn value_of(number: u8, len: usize) -> Result<Value, ValueLength> {
    Value::new(&[number; 112][..len.min(112)])
}

/// The record of a letter. Some of these values are behind their keys, and some are not.
pub fn record_of(letter: u8) -> Result<Pair, Fail> {
    let keys = [56, 1, 16, 50, 55];
    let values = [6, 112, 46, 12, 0, 7, 62];
    Ok(Pair {
        key: key_of(letter, keys[letter as usize % 5])?,
        value: value_of(letter, values[letter as usize % 7])?,
    })
}

/// The chain has the records of these letters in their order.
pub fn expect_records(rt: &impl Abort, chain: &Chain, letters: &[u8]) -> Result<(), Fail> {
    expect_eq!(rt, chain.len(), letters.len());
    for (place, letter) in letters.iter().enumerate() {
        let pair = record_of(*letter)?;
        expect!(rt, place < chain.len());
        expect_eq!(rt; chain.pair_at(place), pair);
        expect_eq!(rt; chain.value_at(place), pair.value);
        expect_eq!(rt, chain.find(&pair.key), Some(place));
    }
    Ok(())
}

/// Pushes the records of letters, each once more where memory was refused.
pub fn add_records(rt: &impl Abort, chain: &mut Chain, letters: &[u8]) -> Result<(), Fail> {
    for letter in letters {
        let pair = record_of(*letter)?;
        add(rt, chain, pair.key.bytes(), pair.value.bytes())?;
    }
    Ok(())
}

/// Keys below `g`.
pub struct Early;

impl KeySet for Early {
    ghost use Rattle.std.specs.Prelude.{get_or, nat_lt};

    ghost member = { λ s key. nat_lt (get_or key 0 0) 103 };

    fn contains(&self, key: &[u8]) -> bool {
        key.first().copied().unwrap_or(0) < b'g'
    }
}

/// Deletes the record of a key of one byte, whose value is one, and then the keys are these in so many pages.
fn expect_moved(
    rt: &impl Abort,
    chain: &mut Chain,
    key: &[u8],
    keys: &[u8],
    pages: usize,
) -> Result<(), Fail> {
    expect_eq!(rt, delete(rt, chain, key)?, pair_of(key, b"1")?);
    expect_keys(rt, chain, keys);
    expect_eq!(rt; chain.pages(), pages);
    Ok(())
}

fn fill_and_delete(rt: &impl Abort, chain: &mut Chain) -> Result<(), Fail> {
    expect_eq!(rt, chain.pages(), 1);
    for key in [b"a", b"c", b"e", b"g"] {
        add(rt, chain, key, b"1")?;
    }
    expect_keys(rt, chain, b"aceg");
    expect_eq!(rt, chain.pages(), 2);
    expect_moved(rt, chain, b"a", b"gce", 2)?;
    expect_moved(rt, chain, b"e", b"gc", 1)?;
    expect_eq!(rt, chain.capacity(), 2);
    Ok(())
}

#[test]
fn a_delete_moves_the_last_record(rt: HostRuntime) -> Result<(), Fail> {
    fill_and_delete(&rt, &mut Chain::new(rt.alloc(), 2)?)
}

/// What a division takes off, asked for once more where memory was refused: the chain has these keys then.
fn early_of(rt: &impl Abort, chain: &mut Chain, keys: &[u8]) -> Result<Chain, Fail> {
    match chain.split_off(&Early) {
        Ok(gone) => Ok(gone),
        Err(Memory) => {
            expect_keys(rt, chain, keys);
            Ok(chain.split_off(&Early)?)
        }
    }
}

fn fill_and_replace(rt: &impl Abort, chain: &mut Chain, key: &Key) -> Result<(), Fail> {
    for letter in b'a'..=b'z' {
        add(rt, chain, &[letter, b'0'], &[letter])?;
    }
    expect_eq!(rt, chain.pages(), 2);
    let Some(place) = chain.find(key) else {
        return Err(Fail::from("no record has the key"));
    };
    expect_eq!(rt; place, 24);
    expect_eq!(
        rt,
        chain.replace_at(place, Value::new(b"new")?),
        Value::new(b"y")?
    );
    expect_eq!(rt, chain.find(key), Some(24));
    expect!(rt, 24 < chain.len());
    expect_eq!(rt, chain.pair_at(24), pair_of(b"y0", b"new")?);
    Ok(())
}

fn divide(rt: &impl Abort, chain: &mut Chain, key: &Key) -> Result<(), Fail> {
    let gone = early_of(rt, chain, b"abcdefghijklmnopqrstuvwxyz")?;
    expect_keys(rt, &gone, b"abcdef");
    expect_keys(rt, chain, b"ghijklmnopqrstuvwxyz");
    expect_eq!(rt, gone.capacity(), 14);
    expect_eq!(rt, chain.find(key), Some(18));
    Ok(())
}

#[test]
fn finds_replaces_and_divides(rt: HostRuntime) -> Result<(), Fail> {
    let key = Key::new(b"y0")?;
    let mut chain = Chain::new(rt.alloc(), 14)?;
    fill_and_replace(&rt, &mut chain, &key)?;
    divide(&rt, &mut chain, &key)
}

fn add_second(rt: &impl Abort, chain: &mut Chain) -> Result<(), Fail> {
    add(rt, chain, b"b", b"2")?;
    expect_keys(rt, chain, b"ab");
    expect_eq!(rt, chain.pages(), 2);
    expect_eq!(rt, chain.find(&Key::new(b"a")?), Some(0));
    expect_eq!(rt, chain.pair_at(0), pair_of(b"a", b"1")?);
    Ok(())
}

#[test]
fn a_chain_is_made_of_records(rt: HostRuntime) -> Result<(), Fail> {
    let pairs = [pair_of(b"a", b"1")?];
    let mut chain = match Chain::from_pairs(rt.alloc(), 1, &pairs) {
        Ok(chain) => chain,
        Err(Memory) => Chain::from_pairs(rt.alloc(), 1, &pairs)?,
    };
    add_second(&rt, &mut chain)
}

#[test]
fn counts_the_pages_of_records(rt: HostRuntime) {
    expect_eq!(&rt, pages_needed(0, 2), 1);
    expect_eq!(&rt, pages_needed(2, 2), 1);
    expect_eq!(&rt, pages_needed(3, 2), 2);
    expect_eq!(&rt, pages_needed(usize::MAX, 1), usize::MAX);
}

/// The key is found at this place, with this value.
fn expect_record(rt: &impl Abort, chain: &Chain, key: &Key, value: &Value, place: usize) {
    expect_eq!(rt, chain.find(key), Some(place));
    expect!(rt, place < chain.len());
    expect_eq!(
        rt,
        chain.pair_at(place),
        Pair {
            key: *key,
            value: *value
        }
    );
}

/// A sixth record's value is replaced by longer and shorter ones, and then the first record goes.
fn cross(rt: &impl Abort, chain: &mut Chain, len: usize) -> Result<(), Fail> {
    add_records(rt, chain, b"abcde")?;
    let key = key_of(b'x', len)?;
    let mut before = value_of(0, 3)?;
    add(rt, chain, key.bytes(), before.bytes())?;
    for length in [7, 112, 6, 47, 61, 0, 111, 46, 62, 5] {
        let Some(place) = chain.find(&key) else {
            return Err(Fail::from("no record has the key"));
        };
        let value = value_of(length as u8, length)?;
        expect_eq!(rt; chain.replace_at(place, value), before);
        expect_record(rt, chain, &key, &value, 5);
        before = value;
    }
    expect_eq!(
        rt,
        delete(rt, chain, record_of(b'a')?.key.bytes())?,
        record_of(b'a')?
    );
    expect_record(rt, chain, &key, &before, 0);
    Ok(())
}

#[test]
fn a_value_crosses_from_the_line_and_back(rt: HostRuntime) -> Result<(), Fail> {
    for len in [1, 16, 55, 56] {
        cross(&rt, &mut Chain::new(rt.alloc(), 24)?, len)?;
    }
    Ok(())
}

/// Records with the longest keys, each with a letter, and values of these lengths.
const LONGEST: [(u8, usize); 6] = [
    (b'a', 6),
    (b'b', 7),
    (b'c', 6),
    (b'd', 7),
    (b'e', 0),
    (b'f', 112),
];

fn add_longest(rt: &impl Abort, chain: &mut Chain) -> Result<(), Fail> {
    for (letter, len) in LONGEST {
        let value = value_of(letter, len)?;
        add(rt, chain, key_of(letter, 56)?.bytes(), value.bytes())?;
    }
    for (place, (letter, len)) in LONGEST.iter().enumerate() {
        let pair = Pair {
            key: key_of(*letter, 56)?,
            value: value_of(*letter, *len)?,
        };
        expect!(rt, place < chain.len());
        expect_eq!(rt; chain.pair_at(place), pair);
    }
    Ok(())
}

/// A key that differs in its last byte alone, one that differs at the end of its first half, and a shorter one.
fn expect_others_absent(rt: &impl Abort, chain: &Chain) -> Result<(), Fail> {
    let mut bytes = [b'-'; 56];
    bytes[0] = b'a';
    expect_eq!(rt, chain.find(&Key::new(&bytes)?), Some(0));
    bytes[55] = b'+';
    expect_eq!(rt, chain.find(&Key::new(&bytes)?), None);
    bytes[55] = b'-';
    bytes[31] = b'+';
    expect_eq!(rt, chain.find(&Key::new(&bytes)?), None);
    expect_eq!(rt, chain.find(&key_of(b'a', 55)?), None);
    Ok(())
}

#[test]
fn the_longest_keys_have_six_bytes_behind_them(rt: HostRuntime) -> Result<(), Fail> {
    let mut chain = Chain::new(rt.alloc(), 2)?;
    add_longest(&rt, &mut chain)?;
    expect_others_absent(&rt, &chain)
}

fn delete_at_places(rt: &impl Abort, chain: &mut Chain) -> Result<(), Fail> {
    let mut letters = *b"abcdefghijklm";
    add_records(rt, chain, &letters)?;
    for (removed, place) in [0, 11, 3, 4, 7, 1, 5, 0, 4, 2, 0, 1, 0].iter().enumerate() {
        expect!(rt, removed < 13 && *place < 13);
        let pair = record_of(letters[*place])?;
        expect_eq!(rt, chain.find(&pair.key), Some(*place));
        expect_eq!(rt; delete(rt, chain, pair.key.bytes())?, pair);
        letters[*place] = letters[12 - removed];
        expect_records(rt, chain, &letters[..12 - removed])?;
    }
    Ok(())
}

fn add_again(rt: &impl Abort, chain: &mut Chain) -> Result<(), Fail> {
    expect_eq!(rt, chain.len(), 0);
    add_records(rt, chain, b"nop")?;
    expect_records(rt, chain, b"nop")
}

#[test]
fn a_delete_moves_a_record_to_another_unit(rt: HostRuntime) -> Result<(), Fail> {
    let mut chain = Chain::new(rt.alloc(), 24)?;
    delete_at_places(&rt, &mut chain)?;
    add_again(&rt, &mut chain)
}

/// What a division takes off, asked for once more where memory was refused: the chain has these records then.
pub fn early_records_of(rt: &impl Abort, chain: &mut Chain, letters: &[u8]) -> Result<Chain, Fail> {
    match chain.split_off(&Early) {
        Ok(gone) => Ok(gone),
        Err(Memory) => {
            expect_records(rt, chain, letters)?;
            Ok(chain.split_off(&Early)?)
        }
    }
}

fn fill_and_split(rt: &impl Abort, chain: &mut Chain) -> Result<(), Fail> {
    let letters = b"ABCDEFGHIJKLMNOPQRSTUVWXYZabcdefghijklmnopqrstuvwxyz";
    add_records(rt, chain, letters)?;
    expect_eq!(rt, chain.pages(), 3);
    expect_records(rt, chain, letters)?;
    // Those below `g` are more than half.
    let gone = early_records_of(rt, chain, letters)?;
    expect_records(rt, &gone, b"ABCDEFGHIJKLMNOPQRSTUVWXYZabcdef")
}

#[test]
fn a_split_takes_long_values_along(rt: HostRuntime) -> Result<(), Fail> {
    let mut chain = Chain::new(rt.alloc(), 24)?;
    fill_and_split(&rt, &mut chain)?;
    expect_records(&rt, &chain, b"ghijklmnopqrstuvwxyz")
}

/// The letters from one on.
pub fn letters_from(first: u8) -> [u8; 75] {
    let mut letters = [0; 75];
    for (place, letter) in letters.iter_mut().enumerate() {
        *letter = first.wrapping_add(place as u8);
    }
    letters
}

fn split_all_off(rt: &impl Abort, chain: &mut Chain) -> Result<(), Fail> {
    let letters = letters_from(1);
    add_records(rt, chain, &letters)?;
    let gone = early_records_of(rt, chain, &letters)?;
    expect_records(rt, &gone, &letters)?;
    expect_records(rt, chain, b"")?;
    expect_eq!(rt, (gone.pages(), chain.pages()), (4, 1));
    add_again(rt, chain)
}

#[test]
fn a_split_takes_all_records(rt: HostRuntime) -> Result<(), Fail> {
    split_all_off(&rt, &mut Chain::new(rt.alloc(), 24)?)
}

fn split_none_off(rt: &impl Abort, chain: &mut Chain) -> Result<(), Fail> {
    let letters = letters_from(b'z');
    add_records(rt, chain, &letters)?;
    let gone = early_records_of(rt, chain, &letters)?;
    expect_records(rt, &gone, b"")?;
    expect_records(rt, chain, &letters)?;
    expect_eq!(rt, (gone.pages(), chain.pages()), (1, 4));
    expect_eq!(rt, gone.capacity(), 24);
    add_records(rt, chain, b"aby")
}

#[test]
fn a_split_takes_no_record(rt: HostRuntime) -> Result<(), Fail> {
    split_none_off(&rt, &mut Chain::new(rt.alloc(), 24)?)
}

fn push_many(rt: &impl Abort, chain: &mut Chain) -> Result<(), Fail> {
    for number in 0..5000_u16 {
        let pair = pair_of(&number.wrapping_mul(13).to_be_bytes(), b"1")?;
        expect_eq!(rt, chain.find(&pair.key), None);
        chain.push(pair)?;
    }
    expect_eq!(rt, (chain.len(), chain.pages()), (5000, 209));
    Ok(())
}

/// No number of records is too many for a chain, nor for a split of it.
#[test]
fn a_chain_has_many_records(rt: HostRuntime) -> Result<(), Fail> {
    let mut chain = Chain::new(rt.alloc(), 24)?;
    push_many(&rt, &mut chain)?;
    let gone = chain.split_off(&Early)?;
    // The first byte is below `g` for a number below 103 * 256 / 13.
    expect_eq!(&rt, (gone.len(), chain.len()), (2029, 2971));
    expect_eq!(&rt, (gone.pages(), chain.pages()), (85, 124));
    Ok(())
}

/// A chain of no records needs no memory, so that none can be refused.
#[test]
fn an_empty_chain_is_made_and_divided(rt: HostRuntime) -> Result<(), Fail> {
    let mut chain = Chain::from_pairs(rt.alloc(), 2, &[])?;
    let gone = chain.split_off(&Early)?;
    expect_eq!(&rt, (gone.len(), chain.len()), (0, 0));
    expect_eq!(&rt, (gone.pages(), chain.pages()), (1, 1));
    Ok(())
}

/// Appends the records of letters by their parts, each once more where memory was refused.
fn append_records(rt: &impl Abort, chain: &mut Chain, letters: &[u8]) -> Result<(), Fail> {
    for letter in letters {
        let Pair { key, value } = record_of(*letter)?;
        expect_eq!(rt, chain.find(&key), None);
        if chain.append(&key, &value).is_err() {
            expect_eq!(rt, chain.find(&key), None);
            chain.append(&key, &value)?;
        }
    }
    Ok(())
}

fn discard_at(rt: &impl Abort, chain: &mut Chain, place: usize) {
    expect!(rt, place < chain.len());
    chain.discard(place);
}

fn set_value_at(rt: &impl Abort, chain: &mut Chain, place: usize, value: &Value) {
    expect!(rt, place < chain.len());
    chain.set_value(place, value);
}

fn expect_value(rt: &impl Abort, chain: &Chain, place: usize, bytes: &[u8]) {
    expect!(rt, place < chain.len());
    expect_eq!(rt; chain.value_bytes(place), bytes);
}

fn change_by_parts(rt: &impl Abort, chain: &mut Chain) -> Result<(), Fail> {
    append_records(rt, chain, b"abcdefg")?;
    discard_at(rt, chain, 1);
    expect_records(rt, chain, b"agcdef")?;
    discard_at(rt, chain, 5);
    expect_records(rt, chain, b"agcde")?;
    set_value_at(rt, chain, 1, &value_of(7, 112)?);
    expect_value(rt, chain, 1, &[7; 112]);
    expect_value(rt, chain, 4, record_of(b'e')?.value.bytes());
    Ok(())
}

#[test]
fn a_chain_is_changed_by_parts(rt: HostRuntime) -> Result<(), Fail> {
    change_by_parts(&rt, &mut Chain::new(rt.alloc(), 2)?)
}
