//! Growth that is refused: run with each request for memory refused in turn, one in each run.
use crate::tests::chains::{
    add_records, early_records_of, expect_records, letters_from, record_of,
};
use lh_expect::expect_eq;
use lh_page::{Chain, Pair};
use std::process::Abort;
use std::test::Fail;

/// Pushes a record; where that was refused the chain has these records.
fn push_again(rt: &impl Abort, chain: &mut Chain, pair: Pair, before: &[u8]) -> Result<(), Fail> {
    expect_eq!(rt, chain.find(&pair.key), None);
    if chain.push(pair).is_err() {
        expect_records(rt, chain, before)?;
        expect_eq!(rt, chain.find(&pair.key), None);
        chain.push(pair)?;
    }
    Ok(())
}

fn push_all(rt: &impl Abort, chain: &mut Chain, letters: &[u8]) -> Result<(), Fail> {
    for (place, letter) in letters.iter().enumerate() {
        push_again(rt, chain, record_of(*letter)?, &letters[..place])?;
        expect_records(rt, chain, &letters[..place + 1])?;
    }
    Ok(())
}

/// A push that was refused, and a division, leave the chain as it was, and succeed when they are asked for again.
#[test]
fn refused_growth_leaves_a_chain_as_it_was(rt: HostRuntime) -> Result<(), Fail> {
    let letters = b"abcdefghijklmnopqrstuvwxyz";
    let mut chain = Chain::new(rt.alloc(), 3)?;
    push_all(&rt, &mut chain, letters)?;
    let gone = early_records_of(&rt, &mut chain, letters)?;
    expect_records(&rt, &gone, b"abcdef")?;
    expect_records(&rt, &chain, b"ghijklmnopqrstuvwxyz")
}

/// Appends a record by key and value; where that was refused the chain has these records.
fn append_again(
    rt: &impl Abort,
    chain: &mut Chain,
    pair: &Pair,
    before: &[u8],
) -> Result<(), Fail> {
    expect_eq!(rt, chain.find(&pair.key), None);
    if chain.append(&pair.key, &pair.value).is_err() {
        expect_records(rt, chain, before)?;
        expect_eq!(rt, chain.find(&pair.key), None);
        chain.append(&pair.key, &pair.value)?;
    }
    Ok(())
}

fn append_all(rt: &impl Abort, chain: &mut Chain, letters: &[u8]) -> Result<(), Fail> {
    for (place, letter) in letters.iter().enumerate() {
        append_again(rt, chain, &record_of(*letter)?, &letters[..place])?;
        expect_records(rt, chain, &letters[..place + 1])?;
    }
    Ok(())
}

/// So does an append by key and value.
#[test]
fn refused_appends_leave_a_chain_as_it_was(rt: HostRuntime) -> Result<(), Fail> {
    append_all(&rt, &mut Chain::new(rt.alloc(), 3)?, b"abcdefghi")
}

/// Letters that go and letters that stay in turns: more than a word has bits, in seven pages of 24.
fn letters_in_turns() -> [u8; 150] {
    let mut letters = [0; 150];
    for (place, letter) in letters.iter_mut().enumerate() {
        let first = if place % 2 == 0 { 1 } else { 128 };
        *letter = first + (place / 2) as u8;
    }
    letters
}

fn split_long(rt: &impl Abort, chain: &mut Chain) -> Result<(), Fail> {
    let letters = letters_in_turns();
    add_records(rt, chain, &letters)?;
    expect_eq!(rt, chain.pages(), 7);
    let mut gone = early_records_of(rt, chain, &letters)?;
    expect_records(rt, &gone, &letters_from(1))?;
    expect_records(rt, chain, &letters_from(128))?;
    expect_eq!(rt, (gone.pages(), chain.pages()), (4, 4));
    add_records(rt, &mut gone, b"xyz")?;
    add_records(rt, chain, b"abc")
}

/// So does the division of a long chain. It takes every other record, also those behind the first 64.
#[test]
fn a_refused_split_leaves_a_long_chain_as_it_was(rt: HostRuntime) -> Result<(), Fail> {
    split_long(&rt, &mut Chain::new(rt.alloc(), 24)?)
}
