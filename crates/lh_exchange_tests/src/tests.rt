//! Streams in either format.
mod cdb;
mod db;
mod memory;
mod written;

use lh_exchange::{ExchangeError, read_records};
use lh_expect::expect_eq;
use lh_page::Pair;
use std::alloc::{AllocError, AllocGlobal, Global};
use std::process::Abort;
use std::test::Fail;

/// The records as a text, each in brackets, its key and its value as literals of Rust.
fn listed(alloc: Global, pairs: &[Pair]) -> Result<String, AllocError> {
    let mut text = String::new(alloc);
    for pair in pairs {
        let (key, value) = (pair.key, pair.value);
        write!(text, "[{key:?} {value:?}]")?;
    }
    Ok(text)
}

/// The records of a stream as a text, or what is wrong with it.
fn outcome(alloc: Global, bytes: &[u8]) -> Result<String, AllocError> {
    match read_records(alloc, bytes) {
        Ok(pairs) => listed(alloc, &pairs),
        Err(ExchangeError::Fault(fault)) => fault.to_string(alloc),
        Err(ExchangeError::Memory) => Err(AllocError),
    }
}

/// A stream has these records, or this is wrong with it.
fn expect_outcome(rt: &(impl Abort + AllocGlobal), bytes: &[u8], want: &str) -> Result<(), Fail> {
    expect_eq!(rt; outcome(rt.alloc(), bytes)?.as_str(), want);
    Ok(())
}
