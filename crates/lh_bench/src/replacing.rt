//! Replaces of records by values of other lengths.

use crate::caller::{Caller, play};
use crate::contents::Contents;
use crate::meter::Stopwatch;
use crate::order::Order;
use crate::report::Outcome;
use crate::streams::Replaces;
use crate::table::Table;
use crate::workloads::load;
use anyhow::Result;
use lh_bucket::Reply;
use std::alloc::Global;
use std::rt::Clock;
use std::sync::Wait;
use std::time::CpuClock;

/// The length of no value.
const NEVER: u8 = 255;

/// The length of the value that each record was last given, or [`NEVER`].
fn last_lengths(alloc: Global, order: &Order) -> Result<Vec<u8>> {
    let mut lengths = Vec::new(alloc);
    lengths.resize(order.records as usize, NEVER)?;
    let mut stream = Replaces::new(order);
    for _ in 0..order.calls() {
        let (record, length) = stream.pick();
        if let Some(last) = lengths.get_mut(record as usize) {
            *last = length;
        }
    }
    Ok(lengths)
}

/// Whether a search met the value that its record was last given.
fn is_last_given(reply: &Reply, contents: Contents, record: u64, length: u8) -> bool {
    match reply {
        Reply::Found(value) if length == NEVER => contents.are_bytes(value.bytes(), record),
        Reply::Found(value) => value.bytes() == contents.other_value(record, length).bytes(),
        _ => false,
    }
}

/// Whether each record has the value that it was last given.
fn are_last_given<T: Table, R: Wait>(
    rt: &R,
    table: &mut T,
    contents: Contents,
    lengths: &[u8],
) -> bool {
    for (place, length) in lengths.iter().enumerate() {
        let record = place as u64;
        let is_due = match table.search(rt, contents.key(record)) {
            Ok(answer) => is_last_given(&answer.reply(), contents, record, *length),
            Err(_) => false,
        };
        if !is_due {
            return false;
        }
    }
    true
}

/// Replaces of records that are there.
pub fn replaces<T: Table, R: Wait + Clock + CpuClock + AllocGlobal>(
    rt: &R,
    table: T,
    order: &Order,
) -> Result<Outcome> {
    let lengths = last_lengths(rt.alloc(), order)?;
    let loaded = load(rt, table, order, 1);
    let caller = Caller::new(loaded.table, order);
    let watch = Stopwatch::start(rt)?;
    let mut caller = play(rt, caller, Replaces::new(order), order.calls());
    let spent = watch.stop(rt)?;
    let tally = caller.tally;
    let is_due = tally.replaced == order.calls()
        && are_last_given(rt, &mut caller.table, order.contents(), lengths.as_slice());
    Ok(Outcome::new(order.calls(), spent, tally, is_due))
}
