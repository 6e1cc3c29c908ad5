//! Counters, to which several threads add.
ghost use Rattle.std.specs.Prelude.{◌≡◌, length};

use crate::crew::{Shift, play_in_threads};
use crate::order::Order;
use crate::report::Outcome;
use crate::starter::Starter;
use crate::table::Table;
use anyhow::Result;
use lh_bucket::Reply;
use lh_file::FileFault;
use lh_page::Value;
use std::rt::{Clock, Files};
use std::sync::Wait;
use std::thread::Threads;
use std::time::CpuClock;

/// The value of a counter: its number in 16 bytes.
pub fn counter(number: u128) -> Value
    ensures { length result ≡ 16 }
{
    match Value::new(&number.to_le_bytes()) {
        Ok(value) => value,
        Err(_) => unreachable!(),
    }
}

/// The number of a counter; of other bytes 0.
fn number_of(bytes: &[u8]) -> u128 {
    match <[u8; 16]>::try_from(bytes) {
        Ok(bytes) => u128::from_le_bytes(bytes),
        Err(_) => 0,
    }
}

/// The value of the next number.
#[inline]
pub fn one_more(bytes: &[u8]) -> Value
    ensures { length result ≡ 16 }
{
    counter(number_of(bytes).wrapping_add(1))
}

/// Makes this many counters, each with the number 0: how many are new.
fn make_counters<T: Table, R: Wait>(
    rt: &R,
    table: &mut T,
    order: &Order,
) -> Result<u64, FileFault> {
    let mut new: u64 = 0;
    for record in 0..order.records {
        if table.put(rt, &order.contents().key(record), &counter(0))? {
            new = new.wrapping_add(1);
        }
    }
    Ok(new)
}

/// The sum of all counters.
fn sum_of_counters<T: Table, R: Wait>(
    rt: &R,
    table: &mut T,
    order: &Order,
) -> Result<u128, FileFault> {
    let mut sum: u128 = 0;
    for record in 0..order.records {
        if let Reply::Found(value) = table.search(rt, order.contents().key(record))?.reply() {
            sum = sum.wrapping_add(number_of(value.bytes()));
        }
    }
    Ok(sum)
}

/// What came of threads that have added to this many counters: at the end the sum of the counters is the number of calls.
fn outcome_of<T: Table, R: Wait>(
    rt: &R,
    shift: &mut Shift<T>,
    order: &Order,
    counters: u64,
) -> Result<Outcome> {
    let sum = sum_of_counters(rt, &mut shift.table, order)?;
    let is_due = counters == order.records
        && shift.tally.replaced == shift.calls
        && sum == shift.calls as u128;
    Ok(Outcome {
        buckets: shift.table.buckets(),
        ..Outcome::new(shift.calls, shift.spent, shift.tally, is_due)
    })
}

/// Several threads add to counters that are there.
pub fn counts<T, R>(rt: &R, mut table: T, order: &Order) -> Result<Outcome>
where
    T: Table + Send,
    R: Threads + Wait + Sync + Clock + CpuClock + Files + AllocGlobal,
{
    let new = make_counters(rt, &mut table, order)?;
    let mut shift = play_in_threads(rt, &Starter::new(), table, *order)?;
    outcome_of(rt, &mut shift, order, new)
}
