//! The streams of the benchmark: which calls are made, one after another.

use crate::numbers::{Numbers, Skew};
use crate::order::Order;

/// A call to be made. Records go by their numbers.
#[derive(Clone, Copy)]
pub enum Step {
    /// A search, and whether its record is known to be there.
    Search { record: u64, is_there: bool },
    /// An insert, and whether its record is known to be absent.
    Insert { record: u64, is_new: bool },
    Delete { record: u64 },
    /// A replace of a record that is there by a value of this length.
    Replace { record: u64, length: u8 },
    /// One more for a counter that is there.
    Count { record: u64 },
}

impl Step {
    pub fn is_search(&self) -> bool {
        matches!(self, Step::Search { .. })
    }
}

/// A row of calls without an end.
pub trait Stream: Drop {
    fn next(&mut self) -> Step;
}

/// Inserts of each `stride`th record.
#[derive(Drop)]
pub struct Inserts {
    pub record: u64,
    pub stride: u64,
}

impl Stream for Inserts {
    fn next(&mut self) -> Step {
        let record = self.record;
        self.record = record.wrapping_add(self.stride);
        Step::Insert {
            record,
            is_new: true,
        }
    }
}

/// Searches for one record after another.
#[derive(Drop)]
pub struct Searches {
    pub record: u64,
    pub are_there: bool,
}

impl Stream for Searches {
    fn next(&mut self) -> Step {
        let record = self.record;
        self.record = record.wrapping_add(1);
        Step::Search {
            record,
            is_there: self.are_there,
        }
    }
}

/// Searches for records that are there, in no order.
#[derive(Drop)]
pub struct Picks {
    numbers: Numbers,
    records: u64,
}

impl Picks {
    pub fn new(order: &Order) -> Picks {
        Picks {
            numbers: Numbers::of_thread(order, 0),
            records: order.records,
        }
    }
}

impl Stream for Picks {
    fn next(&mut self) -> Step {
        Step::Search {
            record: self.numbers.below(self.records),
            is_there: true,
        }
    }
}

/// Replaces of records that are there, in no order.
#[derive(Drop)]
pub struct Replaces {
    numbers: Numbers,
    records: u64,
}

impl Replaces {
    pub fn new(order: &Order) -> Replaces {
        Replaces {
            numbers: Numbers::of_thread(order, 0),
            records: order.records,
        }
    }

    /// The record that is replaced next, and the length of its new value.
    pub fn pick(&mut self) -> (u64, u8) {
        let record = self.numbers.below(self.records);
        (record, (self.numbers.next() % 41) as u8)
    }
}

impl Stream for Replaces {
    fn next(&mut self) -> Step {
        let (record, length) = self.pick();
        Step::Replace { record, length }
    }
}

/// The calls of one of several threads.
pub trait Part: Stream {
    fn of_thread(order: &Order, thread: u64) -> Self
    where
        Self: Sized;
}

/// One insert to nineteen searches. Each thread inserts every `threads`th record, and searches among as
/// many as there are where all have inserted alike.
#[derive(Drop)]
pub struct MostlySearches {
    numbers: Numbers,
    thread: u64,
    threads: u64,
    inserted: u64,
}

impl Stream for MostlySearches {
    fn next(&mut self) -> Step {
        if self.numbers.next() % 20 == 0 {
            let own = self.inserted;
            self.inserted = own.wrapping_add(1);
            return Step::Insert {
                record: own.wrapping_mul(self.threads).wrapping_add(self.thread),
                is_new: true,
            };
        }
        if self.inserted == 0 {
            return Step::Search {
                record: self.thread,
                is_there: false,
            };
        }
        let record = self.numbers.below(self.inserted.wrapping_mul(self.threads));
        Step::Search {
            record,
            is_there: record % self.threads.max(1) == self.thread,
        }
    }
}

impl Part for MostlySearches {
    fn of_thread(order: &Order, thread: u64) -> MostlySearches {
        MostlySearches {
            numbers: Numbers::of_thread(order, thread),
            thread,
            threads: order.threads,
            inserted: 0,
        }
    }
}

/// Two searches to one insert and one delete, among twice as many records as are there at first.
#[derive(Drop)]
pub struct Mixed {
    numbers: Numbers,
    records: u64,
}

impl Stream for Mixed {
    fn next(&mut self) -> Step {
        let kind = self.numbers.next() & 3;
        let record = self.numbers.below(self.records);
        match kind {
            2 => Step::Insert {
                record,
                is_new: false,
            },
            3 => Step::Delete { record },
            _ => Step::Search {
                record,
                is_there: false,
            },
        }
    }
}

impl Part for Mixed {
    fn of_thread(order: &Order, thread: u64) -> Mixed {
        Mixed {
            numbers: Numbers::of_thread(order, thread),
            records: order.records.wrapping_mul(2),
        }
    }
}

/// Searches for records that are there, a few of them mostly.
#[derive(Drop)]
pub struct Skewed {
    numbers: Numbers,
    skew: Skew,
}

impl Stream for Skewed {
    fn next(&mut self) -> Step {
        Step::Search {
            record: self.skew.pick(&mut self.numbers),
            is_there: true,
        }
    }
}

impl Part for Skewed {
    fn of_thread(order: &Order, thread: u64) -> Skewed {
        Skewed {
            numbers: Numbers::of_thread(order, thread),
            skew: Skew::new(order.records),
        }
    }
}

/// One more for each of some counters, for a few of them mostly.
#[derive(Drop)]
pub struct Counts {
    numbers: Numbers,
    skew: Skew,
}

impl Stream for Counts {
    fn next(&mut self) -> Step {
        Step::Count {
            record: self.skew.pick(&mut self.numbers),
        }
    }
}

impl Part for Counts {
    fn of_thread(order: &Order, thread: u64) -> Counts {
        Counts {
            numbers: Numbers::of_thread(order, thread),
            skew: Skew::new(order.records),
        }
    }
}

/// Searches for records that were never there.
#[derive(Drop)]
pub struct Misses {
    numbers: Numbers,
    records: u64,
}

impl Stream for Misses {
    fn next(&mut self) -> Step {
        let past = self.numbers.below(self.records);
        Step::Search {
            record: self.records.wrapping_add(past),
            is_there: false,
        }
    }
}

impl Part for Misses {
    fn of_thread(order: &Order, thread: u64) -> Misses {
        Misses {
            numbers: Numbers::of_thread(order, thread),
            records: order.records,
        }
    }
}

/// Searches for one record.
#[derive(Drop)]
pub struct OneKey;

impl Stream for OneKey {
    fn next(&mut self) -> Step {
        Step::Search {
            record: 0,
            is_there: true,
        }
    }
}

impl Part for OneKey {
    fn of_thread(_order: &Order, _thread: u64) -> OneKey {
        OneKey
    }
}
