//! One who calls a table.

use crate::contents::Contents;
use crate::meter::Laps;
use crate::order::Order;
use crate::starter::Starter;
use crate::streams::{Step, Stream};
use crate::table::Table;
use crate::tally::{Tally, either};
use lh_bucket::Reply;
use lh_file::FileFault;
use std::rt::Clock;
use std::sync::Wait;

/// A table, and what it answered.
#[derive(Drop)]
pub struct Caller<T> {
    pub table: T,
    pub contents: Contents,
    /// Whether its calls are those without an answer, which lend values.
    pub lends: bool,
    pub tally: Tally,
}

impl<T: Table> Caller<T> {
    pub fn new(table: T, order: &Order) -> Caller<T> {
        Caller {
            table,
            contents: order.contents(),
            lends: order.lends,
            tally: Tally::new(),
        }
    }

    fn search<R: Wait>(&mut self, rt: &R, record: u64, is_there: bool) {
        let Ok(answer) = self.table.search(rt, self.contents.key(record)) else {
            self.tally.note_wrong();
            return;
        };
        let reply = answer.reply();
        self.tally.note(&reply);
        let is_due = match &reply {
            Reply::Found(value) => self.contents.are_bytes(value.bytes(), record),
            _ => !is_there,
        };
        if !is_due {
            self.tally.note_wrong();
        }
    }

    fn insert<R: Wait>(&mut self, rt: &R, record: u64, is_new: bool) {
        let key = self.contents.key(record);
        let value = self.contents.value(record);
        let Ok(answer) = self.table.insert(rt, key, value) else {
            self.tally.note_wrong();
            return;
        };
        let reply = answer.reply();
        self.tally.note(&reply);
        if is_new && !matches!(reply, Reply::Inserted) {
            self.tally.note_wrong();
        }
    }

    fn delete<R: Wait>(&mut self, rt: &R, record: u64) {
        match self.table.delete(rt, self.contents.key(record)) {
            Ok(answer) => self.tally.note(&answer.reply()),
            Err(_) => self.tally.note_wrong(),
        }
    }

    fn replace<R: Wait>(&mut self, rt: &R, record: u64, length: u8) {
        let key = self.contents.key(record);
        let value = self.contents.other_value(record, length);
        match self.table.replace(rt, key, value) {
            Ok(answer) => self.tally.note(&answer.reply()),
            Err(_) => self.tally.note_wrong(),
        }
    }

    /// Searches for a record, and compares its value where that stands.
    fn compare<R: Wait>(&mut self, rt: &R, record: u64, is_there: bool) {
        match self.table.compare(rt, self.contents, record) {
            Ok(Some(is_due)) => {
                self.tally.note_found();
                if !is_due {
                    self.tally.note_wrong();
                }
            }
            Ok(None) => {
                self.tally.note(&Reply::Absent);
                if is_there {
                    self.tally.note_wrong();
                }
            }
            Err(_) => self.tally.note_wrong(),
        }
    }

    /// Makes a call that changes something, without an answer.
    fn change<R: Wait>(&mut self, rt: &R, step: Step) -> Result<Reply, FileFault> {
        let contents = self.contents;
        let table = &mut self.table;
        Ok(match step {
            Step::Insert { record, .. } => {
                let (key, value) = (contents.key(record), contents.value(record));
                either(table.put(rt, &key, &value)?, Reply::Inserted, Reply::Exists)
            }
            Step::Replace { record, length } => {
                let (key, value) = (contents.key(record), contents.other_value(record, length));
                either(table.set(rt, &key, &value)?, Reply::Replaced, Reply::Absent)
            }
            Step::Count { record } => {
                let key = contents.key(record);
                either(table.count(rt, &key)?, Reply::Inserted, Reply::Replaced)
            }
            Step::Delete { record } | Step::Search { record, .. } => {
                let key = contents.key(record);
                either(table.remove(rt, &key)?, Reply::Deleted, Reply::Absent)
            }
        })
    }

    /// Makes a call without an answer. One that fails counts as wrong.
    fn take_lent<R: Wait>(&mut self, rt: &R, step: Step) {
        if let Step::Search { record, is_there } = step {
            self.compare(rt, record, is_there);
            return;
        }
        let is_new = matches!(step, Step::Insert { is_new: true, .. });
        match self.change(rt, step) {
            Ok(reply) => {
                self.tally.note(&reply);
                if is_new && !matches!(reply, Reply::Inserted) {
                    self.tally.note_wrong();
                }
            }
            Err(_) => self.tally.note_wrong(),
        }
    }

    /// Makes a call. One that is not answered counts as wrong.
    #[inline]
    fn take<R: Wait>(&mut self, rt: &R, step: Step) {
        if self.lends {
            self.take_lent(rt, step);
            return;
        }
        match step {
            Step::Search { record, is_there } => self.search(rt, record, is_there),
            Step::Insert { record, is_new } => self.insert(rt, record, is_new),
            Step::Delete { record } => self.delete(rt, record),
            Step::Replace { record, length } => self.replace(rt, record, length),
            Step::Count { .. } => self.take_lent(rt, step),
        }
    }

    /// Makes a call, and times it from the end of the one before.
    #[inline]
    fn take_timed<R: Wait + Clock>(&mut self, rt: &R, step: Step, laps: &mut Laps) {
        self.take(rt, step);
        match laps.next(rt) {
            Ok(time) => self.tally.note_time(step.is_search(), time),
            Err(_) => self.tally.note_wrong(),
        }
    }
}

/// Makes this many calls of a stream.
pub fn play<S: Stream, T: Table, R: Wait>(
    rt: &R,
    mut caller: Caller<T>,
    mut stream: S,
    calls: u64,
) -> Caller<T> {
    for _ in 0..calls {
        caller.take(rt, stream.next());
    }
    caller
}

/// The same, each timed from the end of the one before.
pub fn play_timed<S: Stream, T: Table, R: Wait + Clock>(
    rt: &R,
    mut caller: Caller<T>,
    mut stream: S,
    calls: u64,
) -> Caller<T> {
    let Ok(mut laps) = Laps::start(rt) else {
        caller.tally.note_wrong();
        return caller;
    };
    for _ in 0..calls {
        caller.take_timed(rt, stream.next(), &mut laps);
    }
    caller
}

/// Makes calls of a stream until all are to end, and times each from the end of the one before.
pub fn play_to_end<S: Stream, T: Table, R: Wait + Clock>(
    rt: &R,
    mut caller: Caller<T>,
    mut stream: S,
    starter: &Starter,
) -> Caller<T> {
    let Ok(mut laps) = Laps::start(rt) else {
        caller.tally.note_wrong();
        return caller;
    };
    for _ in rt.forever() {
        if starter.is_over() {
            break;
        }
        caller.take_timed(rt, stream.next(), &mut laps);
    }
    caller
}
