//! The line that a run prints.

use crate::lengths::Lengths;
use crate::meter::TimeSpent;
use crate::order::{Order, Workload};
use crate::passes::Passes;
use crate::tally::Tally;
use crate::units::Seconds;
use std::io;

/// Whether times stand in the line.
#[derive(Clone, Copy)]
pub enum Form {
    /// The whole line.
    Line,
    /// What is the same in every run; times go to standard error.
    Counts,
}

/// What came of a workload.
#[derive(Clone, Copy)]
pub struct Outcome {
    pub calls: u64,
    pub spent: TimeSpent,
    pub tally: Tally,
    /// Nanoseconds that it took to write the file, and to read and search it.
    pub write: u64,
    pub read: u64,
    /// What look-ups in an image took, of records that are there and of others.
    pub found: TimeSpent,
    pub absent: TimeSpent,
    pub resident_bytes: u64,
    pub file_bytes: u64,
    /// The buckets of the table at the end, where they are told.
    pub buckets: u64,
    pub passes: Passes,
    /// Whether there were as many replies of each kind as are due.
    pub is_due: bool,
}

impl Outcome {
    pub fn new(calls: u64, spent: TimeSpent, tally: Tally, is_due: bool) -> Outcome {
        Outcome {
            calls,
            spent,
            tally,
            write: 0,
            read: 0,
            found: TimeSpent::NONE,
            absent: TimeSpent::NONE,
            resident_bytes: 0,
            file_bytes: 0,
            buckets: 0,
            passes: Passes::NONE,
            is_due,
        }
    }

    /// This run, and one more on another table. Memory and files are told as those of the first.
    pub fn with(self, other: Outcome) -> Outcome {
        let mut tally = self.tally;
        tally.add(&other.tally);
        Outcome {
            calls: self.calls.wrapping_add(other.calls),
            spent: self.spent.with(other.spent),
            tally,
            write: self.write.saturating_add(other.write),
            read: self.read.saturating_add(other.read),
            is_due: self.is_due && other.is_due,
            ..self
        }
    }

    pub fn is_right(&self) -> bool {
        self.is_due && self.tally.wrong == 0
    }

    pub fn print<R: Print + Eprint>(&self, rt: &R, order: &Order, form: Form) -> io::Result<()> {
        let (records, seed, threads) = (order.records, order.seed, order.threads);
        let workload = order.workload.word();
        print!(rt;
            "{{\"workload\":\"{workload}\",\"threads\":{threads},\"records\":{records},\"seed\":{seed}"
        )?;
        if let Some(shards) = order.shards {
            print!(rt; ",\"shards\":{shards}")?;
        }
        if order.traced {
            print!(rt; ",\"traced\":true")?;
        }
        if let Some(bytes) = order.room.bytes() {
            print!(rt; ",\"room\":{bytes}")?;
        }
        if order.by_session {
            print!(rt; ",\"session\":true")?;
        }
        if order.lends {
            print!(rt; ",\"lent\":true")?;
        }
        if order.has_old_image() {
            print!(rt; ",\"image\":1")?;
        }
        let times_calls = order.workload.times_calls();
        // How many calls are timed, and how many passes there are, differs from run to run.
        match form {
            Form::Counts if times_calls => {}
            _ => self.print_calls(rt, form)?,
        }
        match form {
            Form::Line if order.workload.has_looks() => self.print_looks(rt)?,
            _ => {}
        }
        match form {
            Form::Line if times_calls => self.print_lengths(rt)?,
            Form::Line if order.longest => self.print_lengths_of_writes(rt)?,
            Form::Line if order.workload == Workload::LookUps => self.print_look_ups(rt)?,
            _ => {}
        }
        let digest = self.tally.digest;
        if threads == 1 && !times_calls {
            print!(rt; ",\"digest\":\"{digest:016x}\"")?;
        } else {
            print!(rt; ",\"digest\":\"-\"")?;
        }
        let check = if self.is_right() { "ok" } else { "WRONG" };
        println!(rt; ",\"check\":\"{check}\"}}")?;
        match form {
            Form::Line => Ok(()),
            Form::Counts => self.print_times_apart(rt),
        }
    }

    fn print_calls(&self, rt: &impl Print, form: Form) -> io::Result<()> {
        let calls = self.calls;
        print!(rt; ",\"ops\":{calls}")?;
        if let Form::Line = form {
            self.print_times(rt)?;
        }
        self.print_counts(rt)
    }

    fn print_looks(&self, rt: &impl Print) -> io::Result<()> {
        let passes = &self.passes;
        let (made, sum, memory) = (passes.made, passes.sum, passes.peak_bytes);
        let (shortest, median) = (Seconds(passes.shortest), Seconds(passes.median));
        let longest = Seconds(passes.longest);
        print!(rt; ",\"passes\":{made},\"pass_min_s\":{shortest},\"pass_median_s\":{median}")?;
        print!(rt; ",\"pass_max_s\":{longest},\"sum\":{sum},\"peak_bytes\":{memory}")
    }

    fn print_lengths(&self, rt: &impl Print) -> io::Result<()> {
        self.print_lengths_of_writes(rt)?;
        print_lengths_of(rt, "search", "searches", &self.tally.searches)
    }

    fn print_lengths_of_writes(&self, rt: &impl Print) -> io::Result<()> {
        print_lengths_of(rt, "write", "writes", &self.tally.writes)
    }

    fn print_look_ups(&self, rt: &impl Print) -> io::Result<()> {
        let (found, absent) = (Seconds(self.found.wall), Seconds(self.absent.wall));
        print!(rt; ",\"found_s\":{found},\"absent_s\":{absent}")?;
        let (found, absent) = (
            Seconds(self.found.processor),
            Seconds(self.absent.processor),
        );
        print!(rt; ",\"found_cpu_s\":{found},\"absent_cpu_s\":{absent}")
    }

    fn print_counts(&self, rt: &impl Print) -> io::Result<()> {
        let tally = &self.tally;
        let (found, absent) = (tally.found, tally.absent);
        let (inserted, exists) = (tally.inserted, tally.exists);
        let (deleted, replaced) = (tally.deleted, tally.replaced);
        print!(rt; ",\"found\":{found},\"absent\":{absent},\"inserted\":{inserted}")?;
        print!(rt; ",\"exists\":{exists},\"deleted\":{deleted},\"replaced\":{replaced}")
    }

    fn print_times(&self, rt: &impl Print) -> io::Result<()> {
        let seconds = Seconds(self.spent.wall);
        let processor = Seconds(self.spent.processor);
        let speed = self.calls.saturating_mul(1_000_000_000) / self.spent.wall.max(1);
        print!(rt; ",\"seconds\":{seconds},\"cpu_s\":{processor},\"ops_per_s\":{speed}")?;
        let (write, read) = (Seconds(self.write), Seconds(self.read));
        let (memory, file) = (self.resident_bytes, self.file_bytes);
        let buckets = self.buckets;
        print!(rt; ",\"rss_bytes\":{memory},\"write_s\":{write},\"read_s\":{read}")?;
        print!(rt; ",\"file_bytes\":{file},\"buckets\":{buckets}")
    }

    fn print_times_apart(&self, rt: &impl Eprint) -> io::Result<()> {
        let seconds = Seconds(self.spent.wall);
        let processor = Seconds(self.spent.processor);
        eprintln!(rt; "{seconds} s, {processor} s of processor time")
    }
}

/// How many calls of a kind were timed, and how long they took. The kind goes by its words for one call and for
/// several.
fn print_lengths_of(
    rt: &impl Print,
    one: &str,
    several: &str,
    lengths: &Lengths,
) -> io::Result<()> {
    let (timed, over, longest) = (lengths.timed(), lengths.over_1ms, lengths.longest);
    print!(rt; ",\"{several}_timed\":{timed},\"{several}_over_1ms\":{over}")?;
    print!(rt; ",\"longest_{one}_ns\":{longest},\"{several}_by_length\":{lengths}")
}

/// The line of a workload that can't be run so, and why it can't.
pub fn unsupported(rt: &impl Print, why: &str) -> io::Result<()> {
    println!(rt; "{{\"check\":\"unsupported\",\"why\":\"{why}\"}}")
}
