//! The command line.

use crate::contents::Contents;
use crate::report::Form;
use clap::builder::ValueParser;
use clap::{Arg, ArgAction, ArgMatches, Command, Error};
use lh_image::Version;
use lh_shards::MOST_SHARDS;
use std::alloc::{AllocError, Global};

/// What is measured.
#[derive(Clone, Copy, Debug, PartialEq, Eq)]
pub enum Workload {
    /// Inserts into an empty file.
    Inserts,
    /// Searches for records that are there, in no order.
    Searches,
    /// One insert to nineteen searches, in a file that begins empty.
    MostlySearches,
    /// Two searches to one insert and one delete, each of a key that is there or not.
    Mixed,
    /// A file written as an image, read back and searched.
    Image,
    /// Replaces of records that are there, in no order, by values of other lengths.
    Replaces,
    /// Searches for records that are there, a few of them mostly.
    Skewed,
    /// Searches for records that are not there.
    Misses,
    /// As mixed, with keys of 50 bytes and values of 100.
    LongRecords,
    /// Look-ups in the bytes of an image: of records that are there, and of others.
    LookUps,
    /// Snapshots, one after another, while other threads make mixed calls.
    Snapshots,
    /// Scans, one after another, while other threads make mixed calls.
    Scans,
    /// Readings of the clock, one after another, while other threads make mixed calls.
    Readings,
    /// Counters to each of which one is added in one step, a few of them mostly.
    Counters,
    /// Searches for one record, by all threads.
    OneKey,
    /// The single atomic steps of a file's words.
    Steps,
    /// The settling of a file's acts.
    Settling,
    /// Those with numbers, one after another.
    All,
}

impl Workload {
    pub const MEASURED: [Workload; 14] = [
        Workload::Inserts,
        Workload::Searches,
        Workload::MostlySearches,
        Workload::Mixed,
        Workload::Image,
        Workload::Replaces,
        Workload::Skewed,
        Workload::Misses,
        Workload::LongRecords,
        Workload::LookUps,
        Workload::Snapshots,
        Workload::Scans,
        Workload::Readings,
        Workload::Counters,
    ];

    /// The word that asks for it.
    pub fn word(self) -> &'static str {
        match self {
            Workload::Inserts => "W1",
            Workload::Searches => "W2",
            Workload::MostlySearches => "W3",
            Workload::Mixed => "W4",
            Workload::Image => "W5",
            Workload::Replaces => "W6",
            Workload::Skewed => "W7",
            Workload::Misses => "W8",
            Workload::LongRecords => "W9",
            Workload::LookUps => "W10",
            Workload::Snapshots => "W11",
            Workload::Scans => "W12",
            Workload::Readings => "W13",
            Workload::Counters => "W14",
            Workload::OneKey => "hot",
            Workload::Steps => "steps",
            Workload::Settling => "settle",
            Workload::All => "all",
        }
    }

    fn of_word(word: &str) -> Workload {
        match word {
            "W1" => Workload::Inserts,
            "W2" => Workload::Searches,
            "W3" => Workload::MostlySearches,
            "W4" => Workload::Mixed,
            "W5" => Workload::Image,
            "W6" => Workload::Replaces,
            "W7" => Workload::Skewed,
            "W8" => Workload::Misses,
            "W9" => Workload::LongRecords,
            "W10" => Workload::LookUps,
            "W11" => Workload::Snapshots,
            "W12" => Workload::Scans,
            "W13" => Workload::Readings,
            "W14" => Workload::Counters,
            "hot" => Workload::OneKey,
            "steps" => Workload::Steps,
            "settle" => Workload::Settling,
            _ => Workload::All,
        }
    }

    /// The number that its random numbers go by.
    pub fn number(self) -> u64 {
        match self {
            Workload::Searches => 2,
            Workload::MostlySearches => 3,
            Workload::Replaces => 6,
            Workload::Skewed => 7,
            Workload::Misses => 8,
            Workload::LongRecords => 9,
            Workload::LookUps => 10,
            Workload::Counters => 14,
            _ => 4,
        }
    }

    /// Whether more threads than one may run it.
    pub fn is_shared(self) -> bool {
        matches!(
            self,
            Workload::MostlySearches
                | Workload::Mixed
                | Workload::Skewed
                | Workload::Misses
                | Workload::LongRecords
                | Workload::Snapshots
                | Workload::Scans
                | Workload::Readings
                | Workload::Counters
                | Workload::OneKey
                | Workload::Steps
                | Workload::All
        )
    }

    /// Whether one thread more makes passes over all records while the others call.
    pub fn has_looks(self) -> bool {
        matches!(self, Workload::Snapshots | Workload::Scans)
    }

    /// Whether each call is timed, and calls go on until one thread more lets them end.
    pub fn times_calls(self) -> bool {
        matches!(
            self,
            Workload::Snapshots | Workload::Scans | Workload::Readings
        )
    }

    /// Whether it may run on a traced file.
    pub fn may_trace(self) -> bool {
        !matches!(
            self,
            Workload::Image
                | Workload::LookUps
                | Workload::Steps
                | Workload::Settling
                | Workload::All
        )
    }

    /// Whether it may run on several files as one.
    pub fn may_shard(self) -> bool {
        !matches!(self, Workload::Steps | Workload::Settling | Workload::All)
    }
}

/// The room of each record, for key and value together.
#[derive(Clone, Copy, Debug, PartialEq, Eq)]
pub enum Room {
    /// Enough for any record: 168 bytes.
    Any,
    Bytes64,
    Bytes32,
}

impl Room {
    /// The number of bytes, where that isn't enough for any record.
    pub fn bytes(self) -> Option<u64> {
        match self {
            Room::Any => None,
            Room::Bytes64 => Some(64),
            Room::Bytes32 => Some(32),
        }
    }
}

/// What is to be run.
#[derive(Clone, Copy)]
pub struct Order {
    pub workload: Workload,
    pub threads: u64,
    pub records: u64,
    pub seed: u64,
    /// How many files the table has, where it is not a file itself.
    pub shards: Option<u32>,
    /// Whether the file is traced. Where all workloads are asked for: whether they run on such a file too.
    pub traced: bool,
    /// Whether its calls are those of a store's session. Where all workloads are asked for: whether they run so too.
    pub by_session: bool,
    /// Whether its calls are those without an answer, which lend values.
    pub lends: bool,
    /// The version of the image, where one is written.
    pub image: Version,
    /// Whether each insert is timed, so that the longest is told.
    pub longest: bool,
    pub room: Room,
}

/// How many calls a workload times at least.
const LEAST: u64 = 400_000;

impl Order {
    /// How many calls all threads together make on one table, where they aren't told when to end.
    pub fn calls(&self) -> u64 {
        match self.workload {
            Workload::Inserts => self.records,
            Workload::Image => self.records.wrapping_mul(2),
            Workload::MostlySearches => self.records.wrapping_mul(20),
            Workload::Searches | Workload::Replaces => self.records.max(LEAST),
            Workload::LookUps => self.records.max(LEAST).wrapping_mul(2),
            _ => self.records.wrapping_mul(4).max(LEAST),
        }
    }

    /// How many of them each thread makes.
    pub fn calls_of_thread(&self) -> u64 {
        self.calls() / self.threads.max(1)
    }

    /// On how many tables it is run, one after another: those whose calls say how large a table grows are run on as
    /// many as there have to be for enough calls.
    pub fn tables(&self) -> u64 {
        match self.workload {
            Workload::Inserts | Workload::Image => LEAST.div_ceil(self.calls().max(1)),
            _ => 1,
        }
    }

    /// How many files its table has.
    pub fn files(&self) -> u32 {
        self.shards.unwrap_or(1)
    }

    /// Why it can't be run so, where it can't.
    pub fn refusal(&self) -> Option<&'static str> {
        let is_sharded = self.shards.is_some();
        if self.threads != 1 && !self.workload.is_shared() {
            Some("it runs in one thread")
        } else if self.traced && !self.may_trace() {
            Some("its files are untraced")
        } else if is_sharded && !self.workload.may_shard() {
            Some("it has one file")
        } else if self.room != Room::Any && !self.may_have_little_room() {
            Some("its records have room for any record")
        } else if self.by_session && !self.may_be_by_session() {
            Some("a session runs W1, W2 and W4 in one thread on an untraced file")
        } else if self.longest && (self.by_session || self.workload != Workload::Inserts) {
            Some("W1 alone tells its longest insert")
        } else {
            None
        }
    }

    /// Whether it can be run on a traced file.
    pub fn may_trace(&self) -> bool {
        self.workload.may_trace() && self.shards.is_none() && self.room != Room::Bytes64
    }

    /// Whether it can be run by a session.
    pub fn may_be_by_session(&self) -> bool {
        let is_plain = !self.traced && self.shards.is_none() && self.threads == 1;
        is_plain
            && matches!(
                self.workload,
                Workload::Inserts | Workload::Searches | Workload::Mixed
            )
    }

    /// Whether it can be run with room for its records alone: where their keys and values have 16 bytes.
    pub fn may_have_little_room(&self) -> bool {
        !matches!(
            self.workload,
            Workload::Replaces
                | Workload::LongRecords
                | Workload::LookUps
                | Workload::Steps
                | Workload::Settling
                | Workload::All
        )
    }

    /// Whether an image is written of another version than a program writes that isn't asked for one.
    pub fn has_old_image(&self) -> bool {
        matches!(self.workload, Workload::Image | Workload::LookUps) && self.image == Version::One
    }

    /// How its keys and values are made.
    pub fn contents(&self) -> Contents {
        Contents {
            seed: self.seed,
            are_long: self.workload == Workload::LongRecords,
        }
    }
}

/// What the words ask for.
#[derive(Drop)]
pub enum Asked {
    Run(Order, Form),
    /// Help, or words that are refused.
    Told(Error),
}

const WORDS: [&str; 18] = [
    "W1", "W2", "W3", "W4", "W5", "W6", "W7", "W8", "W9", "W10", "W11", "W12", "W13", "W14", "hot",
    "steps", "settle", "all",
];

const ROOMS: [&str; 3] = ["32", "64", "168"];

fn workload_option<'a>(alloc: Global) -> Arg<'a> {
    Arg::new(alloc, "workload")
        .long("workload")
        .help(
            "What to measure; beside W4's calls W11 takes snapshots, W12 takes scans, and W13 only reads the clock; W14 counts",
        )
        .required(true)
        .action(ArgAction::Set)
        .value_parser(ValueParser::Names(&WORDS))
}

fn number<'a>(
    alloc: Global,
    name: &'a str,
    help: &'a str,
    default: &'a str,
    least: u64,
    most: u64,
) -> Arg<'a> {
    Arg::new(alloc, name)
        .long(name)
        .help(help)
        .action(ArgAction::Set)
        .value_parser(ValueParser::Unsigned(least, most))
        .default_value(default)
}

fn shards_option<'a>(alloc: Global) -> Arg<'a> {
    Arg::new(alloc, "shards")
        .long("shards")
        .help("Run on this many files as one, and not on a file")
        .action(ArgAction::Set)
        .value_parser(ValueParser::Unsigned(1, MOST_SHARDS as u64))
}

fn room_option<'a>(alloc: Global) -> Arg<'a> {
    Arg::new(alloc, "room")
        .long("room")
        .help("Bytes of room that a record has; with all, beside room for any record")
        .action(ArgAction::Set)
        .value_parser(ValueParser::Names(&ROOMS))
        .default_value("168")
}

fn flag<'a>(alloc: Global, name: &'a str, help: &'a str) -> Arg<'a> {
    Arg::new(alloc, name)
        .long(name)
        .help(help)
        .action(ArgAction::SetTrue)
}

/// The options that are numbers or words.
fn with_values<'a>(alloc: Global) -> Result<Command<'a>, AllocError> {
    Command::new(alloc, "lh_bench")
        .about("Measures a linear hash file that threads share")
        .arg(workload_option(alloc))?
        .arg(number(alloc, "threads", "Threads", "1", 1, 64))?
        .arg(number(alloc, "records", "Records", "1000", 1, 1_000_000_000))?
        .arg(number(alloc, "seed", "Seed of the streams", "1", 0, u64::MAX))?
        .arg(number(
            alloc,
            "image",
            "Version of the image in W5 and W10",
            "2",
            1,
            2,
        ))?
        .arg(shards_option(alloc))?
        .arg(room_option(alloc))
}

fn command<'a>(alloc: Global) -> Result<Command<'a>, AllocError> {
    with_values(alloc)?
        .arg(flag(
            alloc,
            "traced",
            "Run on a traced file, and with all on both kinds",
        ))?
        .arg(flag(
            alloc,
            "session",
            "Make the calls of a store's session, and with all those too",
        ))?
        .arg(flag(
            alloc,
            "lent",
            "Make the calls without an answer, which lend values",
        ))?
        .arg(flag(
            alloc,
            "longest",
            "Time each insert of W1 by the clock, and tell the longest",
        ))?
        .arg(flag(
            alloc,
            "counts",
            "Print what is the same in every run, and times on standard error",
        ))
}

fn order_of(matches: &ArgMatches<'_>) -> Order {
    Order {
        workload: Workload::of_word(matches.get_str("workload").unwrap_or("all")),
        threads: matches.get_one("threads").unwrap_or(1),
        records: matches.get_one("records").unwrap_or(1),
        seed: matches.get_one("seed").unwrap_or(1),
        shards: matches.get_one("shards"),
        traced: matches.get_flag("traced"),
        by_session: matches.get_flag("session"),
        lends: matches.get_flag("lent"),
        image: match matches.get_one("image") {
            Some(1_u64) => Version::One,
            _ => Version::Two,
        },
        longest: matches.get_flag("longest"),
        room: match matches.get_str("room") {
            Some("64") => Room::Bytes64,
            Some("32") => Room::Bytes32,
            _ => Room::Any,
        },
    }
}

/// What the words ask for, of which the first is the program's name.
pub fn read_words<'a>(alloc: Global, words: &'a [&'a str]) -> Asked {
    let command = match command(alloc) {
        Ok(command) => command,
        Err(error) => return Asked::Told(Error::from(error)),
    };
    match command.try_get_matches_from(words) {
        Ok(matches) => {
            let form = if matches.get_flag("counts") {
                Form::Counts
            } else {
                Form::Line
            };
            Asked::Run(order_of(&matches), form)
        }
        Err(error) => Asked::Told(error),
    }
}
