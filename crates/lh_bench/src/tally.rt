//! What the replies were.

use crate::lengths::Lengths;
use lh_bucket::Reply;

const OFFSET_BASIS: u64 = 0xcbf2_9ce4_8422_2325;

const PRIME: u64 = 0x100_0000_01b3;

/// How many replies of each kind there were, how many that were not due, and a digest of their row.
#[derive(Clone, Copy)]
pub struct Tally {
    pub found: u64,
    pub absent: u64,
    pub inserted: u64,
    pub exists: u64,
    pub deleted: u64,
    pub replaced: u64,
    pub wrong: u64,
    pub digest: u64,
    /// How long searches, and other calls, took, where calls are timed.
    pub searches: Lengths,
    pub writes: Lengths,
}

/// One of two replies.
pub fn either(is_first: bool, first: Reply, second: Reply) -> Reply {
    if is_first { first } else { second }
}

fn count(number: &mut u64) {
    *number = number.wrapping_add(1);
}

impl Tally {
    pub fn new() -> Tally {
        Tally {
            found: 0,
            absent: 0,
            inserted: 0,
            exists: 0,
            deleted: 0,
            replaced: 0,
            wrong: 0,
            digest: OFFSET_BASIS,
            searches: Lengths::NONE,
            writes: Lengths::NONE,
        }
    }

    /// Notes that a value was found.
    pub fn note_found(&mut self) {
        count(&mut self.found);
        self.note_code(1);
    }

    fn note_code(&mut self, code: u64) {
        self.digest = (self.digest ^ code).wrapping_mul(PRIME);
    }

    /// Notes a reply.
    pub fn note(&mut self, reply: &Reply) {
        let code = match reply {
            Reply::Found(_) => return self.note_found(),
            Reply::Absent => {
                count(&mut self.absent);
                2
            }
            Reply::Inserted => {
                count(&mut self.inserted);
                3
            }
            Reply::Exists => {
                count(&mut self.exists);
                4
            }
            Reply::Deleted => {
                count(&mut self.deleted);
                5
            }
            Reply::Replaced => {
                count(&mut self.replaced);
                6
            }
        };
        self.note_code(code);
    }

    /// Notes a reply or a value that was not due.
    pub fn note_wrong(&mut self) {
        count(&mut self.wrong);
    }

    /// Notes how many nanoseconds a call took.
    pub fn note_time(&mut self, is_search: bool, time: u64) {
        if is_search {
            self.searches.note(time);
        } else {
            self.writes.note(time);
        }
    }

    /// How many replies there were.
    pub fn replies(&self) -> u64 {
        let reads = self.found.wrapping_add(self.absent);
        let inserts = self.inserted.wrapping_add(self.exists);
        let changes = self.deleted.wrapping_add(self.replaced);
        reads.wrapping_add(inserts).wrapping_add(changes)
    }

    /// Adds what another thread was told; the digest is then that of the other.
    pub fn add(&mut self, other: &Tally) {
        self.found = self.found.wrapping_add(other.found);
        self.absent = self.absent.wrapping_add(other.absent);
        self.inserted = self.inserted.wrapping_add(other.inserted);
        self.exists = self.exists.wrapping_add(other.exists);
        self.deleted = self.deleted.wrapping_add(other.deleted);
        self.replaced = self.replaced.wrapping_add(other.replaced);
        self.wrong = self.wrong.wrapping_add(other.wrong);
        self.digest = other.digest;
        self.searches.add(&other.searches);
        self.writes.add(&other.writes);
    }
}
