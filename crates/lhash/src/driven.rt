//! The totals of a settled run.
ghost use Rattle.std.specs.Prelude.{◌≡◌, ◌+◌, ◌-◌, ◌<◌, ◌^◌, ◌++◌, ◌∷◌, [], List, Some, flat_map, length};
ghost use Rattle.lh_bucket.specs.declared.call.Reply.{Reply as ReplyOf};
ghost use Rattle.lh_settling.specs.Acts.{replies_of};
ghost use Rattle.lhash.specs.Driven.{Counts, driven_text, replies_text, snapshots_text};

use lh_bucket::Reply;
use lh_file::History;
use std::fmt;

/// What a settled run of calls in threads did: how many calls were answered, how many of them with
/// each reply, and how many records the file has in the end.
#[derive(Clone, Copy, Debug, PartialEq, Eq)]
pub struct Driven {
    pub calls: u64,
    pub found: u64,
    pub absent: u64,
    pub inserted: u64,
    pub exists: u64,
    pub deleted: u64,
    pub replaced: u64,
    pub records: u64,
}

impl Driven {
    /// A run of no calls that left this number of records.
    fn idle(records: u64) -> Driven
        ensures counts { Counts [] result }
        ensures records { result.records ≡ records }
    {
        Driven {
            calls: 0,
            found: 0,
            absent: 0,
            inserted: 0,
            exists: 0,
            deleted: 0,
            replaced: 0,
            records,
        }
    }

    /// Counts one call more.
    fn count(&mut self, reply: Reply)
        requires { (replies : List ReplyOf) × Counts replies self.old × (length replies < 2 ^ 64 - 1) }
        ensures counts { (replies : List ReplyOf) → Counts replies self.old → Counts (replies ++ reply ∷ []) self.new }
        ensures records { self.new.records ≡ self.old.records }
    {
        self.calls += 1;
        match reply {
            Reply::Found(_) => self.found += 1,
            Reply::Absent => self.absent += 1,
            Reply::Inserted => self.inserted += 1,
            Reply::Exists => self.exists += 1,
            Reply::Deleted => self.deleted += 1,
            Reply::Replaced => self.replaced += 1,
        }
    }

    /// Counts the calls of a history more.
    fn count_all(&mut self, history: &History)
        requires { (replies : List ReplyOf) × Counts replies self.old × (length replies + length history.now < 2 ^ 64) }
        ensures counts { (replies : List ReplyOf) → Counts replies self.old →
            Counts (replies ++ replies_of history.now) self.new }
        ensures records { self.new.records ≡ self.old.records }
    {
        for stamp in 0..history.len() {
            self.count(history.at(stamp).reply);
        }
    }

    /// The totals of a history, whose file has this number of records in the end.
    pub fn of(history: &History, records: u64) -> Driven
        ensures counts { Counts (replies_of history.now) result }
        ensures records { result.records ≡ records }
    {
        // The acts are few enough to be counted.
        let _few = history.len();
        let mut driven = Driven::idle(records);
        driven.count_all(history);
        driven
    }

    /// The totals of several histories, whose files have this number of records together in the end.
    pub(crate) fn of_all(histories: &[History], records: u64) -> Driven
        requires { length (flat_map replies_of histories.now) < 2 ^ 64 }
        ensures counts { Counts (flat_map replies_of histories.now) result }
        ensures records { result.records ≡ records }
    {
        let mut driven = Driven::idle(records);
        for history in histories {
            driven.count_all(history);
        }
        driven
    }
}

/// How many replies of each kind there were, a line each.
#[derive(Clone, Copy)]
struct RepliesText<'a>(&'a Driven);

impl fmt::Display for RepliesText<'_> {
    ghost output = { λ text. Some (replies_text text.0.now) };

    #[tactic(auto, unfolding(crate::specs::Driven::replies_text))]
    fn fmt<W: fmt::Write>(&self, f: &mut fmt::Formatter<W>) -> fmt::Result {
        let Driven {
            found,
            absent,
            inserted,
            exists,
            deleted,
            replaced,
            ..
        } = *self.0;
        write!(
            f,
            "found {found}\nabsent {absent}\ninserted {inserted}\nexists {exists}\ndeleted {deleted}\nreplaced {replaced}\n"
        )
    }
}

/// The line of so many snapshots, where any were asked for.
#[derive(Clone, Copy)]
pub(crate) struct SnapshotsText(pub(crate) u32);

impl fmt::Display for SnapshotsText {
    ghost output = { λ text. Some (snapshots_text text.0) };

    #[tactic(auto, unfolding(crate::specs::Driven::snapshots_text))]
    fn fmt<W: fmt::Write>(&self, f: &mut fmt::Formatter<W>) -> fmt::Result {
        match self.0 {
            0 => Ok(()),
            snapshots => write!(f, "snapshots {snapshots}\n"),
        }
    }
}

impl fmt::Display for Driven {
    ghost output = { λ driven. Some (driven_text driven) };

    fn fmt<W: fmt::Write>(&self, f: &mut fmt::Formatter<W>) -> fmt::Result {
        let (calls, records) = (self.calls, self.records);
        write!(
            f,
            "settled\ncalls {calls}\n{}records {records}\n",
            RepliesText(self)
        )
    }
}
