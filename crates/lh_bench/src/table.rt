//! What the workloads call.
ghost use Rattle.std.specs.Prelude.{All, IfOk, OnOk, length};
ghost use Rattle.lh_page.specs.Slots.{FitsRoom};
ghost use Rattle.lh_settling.specs.ClosedFile.{IsWhole};
ghost use Rattle.lh_shards.specs.Hands.{IsCount};

use crate::contents::Contents;
use crate::passes::Met;
use anyhow::Result;
use lh_bucket::{Answer, SizedBucket};
use lh_file::{Closed, FileFault};
use lh_page::{Key, Value};
use std::sync::Wait;

/// A table that threads share, as one of them calls it: a file or several as one, and the caller's hand.
pub trait Table: Drop {
    fn search<R: Wait>(&mut self, rt: &R, key: Key) -> Result<Answer, FileFault>;

    fn insert<R: Wait>(&mut self, rt: &R, key: Key, value: Value) -> Result<Answer, FileFault>;

    fn delete<R: Wait>(&mut self, rt: &R, key: Key) -> Result<Answer, FileFault>;

    fn replace<R: Wait>(&mut self, rt: &R, key: Key, value: Value) -> Result<Answer, FileFault>;

    /// Whether the value of a record is the one due, compared where it stands, or none where its key is absent.
    fn compare<R: Wait>(
        &mut self,
        rt: &R,
        contents: Contents,
        record: u64,
    ) -> Result<Option<bool>, FileFault>;

    fn put<R: Wait>(&mut self, rt: &R, key: &Key, value: &Value) -> Result<bool, FileFault>;

    fn set<R: Wait>(&mut self, rt: &R, key: &Key, value: &Value) -> Result<bool, FileFault>;

    fn remove<R: Wait>(&mut self, rt: &R, key: &Key) -> Result<bool, FileFault>;

    /// Adds one to a counter in one step, or makes it with the number 1: whether it is new.
    fn count<R: Wait>(&mut self, rt: &R, key: &Key) -> Result<bool, FileFault>;

    /// The same table, for another thread.
    fn divide(&mut self) -> Result<Self>;

    /// How many buckets it has.
    fn buckets(&mut self) -> u64;

    /// All records, those of each file at one moment.
    fn snapshots<R: Wait + AllocGlobal>(&mut self, rt: &R) -> Result<Vec<Closed>>
        ensures count { IfOk result (λ taken. IsCount (length taken.items)) }
        ensures whole { IfOk result (λ taken. All IsWhole taken.items) };

    /// What a scan meets.
    fn scan<R: Wait + AllocGlobal>(&mut self, rt: &R) -> Result<Met>;
}

/// How many calls each thread may make: more than there will be.
pub const CALLS: u64 = 1 << 40;

/// Makes sure that a record has room. A workload with longer records is run with room for any alone.
#[inline(always)]
pub fn check_room<const ROOM: usize>(key: &Key, value: &Value) -> Result<(), FileFault>
    ensures { OnOk result (FitsRoom ROOM key.now value.now) }
{
    if SizedBucket::<ROOM>::fits(key, value) {
        Ok(())
    } else {
        Err(FileFault::Memory)
    }
}
