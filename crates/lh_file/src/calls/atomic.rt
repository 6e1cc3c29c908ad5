//! Calls that read what is under a key and write there in one act: no other call's act on the key comes in between.
//! Each takes its bucket alone, finds the key once, decides by what it finds, and makes one act of the history: an
//! insert, a replace, a delete, or a search where nothing is to be written.
ghost use denote.Ref.{Bor};
ghost use Rattle.std.specs.Prelude.{◌≡◌, ◌<◌, ℕ, List, true, false, length, IfSome};
ghost use Rattle.std.specs.Fn.{FnOnceReturnsAt};
ghost use Rattle.lh_bucket.specs.PagedBucket.{found_at};
ghost use Rattle.lh_bucket.specs.PlainMap.{found};
ghost use Rattle.lh_page.specs.Limits.{IsValue};
ghost use Rattle.lh_page.specs.Slots.{FitsRoom};
ghost use Rattle.lh_file.specs.Buckets.Rooms.{FitMade};
ghost use Rattle.lh_file.specs.Calls.Atomic.{MakesAtOnce, Upserts, GetsOrPuts, Takes, Updates, Merges};
ghost use Rattle.lh_file.specs.Calls.Atomic.{ComparesAndSets};
ghost use Rattle.lh_file.specs.FileState.{IsOf};

use crate::buckets::brand::FileBrand;
use crate::calls::coded::Coded;
use crate::calls::lent::lend_found;
use crate::calls::serve::copy_found;
use crate::fault::FileFault;
use crate::file::SizedFile;
use crate::gate::Gate;
use crate::words::hand::Hand;
use lh_bucket::{Change, SizedBucket};
use lh_page::Value;
use lh_words::Mode;
use std::sync::Wait;

/// What came of a [`compare_and_set`](crate::HashFile::compare_and_set).
#[derive(Clone, Copy, Debug, PartialEq, Eq)]
pub enum Compared {
    /// The expected value was there, and was replaced.
    Replaced,
    /// Another value is there, and stays.
    Differs,
    /// The key isn't there.
    Absent,
}

/// The value of the record at a place, if there is a record.
#[inline(always)]
fn value_found<const ROOM: usize>(bucket: &SizedBucket<ROOM>, place: Option<usize>) -> Option<Value>
    requires { IfSome place (λ place. place < length bucket.now.pairs) }
    ensures { found result ≡ found_at bucket.now.pairs place }
{
    let mut value = Value::empty();
    if copy_found(bucket, place, &mut value) {
        Some(value)
    } else {
        None
    }
}

impl<G: Gate, M: Mode, J: FileBrand, const ROOM: usize> SizedFile<G, M, J, ROOM> {
    /// Adds a record, or gives its key this value in place of its own where the key is there: whether the record is
    /// new. Where it is, a bucket may be split, as [`insert`](Self::insert) does.
    pub fn upsert<K: Coded, R: Wait>(
        &self,
        rt: &R,
        hand: &mut Hand,
        key: &K,
        value: &Value,
    ) -> Result<bool, FileFault>
        requires of { IsOf self.now.state hand.old }
        requires fits { FitsRoom ROOM (K.bytes key.now) value.now }
        ensures { MakesAtOnce M.traced self.now.state (K.bytes key.now) hand.old
            (Upserts value.now) result hand.new }
    {
        let (guard, aim, place) = self.hold(rt, hand, key.key(), key.code())?;
        match place {
            Some(_) => {
                let change = Change::Replace(key.key(), value);
                self.change_held(rt, hand, guard, change, place, aim)?;
                Ok(false)
            }
            None => {
                let change = Change::Insert(key.key(), value);
                self.change_held(rt, hand, guard, change, place, aim)?;
                self.grow(rt, hand);
                Ok(true)
            }
        }
    }

    /// The value under a key; where there is none, the record is added, and none is answered. A bucket may be split
    /// then, as [`insert`](Self::insert) does.
    ///
    /// ```text
    /// let number = file.get_or_put(&rt, &mut hand, &name, &mine)?.unwrap_or(mine);
    /// ```
    pub fn get_or_put<K: Coded, R: Wait>(
        &self,
        rt: &R,
        hand: &mut Hand,
        key: &K,
        value: &Value,
    ) -> Result<Option<Value>, FileFault>
        requires of { IsOf self.now.state hand.old }
        requires fits { FitsRoom ROOM (K.bytes key.now) value.now }
        ensures { MakesAtOnce M.traced self.now.state (K.bytes key.now) hand.old
            (GetsOrPuts value.now) result hand.new }
    {
        let (guard, aim, place) = self.hold(rt, hand, key.key(), key.code())?;
        match value_found(guard.bucket(), place) {
            Some(there) => {
                self.leave_held(rt, hand, guard, key.key(), place, aim)?;
                Ok(Some(there))
            }
            None => {
                let change = Change::Insert(key.key(), value);
                self.change_held(rt, hand, guard, change, place, aim)?;
                self.grow(rt, hand);
                Ok(None)
            }
        }
    }

    /// Deletes the record of a key, and hands out the value that it had, if the key was there.
    pub fn take<K: Coded, R: Wait>(
        &self,
        rt: &R,
        hand: &mut Hand,
        key: &K,
    ) -> Result<Option<Value>, FileFault>
        requires { IsOf self.now.state hand.old }
        ensures { MakesAtOnce M.traced self.now.state (K.bytes key.now) hand.old Takes result hand.new }
    {
        let (guard, aim, place) = self.hold(rt, hand, key.key(), key.code())?;
        let taken = value_found(guard.bucket(), place);
        let change = Change::Delete(key.key());
        self.change_held(rt, hand, guard, change, place, aim)?;
        Ok(taken)
    }

    /// Gives a key the value that a closure makes of its own: whether the key is there. The closure is lent the value's
    /// bytes, 0 to 112 of them, and isn't called where the key isn't there. The value itself takes no memory.
    ///
    /// It runs while its bucket is held, alone, so that nobody else reads or writes there: it is to be short, and must
    /// not call the file, since a call may wait for that very bucket.
    ///
    /// ```text
    /// let is_there = file.update(&rt, &mut hand, &key, |bytes| one_more(bytes))?;
    /// ```
    pub fn update<K: Coded, R: Wait, F: FnOnce(&[u8]) -> Value + Drop>(
        &self,
        rt: &R,
        hand: &mut Hand,
        key: &K,
        change: F,
    ) -> Result<bool, FileFault>
        requires of { IsOf self.now.state hand.old }
        requires callable { (bytes : Bor (List ℕ)) → IsValue bytes.now → F.pre change bytes }
        requires fits { FitMade ROOM (K.bytes key.now) (FnOnceReturnsAt F.FnOnce change) }
        ensures { MakesAtOnce M.traced self.now.state (K.bytes key.now) hand.old
            (Updates (FnOnceReturnsAt F.FnOnce change)) result hand.new }
    {
        let (guard, aim, place) = self.hold(rt, hand, key.key(), key.code())?;
        match lend_found(guard.bucket(), place, change) {
            Some(value) => {
                let change = Change::Replace(key.key(), &value);
                self.change_held(rt, hand, guard, change, place, aim)?;
                Ok(true)
            }
            None => {
                self.leave_held(rt, hand, guard, key.key(), place, aim)?;
                Ok(false)
            }
        }
    }

    /// Adds a record with a first value, or gives its key the value that a closure makes of its own where the key is
    /// there: whether the record is new. Where it is, the closure isn't called, and a bucket may be split, as
    /// [`insert`](Self::insert) does. What is said of the closure of [`update`](Self::update) holds here too.
    ///
    /// ```text
    /// let is_new = file.merge(&rt, &mut hand, &word, &one, |bytes| one_more(bytes))?;
    /// ```
    pub fn merge<K: Coded, R: Wait, F: FnOnce(&[u8]) -> Value + Drop>(
        &self,
        rt: &R,
        hand: &mut Hand,
        key: &K,
        first: &Value,
        next: F,
    ) -> Result<bool, FileFault>
        requires of { IsOf self.now.state hand.old }
        requires callable { (bytes : Bor (List ℕ)) → IsValue bytes.now → F.pre next bytes }
        requires fits { FitsRoom ROOM (K.bytes key.now) first.now }
        requires made_fits { FitMade ROOM (K.bytes key.now) (FnOnceReturnsAt F.FnOnce next) }
        ensures { MakesAtOnce M.traced self.now.state (K.bytes key.now) hand.old
            (Merges first.now (FnOnceReturnsAt F.FnOnce next)) result hand.new }
    {
        let (guard, aim, place) = self.hold(rt, hand, key.key(), key.code())?;
        match lend_found(guard.bucket(), place, next) {
            Some(merged) => {
                let change = Change::Replace(key.key(), &merged);
                self.change_held(rt, hand, guard, change, place, aim)?;
                Ok(false)
            }
            None => {
                let change = Change::Insert(key.key(), first);
                self.change_held(rt, hand, guard, change, place, aim)?;
                self.grow(rt, hand);
                Ok(true)
            }
        }
    }

    /// Gives a key a value in place of the expected one: whether it did, or another value is there, or none.
    ///
    /// ```text
    /// match file.compare_and_set(&rt, &mut hand, &key, &free, &mine)? {
    ///     Compared::Replaced => ..
    /// ```
    pub fn compare_and_set<K: Coded, R: Wait>(
        &self,
        rt: &R,
        hand: &mut Hand,
        key: &K,
        expected: &Value,
        value: &Value,
    ) -> Result<Compared, FileFault>
        requires of { IsOf self.now.state hand.old }
        requires fits { FitsRoom ROOM (K.bytes key.now) value.now }
        ensures { MakesAtOnce M.traced self.now.state (K.bytes key.now) hand.old
            (ComparesAndSets expected.now value.now) result hand.new }
    {
        let (guard, aim, place) = self.hold(rt, hand, key.key(), key.code())?;
        let Some(at) = place else {
            self.leave_held(rt, hand, guard, key.key(), place, aim)?;
            return Ok(Compared::Absent);
        };
        if guard.bucket().value_bytes(at) != expected.bytes() {
            self.leave_held(rt, hand, guard, key.key(), place, aim)?;
            return Ok(Compared::Differs);
        }
        let change = Change::Replace(key.key(), value);
        self.change_held(rt, hand, guard, change, place, aim)?;
        Ok(Compared::Replaced)
    }
}
