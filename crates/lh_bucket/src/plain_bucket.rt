//! A bucket that is an ordered map.
ghost use Rattle.std.specs.Prelude.{not, ◌≡◌, ◌+◌, ◌*◌, ◌^◌, ◌<◌, ◌≤◌, [], length, slice_get, Some, IsOk, IfOk, OnOk};
ghost use Rattle.std.specs.Prelude.{OnErr, if◌then◌else◌};
ghost use Rattle.std.specs.Ordering.{nat_cmp};
ghost use Rattle.std.specs.Cmp.Lexicographic.{slice_cmp};
ghost use Rattle.std.specs.BTreeMap.{IsOrdered};
ghost use Rattle.std.specs.FinMap.{get, insert, remove, retain_keys, contains_key};
ghost use Rattle.lh_bucket.specs.declared.call.Reply.TheVariants.{Inserted};
ghost use Rattle.lh_bucket.specs.Leaving.{leads_to};
ghost use Rattle.lh_bucket.specs.Call.{IsInsert};
ghost use Rattle.lh_bucket.specs.Change.{call_of, reply_of};
ghost use Rattle.lh_bucket.specs.PlainMap.{reply, after};
ghost use Rattle.lh_bucket.specs.Records.{map_of};
ghost use Rattle.lh_bucket.specs.PlainBucket.{pairs_of_entries};

use crate::answer::Answer;
use crate::bucket::Bucket;
use crate::call::Call;
use crate::change::{Change, ChangeReply};
use crate::leaving::Leaving;
use crate::verdict::{Verdict, verdict_of};
use lh_addr::laws::hashes_are_nested;
use lh_page::{Key, KeySet, Memory, Pair, Value};
use std::alloc::Global;
use std::collections::BTreeMap;
use std::marker::Model;

/// A bucket that is an ordered map: its places are in the order of the keys. It is the plainest
/// bucket there is, to compare others with.
#[derive(Debug, Drop)]
pub struct PlainBucket {
    number: u32,
    initial: u32,
    capacity: u32,
    level: Option<u8>,
    records: BTreeMap<Key, Value>,
    alloc: Global,
}

impl Model for PlainBucket {
    ghost use Rattle.lh_bucket.specs.Bucket.{Head, Seen};
    ghost use Rattle.lh_bucket.specs.PlainBucket.{IsPlain, pairs_of_entries};

    ghost Value = { Seen };

    ghost view = { λ b. record {
      head = record { number = b.number; initial = b.initial; capacity = b.capacity; level = b.level };
      pairs = pairs_of_entries b.records.entries;
    } };

    ghost invariant = { λ b. IsPlain (record {
      head = record { number = b.number; initial = b.initial; capacity = b.capacity; level = b.level };
      pairs = pairs_of_entries b.records.entries;
    }) };
}

/// The value that a map has at a key.
fn value_at(records: &BTreeMap<Key, Value>, key: &Key) -> Option<Value>
    ensures { result ≡ get (map_of (pairs_of_entries records.now.entries)) key.now }
{
    records.get(key).copied()
}

/// Adds a record whose key is not there yet.
fn add(records: &mut BTreeMap<Key, Value>, key: Key, value: Value) -> Result<(), Memory>
    ensures ok { OnOk result (map_of (pairs_of_entries records.new.entries)
        ≡ insert (map_of (pairs_of_entries records.old.entries)) key value) }
    ensures err { OnErr result (records.new.entries ≡ records.old.entries) }
    ensures ordered { IsOrdered (slice_cmp nat_cmp) records.new }
{
    records.insert(key, value)?;
    Ok(())
}

/// Takes a key out, and says whether it was there.
fn take(records: &mut BTreeMap<Key, Value>, key: &Key) -> bool
    ensures found { result ≡ contains_key (map_of (pairs_of_entries records.old.entries)) key.now }
    ensures left { map_of (pairs_of_entries records.new.entries)
        ≡ (if result then remove (map_of (pairs_of_entries records.old.entries)) key.now
        else map_of (pairs_of_entries records.old.entries)) }
    ensures ordered { IsOrdered (slice_cmp nat_cmp) records.new }
{
    records.remove(key).is_some()
}

/// Gives a key another value, and says whether it was there.
fn replace(records: &mut BTreeMap<Key, Value>, key: &Key, value: Value) -> bool
    ensures found { result ≡ contains_key (map_of (pairs_of_entries records.old.entries)) key.now }
    ensures changed { map_of (pairs_of_entries records.new.entries)
        ≡ (if result then insert (map_of (pairs_of_entries records.old.entries)) key.now value
        else map_of (pairs_of_entries records.old.entries)) }
    ensures ordered { IsOrdered (slice_cmp nat_cmp) records.new }
{
    match records.get_mut(key) {
        Some(old) => {
            *old = value;
            true
        }
        None => false,
    }
}

/// Serves a change at a map.
fn change_at(records: &mut BTreeMap<Key, Value>, change: Change<'_>) -> Result<ChangeReply, Memory>
    requires { IsOrdered (slice_cmp nat_cmp) records.old }
    ensures reply { IfOk result (λ r.
        reply_of r ≡ reply (map_of (pairs_of_entries records.old.entries)) (call_of change.entry)) }
    ensures content { OnOk result (map_of (pairs_of_entries records.new.entries)
        ≡ after (map_of (pairs_of_entries records.old.entries)) (call_of change.entry)) }
    ensures ordered { IsOrdered (slice_cmp nat_cmp) records.new }
    ensures no_memory { ¬ (IsInsert (call_of change.entry)) → IsOk result }
    ensures new_key { OnErr result (reply (map_of (pairs_of_entries records.old.entries)) (call_of change.entry)
        ≡ Inserted) }
    ensures err { OnErr result (records.new.entries ≡ records.old.entries) }
{
    match change {
        Change::Insert(key, value) => match value_at(records, key) {
            Some(_) => Ok(ChangeReply::Exists),
            None => {
                add(records, *key, *value)?;
                Ok(ChangeReply::Inserted)
            }
        },
        Change::Delete(key) => {
            if take(records, key) {
                Ok(ChangeReply::Deleted)
            } else {
                Ok(ChangeReply::Absent)
            }
        }
        Change::Replace(key, value) => {
            if replace(records, key, *value) {
                Ok(ChangeReply::Replaced)
            } else {
                Ok(ChangeReply::Absent)
            }
        }
    }
}

impl Bucket for PlainBucket {
    ghost use Rattle.lh_bucket.specs.PlainBucket.{IsInKeyOrder};

    ghost seen = { λ b. b };

    fn make(
        alloc: Global,
        initial: u32,
        capacity: u32,
        number: u32,
        level: Option<u8>,
    ) -> Result<Self, Memory> {
        Ok(PlainBucket {
            number,
            initial,
            capacity,
            level,
            records: BTreeMap::new(alloc),
            alloc,
        })
    }

    fn number(&self) -> u32 {
        self.number
    }

    fn initial(&self) -> u32 {
        self.initial
    }

    fn capacity(&self) -> u32 {
        self.capacity
    }

    fn level(&self) -> Option<u8> {
        self.level
    }

    fn len(&self) -> usize {
        self.records.len()
    }

    fn pair_at(&self, place: usize) -> Pair
        requires { place < length self.now.pairs }
        ensures value { slice_get self.now.pairs place ≡ Some result }
        ensures in_key_order { IsInKeyOrder self.now.pairs }
    {
        match self.records.iter().nth(place) {
            Some((key, value)) => Pair {
                key: *key,
                value: *value,
            },
            None => unreachable!(),
        }
    }

    fn compare(&self, c: u64, k: u8) -> Verdict {
        verdict_of(self.number, self.initial, self.level, c, k)
    }

    fn look(&self, call: &Call, k: u8) -> Answer {
        let value = value_at(&self.records, call.key());
        Answer::searched(call.key(), value.as_ref(), self.number, k, self.initial)
    }

    fn serve(&mut self, call: &Call, k: u8) -> Result<Answer, Memory> {
        let Some(change) = Change::of_call(call) else {
            return Ok(self.look(call, k));
        };
        let reply = change_at(&mut self.records, change)?;
        Ok(Answer::changed(change, reply, self.number, k, self.initial))
    }

    fn split_into(&mut self, new: &mut Self) -> Result<(), Memory> {
        // What leaves has the new bucket's number: one level up a hash is as before or `initial * 2^l` more.
        hashes_are_nested();
        let level = self.level.unwrap_or(0) + 1;
        let leaving = Leaving {
            initial: self.initial,
            level,
            number: self.number,
        };
        let moved = select(self.alloc, &self.records, &leaving)?;
        keep_others(&mut self.records, &leaving);
        self.level = Some(level);
        new.records = moved;
        new.level = Some(level);
        Ok(())
    }
}

/// The records of a map that leave it.
fn select(
    alloc: Global,
    records: &BTreeMap<Key, Value>,
    leaving: &Leaving,
) -> Result<BTreeMap<Key, Value>, Memory>
    ensures map { IfOk result (λ m. map_of (pairs_of_entries m.entries)
        ≡ retain_keys (map_of (pairs_of_entries records.now.entries))
        (λ key. not (leads_to leaving.now.initial leaving.now.level leaving.now.number key))) }
    ensures ordered { IfOk result (λ m. IsOrdered (slice_cmp nat_cmp) m) }
{
    let mut moved = BTreeMap::new(alloc);
    for (key, value) in records {
        if leaving.contains(key.bytes()) {
            moved.insert(*key, *value)?;
        }
    }
    Ok(moved)
}

/// Takes the records that leave a map out of it.
fn keep_others(records: &mut BTreeMap<Key, Value>, leaving: &Leaving)
    ensures map { map_of (pairs_of_entries records.new.entries)
        ≡ retain_keys (map_of (pairs_of_entries records.old.entries))
        (leads_to leaving.now.initial leaving.now.level leaving.now.number) }
    ensures ordered { IsOrdered (slice_cmp nat_cmp) records.new }
{
    records.retain(|key, _| !leaving.contains(key.bytes()));
}
