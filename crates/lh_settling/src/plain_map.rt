//! The plain map that a history is compared with.
ghost use Rattle.std.specs.Prelude.{◌≡◌, ℕ, List, None, IsOk, IfOk, OnOk, IfSome, IfNone, is_some, if◌then◌else◌};
ghost use Rattle.std.specs.Option.{IsSome};
ghost use Rattle.std.specs.FinMap.{get, empty, insert, remove, contains_key};
ghost use Rattle.lh_bucket.specs.declared.call.Call.TheVariants as call;
ghost use Rattle.lh_bucket.specs.PlainMap.{reply, after, IsInsert};
ghost use Rattle.lh_settling.specs.Contents.{IsBefore};
ghost use Rattle.lh_settling.specs.PlainMap.{map_of_entries};

use crate::contents::lesser;
use lh_bucket::{Call, Memory, Reply};
use lh_page::{Key, Value};
use std::alloc::Global;
use std::collections::HashMap;
use std::hash::{Hash, Hasher};
use std::marker::Model;

/// A key as the map looks for it, by a hash of its bytes.
#[derive(Clone, Copy, PartialEq, Eq)]
struct Name(Key);

impl Hash for Name {
    ghost use Rattle.std.specs.Prelude.{◌∷◌, []};
    ghost use Rattle.std.specs.Cmp.Rules.{hashing};
    ghost use Rattle.std.proofs.Common.{rules};

    ghost hash_input = { λ name. name.0 ∷ [] };

    ghost respects_eq = { Prim.search (hashing, rules) };

    fn hash<H: Hasher>(&self, state: &mut H) {
        state.write(self.0.bytes());
    }
}

/// A plain map from keys to values, in a hash table: how its keys are hashed shows in no answer.
#[derive(Drop)]
pub(crate) struct PlainMap {
    records: HashMap<Name, Value>,
}

impl Model for PlainMap {
    ghost use Rattle.std.specs.Coded.{coded_ℕ, coded_list};
    ghost use Rattle.std.specs.FinMap.{code};
    ghost use Rattle.lh_bucket.specs.PlainMap.{Records};
    ghost use Rattle.lh_settling.specs.PlainMap.{map_of_entries};

    ghost Value = { Records };

    ghost coded = { code (coded_list coded_ℕ) (coded_list coded_ℕ) };

    ghost view = { λ m. map_of_entries m.records.entries };
}

/// The value that a table has at a key.
fn value_at(records: &HashMap<Name, Value>, key: &Key) -> Option<Value>
    ensures { result ≡ get (map_of_entries records.now.entries) key.now }
{
    records.get(&Name(*key)).copied()
}

/// Adds a record whose key is not there yet.
fn add(records: &mut HashMap<Name, Value>, key: Key, value: Value) -> Result<(), Memory>
    ensures { OnOk result (map_of_entries records.new.entries ≡ insert (map_of_entries records.old.entries) key value) }
{
    records.insert(Name(key), value)?;
    Ok(())
}

/// Takes a key out, and says what value it had.
fn take(records: &mut HashMap<Name, Value>, key: &Key) -> Option<Value>
    ensures value { result ≡ get (map_of_entries records.old.entries) key.now }
    ensures left { map_of_entries records.new.entries ≡
        (if is_some result then remove (map_of_entries records.old.entries) key.now
        else map_of_entries records.old.entries) }
{
    records.remove(&Name(*key))
}

/// Gives a key another value, and says whether it was there.
fn change(records: &mut HashMap<Name, Value>, key: &Key, value: Value) -> bool
    ensures found { result ≡ contains_key (map_of_entries records.old.entries) key.now }
    ensures changed { map_of_entries records.new.entries ≡
        (if result then insert (map_of_entries records.old.entries) key.now value
        else map_of_entries records.old.entries) }
{
    match records.get_mut(&Name(*key)) {
        Some(old) => {
            *old = value;
            true
        }
        None => false,
    }
}

/// The least key of a table.
fn least_of(records: &HashMap<Name, Value>) -> Option<Key>
    ensures none { IfNone result ((key : List ℕ) → get (map_of_entries records.now.entries) key ≡ None) }
    ensures there { IfSome result (λ key. IsSome (get (map_of_entries records.now.entries) key)) }
    ensures least { IfSome result (λ key. (other : List ℕ) → IsBefore other key →
        get (map_of_entries records.now.entries) other ≡ None) }
{
    let mut least: Option<Key> = None;
    for name in records.keys() {
        least = Some(lesser(least, name.0));
    }
    least
}

impl PlainMap {
    /// An empty map, with room for this many records; more of them make it grow.
    pub(crate) fn with_capacity(alloc: Global, records: usize) -> Result<PlainMap, Memory>
        ensures { IfOk result (λ m. m ≡ empty) }
    {
        let records = HashMap::with_capacity(alloc, records)?;
        Ok(PlainMap { records })
    }

    /// Serves a call. Only an insert takes memory.
    pub(crate) fn serve(&mut self, call: &Call) -> Result<Reply, Memory>
        ensures reply { IfOk result (λ r. r ≡ reply self.old call.now) }
        ensures after { OnOk result (self.new ≡ after self.old call.now) }
        ensures no_memory { ¬ (IsInsert call.now) → IsOk result }
    {
        match call {
            Call::Search(key) => match value_at(&self.records, key) {
                Some(value) => Ok(Reply::Found(value)),
                None => Ok(Reply::Absent),
            },
            Call::Insert(key, value) => match value_at(&self.records, key) {
                Some(_) => Ok(Reply::Exists),
                None => {
                    add(&mut self.records, *key, *value)?;
                    Ok(Reply::Inserted)
                }
            },
            Call::Delete(key) => match take(&mut self.records, key) {
                Some(_) => Ok(Reply::Deleted),
                None => Ok(Reply::Absent),
            },
            Call::Replace(key, value) => {
                if change(&mut self.records, key, *value) {
                    Ok(Reply::Replaced)
                } else {
                    Ok(Reply::Absent)
                }
            }
        }
    }

    /// Takes a key out, and says what value it had.
    pub(crate) fn take(&mut self, key: &Key) -> Option<Value>
        ensures value { result ≡ get self.old key.now }
        ensures after { self.new ≡ after self.old (call.Delete key.now) }
    {
        take(&mut self.records, key)
    }

    /// The least key.
    pub(crate) fn first(&self) -> Option<Key>
        ensures none { IfNone result ((key : List ℕ) → get self.now key ≡ None) }
        ensures there { IfSome result (λ key. IsSome (get self.now key)) }
        ensures least { IfSome result (λ key. (other : List ℕ) → IsBefore other key → get self.now other ≡ None) }
    {
        least_of(&self.records)
    }
}
