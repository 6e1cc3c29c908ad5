//! What every session can do.
ghost use denote.Ref.{Bor};
ghost use Rattle.std.specs.Prelude.{◌≡◌, ◌≢◌, ◌↔◌, ◌+◌, ◌<◌, ◌≤◌, ℕ, List, Option, Ok, true, length, max};
ghost use Rattle.std.specs.Prelude.{slice_index_or, IfOk, IfErr, OnOk, OnErr};
ghost use Rattle.std.specs.Fn.{FnOnceReturnsAt};
ghost use Rattle.lh_bucket.specs.PlainMap.{found};
ghost use Rattle.lh_bucket.specs.declared.call.Call.{Call};
ghost use Rattle.lh_bucket.specs.declared.call.Call.TheVariants as call;
ghost use Rattle.lh_bucket.specs.declared.call.Reply.{Reply};
ghost use Rattle.lh_bucket.specs.declared.call.Reply.TheVariants.{Absent};
ghost use Rattle.lh_file.specs.Calls.Atomic.{Upserts, GetsOrPuts, Takes, Updates, Merges, ComparesAndSets};
ghost use Rattle.lh_file.specs.Calls.Lent.{read_reply, put_reply, set_reply, remove_reply, LendsTo};
ghost use Rattle.lh_page.specs.Limits.{IsValue, longest_value};
ghost use Rattle.lh_store.specs.Rooms.{HasRoomFor, TellsRoom, MakesWithin, bytes_of_record};
ghost use Rattle.lh_store.specs.Sessions.{IsAtOnce, HasPut};
ghost use Rattle.lh_words.specs.History.Buckets.{bit};

use crate::fault::{CallFault, ExtendFault};
use lh_file::{BucketCopy, Compared};
use lh_page::Value;
use lh_page::limits::LONGEST_VALUE;

/// One thread's part in a table: the calls that it makes there. A key has 1 to 56 bytes, a value 0 to 112.
///
/// A function that is generic in its session, as `fn book<S: Session>(seats: &mut S)`, works on every table, alone or
/// beside other threads, and needs no contract for that. Each call is one act: no other thread's comes in between. After
/// a fault no record has changed, and the session may go on.
///
/// A table's type may give its records less room than the 168 bytes of the longest key and the longest value together. A
/// call that is to write what has no room there is refused, with both numbers, and a key that has none is absent.
pub trait Session {
    // A session has made a call with this reply, from one state of it to another,
    ghost made: { Self → Call → Reply → Self → Type 0 };

    // and met this value under the call's key, or none, in the one act that it was;
    ghost met: { Self → Call → Reply → Option (List ℕ) → Self → Type 0 };

    // or it has made no call.
    ghost idle: { Self → Self → Type 0 };

    // It has counted so many buckets,
    ghost counts: { Self → ℕ → Self → Type 0 };

    // or was told of so many acts.
    ghost tells: { Self → ℕ → Self → Type 0 };

    // The bytes that each record of its table has for key and value together.
    ghost room: { ℕ };

    /// The value under a key.
    fn get(&mut self, key: &[u8]) -> Result<Option<Value>, CallFault>
        ensures made { IfOk result (λ value. made self.old (call.Search key.now) (found value) self.new) }
        ensures err { OnErr result (idle self.old self.new) };

    /// Copies the value under a key over another one: whether the key is there. Where it isn't, and after a fault, that one
    /// is as it was.
    fn read_into(&mut self, key: &[u8], value: &mut Value) -> Result<bool, CallFault>
        ensures made { IfOk result (λ is_there.
            made self.old (call.Search key.now) (read_reply value.new is_there) self.new) }
        ensures same { result ≢ Ok true → value.new ≡ value.old }
        ensures err { OnErr result (idle self.old self.new) };

    /// What a closure returns of the bytes of the value under a key, or none where the key isn't there. Nothing is
    /// copied. The record's bucket is held meanwhile, so the closure has to be short and must make no call.
    fn with_value<T, F: FnOnce(&[u8]) -> T + Drop>(
        &mut self,
        key: &[u8],
        then: F,
    ) -> Result<Option<T>, CallFault>
        requires { (bytes : Bor (List ℕ)) → IsValue bytes.now → F.pre then bytes }
        ensures made { IfOk result (λ told. (given : Reply) × made self.old (call.Search key.now) given self.new
            × LendsTo (FnOnceReturnsAt F.FnOnce then) given told) }
        ensures err { OnErr result (idle self.old self.new) };

    /// Adds a record, unless its key is there: whether the record is new. A value that is there stays.
    fn put(&mut self, key: &[u8], value: &[u8]) -> Result<bool, CallFault>
        ensures made { IfOk result (λ is_new.
            made self.old (call.Insert key.now value.now) (put_reply is_new) self.new) }
        ensures err { OnErr result (idle self.old self.new) }
        ensures fits { OnOk result (HasRoomFor room (length key.now + length value.now)) }
        ensures no_room { IfErr result (TellsRoom room (length key.now + length value.now)) };

    /// Adds records one after the other, each unless its key is there: how many are new. Each is a call of its own, as
    /// [`put`](Self::put) makes it. After a fault those in front of it are there, and the fault tells how many.
    fn extend(&mut self, records: &[(&[u8], &[u8])]) -> Result<usize, ExtendFault>
        ensures all { IfOk result (λ added. HasPut made records.now self.old (length records.now) added self.new) }
        ensures some { IfErr result (λ fault. (last : Self)
            × HasPut made records.now self.old fault.done fault.added last × idle last self.new) }
        ensures done { IfErr result (λ fault. fault.done < length records.now) }
        ensures no_room { IfErr result (λ fault. (d : Bor (List ℕ) × Bor (List ℕ)) →
            TellsRoom room (bytes_of_record (slice_index_or records.now fault.done d)) fault.fault) }
    {
        let mut added = 0;
        let mut done = 0;
        for (key, value) in records {
            match self.put(key, value) {
                Ok(is_new) => added += one_if(is_new),
                Err(fault) => return Err(ExtendFault { done, added, fault }),
            }
            done += 1;
        }
        Ok(added)
    }

    /// Replaces the value of a key: whether the key is there. It takes no memory.
    fn set(&mut self, key: &[u8], value: &[u8]) -> Result<bool, CallFault>
        ensures made { IfOk result (λ was_there.
            made self.old (call.Replace key.now value.now) (set_reply was_there) self.new) }
        ensures err { OnErr result (idle self.old self.new) }
        ensures fits { OnOk result (HasRoomFor room (length key.now + length value.now)) }
        ensures no_room { IfErr result (TellsRoom room (length key.now + length value.now)) };

    /// Deletes the record of a key: whether the key was there.
    fn remove(&mut self, key: &[u8]) -> Result<bool, CallFault>
        ensures made { IfOk result (λ was_there.
            made self.old (call.Delete key.now) (remove_reply was_there) self.new) }
        ensures err { OnErr result (idle self.old self.new) };

    /// Adds a record, or replaces its key's value: whether the record is new.
    fn upsert(&mut self, key: &[u8], value: &[u8]) -> Result<bool, CallFault>
        ensures made { IfOk result (IsAtOnce key.now (λ call reply was. met self.old call reply was self.new)
            (Upserts value.now)) }
        ensures err { OnErr result (idle self.old self.new) }
        ensures fits { OnOk result (HasRoomFor room (length key.now + length value.now)) }
        ensures no_room { IfErr result (TellsRoom room (length key.now + length value.now)) };

    /// The value under a key; where there is none, the record is added, and none is answered.
    fn get_or_put(&mut self, key: &[u8], value: &[u8]) -> Result<Option<Value>, CallFault>
        ensures made { IfOk result (IsAtOnce key.now (λ call reply was. met self.old call reply was self.new)
            (GetsOrPuts value.now)) }
        ensures err { OnErr result (idle self.old self.new) }
        ensures fits { OnOk result (HasRoomFor room (length key.now + length value.now)) }
        ensures no_room { IfErr result (TellsRoom room (length key.now + length value.now)) };

    /// Deletes the record of a key: the value that it had, if the key was there. One caller alone gets it.
    fn take(&mut self, key: &[u8]) -> Result<Option<Value>, CallFault>
        ensures made { IfOk result (IsAtOnce key.now (λ call reply was. met self.old call reply was self.new) Takes) }
        ensures err { OnErr result (idle self.old self.new) };

    /// Replaces a key's value by the one that a closure makes of its bytes: whether the key is there. The bucket is held
    /// alone meanwhile, so the closure has to be short and must make no call. It takes no memory.
    ///
    /// The key has to leave room for the longest value, 112 bytes, since the closure may make that. In a table with less,
    /// [`update_within`](Self::update_within) says how long its values are.
    fn update<F: FnOnce(&[u8]) -> Value + Drop>(
        &mut self,
        key: &[u8],
        change: F,
    ) -> Result<bool, CallFault>
        requires { (bytes : Bor (List ℕ)) → IsValue bytes.now → F.pre change bytes }
        ensures made { IfOk result (IsAtOnce key.now (λ call reply was. met self.old call reply was self.new)
            (Updates (FnOnceReturnsAt F.FnOnce change))) }
        ensures err { OnErr result (idle self.old self.new) }
        ensures fits { OnOk result (HasRoomFor room (length key.now + longest_value)) }
        ensures no_room { IfErr result (TellsRoom room (length key.now + longest_value)) }
    {
        self.update_within(
            key,
            LONGEST_VALUE,
            move |bytes: &[u8]|
                requires { F.pre change bytes }
                ensures made { F.post change bytes.entry result }
                ensures within { IsValue result }
            { change(bytes) },
        )
    }

    /// [`update`](Self::update) by a closure whose values have at most so many bytes, 0 to 112. There has to be room for the
    /// key and these, which is told before the closure runs.
    fn update_within<F: FnOnce(&[u8]) -> Value + Drop>(
        &mut self,
        key: &[u8],
        most: usize,
        change: F,
    ) -> Result<bool, CallFault>
        requires callable { (bytes : Bor (List ℕ)) → IsValue bytes.now → F.pre change bytes }
        requires value { most ≤ longest_value }
        requires within { MakesWithin most (FnOnceReturnsAt F.FnOnce change) }
        ensures made { IfOk result (IsAtOnce key.now (λ call reply was. met self.old call reply was self.new)
            (Updates (FnOnceReturnsAt F.FnOnce change))) }
        ensures err { OnErr result (idle self.old self.new) }
        ensures fits { OnOk result (HasRoomFor room (length key.now + most)) }
        ensures no_room { IfErr result (TellsRoom room (length key.now + most)) };

    /// Adds a record with a first value, or replaces its key's value as [`update`](Self::update) does: whether the record
    /// is new.
    fn merge<F: FnOnce(&[u8]) -> Value + Drop>(
        &mut self,
        key: &[u8],
        first: &[u8],
        next: F,
    ) -> Result<bool, CallFault>
        requires { (bytes : Bor (List ℕ)) → IsValue bytes.now → F.pre next bytes }
        ensures made { IfOk result (IsAtOnce key.now (λ call reply was. met self.old call reply was self.new)
            (Merges first.now (FnOnceReturnsAt F.FnOnce next))) }
        ensures err { OnErr result (idle self.old self.new) }
        ensures fits { OnOk result (HasRoomFor room (length key.now + max (length first.now) longest_value)) }
        ensures no_room { IfErr result (TellsRoom room (length key.now + max (length first.now) longest_value)) }
    {
        self.merge_within(
            key,
            first,
            LONGEST_VALUE,
            move |bytes: &[u8]|
                requires { F.pre next bytes }
                ensures made { F.post next bytes.entry result }
                ensures within { IsValue result }
            { next(bytes) },
        )
    }

    /// [`merge`](Self::merge) by a closure whose values have at most so many bytes, 0 to 112. There has to be room for the
    /// key and these, and for the key and the first value.
    fn merge_within<F: FnOnce(&[u8]) -> Value + Drop>(
        &mut self,
        key: &[u8],
        first: &[u8],
        most: usize,
        next: F,
    ) -> Result<bool, CallFault>
        requires callable { (bytes : Bor (List ℕ)) → IsValue bytes.now → F.pre next bytes }
        requires value { most ≤ longest_value }
        requires within { MakesWithin most (FnOnceReturnsAt F.FnOnce next) }
        ensures made { IfOk result (IsAtOnce key.now (λ call reply was. met self.old call reply was self.new)
            (Merges first.now (FnOnceReturnsAt F.FnOnce next))) }
        ensures err { OnErr result (idle self.old self.new) }
        ensures fits { OnOk result (HasRoomFor room (length key.now + max (length first.now) most)) }
        ensures no_room { IfErr result (TellsRoom room (length key.now + max (length first.now) most)) };

    /// Replaces a key's value where it is the expected one.
    fn compare_and_set(
        &mut self,
        key: &[u8],
        expected: &[u8],
        value: &[u8],
    ) -> Result<Compared, CallFault>
        ensures made { IfOk result (IsAtOnce key.now (λ call reply was. met self.old call reply was self.new)
            (ComparesAndSets expected.now value.now)) }
        ensures err { OnErr result (idle self.old self.new) }
        ensures fits { OnOk result (HasRoomFor room (length key.now + length value.now)) }
        ensures no_room { IfErr result (TellsRoom room (length key.now + length value.now)) };

    /// Whether a key is there.
    fn contains(&mut self, key: &[u8]) -> Result<bool, CallFault>
        ensures made { IfOk result (λ is_there. (given : Reply) × made self.old (call.Search key.now) given self.new
            × ((is_there ≡ true) ↔ (given ≢ Absent))) }
        ensures err { OnErr result (idle self.old self.new) };

    /// The number of records, where no other thread is at work; else about that.
    fn len(&mut self) -> u64
        ensures { idle self.old self.new };

    /// The number of buckets, which never falls; of several files their sum, counted one after the other.
    fn buckets(&mut self) -> u64
        ensures idle { idle self.old self.new }
        ensures counts { counts self.old result self.new };

    /// How many acts there were so far, those of other threads too. What this session does later comes after all of them.
    fn told(&mut self) -> u64
        ensures { tells self.old result self.new };

    /// How many more calls the session may make. A run divides those of its table evenly, and what is left comes back.
    fn left(&self) -> u64;

    /// Gives copies of all buckets to a closure, one after the other, while other threads go on. Each key that is there
    /// all along is in one of them, and none is in two. No bucket is held meanwhile, so the closure may take its time.
    fn for_each<F: FnMut(BucketCopy)>(&mut self, f: F) -> Result<(), CallFault>
        requires { F.IsAlwaysCallable f };
}

/// How many records are new, of one.
fn one_if(is_new: bool) -> usize
    ensures value { result ≡ bit is_new }
    ensures most { result ≤ 1 }
{
    if is_new { 1 } else { 0 }
}
