//! Calls that read what is under a key and write there in one act, each that of the key's file.
ghost use denote.Ref.{Bor};
ghost use Rattle.std.specs.Prelude.{ℕ, List};
ghost use Rattle.std.specs.Fn.{FnOnceReturnsAt};
ghost use Rattle.lh_page.specs.Limits.{IsValue};
ghost use Rattle.lh_page.specs.Slots.{FitsRoom};
ghost use Rattle.lh_file.specs.Buckets.Rooms.{FitMade};
ghost use Rattle.lh_file.specs.Calls.Atomic.{MakesAtOnce, Upserts, GetsOrPuts, Takes, Updates, Merges};
ghost use Rattle.lh_file.specs.Calls.Atomic.{ComparesAndSets};
ghost use Rattle.lh_shards.specs.Hands.{AreOf, AtShardOf};

use crate::hands::Hands;
use crate::shards::SizedShards;
use lh_file::{Coded, Compared, FileBrand, FileFault, Mode};
use lh_page::Value;
use std::sync::Wait;

impl<M: Mode, J: FileBrand, const ROOM: usize> SizedShards<M, J, ROOM> {
    /// Adds a record, or gives its key this value in place of its own where the key is there: whether the record is new.
    /// Where it is, a bucket of the key's file may be split.
    #[inline]
    pub fn upsert<K: Coded, R: Wait>(
        &self,
        rt: &R,
        hands: &mut Hands,
        key: &K,
        value: &Value,
    ) -> Result<bool, FileFault>
        requires of { AreOf self.now hands.old }
        requires fits { FitsRoom ROOM (K.bytes key.now) value.now }
        ensures at_once { AtShardOf (K.bytes key.now) self.now hands.old hands.new (λ file before after.
            MakesAtOnce M.traced file (K.bytes key.now) before (Upserts value.now) result after) }
        ensures of { AreOf self.now hands.new }
    {
        let (shard, known) = self.route(key);
        self.file(shard).upsert(rt, hands.at(shard), &known, value)
    }

    /// The value under a key; where there is none, the record is added, and none is answered. A bucket of the key's file
    /// may be split then.
    #[inline]
    pub fn get_or_put<K: Coded, R: Wait>(
        &self,
        rt: &R,
        hands: &mut Hands,
        key: &K,
        value: &Value,
    ) -> Result<Option<Value>, FileFault>
        requires of { AreOf self.now hands.old }
        requires fits { FitsRoom ROOM (K.bytes key.now) value.now }
        ensures at_once { AtShardOf (K.bytes key.now) self.now hands.old hands.new (λ file before after.
            MakesAtOnce M.traced file (K.bytes key.now) before (GetsOrPuts value.now) result after) }
        ensures of { AreOf self.now hands.new }
    {
        let (shard, known) = self.route(key);
        self.file(shard)
            .get_or_put(rt, hands.at(shard), &known, value)
    }

    /// Deletes the record of a key, and hands out the value that it had, if the key was there.
    #[inline]
    pub fn take<K: Coded, R: Wait>(
        &self,
        rt: &R,
        hands: &mut Hands,
        key: &K,
    ) -> Result<Option<Value>, FileFault>
        requires { AreOf self.now hands.old }
        ensures at_once { AtShardOf (K.bytes key.now) self.now hands.old hands.new (λ file before after.
            MakesAtOnce M.traced file (K.bytes key.now) before Takes result after) }
        ensures of { AreOf self.now hands.new }
    {
        let (shard, known) = self.route(key);
        self.file(shard).take(rt, hands.at(shard), &known)
    }

    /// Gives a key the value that a closure makes of its own: whether the key is there. The closure is lent the value's
    /// bytes, 0 to 112 of them, and runs while its bucket is held, alone: it is to be short, and must not call the
    /// shards, since a call may wait for that very bucket.
    #[inline]
    pub fn update<K: Coded, R: Wait, F: FnOnce(&[u8]) -> Value + Drop>(
        &self,
        rt: &R,
        hands: &mut Hands,
        key: &K,
        change: F,
    ) -> Result<bool, FileFault>
        requires of { AreOf self.now hands.old }
        requires callable { (bytes : Bor (List ℕ)) → IsValue bytes.now → F.pre change bytes }
        requires fits { FitMade ROOM (K.bytes key.now) (FnOnceReturnsAt F.FnOnce change) }
        ensures at_once { AtShardOf (K.bytes key.now) self.now hands.old hands.new (λ file before after.
            MakesAtOnce M.traced file (K.bytes key.now) before
            (Updates (FnOnceReturnsAt F.FnOnce change)) result after) }
        ensures of { AreOf self.now hands.new }
    {
        let (shard, known) = self.route(key);
        self.file(shard).update(rt, hands.at(shard), &known, change)
    }

    /// Adds a record with a first value, or gives its key the value that a closure makes of its own where the key is
    /// there: whether the record is new. Where it is, a bucket of the key's file may be split. What is said of the closure
    /// of [`update`](Self::update) holds here too.
    #[inline]
    pub fn merge<K: Coded, R: Wait, F: FnOnce(&[u8]) -> Value + Drop>(
        &self,
        rt: &R,
        hands: &mut Hands,
        key: &K,
        first: &Value,
        next: F,
    ) -> Result<bool, FileFault>
        requires of { AreOf self.now hands.old }
        requires callable { (bytes : Bor (List ℕ)) → IsValue bytes.now → F.pre next bytes }
        requires fits { FitsRoom ROOM (K.bytes key.now) first.now }
        requires made_fits { FitMade ROOM (K.bytes key.now) (FnOnceReturnsAt F.FnOnce next) }
        ensures at_once { AtShardOf (K.bytes key.now) self.now hands.old hands.new (λ file before after.
            MakesAtOnce M.traced file (K.bytes key.now) before
            (Merges first.now (FnOnceReturnsAt F.FnOnce next)) result after) }
        ensures of { AreOf self.now hands.new }
    {
        let (shard, known) = self.route(key);
        self.file(shard)
            .merge(rt, hands.at(shard), &known, first, next)
    }

    /// Gives a key a value in place of the expected one: whether it did, or another value is there, or none.
    #[inline]
    pub fn compare_and_set<K: Coded, R: Wait>(
        &self,
        rt: &R,
        hands: &mut Hands,
        key: &K,
        expected: &Value,
        value: &Value,
    ) -> Result<Compared, FileFault>
        requires of { AreOf self.now hands.old }
        requires fits { FitsRoom ROOM (K.bytes key.now) value.now }
        ensures at_once { AtShardOf (K.bytes key.now) self.now hands.old hands.new (λ file before after.
            MakesAtOnce M.traced file (K.bytes key.now) before
            (ComparesAndSets expected.now value.now) result after) }
        ensures of { AreOf self.now hands.new }
    {
        let (shard, known) = self.route(key);
        self.file(shard)
            .compare_and_set(rt, hands.at(shard), &known, expected, value)
    }
}
