//! Calls that give an answer, which tells all: the call, its reply, and the bucket that gave it, by its number in the
//! file of the key's shard.
ghost use Rattle.std.specs.Prelude.{◌≡◌, true, false, IfOk};
ghost use Rattle.lh_page.specs.Slots.{FitsRoom};
ghost use Rattle.lh_bucket.specs.declared.call.Call.TheVariants as call;
ghost use Rattle.lh_file.specs.Calls.Served.{Serves};
ghost use Rattle.lh_file.specs.History.Entered.{HasEntered};
ghost use Rattle.lh_shards.specs.Hands.{AreOf, AtShardOf};

use crate::hands::Hands;
use crate::shards::SizedShards;
use lh_bucket::Answer;
use lh_file::{Coded, FileBrand, FileFault, Mode};
use lh_page::Value;
use std::sync::Wait;

impl<M: Mode, J: FileBrand, const ROOM: usize> SizedShards<M, J, ROOM> {
    /// Searches for a key: the answer's reply is the value, or that the key is absent.
    #[inline(always)]
    pub fn search<K: Coded + Copy, R: Wait>(
        &self,
        rt: &R,
        hands: &mut Hands,
        key: K,
    ) -> Result<Answer, FileFault>
        requires { AreOf self.now hands.old }
        ensures served { AtShardOf (K.bytes key) self.now hands.old hands.new (λ file before after.
            Serves file before (call.Search (K.bytes key)) result after) }
        ensures entered { M.traced ≡ true → AtShardOf (K.bytes key) self.now hands.old hands.new (λ file before after.
            IfOk result (λ a. HasEntered false before a.call a.reply after)) }
        ensures of { AreOf self.now hands.new }
    {
        let (shard, known) = self.route(&key);
        self.file(shard).search(rt, hands.at(shard), known)
    }

    /// Inserts a record, unless the key is there. Where the record is new and the load of the key's file asks for a
    /// split, the call asks once for that file's right to split, and splits a bucket of it if it gets it.
    #[inline(always)]
    pub fn insert<K: Coded + Copy, R: Wait>(
        &self,
        rt: &R,
        hands: &mut Hands,
        key: K,
        value: Value,
    ) -> Result<Answer, FileFault>
        requires of { AreOf self.now hands.old }
        requires fits { FitsRoom ROOM (K.bytes key) value }
        ensures served { AtShardOf (K.bytes key) self.now hands.old hands.new (λ file before after.
            Serves file before (call.Insert (K.bytes key) value) result after) }
        ensures entered { M.traced ≡ true → AtShardOf (K.bytes key) self.now hands.old hands.new (λ file before after.
            IfOk result (λ a. HasEntered false before a.call a.reply after)) }
        ensures of { AreOf self.now hands.new }
    {
        let (shard, known) = self.route(&key);
        self.file(shard).insert(rt, hands.at(shard), known, value)
    }

    /// Deletes a record: the answer's reply is whether the key was there.
    #[inline(always)]
    pub fn delete<K: Coded + Copy, R: Wait>(
        &self,
        rt: &R,
        hands: &mut Hands,
        key: K,
    ) -> Result<Answer, FileFault>
        requires { AreOf self.now hands.old }
        ensures served { AtShardOf (K.bytes key) self.now hands.old hands.new (λ file before after.
            Serves file before (call.Delete (K.bytes key)) result after) }
        ensures entered { M.traced ≡ true → AtShardOf (K.bytes key) self.now hands.old hands.new (λ file before after.
            IfOk result (λ a. HasEntered false before a.call a.reply after)) }
        ensures of { AreOf self.now hands.new }
    {
        let (shard, known) = self.route(&key);
        self.file(shard).delete(rt, hands.at(shard), known)
    }

    /// Gives a key this value in place of its own: the answer's reply is whether the key was there.
    #[inline(always)]
    pub fn replace<K: Coded + Copy, R: Wait>(
        &self,
        rt: &R,
        hands: &mut Hands,
        key: K,
        value: Value,
    ) -> Result<Answer, FileFault>
        requires of { AreOf self.now hands.old }
        requires fits { FitsRoom ROOM (K.bytes key) value }
        ensures served { AtShardOf (K.bytes key) self.now hands.old hands.new (λ file before after.
            Serves file before (call.Replace (K.bytes key) value) result after) }
        ensures entered { M.traced ≡ true → AtShardOf (K.bytes key) self.now hands.old hands.new (λ file before after.
            IfOk result (λ a. HasEntered false before a.call a.reply after)) }
        ensures of { AreOf self.now hands.new }
    {
        let (shard, known) = self.route(&key);
        self.file(shard).replace(rt, hands.at(shard), known, value)
    }
}
