//! Calls as one makes them of a map: by a key that is lent, with no answer but what they are asked for.
ghost use denote.Ref.{Bor};
ghost use Rattle.std.specs.Prelude.{◌≡◌, ◌≢◌, ℕ, List, true, false, Ok, IfOk};
ghost use Rattle.std.specs.Fn.{FnOnceReturnsAt};
ghost use Rattle.lh_bucket.specs.PlainMap.{found};
ghost use Rattle.lh_bucket.specs.declared.call.Call.TheVariants as call;
ghost use Rattle.lh_bucket.specs.declared.call.Reply.{Reply};
ghost use Rattle.lh_page.specs.Limits.{IsValue};
ghost use Rattle.lh_page.specs.Slots.{FitsRoom};
ghost use Rattle.lh_file.specs.Calls.Lent.{read_reply, put_reply, set_reply, remove_reply, LendsTo};
ghost use Rattle.lh_file.specs.Calls.Served.{Makes};
ghost use Rattle.lh_file.specs.History.Entered.{HasEntered};
ghost use Rattle.lh_shards.specs.Hands.{AreOf, AtShardOf};

use crate::hands::Hands;
use crate::shards::SizedShards;
use lh_file::{Coded, FileBrand, FileFault, Mode};
use lh_page::Value;
use std::sync::Wait;

impl<M: Mode, J: FileBrand, const ROOM: usize> SizedShards<M, J, ROOM> {
    /// The value under a key.
    #[inline(always)]
    pub fn get<K: Coded, R: Wait>(
        &self,
        rt: &R,
        hands: &mut Hands,
        key: &K,
    ) -> Result<Option<Value>, FileFault>
        requires { AreOf self.now hands.old }
        ensures served { AtShardOf (K.bytes key.now) self.now hands.old hands.new (λ file before after.
            Makes file before (call.Search (K.bytes key.now)) result found after) }
        ensures entered { M.traced ≡ true →
            AtShardOf (K.bytes key.now) self.now hands.old hands.new (λ file before after.
            IfOk result (λ value.
            HasEntered false before (call.Search (K.bytes key.now)) (found value) after)) }
        ensures of { AreOf self.now hands.new }
    {
        let (shard, known) = self.route(key);
        self.file(shard).get(rt, hands.at(shard), &known)
    }

    /// Copies the value under a key over another one: whether the key is there. Where it isn't, and after a fault, that
    /// one is as it was.
    #[inline(always)]
    pub fn read_into<K: Coded, R: Wait>(
        &self,
        rt: &R,
        hands: &mut Hands,
        key: &K,
        value: &mut Value,
    ) -> Result<bool, FileFault>
        requires { AreOf self.now hands.old }
        ensures served { AtShardOf (K.bytes key.now) self.now hands.old hands.new (λ file before after.
            Makes file before (call.Search (K.bytes key.now)) result (read_reply value.new) after) }
        ensures entered { M.traced ≡ true →
            AtShardOf (K.bytes key.now) self.now hands.old hands.new (λ file before after.
            IfOk result (λ is_there.
            HasEntered false before (call.Search (K.bytes key.now)) (read_reply value.new is_there) after)) }
        ensures of { AreOf self.now hands.new }
        ensures same { result ≢ Ok true → value.new ≡ value.old }
    {
        let (shard, known) = self.route(key);
        self.file(shard)
            .read_into(rt, hands.at(shard), &known, value)
    }

    /// Lends the bytes of the value under a key to a closure, and answers what that returns, or none where the key
    /// isn't there. Nothing is copied.
    ///
    /// The closure is given 0 to 112 bytes, and runs while its bucket is held, shared with other searches: it is to be
    /// short, and must not call the shards, since a call may wait for that very bucket.
    #[inline]
    pub fn with_value<K: Coded, R: Wait, T, F: FnOnce(&[u8]) -> T + Drop>(
        &self,
        rt: &R,
        hands: &mut Hands,
        key: &K,
        then: F,
    ) -> Result<Option<T>, FileFault>
        requires of { AreOf self.now hands.old }
        requires callable { (bytes : Bor (List ℕ)) → IsValue bytes.now → F.pre then bytes }
        ensures served { AtShardOf (K.bytes key.now) self.now hands.old hands.new (λ file before after. (given : Reply)
            × Makes file before (call.Search (K.bytes key.now)) result (λ _. given) after
            × IfOk result (LendsTo (FnOnceReturnsAt F.FnOnce then) given)
            × (M.traced ≡ true → IfOk result (λ _.
            HasEntered false before (call.Search (K.bytes key.now)) given after))) }
        ensures of { AreOf self.now hands.new }
    {
        let (shard, known) = self.route(key);
        self.file(shard)
            .with_value(rt, hands.at(shard), &known, then)
    }

    /// Adds a record, unless its key is there: whether it was added. A value that is there stays. Where the load of the
    /// key's file asks for it, a bucket of that file is split, while other files may split theirs.
    #[inline(always)]
    pub fn put<K: Coded, R: Wait>(
        &self,
        rt: &R,
        hands: &mut Hands,
        key: &K,
        value: &Value,
    ) -> Result<bool, FileFault>
        requires of { AreOf self.now hands.old }
        requires fits { FitsRoom ROOM (K.bytes key.now) value.now }
        ensures served { AtShardOf (K.bytes key.now) self.now hands.old hands.new (λ file before after.
            Makes file before (call.Insert (K.bytes key.now) value.now) result put_reply after) }
        ensures entered { M.traced ≡ true →
            AtShardOf (K.bytes key.now) self.now hands.old hands.new (λ file before after.
            IfOk result (λ is_new.
            HasEntered false before (call.Insert (K.bytes key.now) value.now) (put_reply is_new) after)) }
        ensures of { AreOf self.now hands.new }
    {
        let (shard, known) = self.route(key);
        self.file(shard).put(rt, hands.at(shard), &known, value)
    }

    /// Gives a key this value in place of its own: whether the key is there. The value itself takes no memory.
    #[inline(always)]
    pub fn set<K: Coded, R: Wait>(
        &self,
        rt: &R,
        hands: &mut Hands,
        key: &K,
        value: &Value,
    ) -> Result<bool, FileFault>
        requires of { AreOf self.now hands.old }
        requires fits { FitsRoom ROOM (K.bytes key.now) value.now }
        ensures served { AtShardOf (K.bytes key.now) self.now hands.old hands.new (λ file before after.
            Makes file before (call.Replace (K.bytes key.now) value.now) result set_reply after) }
        ensures entered { M.traced ≡ true →
            AtShardOf (K.bytes key.now) self.now hands.old hands.new (λ file before after.
            IfOk result (λ was_there.
            HasEntered false before (call.Replace (K.bytes key.now) value.now) (set_reply was_there) after)) }
        ensures of { AreOf self.now hands.new }
    {
        let (shard, known) = self.route(key);
        self.file(shard).set(rt, hands.at(shard), &known, value)
    }

    /// Deletes the record of a key: whether the key was there.
    #[inline(always)]
    pub fn remove<K: Coded, R: Wait>(
        &self,
        rt: &R,
        hands: &mut Hands,
        key: &K,
    ) -> Result<bool, FileFault>
        requires { AreOf self.now hands.old }
        ensures served { AtShardOf (K.bytes key.now) self.now hands.old hands.new (λ file before after.
            Makes file before (call.Delete (K.bytes key.now)) result remove_reply after) }
        ensures entered { M.traced ≡ true →
            AtShardOf (K.bytes key.now) self.now hands.old hands.new (λ file before after.
            IfOk result (λ was_there.
            HasEntered false before (call.Delete (K.bytes key.now)) (remove_reply was_there) after)) }
        ensures of { AreOf self.now hands.new }
    {
        let (shard, known) = self.route(key);
        self.file(shard).remove(rt, hands.at(shard), &known)
    }
}
