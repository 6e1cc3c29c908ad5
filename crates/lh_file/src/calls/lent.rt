//! Calls as one makes them of a map: by a key that is lent, with no answer but what they are asked for.
ghost use denote.Ref.{Bor};
ghost use Rattle.std.specs.Prelude.{◌≡◌, ◌≢◌, ◌<◌, ℕ, List, true, false, length, Ok, IfOk, IfSome};
ghost use Rattle.std.specs.Fn.{FnOnceReturnsAt};
ghost use Rattle.lh_bucket.specs.PagedBucket.{found_at};
ghost use Rattle.lh_bucket.specs.PlainMap.{found};
ghost use Rattle.lh_bucket.specs.declared.call.Call.TheVariants as call;
ghost use Rattle.lh_bucket.specs.declared.call.Reply.{Reply};
ghost use Rattle.lh_page.specs.Limits.{IsValue};
ghost use Rattle.lh_page.specs.Slots.{FitsRoom};
ghost use Rattle.lh_file.specs.Calls.Lent.{read_reply, put_reply, set_reply, remove_reply, LendsTo};
ghost use Rattle.lh_file.specs.Calls.Served.{Makes};
ghost use Rattle.lh_file.specs.FileState.{IsOf};
ghost use Rattle.lh_file.specs.History.Entered.{HasEntered};

use crate::buckets::brand::FileBrand;
use crate::calls::coded::Coded;
use crate::fault::FileFault;
use crate::file::SizedFile;
use crate::gate::Gate;
use crate::words::hand::Hand;
use lh_bucket::{Change, ChangeReply, SizedBucket};
use lh_page::Value;
use lh_words::Mode;
use std::sync::Wait;

/// Lends the value of the record at a place to a closure, if there is a record: what that returns.
#[inline(always)]
pub(crate) fn lend_found<T, F: FnOnce(&[u8]) -> T + Drop, const ROOM: usize>(
    bucket: &SizedBucket<ROOM>,
    place: Option<usize>,
    then: F,
) -> Option<T>
    requires within { IfSome place (λ place. place < length bucket.now.pairs) }
    requires callable { (bytes : Bor (List ℕ)) → IsValue bytes.now → F.pre then bytes }
    ensures { LendsTo (FnOnceReturnsAt F.FnOnce then) (found_at bucket.now.pairs place) result }
{
    match place {
        Some(place) => Some(then(bucket.value_bytes(place))),
        None => None,
    }
}

impl<G: Gate, M: Mode, J: FileBrand, const ROOM: usize> SizedFile<G, M, J, ROOM> {
    /// The value under a key.
    ///
    /// ```text
    /// match file.get(&rt, &mut hand, &key)? {
    ///     Some(value) => use_it(value.bytes()),
    ///     None => ..
    /// }
    /// ```
    #[inline(always)]
    pub fn get<K: Coded, R: Wait>(
        &self,
        rt: &R,
        hand: &mut Hand,
        key: &K,
    ) -> Result<Option<Value>, FileFault>
        requires { IsOf self.now.state hand.old }
        ensures served { Makes self.now.state hand.old (call.Search (K.bytes key.now)) result found hand.new }
        ensures entered { M.traced ≡ true → IfOk result (λ value.
            HasEntered false hand.old (call.Search (K.bytes key.now)) (found value) hand.new) }
    {
        let mut value = Value::empty();
        if self.read_into(rt, hand, key, &mut value)? {
            Ok(Some(value))
        } else {
            Ok(None)
        }
    }

    /// Copies the value under a key over another one: whether the key is there. Where it isn't, and after a fault, that
    /// one is as it was.
    #[inline(always)]
    pub fn read_into<K: Coded, R: Wait>(
        &self,
        rt: &R,
        hand: &mut Hand,
        key: &K,
        value: &mut Value,
    ) -> Result<bool, FileFault>
        requires { IsOf self.now.state hand.old }
        ensures served { Makes self.now.state hand.old (call.Search (K.bytes key.now)) result
            (read_reply value.new) hand.new }
        ensures entered { M.traced ≡ true → IfOk result (λ is_there.
            HasEntered false hand.old (call.Search (K.bytes key.now)) (read_reply value.new is_there) hand.new) }
        ensures same { result ≢ Ok true → value.new ≡ value.old }
    {
        let (is_there, _) = self.find_into(rt, hand, key.key(), key.code(), value)?;
        Ok(is_there)
    }

    /// Lends the bytes of the value under a key to a closure, and answers what that returns, or none where the key
    /// isn't there. Nothing is copied.
    ///
    /// The closure is given 0 to 112 bytes, and runs while its bucket is held, shared with other searches: it is to be
    /// short, and must not call the file, since a call may wait for that very bucket.
    ///
    /// ```text
    /// let length = file.with_value(&rt, &mut hand, &key, |bytes| bytes.len())?;
    /// ```
    pub fn with_value<K: Coded, R: Wait, T, F: FnOnce(&[u8]) -> T + Drop>(
        &self,
        rt: &R,
        hand: &mut Hand,
        key: &K,
        then: F,
    ) -> Result<Option<T>, FileFault>
        requires of { IsOf self.now.state hand.old }
        requires callable { (bytes : Bor (List ℕ)) → IsValue bytes.now → F.pre then bytes }
        ensures served { (given : Reply)
            × Makes self.now.state hand.old (call.Search (K.bytes key.now)) result (λ _. given) hand.new
            × IfOk result (LendsTo (FnOnceReturnsAt F.FnOnce then) given)
            × (M.traced ≡ true → IfOk result (λ _.
            HasEntered false hand.old (call.Search (K.bytes key.now)) given hand.new)) }
    {
        let (guard, home, place) = self.seek(rt, hand, key.key(), key.code())?;
        let told = lend_found(guard.bucket(), place, then);
        self.release(guard, home.bucket());
        Ok(told)
    }

    /// Adds a record, unless its key is there: whether it was added. A value that is there stays. Where the load of the
    /// file asks for it, a bucket is split, as [`insert`](Self::insert) does.
    #[inline(always)]
    pub fn put<K: Coded, R: Wait>(
        &self,
        rt: &R,
        hand: &mut Hand,
        key: &K,
        value: &Value,
    ) -> Result<bool, FileFault>
        requires of { IsOf self.now.state hand.old }
        requires fits { FitsRoom ROOM (K.bytes key.now) value.now }
        ensures served { Makes self.now.state hand.old (call.Insert (K.bytes key.now) value.now) result
            put_reply hand.new }
        ensures entered { M.traced ≡ true → IfOk result (λ is_new.
            HasEntered false hand.old (call.Insert (K.bytes key.now) value.now) (put_reply is_new) hand.new) }
    {
        let (reply, _) = self.add(rt, hand, key.key(), value, key.code())?;
        Ok(matches!(reply, ChangeReply::Inserted))
    }

    /// Gives a key this value in place of its own: whether the key is there. The value itself takes no memory.
    #[inline(always)]
    pub fn set<K: Coded, R: Wait>(
        &self,
        rt: &R,
        hand: &mut Hand,
        key: &K,
        value: &Value,
    ) -> Result<bool, FileFault>
        requires of { IsOf self.now.state hand.old }
        requires fits { FitsRoom ROOM (K.bytes key.now) value.now }
        ensures served { Makes self.now.state hand.old (call.Replace (K.bytes key.now) value.now) result
            set_reply hand.new }
        ensures entered { M.traced ≡ true → IfOk result (λ was_there.
            HasEntered false hand.old (call.Replace (K.bytes key.now) value.now) (set_reply was_there) hand.new) }
    {
        let change = Change::Replace(key.key(), value);
        let (reply, _) = self.change(rt, hand, change, key.code())?;
        Ok(matches!(reply, ChangeReply::Replaced))
    }

    /// Deletes the record of a key: whether the key was there.
    #[inline(always)]
    pub fn remove<K: Coded, R: Wait>(
        &self,
        rt: &R,
        hand: &mut Hand,
        key: &K,
    ) -> Result<bool, FileFault>
        requires { IsOf self.now.state hand.old }
        ensures served { Makes self.now.state hand.old (call.Delete (K.bytes key.now)) result remove_reply hand.new }
        ensures entered { M.traced ≡ true → IfOk result (λ was_there.
            HasEntered false hand.old (call.Delete (K.bytes key.now)) (remove_reply was_there) hand.new) }
    {
        let change = Change::Delete(key.key());
        let (reply, _) = self.change(rt, hand, change, key.code())?;
        Ok(matches!(reply, ChangeReply::Deleted))
    }
}
