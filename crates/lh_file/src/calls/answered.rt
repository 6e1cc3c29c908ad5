//! Calls that give an answer, which tells all: the call, its reply, and the bucket that gave it.
ghost use Rattle.std.specs.Prelude.{◌≡◌, true, false, IfOk};
ghost use Rattle.lh_page.specs.Slots.{FitsRoom};
ghost use Rattle.lh_bucket.specs.declared.call.Call.TheVariants as call;
ghost use Rattle.lh_file.specs.Calls.Served.{Serves};
ghost use Rattle.lh_file.specs.FileState.{IsOf};
ghost use Rattle.lh_file.specs.History.Entered.{HasEntered};

use crate::buckets::brand::FileBrand;
use crate::calls::coded::Coded;
use crate::fault::FileFault;
use crate::file::SizedFile;
use crate::gate::Gate;
use crate::words::hand::Hand;
use lh_bucket::{Answer, Change};
use lh_page::Value;
use lh_words::Mode;
use std::sync::Wait;

impl<G: Gate, M: Mode, J: FileBrand, const ROOM: usize> SizedFile<G, M, J, ROOM> {
    /// Searches for a key: the answer's reply is the value, or that the key is absent.
    // Inlined, as the others here are; `find_into` and `change` below aren't: the answer is made when the bucket is
    // free, and what nobody looks at isn't made.
    #[inline(always)]
    pub fn search<K: Coded + Copy, R: Wait>(
        &self,
        rt: &R,
        hand: &mut Hand,
        key: K,
    ) -> Result<Answer, FileFault>
        requires { IsOf self.now.state hand.old }
        ensures served { Serves self.now.state hand.old (call.Search (K.bytes key)) result hand.new }
        ensures entered { M.traced ≡ true → IfOk result (λ a. HasEntered false hand.old a.call a.reply hand.new) }
    {
        let mut value = Value::empty();
        let (is_there, home) = self.find_into(rt, hand, key.key(), key.code(), &mut value)?;
        let found = if is_there { Some(&value) } else { None };
        Ok(Answer::of_search(key.key(), found, home))
    }

    /// Inserts a record, unless the key is there. Where the record is new, the load of the file asks for a
    /// split and the hand hasn't the right to one, the call asks once for it, and splits a bucket if it
    /// gets it; whether that succeeds makes no difference to the answer.
    #[inline(always)]
    pub fn insert<K: Coded + Copy, R: Wait>(
        &self,
        rt: &R,
        hand: &mut Hand,
        key: K,
        value: Value,
    ) -> Result<Answer, FileFault>
        requires of { IsOf self.now.state hand.old }
        requires fits { FitsRoom ROOM (K.bytes key) value }
        ensures served { Serves self.now.state hand.old (call.Insert (K.bytes key) value) result hand.new }
        ensures entered { M.traced ≡ true → IfOk result (λ a. HasEntered false hand.old a.call a.reply hand.new) }
    {
        let lent = key.key();
        let (reply, home) = self.add(rt, hand, lent, &value, key.code())?;
        Ok(Answer::of_change(Change::Insert(lent, &value), reply, home))
    }

    /// Deletes a record: the answer's reply is whether the key was there.
    #[inline(always)]
    pub fn delete<K: Coded + Copy, R: Wait>(
        &self,
        rt: &R,
        hand: &mut Hand,
        key: K,
    ) -> Result<Answer, FileFault>
        requires { IsOf self.now.state hand.old }
        ensures served { Serves self.now.state hand.old (call.Delete (K.bytes key)) result hand.new }
        ensures entered { M.traced ≡ true → IfOk result (λ a. HasEntered false hand.old a.call a.reply hand.new) }
    {
        let change = Change::Delete(key.key());
        let (reply, home) = self.change(rt, hand, change, key.code())?;
        Ok(Answer::of_change(change, reply, home))
    }

    /// Gives a key this value in place of its own: the answer's reply is whether the key was there. The
    /// record stays where it is, and a key that isn't there is not added. No count changes and no split
    /// is asked for, since the file has as many records as before.
    #[inline(always)]
    pub fn replace<K: Coded + Copy, R: Wait>(
        &self,
        rt: &R,
        hand: &mut Hand,
        key: K,
        value: Value,
    ) -> Result<Answer, FileFault>
        requires of { IsOf self.now.state hand.old }
        requires fits { FitsRoom ROOM (K.bytes key) value }
        ensures served { Serves self.now.state hand.old (call.Replace (K.bytes key) value) result hand.new }
        ensures entered { M.traced ≡ true → IfOk result (λ a. HasEntered false hand.old a.call a.reply hand.new) }
    {
        let change = Change::Replace(key.key(), &value);
        let (reply, home) = self.change(rt, hand, change, key.code())?;
        Ok(Answer::of_change(change, reply, home))
    }
}
