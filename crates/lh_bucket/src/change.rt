//! Calls that may change their bucket, with what they are about lent, and the replies to them.
ghost use Rattle.std.specs.Prelude.{◌≡◌, IfSome, IfNone};
ghost use Rattle.lh_bucket.specs.Call.{key_of, IsSearch};
ghost use Rattle.lh_bucket.specs.Change.{call_of, reply_of};

use crate::call::{Call, Reply};
use lh_page::{Key, Value};

/// A call that may change its bucket, with its key and value lent.
#[derive(Clone, Copy, Debug)]
pub enum Change<'a> {
    /// Adds a key with its value, unless the key is there.
    Insert(&'a Key, &'a Value),
    /// Removes a key with its value.
    Delete(&'a Key),
    /// Gives a key this value in place of its own, if the key is there.
    Replace(&'a Key, &'a Value),
}

/// The reply to a change.
#[derive(Clone, Copy, Debug, PartialEq, Eq)]
pub enum ChangeReply {
    /// An insert added its record.
    Inserted,
    /// An insert met its key, and changed nothing.
    Exists,
    /// A delete removed a record.
    Deleted,
    /// A replace put its value in the place of the old one.
    Replaced,
    /// A delete or a replace met no such key.
    Absent,
}

impl<'a> Change<'a> {
    /// The change that a call asks for: none where it is a search.
    #[inline]
    pub fn of_call(call: &'a Call) -> Option<Change<'a>>
        ensures change { IfSome result (λ change. call_of change ≡ call.now) }
        ensures search { IfNone result (IsSearch call.now) }
    {
        match call {
            Call::Search(_) => None,
            Call::Insert(key, value) => Some(Change::Insert(key, value)),
            Call::Delete(key) => Some(Change::Delete(key)),
            Call::Replace(key, value) => Some(Change::Replace(key, value)),
        }
    }

    /// The key that the change is about.
    #[inline]
    pub fn key(&self) -> &Key
        ensures { result.now ≡ key_of (call_of self.now) }
    {
        match self {
            Change::Insert(key, _) => key,
            Change::Delete(key) => key,
            Change::Replace(key, _) => key,
        }
    }

    /// The call, with copies of the key and the value.
    pub fn call(&self) -> Call
        ensures { result ≡ call_of self.now }
    {
        match self {
            Change::Insert(key, value) => Call::Insert(**key, **value),
            Change::Delete(key) => Call::Delete(**key),
            Change::Replace(key, value) => Call::Replace(**key, **value),
        }
    }
}

impl ChangeReply {
    /// The reply to the call.
    pub fn reply(self) -> Reply
        ensures { result ≡ reply_of self }
    {
        match self {
            ChangeReply::Inserted => Reply::Inserted,
            ChangeReply::Exists => Reply::Exists,
            ChangeReply::Deleted => Reply::Deleted,
            ChangeReply::Replaced => Reply::Replaced,
            ChangeReply::Absent => Reply::Absent,
        }
    }
}
