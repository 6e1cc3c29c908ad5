//! Calls and replies.
ghost use Rattle.std.specs.Prelude.{◌≡◌};
ghost use Rattle.lh_bucket.specs.Call.{key_of, is_search, is_insert};

use lh_page::{Key, Value};

/// A call.
#[derive(Clone, Copy, Debug, PartialEq, Eq)]
pub enum Call {
    /// Looks a key up.
    Search(Key),
    /// Adds a key with its value, unless the key is there.
    Insert(Key, Value),
    /// Removes a key with its value.
    Delete(Key),
    /// Gives a key this value in place of its own, if the key is there.
    Replace(Key, Value),
}

/// The reply to a call.
#[derive(Clone, Copy, Debug, PartialEq, Eq)]
pub enum Reply {
    /// A search met this value.
    Found(Value),
    /// A search, a delete or a replace met no such key.
    Absent,
    /// An insert added its record.
    Inserted,
    /// An insert met its key, and changed nothing.
    Exists,
    /// A delete removed a record.
    Deleted,
    /// A replace put its value in the place of the old one.
    Replaced,
}

impl Call {
    /// The key that the call is about.
    pub fn key(&self) -> &Key
        ensures { result.now ≡ key_of self.now }
    {
        match self {
            Call::Search(key) => key,
            Call::Insert(key, _) => key,
            Call::Delete(key) => key,
            Call::Replace(key, _) => key,
        }
    }

    /// Whether it is a search, which changes nothing. Every other call may change its bucket.
    pub fn is_search(&self) -> bool
        ensures { result ≡ is_search self.now }
    {
        matches!(self, Call::Search(_))
    }

    /// Whether it is an insert. No other call takes memory.
    pub fn is_insert(&self) -> bool
        ensures { result ≡ is_insert self.now }
    {
        matches!(self, Call::Insert(_, _))
    }
}
