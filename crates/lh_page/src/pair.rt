//! A record.

use crate::key::Key;
use crate::value::Value;

/// A record: a value under its key. Records are ordered by key, then by value.
#[derive(Clone, Copy, Debug, PartialEq, Eq, PartialOrd, Ord)]
pub struct Pair {
    pub key: Key,
    pub value: Value,
}
