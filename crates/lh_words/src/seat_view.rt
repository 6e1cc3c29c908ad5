//! What the rule knows of a seat of the table.
use crate::view::View;
use lh_bucket::PagedBucket;
use lh_page::Value;
use lh_settling::ActLine;
use std::collections::LinkedList;

/// An act as the log of a file has it.
#[derive(Clone, Copy)]
pub struct Entry {
    pub line: ActLine,
    /// Outside the file's history: made by a call that isn't traced, or on a bucket that isn't the file's.
    pub outside: bool,
    /// What the history has under the act's key just before it. Of an act outside nothing is said.
    pub was: Option<Value>,
}

/// What the rule knows of a seat, which is a hand's or a bucket's. It stands in proofs alone: no value of it is ever
/// made. A list of it is a linked one, since that is seen as its elements and nothing else.
pub struct SeatView {
    /// What a hand knows, has and did. A bucket's seat has none of it.
    pub view: View,
    /// The acts that a hand made.
    pub entries: LinkedList<Entry>,
    /// The logs that a hand was told of.
    pub logs: LinkedList<LinkedList<Entry>>,
    /// The buckets that are known by this seat.
    pub parts: LinkedList<PagedBucket>,
    /// Whether a hand has moved the records of a split, and not the pointer yet.
    pub moved: bool,
}
