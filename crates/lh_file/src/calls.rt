//! Searches, inserts, deletes, replaces, calls that read and write in one act, and splits.
pub(crate) mod aim;
mod answered;
pub(crate) mod atomic;
pub(crate) mod coded;
mod lent;
pub mod parts;
mod serve;
pub(crate) mod split;
mod walk;
