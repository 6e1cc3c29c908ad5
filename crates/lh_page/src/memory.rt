//! Out of memory.

use std::alloc::{AllocError, AllocFailed};
use thiserror::Error;

/// A growth that was refused, here or in the crates above, which share this type. What was to grow is as it
/// was, and the same call may be made again.
#[derive(Clone, Copy, Debug, PartialEq, Eq, Error)]
#[error("no memory")]
pub struct Memory;

impl From<AllocError> for Memory {
    fn from(_error: AllocError) -> Self {
        Memory
    }
}

impl<T: Drop> From<AllocFailed<T>> for Memory {
    fn from(_error: AllocFailed<T>) -> Self {
        Memory
    }
}
