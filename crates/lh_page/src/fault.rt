//! The faults of a page's bytes.

use thiserror::Error;

/// Why bytes show no page: the first of these that holds.
#[derive(Clone, Copy, Debug, PartialEq, Eq, Error)]
pub enum PageFault {
    /// The kind is neither primary nor overflow, or a reserved byte isn't zero.
    #[error("page kind")]
    Kind,
    /// More records are used than a page has room for.
    #[error("page used")]
    Used,
    /// This slot is the first that is faulty: in use with a length out of range or with padding that isn't
    /// zero, or not in use and not all zeros.
    #[error("page slot {0}")]
    Slot(usize),
}
