//! The limits on keys, values and pages.

/// The most bytes that a key has. It has at least one.
pub const LONGEST_KEY: usize = 56;

/// The most bytes that a value has. It may have none.
pub const LONGEST_VALUE: usize = 112;

/// The room of a slot that serves each record, in bytes.
pub const WIDEST_ROOM: usize = LONGEST_KEY + LONGEST_VALUE;

/// The most records that a page has room for. Each page has as many slots.
pub const LARGEST_PAGE: usize = 24;
