//! The limits of a file, and what its settings are by default. The definitions in `specs/Limits.antt` and
//! `specs/Settings.antt` give the same numbers, so a change of one of them is refused until both have it.

pub const MIN_INITIAL: u32 = 1;

pub const MAX_INITIAL: u32 = 256;

pub const MIN_CAPACITY: u32 = 1;

pub const MAX_CAPACITY: u32 = 24;

pub const MIN_LOAD: u32 = 10;

pub const MAX_LOAD: u32 = 200;

pub const MAX_BUCKETS: u32 = 65_536;

/// The greatest level: that of a file that began with 1 bucket and has [`MAX_BUCKETS`].
pub const MAX_LEVEL: u8 = 16;

pub const DEFAULT_INITIAL: u32 = 1;

pub const DEFAULT_CAPACITY: u32 = 14;

pub const DEFAULT_LOAD: u32 = 100;

pub const DEFAULT_MAX: u32 = MAX_BUCKETS;
