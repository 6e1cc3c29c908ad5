//! Where the header of an image has its version and its fields.

/// The bytes that tell the version.
pub(crate) const MAGIC: usize = 4;

/// Where the initial number of buckets stands.
pub(crate) const INITIAL: usize = 4;

/// Where the capacity of a page stands.
pub(crate) const CAPACITY: usize = 8;

/// Where the load stands.
pub(crate) const LOAD: usize = 12;

/// Where the number of buckets stands.
pub(crate) const BUCKETS: usize = 16;

/// Where the greatest number of buckets stands.
pub(crate) const MAX: usize = 20;

/// Where the number of pages stands.
pub(crate) const PAGES: usize = 24;

/// Where the number of records stands.
pub(crate) const RECORDS: usize = 28;

/// Where the fields end. The bytes from here to the end of the page are zeros.
pub(crate) const FIELDS_END: usize = 36;

/// The bytes of the fields.
pub(crate) const FIELDS: usize = FIELDS_END - MAGIC;
