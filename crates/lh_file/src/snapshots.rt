//! The records of a running file: of all its buckets at one moment, or bucket by bucket.
pub(crate) mod bucket_copy;
mod held;
pub(crate) mod scan;
pub(crate) mod snapshot;
mod visit;
