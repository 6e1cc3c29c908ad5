//! Where a caller looks for a code.

/// Where a caller looks for a code: a bucket, and the level at which it looks, whose hash function
/// leads from the code to that bucket.
#[derive(Clone, Copy, Debug, PartialEq, Eq)]
pub struct Aim {
    pub level: u8,
    pub bucket: u32,
}
