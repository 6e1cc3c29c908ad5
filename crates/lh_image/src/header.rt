//! What the header of an image says.
use crate::version::Version;
use lh_addr::Config;

/// A header whose fields are in their ranges.
#[derive(Clone, Copy)]
pub(crate) struct Header {
    pub version: Version,
    pub config: Config,
    pub buckets: u32,
    /// The number of pages, this one among them.
    pub pages: u32,
    pub records: u64,
}
