//! A page of a chain.

use crate::pairs::Pairs;

/// Where in its chain a page stands.
#[derive(Clone, Copy, Debug, PartialEq, Eq)]
pub enum PageKind {
    /// The first page of its chain.
    Primary,
    /// A later page.
    Overflow,
}

/// One page of a chain, with what its bytes in an image hold.
#[derive(Debug, PartialEq, Eq, Drop)]
pub struct Page {
    pub kind: PageKind,
    /// The local level of the bucket.
    pub level: u8,
    /// The number of the bucket.
    pub bucket: u32,
    /// The number of the next page of the chain, 0 for none.
    pub next: u32,
    pub pairs: Pairs,
}
