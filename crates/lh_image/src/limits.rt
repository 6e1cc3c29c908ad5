//! The limits of images.

/// The most pages that an image may have, the header counted.
pub(crate) const MAX_PAGES: u32 = 1_048_576;
