//! How large the parts of a drawing are, in pixels, and how many pages of a chain are drawn. The definitions in
//! `specs/Sizes.antt` give the same numbers, so a change of one of them is refused until both have it.

/// How high a page is.
pub(crate) const PAGE_HEIGHT: u32 = 36;

/// How much is left free between a page and the one above it.
pub(crate) const PAGE_GAP: u32 = 4;

/// How far the foot of a page is above that of the one before it in its chain.
pub(crate) const PAGE_STEP: u32 = PAGE_HEIGHT + PAGE_GAP;

/// The most pages of a chain that are drawn. A number above them stands for the others.
pub const MOST_DRAWN: usize = 24;

/// The most places of a chain, one above another: those of the pages that are drawn, and that of the number above them.
pub(crate) const MOST_PLACES: usize = MOST_DRAWN + 1;

/// How far above the floor that number begins.
pub(crate) const NUMBER_FOOT: u32 = PAGE_STEP * MOST_DRAWN as u32 + PAGE_GAP;

/// How high the title, the legend and the caption stand together, above the longest chain.
pub(crate) const HEAD_HEIGHT: u32 = 92;
