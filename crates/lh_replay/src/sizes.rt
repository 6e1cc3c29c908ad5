//! How large the parts of a picture are, in pixels. The definitions in `specs/Sizes.antt` give the same numbers, so a
//! change of one of them is refused until both have it.

/// How far the first lane is from the left edge.
pub(crate) const LANES_LEFT: u32 = 48;

/// How wide a lane is.
pub(crate) const LANE_WIDTH: u32 = 288;

/// How high a row is.
pub(crate) const ROW_HEIGHT: u128 = 24;

/// How far the first row is from the upper edge.
pub(crate) const ROWS_TOP: u128 = 72;

/// How high a picture without a row would be.
pub(crate) const EMPTY_HEIGHT: u128 = 84;

/// How high a box is that ends in the row where it begins.
pub(crate) const BOX_HEIGHT: u128 = 20;
