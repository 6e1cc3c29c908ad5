//! A page's row of marks, compared at once.
ghost use Rattle.std.specs.Prelude.{◌≡◌, ◌↔◌, ℕ, ◌<◌, slice_index};
ghost use Rattle.std.specs.Int.{bit_at};

use crate::checked::index::MOST;
use lh_page::lanes::{beside, places_8, places_16};

/// The places of a mark, as the bits that are set.
#[inline]
pub(crate) fn places_of(marks: &[u8; MOST], mark: u8) -> u64
    ensures { (i : ℕ) → i < MOST → (bit_at result i ≡ 1) ↔ (slice_index marks.now i ≡ mark) }
{
    let front = places_16(&marks[..16], mark);
    let back = places_8(&marks[16..], mark);
    beside(front, back, 16)
}
