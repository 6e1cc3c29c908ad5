//! How many pages records take.
ghost use Rattle.std.specs.Prelude.{◌≡◌, ◌≤◌};
ghost use Rattle.lh_page.specs.PackedList.{pages_needed};

/// The number of pages of a chain with this many records, at `capacity` records a page. The primary page is
/// counted, so it is at least one.
pub fn pages_needed(records: usize, capacity: u32) -> usize
    requires { 1 ≤ capacity }
    ensures { result ≡ pages_needed capacity records }
{
    let last = records.saturating_sub(1);
    last / capacity as usize + 1
}
