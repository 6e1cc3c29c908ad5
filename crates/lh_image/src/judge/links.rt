//! The faults of pages that name one another.
ghost use Rattle.std.specs.Prelude.{◌≡◌, ℕ, ◌-◌, ◌<◌, ◌≤◌, length, nat_le, slice_index, IfOk, IfErr};
ghost use Rattle.std.specs.List.{find, range_with_len};
ghost use Rattle.lh_image.specs.Faults.{bad_next, least, named_twice, names};
ghost use Rattle.lh_image.specs.Table.{links_in, next_in};
ghost use Rattle.lh_image.specs.Layout.{most_pages};

use crate::fault::ImageFault;
use crate::table::PageEntry;
use std::alloc::Global;

/// Whether a page's next one is no overflow page of its bucket.
#[tactic(auto, unfolding(crate::specs::Faults::bad_next, crate::specs::Table::next_in, crate::specs::Table::bucket_in))]
fn has_bad_next(entries: &[PageEntry], buckets: u32, page: u32) -> bool
    requires { page < length entries.now }
    ensures { result ≡ bad_next (links_in entries.now buckets) page }
{
    let entry = entries[page as usize];
    if entry.next == 0 {
        return false;
    }
    entry.next <= buckets
        || entry.next as usize >= entries.len()
        || entries[entry.next as usize].bucket != entry.bucket
}

/// The least page whose next one is no overflow page of its bucket.
#[tactic(auto, unfolding(crate::specs::View::numbers))]
pub(crate) fn least_bad_next(entries: &[PageEntry], buckets: u32) -> Option<u32>
    requires { length entries.now ≤ most_pages }
    ensures { result ≡ least (length entries.now) (bad_next (links_in entries.now buckets)) }
{
    (1..entries.len() as u32).find(|page| has_bad_next(entries, buckets, *page))
}

/// The page that follows a page, 0 for none.
#[tactic(auto, unfolding(crate::specs::Table::next_in))]
pub(crate) fn next_of(entries: &[PageEntry], page: usize) -> u32
    ensures { result ≡ next_in entries.now page }
{
    if page < entries.len() {
        entries[page].next
    } else {
        0
    }
}

/// How many pages name each page.
fn count_names(alloc: Global, entries: &[PageEntry]) -> Result<Vec<u32>, ImageFault>
    requires { length entries.now ≤ most_pages }
    ensures size { IfOk result (λ v. length v.items ≡ length entries.now) }
    ensures counts { IfOk result (λ v. (p : ℕ) → p < length entries.now →
        slice_index v.items p ≡ names (next_in entries.now) (length entries.now) p) }
    ensures fault { IfErr result (λ f. f ≡ ImageFault.Memory) }
{
    let mut counts = vec![in alloc; 0; entries.len()]?;
    for page in 0..entries.len() {
        let next = next_of(entries, page) as usize;
        if next < counts.len() {
            counts[next] += 1;
        }
    }
    Ok(counts)
}

/// The least page but the header's that has a count of 2 or more.
fn least_of_two(counts: &[u32]) -> Option<u32>
    requires { length counts.now ≤ most_pages }
    ensures { result ≡ find (λ p. nat_le 2 (slice_index counts.now p)) (range_with_len 1 (length counts.now - 1)) }
{
    (1..counts.len() as u32).find(|page| counts[*page as usize] >= 2)
}

/// The least page that two pages or more name.
pub(crate) fn least_named_twice(
    alloc: Global,
    entries: &[PageEntry],
) -> Result<Option<u32>, ImageFault>
    requires { length entries.now ≤ most_pages }
    ensures least { (buckets : ℕ) → IfOk result (λ r.
        r ≡ least (length entries.now) (named_twice (links_in entries.now buckets))) }
    ensures fault { IfErr result (λ f. f ≡ ImageFault.Memory) }
{
    let counts = count_names(alloc, entries)?;
    Ok(least_of_two(&counts))
}
