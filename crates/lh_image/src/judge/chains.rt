//! The chains of all buckets.
ghost use Rattle.std.specs.Prelude.{◌≡◌, ℕ, ◌+◌, ◌-◌, ◌<◌, ◌≤◌, ◌||◌, not, false, length, map, slice_index_or, None};
ghost use Rattle.std.specs.Prelude.{IfOk, IfErr};
ghost use Rattle.std.specs.List.{find, list_any, range_with_len};
ghost use Rattle.lh_addr.specs.Limits.{most_buckets};
ghost use Rattle.lh_image.specs.Chains.{chain, pages_from, stands_in};
ghost use Rattle.lh_image.specs.Faults.{bad_next, least, named_twice};
ghost use Rattle.lh_image.specs.Table.{links_in, next_in};
ghost use Rattle.lh_image.specs.Layout.{most_pages};

use crate::fault::ImageFault;
use crate::judge::links::next_of;
use crate::table::PageEntry;
use std::alloc::Global;

/// The pages that come from a page by following `next`.
fn chain_from(alloc: Global, entries: &[PageEntry], first: u32) -> Result<Vec<u32>, ImageFault>
    ensures ok { IfOk result (λ v. v.items ≡ pages_from (next_in entries.now) (length entries.now) first) }
    ensures fault { IfErr result (λ f. f ≡ ImageFault.Memory) }
{
    let mut pages = Vec::new(alloc);
    let mut page = first;
    for _ in 0..entries.len() {
        if page == 0 {
            break;
        }
        pages.push(page)?;
        page = next_of(entries, page as usize);
    }
    Ok(pages)
}

/// The chain of each bucket. No page is on two of them, so they have no more pages than the file.
pub(crate) fn all_chains(
    alloc: Global,
    entries: &[PageEntry],
    buckets: u32,
) -> Result<Vec<Vec<u32>>, ImageFault>
    requires few { buckets ≤ most_buckets }
    requires plain { least (length entries.now) (bad_next (links_in entries.now buckets)) ≡ None }
    requires apart { least (length entries.now) (named_twice (links_in entries.now buckets)) ≡ None }
    ensures ok { IfOk result (λ v. map (λ chain. chain.items) v.items
        ≡ map (chain (next_in entries.now) (length entries.now)) (range_with_len 0 buckets)) }
    ensures fault { IfErr result (λ f. f ≡ ImageFault.Memory) }
{
    let mut chains = Vec::new(alloc);
    for bucket in 0..buckets {
        chains.push(chain_from(alloc, entries, 1 + bucket)?)?;
    }
    Ok(chains)
}

/// Marks the pages of a chain.
fn mark(marks: &mut [bool], pages: &[u32])
    ensures size { length marks.new ≡ length marks.old }
    ensures marked { (p : ℕ) → p < length marks.old →
        slice_index_or marks.new p false ≡ (slice_index_or marks.old p false || stands_in pages.now p) }
{
    for page in pages {
        let page = *page as usize;
        if page < marks.len() {
            marks[page] = true;
        }
    }
}

/// The pages that stand on a chain.
fn marks_of(alloc: Global, pages: usize, chains: &[Vec<u32>]) -> Result<Vec<bool>, ImageFault>
    ensures size { IfOk result (λ v. length v.items ≡ pages) }
    ensures marks { IfOk result (λ v. (p : ℕ) → p < pages →
        slice_index_or v.items p false ≡ list_any (λ chain. stands_in chain.items p) chains.now) }
    ensures fault { IfErr result (λ f. f ≡ ImageFault.Memory) }
{
    let mut marks = vec![in alloc; false; pages]?;
    for chain in chains {
        mark(&mut marks, chain);
    }
    Ok(marks)
}

/// The least page but the header's that isn't marked.
fn least_unmarked(marks: &[bool]) -> Option<u32>
    requires { length marks.now ≤ most_pages }
    ensures { result ≡ find (λ p. not (slice_index_or marks.now p false)) (range_with_len 1 (length marks.now - 1)) }
{
    (1..marks.len() as u32).find(|page| !marks[*page as usize])
}

/// The least page that stands on no chain.
pub(crate) fn least_on_no_chain(
    alloc: Global,
    pages: u32,
    chains: &[Vec<u32>],
) -> Result<Option<u32>, ImageFault>
    requires { pages ≤ most_pages }
    ensures least { IfOk result (λ r. r ≡ find (λ p. not (list_any (λ chain. stands_in chain.items p) chains.now))
        (range_with_len 1 (pages - 1))) }
    ensures fault { IfErr result (λ f. f ≡ ImageFault.Memory) }
{
    let marks = marks_of(alloc, pages as usize, chains)?;
    Ok(least_unmarked(&marks))
}
