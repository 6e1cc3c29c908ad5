//! Records that stand in a wrong place.
ghost use Rattle.std.specs.Prelude.{◌≡◌, ℕ, ◌<◌, ◌≤◌, ◌||◌, not, Bool, List, [], ◌∷◌, ◌++◌, length, map};
ghost use Rattle.std.specs.Prelude.{slice_index_or, IfOk, IfErr};
ghost use Rattle.std.specs.BTreeSet.{contains};
ghost use Rattle.std.specs.Cmp.Lexicographic.{slice_cmp};
ghost use Rattle.std.specs.List.{flat_map, list_any};
ghost use Rattle.std.specs.Ordering.{nat_cmp};
ghost use Rattle.std.specs.Str.{bytes_eq};
ghost use Rattle.lh_addr.specs.Limits.{most_buckets};
ghost use Rattle.lh_page.specs.Records.{keys_of};
ghost use Rattle.lh_image.specs.Faults.{misfits};
ghost use Rattle.lh_image.specs.Misplaced.{IsLeastAmong, IsSetOf, IsTestOf, is_home, lesser_of};
ghost use Rattle.lh_image.specs.Table.{AreWithin, page_records};

use crate::fault::ImageFault;
use crate::table::Table;
use lh_addr::{Root, fnv1a};
use lh_page::{Key, Pair};
use std::alloc::Global;
use std::collections::BTreeSet;

/// Whether a record belongs to another bucket, or has a key that came before. The key is taken in.
fn is_misfit(
    came: &mut BTreeSet<Key>,
    root: &Root,
    bucket: u32,
    pair: &Pair,
) -> Result<bool, ImageFault>
    ensures value { (before : List (List ℕ)) → IsSetOf (contains (slice_cmp nat_cmp) came.old) before →
        IfOk result (λ b.
        b ≡ (not (is_home root.now bucket pair.now.key) || list_any (bytes_eq pair.now.key) before)) }
    ensures known { (before : List (List ℕ)) → IsSetOf (contains (slice_cmp nat_cmp) came.old) before →
        IfOk result (λ b. IsSetOf (contains (slice_cmp nat_cmp) came.new) (before ++ pair.now.key ∷ [])) }
    ensures fault { IfErr result (λ f. f ≡ ImageFault.Memory) }
{
    let is_new = came.insert(pair.key)?;
    Ok(root.address(fnv1a(pair.key.bytes())) != bucket || !is_new)
}

/// Whether one of a page's records is a misfit. The keys of the page are taken in.
fn has_misfit(
    came: &mut BTreeSet<Key>,
    root: &Root,
    bucket: u32,
    pairs: &[Pair],
) -> Result<bool, ImageFault>
    ensures value { (before : List (List ℕ)) → IsSetOf (contains (slice_cmp nat_cmp) came.old) before →
        IfOk result (λ b. b ≡ misfits (is_home root.now bucket) before pairs.now) }
    ensures known { (before : List (List ℕ)) → IsSetOf (contains (slice_cmp nat_cmp) came.old) before →
        IfOk result (λ b. IsSetOf (contains (slice_cmp nat_cmp) came.new) (before ++ keys_of pairs.now)) }
    ensures fault { IfErr result (λ f. f ≡ ImageFault.Memory) }
{
    let mut misfit = false;
    for pair in pairs {
        if is_misfit(came, root, bucket, pair)? {
            misfit = true;
        }
    }
    Ok(misfit)
}

/// The lesser of two pages, where there are two.
fn lesser(least: Option<u32>, page: u32) -> u32
    ensures { result ≡ lesser_of least page }
{
    match least {
        Some(least) if least < page => least,
        _ => page,
    }
}

/// The least page of a chain that has a misfit, or a lesser one that was found before.
fn least_in_chain(
    alloc: Global,
    root: &Root,
    table: &Table,
    bucket: u32,
    chain: &[u32],
    before: Option<u32>,
) -> Result<Option<u32>, ImageFault>
    requires { AreWithin table.now.entries.items table.now.pairs.items }
    ensures least { IfOk result (λ r. (bad : ℕ → Bool) (seen : List ℕ) →
        IsTestOf bad (is_home root.now bucket) (page_records table.now.entries.items table.now.pairs.items) chain.now →
        IsLeastAmong bad seen before → IsLeastAmong bad (seen ++ chain.now) r) }
    ensures fault { IfErr result (λ f. f ≡ ImageFault.Memory) }
{
    let mut came = BTreeSet::new(alloc);
    let mut least = before;
    for page in chain {
        if has_misfit(&mut came, root, bucket, table.records(*page))? {
            least = Some(lesser(least, *page));
        }
    }
    Ok(least)
}

/// The least page with a record of another bucket, or with a key that stands before it in its chain.
pub(crate) fn least_misfit(
    alloc: Global,
    root: &Root,
    table: &Table,
    chains: &[Vec<u32>],
) -> Result<Option<u32>, ImageFault>
    requires within { AreWithin table.now.entries.items table.now.pairs.items }
    requires few { length chains.now ≤ most_buckets }
    ensures least { IfOk result (λ r. (bad : ℕ → Bool) → ((i : ℕ) → i < length chains.now →
        IsTestOf bad (is_home root.now i) (page_records table.now.entries.items table.now.pairs.items)
        (slice_index_or (map (λ chain. chain.items) chains.now) i [])) →
        IsLeastAmong bad (flat_map (λ chain. chain.items) chains.now) r) }
    ensures fault { IfErr result (λ f. f ≡ ImageFault.Memory) }
{
    let mut least = None;
    for (bucket, chain) in chains.iter().enumerate() {
        least = least_in_chain(alloc, root, table, bucket as u32, chain, least)?;
    }
    Ok(least)
}
