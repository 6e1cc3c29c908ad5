//! The faults that lists of records have as a listing.
ghost use Rattle.std.specs.Prelude.{◌≡◌, ℕ, ◌<◌, ◌≤◌, ◌⊎◌, length, map, None, Some, IfOk, OnErr, IfSome, IfNone};
ghost use Rattle.std.specs.Bool.{OnTrue, OnFalse};
ghost use Rattle.std.specs.List.{All};
ghost use Rattle.lh_addr.specs.Fnv.{code_of};
ghost use Rattle.lh_addr.specs.Limits.{most_buckets};
ghost use Rattle.lh_page.specs.Records.{key_at, IsRecord};
ghost use Rattle.lh_bucket.specs.Listing.{IsHome, IsAway, IsNew, IsAgain, EachPlace, AreTopsOf, list_at, top_of};
ghost use Rattle.lh_bucket.specs.ListingFault.{few, IsFaultAmong, IsTwiceIn};

use crate::listing::ListingFault;
use lh_addr::{Root, fnv1a};
use lh_page::{Memory, Pair};
use std::alloc::Global;
use std::collections::BTreeSet;

/// The place of the first record that belongs to another bucket than this one.
fn away_in(root: &Root, bucket: u32, pairs: &[Pair]) -> Option<usize>
    ensures none { IfNone result ((p : ℕ) → p < length pairs.now →
        IsHome root.now.initial root.now.buckets bucket pairs.now p) }
    ensures records { IfNone result (All IsRecord pairs.now) }
    ensures within { IfSome result (λ place. place < length pairs.now) }
    ensures away { IfSome result (λ place. IsAway root.now.initial root.now.buckets bucket pairs.now place) }
    ensures before { IfSome result (λ place. (p : ℕ) → p < place →
        IsHome root.now.initial root.now.buckets bucket pairs.now p) }
{
    for (place, pair) in pairs.iter().enumerate() {
        // A listing has values of no other lengths than these.
        let _ = pair.value.bytes();
        if root.address(fnv1a(pair.key.bytes())) != bucket {
            return Some(place);
        }
    }
    None
}

/// Lists of at most this many records are searched record by record, which takes no memory.
const FEW: usize = 32;

/// Whether the key at a place stands before it too.
fn stands_before(pairs: &[Pair], place: usize) -> bool
    requires { place < length pairs.now }
    ensures again { OnTrue result (IsAgain 0 pairs.now place) }
    ensures new { OnFalse result (IsNew 0 pairs.now place) }
{
    for earlier in 0..place {
        if pairs[earlier].key == pairs[place].key {
            return true;
        }
    }
    false
}

/// The first eight bits of a key's code. A bucket's keys have the same last bits.
#[tactic(auto, unfolding(crate::specs::Listing::top_of))]
fn top_of(code: u64) -> usize
    ensures value { result ≡ top_of code }
    ensures below { result < 256 }
{
    (code >> 56) as usize
}

/// Whether the key at a place is surely new. Earlier keys are compared only where the code of one has the
/// same first bits.
fn is_new(tops: &[bool; 256], top: usize, pairs: &[Pair], place: usize) -> bool
    requires place { place < length pairs.now }
    requires below { top < 256 }
    requires own { top ≡ top_of (code_of (key_at pairs.now place)) }
    requires tops { AreTopsOf tops.now pairs.now place }
    ensures { OnTrue result (IsNew 0 pairs.now place) }
{
    !tops[top] || !stands_before(pairs, place)
}

/// Whether a list that is not long is surely without a fault. The code of each key is computed once.
fn is_sound(root: &Root, bucket: u32, pairs: &[Pair]) -> bool
    ensures home { OnTrue result ((p : ℕ) → p < length pairs.now →
        IsHome root.now.initial root.now.buckets bucket pairs.now p) }
    ensures records { OnTrue result (All IsRecord pairs.now) }
    ensures new { OnTrue result ((p : ℕ) → p < length pairs.now → IsNew 0 pairs.now p) }
{
    if pairs.len() > FEW {
        return false;
    }
    let mut tops = [false; 256];
    for (place, pair) in pairs.iter().enumerate() {
        // A listing has values of no other lengths than these.
        let _ = pair.value.bytes();
        let code = fnv1a(pair.key.bytes());
        let top = top_of(code);
        if root.address(code) != bucket || !is_new(&tops, top, pairs, place) {
            return false;
        }
        tops[top] = true;
    }
    true
}

/// The place of the first record whose key stands before it too, in a list that is not long.
fn again_among(pairs: &[Pair]) -> Option<usize>
    ensures none { IfNone result ((p : ℕ) → p < length pairs.now → IsNew 0 pairs.now p) }
    ensures within { IfSome result (λ place. place < length pairs.now) }
    ensures again { IfSome result (λ place. IsAgain 0 pairs.now place) }
    ensures before { IfSome result (λ place. (p : ℕ) → p < place → IsNew 0 pairs.now p) }
{
    for place in 0..pairs.len() {
        if stands_before(pairs, place) {
            return Some(place);
        }
    }
    None
}

/// The place of the first record whose key stands before it too. Only a long list takes memory.
fn again_in(alloc: Global, pairs: &[Pair]) -> Result<Option<usize>, Memory>
    ensures none { IfOk result (λ r. IfNone r ((p : ℕ) → p < length pairs.now → IsNew 0 pairs.now p)) }
    ensures within { IfOk result (λ r. IfSome r (λ place. place < length pairs.now)) }
    ensures again { IfOk result (λ r. IfSome r (λ place. IsAgain 0 pairs.now place)) }
    ensures before { IfOk result (λ r. IfSome r (λ place. (p : ℕ) → p < place → IsNew 0 pairs.now p)) }
    ensures long { OnErr result (few < length pairs.now) }
{
    if pairs.len() <= FEW {
        return Ok(again_among(pairs));
    }
    let mut seen = BTreeSet::new(alloc);
    for (place, pair) in pairs.iter().enumerate() {
        if !seen.insert(pair.key)? {
            return Ok(Some(place));
        }
    }
    Ok(None)
}

/// The first key that stands twice, or out of memory to look for it: as found in the lists before this one,
/// else in this one.
fn twice_by(
    alloc: Global,
    found: Option<ListingFault>,
    bucket: u32,
    pairs: &[Pair],
) -> Option<ListingFault>
    ensures none { IfNone result (found ≡ None) }
    ensures new { IfNone result ((p : ℕ) → p < length pairs.now → IsNew 0 pairs.now p) }
    ensures twice { IfSome result (λ fault. (found ≡ Some fault)
        ⊎ ((found ≡ None) × IsTwiceIn bucket pairs.now fault)) }
{
    if found.is_some() {
        return found;
    }
    match again_in(alloc, pairs) {
        Ok(None) => None,
        Ok(Some(place)) => Some(ListingFault::Twice { bucket, place }),
        Err(Memory) => Some(ListingFault::Memory),
    }
}

/// The first reason why these lists are no listing. Each list is looked through once, while it is at hand:
/// a key that stands twice is kept in mind, since a misplaced record behind it comes before it.
pub(crate) fn first_fault(alloc: Global, root: &Root, lists: &[Vec<Pair>]) -> Option<ListingFault>
    requires { length lists.now ≤ most_buckets }
    ensures home { IfNone result (EachPlace (IsHome root.now.initial root.now.buckets) (map (λ v. v.items) lists.now)) }
    ensures records { IfNone result ((bucket : ℕ) → All IsRecord (list_at (map (λ v. v.items) lists.now) bucket)) }
    ensures new { IfNone result (EachPlace IsNew (map (λ v. v.items) lists.now)) }
    ensures fault { IfSome result (IsFaultAmong root.now.initial root.now.buckets (map (λ v. v.items) lists.now)) }
{
    let mut twice = None;
    for (bucket, list) in lists.iter().enumerate() {
        let bucket = bucket as u32;
        if is_sound(root, bucket, list) {
            continue;
        }
        if let Some(place) = away_in(root, bucket, list) {
            return Some(ListingFault::Misplaced { bucket, place });
        }
        twice = twice_by(alloc, twice, bucket, list);
    }
    twice
}
