//! The records of a closed file, compared with a map and with their addresses.
ghost use Rattle.std.specs.Prelude.{◌≡◌, ◌≢◌, ℕ, ◌<◌, ◌≤◌, ◌++◌, ◌⊎◌, List, length, map, Some, IfSome, IfNone};
ghost use Rattle.std.specs.Bool.{OnTrue, OnFalse};
ghost use Rattle.lh_addr.specs.Limits.{most_buckets};
ghost use Rattle.lh_page.specs.declared.pair.Pair.{Pair};
ghost use Rattle.lh_bucket.specs.Listing.{EachPlace, IsHome};
ghost use Rattle.lh_bucket.specs.PlainMap.{Records};
ghost use Rattle.lh_settling.specs.Contents.{IsBefore, StandsAs, IsFirstStray, IsLeastAway, IsFirstAway};
ghost use Rattle.lh_settling.specs.Tally.{IsTally};

use crate::plain_map::PlainMap;
use lh_addr::{Root, fnv1a};
use lh_page::{Key, Pair, Value};
use std::cmp::Ordering;

/// The lesser of two keys.
pub(crate) fn lesser(first: Option<Key>, second: Key) -> Key
    ensures either { (first ≡ Some result) ⊎ (result ≡ second) }
    ensures second { (key : List ℕ) → IsBefore key result → IsBefore key second }
    ensures first { IfSome first (λ f. (key : List ℕ) → IsBefore key result → IsBefore key f) }
{
    match first {
        Some(first) => match first.cmp(&second) {
            Ordering::Less => first,
            _ => second,
        },
        None => second,
    }
}

/// Whether this value was found.
fn is_value(found: Option<Value>, value: &Value) -> bool
    ensures same { OnTrue result (found ≡ Some value.now) }
    ensures other { OnFalse result (found ≢ Some value.now) }
{
    match found {
        Some(found) => found == *value,
        None => false,
    }
}

/// Takes the keys of some records out of a map, and answers the least key so far that doesn't stand
/// as the map had it.
fn tally(records: &mut PlainMap, mut stray: Option<Key>, pairs: &[Pair]) -> Option<Key>
    ensures { (m : Records) (done : List Pair) → IsTally m done records.old stray →
        IsTally m (done ++ pairs.now) records.new result }
{
    for pair in pairs {
        let found = records.take(&pair.key);
        if !is_value(found, &pair.value) {
            stray = Some(lesser(stray, pair.key));
        }
    }
    stray
}

/// The least key that doesn't stand in the lists just as in a map.
pub(crate) fn first_stray(mut records: PlainMap, lists: &[Vec<Pair>]) -> Option<Key>
    ensures none { IfNone result ((key : List ℕ) → StandsAs records (map (λ v. v.items) lists.now) key) }
    ensures some { IfSome result (IsFirstStray records (map (λ v. v.items) lists.now)) }
{
    let mut stray = None;
    for list in lists {
        stray = tally(&mut records, stray, list);
    }
    match records.first() {
        Some(key) => Some(lesser(stray, key)),
        None => stray,
    }
}

/// The least key in a bucket's list that has another address.
fn away_in(root: &Root, bucket: u32, pairs: &[Pair]) -> Option<Key>
    ensures none { IfNone result ((place : ℕ) → place < length pairs.now →
        IsHome root.now.initial root.now.buckets bucket pairs.now place) }
    ensures some { IfSome result (IsLeastAway root.now.initial root.now.buckets bucket pairs.now) }
{
    let mut away = None;
    for pair in pairs {
        if root.address(fnv1a(pair.key.bytes())) != bucket {
            away = Some(lesser(away, pair.key));
        }
    }
    away
}

/// The least bucket in which a key stands that has another address, and the least such key there.
pub(crate) fn first_away(root: &Root, lists: &[Vec<Pair>]) -> Option<(u32, Key)>
    requires { length lists.now ≤ most_buckets }
    ensures none { IfNone result (EachPlace (IsHome root.now.initial root.now.buckets) (map (λ v. v.items) lists.now)) }
    ensures some { IfSome result (λ f. IsFirstAway root.now.initial root.now.buckets
        (map (λ v. v.items) lists.now) f.0 f.1) }
{
    for (bucket, list) in lists.iter().enumerate() {
        if let Some(key) = away_in(root, bucket as u32, list) {
            return Some((bucket as u32, key));
        }
    }
    None
}
