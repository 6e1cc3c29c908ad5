//! Acts in the order of their stamps.
ghost use Rattle.std.specs.Prelude.{◌≡◌, ◌≢◌, ℕ, ◌+◌, ◌^◌, ◌<◌, ◌≤◌, length, map, slice_index, slice_get, Some, IfOk};
ghost use Rattle.std.specs.Prelude.{IfSome, IfNone};
ghost use Rattle.std.specs.List.{range_with_len, enumerate_from};
ghost use Rattle.std.specs.List.Sorted.{IsPermutation, IsNonDecreasingBy};
ghost use Rattle.lh_settling.specs.Acts.{stamps_of, IsInOrder, FirstDiffer};

use crate::act::ActLine;
use lh_bucket::Memory;
use std::alloc::{AllocError, Global};

/// The stamps of acts, each with the act's place.
fn stamps(alloc: Global, acts: &[ActLine]) -> Result<Vec<(u64, usize)>, AllocError>
    ensures { IfOk result (λ v. v.items ≡ map (λ e. (e.1.stamp, e.0)) (enumerate_from 0 acts.now)) }
{
    acts.iter()
        .enumerate()
        .map(|(place, act)| (act.stamp, place))
        .collect(alloc)
}

/// The stamps of acts with their places, in the order of the stamps.
fn places(alloc: Global, acts: &[ActLine]) -> Result<Vec<(u64, usize)>, Memory>
    ensures same { IfOk result (λ v. IsPermutation (map (λ e. (e.1.stamp, e.0)) (enumerate_from 0 acts.now)) v.items) }
    ensures rising { IfOk result (λ v. IsNonDecreasingBy (λ e. e.0) v.items) }
{
    let mut places = stamps(alloc, acts)?;
    places.sort_unstable_by_key(|place| place.0);
    Ok(places)
}

/// The act at a place.
fn act_at(acts: &[ActLine], place: usize) -> ActLine
    requires { place < length acts.now }
    ensures { slice_get acts.now place ≡ Some result }
{
    acts[place]
}

/// The acts in the order of their stamps.
pub(crate) fn in_order(alloc: Global, acts: &[ActLine]) -> Result<Vec<ActLine>, Memory>
    ensures { IfOk result (λ history. IsInOrder acts.now history.items) }
{
    let places = places(alloc, acts)?;
    let mut history = Vec::with_capacity(alloc, acts.len())?;
    for (_, place) in &places {
        history.push(act_at(acts, *place))?;
    }
    Ok(history)
}

/// How many acts at the front have their place as their stamp.
fn in_step(history: &[ActLine]) -> usize
    ensures within { result ≤ length history.now }
    ensures before { (p : ℕ) → p < result → slice_index (stamps_of history.now) p ≡ p }
    ensures here { result < length history.now → slice_index (stamps_of history.now) result ≢ result }
{
    for (place, act) in history.iter().enumerate() {
        if act.stamp != place as u64 {
            return place;
        }
    }
    history.len()
}

/// The first place where the stamps of acts in their order and the numbers below `drawn` differ.
pub(crate) fn missing_stamp(history: &[ActLine], drawn: u64) -> Option<u64>
    ensures none { IfNone result (stamps_of history.now ≡ range_with_len 0 drawn) }
    ensures first { IfSome result (FirstDiffer (stamps_of history.now) (range_with_len 0 drawn)) }
{
    let same = in_step(history) as u64;
    if same == history.len() as u64 && same == drawn {
        None
    } else {
        Some(same.min(drawn))
    }
}
