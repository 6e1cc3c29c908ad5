//! Copies of the records of a bucket.
ghost use Rattle.std.specs.Prelude.{◌≡◌, ℕ, ◌<◌, List, length, slice_get, Some, IfOk};
ghost use Rattle.lh_page.specs.declared.pair.Pair.{Pair};
ghost use Rattle.lh_bucket.specs.Bucket.{IsKept};

use crate::bucket::Bucket;
use lh_page::{Memory, Pair};
use std::alloc::Global;

/// A copy of the records of a bucket, in the order of their places.
pub fn copied_pairs<B: Bucket>(alloc: Global, bucket: &B) -> Result<Vec<Pair>, Memory>
    ensures pairs { IfOk result (λ pairs. pairs.items ≡ (B.seen bucket.now).pairs) }
    ensures kept { IsKept (B.seen bucket.now) }
{
    let count = bucket.len();
    by_place(alloc, count, |place| bucket.pair_at(place))
}

/// The records of all places below a number, in their order.
pub(crate) fn by_place<F: Fn(usize) -> Pair>(
    alloc: Global,
    count: usize,
    pair_at: F,
) -> Result<Vec<Pair>, Memory>
    requires { (place : ℕ) → place < count → F.pre pair_at place }
    // Where each place gives the record that a list has there, they are the list.
    ensures { IfOk result (λ pairs. (all : List Pair) → length all ≡ count →
        ((place : ℕ) (pair : Pair) → place < count → F.post pair_at place pair → slice_get all place ≡ Some pair) →
        pairs.items ≡ all) }
{
    let mut pairs = Vec::with_capacity(alloc, count)?;
    for place in 0..count {
        pairs.push(pair_at(place))?;
    }
    Ok(pairs)
}
