//! Copies of the records of a bucket.
ghost use Rattle.std.specs.Prelude.{◌≡◌, IfOk};
ghost use Rattle.lh_bucket.specs.Bucket.{IsKept};

use lh_bucket::{Memory, SizedBucket};
use lh_page::Pair;
use std::alloc::Global;

/// A copy of the records of a bucket, in the order of their places.
pub(crate) fn copied_pairs<const ROOM: usize>(
    alloc: Global,
    bucket: &SizedBucket<ROOM>,
) -> Result<Vec<Pair>, Memory>
    ensures pairs { IfOk result (λ pairs. pairs.items ≡ bucket.now.pairs) }
    ensures kept { IsKept bucket.now }
{
    let count = bucket.len();
    let mut pairs = Vec::with_capacity(alloc, count)?;
    for place in 0..count {
        pairs.push(bucket.pair_at(place))?;
    }
    Ok(pairs)
}
