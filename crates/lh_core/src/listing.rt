//! The listing of a world.
ghost use Rattle.std.specs.Prelude.{◌≡◌, ℕ, ◌<◌, map, length, IfOk, OnOk};
ghost use Rattle.lh_bucket.specs.Bucket.{IsKept};
ghost use Rattle.lh_bucket.specs.PlainMap.{Records};
ghost use Rattle.lh_core.specs.declared.state.SplitState.TheVariants as split;
ghost use Rattle.lh_core.specs.Listed.{IsListed};
ghost use Rattle.lh_core.specs.World.{StandsFor, bucket_at};

use crate::laws::linear_hashing;
use crate::world::World;
use lh_bucket::{Bucket, Listing, ListingFault, Memory, copied_pairs};
use lh_page::Pair;
use std::alloc::Global;

/// The records of each bucket of a row.
fn lists_of<B: Bucket>(alloc: Global, buckets: &[B]) -> Result<Vec<Vec<Pair>>, Memory>
    ensures lists { IfOk result (λ lists. map (λ v. v.items) lists.items ≡ map (λ b. (B.seen b).pairs) buckets.now) }
    ensures kept { OnOk result ((i : ℕ) → i < length buckets.now → IsKept (bucket_at (map B.seen buckets.now) i)) }
{
    let mut lists = Vec::with_capacity(alloc, buckets.len())?;
    for bucket in buckets {
        let pairs = copied_pairs(alloc, bucket)?;
        lists.push(pairs)?;
    }
    Ok(lists)
}

impl<B: Bucket> World<B> {
    /// The whole file, where no split is under way: its configuration, and the records of each
    /// bucket in the order of their places. A worker that has a call doesn't stand in the way.
    pub fn listing(&self) -> Result<Listing, Memory>
        requires { self.now.state.splitter ≡ split.Idle }
        ensures lists { IfOk result (λ listing. listing
            ≡ record { config = self.now.config; lists = map (λ b. b.pairs) self.now.buckets }) }
        ensures listed { (map : Records) → StandsFor self.now map →
            IfOk result (IsListed self.now.config map self.now.state.buckets) }
    {
        // Its law: a code has one address.
        linear_hashing();
        let alloc = *self.buckets.allocator();
        let lists = lists_of(alloc, &self.buckets)?;
        match Listing::new(
            alloc,
            self.control.config,
            self.control.root.buckets(),
            lists,
        ) {
            Ok(listing) => Ok(listing),
            Err(fault) => match fault {
                ListingFault::Memory => Err(Memory),
                // Each record of a world stands in its bucket, and no key twice.
                _ => unreachable!(),
            },
        }
    }
}
