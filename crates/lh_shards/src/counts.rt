//! How many buckets and records all shards have, and how many acts there were.
ghost use Rattle.std.specs.Prelude.{◌≡◌, ◌+◌};
ghost use Rattle.lh_shards.specs.Counts.{IsBucketSum, AreLoads, IsActSum, capped};
ghost use Rattle.lh_shards.specs.Hands.{AreOf};

use crate::hands::Hands;
use crate::shards::SizedShards;
use lh_file::{FileBrand, Load, Mode};

/// What two loads say together.
fn added(first: Load, second: Load) -> Load
    ensures { result ≡ record {
      opening = capped (first.opening + second.opening);
      inserted = capped (first.inserted + second.inserted);
      deleted = capped (first.deleted + second.deleted);
    } }
{
    Load {
        opening: first.opening.saturating_add(second.opening),
        inserted: first.inserted.saturating_add(second.inserted),
        deleted: first.deleted.saturating_add(second.deleted),
    }
}

impl<M: Mode, J: FileBrand, const ROOM: usize> SizedShards<M, J, ROOM> {
    /// The number of buckets of all shards: what each file answers to its hand, one after another. While other hands
    /// work it may be a number that the shards never had at one time.
    pub fn buckets(&self, hands: &mut Hands) -> u64
        requires { AreOf self.now hands.old }
        ensures sum { IsBucketSum self.now hands.old result hands.new }
        ensures of { AreOf self.now hands.new }
    {
        let mut total = 0;
        for shard in 0..self.count() as usize {
            total += self.files[shard].buckets(&mut hands.hands[shard]) as u64;
        }
        total
    }

    /// How many records the shards were opened with, and how many were inserted and deleted since: each number is the
    /// sum of what the files answer to their hands, one after another, or 2^64 - 1 where that is greater.
    pub fn load(&self, hands: &mut Hands) -> Load
        requires { AreOf self.now hands.old }
        ensures sum { AreLoads self.now hands.old result hands.new }
        ensures of { AreOf self.now hands.new }
    {
        let mut total = Load {
            opening: 0,
            inserted: 0,
            deleted: 0,
        };
        for shard in 0..self.files.len() {
            total = added(total, self.files[shard].load(&mut hands.hands[shard]));
        }
        total
    }

    /// How many acts there were so far in all shards: the sum of what each file [tells](HashFile::told) its hand, one
    /// after another, or 2^64 - 1 where that is greater.
    pub fn acts(&self, hands: &mut Hands) -> u64
        requires { AreOf self.now hands.old }
        ensures sum { IsActSum M.traced self.now hands.old result hands.new }
        ensures of { AreOf self.now hands.new }
    {
        let mut total = 0_u64;
        for place in 0..self.files.len() {
            total = total.saturating_add(self.files[place].told(&mut hands.hands[place]));
        }
        total
    }
}
