//! Snapshots of single shards.
ghost use Rattle.std.specs.Prelude.{◌<◌, length};
ghost use Rattle.lh_shards.specs.Hands.{AreOf, AtShard};
ghost use Rattle.lh_shards.specs.Snapshots.{HasSnapshot};

use crate::hands::Hands;
use crate::shards::SizedShards;
use lh_file::{Closed, FileBrand, FileFault, Mode};
use std::sync::Wait;

impl<M: Mode, J: FileBrand, const ROOM: usize> SizedShards<M, J, ROOM> {
    /// A shard at one moment, counted from 0, while calls go on: the [snapshot](lh_file::HashFile::snapshot) of its
    /// file. Each shard's is of a moment of its own. While one is taken, calls on the other shards don't wait.
    ///
    /// Fails when out of memory, or at a bucket that isn't what it has to be. Then nothing is held.
    pub fn snapshot<R: Wait>(
        &self,
        rt: &R,
        hands: &mut Hands,
        shard: u32,
    ) -> Result<Closed, FileFault>
        requires of { AreOf self.now hands.old }
        requires within { shard < length self.now }
        ensures taken { AtShard shard self.now hands.old hands.new (λ file before after.
            HasSnapshot M.traced file before result after) }
        ensures of { AreOf self.now hands.new }
    {
        let shard = shard as usize;
        self.file(shard).snapshot(rt, hands.at(shard))
    }
}
