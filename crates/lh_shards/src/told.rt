//! What hands are told of the histories of traced shards.
ghost use Rattle.std.specs.Prelude.{◌<◌, length};
ghost use Rattle.lh_file.specs.History.Telling.{HasTold};
ghost use Rattle.lh_shards.specs.Hands.{AreOf, AtShard};

use crate::hands::Hands;
use crate::shards::SizedShards;
use lh_file::{FileBrand, Mode};

impl<M: Mode, J: FileBrand, const ROOM: usize> SizedShards<M, J, ROOM> {
    /// How many acts there were so far in a shard, counted from 0: what its file tells its hand. The acts of traced
    /// shards are one legal history for each, and no number tells how those of two shards are ordered: that is known
    /// as far as callers exchange what each shard told.
    pub fn told(&self, hands: &mut Hands, shard: u32) -> u64
        requires of { AreOf self.now hands.old }
        requires within { shard < length self.now }
        ensures told { AtShard shard self.now hands.old hands.new (λ file before after.
            HasTold M.traced file before result after) }
        ensures of { AreOf self.now hands.new }
    {
        let shard = shard as usize;
        self.file(shard).told(hands.at(shard))
    }
}
