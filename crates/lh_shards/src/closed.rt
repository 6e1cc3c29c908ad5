//! Shards that are closed.
ghost use Rattle.std.specs.Prelude.{◌≡◌, ◌<◌, length, slice_get, Some};

use crate::closed_shard::ClosedShard;
use std::marker::Model;

/// Shards that are closed, in their order.
#[derive(Debug, Drop)]
pub struct ClosedShards {
    pub(crate) shards: Vec<ClosedShard>,
}

impl Model for ClosedShards {
    ghost use Rattle.std.specs.Prelude.{List};
    ghost use Rattle.lh_shards.specs.Closing.{AreShards};
    ghost use Rattle.lh_shards.specs.declared.closed_shard.ClosedShard.{ClosedShard};

    ghost Value = { List ClosedShard };

    ghost view = { λ s. s.shards.items };

    ghost invariant = { λ s. AreShards s.shards.items };
}

impl ClosedShards {
    ghost use Rattle.lh_shards.specs.Closing.{AreShards};

    /// The number of shards.
    pub fn count(&self) -> u32
        ensures value { result ≡ length self.now }
        ensures kept { AreShards self.now }
    {
        self.shards.len() as u32
    }

    /// A shard, by its number.
    pub fn shard(&self, number: u32) -> &ClosedShard
        requires { number < length self.now }
        ensures { slice_get self.now number ≡ Some result.now }
    {
        &self.shards[number as usize]
    }
}
