//! Settling of closed shards: one history a shard, and one plain map of all.
ghost use Rattle.std.specs.Prelude.{◌≡◌, ◌≢◌, length, IfOk, IfErr};
ghost use Rattle.lh_settling.specs.SettleFault.{IsDue};
ghost use Rattle.lh_settling.specs.Settled.{IsSettled, Settled};
ghost use Rattle.lh_settling.specs.declared.settle_fault.SettleFault.TheVariants.{Memory};
ghost use Rattle.lh_shards.specs.Settling.{AreSettled, IsFirstDue, MakeOneMap};

use crate::closed::ClosedShards;
use crate::closed_shard::ClosedShard;
use crate::fault::ShardFault;
use lh_bucket::Listing;
use lh_file::{History, SettleFault, settle};
use std::alloc::Global;

/// Settles one shard, or says by its number what is wrong there.
fn settle_shard(
    alloc: Global,
    opening: &Listing,
    shard: u32,
    closed: &ClosedShard,
) -> Result<History, ShardFault>
    ensures ok { IfOk result (IsSettled opening.now closed.now.closed closed.now.acts) }
    ensures shard { IfErr result (λ at. at.shard ≡ shard) }
    ensures err { IfErr result (λ at. IsDue opening.now closed.now.closed closed.now.acts at.fault) }
    ensures unsettled { IfErr result (λ at.
        at.fault ≢ Memory → Settled opening.now closed.now.closed closed.now.acts → ⊥) }
{
    match settle(alloc, opening, &closed.closed, &closed.acts) {
        Ok(history) => Ok(history),
        Err(fault) => Err(ShardFault { shard, fault }),
    }
}

impl ClosedShards {
    /// Settles each shard that was opened from the listing at its place: whether its acts are one legal history of a
    /// plain map that begins as the listing, and its file holds just what they leave. Answers the histories, one a
    /// shard, or the first fault with its shard.
    ///
    /// Where all are settled, they are one map: every merge of the histories that keeps the order of each is a legal
    /// history of one plain map, and the closed shards hold the parts of what it leaves.
    ///
    /// ```text
    /// let openings = empty_listings(alloc, config, 8)?;       // what created shards begin as
    /// let histories = closed.settle(alloc, &openings)?;
    /// ```
    pub fn settle(&self, alloc: Global, openings: &[Listing]) -> Result<Vec<History>, ShardFault>
        requires { length openings.now ≡ length self.now }
        ensures ok { IfOk result (λ histories. AreSettled openings.now self.now histories.items) }
        ensures err { IfErr result (IsFirstDue openings.now self.now) }
        ensures one_map { IfOk result (λ histories. MakeOneMap openings.now self.now histories.items) }
    {
        let count = self.count() as usize;
        let Ok(mut histories) = Vec::with_capacity(alloc, count) else {
            return Err(ShardFault {
                shard: 0,
                fault: SettleFault::Memory,
            });
        };
        for shard in 0..count {
            let history = settle_shard(alloc, &openings[shard], shard as u32, &self.shards[shard])?;
            histories.push_reserved(history);
        }
        Ok(histories)
    }
}
