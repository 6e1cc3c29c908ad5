//! Whether the records of listings have room in the buckets of shards.
ghost use Rattle.std.specs.Prelude.{IfErr, OnOk};
ghost use Rattle.lh_shards.specs.Rooms.{FitListings, IsShardRoomFault};

use crate::fault::ShardRoomFault;
use crate::shards::SizedShards;
use lh_bucket::Listing;
use lh_file::{FileBrand, Mode, NoGate, SizedFile};

impl<M: Mode, J: FileBrand, const ROOM: usize> SizedShards<M, J, ROOM> {
    /// Makes sure that the records of listings have room in the buckets of such shards, so that these may be opened from
    /// them. No record wants for room in [`Shards`](crate::Shards).
    pub fn fit_listings(listings: &[Listing]) -> Result<(), ShardRoomFault>
        ensures fits { OnOk result (FitListings ROOM listings.now) }
        ensures err { IfErr result (IsShardRoomFault ROOM listings.now) }
    {
        for shard in 0..listings.len() {
            match SizedFile::<NoGate, M, J, ROOM>::fit_listing(&listings[shard]) {
                Ok(()) => {}
                Err(fault) => return Err(ShardRoomFault { shard, fault }),
            }
        }
        Ok(())
    }
}
