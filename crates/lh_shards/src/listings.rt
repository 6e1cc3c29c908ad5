//! The listings that shards begin as, and those of closed shards.
ghost use Rattle.std.specs.Prelude.{◌≡◌, [], length, replicate, All, IfOk, IfErr};
ghost use Rattle.std.specs.FinMap.{empty};
ghost use Rattle.lh_shards.specs.Listings.{AreListed, IsListingsFault};
ghost use Rattle.lh_shards.specs.Settling.{AreParts};

use crate::closed::ClosedShards;
use crate::closed_shard::ClosedShard;
use crate::fault::ListingsFault;
use lh_addr::Config;
use lh_bucket::{Listing, ListingFault};
use lh_file::Memory;
use std::alloc::Global;

/// Empty listings of a configuration, one a shard: what created shards are settled from. Together they are the empty
/// map.
pub fn empty_listings(alloc: Global, config: Config, shards: u32) -> Result<Vec<Listing>, Memory>
    ensures count { IfOk result (λ listings. length listings.items ≡ shards) }
    ensures each { IfOk result (λ listings. All (λ listing. listing
        ≡ record { config = config; lists = replicate config.initial [] }) listings.items) }
    ensures parts { IfOk result (λ listings. AreParts empty listings.items) }
{
    let mut listings = Vec::with_capacity(alloc, shards as usize)?;
    for _shard in 0..shards {
        let listing = Listing::empty(alloc, config)?;
        listings.push(listing)?;
    }
    Ok(listings)
}

impl ClosedShards {
    /// The closed files as listings of their buckets, one a shard, or the fault that one has as such, with its shard.
    /// The records are moved, so that none is copied; with a fault they are gone.
    ///
    /// The listings of shards that were settled are those that [`Shards::open_from`](crate::Shards::open_from) takes
    /// back.
    pub fn into_listings(self) -> Result<Vec<Listing>, ListingsFault>
        ensures ok { IfOk result (λ listings. AreListed self listings.items) }
        ensures err { IfErr result (IsListingsFault self) }
    {
        let count = self.count();
        let ClosedShards { shards } = self;
        let Ok(mut listings) = Vec::with_capacity(*shards.allocator(), count as usize) else {
            return Err(ListingsFault {
                shard: 0,
                fault: ListingFault::Memory,
            });
        };
        let mut left = shards.into_iter();
        for shard in 0..count {
            let Some(ClosedShard { closed, acts: _ }) = left.next() else {
                unreachable!()
            };
            match closed.into_listing() {
                Ok(listing) => listings.push_reserved(listing),
                Err(fault) => return Err(ListingsFault { shard, fault }),
            }
        }
        Ok(listings)
    }
}
