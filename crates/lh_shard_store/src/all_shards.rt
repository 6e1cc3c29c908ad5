//! What is done with all shards, one after the other.
ghost use Rattle.std.specs.Prelude.{◌≡◌, length, All, IfOk};
ghost use Rattle.lh_shards.specs.Hands.{AreOf};
ghost use Rattle.lh_shards.specs.Snapshots.{IsScanOf};

use lh_file::{BucketCopy, FileFault};
use lh_shards::{Hands, ShardScan, Shards, SplitFault};
use std::alloc::Global;
use std::sync::Wait;

/// Hands for so many callers, each of which may make these calls on each shard. Where memory runs out, the calls of the
/// hands that were made so far are lost.
pub(crate) fn hands_for(
    alloc: Global,
    shards: &Shards,
    hands: &mut Hands,
    callers: u32,
    calls: u64,
) -> Result<Vec<Hands>, SplitFault>
    requires { AreOf shards.now hands.old }
    ensures given { IfOk result (λ given. All (AreOf shards.now) given.items) }
    ensures count { IfOk result (λ given. length given.items ≡ callers) }
    ensures of { AreOf shards.now hands.new }
{
    let Ok(mut given) = Vec::with_capacity(alloc, callers as usize) else {
        return Err(SplitFault::Memory);
    };
    for _caller in 0..callers {
        let own = shards.split_hands(hands, calls)?;
        given.push_reserved(own);
    }
    Ok(given)
}

/// Gives copies of all buckets of a shard to a closure, one after the other, with no lock held.
fn give_shard<R: Wait, F: FnMut(BucketCopy)>(
    rt: &R,
    shards: &Shards,
    hands: &mut Hands,
    mut scan: ShardScan,
    f: &mut F,
) -> Result<(), FileFault>
    requires scan { IsScanOf shards.now scan }
    requires of { AreOf shards.now hands.old }
    requires callable { F.IsAlwaysCallable f.old }
    ensures of { AreOf shards.now hands.new }
    ensures callable { F.IsAlwaysCallable f.new }
{
    while let Some(copy) = scan.next(rt, shards, hands)? {
        f(copy);
    }
    Ok(())
}

/// The same of all shards.
pub(crate) fn give_all<R: Wait, F: FnMut(BucketCopy)>(
    rt: &R,
    alloc: Global,
    shards: &Shards,
    hands: &mut Hands,
    mut f: F,
) -> Result<(), FileFault>
    requires of { AreOf shards.now hands.old }
    requires callable { F.IsAlwaysCallable f }
    ensures { AreOf shards.now hands.new }
{
    for shard in 0..shards.count() {
        let Ok(scan) = ShardScan::new(alloc, shards, shard) else {
            return Err(FileFault::Memory);
        };
        give_shard(rt, shards, hands, scan, &mut f)?;
    }
    Ok(())
}
