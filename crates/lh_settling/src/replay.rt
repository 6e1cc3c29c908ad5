//! A history taken through a plain map.
ghost use Rattle.std.specs.Prelude.{◌≡◌, ◌≢◌, ◌<◌, IfOk, IfErr, OnOk};
ghost use Rattle.std.specs.Bool.{OnTrue, OnFalse};
ghost use Rattle.lh_bucket.specs.Listing.{list_at, size};
ghost use Rattle.lh_bucket.specs.PlainMap.{outcome};
ghost use Rattle.lh_settling.specs.Replay.{calls_inserting};
ghost use Rattle.lh_settling.specs.Settled.{map_in, left_by, IsLegal};
ghost use Rattle.lh_settling.specs.SettleFault.{IsReplayFault};

use crate::act::ActLine;
use crate::plain_map::PlainMap;
use crate::settle_fault::SettleFault;
use lh_bucket::{Call, Listing, Memory, Reply};
use std::alloc::Global;

/// Inserts the records of a listing's bucket.
fn add_bucket(records: &mut PlainMap, listing: &Listing, bucket: u32) -> Result<(), Memory>
    requires { bucket < size listing.now }
    ensures { OnOk result (records.new ≡ outcome records.old (calls_inserting (list_at listing.now.lists bucket))) }
{
    for place in 0..listing.len_of(bucket) {
        let pair = listing.pair_at(bucket, place);
        let _reply = records.serve(&Call::Insert(pair.key, pair.value))?;
    }
    Ok(())
}

/// The map that a listing stands for, with room for this many records.
fn map_in(alloc: Global, listing: &Listing, room: usize) -> Result<PlainMap, Memory>
    ensures { IfOk result (λ m. m ≡ map_in listing.now) }
{
    let mut records = PlainMap::with_capacity(alloc, room)?;
    for bucket in 0..listing.buckets() {
        add_bucket(&mut records, listing, bucket)?;
    }
    Ok(records)
}

/// Whether two replies are the same.
fn is_same(given: &Reply, due: &Reply) -> bool
    ensures same { OnTrue result (given.now ≡ due.now) }
    ensures other { OnFalse result (given.now ≢ due.now) }
{
    given == due
}

/// What the calls of a history leave of a listing's map, or the first reply that is not the map's. There
/// is room for this many records from the start.
pub(crate) fn replay(
    alloc: Global,
    opening: &Listing,
    history: &[ActLine],
    room: usize,
) -> Result<PlainMap, SettleFault>
    ensures legal { IfOk result (λ _. IsLegal opening.now history.now) }
    ensures left { IfOk result (λ m. m ≡ left_by opening.now history.now) }
    ensures err { IfErr result (IsReplayFault opening.now history.now) }
{
    let mut records = map_in(alloc, opening, room)?;
    for (place, act) in history.iter().enumerate() {
        let due = records.serve(&act.call)?;
        if !is_same(&act.reply, &due) {
            return Err(SettleFault::Reply {
                stamp: place as u64,
                given: act.reply,
                due,
            });
        }
    }
    Ok(records)
}
