//! A file that goes on from a listing.
ghost use Rattle.std.specs.Prelude.{◌≡◌, ◌+◌, ◌^◌, ◌<◌, [], IfOk};
ghost use Rattle.std.specs.FinMap.{len};
ghost use Rattle.lh_bucket.specs.Listing.{size};
ghost use Rattle.lh_core.specs.Opened.{IsListedRow, IsOpenedWorld, listed_at, lists_in, records_of};
ghost use Rattle.lh_core.specs.Serial.{IsSerialFrom};

use crate::control::Control;
use crate::serial_ran::SerialRan;
use crate::state::{SplitState, WorkerState};
use crate::world::World;
use lh_addr::Root;
use lh_addr::laws::{address_is_only_bucket, levels_reach_their_buckets};
use lh_bucket::laws::{listing_is_placed, records_make_a_map};
use lh_bucket::{Call, Listing, Memory, PagedBucket};
use std::alloc::Global;

/// A bucket with the records that a listing has for it, in their order.
fn filled(alloc: Global, listing: &Listing, root: &Root, number: u32) -> Result<PagedBucket, Memory>
    requires initial { root.now.initial ≡ listing.now.config.initial }
    requires buckets { root.now.buckets ≡ size listing.now }
    requires below { number < size listing.now }
    ensures { IfOk result (λ bucket. bucket ≡ listed_at listing.now number) }
{
    // Their laws: what is at home in a list of the listing is at home in the bucket, by its level, and that level
    // reaches the bucket.
    address_is_only_bucket();
    levels_reach_their_buckets();
    let config = listing.config();
    PagedBucket::filled(
        alloc,
        config.initial(),
        config.capacity(),
        number,
        root.level_of(number),
        listing.pairs_of(number),
    )
}

/// The buckets of a listing.
fn listed_row(alloc: Global, listing: &Listing) -> Result<Vec<PagedBucket>, Memory>
    ensures { IfOk result (λ row. IsListedRow listing.now (size listing.now) row.items) }
{
    let root = listing.root();
    let mut row = Vec::with_capacity(alloc, listing.buckets() as usize)?;
    for number in 0..listing.buckets() {
        let bucket = filled(alloc, listing, &root, number)?;
        row.push(bucket)?;
    }
    Ok(row)
}

impl World<PagedBucket> {
    /// The file of a listing, with each record in its place. Nobody is at work.
    pub fn open_from(alloc: Global, listing: &Listing) -> Result<World<PagedBucket>, Memory>
        ensures { IfOk result (IsOpenedWorld listing.now) }
    {
        // Its law: the list of a bucket has just the records of its address.
        listing_is_placed();
        let buckets = listed_row(alloc, listing)?;
        let root = listing.root();
        let control = Control {
            config: listing.config(),
            root,
            filled: root,
            workers: [WorkerState::Idle; 16],
            splitter: SplitState::Idle,
        };
        Ok(World { control, buckets })
    }
}

/// The number of records of a listing. Where so many calls could make it 2^64, memory counts as run out.
pub fn count_before(listing: &Listing, calls: usize) -> Result<u64, Memory>
    ensures count { IfOk result (λ records. records ≡ len (records_of listing.now)) }
    ensures room { IfOk result (λ records. records + calls < 2 ^ 64) }
{
    // Its law: a map has as many records as a list that names no key twice.
    records_make_a_map();
    // A listing names none twice.
    let _ = listing.buckets();
    let records = listing.len();
    if calls as u64 >= u64::MAX - records {
        return Err(Memory);
    }
    Ok(records)
}

/// Serves calls one after another on the file of a listing, which goes on growing by the split policy.
///
/// It fails only where memory runs out, which it has long before records and calls together are 2^64.
pub fn serial_from(
    alloc: Global,
    listing: &Listing,
    calls: &[Call],
) -> Result<SerialRan<PagedBucket>, Memory>
    ensures served { IfOk result (λ ran. IsSerialFrom listing.now.config (records_of listing.now) (size listing.now)
        calls.now ran.replies.items ran.world) }

    // Without a call each bucket has its records in the listing's order.
    ensures unchanged { calls.now ≡ [] → IfOk result (λ ran. lists_in ran.world.buckets ≡ listing.now.lists) }
{
    let records = count_before(listing, calls.len())?;
    let mut world = World::open_from(alloc, listing)?;
    let replies = world.serve_all(alloc, calls, records)?;
    Ok(SerialRan { replies, world })
}
