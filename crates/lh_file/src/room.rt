//! Whether the records of a listing have room in a file's buckets.
ghost use Rattle.std.specs.Prelude.{◌<◌, ℕ, length, IfNone, IfSome, IfErr, OnOk};
ghost use Rattle.lh_file.specs.Buckets.Rooms.{FitsAt, ExceedsAt, FitListing, IsRoomFault};

use crate::buckets::brand::FileBrand;
use crate::fault::RoomFault;
use crate::file::SizedFile;
use crate::gate::Gate;
use lh_bucket::{Listing, WIDEST_ROOM};
use lh_page::Pair;
use lh_words::Mode;

/// The place of the first record of a list that has no room.
fn misfit<const ROOM: usize>(pairs: &[Pair]) -> Option<usize>
    ensures none { IfNone result ((p : ℕ) → p < length pairs.now → FitsAt ROOM 0 pairs.now p) }
    ensures within { IfSome result (λ place. place < length pairs.now) }
    ensures exceeds { IfSome result (λ place. ExceedsAt ROOM 0 pairs.now place) }
    ensures before { IfSome result (λ place. (p : ℕ) → p < place → FitsAt ROOM 0 pairs.now p) }
{
    for (place, pair) in pairs.iter().enumerate() {
        if pair.key.bytes().len() + pair.value.bytes().len() > ROOM {
            return Some(place);
        }
    }
    None
}

impl<G: Gate, M: Mode, J: FileBrand, const ROOM: usize> SizedFile<G, M, J, ROOM> {
    /// Makes sure that the records of a listing have room in the buckets of such a file, so that one may be opened from
    /// it. No record wants for room in a [`HashFile`](crate::HashFile).
    pub fn fit_listing(listing: &Listing) -> Result<(), RoomFault>
        ensures fits { OnOk result (FitListing ROOM listing.now) }
        ensures err { IfErr result (IsRoomFault ROOM listing.now) }
    {
        if ROOM >= WIDEST_ROOM {
            return Ok(());
        }
        for bucket in 0..listing.buckets() {
            if let Some(place) = misfit::<ROOM>(listing.pairs_of(bucket)) {
                return Err(RoomFault { bucket, place });
            }
        }
        Ok(())
    }
}
