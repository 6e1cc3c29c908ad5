//! How shards are opened from listings.
ghost use Rattle.std.specs.Prelude.{◌≡◌, ◌≢◌, ℕ, ◌<◌, length, IfOk, OnOk, IfErr, IfSome, IfNone};
ghost use Rattle.std.specs.Bool.{OnTrue, OnFalse};
ghost use Rattle.lh_bucket.specs.Listing.{EachPlace, IsFirst};
ghost use Rattle.lh_page.specs.Slots.{IsRoom};
ghost use Rattle.lh_shards.specs.Hands.{IsCount};
ghost use Rattle.lh_shards.specs.Opening.{AreAlike, AreHome, AreOpened, IsAwayIn, IsFirstOfOtherShard, IsFirstOther};
ghost use Rattle.lh_shards.specs.Opening.{IsHomeIn, whole_of};
ghost use Rattle.lh_shards.specs.OpenFault.{IsOpenFault};
ghost use Rattle.lh_shards.specs.Rooms.{FitListings};
ghost use Rattle.lh_shards.specs.Settling.{AreParts};

use crate::fault::OpenFault;
use crate::hands::Hands;
use crate::number::{MOST_SHARDS, shard_of};
use crate::shards::SizedShards;
use lh_addr::{Config, fnv1a};
use lh_bucket::Listing;
use lh_file::{Memory, NoGate, SizedFile, Unbranded, Untraced};
use lh_page::Pair;
use std::alloc::Global;

/// The place of the first record of a bucket whose key belongs to another shard than this one.
fn away_in(pairs: &[Pair], shard: u32, shards: u32) -> Option<usize>
    requires { IsCount shards }
    ensures none { IfNone result ((p : ℕ) → p < length pairs.now → IsHomeIn shards shard 0 pairs.now p) }
    ensures within { IfSome result (λ place. place < length pairs.now) }
    ensures away { IfSome result (λ place. IsAwayIn shards shard 0 pairs.now place) }
    ensures before { IfSome result (λ place. (p : ℕ) → p < place → IsHomeIn shards shard 0 pairs.now p) }
{
    for (place, pair) in pairs.iter().enumerate() {
        if shard_of(fnv1a(pair.key.bytes()), shards) != shard {
            return Some(place);
        }
    }
    None
}

/// The same of a listing: the bucket of the record, and its place there.
fn away_of(listing: &Listing, shard: u32, shards: u32) -> Option<(u32, usize)>
    requires { IsCount shards }
    ensures none { IfNone result (EachPlace (IsHomeIn shards shard) listing.now.lists) }
    ensures some { IfSome result (λ at.
        IsFirst (IsHomeIn shards shard) (IsAwayIn shards shard) listing.now.lists at.0 at.1) }
{
    for bucket in 0..listing.buckets() {
        if let Some(place) = away_in(listing.pairs_of(bucket), shard, shards) {
            return Some((bucket, place));
        }
    }
    None
}

/// Whether a listing has this configuration.
fn has_config(listing: &Listing, config: Config) -> bool
    ensures same { OnTrue result (listing.now.config ≡ config) }
    ensures other { OnFalse result (listing.now.config ≢ config) }
{
    listing.config() == config
}

/// The first listing whose configuration is not that of the first one.
fn first_other(listings: &[Listing]) -> Option<u32>
    requires { IsCount (length listings.now) }
    ensures none { IfNone result (AreAlike listings.now) }
    ensures some { IfSome result (IsFirstOther listings.now) }
{
    let config = listings[0].config();
    for shard in 1..listings.len() {
        if !has_config(&listings[shard], config) {
            return Some(shard as u32);
        }
    }
    None
}

/// The first record in a listing of another shard than its own: its shard, its bucket there and its place in that.
fn first_away(listings: &[Listing]) -> Option<(u32, u32, usize)>
    requires { IsCount (length listings.now) }
    ensures none { IfNone result (AreHome listings.now) }
    ensures some { IfSome result (λ at. IsFirstOfOtherShard listings.now at.0 at.1 at.2) }
{
    let shards = listings.len() as u32;
    for shard in 0..listings.len() {
        if let Some((bucket, place)) = away_of(&listings[shard], shard as u32, shards) {
            return Some((shard as u32, bucket, place));
        }
    }
    None
}

/// Makes sure that shards may be opened from these listings.
pub(crate) fn check(listings: &[Listing]) -> Result<(), OpenFault>
    ensures count { OnOk result (IsCount (length listings.now)) }
    ensures alike { OnOk result (AreAlike listings.now) }
    ensures home { OnOk result (AreHome listings.now) }
    ensures err { IfErr result (IsOpenFault listings.now) }
{
    if listings.is_empty() || listings.len() > MOST_SHARDS as usize {
        return Err(OpenFault::Count);
    }
    if let Some(shard) = first_other(listings) {
        return Err(OpenFault::Config { shard });
    }
    if let Some((shard, bucket, place)) = first_away(listings) {
        return Err(OpenFault::Misplaced {
            shard,
            bucket,
            place,
        });
    }
    Ok(())
}

impl<const ROOM: usize> SizedShards<Untraced, Unbranded, ROOM> {
    /// Shards with the records of listings, one a shard, each record in the bucket where it stands, and the first hand
    /// of each, which may make 2^63 calls. With `recording` each hand keeps its acts.
    ///
    /// It is the way back from closed shards: the listings of shards that were settled have each record in its own
    /// shard. Of shards with less room than [`Shards`](crate::Shards), see first by [`fit_listings`](Self::fit_listings)
    /// that the records have it.
    pub fn open_from(
        alloc: Global,
        listings: &[Listing],
        recording: bool,
    ) -> Result<(Self, Hands), OpenFault>
        requires room { IsRoom ROOM }
        requires fits { FitListings ROOM listings.now }
        ensures opened { IfOk result (λ made. AreOpened listings.now recording made.0 made.1) }
        ensures alike { OnOk result (AreAlike listings.now) }
        ensures home { OnOk result (AreHome listings.now) }
        ensures parts { OnOk result (AreParts (whole_of listings.now) listings.now) }
        ensures err { IfErr result (IsOpenFault listings.now) }
    {
        check(listings)?;
        Ok(SizedShards::opened(alloc, listings, recording)?)
    }

    /// The same, of listings without a fault.
    fn opened(alloc: Global, listings: &[Listing], recording: bool) -> Result<(Self, Hands), Memory>
        requires count { IsCount (length listings.now) }
        requires room { IsRoom ROOM }
        requires fits { FitListings ROOM listings.now }
        ensures { IfOk result (λ made. AreOpened listings.now recording made.0 made.1) }
    {
        let mut files = Vec::with_capacity(alloc, listings.len())?;
        let mut hands = Vec::with_capacity(alloc, listings.len())?;
        for shard in 0..listings.len() {
            let (file, hand) = SizedFile::open_from(alloc, &listings[shard], recording, NoGate)?;
            files.push(file)?;
            hands.push(hand)?;
        }
        Ok((SizedShards { files }, Hands { hands }))
    }
}
