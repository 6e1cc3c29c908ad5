//! Whether snapshots are what they have to be.
use lh_bucket::{Listing, ListingFault};
use lh_file::{Acts, Closed, SettleFault, settle_snapshot};
use lh_page::Pair;
use std::alloc::Global;

/// The records of each bucket, each by two bytes: its key and its value.
pub(crate) type Buckets = &'static [&'static [u8]];

/// The records of a snapshot that depend on the schedule.
pub(crate) const ANY: Buckets = &[];

/// Whether a record is there.
fn has(pairs: &[Pair], key: &[u8], value: &[u8]) -> bool {
    for pair in pairs {
        if pair.key.bytes() == key && pair.value.bytes() == value {
            return true;
        }
    }
    false
}

/// Whether these records are there, and no others.
fn has_just(pairs: &[Pair], records: &[u8]) -> bool {
    for record in records.chunks_exact(2) {
        if record.len() != 2 || !has(pairs, &record[..1], &record[1..]) {
            return false;
        }
    }
    pairs.len() == records.len() / 2
}

/// Whether these are the records of each bucket.
fn lists(listing: &Listing, buckets: Buckets) -> bool {
    let count = listing.buckets();
    if count as usize != buckets.len() {
        return false;
    }
    for bucket in 0..count {
        if !has_just(listing.pairs_of(bucket), buckets[bucket as usize]) {
            return false;
        }
    }
    true
}

/// Whether a snapshot holds just what the acts before it leave. Asked for once more where memory was refused.
fn settles(alloc: Global, opening: &Listing, snapshot: &Closed, acts: &Acts) -> bool {
    let history = match settle_snapshot(alloc, opening, snapshot, acts) {
        Err(SettleFault::Memory) => settle_snapshot(alloc, opening, snapshot, acts),
        history => history,
    };
    match history {
        Ok(history) => history.len() as u64 == snapshot.stamps(),
        Err(_) => false,
    }
}

/// The listing of a snapshot, asked for once more where memory was refused.
fn listing_of(snapshot: Closed) -> Option<Listing> {
    let copied = match snapshot.listing() {
        Err(ListingFault::Memory) => snapshot.listing(),
        listing => listing,
    };
    match snapshot.into_listing() {
        Err(ListingFault::Memory) => copied.ok(),
        listing => listing.ok(),
    }
}

/// Whether a snapshot is settled, and has these records, where they don't depend on the schedule.
fn is_sound(alloc: Global, opening: &Listing, acts: &Acts, snapshot: Closed, due: Buckets) -> bool {
    if snapshot.split_open() || !settles(alloc, opening, &snapshot, acts) {
        return false;
    }
    match listing_of(snapshot) {
        Some(listing) => due.is_empty() || lists(&listing, due),
        None => false,
    }
}

/// The place of the first snapshot that isn't settled, or hasn't the records that are due.
pub(crate) fn first_unsound(
    alloc: Global,
    opening: &Listing,
    acts: &Acts,
    taken: Vec<Closed>,
    due: &'static [Buckets],
) -> Option<usize> {
    for (place, snapshot) in taken.into_iter().enumerate() {
        let due = due.get(place).copied().unwrap_or(ANY);
        if !is_sound(alloc, opening, acts, snapshot, due) {
            return Some(place);
        }
    }
    None
}
