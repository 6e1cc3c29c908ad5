//! What the acts of a closed file are settled to.

use lh_addr::Config;
use lh_bucket::Listing;
use lh_file::{Acts, Closed, History, Memory, SettleFault, settle};
use std::alloc::Global;

/// The listing of an empty file, asked for once more where memory was refused.
pub fn empty_again(alloc: Global, config: Config) -> Result<Listing, Memory> {
    match Listing::empty(alloc, config) {
        Err(Memory) => Listing::empty(alloc, config),
        listing => listing,
    }
}

/// Settles the acts of a file that was opened from a listing, and once more where memory was refused.
pub fn settle_again(
    alloc: Global,
    opening: &Listing,
    closed: &Closed,
    acts: &Acts,
) -> Result<History, SettleFault> {
    match settle(alloc, opening, closed, acts) {
        Err(SettleFault::Memory) => settle(alloc, opening, closed, acts),
        history => history,
    }
}

/// How many acts of a file that began with no record are settled, if they are.
pub fn settled_acts(alloc: Global, config: Config, closed: &Closed, acts: &Acts) -> Option<usize> {
    let opening = empty_again(alloc, config).ok()?;
    Some(settle_again(alloc, &opening, closed, acts).ok()?.len())
}
