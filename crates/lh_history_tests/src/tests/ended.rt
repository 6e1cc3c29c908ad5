//! Traced files that are closed, and what they tell then.
ghost use Rattle.lh_file.specs.FileState.{IsOf};

use lh_bucket::Listing;
use lh_file::{FileBrand, Gate, Hand, HashFile, Traced};
use lh_stage::settle_again;
use std::alloc::Global;
use std::sync::Wait;

/// A file whose history is traced. `J` names its table.
pub(crate) type File<G, J> = HashFile<G, Traced, J>;

/// What a closed file tells: how many acts its history has, whether all its buckets were gathered, how many records it
/// has, and how many recorded acts were settled, if they were.
#[derive(Clone, Copy, Debug, PartialEq, Eq)]
pub(crate) struct Ended {
    pub(crate) told: u64,
    pub(crate) gathered: bool,
    pub(crate) records: u64,
    pub(crate) settled: Option<usize>,
}

/// Closes a file that was opened from a listing, unless there is no memory.
pub(crate) fn close<G: Gate + Drop, J: FileBrand, R: Wait>(
    rt: &R,
    alloc: Global,
    listing: &Listing,
    file: File<G, J>,
    mut hand: Hand,
) -> Option<Ended>
    requires { IsOf file.state hand }
{
    let told = file.told(&mut hand);
    let (closed, acts) = file.close(rt, hand).ok()?;
    Some(Ended {
        told,
        gathered: closed.gathered(),
        records: closed.records(),
        settled: settle_again(alloc, listing, &closed, &acts)
            .ok()
            .map(|history| history.len()),
    })
}
