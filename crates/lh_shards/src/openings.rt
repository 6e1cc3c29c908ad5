//! Traced shards that are being opened.
ghost use Rattle.std.specs.Prelude.{◌≡◌, ℕ, true, length, IfOk, OnOk, IfErr};
ghost use Rattle.lh_page.specs.Slots.{IsRoom};
ghost use Rattle.lh_shards.specs.Hands.{IsCount};
ghost use Rattle.lh_shards.specs.OpenFault.{IsOpenFault};
ghost use Rattle.lh_shards.specs.Opening.{AreAlike, AreHome, whole_of};
ghost use Rattle.lh_shards.specs.Openings.{AreBegun, AreBrandsOf, AreTraced, tables_of};
ghost use Rattle.lh_shards.specs.Rooms.{FitFiles, FitListings};
ghost use Rattle.lh_shards.specs.Settling.{AreParts};

use crate::fault::OpenFault;
use crate::hands::Hands;
use crate::opening::check;
use crate::shards::{Shards, SizedShards};
use lh_bucket::Listing;
use lh_file::{FileBrand, Memory, NoGate, Opening, Traced, WIDEST_ROOM};
use std::alloc::Global;
use std::marker::Model;

/// Traced shards that are being opened: the tables of their files are made, and no type names them yet.
///
/// The type of traced shards names all their tables, each by its shard, as that of one traced file names its own (see
/// [`Opening`]). A function that is generic in the names opens the shards and uses them:
///
/// ```text
/// fn count<J: FileBrand, R: Wait>(rt: &R, openings: Openings<'_>) -> Result<u64, Memory>
///     requires { AreBrandsOf J.named J.tables openings }
/// {
///     let (shards, mut hands) = openings.shards::<J>()?;
///     ..
/// }
///
/// count::<Brand, _>(&rt, Openings::of(alloc, &listings, true)?)
/// ```
#[derive(Drop)]
pub struct Openings<'a> {
    openings: Vec<Opening<'a, NoGate>>,
}

impl<'a> Model for Openings<'a> {
    ghost use Rattle.std.specs.Prelude.{List, length};
    ghost use Rattle.lh_file.specs.FileState.{FileState};
    ghost use Rattle.lh_shards.specs.Hands.{IsCount};

    ghost Value = { List FileState };

    ghost view = { λ o. o.openings.items };

    ghost invariant = { λ o. IsCount (length o.openings.items) };
}

impl<'a> Openings<'a> {
    /// Shards with the records of listings, as [`Shards::open_from`] opens them, whose histories are traced.
    pub fn of(
        alloc: Global,
        listings: &'a [Listing],
        recording: bool,
    ) -> Result<Openings<'a>, OpenFault>
        ensures begun { IfOk result (AreBegun listings.now recording) }
        ensures brands { IfOk result (λ openings. AreBrandsOf true (tables_of openings) openings) }
        ensures fit { IfOk result (λ openings. (room : ℕ) → FitListings room listings.now → FitFiles room openings) }
        ensures alike { OnOk result (AreAlike listings.now) }
        ensures home { OnOk result (AreHome listings.now) }
        ensures parts { OnOk result (AreParts (whole_of listings.now) listings.now) }
        ensures err { IfErr result (IsOpenFault listings.now) }
    {
        check(listings)?;
        Ok(Openings::begun(alloc, listings, recording)?)
    }

    /// The same, of listings without a fault.
    fn begun(
        alloc: Global,
        listings: &'a [Listing],
        recording: bool,
    ) -> Result<Openings<'a>, Memory>
        requires { IsCount (length listings.now) }
        ensures { IfOk result (AreBegun listings.now recording) }
    {
        let mut openings = Vec::with_capacity(alloc, listings.len())?;
        for shard in 0..listings.len() {
            let opening = Opening::of_shard(
                alloc,
                &listings[shard],
                recording,
                NoGate,
                shard as u32,
            )?;
            openings.push(opening)?;
        }
        Ok(Openings { openings })
    }

    /// The shards, and the first hand of each, which may make 2^63 calls. Fails only when out of memory, and then the
    /// shards are gone.
    pub fn shards<J: FileBrand>(self) -> Result<(Shards<Traced, J>, Hands), Memory>
        requires { AreBrandsOf J.named J.tables self }
        ensures traced { IfOk result (λ made. AreTraced self.entry made.0 made.1) }
    {
        self.sized_shards::<J, WIDEST_ROOM>()
    }

    /// The same, of shards whose records have `ROOM` bytes each.
    pub fn sized_shards<J: FileBrand, const ROOM: usize>(
        self,
    ) -> Result<(SizedShards<Traced, J, ROOM>, Hands), Memory>
        requires brands { AreBrandsOf J.named J.tables self }
        requires room { IsRoom ROOM }
        requires fits { FitFiles ROOM self }
        ensures traced { IfOk result (λ made. AreTraced self.entry made.0 made.1) }
    {
        let count = self.openings.len();
        let Openings { openings } = self;
        let mut files = Vec::with_capacity(*openings.allocator(), count)?;
        let mut hands = Vec::with_capacity(*openings.allocator(), count)?;
        let mut left = openings.into_iter();
        for _shard in 0..count {
            let Some(opening) = left.next() else {
                unreachable!()
            };
            let (file, hand) = opening.sized_file::<J, ROOM>()?;
            files.push(file)?;
            hands.push(hand)?;
        }
        Ok((SizedShards { files }, Hands { hands }))
    }
}
