//! Tables at rest, and what threads do with them.
ghost use Rattle.std.specs.Prelude.{◌≡◌, ◌-◌, ◌^◌, true, false, replicate, [], length, min, IfOk, OnErr};
ghost use Rattle.lh_bucket.specs.Listing.{count_of};
ghost use Rattle.lh_file.specs.Buckets.Brands.{IsBrandOf};
ghost use Rattle.lh_store.specs.Histories.{IsOneHistory};

use crate::disk::{LoadFault, SaveFault, load, save};
use crate::file_session::{FileSession, SessionName};
use crate::snapshots::Snapshots;
use crate::threads::on_threads;
use lh_addr::Config;
use lh_bucket::Listing;
use lh_file::{FileBrand, FileFault, Memory, NoGate, Opening, Traced};
use std::alloc::Global;
use std::fs::Files;
use std::marker::{Brand, Model};
use std::sync::Wait;
use std::thread::Threads;

/// What threads do with a table while it is open.
pub trait Work {
    /// What comes of it, by thread.
    type Done;

    /// Does the part of one thread, with a session of its own. Threads are numbered from 0.
    fn run<S: Snapshots>(&self, thread: usize, table: &mut S) -> Self::Done;
}

/// What came of the work of each thread, in their order, and how many acts all have made.
#[derive(Debug, Drop)]
pub struct WorkDone<T> {
    pub done: Vec<T>,
    pub acts: u64,
}

/// The records of a table that nobody works on, bucket by bucket.
#[derive(Debug, Drop)]
pub struct Store {
    listing: Listing,
}

impl Model for Store {
    ghost use Rattle.lh_bucket.specs.Listing.{Lists};

    ghost Value = { Lists };

    ghost view = { λ store. store.listing };
}

impl Store {
    /// A table with no records.
    pub fn new(alloc: Global, config: Config) -> Result<Store, Memory>
        ensures { IfOk result (λ store. store ≡ record { config = config; lists = replicate config.initial [] }) }
    {
        Ok(Store {
            listing: Listing::empty(alloc, config)?,
        })
    }

    /// A table with these records.
    pub fn of(listing: Listing) -> Store
        ensures { result ≡ listing }
    {
        Store { listing }
    }

    /// Its records.
    pub fn listing(&self) -> &Listing
        ensures { result.now ≡ self.now }
    {
        &self.listing
    }

    /// The number of records.
    pub fn len(&self) -> u64
        ensures { result ≡ min (count_of self.now.lists) (2 ^ 64 - 1) }
    {
        self.listing.len()
    }

    /// Opens the table, lets threads work on it, and keeps what they leave.
    ///
    /// Meanwhile it is a traced file, so whatever the schedule is, all their calls are one legal history of a plain map, and
    /// the records are just what that leaves. Where memory runs out, before the work or after it, the records are what they
    /// were before.
    pub fn run<R: AllocGlobal + Threads + Wait + Sync, W: Work + Sync>(
        &mut self,
        rt: &R,
        threads: u32,
        work: &W,
    ) -> Result<WorkDone<W::Done>, FileFault>
    where
        W::Done: Send + Drop,
        ensures ok { IfOk result (λ made. IsOneHistory self.old made.acts self.new) }
        ensures count { IfOk result (λ made. length made.done.items ≡ threads) }
        ensures err { OnErr result (self.new ≡ self.old) }
    {
        let alloc = rt.alloc();
        let opening = Opening::of(alloc, &self.listing, false, NoGate)?;
        let (made, left) = run_from::<Brand, Brand, R, W>(rt, alloc, opening, threads, work)?;
        *self = left;
        Ok(made)
    }

    /// Saves the records as an image of version 2 under this path, as [`save`] does.
    pub fn save<R: Files + AllocGlobal>(&self, rt: &R, path: &str) -> Result<(), SaveFault> {
        save(rt, rt.alloc(), &self.listing, path)
    }

    /// The records of an image of either version under this path.
    pub fn load<R: Files + AllocGlobal>(rt: &R, path: &str) -> Result<Store, LoadFault> {
        Ok(Store::of(load(rt, rt.alloc(), path)?))
    }
}

/// Lets threads work on a table that is being opened: what came of it, and the records that they leave.
fn run_from<J, B, R, W>(
    rt: &R,
    alloc: Global,
    opening: Opening<'_, NoGate>,
    threads: u32,
    work: &W,
) -> Result<(WorkDone<W::Done>, Store), FileFault>
where
    J: FileBrand + Send + Sync,
    B: SessionName + Send + Sync,
    R: Threads + Wait + Sync,
    W: Work + Sync,
    W::Done: Send + Drop,
    requires brand { IsBrandOf true J.named J.tables opening }
    requires named { B.is_named ≡ true }
    requires state { B.state ≡ opening }
    requires plain { opening.recording ≡ false }
    ensures history { IfOk result (λ made. IsOneHistory opening.entry.listing made.0.acts made.1) }
    ensures count { IfOk result (λ made. length made.0.done.items ≡ threads) }
{
    let (file, hand) = opening.file::<J>()?;
    let mut session: FileSession<'_, R, Traced, J, B> = FileSession::new(rt, alloc, &file, hand);
    let done = on_threads(
        rt,
        &mut session,
        threads,
        |thread: usize, own: &mut FileSession<'_, R, Traced, J, B>| work.run(thread, own),
    )?;
    let (left, acts) = session.left_by_all()?;
    Ok((WorkDone { done, acts }, left))
}
