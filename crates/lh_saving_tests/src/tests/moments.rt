//! Snapshots that are saved while other threads write.
use super::disk::{Disk, OnDisk, PATH};
use lh_store::{Config, Session, Snapshots, Store, Work};
use std::alloc::Global;
use std::sync::Wait;
use std::test::Fail;
use std::thread::{self, Threads};

/// A thread's number as a byte.
fn byte_of(thread: usize) -> u8 {
    let [.., last] = thread.to_be_bytes();
    last
}

/// How many records each thread puts that doesn't save.
const EACH: u16 = 2_000;

/// How many of a thread's records a store has, and how many it has to have, which is one more than the highest number.
#[derive(Clone, Copy, Default)]
struct Seen {
    records: u32,
    due: u32,
}

/// Whether a store has just the records that some threads had put at one moment; and whether that is some and not all.
fn is_moment(store: &Store) -> (bool, bool) {
    let mut seen = [Seen::default(); 4];
    let listing = store.listing();
    for bucket in 0..listing.buckets() {
        for pair in listing.pairs_of(bucket) {
            if let [thread, high, low] = pair.key.bytes()
                && let Some(seen) = seen.get_mut(*thread as usize)
            {
                let number = u16::from_be_bytes([*high, *low]);
                seen.records = seen.records.saturating_add(1);
                seen.due = seen.due.max(u32::from(number).saturating_add(1));
            }
        }
    }
    let is_moment = seen.iter().all(|seen| seen.records == seen.due);
    let records = store.len();
    (is_moment, 0 < records && records < 3 * u64::from(EACH))
}

/// Thread 0 saves a snapshot after the other, and loads it, while others put records in the order of their numbers.
#[derive(Drop)]
struct Saving {
    alloc: Global,
}

impl Saving {
    /// Saves a snapshot on a disk of its own, and loads it.
    fn saved<S: Snapshots>(&self, table: &mut S) -> Option<Store> {
        let disk = Disk::new(self.alloc, 0).ok()?;
        let files = (OnDisk(&disk), self.alloc);
        table.snapshot().ok()?.save(&files, PATH).ok()?;
        Store::load(&files, PATH).ok()
    }

    /// How many of the snapshots had some records and not all, until one had all. None where one was of no moment.
    fn save<S: Snapshots>(&self, table: &mut S) -> Option<u32> {
        let mut partial = 0_u32;
        for _ in 0..10_000_u32 {
            let store = self.saved(table)?;
            let (is_moment, is_partial) = is_moment(&store);
            if !is_moment {
                return None;
            }
            partial = partial.saturating_add(u32::from(is_partial));
            if store.len() == 3 * u64::from(EACH) {
                return Some(partial);
            }
        }
        None
    }

    /// Puts the records of a thread.
    fn put<S: Session>(&self, table: &mut S, thread: u8) -> Option<u32> {
        for number in 0..EACH {
            let [high, low] = number.to_be_bytes();
            table.put(&[thread, high, low], b"1").ok()?;
            thread::yield_now();
        }
        Some(0)
    }
}

impl Work for Saving {
    type Done = Option<u32>;

    fn run<S: Snapshots>(&self, thread: usize, table: &mut S) -> Option<u32> {
        if thread == 0 {
            self.save(table)
        } else {
            self.put(table, byte_of(thread))
        }
    }
}

/// How many snapshots of a run were taken while others wrote. None where something went wrong.
fn snapshots_amid(rt: &(impl AllocGlobal + Threads + Wait + Sync)) -> Option<u32> {
    let alloc = rt.alloc();
    let mut store = Store::new(alloc, Config::default()).ok()?;
    let ran = store.run(rt, 4, &Saving { alloc }).ok()?;
    let mut partial = 0_u32;
    for done in ran.done {
        partial = partial.saturating_add(done?);
    }
    if store.len() == 3 * u64::from(EACH) {
        Some(partial)
    } else {
        None
    }
}

#[test]
fn snapshots_are_saved_while_others_write(rt: HostRuntime) -> Result<(), Fail> {
    for _ in 0..100 {
        if snapshots_amid(&rt).ok_or("a snapshot or a call went wrong")? > 0 {
            return Ok(());
        }
    }
    Err(Fail::from("no snapshot was taken while others wrote"))
}
