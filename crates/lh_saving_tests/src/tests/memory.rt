//! Memory that is refused a store: run with each request for it refused in turn, one in each run. What was there stays,
//! and the same call made again is answered.
use super::disk::{Disk, OnDisk, PATH};
use lh_expect::{expect, expect_eq};
use lh_image::ImageFault;
use lh_store::{
    CallFault, Config, FileFault, LoadFault, Memory, OpenStore, SaveFault, Session, Snapshots,
    Store, Work,
};
use std::alloc::Global;
use std::process::Abort;
use std::sync::Wait;
use std::test::Fail;
use std::thread::Threads;

mod small;

/// Room for an image of ten records, so that the disk asks for no memory.
const ROOM: usize = 65_536;

const REFUSED: CallFault = CallFault::File(FileFault::Memory);

/// Puts a record, and once more where memory was refused, which was no act: whether all went as it has to.
fn put_again<S: Session>(table: &mut S, key: &[u8]) -> bool {
    let left = table.left();
    let mut told = table.put(key, b"1");
    if told == Err(REFUSED) && table.left() == left {
        told = table.put(key, b"1");
    }
    told == Ok(true)
}

/// Puts five records in each thread: whether all went as it has to.
struct Fives;

impl Work for Fives {
    type Done = bool;

    fn run<S: Session>(&self, thread: usize, table: &mut S) -> bool {
        let [.., last] = thread.to_be_bytes();
        let mut is_well = true;
        for number in 0..5_u8 {
            is_well = put_again(table, &[last, number]) && is_well;
        }
        is_well
    }
}

/// An empty store, asked for once more where memory was refused.
fn empty(alloc: Global, config: Config) -> Result<Store, Memory> {
    match Store::new(alloc, config) {
        Ok(store) => Ok(store),
        Err(Memory) => Store::new(alloc, config),
    }
}

/// Lets two threads put ten records, and once more where memory was refused, which leaves the store as it was.
fn fill(
    rt: &(impl Abort + AllocGlobal + Threads + Wait + Sync),
    store: &mut Store,
) -> Result<(), FileFault> {
    let mut ran = store.run(rt, 2, &Fives);
    if let Err(fault) = &ran {
        expect_eq!(rt, (*fault, store.len()), (FileFault::Memory, 0));
        ran = store.run(rt, 2, &Fives);
    }
    let ran = ran?;
    expect!(rt, ran.done.as_slice() == [true, true].as_slice());
    expect_eq!(rt, (ran.acts, store.len()), (10, 10));
    Ok(())
}

/// A store of ten records.
fn ten(rt: &(impl Abort + AllocGlobal + Threads + Wait + Sync)) -> Result<Store, Fail> {
    let mut store = empty(rt.alloc(), Config::default().with_capacity(2)?)?;
    fill(rt, &mut store)?;
    Ok(store)
}

#[test]
fn a_refused_run_leaves_the_records(rt: HostRuntime) -> Result<(), Fail> {
    expect_eq!(&rt, ten(&rt)?.len(), 10);
    Ok(())
}

/// Snapshots of an open store and of its session, taken once more where memory was refused.
fn snapshots_of<R: Abort + Wait>(rt: &R, table: &mut OpenStore) -> Result<(u64, u64), Fail> {
    let first = match table.snapshot(rt) {
        Ok(store) => store.len(),
        Err(fault) => {
            expect_eq!(rt; fault, FileFault::Memory);
            table.snapshot(rt)?.len()
        }
    };
    let mut session = table.session(rt)?;
    let second = match session.snapshot() {
        Ok(store) => store.len(),
        Err(fault) => {
            expect_eq!(rt; fault, REFUSED);
            session.snapshot()?.len()
        }
    };
    Ok((first, second))
}

#[test]
fn a_refused_opening_or_snapshot_may_be_made_again(rt: HostRuntime) -> Result<(), Fail> {
    let (alloc, store) = (rt.alloc(), ten(&rt)?);
    let mut table = match OpenStore::open(alloc, &store) {
        Ok(table) => table,
        Err(Memory) => OpenStore::open(alloc, &store)?,
    };
    expect_eq!(&rt, store.len(), 10);
    expect_eq!(&rt, snapshots_of(&rt, &mut table)?, (10, 10));
    Ok(())
}

/// Whether the five records of each thread are there.
struct AreThere;

impl Work for AreThere {
    type Done = bool;

    fn run<S: Session>(&self, thread: usize, table: &mut S) -> bool {
        let [.., last] = thread.to_be_bytes();
        let mut is_well = true;
        for number in 0..5_u8 {
            is_well = table.contains(&[last, number]) == Ok(true) && is_well;
        }
        is_well
    }
}

/// Lets two threads work on a table of so many records, and once more where memory for that was refused, which leaves
/// the table as it was.
fn run_again<W: Work<Done = bool> + Sync>(
    rt: &(impl Abort + Threads + Wait + Sync),
    table: &mut OpenStore,
    records: u64,
    work: &W,
) -> Result<(), Fail> {
    let mut ran = table.run(rt, 2, work);
    if let Err(Memory) = &ran {
        expect_eq!(rt; table.session(rt)?.len(), records);
        ran = table.run(rt, 2, work);
    }
    expect!(rt, ran?.as_slice() == [true, true].as_slice());
    Ok(())
}

#[test]
fn a_refused_run_of_an_open_store_leaves_the_records(rt: HostRuntime) -> Result<(), Fail> {
    let config = Config::default().with_capacity(2)?;
    let mut table = match OpenStore::new(rt.alloc(), config) {
        Ok(table) => table,
        Err(Memory) => OpenStore::new(rt.alloc(), config)?,
    };
    run_again(&rt, &mut table, 0, &Fives)?;
    run_again(&rt, &mut table, 10, &AreThere)?;
    expect_eq!(&rt, snapshots_of(&rt, &mut table)?, (10, 10));
    Ok(())
}

/// Saves a store, and once more where memory was refused, which leaves the old file and no new one.
fn save_again(
    rt: &impl Abort,
    alloc: Global,
    disk: &Disk,
    store: &Store,
    before: &[u8],
) -> Result<(), Fail> {
    disk.put(before)?;
    match store.save(&(OnDisk(disk), alloc), PATH) {
        Ok(()) => {}
        Err(SaveFault::Memory) => {
            expect!(rt, disk.is_old(before)? && !disk.has_new()?);
            store.save(&(OnDisk(disk), alloc), PATH)?;
        }
        Err(fault) => panic!(rt; "{fault}"),
    }
    Ok(())
}

/// How many records are loaded, once more where memory was refused.
fn load_again(rt: &impl Abort, alloc: Global, disk: &Disk) -> Result<u64, Fail> {
    match Store::load(&(OnDisk(disk), alloc), PATH) {
        Ok(store) => Ok(store.len()),
        Err(LoadFault::Memory | LoadFault::Image(ImageFault::Memory)) => {
            Ok(Store::load(&(OnDisk(disk), alloc), PATH)?.len())
        }
        Err(fault) => panic!(rt; "{fault}"),
    }
}

#[test]
fn a_refused_save_or_load_may_be_made_again(rt: HostRuntime) -> Result<(), Fail> {
    let (alloc, store) = (rt.alloc(), ten(&rt)?);
    let disk = match Disk::new(alloc, ROOM) {
        Ok(disk) => disk,
        Err(_) => Disk::new(alloc, ROOM)?,
    };
    save_again(&rt, alloc, &disk, &store, b"before")?;
    expect_eq!(&rt, store.len(), 10);
    expect_eq!(&rt, load_again(&rt, alloc, &disk)?, 10);
    Ok(())
}
