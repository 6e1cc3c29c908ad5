//! Images that stores are saved to and loaded from.
use super::disk::{Disk, OnDisk, PATH, Turn};
use lh_expect::{expect, expect_eq};
use lh_image::ImageFault;
use lh_store::{CallFault, Config, LoadFault, SaveFault, Session, Store, Work};
use std::alloc::Global;
use std::io::ErrorKind;
use std::process::Abort;
use std::sync::Wait;
use std::test::Fail;
use std::thread::Threads;

/// Puts as many records as it says, each with the number of its key.
#[derive(Drop)]
struct Putting(pub u8);

impl Work for Putting {
    type Done = Result<(), CallFault>;

    fn run<S: Session>(&self, _thread: usize, table: &mut S) -> Self::Done {
        for number in 0..self.0 {
            table.put(&[number], &[number])?;
        }
        Ok(())
    }
}

/// The number of the first record that isn't there, of those that were put.
#[derive(Drop)]
struct Missing(u8);

impl Work for Missing {
    type Done = Result<Option<u8>, CallFault>;

    fn run<S: Session>(&self, _thread: usize, table: &mut S) -> Self::Done {
        for number in 0..self.0 {
            let found = table.with_value(&[number], |bytes: &[u8]| bytes == [number].as_slice())?;
            if found != Some(true) {
                return Ok(Some(number));
            }
        }
        Ok(None)
    }
}

/// A store of so many records, in thirty buckets, so that its image takes two writes.
fn store_of(rt: &(impl AllocGlobal + Threads + Wait + Sync), records: u8) -> Result<Store, Fail> {
    let mut store = Store::new(rt.alloc(), Config::default().with_initial(30)?)?;
    let ran = store.run(rt, 1, &Putting(records))?;
    for done in ran.done {
        done?;
    }
    Ok(store)
}

/// How many records are loaded, and the text of the fault where there are none.
fn loaded(disk: &Disk, alloc: Global) -> Result<u64, LoadFault> {
    Ok(Store::load(&(OnDisk(disk), alloc), PATH)?.len())
}

/// Where there is no file yet, one is made, written, synced and renamed, and then the folder is synced.
const SAVED: [Turn; 9] = [
    Turn::Follow,
    Turn::Look,
    Turn::Create,
    Turn::Write,
    Turn::Write,
    Turn::Sync,
    Turn::Rename,
    Turn::OpenFolder,
    Turn::SyncFolder,
];

/// Looks for turns in their order, and for nothing after them.
fn expect_turns(rt: &impl Abort, disk: &Disk, due: &[Turn]) -> Result<(), Fail> {
    for place in 0..due.len() {
        expect_eq!(
            rt,
            disk.turn(place.saturating_add(1))?,
            due.get(place).copied()
        );
    }
    expect_eq!(rt, disk.turn(due.len().saturating_add(1))?, None);
    Ok(())
}

#[test]
fn a_store_is_saved_and_loaded(rt: HostRuntime) -> Result<(), Fail> {
    let alloc = rt.alloc();
    let store = store_of(&rt, 200)?;
    let disk = Disk::new(alloc, 0)?;
    store.save(&(OnDisk(&disk), alloc), PATH)?;
    expect_turns(&rt, &disk, &SAVED)?;
    let mut again = Store::load(&(OnDisk(&disk), alloc), PATH)?;
    expect_eq!(
        &rt,
        (again.len(), again.listing().buckets()),
        (200, store.listing().buckets())
    );
    let ran = again.run(&rt, 1, &Missing(200))?;
    expect_eq!(&rt, ran.done.first(), Some(&Ok(None)));
    Ok(())
}

/// Which turn a fault names. A write is told without the system's reason.
fn turn_of(fault: SaveFault) -> Option<Turn> {
    match fault {
        SaveFault::Memory => None,
        SaveFault::Create(_) => Some(Turn::Create),
        SaveFault::Image(_) => Some(Turn::Write),
        SaveFault::Sync(_) => Some(Turn::Sync),
        SaveFault::Rename(_) => Some(Turn::Rename),
        SaveFault::Folder(_) => Some(Turn::SyncFolder),
    }
}

/// What came of a save of which a turn was refused.
#[derive(Debug, PartialEq, Eq, Drop)]
struct Refused {
    fault: Option<Turn>,
    has_new: bool,
    records: Option<u64>,
}

/// Saves a store where the file of another is, and one turn is refused.
fn save_refused(
    alloc: Global,
    disk: &Disk,
    before: &Store,
    store: &Store,
    turn: usize,
) -> Result<Refused, Fail> {
    disk.refuse(0)?;
    before.save(&(OnDisk(disk), alloc), PATH)?;
    disk.refuse(turn)?;
    let fault = store
        .save(&(OnDisk(disk), alloc), PATH)
        .err()
        .and_then(turn_of);
    disk.refuse(0)?;
    Ok(Refused {
        fault,
        has_new: disk.has_new()?,
        records: loaded(disk, alloc).ok(),
    })
}

/// The fault that is told, and how many records are there then: 3 as before, or the 5 that were saved. A new file is not
/// made where the old one's path, its permissions, the making itself, or the giving of permissions is refused.
const REFUSED: [(Turn, u64); 10] = [
    (Turn::Create, 3),
    (Turn::Create, 3),
    (Turn::Create, 3),
    (Turn::Create, 3),
    (Turn::Write, 3),
    (Turn::Write, 3),
    (Turn::Sync, 3),
    (Turn::Rename, 3),
    (Turn::SyncFolder, 5),
    (Turn::SyncFolder, 5),
];

/// The old file is whole until the new one has its name, and no new one is left beside it.
#[test]
fn a_refused_save_leaves_the_old_file(rt: HostRuntime) -> Result<(), Fail> {
    let alloc = rt.alloc();
    let (three, five) = (store_of(&rt, 3)?, store_of(&rt, 5)?);
    let disk = Disk::new(alloc, 0)?;
    for (place, (turn, records)) in REFUSED.iter().enumerate() {
        let told = save_refused(alloc, &disk, &three, &five, place.saturating_add(1))?;
        let due = Refused {
            fault: Some(*turn),
            has_new: false,
            records: Some(*records),
        };
        expect_eq!(rt; told, due);
    }
    Ok(())
}

/// How many records are loaded, or why none are.
fn loading_of(disk: &Disk, alloc: Global) -> Loading {
    match loaded(disk, alloc) {
        Ok(records) => Loading::Records(records),
        Err(LoadFault::Memory) => Loading::NoMemory,
        Err(LoadFault::Open(error)) => Loading::Open(error.kind()),
        Err(LoadFault::Image(fault)) => Loading::Image(fault),
    }
}

/// What came of loading: an error has no equality.
#[derive(Debug, PartialEq, Eq, Drop)]
enum Loading {
    Records(u64),
    NoMemory,
    Open(ErrorKind),
    Image(ImageFault),
}

/// What isn't there, what isn't an image, and an opening or a read that is refused.
#[test]
fn what_is_not_loaded_is_told(rt: HostRuntime) -> Result<(), Fail> {
    let alloc = rt.alloc();
    let disk = Disk::new(alloc, 0)?;
    expect_eq!(
        &rt,
        loading_of(&disk, alloc),
        Loading::Open(ErrorKind::NotFound)
    );
    disk.put(b"LHF3")?;
    expect_eq!(
        &rt,
        loading_of(&disk, alloc),
        Loading::Image(ImageFault::Magic)
    );
    disk.put(b"LHF2")?;
    expect_eq!(
        &rt,
        loading_of(&disk, alloc),
        Loading::Image(ImageFault::Short)
    );
    disk.refuse(1)?;
    expect_eq!(
        &rt,
        loading_of(&disk, alloc),
        Loading::Open(ErrorKind::PermissionDenied)
    );
    disk.refuse(2)?;
    expect_eq!(
        &rt,
        loading_of(&disk, alloc),
        Loading::Image(ImageFault::ReadFault)
    );
    Ok(())
}
