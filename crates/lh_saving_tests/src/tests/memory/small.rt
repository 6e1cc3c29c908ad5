//! Memory that is refused a table of small records.
use lh_expect::{expect, expect_eq};
use lh_store::{
    CallFault, Config, FileFault, Memory, OpenStoreFault, Session, SizedOpenStore, Store,
};
use std::alloc::Global;
use std::process::Abort;
use std::sync::Wait;
use std::test::Fail;

type Small = SizedOpenStore<16>;

/// Puts a record, and once more where memory was refused, which was no act and left its key absent: whether it is new.
fn put_again<S: Session>(table: &mut S, key: &[u8], value: &[u8]) -> bool {
    let left = table.left();
    let mut told = table.put(key, value);
    if told == Err(CallFault::File(FileFault::Memory)) && table.left() == left {
        if table.contains(key) != Ok(false) {
            return false;
        }
        told = table.put(key, value);
    }
    told == Ok(true)
}

/// Puts ten records of 16 bytes.
fn put_ten<S: Session>(table: &mut S) -> bool {
    let mut is_well = true;
    for number in 0..10_u8 {
        is_well = put_again(table, &[number; 8], &[number; 8]) && is_well;
    }
    is_well
}

/// A snapshot of a table, taken once more where memory was refused.
fn snapshot_of<const ROOM: usize>(
    rt: &impl Wait,
    table: &mut SizedOpenStore<ROOM>,
) -> Result<Store, FileFault> {
    match table.snapshot(rt) {
        Err(FileFault::Memory) => table.snapshot(rt),
        snapshot => snapshot,
    }
}

/// The records of a small table, each call made once more where memory was refused.
fn ten(rt: &(impl Abort + Wait), alloc: Global) -> Result<Store, Fail> {
    let config = Config::default().with_capacity(2)?;
    let mut table = match Small::new(alloc, config) {
        Ok(table) => table,
        Err(Memory) => Small::new(alloc, config)?,
    };
    expect!(rt, put_ten(&mut table.session(rt)?));
    Ok(snapshot_of(rt, &mut table)?)
}

/// Opens a table of this room once more where memory was refused.
fn opened(alloc: Global, store: &Store) -> Result<Small, OpenStoreFault> {
    match Small::open_sized(alloc, store) {
        Err(OpenStoreFault::Memory) => Small::open_sized(alloc, store),
        opened => opened,
    }
}

#[test]
fn a_refused_call_at_a_small_room_may_be_made_again(rt: HostRuntime) -> Result<(), Fail> {
    let store = ten(&rt, rt.alloc())?;
    expect_eq!(&rt, store.len(), 10);
    let mut table = opened(rt.alloc(), &store)?;
    expect_eq!(&rt, snapshot_of(&rt, &mut table)?.len(), 10);
    expect_eq!(&rt, store.len(), 10);
    Ok(())
}
