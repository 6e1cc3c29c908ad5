//! Lists of steps, and what they leave.
use super::calls::{insert, search, small};
use lh_addr::Config;
use lh_bucket::{Bucket, PagedBucket, PlainBucket, Reply};
use lh_core::{Effect, Event, Ran, Refusal, SplitState, WorkerState, World, run};
use lh_expect::{expect, expect_eq};
use lh_page::Value;
use std::alloc::Global;
use std::process::Abort;
use std::test::Fail;

/// Runs events on an empty file, and compares their entries.
fn entries_are<B: Bucket>(
    rt: &impl Abort,
    alloc: Global,
    config: Config,
    events: &[Event],
    want: &[Result<Effect, Refusal>],
) -> Result<World<B>, Fail> {
    let Ran { entries, world } = run::<B>(alloc, config, events)?;
    expect_eq!(rt; entries.as_slice(), want);
    Ok(world)
}

/// Takes steps one at a time on an empty file, and compares each entry.
fn steps_are<B: Bucket>(
    rt: &impl Abort,
    alloc: Global,
    config: Config,
    steps: &[(Event, Result<Effect, Refusal>)],
) -> Result<(), Fail> {
    let mut world = World::<B>::new(alloc, config)?;
    for (number, (event, want)) in steps.iter().enumerate() {
        let entry = world.step(*event);
        expect_eq!(rt, (number, entry), (number, *want));
    }
    Ok(())
}

fn aim(level: u8, bucket: u32) -> Result<Effect, Refusal> {
    Ok(Effect::Aim { level, bucket })
}

fn locked(bucket: u32, level: u8) -> Result<Effect, Refusal> {
    Ok(Effect::Locked { bucket, level })
}

fn an_old_root_by_one_split<B: Bucket>(rt: &impl Abort, alloc: Global) -> Result<(), Fail> {
    let events = [
        Event::Call(0, insert(b"b", b"1")?),
        Event::Read(0),
        Event::SplitBegin,
        Event::SplitLock,
        Event::SplitMove,
        Event::SplitRelease,
        Event::SplitPoint,
        Event::Lock(0),
        Event::Act(0),
        Event::Rehash(0),
        Event::Lock(0),
        Event::Act(0),
        Event::Release(0),
    ];
    let want = [
        Ok(Effect::Called),
        aim(0, 0),
        Ok(Effect::Begun { old: 0, new: 1 }),
        Ok(Effect::Both { old: 0, new: 1 }),
        Ok(Effect::Moved { old: 0, new: 1 }),
        Ok(Effect::Freed),
        Ok(Effect::Point { buckets: 2 }),
        locked(0, 1),
        Err(Refusal::MustRehash),
        aim(1, 1),
        locked(1, 1),
        Ok(Effect::Answered(Reply::Inserted)),
        Ok(Effect::Released),
    ];
    expect_split(rt, &entries_are::<B>(rt, alloc, small()?, &events, &want)?);
    Ok(())
}

/// The world has two buckets, and neither its splitter nor its first worker does anything.
fn expect_split<B: Bucket>(rt: &impl Abort, world: &World<B>) {
    expect_eq!(rt, (world.root().buckets(), world.filled()), (2, 2));
    expect_eq!(
        rt,
        (world.splitter(), world.worker(0)),
        (SplitState::Idle, WorkerState::Idle)
    );
}

#[test]
fn a_call_finds_its_bucket_past_one_split(rt: HostRuntime) -> Result<(), Fail> {
    an_old_root_by_one_split::<PlainBucket>(&rt, rt.alloc())?;
    an_old_root_by_one_split::<PagedBucket>(&rt, rt.alloc())
}

fn an_old_root_by_four_splits<B: Bucket>(rt: &impl Abort, alloc: Global) -> Result<(), Fail> {
    let steps = [
        (Event::Call(0, search(b"h")?), Ok(Effect::Called)),
        (Event::Read(0), aim(0, 0)),
        (Event::SplitBegin, Ok(Effect::Begun { old: 0, new: 1 })),
        (Event::SplitLock, Ok(Effect::Both { old: 0, new: 1 })),
        (Event::SplitMove, Ok(Effect::Moved { old: 0, new: 1 })),
        (Event::SplitRelease, Ok(Effect::Freed)),
        (Event::SplitPoint, Ok(Effect::Point { buckets: 2 })),
        (Event::SplitBegin, Ok(Effect::Begun { old: 0, new: 2 })),
        (Event::SplitLock, Ok(Effect::Both { old: 0, new: 2 })),
        (Event::SplitMove, Ok(Effect::Moved { old: 0, new: 2 })),
        (Event::SplitRelease, Ok(Effect::Freed)),
        (Event::SplitPoint, Ok(Effect::Point { buckets: 3 })),
        (Event::SplitBegin, Ok(Effect::Begun { old: 1, new: 3 })),
        (Event::SplitLock, Ok(Effect::Both { old: 1, new: 3 })),
        (Event::SplitMove, Ok(Effect::Moved { old: 1, new: 3 })),
        (Event::SplitRelease, Ok(Effect::Freed)),
        (Event::SplitPoint, Ok(Effect::Point { buckets: 4 })),
        (Event::SplitBegin, Ok(Effect::Begun { old: 0, new: 4 })),
        (Event::SplitLock, Ok(Effect::Both { old: 0, new: 4 })),
        (Event::SplitMove, Ok(Effect::Moved { old: 0, new: 4 })),
        (Event::SplitRelease, Ok(Effect::Freed)),
        (Event::SplitPoint, Ok(Effect::Point { buckets: 5 })),
        (Event::Lock(0), locked(0, 3)),
        (Event::Rehash(0), aim(1, 1)),
        (Event::Lock(0), locked(1, 2)),
        (Event::Rehash(0), aim(2, 3)),
        (Event::Lock(0), locked(3, 2)),
        (Event::Act(0), Ok(Effect::Answered(Reply::Absent))),
    ];
    steps_are::<B>(rt, alloc, small()?, &steps)
}

#[test]
fn a_call_finds_its_bucket_past_four_splits(rt: HostRuntime) -> Result<(), Fail> {
    an_old_root_by_four_splits::<PlainBucket>(&rt, rt.alloc())?;
    an_old_root_by_four_splits::<PagedBucket>(&rt, rt.alloc())
}

fn between_move_and_pointer<B: Bucket>(rt: &impl Abort, alloc: Global) -> Result<(), Fail> {
    let steps = [
        (Event::Call(0, insert(b"b", b"1")?), Ok(Effect::Called)),
        (Event::Read(0), aim(0, 0)),
        (Event::Lock(0), locked(0, 0)),
        (Event::Act(0), Ok(Effect::Answered(Reply::Inserted))),
        (Event::Release(0), Ok(Effect::Released)),
        (Event::SplitBegin, Ok(Effect::Begun { old: 0, new: 1 })),
        (Event::SplitLock, Ok(Effect::Both { old: 0, new: 1 })),
        (Event::SplitMove, Ok(Effect::Moved { old: 0, new: 1 })),
        (Event::SplitRelease, Ok(Effect::Freed)),
        (Event::Call(1, search(b"b")?), Ok(Effect::Called)),
        (Event::Read(1), aim(0, 0)),
        (Event::Lock(1), locked(0, 1)),
        (Event::Act(1), Err(Refusal::MustRehash)),
        (Event::Rehash(1), aim(1, 1)),
        (Event::Lock(1), locked(1, 1)),
        (
            Event::Act(1),
            Ok(Effect::Answered(Reply::Found(Value::new(b"1")?))),
        ),
        (Event::Release(1), Ok(Effect::Released)),
        (Event::SplitDrop, Err(Refusal::WrongState)),
        (Event::SplitPoint, Ok(Effect::Point { buckets: 2 })),
    ];
    steps_are::<B>(rt, alloc, small()?, &steps)
}

#[test]
fn a_search_between_move_and_pointer(rt: HostRuntime) -> Result<(), Fail> {
    between_move_and_pointer::<PlainBucket>(&rt, rt.alloc())?;
    between_move_and_pointer::<PagedBucket>(&rt, rt.alloc())
}

#[test]
fn locks_have_two_modes(rt: HostRuntime) -> Result<(), Fail> {
    let steps = [
        (Event::Call(0, search(b"a")?), Ok(Effect::Called)),
        (Event::Read(0), aim(0, 0)),
        (Event::Lock(0), locked(0, 0)),
        (Event::Call(1, insert(b"a", b"1")?), Ok(Effect::Called)),
        (Event::Read(1), aim(0, 0)),
        (Event::Lock(1), Err(Refusal::Held)),
        (Event::Call(2, search(b"a")?), Ok(Effect::Called)),
        (Event::Read(2), aim(0, 0)),
        (Event::Lock(2), locked(0, 0)),
        (Event::SplitBegin, Ok(Effect::Begun { old: 0, new: 1 })),
        (Event::SplitLock, Err(Refusal::Held)),
        (Event::Rehash(0), Err(Refusal::NothingToRehash)),
        (Event::Release(2), Ok(Effect::GivenUp)),
    ];
    steps_are::<PlainBucket>(&rt, rt.alloc(), small()?, &steps)?;
    steps_are::<PagedBucket>(&rt, rt.alloc(), small()?, &steps)
}

#[test]
fn events_out_of_turn_are_refused(rt: HostRuntime) -> Result<(), Fail> {
    let begun = Ok(Effect::Begun { old: 0, new: 1 });
    let wrong = Err(Refusal::WrongState);
    steps_are::<PlainBucket>(
        &rt,
        rt.alloc(),
        small()?,
        &[
            (Event::Read(0), wrong),
            (Event::Read(16), wrong),
            (Event::Call(15, search(b"a")?), Ok(Effect::Called)),
            (Event::Call(16, search(b"a")?), wrong),
            (Event::SplitBegin, begun),
            (Event::SplitBegin, Err(Refusal::SplitBusy)),
            (Event::SplitMove, wrong),
            (Event::SplitDrop, Ok(Effect::Dropped)),
            (Event::SplitBegin, begun),
            (Event::SplitLock, Ok(Effect::Both { old: 0, new: 1 })),
            (Event::SplitRelease, Ok(Effect::Freed)),
            (Event::SplitPoint, wrong),
        ],
    )?;
    let full = Config::new(1, 14, 100, 1)?;
    steps_are::<PagedBucket>(
        &rt,
        rt.alloc(),
        full,
        &[(Event::SplitBegin, Err(Refusal::FileFull))],
    )
}

/// Inserts a letter by a worker, and says what the act is told.
fn inserted<B: Bucket>(world: &mut World<B>, worker: u8, letter: u8) -> Result<Effect, Fail> {
    world.step(Event::Call(worker, insert(&[letter], b"1")?))?;
    world.step(Event::Read(worker))?;
    world.step(Event::Lock(worker))?;
    Ok(world.step(Event::Act(worker))?)
}

/// The split of bucket 0 into itself and bucket 2. After each of its steps a record is inserted in bucket 1, and before
/// the pointer moves one in the new bucket.
fn insert_beside_a_split<B: Bucket>(rt: &impl Abort, world: &mut World<B>) -> Result<(), Fail> {
    let answered = Effect::Answered(Reply::Inserted);
    let steps = [
        (Event::SplitBegin, 0, b'b'),
        (Event::SplitLock, 1, b'd'),
        (Event::SplitMove, 2, b'f'),
        (Event::SplitRelease, 3, b'h'),
    ];
    for (event, worker, letter) in &steps {
        world.step(*event)?;
        expect_eq!(rt; inserted(world, *worker, *letter)?, answered);
        world.step(Event::Release(*worker))?;
    }
    let events = [
        Event::Call(14, insert(b"c", b"1")?),
        Event::Read(14),
        Event::Lock(14),
        Event::Rehash(14),
        Event::Lock(14),
    ];
    for event in &events {
        world.step(*event)?;
    }
    expect_eq!(rt, world.step(Event::Act(14)), Ok(answered));
    Ok(())
}

fn inserts_go_on_beside_a_split<B: Bucket>(rt: &impl Abort, alloc: Global) -> Result<(), Fail> {
    insert_beside_a_split(
        rt,
        &mut World::<B>::new(alloc, Config::new(2, 14, 100, 65536)?)?,
    )
}

#[test]
fn inserts_are_served_in_each_state_of_a_split(rt: HostRuntime) -> Result<(), Fail> {
    inserts_go_on_beside_a_split::<PlainBucket>(&rt, rt.alloc())?;
    inserts_go_on_beside_a_split::<PagedBucket>(&rt, rt.alloc())
}

/// A list of events may be long, and a file may begin with many buckets.
fn a_long_run<B: Bucket>(rt: &impl Abort, alloc: Global) -> Result<(), Fail> {
    let config = Config::new(256, 24, 10, 65536)?;
    let mut events = Vec::new(alloc);
    for _turn in 0..3000 {
        events.push(Event::SplitBegin)?;
        events.push(Event::SplitDrop)?;
    }
    let Ran { entries, world } = run::<B>(alloc, config, events.as_slice())?;
    expect_eq!(rt, entries.len(), 6000);
    expect!(rt, entries.iter().all(|entry| entry.is_ok()));
    expect_eq!(rt, (world.root().buckets(), world.filled()), (256, 256));
    Ok(())
}

#[test]
fn a_list_of_events_may_be_long(rt: HostRuntime) -> Result<(), Fail> {
    a_long_run::<PlainBucket>(&rt, rt.alloc())?;
    a_long_run::<PagedBucket>(&rt, rt.alloc())
}

/// A worker that holds a bucket, before its act and after it, is in the way of no act and no split at others.
fn step_beside_a_held_bucket<B: Bucket>(rt: &impl Abort, world: &mut World<B>) -> Result<(), Fail> {
    let answered = Effect::Answered(Reply::Inserted);
    for event in [
        Event::Call(0, insert(b"b", b"1")?),
        Event::Read(0),
        Event::Lock(0),
        Event::SplitBegin,
        Event::SplitLock,
    ] {
        world.step(event)?;
    }
    expect_eq!(
        rt,
        world.step(Event::SplitMove),
        Ok(Effect::Moved { old: 0, new: 2 })
    );
    world.step(Event::SplitRelease)?;
    world.step(Event::SplitPoint)?;
    expect_eq!(rt, world.step(Event::Act(0)), Ok(answered));
    expect_eq!(rt; inserted(world, 1, b'a')?, answered);
    Ok(())
}

fn a_held_bucket_is_alone_held<B: Bucket>(rt: &impl Abort, alloc: Global) -> Result<(), Fail> {
    step_beside_a_held_bucket(
        rt,
        &mut World::<B>::new(alloc, Config::new(2, 14, 100, 65536)?)?,
    )
}

#[test]
fn steps_go_on_beside_a_held_bucket(rt: HostRuntime) -> Result<(), Fail> {
    a_held_bucket_is_alone_held::<PlainBucket>(&rt, rt.alloc())?;
    a_held_bucket_is_alone_held::<PagedBucket>(&rt, rt.alloc())
}

#[test]
fn a_file_may_begin_with_three_buckets(rt: HostRuntime) -> Result<(), Fail> {
    let config = Config::new(3, 1, 100, 4)?;
    expect_eq!(
        &rt,
        World::<PlainBucket>::new(rt.alloc(), config)?.filled(),
        3
    );
    expect_eq!(
        &rt,
        World::<PagedBucket>::new(rt.alloc(), config)?.filled(),
        3
    );
    Ok(())
}
