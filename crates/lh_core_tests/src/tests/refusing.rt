//! A bucket without memory: what steps, runs and calls tell of it, and that they go on.
ghost use Rattle.lh_core.specs.Serial.{IsAtRest};

use super::calls::{insert, search, small};
use lh_addr::Config;
use lh_bucket::{Answer, Bucket, Call, Listing, Memory, PagedBucket, Reply, Verdict};
use lh_core::{Effect, Event, Ran, Refusal, SplitState, WorkerState, World, run, serial};
use lh_expect::{expect, expect_eq};
use lh_page::Pair;
use std::alloc::Global;
use std::process::Abort;
use std::test::Fail;

/// A bucket of pages for which there is no memory at its first insert of a new key, nor at its first split.
#[derive(Drop)]
struct Refusing {
    bucket: PagedBucket,
    refused_insert: bool,
    refused_split: bool,
}

impl Bucket for Refusing {
    ghost seen = { λ b. b.bucket };

    fn make(
        alloc: Global,
        initial: u32,
        capacity: u32,
        number: u32,
        level: Option<u8>,
    ) -> Result<Self, Memory> {
        Ok(Refusing {
            bucket: PagedBucket::make(alloc, initial, capacity, number, level)?,
            refused_insert: false,
            refused_split: false,
        })
    }

    fn number(&self) -> u32 {
        self.bucket.number()
    }

    fn initial(&self) -> u32 {
        self.bucket.initial()
    }

    fn capacity(&self) -> u32 {
        self.bucket.capacity()
    }

    fn level(&self) -> Option<u8> {
        self.bucket.level()
    }

    fn len(&self) -> usize {
        self.bucket.len()
    }

    fn pair_at(&self, place: usize) -> Pair {
        self.bucket.pair_at(place)
    }

    fn compare(&self, c: u64, k: u8) -> Verdict {
        self.bucket.compare(c, k)
    }

    fn look(&self, call: &Call, k: u8) -> Answer {
        self.bucket.look(call, k)
    }

    fn serve(&mut self, call: &Call, k: u8) -> Result<Answer, Memory> {
        if let Call::Insert(key, _) = call
            && !self.refused_insert
        {
            // An insert of a key that is there may not be refused.
            if let Reply::Absent = self.bucket.look(&Call::Search(*key), k).reply() {
                self.refused_insert = true;
                return Err(Memory);
            }
        }
        self.bucket.serve(call, k)
    }

    fn split_into(&mut self, new: &mut Self) -> Result<(), Memory> {
        if !self.refused_split {
            self.refused_split = true;
            return Err(Memory);
        }
        self.bucket.split_into(&mut new.bucket)
    }
}

/// The listing of a world in which no split is under way.
fn listed<B: Bucket>(world: &World<B>) -> Result<Listing, Fail> {
    match world.splitter() {
        SplitState::Idle => Ok(world.listing()?),
        _ => Err(Fail::from("a split is under way")),
    }
}

/// How many records the filled buckets have.
pub(super) fn records_in<B: Bucket>(world: &World<B>) -> usize {
    let mut records: usize = 0;
    for number in 0..world.filled() {
        records = records.saturating_add(world.bucket(number).len());
    }
    records
}

/// Takes steps that the rules allow.
fn take_all<B: Bucket>(world: &mut World<B>, events: &[Event]) -> Result<(), Fail> {
    for event in events {
        world.step(*event)?;
    }
    Ok(())
}

#[test]
fn a_run_tells_of_refused_memory_and_goes_on(rt: HostRuntime) -> Result<(), Fail> {
    let rows = [
        (Event::Call(0, insert(b"a", b"1")?), Ok(Effect::Called)),
        (
            Event::Read(0),
            Ok(Effect::Aim {
                level: 0,
                bucket: 0,
            }),
        ),
        (
            Event::Lock(0),
            Ok(Effect::Locked {
                bucket: 0,
                level: 0,
            }),
        ),
        (Event::Act(0), Err(Refusal::Memory)),
        (Event::Act(0), Ok(Effect::Answered(Reply::Inserted))),
        (Event::Release(0), Ok(Effect::Released)),
        (Event::SplitBegin, Ok(Effect::Begun { old: 0, new: 1 })),
        (Event::SplitLock, Ok(Effect::Both { old: 0, new: 1 })),
        (Event::SplitMove, Err(Refusal::Memory)),
        (Event::SplitMove, Ok(Effect::Moved { old: 0, new: 1 })),
        (Event::SplitRelease, Ok(Effect::Freed)),
        (Event::SplitPoint, Ok(Effect::Point { buckets: 2 })),
    ];
    let mut events = Vec::new(rt.alloc());
    let mut due = Vec::new(rt.alloc());
    for (event, entry) in rows {
        events.push(event)?;
        due.push(entry)?;
    }
    expect_run(&rt, rt.alloc(), &events, &due)
}

/// A run of these events has these entries, and leaves one record in two buckets.
fn expect_run(
    rt: &impl Abort,
    alloc: Global,
    events: &[Event],
    due: &[Result<Effect, Refusal>],
) -> Result<(), Fail> {
    let Ran { entries, world } = run::<Refusing>(alloc, small()?, events)?;
    expect_eq!(rt; entries.as_slice(), due);
    expect_eq!(rt, world.root().buckets(), 2);
    expect_eq!(rt, listed(&world)?.len(), 1);
    Ok(())
}

/// An act and a move are refused once each, and made then.
fn take_refused_steps(rt: &impl Abort, world: &mut World<Refusing>) -> Result<(), Fail> {
    let call = insert(b"a", b"1")?;
    let events = [
        Event::SplitBegin,
        Event::Call(3, call),
        Event::Read(3),
        Event::Lock(3),
    ];
    take_all(world, events.as_slice())?;
    let holding = WorkerState::Holding(call, 0, 0);
    expect_eq!(rt; world.worker(3), holding);
    expect_eq!(rt, world.step(Event::Act(3)), Err(Refusal::Memory));
    expect_eq!(rt; world.worker(3), holding);
    expect_eq!(rt, records_in(world), 0);
    let events = [Event::Act(3), Event::Release(3), Event::SplitLock];
    take_all(world, events.as_slice())?;
    let locked = world.splitter();
    expect_eq!(rt, world.step(Event::SplitMove), Err(Refusal::Memory));
    expect!(rt, world.splitter() == locked && locked != SplitState::Idle);
    expect_eq!(rt, (world.filled(), world.root().buckets()), (1, 1));
    expect_eq!(rt, records_in(world), 1);
    take_all(world, [Event::SplitMove].as_slice())?;
    expect_eq!(rt, world.filled(), 2);
    Ok(())
}

#[test]
fn a_refused_step_leaves_the_world_as_it_was(rt: HostRuntime) -> Result<(), Fail> {
    take_refused_steps(&rt, &mut World::<Refusing>::new(rt.alloc(), small()?)?)
}

#[test]
fn calls_one_after_another_end_without_memory(rt: HostRuntime) -> Result<(), Fail> {
    let key = search(b"a")?;
    let ran = serial::<Refusing>(rt.alloc(), small()?, &[key, key])?;
    expect_eq!(
        &rt,
        ran.replies.as_slice(),
        [Reply::Absent, Reply::Absent].as_slice()
    );
    let calls = [insert(b"a", b"1")?];
    expect!(
        &rt,
        serial::<Refusing>(rt.alloc(), small()?, &calls).is_err()
    );
    Ok(())
}

/// Inserts a key, beside as many records as it says: its record is one more, and the world has so many buckets then.
fn expect_inserted(
    rt: &impl Abort,
    world: &mut World<Refusing>,
    call: Call,
    records: u32,
    split_refused: bool,
    buckets: u32,
) -> Result<(), Fail>
    requires { IsAtRest world.old.state }
    ensures { IsAtRest world.new.state }
{
    let served = world.serve(call, u64::from(records))?;
    let due = (Reply::Inserted, u64::from(records) + 1, split_refused);
    expect_eq!(rt; (served.reply, served.records, served.split_refused), due);
    expect_eq!(rt; world.root().buckets(), buckets);
    Ok(())
}

fn go_on(rt: &impl Abort, world: &mut World<Refusing>) -> Result<(), Fail>
    requires { IsAtRest world.old.state }
{
    expect!(rt, world.serve(insert(b"a", b"1")?, 0).is_err());
    expect_inserted(rt, world, insert(b"a", b"1")?, 0, false, 1)?;
    expect_inserted(rt, world, insert(b"b", b"1")?, 1, true, 1)?;
    expect_inserted(rt, world, insert(b"c", b"1")?, 2, false, 2)
}

#[test]
fn a_caller_goes_on_without_memory(rt: HostRuntime) -> Result<(), Fail> {
    go_on(
        &rt,
        &mut World::<Refusing>::new(rt.alloc(), Config::new(1, 1, 100, 65536)?)?,
    )
}

/// So many records are listed after these steps.
fn expect_listed<B: Bucket>(
    rt: &impl Abort,
    world: &mut World<B>,
    events: &[Event],
    records: u64,
) -> Result<(), Fail> {
    take_all(world, events)?;
    expect_eq!(rt; listed(world)?.len(), records);
    Ok(())
}

fn is_listed_whatever_a_worker_does<B: Bucket>(
    rt: &impl Abort,
    world: &mut World<B>,
    worker: u8,
) -> Result<(), Fail> {
    let key = [b'a'.saturating_add(worker)];
    let records = u64::from(worker);
    let (call, after) = (
        Event::Call(worker, insert(&key, b"1")?),
        Event::Call(worker, search(&key)?),
    );
    expect_listed(rt, world, &[call, Event::Read(worker)], records)?;
    expect_listed(rt, world, &[Event::Lock(worker)], records)?;
    expect_listed(rt, world, &[Event::Act(worker)], records.saturating_add(1))?;
    take_all(world, &[Event::Release(worker), after])
}

fn is_listed_whatever_its_workers_do<B: Bucket>(
    rt: &impl Abort,
    mut world: World<B>,
) -> Result<(), Fail> {
    for worker in 0..16 {
        is_listed_whatever_a_worker_does(rt, &mut world, worker)?;
    }
    expect_eq!(rt, listed(&world)?.len(), 16);
    Ok(())
}

#[test]
fn a_world_is_listed_whatever_its_workers_do(rt: HostRuntime) -> Result<(), Fail> {
    is_listed_whatever_its_workers_do(&rt, World::<PagedBucket>::new(rt.alloc(), small()?)?)
}
