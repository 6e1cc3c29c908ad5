//! Memory that is refused: run with each request for it refused in turn, one in each run.
use super::calls::{insert, search, small};
use super::refusing::records_in;
use lh_addr::Config;
use lh_bucket::{Bucket, Call, Listing, Memory, PagedBucket, PlainBucket, Reply};
use lh_core::{
    Effect, Event, Ran, Refusal, SerialRan, SplitState, WorkerState, World, run, serial,
    serial_from,
};
use lh_expect::{expect, expect_eq};
use lh_page::Value;
use std::alloc::Global;
use std::process::Abort;
use std::test::Fail;

/// An empty world, asked for once more where memory was refused.
fn made_again<B: Bucket>(alloc: Global, config: Config) -> Result<World<B>, Memory> {
    match World::new(alloc, config) {
        Err(Memory) => World::new(alloc, config),
        made => made,
    }
}

/// The listing of a world in which no split is under way, asked for once more where memory was refused.
fn listed_again<B: Bucket>(world: &World<B>) -> Result<Listing, Fail> {
    match world.splitter() {
        SplitState::Idle => match world.listing() {
            Ok(listing) => Ok(listing),
            Err(Memory) => Ok(world.listing()?),
        },
        _ => Err(Fail::from("a split is under way")),
    }
}

/// Runs events, once more where there was no memory for the world or the entries.
fn run_again<B: Bucket>(alloc: Global, config: Config, events: &[Event]) -> Result<Ran<B>, Memory> {
    match run(alloc, config, events) {
        Err(Memory) => run(alloc, config, events),
        ran => ran,
    }
}

/// The entries have these effects in their order, and between them are events refused because memory ran out, or
/// because what they ask for was done.
fn expect_effects(rt: &impl Abort, entries: &[Result<Effect, Refusal>], dues: &[Effect]) {
    let mut count: usize = 0;
    for entry in entries {
        match entry {
            Ok(effect) => {
                expect_eq!(rt, dues.get(count).copied(), Some(*effect));
                count = count.saturating_add(1);
            }
            Err(refusal) => {
                expect!(
                    rt,
                    *refusal == Refusal::Memory || *refusal == Refusal::WrongState
                );
            }
        }
    }
    expect_eq!(rt; count, dues.len());
}

/// An act and a move of records come twice: refused out of memory they are accepted then, and else they are done.
fn a_run_goes_on<B: Bucket>(rt: &impl Abort, alloc: Global) -> Result<(), Fail> {
    let events = [
        Event::Call(0, insert(b"a", b"1")?),
        Event::Read(0),
        Event::Lock(0),
        Event::Act(0),
        Event::Act(0),
        Event::Release(0),
        Event::SplitBegin,
        Event::SplitLock,
        Event::SplitMove,
        Event::SplitMove,
        Event::SplitRelease,
        Event::SplitPoint,
    ];
    let (level, bucket) = (0, 0);
    let (old, new) = (0, 1);
    let effects = [
        Effect::Called,
        Effect::Aim { level, bucket },
        Effect::Locked { bucket, level },
        Effect::Answered(Reply::Inserted),
        Effect::Released,
        Effect::Begun { old, new },
        Effect::Both { old, new },
        Effect::Moved { old, new },
        Effect::Freed,
        Effect::Point { buckets: 2 },
    ];
    let Ran { entries, world } = run_again::<B>(alloc, small()?, &events)?;
    expect_eq!(rt, entries.len(), 12);
    expect_effects(rt, entries.as_slice(), &effects);
    expect_eq!(rt, world.root().buckets(), 2);
    expect_eq!(rt, listed_again(&world)?.len(), 1);
    Ok(())
}

#[test]
fn refused_growth_is_an_entry_of_a_run(rt: HostRuntime) -> Result<(), Fail> {
    a_run_goes_on::<PlainBucket>(&rt, rt.alloc())?;
    a_run_goes_on::<PagedBucket>(&rt, rt.alloc())
}

/// What a world shows of its root and its filled buckets, of worker 0 and of the splitter, and how many records it has.
#[derive(Clone, Copy, Debug, PartialEq, Eq)]
struct Shown {
    buckets: u32,
    filled: u32,
    worker: WorkerState,
    splitter: SplitState,
    records: usize,
}

fn seen_of<B: Bucket>(world: &World<B>) -> Shown {
    Shown {
        buckets: world.root().buckets(),
        filled: world.filled(),
        worker: world.worker(0),
        splitter: world.splitter(),
        records: records_in(world),
    }
}

/// Takes a step that the rules allow, and once more where memory was refused: then the world shows what it showed.
fn step_again<B: Bucket>(
    rt: &impl Abort,
    world: &mut World<B>,
    event: &Event,
) -> Result<Effect, Refusal> {
    let before = seen_of(world);
    match world.step(*event) {
        Err(Refusal::Memory) => {
            let after = seen_of(world);
            expect!(rt, after == before);
            world.step(*event)
        }
        entry => entry,
    }
}

/// A call of worker 0 by each of eight letters, where each step may be refused once.
fn calls_go_on<B: Bucket>(rt: &impl Abort, world: &mut World<B>) -> Result<(), Fail> {
    for letter in b"abcdefgh" {
        let call = insert(&[*letter], b"1")?;
        let events = [Event::Call(0, call), Event::Read(0), Event::Lock(0)];
        for event in &events {
            step_again(rt, world, event)?;
        }
        let answered = step_again(rt, world, &Event::Act(0))?;
        expect_eq!(rt; answered, Effect::Answered(Reply::Inserted));
        step_again(rt, world, &Event::Release(0))?;
    }
    Ok(())
}

/// A split behind them.
fn split_goes_on<B: Bucket>(rt: &impl Abort, world: &mut World<B>) -> Result<(), Fail> {
    let split = [
        Event::SplitBegin,
        Event::SplitLock,
        Event::SplitMove,
        Event::SplitRelease,
        Event::SplitPoint,
    ];
    for event in &split {
        step_again(rt, world, event)?;
    }
    let due = Shown {
        buckets: 2,
        filled: 2,
        worker: WorkerState::Idle,
        splitter: SplitState::Idle,
        records: 8,
    };
    expect_eq!(rt; seen_of(world), due);
    expect_eq!(rt, listed_again(world)?.len(), 8);
    Ok(())
}

/// Calls of worker 0 and a split, where each step may be refused once.
fn steps_go_on<B: Bucket>(rt: &impl Abort, alloc: Global) -> Result<(), Fail> {
    let mut world = made_again::<B>(alloc, small()?)?;
    calls_go_on(rt, &mut world)?;
    split_goes_on(rt, &mut world)
}

#[test]
fn refused_growth_leaves_a_world_as_it_was(rt: HostRuntime) -> Result<(), Fail> {
    steps_go_on::<PlainBucket>(&rt, rt.alloc())?;
    steps_go_on::<PagedBucket>(&rt, rt.alloc())
}

/// Serves calls, once more where memory was refused.
fn serial_again<B: Bucket>(
    alloc: Global,
    config: Config,
    calls: &[Call],
) -> Result<SerialRan<B>, Memory> {
    match serial(alloc, config, calls) {
        Err(Memory) => serial(alloc, config, calls),
        ran => ran,
    }
}

/// Calls after which a file has three buckets.
fn calls_are_served<B: Bucket>(rt: &impl Abort, alloc: Global) -> Result<(), Fail> {
    let config = Config::new(1, 1, 100, 65536)?;
    let calls = [
        insert(b"a", b"1")?,
        insert(b"b", b"2")?,
        insert(b"c", b"3")?,
        search(b"b")?,
    ];
    let replies = [
        Reply::Inserted,
        Reply::Inserted,
        Reply::Inserted,
        Reply::Found(Value::new(b"2")?),
    ];
    let ran = serial_again::<B>(alloc, config, &calls)?;
    expect_served(rt, &ran, &replies)
}

/// Calls had these replies, and left three records in three buckets.
fn expect_served<B: Bucket>(
    rt: &impl Abort,
    ran: &SerialRan<B>,
    replies: &[Reply],
) -> Result<(), Fail> {
    expect_eq!(rt; ran.replies.as_slice(), replies);
    expect_eq!(rt, ran.world.root().buckets(), 3);
    expect_eq!(rt, listed_again(&ran.world)?.len(), 3);
    Ok(())
}

#[test]
fn refused_growth_ends_calls_one_after_another(rt: HostRuntime) -> Result<(), Fail> {
    calls_are_served::<PlainBucket>(&rt, rt.alloc())?;
    calls_are_served::<PagedBucket>(&rt, rt.alloc())
}

/// Serves calls on the file of a listing, once more where memory was refused.
fn serial_from_again(
    alloc: Global,
    listing: &Listing,
    calls: &[Call],
) -> Result<SerialRan<PagedBucket>, Memory> {
    match serial_from(alloc, listing, calls) {
        Err(Memory) => serial_from(alloc, listing, calls),
        ran => ran,
    }
}

/// The listing of a file of one record.
fn listing_of_one(alloc: Global) -> Result<Listing, Fail> {
    let config = Config::new(1, 1, 100, 65536)?;
    let ran = serial_again::<PagedBucket>(alloc, config, &[insert(b"a", b"1")?])?;
    listed_again(&ran.world)
}

#[test]
fn refused_growth_ends_calls_on_a_listing(rt: HostRuntime) -> Result<(), Fail> {
    let calls = [insert(b"b", b"2")?, insert(b"c", b"3")?, search(b"a")?];
    let replies = [
        Reply::Inserted,
        Reply::Inserted,
        Reply::Found(Value::new(b"1")?),
    ];
    let listing = listing_of_one(rt.alloc())?;
    expect_served(
        &rt,
        &serial_from_again(rt.alloc(), &listing, &calls)?,
        &replies,
    )
}
