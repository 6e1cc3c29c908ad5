//! A schedule replayed step by step: a caller with an old root finds its way.
#![tactic(auto)]

use lh_addr::Config;
use lh_bucket::{Call, PagedBucket};
use lh_core::{Event, SplitState, World, run};
use lh_page::{Key, Value};

fn main(rt: HostRuntime) -> anyhow::Result<()> {
    let config = Config::default().with_capacity(2)?;
    let insert = Call::Insert(Key::new(b"b")?, Value::new(b"1")?);

    // Place 0 reads the root; then a whole split passes; then place 0 goes on.
    let schedule = vec![in rt.alloc();
        Event::Call(0, insert),
        Event::Read(0),
        Event::SplitBegin,
        Event::SplitLock,
        Event::SplitMove,
        Event::SplitRelease,
        Event::SplitPoint,
        Event::Lock(0),
        Event::Act(0),
        Event::Rehash(0),
        Event::Lock(0),
        Event::Act(0),
        Event::Release(0),
    ]?;

    // Step by step: what each event did, or why it was refused.
    let mut world: World<PagedBucket> = World::new(rt.alloc(), config)?;
    for event in &schedule {
        match world.step(*event) {
            Ok(effect) => println!(rt; "{effect:?}")?,
            Err(refusal) => println!(rt; "refused: {refusal}")?,
        }
    }

    // As a list: the same entries, and the theorem holds of them. A file is listed between splits.
    let ran = run::<PagedBucket>(rt.alloc(), config, &schedule)?;
    println!(rt; "{} entries", ran.entries.len())?;
    if ran.world.splitter() == SplitState::Idle {
        let listing = ran.world.listing()?;
        println!(rt; "{} record in {} buckets", listing.len(), listing.buckets())?;
    }
    Ok(())
}
