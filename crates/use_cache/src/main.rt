//! A cache of two threads, with no history: what one has computed the other finds. It is saved to disk, and a second
//! one goes on from there.
#![tactic(auto)]

use lh_store::{CallFault, Config, OpenStore, Session, Store, Work};
use std::fs::Files;
use std::sync::Wait;
use std::thread::Threads;

/// The root of a number, rounded down: from the cache, or computed and kept there. Whether it was computed.
fn root_of<S: Session>(roots: &mut S, number: u32) -> Result<bool, CallFault> {
    if roots.contains(&number.to_be_bytes())? {
        return Ok(false);
    }
    roots.put(&number.to_be_bytes(), &number.isqrt().to_be_bytes())
}

/// How many of so many roots had to be computed.
fn compute<S: Session>(roots: &mut S, numbers: u32) -> Result<u32, CallFault> {
    let mut computed = 0_u32;
    for number in 0..numbers {
        if root_of(roots, number)? {
            computed = computed.saturating_add(1);
        }
    }
    Ok(computed)
}

/// What each thread does: it computes the same roots.
struct Roots;

impl Work for Roots {
    type Done = Result<u32, CallFault>;

    fn run<S: Session>(&self, _thread: usize, roots: &mut S) -> Self::Done {
        compute(roots, 1_000)
    }
}

/// Lets two threads compute, and saves what they have found.
fn begin<R: Print + Threads + Wait + Files + AllocGlobal + Sync>(rt: &R) -> anyhow::Result<()> {
    let mut cache = OpenStore::new(rt.alloc(), Config::default())?;
    let mut computed = 0_u32;
    for count in cache.run(rt, 2, &Roots)? {
        computed = computed.saturating_add(count?);
    }
    println!(rt; "{computed} roots are computed")?;
    cache.snapshot(rt)?.save(rt, "roots.lhf")?;
    Ok(())
}

/// Goes on from what was saved.
fn go_on<R: Print + Wait + Files + AllocGlobal>(rt: &R) -> anyhow::Result<()> {
    let saved = Store::load(rt, "roots.lhf")?;
    let mut cache = OpenStore::open(rt.alloc(), &saved)?;
    println!(rt; "{} more", compute(&mut cache.session(rt)?, 1_500)?)?;
    Ok(())
}

fn main(rt: HostRuntime) -> anyhow::Result<()> {
    begin(&rt)?;
    go_on(&rt)
}
