//! How long the longest split takes.
ghost use Rattle.lh_file.specs.FileState.{IsOf};

use crate::meter::Stopwatch;
use crate::units::Each;
use crate::workloads::{empty_file, settings};
use anyhow::{Result, bail};
use lh_file::{Hand, HashFile, NoGate};
use std::rt::Clock;
use std::sync::Wait;
use std::time::CpuClock;

/// Splits once, and tells how many nanoseconds that took.
fn split<R: Wait + Clock + CpuClock>(
    rt: &R,
    file: &HashFile<NoGate>,
    hand: &mut Hand,
) -> Result<u64>
    requires { IsOf file.now.state hand.old }
    ensures { IsOf file.now.state hand.new }
{
    let watch = Stopwatch::start(rt)?;
    file.try_split_right(hand);
    if !hand.has_right() {
        bail!("the right to split was not to be had");
    }
    file.split(rt, hand)?;
    Ok(watch.stop(rt)?.wall)
}

/// Splits this many times, and tells how many nanoseconds the longest split took.
fn longest<R: Wait + Clock + CpuClock>(
    rt: &R,
    file: &HashFile<NoGate>,
    mut hand: Hand,
    splits: u32,
) -> Result<u64>
    requires { IsOf file.now.state hand }
{
    let mut longest = 0;
    for _ in 0..splits {
        longest = split(rt, file, &mut hand)?.max(longest);
    }
    Ok(longest)
}

/// Splits an empty file as often as it can be, and prints how long the longest split took. It is the one that makes the
/// last segment, which is half of the buckets.
pub fn measure<R: Wait + Clock + CpuClock + Print + AllocGlobal>(rt: &R) -> Result<()> {
    let (file, hand) = empty_file(rt.alloc(), false)?;
    let longest = Each {
        nanoseconds: longest(rt, &file, hand, settings()?.max() - 1)?,
        steps: 1000,
    };
    println!(rt; "longest split: {longest} us")?;
    Ok(())
}
