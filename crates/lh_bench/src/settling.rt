//! How long the settling of a file's acts takes.
ghost use Rattle.lh_file.specs.FileState.{IsOf};

use crate::meter::Stopwatch;
use crate::order::Order;
use crate::streams::{Mixed, Part, Step, Stream};
use crate::units::{Each, Seconds};
use crate::workloads::empty_file;
use anyhow::Result;
use lh_bucket::Listing;
use lh_file::{Hand, HashFile, NoGate, settle};
use std::rt::Clock;
use std::sync::Wait;
use std::time::CpuClock;

/// Makes as many mixed calls as there are to be records.
// A hand that is to be joined or closed is not lent to the workloads, which don't say whose it is then.
fn make_calls<R: Wait>(
    rt: &R,
    file: &HashFile<NoGate>,
    hand: &mut Hand,
    order: &Order,
) -> Result<()>
    requires { IsOf file.now.state hand.old }
    ensures { IsOf file.now.state hand.new }
{
    let contents = order.contents();
    let mut stream = Mixed::of_thread(order, 0);
    for _ in 0..order.records {
        match stream.next() {
            Step::Insert { record, .. } => {
                file.put(rt, hand, &contents.key(record), &contents.value(record))?;
            }
            Step::Delete { record } => {
                file.remove(rt, hand, &contents.key(record))?;
            }
            Step::Search { record, .. } | Step::Replace { record, .. } | Step::Count { record } => {
                file.get(rt, hand, &contents.key(record))?;
            }
        }
    }
    Ok(())
}

/// Makes the calls, closes the file and settles it.
pub fn measure<R: Wait + Clock + CpuClock + Print + AllocGlobal>(
    rt: &R,
    order: &Order,
) -> Result<()> {
    let (file, mut hand) = empty_file(rt.alloc(), true)?;
    make_calls(rt, &file, &mut hand, order)?;
    let (closed, acts) = file.close(rt, hand)?;
    let empty = Listing::empty(rt.alloc(), closed.listing()?.config())?;
    let watch = Stopwatch::start(rt)?;
    let history = settle(rt.alloc(), &empty, &closed, &acts)?;
    let spent = watch.stop(rt)?;
    let steps = history.len() as u64;
    let seconds = Seconds(spent.wall);
    let each = Each {
        nanoseconds: spent.processor,
        steps,
    };
    println!(rt; "settled {steps} acts in {seconds} s, {each} ns of processor time each")?;
    Ok(())
}
