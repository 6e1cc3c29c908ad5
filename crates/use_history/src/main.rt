//! Two threads book seats, and a contract of this program's own says what came of it: from the empty table on all that
//! they did is one legal history, and the table holds just what that leaves.
#![tactic(auto)]

ghost use Rattle.std.specs.Prelude.{replicate, [], IfOk};
ghost use Rattle.lh_store.specs.Histories.{IsOneHistory};

use lh_store::{CallFault, Config, Session, Store, Work, WorkDone};
use std::sync::Wait;
use std::thread::Threads;

/// What each thread does: it books each seat that is free, looks who has it, and gives up those before `m`. Then it is
/// told how many acts there were so far, as its contract says: in a traced table a legal history, with its own acts. The
/// other may be at work.
struct Booking;

impl Work for Booking {
    type Done = Result<u64, CallFault>;

    fn run<S: Session>(&self, thread: usize, seats: &mut S) -> Self::Done
        ensures { IfOk result (λ acts. (before : S) × S.tells before acts seats.new) }
    {
        let name = if thread == 0 { b"1" } else { b"2" };
        for seat in b'a'..b'y' {
            seats.put(&[seat], name)?;
            seats.get(&[seat])?;
            if seat < b'm' {
                seats.remove(&[seat])?;
            }
        }
        Ok(seats.told())
    }
}

/// Lets two threads book the seats of an empty table: what came of it, and the table.
fn take_bookings<R: AllocGlobal + Threads + Wait + Sync>(
    rt: &R,
    config: Config,
) -> anyhow::Result<(WorkDone<Result<u64, CallFault>>, Store)>
    ensures { IfOk result (λ made. IsOneHistory record { config = config; lists = replicate config.initial [] }
        made.0.acts made.1) }
{
    let mut seats = Store::new(rt.alloc(), config)?;
    let ran = seats.run(rt, 2, &Booking)?;
    Ok((ran, seats))
}

fn main(rt: HostRuntime) -> anyhow::Result<()> {
    let (ran, seats) = take_bookings(&rt, Config::default().with_capacity(2)?)?;
    let mut own = true;
    for told in ran.done {
        own &= (60..=120).contains(&told?);
    }
    println!(rt; "each was told of its own 60 acts in the midst: {own}")?;
    println!(rt; "{} acts, one legal history", ran.acts)?;
    println!(rt; "{} seats are taken", seats.len())?;
    Ok(())
}
