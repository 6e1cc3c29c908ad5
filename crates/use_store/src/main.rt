//! Two threads book seats in a store. Whatever the schedule, their calls are one legal history of a plain map, and the
//! store holds just what that leaves: by proof.
#![tactic(auto)]

use lh_store::{CallFault, Config, Session, Store, Work};

/// Books each seat that is free: how many this thread has got.
fn book<S: Session>(seats: &mut S, name: &[u8]) -> Result<u32, CallFault> {
    let mut booked = 0_u32;
    for seat in b'a'..=b'z' {
        if seats.put(&[seat], name)? {
            booked = booked.saturating_add(1);
        }
    }
    Ok(booked)
}

/// Two threads book, each for a guest.
struct Booking;

impl Work for Booking {
    type Done = Result<u32, CallFault>;

    fn run<S: Session>(&self, thread: usize, seats: &mut S) -> Self::Done {
        book(seats, if thread == 0 { b"Ada" } else { b"Bob" })
    }
}

fn main(rt: HostRuntime) -> anyhow::Result<()> {
    let mut seats = Store::new(rt.alloc(), Config::default())?;
    let ran = seats.run(&rt, 2, &Booking)?;
    let mut booked = 0_u32;
    for count in ran.done {
        booked = booked.saturating_add(count?);
    }
    println!(rt; "{} calls are one legal history", ran.acts)?;
    println!(rt; "{booked} seats are booked, {} records", seats.len())?;
    Ok(())
}
