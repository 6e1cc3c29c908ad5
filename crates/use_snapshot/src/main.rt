//! A table is looked at while it works: two threads claim seats, and a third copies the whole table at single moments.
//! Each copy holds just what the calls before it leave, by proof. It is saved as an image, and loaded again.
#![tactic(auto)]

use lh_store::{BucketCopy, CallFault, Config, OpenStore, Session, Snapshots, Store, Work};
use std::fs::Files;

/// Claims each seat of each row that is free.
fn claim<S: Session>(seats: &mut S, name: &[u8]) -> Result<(), CallFault> {
    for seat in 0..250_u8 {
        seats.put(&[b'A' + seat / 10, b'0' + seat % 10], name)?;
    }
    Ok(())
}

/// Saves ten moments of the table, and loads them. Whether no seat is given back from one to the next.
fn look<R: Files + AllocGlobal, S: Snapshots>(rt: &R, seats: &mut S) -> anyhow::Result<bool> {
    let mut before = 0;
    let mut rises = true;
    for _ in 0..10 {
        seats.snapshot()?.save(rt, "seats.lhf")?;
        let taken = Store::load(rt, "seats.lhf")?.len();
        rises = rises && before <= taken;
        before = taken;
    }
    Ok(rises)
}

/// Thread 0 looks, and the others claim.
#[derive(Clone, Copy)]
struct Claiming<'a, R> {
    rt: &'a R,
}

impl<'a, R: Files + AllocGlobal> Work for Claiming<'a, R> {
    type Done = anyhow::Result<bool>;

    fn run<S: Snapshots>(&self, thread: usize, seats: &mut S) -> Self::Done {
        match thread {
            0 => return look(self.rt, seats),
            1 => claim(seats, b"Ada")?,
            _ => claim(seats, b"Bob")?,
        }
        Ok(true)
    }
}

/// How many records a scan meets, bucket by bucket, with no lock held in between.
fn count<S: Session>(table: &mut S) -> Result<usize, CallFault> {
    let mut records = 0_usize;
    table.for_each(|copy: BucketCopy| records = records.saturating_add(copy.pairs.len()))?;
    Ok(records)
}

fn main(rt: HostRuntime) -> anyhow::Result<()> {
    let mut seats = Store::new(rt.alloc(), Config::default().with_capacity(2)?)?;
    let mut rises = true;
    for done in seats.run(&rt, 3, &Claiming { rt: &rt })?.done {
        rises = done? && rises;
    }
    let mut table = OpenStore::open(rt.alloc(), &seats)?;
    println!(rt; "{} seats are taken", count(&mut table.session(&rt)?)?)?;
    println!(rt; "from one moment to the next no seat is given back: {rises}")?;
    Ok(())
}
