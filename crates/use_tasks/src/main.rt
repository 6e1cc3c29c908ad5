//! What one does with a table, task by task.
#![tactic(auto)]

use lh_store::{BucketCopy, CallFault, Config, OpenStore, Session, Store, Value, Work};
use std::fs::Files;
use std::str;
use std::sync::Wait;
use std::thread::Threads;

/// Inserts, replaces and deletes.
fn change<R: Print, S: Session>(rt: &R, users: &mut S) -> anyhow::Result<()> {
    // Adds a record; a number that is there stays.
    let is_new = users.put(b"Ada", b"0171")?;
    // Replaces a number; nothing is added.
    let was_there = users.set(b"Ada", b"0172")?;
    // Does the one or the other.
    let is_added = users.upsert(b"Bob", b"0173")?;
    let was_deleted = users.remove(b"Bob")?;
    println!(rt; "{is_new}, {was_there}, {is_added}, {was_deleted}")?;
    Ok(())
}

/// Looks a number up.
fn look<R: Print, S: Session>(rt: &R, users: &mut S) -> anyhow::Result<()> {
    match users.get(b"Ada")? {
        Some(number) => println!(rt; "{}", str::from_utf8(number.bytes())?)?,
        None => println!(rt; "no Ada")?,
    }
    Ok(())
}

/// Adds many records: how many were new.
fn add_all<S: Session>(users: &mut S, records: &[(&[u8], &[u8])]) -> Result<u32, CallFault> {
    let mut added = 0_u32;
    for (name, number) in records {
        added = added.saturating_add(u32::from(users.put(name, number)?));
    }
    Ok(added)
}

/// Goes through all records, while others may go on: how long the numbers are together.
fn digits<S: Session>(users: &mut S) -> Result<usize, CallFault> {
    let mut digits = 0_usize;
    users.for_each(|copy: BucketCopy| {
        for pair in &copy.pairs {
            digits = digits.saturating_add(pair.value.bytes().len());
        }
    })?;
    Ok(digits)
}

/// The seat's owner: who has it, or else this guest, who gets it. Whether that is the guest.
fn is_mine<S: Session>(seats: &mut S, seat: &[u8], guest: &[u8]) -> Result<bool, CallFault> {
    match seats.get_or_put(seat, guest)? {
        Some(owner) => Ok(owner.bytes() == guest),
        None => Ok(true),
    }
}

/// A counter that is one further.
fn one_more(bytes: &[u8]) -> Value {
    let count = match bytes {
        [a, b, c, d] => u32::from_be_bytes([*a, *b, *c, *d]),
        _ => 0,
    };
    match Value::new(&count.wrapping_add(1).to_be_bytes()) {
        Ok(value) => value,
        Err(_) => Value::empty(),
    }
}

/// Counts a visit, from 1 on.
fn count<S: Session>(pages: &mut S, page: &[u8]) -> Result<bool, CallFault> {
    pages.merge(page, &1_u32.to_be_bytes(), one_more)
}

/// What each thread does: it counts one visit.
struct Visit;

impl Work for Visit {
    type Done = Result<bool, CallFault>;

    fn run<S: Session>(&self, _thread: usize, pages: &mut S) -> Self::Done {
        count(pages, b"/home")
    }
}

/// Tells the number of records, and of visits.
fn tell<R: Print, S: Session>(rt: &R, users: &mut S) -> anyhow::Result<()> {
    if let Some(Some(visits)) = users.with_value(b"/home", |bytes| bytes.last().copied())? {
        println!(rt; "{} records, {visits} visits", users.len())?;
    }
    Ok(())
}

/// All tasks of one thread.
fn perform<R: Print, S: Session>(rt: &R, users: &mut S) -> anyhow::Result<()> {
    change(rt, users)?;
    look(rt, users)?;
    let added = add_all(users, &[(b"Cay", b"0174"), (b"Dan", b"0175")])?;
    println!(rt; "{added} added, {} users", users.len())?;
    println!(rt; "{} digits", digits(users)?)?;
    println!(rt; "seat a is mine: {}", is_mine(users, b"seat a", b"Ada")?)?;
    Ok(())
}

/// Lets threads count, and saves what is there then.
fn count_and_save<R: Threads + Wait + Files + AllocGlobal + Sync>(
    rt: &R,
    table: &mut OpenStore,
) -> anyhow::Result<()> {
    // Four threads, each with a session of its own.
    for counted in table.run(rt, 4, &Visit)? {
        counted?;
    }
    // All records of one moment.
    table.snapshot(rt)?.save(rt, "users.lhf")?;
    Ok(())
}

/// A table with the records that were saved.
fn saved<R: Files + AllocGlobal>(rt: &R) -> anyhow::Result<OpenStore> {
    Ok(OpenStore::open(rt.alloc(), &Store::load(rt, "users.lhf")?)?)
}

fn main(rt: HostRuntime) -> anyhow::Result<()> {
    let mut table = OpenStore::new(rt.alloc(), Config::default())?;
    perform(&rt, &mut table.session(&rt)?)?;
    count_and_save(&rt, &mut table)?;
    let mut table = saved(&rt)?;
    tell(&rt, &mut table.session(&rt)?)
}
