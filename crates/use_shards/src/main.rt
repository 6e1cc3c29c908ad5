//! Several files as one table, for more records than one file has room for: filled by two threads, closed, and opened
//! again from its listings.
#![tactic(auto)]

use lh_shard_store::{Config, Session, ShardStore};
use std::str;
use std::thread::{self, Threads};

const BOOK: [(&[u8], &[u8]); 5] = [
    (b"Ada", b"0171"),
    (b"Barbara", b"0212"),
    (b"Frances", b"0215"),
    (b"Grace", b"0845"),
    (b"Kathleen", b"0131"),
];

const MORE: [(&[u8], &[u8]); 3] = [
    (b"Grace", b"0999"),
    (b"Joan", b"0161"),
    (b"Sophie", b"0114"),
];

/// Two threads, each with a session of its own: one enters the book, the other what was found since.
fn enter<R: Threads + Sync, S: Session + Send>(rt: &R, sessions: &mut [S]) {
    thread::for_each_mut(
        rt,
        sessions,
        2,
        &|thread: usize, own: &mut S| {
            let _ = own.extend(if thread == 0 { &BOOK } else { &MORE });
        },
    );
}

/// Looks a name up, and prints whether it has a number.
fn print_name<R: Print, S: Session>(rt: &R, book: &mut S, name: &str) -> anyhow::Result<()> {
    match book.get(name.as_bytes())? {
        Some(number) => println!(rt; "{name}: {}", str::from_utf8(number.bytes())?)?,
        None => println!(rt; "{name} is not in the book")?,
    }
    Ok(())
}

fn main(rt: HostRuntime) -> anyhow::Result<()> {
    let mut table = ShardStore::new(rt.alloc(), Config::default().with_capacity(2)?, 8)?;
    enter(&rt, &mut table.sessions(&rt, 2)?);
    println!(rt; "{} calls", table.session(&rt)?.told())?;

    // The way back: shards of the same number, with the same records.
    let listings = table.close(&rt)?.into_listings()?;
    let mut table = ShardStore::open(rt.alloc(), &listings)?;
    let shards = table.shards();
    let mut book = table.session(&rt)?;
    println!(rt; "{} records in {shards} shards", book.len())?;
    print_name(&rt, &mut book, "Kathleen")?;
    print_name(&rt, &mut book, "Hedy")
}
