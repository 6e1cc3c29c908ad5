//! Tables that are closed, and opened again from their listings.
use lh_expect::expect_eq;
use lh_shard_store::{Config, Listing, Memory, OpenFault, Session, ShardStore};
use std::alloc::Global;
use std::sync::Wait;
use std::test::Fail;

/// The listings of a closed table of four shards that has a record for each letter.
fn letters(rt: &impl Wait, alloc: Global) -> Result<Vec<Listing>, Fail> {
    let mut table = ShardStore::new(alloc, Config::default().with_capacity(2)?, 4)?;
    put_letters(&mut table.session(rt)?)?;
    Ok(table.close(rt)?.into_listings()?)
}

/// Puts a record for each letter.
fn put_letters<S: Session>(table: &mut S) -> Result<(), Fail> {
    for letter in b'a'..=b'z' {
        table.put(&[letter], b"1")?;
    }
    Ok(())
}

/// How many letters a table has.
fn letters_in<S: Session>(table: &mut S) -> Result<u64, Fail> {
    let mut letters = 0_u64;
    for letter in b'a'..=b'z' {
        letters = letters.saturating_add(u64::from(table.contains(&[letter])?));
    }
    Ok(letters)
}

#[test]
fn a_closed_table_is_opened_again(rt: HostRuntime) -> Result<(), Fail> {
    let listings = letters(&rt, rt.alloc())?;
    let mut table = ShardStore::open(rt.alloc(), &listings)?;
    let mut session = table.session(&rt)?;
    expect_eq!(&rt, (session.len(), letters_in(&mut session)?), (26, 26));
    Ok(())
}

/// Listings of another number of shards have records of other shards.
#[test]
fn listings_of_another_number_are_refused(rt: HostRuntime) -> Result<(), Fail> {
    let mut listings = letters(&rt, rt.alloc())?;
    let _last = listings.pop();
    let three = ShardStore::open(rt.alloc(), &listings).err();
    expect_eq!(
        &rt,
        matches!(three, Some(OpenFault::Misplaced { .. })),
        true
    );
    expect_eq!(
        &rt,
        ShardStore::open(rt.alloc(), &[]).err(),
        Some(OpenFault::Count)
    );
    Ok(())
}
