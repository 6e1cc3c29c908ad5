//! Memory that is refused: run with each request for it refused in turn, one in each run. Each call is made once more
//! where it was refused, and nothing is lost then.
use lh_expect::{expect, expect_eq};
use lh_shard_store::{
    BucketCopy, CallFault, Config, CreateFault, FileFault, Listing, OpenFault, Session, ShardStore,
    SplitFault,
};
use std::alloc::Global;
use std::process::Abort;
use std::sync::Wait;
use std::test::Fail;

const REFUSED: CallFault = CallFault::File(FileFault::Memory);

/// Puts a record, and once more where memory was refused, which was no act and left its key absent: whether it is new.
fn put_again<S: Session>(table: &mut S, key: &[u8]) -> bool {
    let left = table.left();
    let mut told = table.put(key, b"1");
    if told == Err(REFUSED) && table.left() == left {
        if table.contains(key) != Ok(false) {
            return false;
        }
        told = table.put(key, b"1");
    }
    told == Ok(true)
}

/// Puts a record for each letter: whether all went as it has to.
fn put_letters<S: Session>(table: &mut S) -> bool {
    let mut is_well = true;
    for letter in b'a'..=b'z' {
        is_well = put_again(table, &[letter]) && is_well;
    }
    is_well
}

/// How many records a closure is given, once more where memory was refused.
fn given_again<S: Session>(table: &mut S) -> Result<u64, CallFault> {
    match given(table) {
        Err(CallFault::File(FileFault::Memory)) => given(table),
        told => told,
    }
}

/// How many records a closure is given.
fn given<S: Session>(table: &mut S) -> Result<u64, CallFault> {
    let mut given = 0_u64;
    table.for_each(|copy: BucketCopy| given = given.saturating_add(copy.pairs.len() as u64))?;
    Ok(given)
}

/// A table of four shards, asked for once more where memory was refused.
fn made_again(alloc: Global, config: Config) -> Result<ShardStore, CreateFault> {
    match ShardStore::new(alloc, config, 4) {
        Err(CreateFault::Memory) => ShardStore::new(alloc, config, 4),
        made => made,
    }
}

/// The same of a table from listings.
fn opened_again(alloc: Global, listings: &[Listing]) -> Result<ShardStore, OpenFault> {
    match ShardStore::open(alloc, listings) {
        Err(OpenFault::Memory) => ShardStore::open(alloc, listings),
        opened => opened,
    }
}

/// Whether so many sessions are there, asked for once more where memory was refused.
fn has_sessions(rt: &impl Wait, table: &mut ShardStore, sessions: u32) -> Result<bool, Fail> {
    let made = match table.sessions(rt, sessions) {
        Err(SplitFault::Memory) => None,
        made => Some(made?.len()),
    };
    let made = match made {
        Some(made) => made,
        None => table.sessions(rt, sessions)?.len(),
    };
    Ok(made == sessions as usize)
}

/// Puts letters by a session, and gives all records to a closure: whether there was memory for the session.
fn fill(rt: &(impl Abort + Wait), table: &mut ShardStore) -> Result<bool, Fail> {
    let Ok(mut session) = table.session(rt) else {
        return Ok(false);
    };
    expect!(rt, put_letters(&mut session));
    expect_eq!(rt, (given_again(&mut session), session.len()), (Ok(26), 26));
    Ok(true)
}

/// A table of a letter each.
fn letters(rt: &(impl Abort + Wait), alloc: Global) -> Result<ShardStore, Fail> {
    let mut table = made_again(alloc, Config::default().with_capacity(2)?)?;
    expect!(rt, has_sessions(rt, &mut table, 3)?);
    let is_filled = fill(rt, &mut table)?;
    expect!(rt, is_filled || fill(rt, &mut table)?);
    Ok(table)
}

#[test]
fn a_refused_call_may_be_made_again(rt: HostRuntime) -> Result<(), Fail> {
    letters(&rt, rt.alloc())?;
    Ok(())
}

/// The listings of such a table, or none where memory was refused, and the table is gone.
fn listings(rt: &(impl Abort + Wait), alloc: Global) -> Result<Option<Vec<Listing>>, Fail> {
    match letters(rt, alloc)?.close(rt) {
        Ok(closed) => Ok(closed.into_listings().ok()),
        Err(_) => Ok(None),
    }
}

/// The listings, made once more where memory was refused.
fn listings_again(rt: &(impl Abort + Wait), alloc: Global) -> Result<Vec<Listing>, Fail> {
    match listings(rt, alloc)? {
        Some(listings) => Ok(listings),
        None => Ok(listings(rt, alloc)?.ok_or("memory was refused twice")?),
    }
}

#[test]
fn a_refused_opening_may_be_made_again(rt: HostRuntime) -> Result<(), Fail> {
    let listings = listings_again(&rt, rt.alloc())?;
    let mut table = opened_again(rt.alloc(), &listings)?;
    let records = records_in(&rt, &mut table);
    expect!(
        &rt,
        records == Some(26) || records_in(&rt, &mut table) == Some(26)
    );
    Ok(())
}

/// How many records a table has, where there is memory for a session.
fn records_in(rt: &impl Wait, table: &mut ShardStore) -> Option<u64> {
    Some(table.session(rt).ok()?.len())
}
