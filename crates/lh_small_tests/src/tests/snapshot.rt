//! A snapshot that is taken before all is changed.
ghost use Rattle.std.specs.Prelude.{◌≡◌, true};
ghost use Rattle.lh_file.specs.Buckets.Brands.{IsBrandOf};
ghost use Rattle.lh_file.specs.Buckets.Rooms.{FitListing};
ghost use Rattle.lh_file.specs.FileState.{IsOf};

use super::made::{Plain, Small, empty, key_of, one_more, value_of};
use lh_bucket::Listing;
use lh_expect::expect_eq;
use lh_file::{Acts, Closed, FileBrand, Hand, Mode, NoGate, Opening, settle, settle_snapshot};
use std::alloc::Global;
use std::marker::Brand;
use std::process::Abort;
use std::sync::Wait;
use std::test::Fail;

/// Puts forty records, each with its number.
fn fill<M: Mode, J: FileBrand, R: Wait>(
    rt: &R,
    file: &Small<M, J>,
    hand: &mut Hand,
) -> Result<(), Fail>
    requires { IsOf file.now.state hand.old }
    ensures { IsOf file.now.state hand.new }
{
    for number in 0..40_u8 {
        file.upsert(rt, hand, &key_of(0, number)?, &value_of(number.into()))?;
    }
    Ok(())
}

/// Gives each of them its next number, and takes every second one away.
fn change<M: Mode, J: FileBrand, R: Wait>(
    rt: &R,
    file: &Small<M, J>,
    hand: &mut Hand,
) -> Result<(), Fail>
    requires { IsOf file.now.state hand.old }
    ensures { IsOf file.now.state hand.new }
{
    for number in 0..40_u8 {
        let key = key_of(0, number)?;
        file.update(rt, hand, &key, one_more)?;
        if number % 2 == 0 {
            file.take(rt, hand, &key)?;
        }
    }
    Ok(())
}

/// A snapshot of a file with forty records, taken before all of them are changed.
fn taken<M: Mode, J: FileBrand, R: Wait>(
    rt: &R,
    file: &Small<M, J>,
    hand: &mut Hand,
) -> Result<Closed, Fail>
    requires { IsOf file.now.state hand.old }
    ensures { IsOf file.now.state hand.new }
{
    fill(rt, file, hand)?;
    let snapshot = file.snapshot(rt, hand)?;
    change(rt, file, hand)?;
    Ok(snapshot)
}

/// The acts before a snapshot are settled with it, and all acts with the closed file.
fn expect_settled(
    rt: &impl Abort,
    alloc: Global,
    listing: &Listing,
    snapshot: &Closed,
    closed: &Closed,
    acts: &Acts,
) -> Result<(), Fail> {
    expect_eq!(
        rt,
        settle_snapshot(alloc, listing, snapshot, acts)?.len(),
        40
    );
    expect_eq!(rt, settle(alloc, listing, closed, acts)?.len(), 100);
    expect_eq!(rt, (snapshot.records(), closed.records()), (40, 20));
    Ok(())
}

/// The listing of such a snapshot of a new file.
fn snapshot_of<M: Mode, J: FileBrand, R: Wait + Abort>(
    rt: &R,
    alloc: Global,
    listing: &Listing,
    file: Small<M, J>,
    mut hand: Hand,
) -> Result<Listing, Fail>
    requires { IsOf file.state hand }
{
    let snapshot = taken(rt, &file, &mut hand)?;
    let (closed, acts) = file.close(rt, hand)?;
    expect_settled(rt, alloc, listing, &snapshot, &closed, &acts)?;
    Ok(snapshot.into_listing()?)
}

/// The same of a traced file that is being opened.
fn snapshot_of_opened<J: FileBrand, R: Wait + Abort>(
    rt: &R,
    alloc: Global,
    listing: &Listing,
    opening: Opening<'_, NoGate>,
) -> Result<Listing, Fail>
    requires brand { IsBrandOf true J.named J.tables opening }
    requires fits { FitListing 32 opening.listing }
{
    let (file, hand) = opening.sized_file::<J, 32>()?;
    snapshot_of(rt, alloc, listing, file, hand)
}

/// The forty records have their first numbers.
fn expect_filled<R: Wait + Abort>(rt: &R, file: &Plain, hand: &mut Hand) -> Result<(), Fail>
    requires { IsOf file.now.state hand.old }
{
    for number in 0..40_u8 {
        let value = file.get(rt, hand, &key_of(0, number)?)?;
        expect_eq!(rt; value, Some(value_of(number.into())));
    }
    Ok(())
}

/// A file that is opened from the listing of a snapshot has what was there.
fn expect_taken<R: Wait + Abort>(rt: &R, alloc: Global, listing: &Listing) -> Result<(), Fail> {
    Plain::fit_listing(listing)?;
    let (file, mut hand) = Plain::open_from(alloc, listing, false, NoGate)?;
    expect_filled(rt, &file, &mut hand)
}

#[test]
fn a_snapshot_has_what_was_there(rt: HostRuntime) -> Result<(), Fail> {
    let listing = empty(rt.alloc())?;
    let (file, hand) = Plain::open_from(rt.alloc(), &listing, true, NoGate)?;
    let taken = snapshot_of(&rt, rt.alloc(), &listing, file, hand)?;
    expect_taken(&rt, rt.alloc(), &taken)
}

#[test]
fn a_snapshot_of_a_traced_file_has_what_was_there(rt: HostRuntime) -> Result<(), Fail> {
    let listing = empty(rt.alloc())?;
    let opening = Opening::of(rt.alloc(), &listing, true, NoGate)?;
    let taken = snapshot_of_opened::<Brand, _>(&rt, rt.alloc(), &listing, opening)?;
    expect_taken(&rt, rt.alloc(), &taken)
}
