//! What closed files tell of themselves, and their listings.

use super::settling::{AE, BD, C, closed, config};
use lh_bucket::{Listing, ListingFault};
use lh_expect::{expect, expect_eq};
use lh_file::Closed;
use std::alloc::Global;
use std::test::Fail;

/// The numbers of buckets, stamps and records that a closed file tells, and whether a hand had the right to
/// split.
fn told(file: &Closed) -> (u32, u64, u64, bool) {
    (
        file.buckets(),
        file.stamps(),
        file.records(),
        file.split_open(),
    )
}

#[test]
fn a_closed_file_tells_what_it_has(rt: HostRuntime) -> Result<(), Fail> {
    let open = closed(rt.alloc(), 7, 9, &[AE, BD, C, &[]])?;
    expect_eq!(&rt, told(&open), (3, 9, 5, true));
    let whole = closed(rt.alloc(), 6, 9, &[])?;
    expect_eq!(&rt, told(&whole), (3, 9, 0, false));
    Ok(())
}

/// The listing of a closed file of three buckets with these records.
fn listed(alloc: Global, lists: &[&[(u8, u8)]]) -> Result<Result<Listing, ListingFault>, Fail> {
    Ok(closed(alloc, 6, 0, lists)?.listing())
}

/// The listing that such a file becomes.
fn moved(alloc: Global, lists: &[&[(u8, u8)]]) -> Result<Result<Listing, ListingFault>, Fail> {
    Ok(closed(alloc, 6, 0, lists)?.into_listing())
}

/// Whether a listing is of such a file, and has this many buckets and records.
fn has_size(listing: &Listing, buckets: u32, records: u64) -> Result<bool, Fail> {
    Ok(listing.config() == config()? && listing.buckets() == buckets && listing.len() == records)
}

#[test]
fn a_closed_file_has_a_listing(rt: HostRuntime) -> Result<(), Fail> {
    expect!(
        &rt,
        has_size(&listed(rt.alloc(), &[AE, BD, C, &[]])??, 3, 5)?
    );
    expect!(&rt, has_size(&listed(rt.alloc(), &[AE, BD, C])??, 3, 5)?);
    Ok(())
}

#[test]
fn a_closed_file_becomes_its_listing(rt: HostRuntime) -> Result<(), Fail> {
    expect!(
        &rt,
        has_size(&moved(rt.alloc(), &[AE, BD, C, &[]])??, 3, 5)?
    );
    let fault = moved(rt.alloc(), &[AE, BD])?.err();
    expect_eq!(rt; fault, Some(ListingFault::Shape));
    Ok(())
}

#[test]
fn a_closed_file_tells_the_fault_of_its_listing(rt: HostRuntime) -> Result<(), Fail> {
    let misplaced = ListingFault::Misplaced {
        bucket: 1,
        place: 0,
    };
    let shape = listed(rt.alloc(), &[AE, BD])?.err();
    expect_eq!(rt; shape, Some(ListingFault::Shape));
    let place = listed(rt.alloc(), &[AE, C, BD])?.err();
    expect_eq!(rt; place, Some(misplaced));
    Ok(())
}
