//! What is written is read back.
use crate::tests::building::{
    empty, expect_same, listing_of, numbered, read_again, six_pages, three_buckets, two_pages,
};
use crate::tests::pages::{VERSION_1, VERSION_2, two_buckets, two_buckets_exchanged};
use crate::tests::streams::Sink;
use lh_bucket::Listing;
use lh_expect::{expect, expect_eq};
use lh_image::*;
use std::alloc::Global;
use std::process::Abort;
use std::test::Fail;

/// Writes a listing as an image of version 1 or 2.
fn send(version: u32, listing: &Listing, sink: &mut Sink) -> Result<(), WriteImageFault> {
    if version == 1 {
        write_image_v1(listing, sink)
    } else {
        write_image(listing, sink)
    }
}

/// The image of a listing.
fn written(rt: &impl Abort, alloc: Global, version: u32, listing: &Listing) -> Vec<u8> {
    let mut sink = Sink::new(alloc, usize::MAX, 0);
    if send(version, listing, &mut sink).is_err() {
        sink = Sink::new(alloc, usize::MAX, 0);
        expect_eq!(rt, send(version, listing, &mut sink), Ok(()));
    }
    sink.bytes
}

/// A listing is written and read back in either version, where each allocation may be refused once.
fn reads_back(rt: &impl Abort, alloc: Global, listing: &Listing) -> Result<(), Fail> {
    for version in 1..=2 {
        let image = written(rt, alloc, version, listing);
        expect_same(rt, &read_again(alloc, &image)?, listing);
        expect!(
            rt,
            version == 1 || image_len(listing) == Ok(image.len() as u64)
        );
    }
    Ok(())
}

#[test]
fn small_files_read_back(rt: HostRuntime) -> Result<(), Fail> {
    let alloc = rt.alloc();
    reads_back(&rt, alloc, &empty(alloc)?)?;
    reads_back(&rt, alloc, &three_buckets(alloc)?)?;
    reads_back(&rt, alloc, &two_pages(alloc)?)?;
    reads_back(&rt, alloc, &six_pages(alloc)?)
}

/// Files of 300 records: in one chain, in as many buckets as there were at first, and in between two levels.
#[test]
fn large_files_read_back(rt: HostRuntime) -> Result<(), Fail> {
    let alloc = rt.alloc();
    let records = numbered(alloc, 300)?;
    for (settings, buckets) in [
        ([1, 1, 200, 1], 1),
        ([253, 14, 10, 65_536], 253),
        ([5, 3, 100, 100], 33),
        ([3, 14, 90, 24], 24),
    ] {
        let listing = listing_of(alloc, settings, buckets, &records)?;
        expect_eq!(&rt, listing.len(), 300);
        reads_back(&rt, alloc, &listing)?;
    }
    Ok(())
}

/// An image is written in this version as these bytes.
fn expect_exchanged(
    rt: &impl Abort,
    alloc: Global,
    version: u32,
    image: &[u8],
    other: &[u8],
) -> Result<(), Fail> {
    let written = written(rt, alloc, version, &read_again(alloc, image)?);
    expect_eq!(rt; written.as_slice(), other);
    Ok(())
}

#[test]
fn exchanged_pages_are_written_in_order(rt: HostRuntime) -> Result<(), Fail> {
    let alloc = rt.alloc();
    for (version, shape) in [(1, VERSION_1), (2, VERSION_2)] {
        let exchanged = two_buckets_exchanged(alloc, &shape)?;
        expect_exchanged(
            &rt,
            alloc,
            version,
            &exchanged,
            &two_buckets(alloc, &shape)?,
        )?;
    }
    Ok(())
}

fn expect_exchanges(rt: &impl Abort, alloc: Global, old: &[u8], new: &[u8]) -> Result<(), Fail> {
    expect_exchanged(rt, alloc, 2, old, new)?;
    expect_exchanged(rt, alloc, 1, new, old)
}

/// An image of one version is written in the other.
#[test]
fn versions_are_exchanged(rt: HostRuntime) -> Result<(), Fail> {
    let alloc = rt.alloc();
    let old = two_buckets(alloc, &VERSION_1)?;
    expect_exchanges(&rt, alloc, &old, &two_buckets(alloc, &VERSION_2)?)
}
