//! Listings for which the pages of version 1 have no room. They are images of version 2.
use crate::tests::building::{expect_same, listing_of, pair, read_again};
use crate::tests::streams::Sink;
use lh_bucket::Listing;
use lh_expect::expect_eq;
use lh_image::*;
use lh_page::Pair;
use std::alloc::{AllocGlobal, Global};
use std::fmt::Display;
use std::process::Abort;
use std::test::Fail;

/// Version 1 is refused, with nothing written; version 2 is written and read back.
fn expect_refused(
    rt: &(impl Abort + AllocGlobal),
    listing: &Listing,
    wanted: WriteImageFault,
) -> Result<(), Fail> {
    let mut sink = Sink::new(rt.alloc(), usize::MAX, 0);
    expect_eq!(rt, write_image_v1(listing, &mut sink), Err(wanted));
    expect_eq!(rt; sink.calls, 0);
    expect_eq!(rt, write_image(listing, &mut sink), Ok(()));
    expect_same(rt, &read_again(rt.alloc(), &sink.bytes)?, listing);
    Ok(())
}

/// The listing of these records in a file of these settings, refused for its capacity.
fn expect_old_capacity(
    rt: &(impl Abort + AllocGlobal),
    settings: [u32; 4],
    records: &[Pair],
) -> Result<(), Fail> {
    let listing = listing_of(rt.alloc(), settings, 1, records)?;
    expect_refused(rt, &listing, WriteImageFault::OldCapacity)
}

#[test]
fn a_page_of_more_than_14_records(rt: HostRuntime) -> Result<(), Fail> {
    expect_old_capacity(&rt, [1, 15, 100, 65_536], &[])?;
    // it comes before a long record
    let records = [pair(&[b'k'; 31], b"")?];
    expect_old_capacity(&rt, [1, 24, 100, 65_536], &records)
}

/// One bucket with these records.
fn one_bucket(alloc: Global, lengths: &[(usize, usize)]) -> Result<Listing, Fail> {
    let key = [b'k'; 56];
    let value = [b'v'; 112];
    let mut records = Vec::new(alloc);
    for (key_length, value_length) in lengths {
        let pair = pair(
            &key[..(*key_length).min(56)],
            &value[..(*value_length).min(112)],
        )?;
        records.push(pair)?;
    }
    listing_of(alloc, [1, 14, 100, 1], 1, &records)
}

#[test]
fn a_long_key_or_value(rt: HostRuntime) -> Result<(), Fail> {
    let alloc = rt.alloc();
    for (lengths, place) in [
        ([(31, 0), (30, 40), (1, 0)], 0),
        ([(30, 41), (2, 0), (1, 0)], 0),
        ([(30, 40), (56, 112), (1, 41)], 1),
        ([(30, 40), (1, 0), (2, 112)], 2),
    ] {
        let listing = one_bucket(alloc, &lengths)?;
        expect_refused(
            &rt,
            &listing,
            WriteImageFault::OldRecord { bucket: 0, place },
        )?;
    }
    Ok(())
}

/// The second record of this bucket is told of these records in two buckets.
fn expect_second_told(
    rt: &(impl Abort + AllocGlobal),
    records: &[Pair],
    bucket: u32,
) -> Result<(), Fail> {
    let listing = listing_of(rt.alloc(), [2, 14, 100, 2], 2, records)?;
    expect_refused(
        rt,
        &listing,
        WriteImageFault::OldRecord { bucket, place: 1 },
    )
}

/// The least bucket is told, whatever the places are.
#[test]
fn long_records_in_two_buckets(rt: HostRuntime) -> Result<(), Fail> {
    let value = [b'v'; 41];
    let records = [pair(b"b", &value)?, pair(b"a", b"1")?, pair(b"c", &value)?];
    expect_second_told(&rt, &records, 0)?;
    let records = [pair(b"a", b"1")?, pair(b"b", b"2")?, pair(b"d", &value)?];
    expect_second_told(&rt, &records, 1)
}

/// What fits the slots of version 1 is written.
#[test]
fn the_longest_old_record(rt: HostRuntime) -> Result<(), Fail> {
    let alloc = rt.alloc();
    let listing = one_bucket(alloc, &[(30, 40)])?;
    let mut sink = Sink::new(alloc, usize::MAX, 0);
    expect_eq!(&rt, write_image_v1(&listing, &mut sink), Ok(()));
    expect_eq!(&rt, sink.bytes.len(), 2048);
    expect_same(&rt, &read_again(alloc, &sink.bytes)?, &listing);
    Ok(())
}

fn expect_printed(
    rt: &(impl Abort + AllocGlobal),
    fault: &impl Display,
    text: &str,
) -> Result<(), Fail> {
    let told = format!(in rt.alloc(); "{fault}")?;
    expect_eq!(rt; told.as_str(), text);
    Ok(())
}

#[test]
fn refusals_are_printed(rt: HostRuntime) -> Result<(), Fail> {
    let long = WriteImageFault::OldRecord {
        bucket: 65_535,
        place: 12,
    };
    for (fault, text) in [
        (WriteImageFault::OldCapacity, "image V1"),
        (long, "image V2 at bucket 65535 place 12"),
        (WriteImageFault::WriteFault, "write failed"),
        (WriteImageFault::Memory, "no memory"),
    ] {
        expect_printed(&rt, &fault, text)?;
    }
    for (fault, text) in [
        (ImageFault::ReadFault, "read failed"),
        (ImageFault::Memory, "no memory"),
    ] {
        expect_printed(&rt, &fault, text)?;
    }
    Ok(())
}
