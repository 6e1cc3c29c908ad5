//! Images of version 2: byte for byte, through readers that give little or fail, and counted.
use crate::tests::building::{
    Part, empty, expect_same, image_of, letters, listing_of, numbered, pair, read_again, six_pages,
    three_buckets, two_pages,
};
use crate::tests::census::expect_census;
use crate::tests::pages::{VERSION_2, falling_chain, set, two_buckets_exchanged};
use crate::tests::reading::{Failing, expect_reads};
use crate::tests::streams::{Sink, reader_of};
use crate::tests::writing::expect_heads_of_six_pages;
use lh_bucket::Listing;
use lh_expect::{expect, expect_eq};
use lh_image::*;
use lh_page::Pair;
use std::alloc::{AllocGlobal, Global};
use std::process::Abort;
use std::test::Fail;

/// What is not zero in the image of [`empty`].
const EMPTY: &[Part] = &[
    (
        0,
        b"LHF2\x01\0\0\0\x02\0\0\0\x64\0\0\0\x01\0\0\0\0\0\x01\0\x02\0\0\0",
    ),
    (4096, b"\x01"),
];

/// What is not zero in the image of [`three_buckets`].
pub(crate) const THREE_BUCKETS_2: &[Part] = &[
    (
        0,
        b"LHF2\x01\0\0\0\x02\0\0\0\x64\0\0\0\x03\0\0\0\0\0\x01\0\x04\0\0\0\x05\0\0\0\0\0\0\0",
    ),
    (4096, b"\x01\x02\x02\0\0\0\0\0\0\0\0\0\0\0\0\0\x01\x01\x61"),
    (4170, b"\x31"),
    (4282, b"\x01\x01\x65"),
    (4340, b"\x35"),
    (
        8192,
        b"\x01\x02\x01\0\x01\0\0\0\0\0\0\0\0\0\0\0\x01\x01\x62",
    ),
    (8266, b"\x32"),
    (8378, b"\x01\x01\x64"),
    (8436, b"\x34"),
    (
        12_288,
        b"\x01\x01\x02\0\x02\0\0\0\0\0\0\0\0\0\0\0\x01\x01\x63",
    ),
    (12_362, b"\x33"),
];

/// The image of [`three_buckets`].
pub(crate) fn three_buckets_image_2(alloc: Global) -> Result<Vec<u8>, Fail> {
    image_of(alloc, 16_384, THREE_BUCKETS_2)
}

/// What is not zero in the image of [`two_pages`].
const TWO_PAGES: &[Part] = &[
    (
        0,
        b"LHF2\x01\0\0\0\x02\0\0\0\x64\0\0\0\x01\0\0\0\x01\0\0\0\x03\0\0\0\x04\0\0\0\0\0\0\0",
    ),
    (4096, b"\x01\x02\0\0\0\0\0\0\x02\0\0\0\0\0\0\0\x01\x01\x61"),
    (4170, b"\x31"),
    (4282, b"\x01\x01\x63"),
    (4340, b"\x32"),
    (8192, b"\x02\x02\0\0\0\0\0\0\0\0\0\0\0\0\0\0\x01\x01\x65"),
    (8266, b"\x33"),
    (8378, b"\x01\x01\x67"),
    (8436, b"\x34"),
];

/// The image of [`two_pages`].
pub(crate) fn two_pages_image_2(alloc: Global) -> Result<Vec<u8>, Fail> {
    image_of(alloc, 12_288, TWO_PAGES)
}

/// Writes a listing, to writers that take all, little, and a page at a time.
fn is_written_as(
    rt: &(impl Abort + AllocGlobal),
    listing: &Listing,
    image: &[u8],
) -> Result<(), Fail> {
    for at_once in [usize::MAX, 1, 7, 4096] {
        let mut sink = Sink::new(rt.alloc(), at_once, 0);
        expect_eq!(rt, write_image(listing, &mut sink), Ok(()));
        expect_eq!(rt; sink.bytes.as_slice(), image);
        expect!(rt, sink.longest <= 4096);
    }
    Ok(())
}

#[test]
fn worked_listings_are_these_bytes(rt: HostRuntime) -> Result<(), Fail> {
    let alloc = rt.alloc();
    is_written_as(&rt, &empty(alloc)?, &image_of(alloc, 8192, EMPTY)?)?;
    is_written_as(&rt, &three_buckets(alloc)?, &three_buckets_image_2(alloc)?)?;
    is_written_as(&rt, &two_pages(alloc)?, &two_pages_image_2(alloc)?)
}

#[test]
fn overflow_pages_stand_by_bucket_and_place(rt: HostRuntime) -> Result<(), Fail> {
    let listing = six_pages(rt.alloc())?;
    let mut sink = Sink::new(rt.alloc(), usize::MAX, 0);
    expect_eq!(&rt, write_image(&listing, &mut sink), Ok(()));
    expect_heads_of_six_pages(&rt, &sink.bytes, 4096);
    Ok(())
}

/// The page of 24 records, the last of them with the longest key and value.
fn largest_page(alloc: Global) -> Result<Listing, Fail> {
    let last = pair(&[b'k'; 56], &[b'v'; 112])?;
    let mut records = numbered(alloc, 23)?;
    records.push(last)?;
    listing_of(alloc, [1, 24, 100, 1], 1, &records)
}

fn expect_largest(
    rt: &impl Abort,
    alloc: Global,
    image: &[u8],
    listing: &Listing,
) -> Result<(), Fail> {
    expect_eq!(rt, image.len(), 2 * 4096);
    expect_eq!(rt, image.get(4096..4098), Some(b"\x01\x18".as_slice()));
    expect_eq!(rt, image.get(8022..8025), Some(b"\x38\x70k".as_slice()));
    expect_eq!(rt, image.get(8079..8081), Some(b"kv".as_slice()));
    expect_eq!(rt, image.get(8191), Some(&b'v'));
    expect_same(rt, &read_again(alloc, image)?, listing);
    Ok(())
}

#[test]
fn the_largest_page_is_written(rt: HostRuntime) -> Result<(), Fail> {
    let listing = largest_page(rt.alloc())?;
    let mut sink = Sink::new(rt.alloc(), usize::MAX, 0);
    expect_eq!(&rt, write_image(&listing, &mut sink), Ok(()));
    expect_largest(&rt, rt.alloc(), &sink.bytes, &listing)
}

fn expect_failing_calls(rt: &impl Abort, alloc: Global, listing: &Listing) {
    // Six writes of 2,048 bytes, then the flush.
    for failing in 1..8_usize {
        let mut sink = Sink::new(alloc, 2048, failing);
        expect_eq!(
            rt,
            write_image(listing, &mut sink),
            Err(WriteImageFault::WriteFault)
        );
        expect_eq!(rt; sink.calls, failing);
        expect_eq!(rt, sink.bytes.len(), 2048 * (failing - 1));
    }
    let mut sink = Sink::new(alloc, 2048, 8);
    expect_eq!(rt, write_image(listing, &mut sink), Ok(()));
}

#[test]
fn a_write_or_flush_that_fails_is_told(rt: HostRuntime) -> Result<(), Fail> {
    expect_failing_calls(&rt, rt.alloc(), &two_pages(rt.alloc())?);
    Ok(())
}

/// An image is read as a listing, however few bytes a read gives.
fn reads_as(rt: &impl Abort, alloc: Global, bytes: &[u8], wanted: &Listing) -> Result<(), Fail> {
    for most in [1, 7, 1024, 4095, 4096] {
        let mut reader = reader_of(bytes, most);
        let listing = read_image(alloc, &mut reader)?;
        expect_same(rt, &listing, wanted);
        expect!(rt, reader.bytes.is_empty());
        expect!(rt, reader.longest <= 4096);
    }
    Ok(())
}

#[test]
fn reads_through_any_reader(rt: HostRuntime) -> Result<(), Fail> {
    let wanted = three_buckets(rt.alloc())?;
    reads_as(
        &rt,
        rt.alloc(),
        &three_buckets_image_2(rt.alloc())?,
        &wanted,
    )
}

/// The bytes are an image of these records in two buckets.
fn expect_read(rt: &impl Abort, alloc: Global, bytes: &[u8], records: &[Pair]) -> Result<(), Fail> {
    let wanted = listing_of(alloc, [2, 1, 100, 2], 2, records)?;
    expect_same(rt, &read_again(alloc, bytes)?, &wanted);
    Ok(())
}

#[test]
fn reads_overflow_pages_in_any_order(rt: HostRuntime) -> Result<(), Fail> {
    let alloc = rt.alloc();
    let records = letters(alloc, b"a1b2c3d4")?;
    let bytes = two_buckets_exchanged(alloc, &VERSION_2)?;
    expect_read(&rt, alloc, &bytes, &records)
}

/// The first page is read in two, of which the first part tells that there is a second one.
#[test]
fn a_failed_read_is_never_tried_again(rt: HostRuntime) -> Result<(), Fail> {
    let bytes = three_buckets_image_2(rt.alloc())?;
    for fails_at in 0..7 {
        let due = (fails_at < 6).then_some(ImageFault::ReadFault);
        let failing = Failing {
            most: 4096,
            fails_at,
        };
        expect_reads(&rt, rt.alloc(), &bytes, failing, due, 6.min(fails_at + 1));
    }
    Ok(())
}

fn expect_header_fault(rt: &impl Abort, alloc: Global, bytes: &[u8], want: ImageFault) {
    for fails_at in 0..4 {
        let due = if fails_at < 2 {
            ImageFault::ReadFault
        } else {
            want
        };
        let failing = Failing {
            most: 4096,
            fails_at,
        };
        expect_reads(rt, alloc, bytes, failing, Some(due), 2.min(fails_at + 1));
    }
}

/// The first page decides the faults of the header, whatever comes of the reads after it.
#[test]
fn faults_of_the_header_come_before_a_failed_read(rt: HostRuntime) -> Result<(), Fail> {
    for (at, byte, want) in [
        (16, 0, ImageFault::HeaderField(16)),
        (24, 1, ImageFault::Counts),
    ] {
        let mut bytes = three_buckets_image_2(rt.alloc())?;
        set(&mut bytes, at, byte);
        expect_header_fault(&rt, rt.alloc(), &bytes, want);
    }
    Ok(())
}

/// What is no image is known by its first bytes.
#[test]
fn no_image_is_read_further(rt: HostRuntime) -> Result<(), Fail> {
    let mut bytes = three_buckets_image_2(rt.alloc())?;
    set(&mut bytes, 3, b'3');
    let mut reader = reader_of(&bytes, 4096);
    expect_eq!(
        &rt,
        read_image(rt.alloc(), &mut reader).err(),
        Some(ImageFault::Magic)
    );
    expect_eq!(rt; reader.reads, 1);
    expect_eq!(&rt, reader.bytes.len(), 15_360);
    Ok(())
}

#[test]
fn censuses(rt: HostRuntime) -> Result<(), Fail> {
    let three = Census {
        buckets: 3,
        level: 1,
        pointer: 1,
        records: 5,
        pages: 4,
        overflow: 0,
        longest: 1,
    };
    expect_census(&rt, rt.alloc(), &three_buckets_image_2(rt.alloc())?, three);
    let chain = Census {
        buckets: 1,
        level: 0,
        pointer: 0,
        records: 30,
        pages: 31,
        overflow: 29,
        longest: 30,
    };
    expect_census(
        &rt,
        rt.alloc(),
        &falling_chain(rt.alloc(), &VERSION_2, 30)?,
        chain,
    );
    Ok(())
}
