//! Images read through readers that give little or fail.
use crate::tests::building::{
    empty, empty_image, expect_same, read_again, shown, three_buckets, three_buckets_image,
    two_pages, two_pages_image,
};
use crate::tests::pages::{VERSION_1, falling_chain, set, two_buckets_exchanged};
use crate::tests::streams::reader_of;
use lh_bucket::Listing;
use lh_expect::{expect, expect_eq};
use lh_image::*;
use lh_page::Key;
use std::alloc::Global;
use std::process::Abort;
use std::test::Fail;

/// An image is read as a listing, however few bytes a read gives.
fn reads_as(rt: &impl Abort, alloc: Global, bytes: &[u8], wanted: &Listing) -> Result<(), Fail> {
    for most in [1, 7, 1024, 4095] {
        let mut reader = reader_of(bytes, most);
        let listing = read_image(alloc, &mut reader)?;
        expect_same(rt, &listing, wanted);
        expect!(rt, reader.bytes.is_empty());
        expect!(rt, reader.longest <= 1024);
    }
    Ok(())
}

#[test]
fn reads_through_any_reader(rt: HostRuntime) -> Result<(), Fail> {
    let alloc = rt.alloc();
    reads_as(
        &rt,
        alloc,
        &three_buckets_image(alloc)?,
        &three_buckets(alloc)?,
    )?;
    reads_as(&rt, alloc, &two_pages_image(alloc)?, &two_pages(alloc)?)?;
    reads_as(&rt, alloc, &empty_image(alloc)?, &empty(alloc)?)
}

/// The records of a bucket are these.
fn expect_shown(
    rt: &impl Abort,
    alloc: Global,
    listing: &Listing,
    bucket: u32,
    records: &[u8],
) -> Result<(), Fail> {
    expect!(rt, *shown(alloc, listing, bucket)?.as_slice() == *records);
    Ok(())
}

fn expect_three_buckets(rt: &impl Abort, alloc: Global, listing: &Listing) -> Result<(), Fail> {
    let config = listing.config();
    expect_eq!(rt, listing.buckets(), 3);
    expect_eq!(
        rt,
        (config.capacity(), config.load(), config.max()),
        (2, 100, 65536)
    );
    for (bucket, records) in [(0, "a1e5"), (1, "b2d4"), (2, "c3")] {
        expect_shown(rt, alloc, listing, bucket, records.as_bytes())?;
    }
    Ok(())
}

#[test]
fn reads_records_by_bucket(rt: HostRuntime) -> Result<(), Fail> {
    let bytes = three_buckets_image(rt.alloc())?;
    expect_three_buckets(&rt, rt.alloc(), &read_again(rt.alloc(), &bytes)?)
}

/// A reader that gives so many bytes a read, and fails at one of them.
#[derive(Clone, Copy)]
pub(crate) struct Failing {
    pub most: usize,
    pub fails_at: usize,
}

/// Reading an image has this fault, and so many reads are made.
pub(crate) fn expect_reads(
    rt: &impl Abort,
    alloc: Global,
    bytes: &[u8],
    failing: Failing,
    fault: Option<ImageFault>,
    reads: usize,
) {
    let mut reader = reader_of(bytes, failing.most);
    reader.fails_at = failing.fails_at;
    expect_eq!(rt; read_image(alloc, &mut reader).err(), fault);
    expect_eq!(rt; reader.reads, reads);
}

#[test]
fn a_failed_read_is_never_tried_again(rt: HostRuntime) -> Result<(), Fail> {
    let bytes = three_buckets_image(rt.alloc())?;
    for fails_at in 0..6 {
        let due = (fails_at < 5).then_some(ImageFault::ReadFault);
        let failing = Failing {
            most: 1024,
            fails_at,
        };
        expect_reads(&rt, rt.alloc(), &bytes, failing, due, 5.min(fails_at + 1));
    }
    Ok(())
}

fn expect_header_fault(rt: &impl Abort, alloc: Global, bytes: &[u8], want: ImageFault) {
    for fails_at in 0..3 {
        let due = if fails_at == 0 {
            ImageFault::ReadFault
        } else {
            want
        };
        let failing = Failing {
            most: 1024,
            fails_at,
        };
        expect_reads(rt, alloc, bytes, failing, Some(due), 1);
    }
}

/// The first page decides the faults of the header, whatever comes of the reads behind it.
#[test]
fn faults_of_the_header_come_before_a_failed_read(rt: HostRuntime) -> Result<(), Fail> {
    for (at, byte, want) in [
        (3, b'3', ImageFault::Magic),
        (16, 0, ImageFault::HeaderField(16)),
        (24, 1, ImageFault::Counts),
    ] {
        let mut bytes = three_buckets_image(rt.alloc())?;
        set(&mut bytes, at, byte);
        expect_header_fault(&rt, rt.alloc(), &bytes, want);
    }
    Ok(())
}

fn expect_two_buckets(rt: &impl Abort, alloc: Global, listing: &Listing) -> Result<(), Fail> {
    expect_shown(rt, alloc, listing, 0, b"a1c3")?;
    expect_shown(rt, alloc, listing, 1, b"b2d4")
}

#[test]
fn overflow_pages_in_any_order(rt: HostRuntime) -> Result<(), Fail> {
    let bytes = two_buckets_exchanged(rt.alloc(), &VERSION_1)?;
    expect_two_buckets(&rt, rt.alloc(), &read_again(rt.alloc(), &bytes)?)
}

fn expect_long(rt: &impl Abort, listing: &Listing) -> Result<(), Fail> {
    expect!(rt, listing.buckets() == 1);
    expect!(rt, listing.len_of(0) == 300);
    expect_eq!(
        rt,
        listing.pair_at(0, 1).key,
        Key::new(&300_u32.to_be_bytes())?
    );
    expect_eq!(
        rt,
        listing.pair_at(0, 299).key,
        Key::new(&2_u32.to_be_bytes())?
    );
    Ok(())
}

#[test]
fn long_chain(rt: HostRuntime) -> Result<(), Fail> {
    let bytes = falling_chain(rt.alloc(), &VERSION_1, 300)?;
    expect_long(&rt, &read_again(rt.alloc(), &bytes)?)
}
