//! Images byte for byte, and writers that take little or fail.
use crate::tests::building::{
    empty, empty_image, six_pages, three_buckets, three_buckets_image, two_pages, two_pages_image,
};
use crate::tests::streams::Sink;
use lh_bucket::Listing;
use lh_expect::{expect, expect_eq};
use lh_image::*;
use std::alloc::{AllocGlobal, Global};
use std::process::Abort;
use std::test::Fail;

/// Writes a listing, to a writer that takes all and to one that takes a byte at a time.
fn is_written_as(
    rt: &(impl Abort + AllocGlobal),
    listing: &Listing,
    image: &[u8],
) -> Result<(), Fail> {
    for at_once in [usize::MAX, 1, 7, 1024] {
        let mut sink = Sink::new(rt.alloc(), at_once, 0);
        expect_eq!(rt, write_image_v1(listing, &mut sink), Ok(()));
        expect_eq!(rt; sink.bytes.as_slice(), image);
        expect!(rt, sink.longest <= 1024);
    }
    Ok(())
}

#[test]
fn three_buckets_are_four_pages(rt: HostRuntime) -> Result<(), Fail> {
    let listing = three_buckets(rt.alloc())?;
    is_written_as(&rt, &listing, &three_buckets_image(rt.alloc())?)
}

#[test]
fn a_chain_of_two_pages_is_three_pages(rt: HostRuntime) -> Result<(), Fail> {
    let listing = two_pages(rt.alloc())?;
    is_written_as(&rt, &listing, &two_pages_image(rt.alloc())?)
}

#[test]
fn an_empty_file_is_two_pages(rt: HostRuntime) -> Result<(), Fail> {
    let listing = empty(rt.alloc())?;
    is_written_as(&rt, &listing, &empty_image(rt.alloc())?)
}

/// The image of [`six_pages`] has pages of so many bytes, each with its head.
pub(crate) fn expect_heads_of_six_pages(rt: &impl Abort, image: &[u8], page: usize) {
    expect_eq!(rt, image.len(), page.saturating_mul(7));
    // kind, used, level, reserved, bucket, next
    let heads = [
        b"\x01\x01\x02\0\0\0\0\0\x04\0\0\0",
        b"\x01\x01\x01\0\x01\0\0\0\x06\0\0\0",
        b"\x01\0\x02\0\x02\0\0\0\0\0\0\0",
        b"\x02\x01\x02\0\0\0\0\0\x05\0\0\0",
        b"\x02\x01\x02\0\0\0\0\0\0\0\0\0",
        b"\x02\x01\x01\0\x01\0\0\0\0\0\0\0",
    ];
    for (place, head) in heads.iter().enumerate() {
        let start = page.saturating_mul(place + 1);
        expect_eq!(
            rt,
            image.get(start..start.saturating_add(12)),
            Some(head.as_slice())
        );
    }
}

#[test]
fn overflow_pages_stand_by_bucket_and_place(rt: HostRuntime) -> Result<(), Fail> {
    let listing = six_pages(rt.alloc())?;
    let mut sink = Sink::new(rt.alloc(), usize::MAX, 0);
    expect_eq!(&rt, write_image_v1(&listing, &mut sink), Ok(()));
    expect_heads_of_six_pages(&rt, &sink.bytes, 1024);
    Ok(())
}

fn expect_failing_calls(rt: &impl Abort, alloc: Global, listing: &Listing, image: &[u8]) {
    // Six writes of 512 bytes, then the flush.
    for failing in 1..8_usize {
        let mut sink = Sink::new(alloc, 512, failing);
        expect_eq!(
            rt,
            write_image_v1(listing, &mut sink),
            Err(WriteImageFault::WriteFault)
        );
        expect_eq!(rt; sink.calls, failing);
        expect_eq!(
            rt,
            image.get(..512 * (failing - 1)),
            Some(sink.bytes.as_slice())
        );
    }
    let mut sink = Sink::new(alloc, 512, 8);
    expect_eq!(rt, write_image_v1(listing, &mut sink), Ok(()));
}

#[test]
fn a_write_or_flush_that_fails_is_told(rt: HostRuntime) -> Result<(), Fail> {
    let listing = two_pages(rt.alloc())?;
    expect_failing_calls(&rt, rt.alloc(), &listing, &two_pages_image(rt.alloc())?);
    Ok(())
}

#[test]
fn a_writer_that_takes_nothing_fails(rt: HostRuntime) -> Result<(), Fail> {
    let listing = two_pages(rt.alloc())?;
    let mut sink = Sink::new(rt.alloc(), 0, 0);
    expect_eq!(
        &rt,
        write_image_v1(&listing, &mut sink),
        Err(WriteImageFault::WriteFault)
    );
    expect_eq!(rt; sink.calls, 1);
    Ok(())
}
