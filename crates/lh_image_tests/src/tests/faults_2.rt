//! Forged images of version 2, each with the first of its faults.
use crate::tests::faults::{
    beginning, expect_fault, expect_faults, expect_faults_of_two, expect_forged, expect_trailing,
    fault_of,
};
use crate::tests::pages::{VERSION_2, falling_chain, four_pages, set, two_buckets};
use crate::tests::version_2::{three_buckets_image_2, two_pages_image_2};
use lh_expect::expect_eq;
use lh_image::*;
use std::alloc::Global;
use std::process::Abort;
use std::test::Fail;

fn expect_beginnings(rt: &impl Abort, alloc: Global, bytes: &[u8]) {
    for (count, want) in [
        (0, ImageFault::Magic),
        (3, ImageFault::Magic),
        (4, ImageFault::Short),
        (1023, ImageFault::Short),
        (1024, ImageFault::Short),
        (1025, ImageFault::Short),
        (4095, ImageFault::Short),
        (4096, ImageFault::Short),
        (8192, ImageFault::Short),
        (16_383, ImageFault::Short),
    ] {
        expect_fault(rt, alloc, &bytes[..count.min(bytes.len())], want);
    }
}

#[test]
fn beginnings(rt: HostRuntime) -> Result<(), Fail> {
    let mut bytes = three_buckets_image_2(rt.alloc())?;
    expect_beginnings(&rt, rt.alloc(), &bytes);
    expect_trailing(&rt, rt.alloc(), &mut bytes, usize::MAX)
}

/// The number of buckets is that of all ones.
fn expect_countless(rt: &impl Abort, alloc: Global, bytes: &Vec<u8>) -> Result<(), Fail> {
    let changes = [(24, 255), (25, 255), (26, 255), (27, 255)];
    expect_forged(rt, alloc, bytes, &changes, ImageFault::Counts)
}

fn expect_header_faults(rt: &impl Abort, alloc: Global, bytes: &Vec<u8>) -> Result<(), Fail> {
    expect_faults(
        rt,
        alloc,
        bytes,
        &[
            (3, b'3', ImageFault::Magic),
            (3, b'0', ImageFault::Magic),
            (0, b'l', ImageFault::Magic),
            (4, 0, ImageFault::HeaderField(4)),
            (5, 1, ImageFault::HeaderField(4)),
            (4, 254, ImageFault::HeaderField(16)),
            (8, 0, ImageFault::HeaderField(8)),
            (8, 25, ImageFault::HeaderField(8)),
            (12, 9, ImageFault::HeaderField(12)),
            (12, 201, ImageFault::HeaderField(12)),
            (16, 0, ImageFault::HeaderField(16)),
            (18, 1, ImageFault::HeaderField(16)),
            (20, 1, ImageFault::HeaderField(20)),
            (36, 1, ImageFault::HeaderField(36)),
            (1023, 1, ImageFault::HeaderField(36)),
            (1024, 1, ImageFault::HeaderField(36)),
            (4095, 1, ImageFault::HeaderField(36)),
            (24, 3, ImageFault::Counts),
            (28, 7, ImageFault::Counts),
            (35, 1, ImageFault::Counts),
            (24, 5, ImageFault::Short),
        ],
    )?;
    expect_faults_of_two(
        rt,
        alloc,
        bytes,
        &[
            (8, 25, 12, 9, ImageFault::HeaderField(8)),
            (20, 2, 22, 0, ImageFault::HeaderField(20)),
        ],
    )?;
    expect_countless(rt, alloc, bytes)
}

#[test]
fn header_faults(rt: HostRuntime) -> Result<(), Fail> {
    let mut bytes = three_buckets_image_2(rt.alloc())?;
    expect_header_faults(&rt, rt.alloc(), &bytes)?;
    // a page may have room for more records than in version 1
    set(&mut bytes, 8, 24);
    expect_eq!(&rt, fault_of(rt.alloc(), &bytes), None);
    expect_countless(&rt, rt.alloc(), &beginning(rt.alloc(), &bytes, 4096)?)
}

fn expect_page_faults(rt: &impl Abort, alloc: Global, bytes: &Vec<u8>) -> Result<(), Fail> {
    expect_faults(
        rt,
        alloc,
        bytes,
        &[
            (4096, 2, ImageFault::Kind(1)),
            (4099, 1, ImageFault::Kind(1)),
            (12_288 + 15, 1, ImageFault::Kind(3)),
            (8196, 0, ImageFault::BucketNumber(2)),
            (12_292, 3, ImageFault::BucketNumber(3)),
            (8194, 2, ImageFault::Level(2)),
            (28, 6, ImageFault::Used(0)),
            (8193, 3, ImageFault::Used(0)),
            (12_296, 1, ImageFault::Used(3)),
            (4104, 1, ImageFault::Next(1)),
            (4104, 4, ImageFault::Next(1)),
            (4115, 1, ImageFault::Slot(1)),
            (4112, 0, ImageFault::Slot(1)),
            (4112, 57, ImageFault::Slot(1)),
            (4113, 113, ImageFault::Slot(1)),
            (4171, 1, ImageFault::Slot(1)),
            (12_288 + 16 + 170, 1, ImageFault::Slot(3)),
            (16_383, 1, ImageFault::Slot(3)),
            (4114, b'b', ImageFault::Misfit(1)),
            (4114 + 170, b'a', ImageFault::Misfit(1)),
        ],
    )?;
    expect_faults_of_two(
        rt,
        alloc,
        bytes,
        &[
            (8192, 0, 12_288, 0, ImageFault::Kind(2)),
            (8194, 2, 8200, 1, ImageFault::Level(2)),
            (8193, 3, 28, 6, ImageFault::Used(2)),
            (16_383, 1, 4115, 1, ImageFault::Slot(1)),
        ],
    )
}

#[test]
fn page_faults(rt: HostRuntime) -> Result<(), Fail> {
    expect_page_faults(&rt, rt.alloc(), &three_buckets_image_2(rt.alloc())?)
}

fn expect_two_pages_faults(rt: &impl Abort, alloc: Global, bytes: &Vec<u8>) -> Result<(), Fail> {
    expect_faults(
        rt,
        alloc,
        bytes,
        &[
            (8200, 1, ImageFault::Next(2)),
            (8200, 2, ImageFault::Twice(2)),
            (4104, 0, ImageFault::Never(2)),
        ],
    )?;
    expect_faults_of_two(
        rt,
        alloc,
        bytes,
        &[
            (4104, 0, 8200, 2, ImageFault::Never(2)),
            (8193, 0, 28, 2, ImageFault::Used(2)),
            (8210, b'a', 8266, b'1', ImageFault::Misfit(2)),
        ],
    )
}

fn expect_loop_apart(rt: &impl Abort, alloc: Global, bytes: &Vec<u8>) -> Result<(), Fail> {
    let apart = [(8200, 0), (16_392, 3)];
    expect_forged(rt, alloc, bytes, &apart, ImageFault::Never(3))
}

fn expect_two_buckets_faults(rt: &impl Abort, alloc: Global, bytes: &Vec<u8>) -> Result<(), Fail> {
    expect_forged(rt, alloc, bytes, &[(4104, 4)], ImageFault::Next(1))?;
    let crossed = [(4104, 4), (8200, 3), (12_292, 1), (16_388, 0)];
    expect_forged(rt, alloc, bytes, &crossed, ImageFault::Misfit(3))
}

#[test]
fn chain_faults(rt: HostRuntime) -> Result<(), Fail> {
    let alloc = rt.alloc();
    expect_two_pages_faults(&rt, alloc, &two_pages_image_2(alloc)?)?;
    expect_loop_apart(&rt, alloc, &four_pages(alloc, &VERSION_2)?)?;
    expect_two_buckets_faults(&rt, alloc, &two_buckets(alloc, &VERSION_2)?)
}

fn expect_apart(rt: &impl Abort, alloc: Global, bytes: &Vec<u8>) -> Result<(), Fail> {
    expect_forged(rt, alloc, bytes, &[(4104, 0)], ImageFault::Never(2))?;
    let looped = [(4104, 0), (8200, 30)];
    expect_forged(rt, alloc, bytes, &looped, ImageFault::Never(2))
}

/// All overflow pages on no chain: as a row that ends, and as a loop.
#[test]
fn overflow_pages_apart(rt: HostRuntime) -> Result<(), Fail> {
    expect_apart(&rt, rt.alloc(), &falling_chain(rt.alloc(), &VERSION_2, 30)?)
}
