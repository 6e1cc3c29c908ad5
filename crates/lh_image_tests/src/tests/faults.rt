//! Forged images of version 1, each with the first of its faults.
use crate::tests::building::{read_again, three_buckets_image, two_pages_image};
use crate::tests::pages::{VERSION_1, falling_chain, four_pages, set, two_buckets};
use crate::tests::streams::reader_of;
use lh_expect::expect_eq;
use lh_image::*;
use std::alloc::Global;
use std::process::Abort;
use std::test::Fail;

/// The fault of bytes, if they have one.
pub(crate) fn fault_of(alloc: Global, bytes: &[u8]) -> Option<ImageFault> {
    read_again(alloc, bytes).err()
}

/// The listing and the census of these bytes have this fault, however few of them a read gives.
pub(crate) fn expect_fault(rt: &impl Abort, alloc: Global, bytes: &[u8], want: ImageFault) {
    for most in [1, 7, 1024, 4095, usize::MAX] {
        let found = read_image(alloc, &mut reader_of(bytes, most)).err();
        let counted = check_image(alloc, &mut reader_of(bytes, most)).err();
        expect_eq!(rt, (most, found, counted), (most, Some(want), Some(want)));
    }
}

/// The bytes with some of them set have this fault, of the listing and of the census.
pub(crate) fn expect_forged(
    rt: &impl Abort,
    alloc: Global,
    bytes: &Vec<u8>,
    changes: &[(usize, u8)],
    want: ImageFault,
) -> Result<(), Fail> {
    let mut bytes = bytes.clone()?;
    for (at, byte) in changes {
        set(&mut bytes, *at, *byte);
    }
    expect_fault(rt, alloc, &bytes, want);
    Ok(())
}

/// Each row: a byte that is set, and the fault that is due, of the listing and of the census.
pub(crate) fn expect_faults(
    rt: &impl Abort,
    alloc: Global,
    bytes: &Vec<u8>,
    rows: &[(usize, u8, ImageFault)],
) -> Result<(), Fail> {
    for (at, byte, want) in rows {
        expect_forged(rt, alloc, bytes, &[(*at, *byte)], *want)?;
    }
    Ok(())
}

/// Each row: two bytes that are set, and the fault that is due.
pub(crate) fn expect_faults_of_two(
    rt: &impl Abort,
    alloc: Global,
    bytes: &Vec<u8>,
    rows: &[(usize, u8, usize, u8, ImageFault)],
) -> Result<(), Fail> {
    for (at, byte, also_at, also, want) in rows {
        expect_forged(rt, alloc, bytes, &[(*at, *byte), (*also_at, *also)], *want)?;
    }
    Ok(())
}

fn expect_beginnings(rt: &impl Abort, alloc: Global, bytes: &[u8]) {
    for count in 0..4096 {
        let want = if count < 4 {
            ImageFault::Magic
        } else {
            ImageFault::Short
        };
        let found = fault_of(alloc, &bytes[..count.min(bytes.len())]);
        expect_eq!(rt, (count, found), (count, Some(want)));
        if [0, 3, 10, 1023, 1024, 4095].contains(&count) {
            expect_fault(rt, alloc, &bytes[..count.min(bytes.len())], want);
        }
    }
}

/// One byte more than an image has, and another. Of two the second isn't read, where reads give this many bytes.
pub(crate) fn expect_trailing(
    rt: &impl Abort,
    alloc: Global,
    bytes: &mut Vec<u8>,
    most: usize,
) -> Result<(), Fail> {
    bytes.push(0)?;
    expect_fault(rt, alloc, bytes, ImageFault::Trailing);
    bytes.push(0)?;
    let mut reader = reader_of(bytes, most);
    let fault = read_image(alloc, &mut reader).err();
    expect_eq!(rt; fault, Some(ImageFault::Trailing));
    expect_eq!(rt, reader.bytes.len(), 1);
    Ok(())
}

#[test]
fn beginnings(rt: HostRuntime) -> Result<(), Fail> {
    let mut bytes = three_buckets_image(rt.alloc())?;
    expect_beginnings(&rt, rt.alloc(), &bytes);
    expect_trailing(&rt, rt.alloc(), &mut bytes, 4095)
}

/// The number of buckets is that of all ones.
fn expect_countless(rt: &impl Abort, alloc: Global, bytes: &Vec<u8>) -> Result<(), Fail> {
    let changes = [(24, 255), (25, 255), (26, 255), (27, 255)];
    expect_forged(rt, alloc, bytes, &changes, ImageFault::Counts)
}

fn expect_header_faults(rt: &impl Abort, alloc: Global, bytes: &Vec<u8>) -> Result<(), Fail> {
    expect_faults(
        rt,
        alloc,
        bytes,
        &[
            (3, b'3', ImageFault::Magic),
            (4, 0, ImageFault::HeaderField(4)),
            (5, 1, ImageFault::HeaderField(4)),
            (4, 254, ImageFault::HeaderField(16)),
            (8, 0, ImageFault::HeaderField(8)),
            (8, 15, ImageFault::HeaderField(8)),
            (12, 9, ImageFault::HeaderField(12)),
            (12, 201, ImageFault::HeaderField(12)),
            (16, 0, ImageFault::HeaderField(16)),
            (18, 1, ImageFault::HeaderField(16)),
            (20, 1, ImageFault::HeaderField(20)),
            (36, 1, ImageFault::HeaderField(36)),
            (1023, 1, ImageFault::HeaderField(36)),
            (24, 3, ImageFault::Counts),
            (28, 7, ImageFault::Counts),
            (35, 1, ImageFault::Counts),
            (24, 5, ImageFault::Short),
        ],
    )?;
    let fault = ImageFault::HeaderField(20);
    expect_forged(rt, alloc, bytes, &[(20, 2), (22, 0)], fault)?;
    expect_countless(rt, alloc, bytes)
}

/// The first bytes of an image alone.
pub(crate) fn beginning(alloc: Global, bytes: &[u8], count: usize) -> Result<Vec<u8>, Fail> {
    let mut alone = Vec::new(alloc);
    alone.extend_from_slice(&bytes[..count.min(bytes.len())])?;
    Ok(alone)
}

#[test]
fn header_faults(rt: HostRuntime) -> Result<(), Fail> {
    let bytes = three_buckets_image(rt.alloc())?;
    expect_header_faults(&rt, rt.alloc(), &bytes)?;
    expect_countless(&rt, rt.alloc(), &beginning(rt.alloc(), &bytes, 1024)?)
}

fn expect_page_faults(rt: &impl Abort, alloc: Global, bytes: &Vec<u8>) -> Result<(), Fail> {
    expect_faults(
        rt,
        alloc,
        bytes,
        &[
            (1024, 2, ImageFault::Kind(1)),
            (1027, 1, ImageFault::Kind(1)),
            (3072 + 15, 1, ImageFault::Kind(3)),
            (2052, 0, ImageFault::BucketNumber(2)),
            (3076, 3, ImageFault::BucketNumber(3)),
            (2050, 2, ImageFault::Level(2)),
            (28, 6, ImageFault::Used(0)),
            (2049, 3, ImageFault::Used(0)),
            (3080, 1, ImageFault::Used(3)),
            (1032, 1, ImageFault::Next(1)),
            (1032, 4, ImageFault::Next(1)),
            (1043, 1, ImageFault::Slot(1)),
            (1040, 0, ImageFault::Slot(1)),
            (1040, 31, ImageFault::Slot(1)),
            (1041, 41, ImageFault::Slot(1)),
            (1073, 1, ImageFault::Slot(1)),
            (3072 + 16 + 72, 1, ImageFault::Slot(3)),
            (1042, b'b', ImageFault::Misfit(1)),
            (1042 + 72, b'a', ImageFault::Misfit(1)),
        ],
    )?;
    expect_faults_of_two(
        rt,
        alloc,
        bytes,
        &[
            (2048, 0, 3072, 0, ImageFault::Kind(2)),
            (2050, 2, 2056, 1, ImageFault::Level(2)),
            (2049, 3, 28, 6, ImageFault::Used(2)),
            (4095, 1, 1043, 1, ImageFault::Slot(1)),
        ],
    )
}

#[test]
fn page_faults(rt: HostRuntime) -> Result<(), Fail> {
    expect_page_faults(&rt, rt.alloc(), &three_buckets_image(rt.alloc())?)
}

fn expect_two_pages_faults(rt: &impl Abort, alloc: Global, bytes: &Vec<u8>) -> Result<(), Fail> {
    expect_eq!(rt, bytes.len(), 3072);
    expect_faults(
        rt,
        alloc,
        bytes,
        &[
            (2056, 1, ImageFault::Next(2)),
            (2056, 2, ImageFault::Twice(2)),
            (1032, 0, ImageFault::Never(2)),
        ],
    )?;
    expect_faults_of_two(
        rt,
        alloc,
        bytes,
        &[
            (1032, 0, 2056, 2, ImageFault::Never(2)),
            (2049, 0, 28, 2, ImageFault::Used(2)),
            (2048 + 18, b'a', 2048 + 48, b'1', ImageFault::Misfit(2)),
        ],
    )
}

fn expect_loop_apart(rt: &impl Abort, alloc: Global, bytes: &Vec<u8>) -> Result<(), Fail> {
    let apart = [(2056, 0), (4104, 3)];
    expect_forged(rt, alloc, bytes, &apart, ImageFault::Never(3))
}

fn expect_two_buckets_faults(rt: &impl Abort, alloc: Global, bytes: &Vec<u8>) -> Result<(), Fail> {
    expect_forged(rt, alloc, bytes, &[(1032, 4)], ImageFault::Next(1))?;
    let crossed = [(1032, 4), (2056, 3), (3076, 1), (4100, 0)];
    expect_forged(rt, alloc, bytes, &crossed, ImageFault::Misfit(3))
}

#[test]
fn chain_faults(rt: HostRuntime) -> Result<(), Fail> {
    let alloc = rt.alloc();
    expect_two_pages_faults(&rt, alloc, &two_pages_image(alloc)?)?;
    expect_loop_apart(&rt, alloc, &four_pages(alloc, &VERSION_1)?)?;
    expect_two_buckets_faults(&rt, alloc, &two_buckets(alloc, &VERSION_1)?)
}

fn expect_apart(rt: &impl Abort, alloc: Global, bytes: &Vec<u8>) -> Result<(), Fail> {
    let ended = [(1032, 0), (1033, 0)];
    expect_forged(rt, alloc, bytes, &ended, ImageFault::Never(2))?;
    let looped = [(1032, 0), (1033, 0), (2056, 44), (2057, 1)];
    expect_forged(rt, alloc, bytes, &looped, ImageFault::Never(2))
}

/// All overflow pages on no chain: as a row that ends, and as a loop.
#[test]
fn overflow_pages_apart(rt: HostRuntime) -> Result<(), Fail> {
    expect_apart(
        &rt,
        rt.alloc(),
        &falling_chain(rt.alloc(), &VERSION_1, 300)?,
    )
}
