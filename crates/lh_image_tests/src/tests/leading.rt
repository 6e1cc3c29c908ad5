//! Images that other bytes follow, and images that are cut off.
use crate::tests::building::{
    empty, empty_image, expect_same, three_buckets, three_buckets_image, two_pages, two_pages_image,
};
use crate::tests::pages::set;
use crate::tests::streams::{Slow, reader_of};
use crate::tests::version_2::{three_buckets_image_2, two_pages_image_2};
use lh_bucket::Listing;
use lh_expect::expect_eq;
use lh_image::*;
use std::alloc::{AllocGlobal, Global};
use std::process::Abort;
use std::test::Fail;

/// Some bytes and others behind them.
fn joined(alloc: Global, first: &[u8], second: &[u8]) -> Result<Vec<u8>, Fail> {
    let mut bytes = Vec::new(alloc);
    bytes.extend_from_slice(first)?;
    bytes.extend_from_slice(second)?;
    Ok(bytes)
}

/// A reader gives this listing first, and these bytes are left.
fn expect_left_by(
    rt: &impl Abort,
    alloc: Global,
    reader: &mut Slow<'_>,
    behind: &[u8],
    wanted: &Listing,
) -> Result<(), Fail> {
    expect_same(rt, &read_leading_image(alloc, reader)?, wanted);
    expect_eq!(rt; reader.bytes, behind);
    Ok(())
}

/// An image with these bytes behind it is read as its listing, however few bytes a read gives, and they are left.
fn expect_left(
    rt: &impl Abort,
    alloc: Global,
    image: &[u8],
    behind: &[u8],
    wanted: &Listing,
) -> Result<(), Fail> {
    let bytes = joined(alloc, image, behind)?;
    for most in [1, 7, 1024, 4095] {
        expect_left_by(rt, alloc, &mut reader_of(&bytes, most), behind, wanted)?;
    }
    Ok(())
}

/// Nothing, a byte, a script, bytes that begin as an image, and another image.
fn expect_all_left(
    rt: &(impl Abort + AllocGlobal),
    image: &[u8],
    wanted: &Listing,
) -> Result<(), Fail> {
    let alloc = rt.alloc();
    let script = b"insert 61 31\nsearch 61\n".as_slice();
    for behind in [b"".as_slice(), b"\0", script, b"LHF2"] {
        expect_left(rt, alloc, image, behind, wanted)?;
    }
    expect_left(rt, alloc, image, &two_pages_image_2(alloc)?, wanted)?;
    expect_left(rt, alloc, image, image, wanted)
}

#[test]
fn what_follows_is_left(rt: HostRuntime) -> Result<(), Fail> {
    let alloc = rt.alloc();
    expect_all_left(&rt, &empty_image(alloc)?, &empty(alloc)?)?;
    expect_all_left(&rt, &three_buckets_image(alloc)?, &three_buckets(alloc)?)?;
    expect_all_left(&rt, &three_buckets_image_2(alloc)?, &three_buckets(alloc)?)?;
    expect_all_left(&rt, &two_pages_image_2(alloc)?, &two_pages(alloc)?)
}

/// The input gives an image of the first listing, and then one of the second.
fn expect_both(
    rt: &impl Abort,
    alloc: Global,
    mut input: &[u8],
    first: &Listing,
    second: &Listing,
) -> Result<(), Fail> {
    expect_same(rt, &read_leading_image(alloc, &mut input)?, first);
    expect_same(rt, &read_image(alloc, &mut input)?, second);
    Ok(())
}

fn expect_two_images(rt: &impl Abort, alloc: Global, input: &[u8]) -> Result<(), Fail> {
    expect_both(rt, alloc, input, &two_pages(alloc)?, &three_buckets(alloc)?)
}

/// Two images, one behind the other, are read one after the other.
#[test]
fn two_images(rt: HostRuntime) -> Result<(), Fail> {
    let alloc = rt.alloc();
    let bytes = joined(
        alloc,
        &two_pages_image(alloc)?,
        &three_buckets_image_2(alloc)?,
    )?;
    expect_two_images(&rt, alloc, &bytes)
}

/// The fault of the image that these bytes begin with, if it has one.
fn leading_fault(rt: &impl AllocGlobal, mut bytes: &[u8]) -> Option<ImageFault> {
    read_leading_image(rt.alloc(), &mut bytes).err()
}

/// Each row: a byte that is set, and the fault, whatever stands behind the image.
fn expect_faults(
    rt: &(impl Abort + AllocGlobal),
    image: &Vec<u8>,
    rows: &[(usize, u8, ImageFault)],
) -> Result<(), Fail> {
    for (at, byte, want) in rows {
        for behind in [b"".as_slice(), b"\0", b"search 61\n"] {
            let mut bytes = joined(rt.alloc(), image, behind)?;
            set(&mut bytes, *at, *byte);
            expect_eq!(rt, (*at, leading_fault(rt, &bytes)), (*at, Some(*want)));
        }
    }
    Ok(())
}

#[test]
fn faults_of_the_image(rt: HostRuntime) -> Result<(), Fail> {
    expect_faults(
        &rt,
        &three_buckets_image_2(rt.alloc())?,
        &[
            (3, b'3', ImageFault::Magic),
            (4, 0, ImageFault::HeaderField(4)),
            (4095, 1, ImageFault::HeaderField(36)),
            (24, 0, ImageFault::Counts),
            (24, 3, ImageFault::Counts),
            (24, 5, ImageFault::Short),
            (4096, 2, ImageFault::Kind(1)),
            (8196, 0, ImageFault::BucketNumber(2)),
            (8194, 2, ImageFault::Level(2)),
            (28, 4, ImageFault::Used(0)),
            (12_296, 1, ImageFault::Used(3)),
            (16_383, 1, ImageFault::Slot(3)),
            (4114, b'b', ImageFault::Misfit(1)),
        ],
    )?;
    expect_faults(
        &rt,
        &two_pages_image(rt.alloc())?,
        &[
            (24, 2, ImageFault::Counts),
            (24, 4, ImageFault::Short),
            (1032, 0, ImageFault::Never(2)),
            (1032, 9, ImageFault::Next(1)),
            (2056, 2, ImageFault::Twice(2)),
            (2066, b'a', ImageFault::Misfit(2)),
        ],
    )
}

/// Every length of the first two pages.
fn expect_cut(rt: &(impl Abort + AllocGlobal), bytes: &[u8], page: usize) {
    for count in 0..page.saturating_mul(2) {
        let want = if count < 4 {
            ImageFault::Magic
        } else {
            ImageFault::Short
        };
        let fault = leading_fault(rt, &bytes[..count.min(bytes.len())]);
        expect_eq!(rt, (count, fault), (count, Some(want)));
    }
}

#[test]
fn cut_images(rt: HostRuntime) -> Result<(), Fail> {
    expect_cut(&rt, &three_buckets_image(rt.alloc())?, 1024);
    expect_cut(&rt, &three_buckets_image_2(rt.alloc())?, 4096);
    Ok(())
}

/// The image is read page by page, and nothing behind it is asked for.
#[test]
fn reads_no_more_than_the_image(rt: HostRuntime) -> Result<(), Fail> {
    let mut bytes = three_buckets_image(rt.alloc())?;
    bytes.push(7)?;
    for fails_at in 0..6 {
        let mut reader = reader_of(&bytes, 1024);
        reader.fails_at = fails_at;
        let fault = read_leading_image(rt.alloc(), &mut reader).err();
        let due = (fails_at < 4).then_some(ImageFault::ReadFault);
        expect_eq!(rt; fault, due);
        expect_eq!(rt; reader.reads, 4.min(fails_at + 1));
    }
    Ok(())
}
