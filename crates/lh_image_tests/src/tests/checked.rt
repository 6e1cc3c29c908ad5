//! Look-ups in images of either version that were checked, and bytes that are refused.
use crate::tests::building::{
    empty, listing_of, numbered, six_pages, three_buckets, three_buckets_image, two_pages,
    two_pages_image, two_records,
};
use crate::tests::pages::{VERSION_1, VERSION_2, falling_chain, four_pages, set, two_buckets};
use crate::tests::streams::Sink;
use crate::tests::version_2::{three_buckets_image_2, two_pages_image_2};
use lh_bucket::Listing;
use lh_expect::{expect, expect_eq};
use lh_image::*;
use lh_page::{Key, Pair, Value};
use std::alloc::{AllocGlobal, Global};
use std::process::Abort;
use std::test::Fail;

/// The image that the bytes are, or the fault of opening or of checking them. It is asked for once more where memory
/// was refused.
fn checked(alloc: Global, bytes: &[u8]) -> Result<CheckedImage<'_>, ImageFault> {
    let image = Image::open(bytes)?;
    match image.check(alloc) {
        Err(ImageFault::Memory) => image.check(alloc),
        answer => answer,
    }
}

/// The key has this value, copied and lent.
fn expect_value(rt: &impl Abort, image: &CheckedImage<'_>, key: &Key, value: &[u8]) {
    match image.find(key) {
        Some(found) => expect_eq!(rt; found.bytes(), value),
        None => expect!(rt, false),
    }
    match image.find_bytes(key) {
        Some(found) => expect_eq!(rt; found, value),
        None => expect!(rt, false),
    }
}

/// The bytes are an image with just the records of a listing. Each of these keys is absent.
fn expect_listing(
    rt: &(impl Abort + AllocGlobal),
    bytes: &[u8],
    listing: &Listing,
    absent: &[&[u8]],
) -> Result<(), Fail> {
    expect_looked_up(rt, &checked(rt.alloc(), bytes)?, listing, absent)
}

fn expect_looked_up(
    rt: &impl Abort,
    image: &CheckedImage<'_>,
    listing: &Listing,
    absent: &[&[u8]],
) -> Result<(), Fail> {
    expect_records(rt, image, listing);
    for key in absent {
        let key = Key::new(*key)?;
        expect_eq!(rt, image.find(&key), None);
        expect!(rt, image.find_bytes(&key).is_none());
    }
    Ok(())
}

/// The image has just the records of a listing.
fn expect_records(rt: &impl Abort, image: &CheckedImage<'_>, listing: &Listing) {
    expect_eq!(rt, image.config(), listing.config());
    expect!(rt, image.buckets() == listing.buckets());
    expect!(rt, image.len() == listing.len());
    expect!(rt, image.is_empty() == (listing.len() == 0));
    for bucket in 0..listing.buckets() {
        for place in 0..listing.len_of(bucket) {
            let pair = listing.pair_at(bucket, place);
            expect_value(rt, image, &pair.key, pair.value.bytes());
        }
    }
}

/// The image of version 2 of a listing has just its records.
fn expect_new(
    rt: &(impl Abort + AllocGlobal),
    listing: &Listing,
    absent: &[&[u8]],
) -> Result<(), Fail> {
    let mut sink = Sink::new(rt.alloc(), usize::MAX, 0);
    expect_eq!(rt, write_image(listing, &mut sink), Ok(()));
    expect_listing(rt, sink.bytes.as_slice(), listing, absent)
}

/// The image of version 1 of a listing has just its records.
fn expect_old(
    rt: &(impl Abort + AllocGlobal),
    listing: &Listing,
    absent: &[&[u8]],
) -> Result<(), Fail> {
    let mut sink = Sink::new(rt.alloc(), usize::MAX, 0);
    expect_eq!(rt, write_image_v1(listing, &mut sink), Ok(()));
    expect_listing(rt, sink.bytes.as_slice(), listing, absent)
}

/// The images of both versions of a listing have just its records.
fn expect_both(
    rt: &(impl Abort + AllocGlobal),
    listing: &Listing,
    absent: &[&[u8]],
) -> Result<(), Fail> {
    expect_new(rt, listing, absent)?;
    expect_old(rt, listing, absent)
}

/// The images of both versions of these records, in a file of these settings.
fn expect_both_of(
    rt: &(impl Abort + AllocGlobal),
    settings: [u32; 4],
    buckets: u32,
    records: &[Pair],
    absent: &[&[u8]],
) -> Result<(), Fail> {
    let listing = listing_of(rt.alloc(), settings, buckets, records)?;
    expect_both(rt, &listing, absent)
}

/// Empty buckets, keys in primary and in overflow pages, and keys that differ from one in length or in the last byte.
#[test]
fn worked_listings(rt: HostRuntime) -> Result<(), Fail> {
    let alloc = rt.alloc();
    expect_both(&rt, &empty(alloc)?, &[b"a", b"b", b"\0"])?;
    expect_both(
        &rt,
        &three_buckets(alloc)?,
        &[b"f", b"aa", b"a\0", b"1", b"\0", b"z"],
    )?;
    expect_both(&rt, &two_pages(alloc)?, &[b"b", b"d", b"f", b"ac"])?;
    expect_both(&rt, &six_pages(alloc)?, &[b"c", b"f", b"g", b"h"])?;
    let absent: [&[u8]; 3] = [b"\0\0\0\x03", b"\0\0\0", b"a"];
    expect_both_of(&rt, [4, 2, 100, 65_536], 9, &numbered(alloc, 3)?, &absent)
}

fn expect_long(rt: &(impl Abort + AllocGlobal), records: &[Pair]) -> Result<(), Fail> {
    let absent: [&[u8]; 3] = [b"\0\0\0\x3c", b"\0\0\0", b"\0\0\0\0\0"];
    expect_both_of(rt, [1, 2, 200, 1], 1, records, &absent)?;
    let absent: [&[u8]; 3] = [b"\0\0\0\x3c", b"\x01\0\0\0", b"a"];
    expect_both_of(rt, [2, 3, 100, 65_536], 5, records, &absent)
}

/// Each record of a chain of many pages, and of a file where each other bucket was split.
#[test]
fn long_chains(rt: HostRuntime) -> Result<(), Fail> {
    expect_long(&rt, &numbered(rt.alloc(), 60)?)
}

fn longest_chain_of(
    rt: &(impl Abort + AllocGlobal),
    pages: u32,
    twice: bool,
) -> Result<Option<ImageFault>, Fail> {
    let listing = listing_of(rt.alloc(), [1, 1, 100, 1], 1, &numbered(rt.alloc(), pages)?)?;
    let mut sink = Sink::new(rt.alloc(), usize::MAX, 0);
    expect_eq!(rt, write_image_v1(&listing, &mut sink), Ok(()));
    let mut bytes = sink.bytes;
    if twice {
        // The key of the last page becomes that of the first one.
        let last = 1024 * pages as usize;
        set(&mut bytes, last + 21, 0);
    }
    Ok(checked(rt.alloc(), &bytes).err())
}

/// Chains of fewer pages than are compared one with another, and of more, without a key twice and with one.
#[test]
fn chains_around_64_pages(rt: HostRuntime) -> Result<(), Fail> {
    for pages in 63..66 {
        expect_eq!(&rt, longest_chain_of(&rt, pages, false)?, None);
        expect_eq!(
            &rt,
            longest_chain_of(&rt, pages, true)?,
            Some(ImageFault::Misfit(pages))
        );
    }
    Ok(())
}

fn longest_of_2(rt: &(impl Abort + AllocGlobal), records: &[Pair]) -> Result<(), Fail> {
    let mut last = [7; 56];
    last[55] = 8;
    let listing = listing_of(rt.alloc(), [1, 24, 100, 1], 1, records)?;
    expect_new(rt, &listing, &[&[7; 54], &last, &[8; 56]])
}

fn longest_of_1(rt: &(impl Abort + AllocGlobal), records: &[Pair]) -> Result<(), Fail> {
    let absent: [&[u8]; 3] = [&[7; 28], &[7; 31], &[7; 56]];
    expect_both_of(rt, [1, 14, 100, 1], 1, records, &absent)
}

/// The longest key and value of each version, a key of which it is the front, and keys that differ in the last byte.
#[test]
fn longest_records(rt: HostRuntime) -> Result<(), Fail> {
    longest_of_1(&rt, &two_records(rt.alloc(), &[7; 30], &[9; 40], &[7; 29])?)?;
    longest_of_2(
        &rt,
        &two_records(rt.alloc(), &[7; 56], &[9; 112], &[7; 55])?,
    )
}

fn expect_falling(rt: &impl Abort, image: &CheckedImage<'_>) -> Result<(), Fail> {
    for page in 1..=30_u32 {
        let found = image.find(&Key::new(&page.to_be_bytes())?);
        expect_eq!(rt; found, Some(Value::empty()));
    }
    expect_eq!(rt, image.find(&Key::new(b"\0\0\0\x1f")?), None);
    Ok(())
}

fn falling_of_2(rt: &(impl Abort + AllocGlobal)) -> Result<(), Fail> {
    let bytes = falling_chain(rt.alloc(), &VERSION_2, 30)?;
    expect_falling(rt, &checked(rt.alloc(), &bytes)?)
}

fn expect_last(rt: &impl Abort, image: &CheckedImage<'_>) -> Result<(), Fail> {
    expect_eq!(rt, image.find(&Key::new(b"g")?), Some(Value::new(b"7")?));
    Ok(())
}

fn four_of_1(rt: &(impl Abort + AllocGlobal)) -> Result<(), Fail> {
    let bytes = four_pages(rt.alloc(), &VERSION_1)?;
    expect_last(rt, &checked(rt.alloc(), &bytes)?)
}

/// Overflow pages in any order are those of an image.
#[test]
fn falling_chains(rt: HostRuntime) -> Result<(), Fail> {
    falling_of_2(&rt)?;
    four_of_1(&rt)
}

/// Each row: a byte that is set, and the fault.
fn expect_refused(
    rt: &(impl Abort + AllocGlobal),
    image: &Vec<u8>,
    rows: &[(usize, u8, ImageFault)],
) -> Result<(), Fail> {
    for (at, byte, want) in rows {
        let mut bytes = image.clone()?;
        set(&mut bytes, *at, *byte);
        let fault = checked(rt.alloc(), &bytes).err();
        expect_eq!(rt, (*at, fault), (*at, Some(*want)));
    }
    Ok(())
}

fn expect_three_refused(rt: &(impl Abort + AllocGlobal), image: &Vec<u8>) -> Result<(), Fail> {
    expect_refused(
        rt,
        image,
        &[
            (24, 5, ImageFault::Short),
            (4096, 2, ImageFault::Kind(1)),
            (8196, 0, ImageFault::BucketNumber(2)),
            (8194, 2, ImageFault::Level(2)),
            (28, 4, ImageFault::Used(0)),
            (12_296, 1, ImageFault::Used(3)),
            (16_383, 1, ImageFault::Slot(3)),
            (4171, 1, ImageFault::Slot(1)),
            (4114, b'b', ImageFault::Misfit(1)),
            (4114 + 170, b'a', ImageFault::Misfit(1)),
        ],
    )
}

fn expect_two_refused(rt: &(impl Abort + AllocGlobal), image: &Vec<u8>) -> Result<(), Fail> {
    expect_refused(
        rt,
        image,
        &[
            (1032, 9, ImageFault::Next(1)),
            (2056, 1, ImageFault::Next(2)),
            (2056, 2, ImageFault::Twice(2)),
            (1032, 0, ImageFault::Never(2)),
            (2066, b'a', ImageFault::Misfit(2)),
        ],
    )
}

fn expect_crossed_refused(rt: &(impl Abort + AllocGlobal), image: &Vec<u8>) -> Result<(), Fail> {
    let page = image.len() / 5;
    expect_refused(
        rt,
        image,
        &[
            (page + 8, 4, ImageFault::Next(1)),
            (page * 2 + 8, 0, ImageFault::Never(4)),
        ],
    )
}

#[test]
fn forged_images_are_refused(rt: HostRuntime) -> Result<(), Fail> {
    expect_three_refused(&rt, &three_buckets_image_2(rt.alloc())?)?;
    expect_two_refused(&rt, &two_pages_image(rt.alloc())?)?;
    for shape in [&VERSION_1, &VERSION_2] {
        expect_crossed_refused(&rt, &two_buckets(rt.alloc(), shape)?)?;
    }
    Ok(())
}

fn expect_unmet(rt: &(impl Abort + AllocGlobal), bytes: &[u8]) -> Result<(), Fail> {
    let found = Image::open(bytes)?.find(&Key::new(b"a")?);
    expect_eq!(rt; found, Ok(Some(Value::new(b"1")?)));
    expect_eq!(
        rt,
        checked(rt.alloc(), bytes).err(),
        Some(ImageFault::Used(0))
    );
    Ok(())
}

/// What a look-up doesn't meet is looked at by the check.
#[test]
fn faults_that_no_look_up_meets(rt: HostRuntime) -> Result<(), Fail> {
    let mut bytes = two_pages_image_2(rt.alloc())?;
    set(&mut bytes, 8193, 0);
    expect_unmet(&rt, &bytes)?;
    let image = three_buckets_image(rt.alloc())?;
    expect_refused(&rt, &image, &[(4095, 1, ImageFault::Slot(3))])
}
