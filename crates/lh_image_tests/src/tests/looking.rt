//! Look-ups in the bytes of images of either version: worked, forged and cut ones.
use crate::tests::building::{
    empty, listing_of, numbered, pair, six_pages, three_buckets, three_buckets_image, two_pages,
    two_pages_image, two_records,
};
use crate::tests::pages::{VERSION_1, VERSION_2, falling_chain, set, two_buckets};
use crate::tests::streams::Sink;
use crate::tests::version_2::{three_buckets_image_2, two_pages_image_2};
use lh_bucket::Listing;
use lh_expect::{expect, expect_eq};
use lh_image::*;
use lh_page::{Key, Pair, Value};
use std::alloc::{AllocGlobal, Global};
use std::process::Abort;
use std::test::Fail;

/// What a look-up in some bytes answers, or why they can't be opened.
fn look(bytes: &[u8], key: &[u8]) -> Result<Result<Option<Value>, ImageFault>, Fail> {
    let key = Key::new(key)?;
    match Image::open(bytes) {
        Ok(image) => Ok(image.find(&key)),
        Err(fault) => Ok(Err(fault)),
    }
}

/// The key has this value in the bytes, copied and lent.
fn expect_value(rt: &impl Abort, image: &Image<'_>, key: &Key, value: &[u8]) {
    match image.find(key) {
        Ok(Some(found)) => expect_eq!(rt; found.bytes(), value),
        _ => expect!(rt, false),
    }
    match image.find_bytes(key) {
        Ok(Some(found)) => expect_eq!(rt; found, value),
        _ => expect!(rt, false),
    }
}

/// The bytes are opened, and have just the records of a listing. Of these keys of one byte, each one that the listing
/// hasn't is absent.
fn expect_listing(
    rt: &impl Abort,
    bytes: &[u8],
    listing: &Listing,
    version: Version,
    absent: &[&[u8]],
) -> Result<(), Fail> {
    let image = Image::open(bytes).ok().ok_or("open")?;
    expect_eq!(rt; image.version(), version);
    expect_records(rt, &image, listing);
    for key in absent {
        let key = Key::new(*key)?;
        expect_eq!(rt, image.find(&key), Ok(None));
        expect!(rt, matches!(image.find_bytes(&key), Ok(None)));
    }
    Ok(())
}

/// The image has just the records of a listing.
fn expect_records(rt: &impl Abort, image: &Image<'_>, listing: &Listing) {
    expect_eq!(rt, image.config(), listing.config());
    expect!(rt, image.buckets() == listing.buckets());
    expect!(rt, image.len() == listing.len());
    expect!(rt, image.is_empty() == (listing.len() == 0));
    for bucket in 0..listing.buckets() {
        for place in 0..listing.len_of(bucket) {
            let pair = listing.pair_at(bucket, place);
            expect_value(rt, image, &pair.key, pair.value.bytes());
        }
    }
}

/// The image of version 2 of a listing has just its records.
fn expect_new(
    rt: &(impl Abort + AllocGlobal),
    listing: &Listing,
    absent: &[&[u8]],
) -> Result<(), Fail> {
    let mut sink = Sink::new(rt.alloc(), usize::MAX, 0);
    expect_eq!(rt, write_image(listing, &mut sink), Ok(()));
    expect_listing(rt, sink.bytes.as_slice(), listing, Version::Two, absent)
}

/// The image of version 1 of a listing has just its records.
fn expect_old(
    rt: &(impl Abort + AllocGlobal),
    listing: &Listing,
    absent: &[&[u8]],
) -> Result<(), Fail> {
    let mut sink = Sink::new(rt.alloc(), usize::MAX, 0);
    expect_eq!(rt, write_image_v1(listing, &mut sink), Ok(()));
    expect_listing(rt, sink.bytes.as_slice(), listing, Version::One, absent)
}

/// The images of both versions of a listing have just its records.
fn expect_both(
    rt: &(impl Abort + AllocGlobal),
    listing: &Listing,
    absent: &[&[u8]],
) -> Result<(), Fail> {
    expect_new(rt, listing, absent)?;
    expect_old(rt, listing, absent)
}

#[test]
fn worked_listings(rt: HostRuntime) -> Result<(), Fail> {
    let alloc = rt.alloc();
    expect_both(&rt, &empty(alloc)?, &[b"a", b"b", b"\0"])?;
    expect_both(
        &rt,
        &three_buckets(alloc)?,
        &[b"f", b"aa", b"1", b"\0", b"z"],
    )?;
    expect_both(&rt, &two_pages(alloc)?, &[b"b", b"d", b"f", b"ac"])?;
    expect_both(&rt, &six_pages(alloc)?, &[b"c", b"f", b"g", b"h"])
}

/// The look-ups in the images of both versions of these records, in a file of these settings.
fn expect_both_of(
    rt: &(impl Abort + AllocGlobal),
    settings: [u32; 4],
    buckets: u32,
    records: &[Pair],
    absent: &[&[u8]],
) -> Result<(), Fail> {
    let listing = listing_of(rt.alloc(), settings, buckets, records)?;
    expect_both(rt, &listing, absent)
}

fn expect_long(rt: &(impl Abort + AllocGlobal), records: &[Pair]) -> Result<(), Fail> {
    let absent: [&[u8]; 3] = [b"\0\0\0\x3c", b"\0\0\0", b"\0\0\0\0\0"];
    expect_both_of(rt, [1, 2, 200, 1], 1, records, &absent)?;
    let absent: [&[u8]; 3] = [b"\0\0\0\x3c", b"\x01\0\0\0", b"a"];
    expect_both_of(rt, [2, 3, 100, 65_536], 5, records, &absent)
}

/// Each record of a chain of many pages, and of a file where each other bucket was split.
#[test]
fn long_chains(rt: HostRuntime) -> Result<(), Fail> {
    expect_long(&rt, &numbered(rt.alloc(), 60)?)
}

/// A record that a later image hasn't any more, and the others, which moved up.
#[test]
fn deleted_record(rt: HostRuntime) -> Result<(), Fail> {
    let alloc = rt.alloc();
    let mut records = Vec::new(alloc);
    for record in [b"a1", b"e3", b"g4"] {
        records.push(pair(&record[..1], &record[1..])?)?;
    }
    let listing = listing_of(alloc, [1, 2, 100, 1], 1, &records)?;
    expect_both(&rt, &listing, &[b"c"])
}

fn longest_of_1(rt: &(impl Abort + AllocGlobal), records: &[Pair]) -> Result<(), Fail> {
    let listing = listing_of(rt.alloc(), [1, 14, 100, 1], 1, records)?;
    expect_both(rt, &listing, &[&[7; 28], &[7; 31]])
}

fn longest_of_2(rt: &(impl Abort + AllocGlobal), records: &[Pair]) -> Result<(), Fail> {
    let listing = listing_of(rt.alloc(), [1, 24, 100, 1], 1, records)?;
    expect_new(rt, &listing, &[&[7; 54], &[8; 56]])
}

/// The longest key and value of each version, and keys that differ from them in the last byte.
#[test]
fn longest_records(rt: HostRuntime) -> Result<(), Fail> {
    longest_of_1(&rt, &two_records(rt.alloc(), &[7; 30], &[9; 40], &[7; 29])?)?;
    longest_of_2(
        &rt,
        &two_records(rt.alloc(), &[7; 56], &[9; 112], &[7; 55])?,
    )
}

/// The bytes with one of them set.
fn forged(bytes: &Vec<u8>, at: usize, byte: u8) -> Result<Vec<u8>, Fail> {
    let mut bytes = bytes.clone()?;
    set(&mut bytes, at, byte);
    Ok(bytes)
}

/// Each row: a byte that is set, a key of one byte, and the fault that the look-up answers.
fn expect_faults(
    rt: &impl Abort,
    bytes: &Vec<u8>,
    rows: &[(usize, u8, u8, ImageFault)],
) -> Result<(), Fail> {
    for (at, byte, key, want) in rows {
        let found = look(&forged(bytes, *at, *byte)?, &[*key])?;
        expect_eq!(rt; found, Err(*want));
    }
    Ok(())
}

/// Each row: a byte that is set, a key of one byte, and the one byte of its value.
fn expect_found(
    rt: &impl Abort,
    bytes: &Vec<u8>,
    rows: &[(usize, u8, u8, u8)],
) -> Result<(), Fail> {
    for (at, byte, key, want) in rows {
        let found = look(&forged(bytes, *at, *byte)?, &[*key])?;
        expect_eq!(rt; found, Ok(Some(Value::new(&[*want])?)));
    }
    Ok(())
}

/// Each row: a byte that is set, and a key of one byte that is absent.
fn expect_absent(rt: &impl Abort, bytes: &Vec<u8>, rows: &[(usize, u8, u8)]) -> Result<(), Fail> {
    for (at, byte, key) in rows {
        let found = look(&forged(bytes, *at, *byte)?, &[*key])?;
        expect_eq!(rt; found, Ok(None));
    }
    Ok(())
}

/// The key of one byte has this value of one byte in the bytes as they are.
fn expect_kept(rt: &impl Abort, bytes: &[u8], key: u8, want: u8) -> Result<(), Fail> {
    expect_eq!(rt, look(bytes, &[key])?, Ok(Some(Value::new(&[want])?)));
    Ok(())
}

fn expect_forged_pages_2(rt: &impl Abort, bytes: &Vec<u8>) -> Result<(), Fail> {
    expect_faults(
        rt,
        bytes,
        &[
            (4096, 2, b'a', ImageFault::Kind(1)),
            (8192, 0, b'd', ImageFault::Kind(2)),
            (4099, 1, b'e', ImageFault::Kind(1)),
            (12_288 + 15, 1, b'c', ImageFault::Kind(3)),
            (8196, 0, b'b', ImageFault::BucketNumber(2)),
            (12_292, 3, b'c', ImageFault::BucketNumber(3)),
            (8194, 2, b'b', ImageFault::Level(2)),
            (8193, 3, b'b', ImageFault::Used(2)),
            (12_296, 1, b'c', ImageFault::Used(3)),
            (4104, 1, b'a', ImageFault::Next(1)),
            (4104, 4, b'e', ImageFault::Next(1)),
            (4107, 1, b'a', ImageFault::Next(1)),
            (4113, 113, b'a', ImageFault::Slot(1)),
            (4112, 0, b'e', ImageFault::Slot(1)),
            (4112, 57, b'e', ImageFault::Slot(1)),
            (4171, 1, b'e', ImageFault::Slot(1)),
            (4282 + 3, 1, b'a', ImageFault::Slot(1)),
            (16_383, 1, b'c', ImageFault::Slot(3)),
            (12_288 + 16 + 170, 1, b'c', ImageFault::Slot(3)),
            (4114, b'b', b'e', ImageFault::Misfit(1)),
            (4114 + 170, b'c', b'a', ImageFault::Misfit(1)),
        ],
    )?;
    expect_found(
        rt,
        bytes,
        &[(4096, 2, b'b', b'2'), (4114, b'b', b'b', b'2')],
    )?;
    // The second record has no key: that comes before the misfit of the first.
    let misfit = forged(bytes, 4114, b'b')?;
    expect_faults(rt, &misfit, &[(4282, 0, b'e', ImageFault::Slot(1))])
}

fn expect_forged_pages_1(rt: &impl Abort, bytes: &Vec<u8>) -> Result<(), Fail> {
    expect_kept(rt, bytes, b'e', b'5')?;
    expect_faults(
        rt,
        bytes,
        &[
            (1024, 2, b'a', ImageFault::Kind(1)),
            (2052, 0, b'b', ImageFault::BucketNumber(2)),
            (2050, 2, b'b', ImageFault::Level(2)),
            (2049, 3, b'b', ImageFault::Used(2)),
            (1032, 9, b'a', ImageFault::Next(1)),
            (1040, 31, b'e', ImageFault::Slot(1)),
            (1113, 41, b'a', ImageFault::Slot(1)),
            (4095, 1, b'c', ImageFault::Slot(3)),
            (1042, b'b', b'e', ImageFault::Misfit(1)),
        ],
    )?;
    expect_found(rt, bytes, &[(1042, b'b', b'd', b'4')])
}

/// Pages that have a fault by themselves. A key of another bucket doesn't meet them.
#[test]
fn forged_pages(rt: HostRuntime) -> Result<(), Fail> {
    expect_forged_pages_2(&rt, &three_buckets_image_2(rt.alloc())?)?;
    expect_forged_pages_1(&rt, &three_buckets_image(rt.alloc())?)
}

fn expect_forged_chains_2(rt: &impl Abort, bytes: &Vec<u8>) -> Result<(), Fail> {
    expect_found(
        rt,
        bytes,
        &[
            (8200, 2, b'a', b'1'),
            (8200, 2, b'g', b'4'),
            (8200, 1, b'a', b'1'),
            (8193, 0, b'a', b'1'),
        ],
    )?;
    expect_faults(
        rt,
        bytes,
        &[
            (8200, 2, b'b', ImageFault::Twice(2)),
            (8200, 1, b'g', ImageFault::Next(2)),
            (8200, 3, b'b', ImageFault::Next(2)),
            (8193, 0, b'e', ImageFault::Used(2)),
        ],
    )?;
    expect_absent(rt, bytes, &[(4104, 0, b'e'), (8210, b'a', b'e')])
}

fn expect_forged_chains_1(rt: &impl Abort, bytes: &Vec<u8>) -> Result<(), Fail> {
    expect_found(rt, bytes, &[(2056, 2, b'c', b'2')])?;
    expect_faults(
        rt,
        bytes,
        &[
            (2056, 2, b'b', ImageFault::Twice(2)),
            (1032, 3, b'a', ImageFault::Next(1)),
        ],
    )
}

/// A chain that goes on in the chain of the other bucket.
fn expect_crossed(rt: &impl Abort, bytes: &Vec<u8>) -> Result<(), Fail> {
    let at = if bytes.len() < 4096 * 2 {
        1024 + 8
    } else {
        4096 + 8
    };
    expect_kept(rt, bytes, b'd', b'4')?;
    expect_faults(
        rt,
        bytes,
        &[
            (at, 4, b'c', ImageFault::Next(1)),
            (at, 4, b'a', ImageFault::Next(1)),
        ],
    )?;
    expect_found(rt, bytes, &[(at, 4, b'd', b'4')])
}

/// Chains that come to a page again, to another bucket, or past the end. What stands before is found.
#[test]
fn forged_chains(rt: HostRuntime) -> Result<(), Fail> {
    expect_forged_chains_2(&rt, &two_pages_image_2(rt.alloc())?)?;
    expect_forged_chains_1(&rt, &two_pages_image(rt.alloc())?)?;
    for shape in [&VERSION_1, &VERSION_2] {
        expect_crossed(&rt, &two_buckets(rt.alloc(), shape)?)?;
    }
    Ok(())
}

/// The second record is found, and a key behind the last is not, or with this fault.
fn expect_falling(
    rt: &impl Abort,
    bytes: &[u8],
    behind: Result<Option<Value>, ImageFault>,
) -> Result<(), Fail> {
    let last = Ok(Some(Value::empty()));
    expect_eq!(rt; look(bytes, b"\0\0\0\x02")?, last);
    expect_eq!(rt; look(bytes, b"\0\0\0\x1f")?, behind);
    Ok(())
}

/// A chain in falling order of its pages, and a loop of all but its first page.
#[test]
fn falling_chains(rt: HostRuntime) -> Result<(), Fail> {
    let mut bytes = falling_chain(rt.alloc(), &VERSION_2, 30)?;
    expect_falling(&rt, &bytes, Ok(None))?;
    set(&mut bytes, 2 * 4096 + 8, 30);
    expect_falling(&rt, &bytes, Err(ImageFault::Twice(29)))
}

/// No more than so many bytes are no image.
fn expect_cut(rt: &impl Abort, bytes: &[u8], count: usize) {
    let want = if count < 4 {
        ImageFault::Magic
    } else {
        ImageFault::Short
    };
    let fault = Image::open(&bytes[..count.min(bytes.len())]).err();
    expect_eq!(rt, (count, fault), (count, Some(want)));
}

/// Every length of the first two pages, and one byte more than all. The other pages aren't looked at.
fn expect_lengths(rt: &impl Abort, bytes: &mut Vec<u8>, page: usize) -> Result<(), Fail> {
    for count in 0..page.saturating_mul(2) {
        expect_cut(rt, bytes, count);
    }
    expect!(rt, Image::open(bytes).is_ok());
    bytes.push(0)?;
    expect_eq!(rt, Image::open(bytes).err(), Some(ImageFault::Trailing));
    Ok(())
}

#[test]
fn cut_images(rt: HostRuntime) -> Result<(), Fail> {
    expect_lengths(&rt, &mut three_buckets_image(rt.alloc())?, 1024)?;
    expect_lengths(&rt, &mut three_buckets_image_2(rt.alloc())?, 4096)
}

/// Each row: a byte of the header that is set, and the fault that opening answers.
fn expect_headers(
    rt: &impl Abort,
    bytes: &Vec<u8>,
    rows: &[(usize, u8, ImageFault)],
) -> Result<(), Fail> {
    for (at, byte, want) in rows {
        let fault = Image::open(&forged(bytes, *at, *byte)?).err();
        expect_eq!(rt, (*at, fault), (*at, Some(*want)));
    }
    Ok(())
}

#[test]
fn headers(rt: HostRuntime) -> Result<(), Fail> {
    expect_headers(
        &rt,
        &three_buckets_image_2(rt.alloc())?,
        &[
            (3, b'3', ImageFault::Magic),
            (4, 0, ImageFault::HeaderField(4)),
            (8, 25, ImageFault::HeaderField(8)),
            (12, 9, ImageFault::HeaderField(12)),
            (16, 0, ImageFault::HeaderField(16)),
            (20, 1, ImageFault::HeaderField(20)),
            (4095, 1, ImageFault::HeaderField(36)),
            (24, 3, ImageFault::Counts),
            (28, 7, ImageFault::Counts),
            (24, 5, ImageFault::Short),
        ],
    )?;
    expect_headers(
        &rt,
        &three_buckets_image(rt.alloc())?,
        &[
            (3, b'2', ImageFault::HeaderField(36)),
            (8, 15, ImageFault::HeaderField(8)),
            (1023, 1, ImageFault::HeaderField(36)),
            (28, 7, ImageFault::Counts),
            (24, 5, ImageFault::Short),
        ],
    )
}
