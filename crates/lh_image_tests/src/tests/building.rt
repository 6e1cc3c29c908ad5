//! Listings, and images built by hand.
use crate::tests::streams::reader_of;
use lh_addr::{Config, Root, fnv1a};
use lh_bucket::Listing;
use lh_expect::{expect, expect_eq};
use lh_image::*;
use lh_page::{Key, Pair, Value};
use std::alloc::Global;
use std::process::Abort;
use std::test::Fail;

pub(crate) fn pair(key: &[u8], value: &[u8]) -> Result<Pair, Fail> {
    Ok(Pair {
        key: Key::new(key)?,
        value: Value::new(value)?,
    })
}

/// A record, and one with another key and no value.
pub(crate) fn two_records(
    alloc: Global,
    key: &[u8],
    value: &[u8],
    second: &[u8],
) -> Result<Vec<Pair>, Fail> {
    let first = pair(key, value)?;
    let second = pair(second, &[])?;
    let mut records = Vec::new(alloc);
    records.push(first)?;
    records.push(second)?;
    Ok(records)
}

/// Records with keys and values of one byte: each record is its key, then its value.
pub(crate) fn letters(alloc: Global, records: &[u8]) -> Result<Vec<Pair>, Fail> {
    let mut pairs = Vec::new(alloc);
    for record in records.chunks_exact(2) {
        if record.len() == 2 {
            pairs.push(pair(&record[..1], &record[1..])?)?;
        }
    }
    Ok(pairs)
}

/// This many records, with keys of four bytes and no values.
pub(crate) fn numbered(alloc: Global, count: u32) -> Result<Vec<Pair>, Fail> {
    let mut pairs = Vec::new(alloc);
    for number in 0..count {
        pairs.push(pair(&number.to_be_bytes(), &[])?)?;
    }
    Ok(pairs)
}

/// The listing of a file with these records, each in its bucket, in this order. The settings are the initial number
/// of buckets, the capacity, the load and the greatest number of buckets.
pub(crate) fn listing_of(
    alloc: Global,
    settings: [u32; 4],
    buckets: u32,
    records: &[Pair],
) -> Result<Listing, Fail> {
    let [initial, capacity, load, max] = settings;
    let config = Config::new(initial, capacity, load, max)
        .ok()
        .ok_or("config")?;
    let root = Root::new(initial, buckets).ok_or("root")?;
    let mut lists = Vec::new(alloc);
    for bucket in 0..buckets {
        let mut pairs = Vec::new(alloc);
        for pair in records {
            if root.address(fnv1a(pair.key.bytes())) == bucket {
                pairs.push(*pair)?;
            }
        }
        lists.push(pairs)?;
    }
    Ok(Listing::new(alloc, config, buckets, lists)?)
}

/// A file with no record.
pub(crate) fn empty(alloc: Global) -> Result<Listing, Fail> {
    listing_of(alloc, [1, 2, 100, 65_536], 1, &[])
}

/// Five records in three buckets.
pub(crate) fn three_buckets(alloc: Global) -> Result<Listing, Fail> {
    let records = letters(alloc, b"a1b2c3d4e5")?;
    listing_of(alloc, [1, 2, 100, 65_536], 3, &records)
}

/// Four records in one chain of two pages.
pub(crate) fn two_pages(alloc: Global) -> Result<Listing, Fail> {
    let records = letters(alloc, b"a1c2e3g4")?;
    listing_of(alloc, [1, 2, 100, 1], 1, &records)
}

/// Three buckets with pages of one record each: bucket 0 has three pages, bucket 1 two, bucket 2 one.
pub(crate) fn six_pages(alloc: Global) -> Result<Listing, Fail> {
    let records = letters(alloc, b"a1b2e3d4i5")?;
    listing_of(alloc, [1, 1, 100, 3], 3, &records)
}

fn put(bytes: &mut [u8], offset: usize, part: &[u8]) {
    for (place, byte) in part.iter().enumerate() {
        if let Some(old) = bytes.get_mut(offset.saturating_add(place)) {
            *old = *byte;
        }
    }
}

/// Bytes of an image: from which place on, and what.
pub(crate) type Part = (usize, &'static [u8]);

/// Puts parts where they stand.
pub(crate) fn put_all(bytes: &mut [u8], parts: &[Part]) {
    for (offset, part) in parts {
        put(bytes, *offset, part);
    }
}

/// This many bytes, zero but for these parts.
pub(crate) fn image_of(alloc: Global, size: usize, parts: &[Part]) -> Result<Vec<u8>, Fail> {
    let mut bytes = Vec::new(alloc);
    bytes.resize(size, 0)?;
    put_all(bytes.as_mut_slice(), parts);
    Ok(bytes)
}

/// The bytes of the image of version 1 of [`empty`].
pub(crate) fn empty_image(alloc: Global) -> Result<Vec<u8>, Fail> {
    let parts: [Part; 2] = [
        (
            0,
            b"LHF1\x01\0\0\0\x02\0\0\0\x64\0\0\0\x01\0\0\0\0\0\x01\0\x02\0\0\0",
        ),
        (1024, b"\x01"),
    ];
    image_of(alloc, 2048, &parts)
}

/// What is not zero in the image of [`three_buckets`].
pub(crate) const THREE_BUCKETS: &[Part] = &[
    (
        0,
        b"LHF1\x01\0\0\0\x02\0\0\0\x64\0\0\0\x03\0\0\0\0\0\x01\0\x04\0\0\0\x05\0\0\0\0\0\0\0",
    ),
    (1024, b"\x01\x02\x02\0\0\0\0\0\0\0\0\0\0\0\0\0\x01\x01\x61"),
    (1072, b"\x31"),
    (1112, b"\x01\x01\x65"),
    (1144, b"\x35"),
    (
        2048,
        b"\x01\x02\x01\0\x01\0\0\0\0\0\0\0\0\0\0\0\x01\x01\x62",
    ),
    (2096, b"\x32"),
    (2136, b"\x01\x01\x64"),
    (2168, b"\x34"),
    (
        3072,
        b"\x01\x01\x02\0\x02\0\0\0\0\0\0\0\0\0\0\0\x01\x01\x63",
    ),
    (3120, b"\x33"),
];

/// The bytes of the image of version 1 of [`three_buckets`].
pub(crate) fn three_buckets_image(alloc: Global) -> Result<Vec<u8>, Fail> {
    image_of(alloc, 4096, THREE_BUCKETS)
}

/// What is not zero in the image of [`two_pages`].
pub(crate) const TWO_PAGES: &[Part] = &[
    (
        0,
        b"LHF1\x01\0\0\0\x02\0\0\0\x64\0\0\0\x01\0\0\0\x01\0\0\0\x03\0\0\0\x04\0\0\0\0\0\0\0",
    ),
    (1024, b"\x01\x02\0\0\0\0\0\0\x02\0\0\0\0\0\0\0\x01\x01\x61"),
    (1072, b"\x31"),
    (1112, b"\x01\x01\x63"),
    (1144, b"\x32"),
    (2048, b"\x02\x02\0\0\0\0\0\0\0\0\0\0\0\0\0\0\x01\x01\x65"),
    (2096, b"\x33"),
    (2136, b"\x01\x01\x67"),
    (2168, b"\x34"),
];

/// The bytes of the image of version 1 of [`two_pages`].
pub(crate) fn two_pages_image(alloc: Global) -> Result<Vec<u8>, Fail> {
    image_of(alloc, 3072, TWO_PAGES)
}

/// The bytes of keys and values of a bucket, in their order.
pub(crate) fn shown(alloc: Global, listing: &Listing, bucket: u32) -> Result<Vec<u8>, Fail> {
    let mut shown = Vec::new(alloc);
    if bucket < listing.buckets() {
        for place in 0..listing.len_of(bucket) {
            let pair = listing.pair_at(bucket, place);
            shown.extend_from_slice(pair.key.bytes())?;
            shown.extend_from_slice(pair.value.bytes())?;
        }
    }
    Ok(shown)
}

/// Two listings are the same.
pub(crate) fn expect_same(rt: &impl Abort, found: &Listing, wanted: &Listing) {
    expect_eq!(rt, found.config(), wanted.config());
    expect!(rt, found.buckets() == wanted.buckets());
    for bucket in 0..wanted.buckets() {
        expect!(rt, found.len_of(bucket) == wanted.len_of(bucket));
        for place in 0..wanted.len_of(bucket) {
            expect_eq!(
                rt,
                found.pair_at(bucket, place),
                wanted.pair_at(bucket, place)
            );
        }
    }
}

/// The listing of an image, or its fault. It is asked for once more where memory was refused.
pub(crate) fn read_again(alloc: Global, bytes: &[u8]) -> Result<Listing, ImageFault> {
    match read_image(alloc, &mut reader_of(bytes, usize::MAX)) {
        Err(ImageFault::Memory) => read_image(alloc, &mut reader_of(bytes, usize::MAX)),
        answer => answer,
    }
}
