//! Images of version 2, and what becomes of those of version 1.
use super::forged::{Row, beginning, beginnings, edited, edits_refused, refused, rows};
use super::{HOLE, HOLE_RECORDS, Part, accepted, builds};
use lhash_expect::{
    CHAIN, CHAIN_WORDS, FIVE, FIVE_CENSUS, FIVE_RECORDS, FIVE_WORDS, built, fails, told,
};
use std::process::Abort;
use std::sync::Wait;
use std::test::Fail;
use std::thread::Threads;

const SECOND_FIVE_WORDS: &[&str] = &["lhash", "build", "--capacity", "2"];

const SECOND_CHAIN_WORDS: &[&str] = &["lhash", "build", "--capacity", "2", "--max", "1"];

const SECOND_FIVE_PARTS: &[Part] = &[
    (
        0,
        b"LHF2\x01\0\0\0\x02\0\0\0\x64\0\0\0\x03\0\0\0\0\0\x01\0\x04\0\0\0\x05",
    ),
    (4_096, b"\x01\x02\x02\0\0\0\0\0\0\0\0\0\0\0\0\0\x01\x01a"),
    (4_170, b"1"),
    (4_282, b"\x01\x01e"),
    (4_340, b"5"),
    (8_192, b"\x01\x02\x01\0\x01\0\0\0\0\0\0\0\0\0\0\0\x01\x01b"),
    (8_266, b"2"),
    (8_378, b"\x01\x01d"),
    (8_436, b"4"),
    (12_288, b"\x01\x01\x02\0\x02\0\0\0\0\0\0\0\0\0\0\0\x01\x01c"),
    (12_362, b"3"),
];

/// The image of a file with no record, in pages of two.
const SECOND_EMPTY_PARTS: &[Part] = &[
    (
        0,
        b"LHF2\x01\0\0\0\x02\0\0\0\x64\0\0\0\x01\0\0\0\0\0\x01\0\x02",
    ),
    (4_096, b"\x01"),
];

#[test]
fn five_records_in_pages_of_4_096_bytes(rt: HostRuntime) -> Result<(), Fail> {
    let image = builds(&rt, SECOND_FIVE_WORDS, FIVE, 16_384, SECOND_FIVE_PARTS)?;
    accepted(&rt, &image, FIVE_CENSUS, FIVE_RECORDS)?;
    let words = ["lhash", "build", "--image", "2", "--capacity", "2"];
    told(&rt, words.as_slice(), FIVE.as_bytes(), &image)?;
    builds(&rt, SECOND_FIVE_WORDS, "", 8_192, SECOND_EMPTY_PARTS)?;
    Ok(())
}

#[test]
fn a_record_goes_into_the_hole(rt: HostRuntime) -> Result<(), Fail> {
    let image = built(&rt, SECOND_CHAIN_WORDS, HOLE)?;
    told(&rt, &["lhash", "dump"], &image, HOLE_RECORDS)
}

/// The image that this script builds by one command, migrated, is the one that it builds by the other.
fn migrated(
    rt: &(impl AllocGlobal + Threads + Wait + Sync),
    script: &str,
    words: &[&str],
    others: &[&str],
) -> Result<(), Fail> {
    let image = built(rt, words, script)?;
    told(
        rt,
        &["lhash", "migrate"],
        &image,
        &built(rt, others, script)?,
    )
}

#[test]
fn an_image_of_either_version_is_migrated(rt: HostRuntime) -> Result<(), Fail> {
    let migrate = ["lhash", "migrate"].as_slice();
    migrated(&rt, FIVE, FIVE_WORDS, SECOND_FIVE_WORDS)?;
    migrated(&rt, FIVE, SECOND_FIVE_WORDS, SECOND_FIVE_WORDS)?;
    migrated(&rt, CHAIN, CHAIN_WORDS, SECOND_CHAIN_WORDS)?;
    fails(&rt, migrate, "LHF3", 1, "image I1")?;
    fails(&rt, migrate, "LHF1", 1, "image I4")
}

const FIRST_WORDS: &[&str] = &["lhash", "build", "--image", "1"];

/// Pages of version 1 have no room for as many records.
const WIDE_WORDS: &[&str] = &["lhash", "build", "--image", "1", "--capacity", "15"];

/// Five bytes, a sixth of the longest key of version 1 and an eighth of its longest value.
const PART_OF_BOTH: &str = "6161616161";

/// A key of one byte more.
fn longer_key_fails(
    rt: &(impl AllocGlobal + Threads + Wait + Sync),
    key: &str,
) -> Result<(), Fail> {
    let script = format!(in rt.alloc(); "insert {key}61 31\n")?;
    let fault = "image V2 at bucket 0 place 0";
    fails(rt, FIRST_WORDS, script.as_str(), 1, fault)
}

/// What this script builds has an image of version 2 alone.
fn second_has_one(
    rt: &(impl AllocGlobal + Threads + Wait + Sync),
    script: &str,
) -> Result<(), Fail> {
    fails(rt, FIRST_WORDS, script, 1, "image V2 at bucket 0 place 1")?;
    // Of two reasons the first.
    fails(rt, WIDE_WORDS, script, 1, "image V1")?;
    // A file that has none of version 1 has one of version 2.
    built(rt, ["lhash", "build"].as_slice(), script)?;
    Ok(())
}

/// The longest key and the longest value, and then a value of one byte more.
fn longer_value_fails(
    rt: &(impl AllocGlobal + Threads + Wait + Sync),
    key: &str,
    value: &str,
) -> Result<(), Fail> {
    let fits = format!(in rt.alloc(); "insert {key} {value}\n")?;
    built(rt, FIRST_WORDS, fits.as_str())?;
    let script = format!(in rt.alloc(); "{fits}insert 61 {value}31\n")?;
    second_has_one(rt, script.as_str())
}

#[test]
fn a_file_may_have_no_image_of_version_1(rt: HostRuntime) -> Result<(), Fail> {
    fails(&rt, WIDE_WORDS, "", 1, "image V1")?;
    let part = PART_OF_BOTH;
    let key = format!(in rt.alloc(); "{part}{part}{part}{part}{part}{part}")?;
    longer_key_fails(&rt, key.as_str())?;
    let value = format!(in rt.alloc(); "{key}{part}{part}")?;
    longer_value_fails(&rt, key.as_str(), value.as_str())
}

fn shorter_and_longer(
    rt: &(impl Abort + AllocGlobal + Threads + Wait + Sync),
    image: &mut Vec<u8>,
) -> Result<(), Fail> {
    beginnings(rt, image, 0, 4, "image I1")?;
    for (from, to) in [(4, 40), (1_020, 1_030), (4_090, 4_100), (16_380, 16_384)] {
        beginnings(rt, image, from, to, "image I4")?;
    }
    image.push(0)?;
    refused(rt, image, "image I5")
}

#[test]
fn too_few_and_too_many_bytes_of_version_2(rt: HostRuntime) -> Result<(), Fail> {
    shorter_and_longer(&rt, &mut built(&rt, SECOND_FIVE_WORDS, FIVE)?)
}

const FIELDS: &[Row] = &[
    (0, b"LHF3", "image I1"),
    // As an image of version 1 the header ends at 1,024, and there are too many bytes.
    (0, b"LHF1", "image I5"),
    (4, b"\0", "image I2 at offset 4"),
    (4, b"\xfe", "image I2 at offset 16"),
    (8, b"\x19", "image I2 at offset 8"),
    (12, b"\x09", "image I2 at offset 12"),
    (16, b"\0", "image I2 at offset 16"),
    (20, b"\x02\0\0", "image I2 at offset 20"),
    (1_024, b"\x01", "image I2 at offset 36"),
    (4_095, b"\x01", "image I2 at offset 36"),
    (24, b"\x03", "image I3"),
    (28, b"\x07", "image I3"),
    (24, b"\x05", "image I4"),
    (28, b"\x06", "image I9 at page 0"),
];

fn fields_refused(
    rt: &(impl Abort + AllocGlobal + Threads + Wait + Sync),
    image: &[u8],
) -> Result<(), Fail> {
    rows(rt, image, FIELDS)?;
    let endless = edited(rt, image, &[(24, b"\xff\xff\xff\xff")])?;
    refused(rt, beginning(&endless, 4_096), "image I3")
}

#[test]
fn fields_of_the_header_of_version_2(rt: HostRuntime) -> Result<(), Fail> {
    fields_refused(&rt, &built(&rt, SECOND_FIVE_WORDS, FIVE)?)
}

const PAGES: &[Row] = &[
    (8_192, b"\x02", "image I6 at page 2"),
    (4_099, b"\x01", "image I6 at page 1"),
    (12_292, b"\x01", "image I7 at page 3"),
    (12_289, b"\0", "image I9 at page 0"),
    (4_104, b"\x01", "image I10 at page 1"),
    (4_112, b"\x39", "image I13 at page 1"),
    (4_113, b"\x71", "image I13 at page 1"),
    (4_115, b"\x01", "image I13 at page 1"),
    (4_452, b"\x01", "image I13 at page 1"),
    (8_191, b"\x01", "image I13 at page 1"),
];

fn pages_refused(
    rt: &(impl Abort + AllocGlobal + Threads + Wait + Sync),
    image: &[u8],
) -> Result<(), Fail> {
    rows(rt, image, PAGES)?;
    // Of two faults the first in the order of the faults.
    let two = [(8_194, b"\x02".as_slice()), (8_200, b"\x01")];
    edits_refused(rt, image, &two, "image I8 at page 2")
}

#[test]
fn pages_of_version_2_by_themselves(rt: HostRuntime) -> Result<(), Fail> {
    pages_refused(&rt, &built(&rt, SECOND_FIVE_WORDS, FIVE)?)
}

const CHAINS: &[Row] = &[
    (8_200, b"\x01", "image I10 at page 2"),
    (8_200, b"\x02", "image I11 at page 2"),
    (4_104, b"\0", "image I12 at page 2"),
];

fn chains_refused(
    rt: &(impl Abort + AllocGlobal + Threads + Wait + Sync),
    image: &[u8],
) -> Result<(), Fail> {
    rows(rt, image, CHAINS)?;
    // The first record of the second page is that of the first page once more.
    let twice = [(8_210, b"a".as_slice()), (8_266, b"1")];
    edits_refused(rt, image, &twice, "image I14 at page 2")
}

#[test]
fn chains_of_two_pages_of_version_2(rt: HostRuntime) -> Result<(), Fail> {
    chains_refused(&rt, &built(&rt, SECOND_CHAIN_WORDS, CHAIN)?)
}
