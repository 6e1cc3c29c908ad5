//! Bytes that are no image, or another one than was built.
use super::accepted;
use lh_expect::expect;
use lhash_expect::{CHAIN, CHAIN_WORDS, FIVE, FIVE_WORDS, built, put, ran};
use std::process::Abort;
use std::sync::Wait;
use std::test::Fail;
use std::thread::Threads;

/// Bytes that are put into an image: from which place on, and what.
pub type Edit = (usize, &'static [u8]);

/// An edit of one image, and the fault that it has then.
pub type Row = (usize, &'static [u8], &'static str);

/// A subcommand refuses these bytes, and writes nothing.
fn refused_by(
    rt: &(impl Abort + AllocGlobal + Threads + Wait + Sync),
    subcommand: &str,
    bytes: &[u8],
    fault: &str,
) -> Result<(), Fail> {
    let (code, written, text) = ran(rt, &["lhash", subcommand], bytes)?;
    expect!(rt, code == 1 && written.is_empty());
    assert!(rt; text.as_str() == fault, "{text} for {fault}");
    Ok(())
}

/// Both `check` and `dump` refuse these bytes.
pub fn refused(
    rt: &(impl Abort + AllocGlobal + Threads + Wait + Sync),
    bytes: &[u8],
    fault: &str,
) -> Result<(), Fail> {
    refused_by(rt, "check", bytes, fault)?;
    refused_by(rt, "dump", bytes, fault)
}

/// The bytes with others in their place.
pub fn edited(rt: &impl AllocGlobal, bytes: &[u8], edits: &[Edit]) -> Result<Vec<u8>, Fail> {
    let mut edited = Vec::new(rt.alloc());
    edited.extend_from_slice(bytes)?;
    for (place, part) in edits {
        put(edited.as_mut_slice(), *place, part);
    }
    Ok(edited)
}

/// An image with these edits is refused.
pub fn edits_refused(
    rt: &(impl Abort + AllocGlobal + Threads + Wait + Sync),
    image: &[u8],
    edits: &[Edit],
    fault: &str,
) -> Result<(), Fail> {
    refused(rt, &edited(rt, image, edits)?, fault)
}

/// Each row's edit of an image is refused with the row's fault.
pub fn rows(
    rt: &(impl Abort + AllocGlobal + Threads + Wait + Sync),
    image: &[u8],
    rows: &[Row],
) -> Result<(), Fail> {
    for (place, part, fault) in rows {
        edits_refused(rt, image, &[(*place, *part)], fault)?;
    }
    Ok(())
}

/// The beginning of an image, of this many bytes.
pub fn beginning(image: &[u8], count: usize) -> &[u8] {
    image.get(..count).unwrap_or(image)
}

/// Beginnings from one length up to another are refused.
pub fn beginnings(
    rt: &(impl Abort + AllocGlobal + Threads + Wait + Sync),
    image: &[u8],
    from: usize,
    to: usize,
    fault: &str,
) -> Result<(), Fail> {
    for count in from..to {
        refused(rt, beginning(image, count), fault)?;
    }
    Ok(())
}

fn shorter_and_longer(
    rt: &(impl Abort + AllocGlobal + Threads + Wait + Sync),
    image: &mut Vec<u8>,
) -> Result<(), Fail> {
    beginnings(rt, image, 0, 4, "image I1")?;
    beginnings(rt, image, 4, 4_096, "image I4")?;
    image.push(0)?;
    refused(rt, image, "image I5")
}

#[test]
fn too_few_and_too_many_bytes(rt: HostRuntime) -> Result<(), Fail> {
    shorter_and_longer(&rt, &mut built(&rt, FIVE_WORDS, FIVE)?)
}

const FIELDS: &[Row] = &[
    (0, b"LHF3", "image I1"),
    (4, b"\0", "image I2 at offset 4"),
    (4, b"\xfe", "image I2 at offset 16"),
    (8, b"\x0f", "image I2 at offset 8"),
    (12, b"\x09", "image I2 at offset 12"),
    (16, b"\0", "image I2 at offset 16"),
    (20, b"\x02\0\0", "image I2 at offset 20"),
    (1_023, b"\x01", "image I2 at offset 36"),
    (24, b"\x03", "image I3"),
    (28, b"\x07", "image I3"),
    (24, b"\x05", "image I4"),
    (28, b"\x06", "image I9 at page 0"),
];

fn fields_refused(
    rt: &(impl Abort + AllocGlobal + Threads + Wait + Sync),
    image: &[u8],
) -> Result<(), Fail> {
    rows(rt, image, FIELDS)?;
    let endless = edited(rt, image, &[(24, b"\xff\xff\xff\xff")])?;
    refused(rt, beginning(&endless, 1_024), "image I3")
}

#[test]
fn fields_of_the_header(rt: HostRuntime) -> Result<(), Fail> {
    fields_refused(&rt, &built(&rt, FIVE_WORDS, FIVE)?)
}

const PAGES: &[Row] = &[
    (2_048, b"\x02", "image I6 at page 2"),
    (1_027, b"\x01", "image I6 at page 1"),
    (3_076, b"\x01", "image I7 at page 3"),
    (3_073, b"\0", "image I9 at page 0"),
    (1_043, b"\x01", "image I13 at page 1"),
    (1_032, b"\x01", "image I10 at page 1"),
];

fn pages_refused(
    rt: &(impl Abort + AllocGlobal + Threads + Wait + Sync),
    image: &[u8],
) -> Result<(), Fail> {
    rows(rt, image, PAGES)?;
    // Of two faults the first in the order of the faults.
    let two = [(2_050, b"\x02".as_slice()), (2_056, b"\x01")];
    edits_refused(rt, image, &two, "image I8 at page 2")
}

#[test]
fn pages_by_themselves(rt: HostRuntime) -> Result<(), Fail> {
    pages_refused(&rt, &built(&rt, FIVE_WORDS, FIVE)?)
}

const CHAINS: &[Row] = &[
    (2_056, b"\x01", "image I10 at page 2"),
    (2_056, b"\x02", "image I11 at page 2"),
    (1_032, b"\0", "image I12 at page 2"),
];

fn chains_refused(
    rt: &(impl Abort + AllocGlobal + Threads + Wait + Sync),
    image: &[u8],
) -> Result<(), Fail> {
    rows(rt, image, CHAINS)?;
    // The first record of the second page is that of the first page once more.
    let twice = [(2_066, b"a".as_slice()), (2_096, b"1")];
    edits_refused(rt, image, &twice, "image I14 at page 2")
}

#[test]
fn chains_of_two_pages(rt: HostRuntime) -> Result<(), Fail> {
    chains_refused(&rt, &built(&rt, CHAIN_WORDS, CHAIN)?)
}

const APART: &[Edit] = &[(2_056, b"\0"), (4_104, b"\x03")];

#[test]
fn a_loop_apart(rt: HostRuntime) -> Result<(), Fail> {
    let words = ["lhash", "build", "--capacity=1", "--max=1", "--image=1"];
    let script = "insert 61 31\ninsert 63 33\ninsert 65 35\ninsert 67 37\n";
    let image = built(&rt, words.as_slice(), script)?;
    edits_refused(&rt, &image, APART, "image I12 at page 3")
}

/// Two buckets with an overflow page each.
fn two_buckets(rt: &(impl AllocGlobal + Threads + Wait + Sync)) -> Result<Vec<u8>, Fail> {
    let words = [
        "lhash",
        "build",
        "--initial=2",
        "--capacity=1",
        "--max=2",
        "--image=1",
    ];
    let script = "insert 61 31\ninsert 62 32\ninsert 63 33\ninsert 64 34\n";
    built(rt, words.as_slice(), script)
}

/// The pages belong to the other bucket then, and their records don't.
const CROSSED: &[Edit] = &[
    (1_032, b"\x04"),
    (2_056, b"\x03"),
    (3_076, b"\x01"),
    (4_100, b"\0"),
];

fn crossed_refused(
    rt: &(impl Abort + AllocGlobal + Threads + Wait + Sync),
    image: &[u8],
) -> Result<(), Fail> {
    rows(rt, image, &[(1_032, b"\x04", "image I10 at page 1")])?;
    edits_refused(rt, image, CROSSED, "image I14 at page 3")
}

#[test]
fn crossed_chains(rt: HostRuntime) -> Result<(), Fail> {
    crossed_refused(&rt, &two_buckets(&rt)?)
}

/// Pages 3 and 4 exchanged: what tells one from the other is their bucket, their key and their value.
const EXCHANGED: &[Edit] = &[
    (1_032, b"\x04"),
    (2_056, b"\x03"),
    (3_076, b"\x01"),
    (3_090, b"d"),
    (3_120, b"4"),
    (4_100, b"\0"),
    (4_114, b"c"),
    (4_144, b"3"),
];

#[test]
fn pages_exchanged_are_the_same_file(rt: HostRuntime) -> Result<(), Fail> {
    let image = edited(&rt, &two_buckets(&rt)?, EXCHANGED)?;
    let census = "buckets 2\nlevel 0\npointer 0\nrecords 4\npages 5\noverflow 2\nlongest 2\n";
    accepted(&rt, &image, census, "0 61 31\n0 63 33\n1 62 32\n1 64 34\n")
}
