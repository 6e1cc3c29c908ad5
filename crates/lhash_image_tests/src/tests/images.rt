//! Images, from scripts to bytes and from bytes to what is told of them.
use lh_expect::expect;
use lhash_expect::{
    CHAIN, CHAIN_WORDS, FIVE, FIVE_CENSUS, FIVE_RECORDS, FIVE_WORDS, built, fails, inserts, put,
    ran, told,
};
use std::process::Abort;
use std::sync::Wait;
use std::test::Fail;
use std::thread::Threads;

mod apart;
mod continued;
mod forged;
mod opened;
mod second;

/// The bytes of an image that are not zero: from which place on, and what.
type Part = (usize, &'static [u8]);

const FIVE_PARTS: &[Part] = &[
    (
        0,
        b"LHF1\x01\0\0\0\x02\0\0\0\x64\0\0\0\x03\0\0\0\0\0\x01\0\x04\0\0\0\x05",
    ),
    (1_024, b"\x01\x02\x02\0\0\0\0\0\0\0\0\0\0\0\0\0\x01\x01a"),
    (1_072, b"1"),
    (1_112, b"\x01\x01e"),
    (1_144, b"5"),
    (2_048, b"\x01\x02\x01\0\x01\0\0\0\0\0\0\0\0\0\0\0\x01\x01b"),
    (2_096, b"2"),
    (2_136, b"\x01\x01d"),
    (2_168, b"4"),
    (3_072, b"\x01\x01\x02\0\x02\0\0\0\0\0\0\0\0\0\0\0\x01\x01c"),
    (3_120, b"3"),
];

/// The image of a file with no record, in pages of two.
const EMPTY_PARTS: &[Part] = &[
    (
        0,
        b"LHF1\x01\0\0\0\x02\0\0\0\x64\0\0\0\x01\0\0\0\0\0\x01\0\x02",
    ),
    (1_024, b"\x01"),
];

const CHAIN_PARTS: &[Part] = &[
    (
        0,
        b"LHF1\x01\0\0\0\x02\0\0\0\x64\0\0\0\x01\0\0\0\x01\0\0\0\x03\0\0\0\x04",
    ),
    (1_024, b"\x01\x02\0\0\0\0\0\0\x02\0\0\0\0\0\0\0\x01\x01a"),
    (1_072, b"1"),
    (1_112, b"\x01\x01c"),
    (1_144, b"2"),
    (2_048, b"\x02\x02\0\0\0\0\0\0\0\0\0\0\0\0\0\0\x01\x01e"),
    (2_096, b"3"),
    (2_136, b"\x01\x01g"),
    (2_168, b"4"),
];

/// Both `check` and `dump` accept an image, and tell this of it.
pub fn accepted(
    rt: &(impl AllocGlobal + Threads + Wait + Sync),
    image: &[u8],
    census: &str,
    records: &str,
) -> Result<(), Fail> {
    told(rt, &["lhash", "check"], image, census.as_bytes())?;
    told(rt, &["lhash", "dump"], image, records.as_bytes())
}

/// This many bytes, zeros but for these parts.
fn bytes_of(rt: &impl AllocGlobal, size: usize, parts: &[Part]) -> Result<Vec<u8>, Fail> {
    let mut bytes = Vec::new(rt.alloc());
    bytes.resize(size, 0)?;
    for (place, part) in parts {
        put(bytes.as_mut_slice(), *place, part);
    }
    Ok(bytes)
}

/// `build` writes this image of a script.
fn builds(
    rt: &(impl AllocGlobal + Threads + Wait + Sync),
    words: &[&str],
    script: &str,
    size: usize,
    parts: &[Part],
) -> Result<Vec<u8>, Fail> {
    let image = bytes_of(rt, size, parts)?;
    told(rt, words, script.as_bytes(), &image)?;
    Ok(image)
}

#[test]
fn five_records_in_three_buckets(rt: HostRuntime) -> Result<(), Fail> {
    let image = builds(&rt, FIVE_WORDS, FIVE, 4_096, FIVE_PARTS)?;
    accepted(&rt, &image, FIVE_CENSUS, FIVE_RECORDS)
}

#[test]
fn an_empty_file(rt: HostRuntime) -> Result<(), Fail> {
    let image = builds(&rt, FIVE_WORDS, "", 2_048, EMPTY_PARTS)?;
    let census = "buckets 1\nlevel 0\npointer 0\nrecords 0\npages 2\noverflow 0\nlongest 1\n";
    accepted(&rt, &image, census, "")
}

#[test]
fn a_chain_of_two_pages(rt: HostRuntime) -> Result<(), Fail> {
    let image = builds(&rt, CHAIN_WORDS, CHAIN, 3_072, CHAIN_PARTS)?;
    let census = "buckets 1\nlevel 0\npointer 0\nrecords 4\npages 3\noverflow 1\nlongest 2\n";
    accepted(&rt, &image, census, "0 61 31\n0 63 32\n0 65 33\n0 67 34\n")
}

/// A script whose last record goes into the hole that a delete leaves, and the records that stand then.
const HOLE: &str = "insert 61 31\ninsert 63 32\ninsert 65 33\ninsert 67 34\ndelete 61\n";

const HOLE_RECORDS: &[u8] = b"0 67 34\n0 63 32\n0 65 33\n";

#[test]
fn a_record_goes_into_the_hole(rt: HostRuntime) -> Result<(), Fail> {
    let image = built(&rt, CHAIN_WORDS, HOLE)?;
    told(&rt, &["lhash", "dump"], &image, HOLE_RECORDS)
}

/// Eight keys in no order, a delete and a replace, in pages of three.
const UNSORTED: &str =
    "insert 67 31\ninsert 63 32\ninsert 61 33\ninsert 68 34\ninsert 62 35\ninsert 66 36\ninsert 64 37\ninsert 65 38\ndelete 61\nreplace 68 39\n";

const UNSORTED_WORDS: &[&str] = &["lhash", "build", "--capacity=3", "--max=1", "--image=1"];

const UNSORTED_PARTS: &[Part] = &[
    (
        0,
        b"LHF1\x01\0\0\0\x03\0\0\0\x64\0\0\0\x01\0\0\0\x01\0\0\0\x04\0\0\0\x07",
    ),
    (1_024, b"\x01\x03\0\0\0\0\0\0\x02\0\0\0\0\0\0\0\x01\x01g"),
    (1_072, b"1"),
    (1_112, b"\x01\x01c"),
    (1_144, b"2"),
    (1_184, b"\x01\x01e"),
    (1_216, b"8"),
    (2_048, b"\x02\x03\0\0\0\0\0\0\x03\0\0\0\0\0\0\0\x01\x01h"),
    (2_096, b"9"),
    (2_136, b"\x01\x01b"),
    (2_168, b"5"),
    (2_208, b"\x01\x01f"),
    (2_240, b"6"),
    (3_072, b"\x02\x01\0\0\0\0\0\0\0\0\0\0\0\0\0\0\x01\x01d"),
    (3_120, b"7"),
];

const UNSORTED_RECORDS: &str = "0 67 31\n0 63 32\n0 65 38\n0 68 39\n0 62 35\n0 66 36\n0 64 37\n";

/// Records stand as they came, but for the last one, which goes into the hole of the delete.
#[test]
fn records_of_a_chain_have_an_order(rt: HostRuntime) -> Result<(), Fail> {
    let image = builds(&rt, UNSORTED_WORDS, UNSORTED, 4_096, UNSORTED_PARTS)?;
    let census = "buckets 1\nlevel 0\npointer 0\nrecords 7\npages 4\noverflow 2\nlongest 3\n";
    accepted(&rt, &image, census, UNSORTED_RECORDS)
}

#[test]
fn long_keys_and_empty_values(rt: HostRuntime) -> Result<(), Fail> {
    let key = "616263646566676869606162636465666768696061626364656667686960";
    let value = "31323334353637383930313233343536373839303132333435363738393031323334353637383930";
    let script = format!(in rt.alloc(); "insert {key} {value}\ninsert 00ff -\n")?;
    let image = built(&rt, CHAIN_WORDS, script.as_str())?;
    let records = format!(in rt.alloc(); "0 {key} {value}\n0 00ff -\n")?;
    told(&rt, &["lhash", "dump"], &image, records.as_bytes())
}

/// This many records, one to a page, leave no page for the header.
#[test]
fn an_image_has_a_greatest_number_of_pages(rt: HostRuntime) -> Result<(), Fail> {
    let script = inserts(&rt, 1_048_576)?;
    let words = ["lhash", "build", "--capacity", "1"];
    fails(&rt, words.as_slice(), script.as_str(), 1, "image too large")
}

/// There is a page for each record.
#[test]
fn an_image_of_many_pages_is_read(rt: HostRuntime) -> Result<(), Fail> {
    let script = inserts(&rt, 110_000)?;
    let words = ["lhash", "build", "--capacity", "1", "--image", "1"];
    let image = built(&rt, words.as_slice(), script.as_str())?;
    let (code, census, _) = ran(&rt, &["lhash", "check"], &image)?;
    expect!(&rt, code == 0 && census.starts_with(b"buckets 65536\n"));
    Ok(())
}

#[test]
fn build_reads_scripts_as_commands_does(rt: HostRuntime) -> Result<(), Fail> {
    let build = ["lhash", "build"].as_slice();
    fails(&rt, build, "# x\n\nfrob", 1, "line 3: unknown word")?;
    fails(&rt, build, "insert - 31", 1, "line 1: key length 0")?;
    let words = ["lhash", "build", "--initial", "3", "--max", "2"];
    fails(&rt, words.as_slice(), "frob", 2, "max is less than initial")
}

/// The words are refused, and nothing is written.
fn turned_away(
    rt: &(impl Abort + AllocGlobal + Threads + Wait + Sync),
    words: &[&str],
) -> Result<(), Fail> {
    let (code, written, _) = ran(rt, words, b"")?;
    expect!(rt, code == 2 && written.is_empty());
    Ok(())
}

#[test]
fn what_reads_an_image_takes_no_options(rt: HostRuntime) -> Result<(), Fail> {
    for subcommand in ["check", "dump", "draw", "migrate", "query", "apply"] {
        for option in ["--max=1", "--initial=1", "-x"] {
            turned_away(&rt, &["lhash", subcommand, option])?;
        }
    }
    turned_away(&rt, &["lhash", "query", "--image=1"])?;
    turned_away(&rt, &["lhash", "apply", "--image=3"])
}
