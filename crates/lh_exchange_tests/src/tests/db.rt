//! Streams of db.

use super::expect_outcome;
use lh_expect::expect_eq;
use std::alloc::{AllocError, AllocGlobal, Global};
use std::process::Abort;
use std::test::Fail;

/// A header of one line, and what stands behind it.
fn behind_header(alloc: Global, line: &[u8], body: &[u8]) -> Result<Vec<u8>, AllocError> {
    let mut text = Vec::new(alloc);
    text.extend_from_slice(b"VERSION=3\n".as_slice())?;
    text.extend_from_slice(line)?;
    text.extend_from_slice(b"\nHEADER=END\n".as_slice())?;
    text.extend_from_slice(body)?;
    Ok(text)
}

/// A stream with this line in its header has these records, or this is wrong with it.
fn expect_body(
    rt: &(impl Abort + AllocGlobal),
    line: &[u8],
    body: &[u8],
    want: &str,
) -> Result<(), Fail> {
    let text = behind_header(rt.alloc(), line, body)?;
    expect_outcome(rt, &text, want)
}

#[test]
fn records_of_digits_are_read(rt: HostRuntime) -> Result<(), Fail> {
    for (body, want) in [
        (b"DATA=END\n".as_slice(), ""),
        (
            b" 616461\n 30313731\nDATA=END\n".as_slice(),
            "[b\"ada\" b\"0171\"]",
        ),
        (
            b" 61\n \n 61\n 62\nDATA=END\n".as_slice(),
            "[b\"a\" b\"\"][b\"a\" b\"b\"]",
        ),
        (
            b" 0aFf\n 5C00\nDATA=END\n".as_slice(),
            "[b\"\\n\\xff\" b\"\\\\\\x00\"]",
        ),
    ] {
        expect_body(&rt, b"format=bytevalue".as_slice(), body, want)?;
    }
    Ok(())
}

#[test]
fn printed_records_are_read(rt: HostRuntime) -> Result<(), Fail> {
    for (body, want) in [
        (b"DATA=END\n".as_slice(), ""),
        (
            b" ada\n 0171\nDATA=END\n".as_slice(),
            "[b\"ada\" b\"0171\"]",
        ),
        (b" a\n \nDATA=END\n".as_slice(), "[b\"a\" b\"\"]"),
        // The first blank is no part of the key.
        (b"  a \n ~\nDATA=END\n".as_slice(), "[b\" a \" b\"~\"]"),
        (
            b" \\\\\n \\5c\nDATA=END\n".as_slice(),
            "[b\"\\\\\" b\"\\\\\"]",
        ),
        // An escape is one byte, printable or not, in either case.
        (
            b" \\2d\\2D\n a\\0a\\fFb\nDATA=END\n".as_slice(),
            "[b\"--\" b\"a\\n\\xffb\"]",
        ),
        (
            b" \\\\2d\n \\5c2d\nDATA=END\n".as_slice(),
            "[b\"\\\\2d\" b\"\\\\2d\"]",
        ),
        (
            b" DATA=END\n b\nDATA=END\n".as_slice(),
            "[b\"DATA=END\" b\"b\"]",
        ),
    ] {
        expect_body(&rt, b"format=print".as_slice(), body, want)?;
    }
    Ok(())
}

#[test]
fn digits_that_are_none_are_faults(rt: HostRuntime) -> Result<(), Fail> {
    for (body, want) in [
        (b"".as_slice(), "record 1, line 4: no end line"),
        (b"DATA=END".as_slice(), "record 1, line 4: no end line"),
        (
            b"DATA=END\n\n".as_slice(),
            "record 1, line 5: bytes behind the end",
        ),
        (b" 61\n".as_slice(), "record 1, line 4: no end line"),
        (b" 61\n 62".as_slice(), "record 1, line 4: no end line"),
        (b" 61\n 62\n".as_slice(), "record 2, line 6: no end line"),
        (b" 61\nDATA=END\n".as_slice(), "record 1, line 5: bad value"),
        (
            b" 61\n 62\n 6\n 62\nDATA=END\n".as_slice(),
            "record 2, line 6: bad record",
        ),
        (
            b" 61\n 62\n 63\n 6g\nDATA=END\n".as_slice(),
            "record 2, line 7: bad value",
        ),
        (
            b"61\n 62\nDATA=END\n".as_slice(),
            "record 1, line 4: bad record",
        ),
        (
            b" 61\n62\nDATA=END\n".as_slice(),
            "record 1, line 5: bad value",
        ),
        (
            b" 61\r\n 62\r\nDATA=END\n".as_slice(),
            "record 1, line 4: bad record",
        ),
        (
            b"\n 62\nDATA=END\n".as_slice(),
            "record 1, line 4: bad record",
        ),
        (
            b" \n 62\nDATA=END\n".as_slice(),
            "record 1, line 4: key length 0",
        ),
        (
            b" 61\n 62\nDATA=END\n 63\n".as_slice(),
            "record 2, line 7: bytes behind the end",
        ),
    ] {
        expect_body(&rt, b"format=bytevalue".as_slice(), body, want)?;
    }
    Ok(())
}

#[test]
fn prints_that_are_none_are_faults(rt: HostRuntime) -> Result<(), Fail> {
    for (body, want) in [
        (
            b" a\\\n b\nDATA=END\n".as_slice(),
            "record 1, line 4: bad record",
        ),
        (
            b" a\\2\n b\nDATA=END\n".as_slice(),
            "record 1, line 4: bad record",
        ),
        (
            b" a\\2g\n b\nDATA=END\n".as_slice(),
            "record 1, line 4: bad record",
        ),
        (
            b" a\\n\n b\nDATA=END\n".as_slice(),
            "record 1, line 4: bad record",
        ),
        (
            b" a\n b\x7f\nDATA=END\n".as_slice(),
            "record 1, line 5: bad value",
        ),
        (
            b" a\n b\xe4\nDATA=END\n".as_slice(),
            "record 1, line 5: bad value",
        ),
        (
            b" a\tb\n b\nDATA=END\n".as_slice(),
            "record 1, line 4: bad record",
        ),
    ] {
        expect_body(&rt, b"format=print".as_slice(), body, want)?;
    }
    Ok(())
}

#[test]
fn headers_are_judged(rt: HostRuntime) -> Result<(), Fail> {
    let body = b" 61\n 62\nDATA=END\n".as_slice();
    for (line, want) in [
        (
            b"type=btree\nformat=bytevalue\nmapsize=1048576".as_slice(),
            "[b\"a\" b\"b\"]",
        ),
        (
            b"format=print\ndb_pagesize=4096".as_slice(),
            "[b\"61\" b\"62\"]",
        ),
        (
            b"format=print\nformat=bytevalue".as_slice(),
            "[b\"a\" b\"b\"]",
        ),
        (
            b"keys=1\nduplicates=0\nformat=bytevalue".as_slice(),
            "[b\"a\" b\"b\"]",
        ),
        (b"type=btree".as_slice(), "line 3: no format= line"),
        (b"format=bytevalues".as_slice(), "line 2: unknown format="),
        (
            b"format=print\nkeys=0".as_slice(),
            "line 3: records without keys",
        ),
        (b"duplicates=1".as_slice(), "line 2: several values a key"),
        (
            b"duplicates=0\ndupsort=1".as_slice(),
            "line 3: several values a key",
        ),
        (b"type".as_slice(), "line 2: bad header line"),
        (b"".as_slice(), "line 2: bad header line"),
    ] {
        expect_body(&rt, line, body, want)?;
    }
    Ok(())
}

#[test]
fn other_streams_are_faults(rt: HostRuntime) -> Result<(), Fail> {
    for (bytes, want) in [
        (b"".as_slice(), "neither cdb nor db"),
        (b"VERSION=3".as_slice(), "neither cdb nor db"),
        (
            b"VERSION=2\nformat=print\nHEADER=END\nDATA=END\n".as_slice(),
            "neither cdb nor db",
        ),
        (b"a,b\n".as_slice(), "neither cdb nor db"),
        (b"VERSION=3\n".as_slice(), "line 2: no end line"),
        (
            b"VERSION=3\nformat=print\nHEADER=END".as_slice(),
            "line 3: no end line",
        ),
    ] {
        expect_outcome(&rt, bytes, want)?;
    }
    Ok(())
}

/// A stream whose first record has so many bytes in its key and in its value, each two digits.
fn of_lengths(alloc: Global, key: usize, value: usize) -> Result<Vec<u8>, AllocError> {
    let mut text = behind_header(alloc, b"format=bytevalue".as_slice(), b" ".as_slice())?;
    for _ in 0..key {
        text.extend_from_slice(b"4b".as_slice())?;
    }
    text.extend_from_slice(b"\n ".as_slice())?;
    for _ in 0..value {
        text.extend_from_slice(b"56".as_slice())?;
    }
    text.extend_from_slice(b"\nDATA=END\n".as_slice())?;
    Ok(text)
}

#[test]
fn lengths_are_judged(rt: HostRuntime) -> Result<(), Fail> {
    for (key, value, want) in [
        (57, 0, "record 1, line 4: key length 57"),
        (200, 0, "record 1, line 4: key length 200"),
        (56, 113, "record 1, line 5: value length 113"),
        (1, 1000, "record 1, line 5: value length 1000"),
    ] {
        expect_outcome(&rt, &of_lengths(rt.alloc(), key, value)?, want)?;
    }
    let longest = super::outcome(rt.alloc(), &of_lengths(rt.alloc(), 56, 112)?)?;
    // Brackets, a blank, and for each a `b` and two quotes.
    expect_eq!(&rt, longest.len(), 56 + 112 + 3 + 6);
    Ok(())
}
