//! What is written, and that it is read again.

use super::listed;
use lh_exchange::{LONGEST_RECORD, StreamFormat, head, read_records, tail, write_record};
use lh_expect::expect_eq;
use lh_page::{Key, Pair, Value};
use std::alloc::{AllocError, AllocGlobal, Global};
use std::process::Abort;
use std::test::Fail;

/// Records as a stream.
fn written(alloc: Global, format: StreamFormat, pairs: &[Pair]) -> Result<Vec<u8>, AllocError> {
    let mut room = [0; LONGEST_RECORD];
    let mut stream = Vec::new(alloc);
    stream.extend_from_slice(head(format))?;
    for pair in pairs {
        stream.extend_from_slice(write_record(format, pair, &mut room))?;
    }
    stream.extend_from_slice(tail(format))?;
    Ok(stream)
}

fn pair(key: &[u8], value: &[u8]) -> Result<Pair, Fail> {
    Ok(Pair {
        key: Key::new(key)?,
        value: Value::new(value)?,
    })
}

/// What is written of records is this.
fn expect_stream(
    rt: &(impl Abort + AllocGlobal),
    format: StreamFormat,
    pairs: &[Pair],
    want: &[u8],
) -> Result<(), Fail> {
    expect_eq!(rt; written(rt.alloc(), format, pairs)?.as_slice(), want);
    Ok(())
}

/// What is written of records is read again.
fn expect_read(
    rt: &(impl Abort + AllocGlobal),
    format: StreamFormat,
    pairs: &[Pair],
) -> Result<(), Fail> {
    let stream = written(rt.alloc(), format, pairs)?;
    let read = read_records(rt.alloc(), &stream)?;
    expect_eq!(rt; listed(rt.alloc(), &read)?.as_str(), listed(rt.alloc(), pairs)?.as_str());
    Ok(())
}

#[test]
fn records_are_written(rt: HostRuntime) -> Result<(), Fail> {
    let pairs = [pair(b"ada", b"0171")?, pair(b"\n->", b"")?];
    expect_stream(
        &rt,
        StreamFormat::Cdb,
        &pairs,
        b"+3,4:ada->0171\n+3,0:\n->->\n\n",
    )?;
    expect_stream(&rt, StreamFormat::Cdb, &pairs[..0], b"\n")?;
    expect_stream(
        &rt,
        StreamFormat::Db,
        &pairs,
        b"VERSION=3\nformat=bytevalue\ntype=btree\nHEADER=END\n 616461\n 30313731\n 0a2d3e\n \nDATA=END\n",
    )?;
    expect_stream(
        &rt,
        StreamFormat::Db,
        &pairs[..0],
        b"VERSION=3\nformat=bytevalue\ntype=btree\nHEADER=END\nDATA=END\n",
    )
}

#[test]
fn written_records_are_read(rt: HostRuntime) -> Result<(), Fail> {
    let pairs = [
        pair(&[0xff; 56], &[b'\n'; 112])?,
        pair(b"\\+1,1:a->b", b"\n\nDATA=END\n")?,
        pair(b"\0", b"")?,
        pair(&[b' '; 10], &[b'-'; 100])?,
    ];
    expect_read(&rt, StreamFormat::Cdb, &pairs)?;
    expect_read(&rt, StreamFormat::Db, &pairs)
}
