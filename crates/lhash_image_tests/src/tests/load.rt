//! Records that come from other stores, and go to them.
use lh_expect::{expect, expect_eq};
use lhash_expect::{FIVE, FIVE_RECORDS, FIVE_WORDS, built, fails, ran, told};
use std::process::Abort;
use std::sync::Wait;
use std::test::Fail;
use std::thread::Threads;

/// The five records as cdb has them, bucket by bucket.
const FIVE_CDB: &str = "+1,1:a->1\n+1,1:e->5\n+1,1:b->2\n+1,1:d->4\n+1,1:c->3\n\n";

/// The same as Berkeley DB and LMDB have them.
const FIVE_DB: &str = "VERSION=3\nformat=bytevalue\ntype=btree\nHEADER=END\n \
61\n 31\n 65\n 35\n 62\n 32\n 64\n 34\n 63\n 33\nDATA=END\n";

#[test]
fn records_go_out(rt: HostRuntime) -> Result<(), Fail> {
    let image = built(&rt, FIVE_WORDS, FIVE)?;
    let rows = [
        (["lhash", "dump", "--format", "lines"], FIVE_RECORDS),
        (["lhash", "dump", "--format", "cdb"], FIVE_CDB),
        (["lhash", "dump", "--format", "db"], FIVE_DB),
    ];
    for (words, output) in rows {
        told(&rt, words.as_slice(), &image, output.as_bytes())?;
    }
    Ok(())
}

/// Streams of the five records in the order in which the script adds them.
const IN_TURN: [&str; 4] = [
    "+1,1:a->1\n+1,1:b->2\n+1,1:c->3\n+1,1:d->4\n+1,1:e->5\n\n",
    "VERSION=3\nformat=bytevalue\nHEADER=END\n 61\n 31\n 62\n 32\n 63\n 33\n 64\n 34\n 65\n 35\nDATA=END\n",
    "VERSION=3\nformat=print\ntype=hash\nHEADER=END\n a\n 1\n b\n 2\n c\n 3\n d\n 4\n e\n 5\nDATA=END\n",
    "VERSION=3\nformat=print\nHEADER=END\n \\61\n 1\n b\n 2\n c\n \\33\n d\n 4\n e\n 5\nDATA=END\n",
];

/// The image is the one that `build` writes of inserts.
#[test]
fn records_come_in(rt: HostRuntime) -> Result<(), Fail> {
    let image = built(&rt, FIVE_WORDS, FIVE)?;
    let words = ["lhash", "load", "--capacity", "2", "--image", "1"];
    for stream in IN_TURN {
        told(&rt, words.as_slice(), stream.as_bytes(), &image)?;
    }
    let empty = built(&rt, FIVE_WORDS, "")?;
    told(&rt, words.as_slice(), b"\n", &empty)
}

/// What goes out and comes in again has the same records.
#[test]
fn records_come_back(rt: HostRuntime) -> Result<(), Fail> {
    let image = built(&rt, &["lhash", "build", "--max=1"], FIVE)?;
    for format in ["cdb", "db"] {
        let (code, stream, _) = ran(&rt, &["lhash", "dump", "--format", format], &image)?;
        expect_eq!(&rt, code, 0);
        told(&rt, &["lhash", "load", "--max=1"], &stream, &image)?;
    }
    Ok(())
}

/// A key and a value of any bytes, also of those that stand between records.
#[test]
fn records_of_any_bytes(rt: HostRuntime) -> Result<(), Fail> {
    let stream = b"+4,3:\n->,->\0\xff\n\n\n";
    let image = built(&rt, &["lhash", "build"], "insert 0A2D3E2C 00FF0A\n")?;
    told(&rt, &["lhash", "load"], stream, &image)?;
    told(&rt, &["lhash", "dump", "--format=cdb"], &image, stream)
}

/// Streams that are at fault, and how the run ends.
const FAULTS: [(&str, &str); 12] = [
    ("", "neither cdb nor db"),
    ("insert 61 31\n", "neither cdb nor db"),
    ("+1,1:a->1\n", "record 2: no end line"),
    ("+1,1:a->1\n\n\n", "record 2: bytes behind the end"),
    ("+1,1:a->1\n+2,1:a->1\n\n", "record 2: bad record"),
    ("+0,1:->1\n\n", "record 1: key length 0"),
    ("+57,1:a->1\n\n", "record 1: key length 57"),
    ("+1,113:a->1\n\n", "record 1: value length 113"),
    (
        "+1,1:a->1\n+1,1:b->2\n+1,1:a->3\n+1,1:b->3\n\n",
        "record 3: its key came before",
    ),
    (
        "VERSION=3\nHEADER=END\n 61\n 31\nDATA=END\n",
        "line 2: no format= line",
    ),
    (
        "VERSION=3\nformat=bytevalue\nHEADER=END\n 61\n 3\nDATA=END\n",
        "record 1, line 5: bad value",
    ),
    (
        "VERSION=3\nformat=print\nHEADER=END\n a\n \\2\nDATA=END\n",
        "record 1, line 5: bad value",
    ),
];

#[test]
fn faults_of_streams(rt: HostRuntime) -> Result<(), Fail> {
    for (stream, fault) in FAULTS {
        fails(&rt, &["lhash", "load"], stream, 1, fault)?;
    }
    Ok(())
}

/// A file without an image has none for `load` either.
#[test]
fn records_without_an_image(rt: HostRuntime) -> Result<(), Fail> {
    let build = ["lhash", "build", "--image=1", "--capacity=15"];
    let (code, image, fault) = ran(&rt, build.as_slice(), FIVE.as_bytes())?;
    expect!(&rt, code == 1 && image.is_empty());
    let load = ["lhash", "load", "--image=1", "--capacity=15"];
    fails(&rt, load.as_slice(), FIVE_CDB, 1, fault.as_str())
}

/// Bytes that are no image have no records.
#[test]
fn no_image_goes_out(rt: HostRuntime) -> Result<(), Fail> {
    for format in ["--format=lines", "--format=cdb", "--format=db"] {
        fails(&rt, &["lhash", "dump", format], "+1", 1, "image I1")?;
    }
    Ok(())
}
