//! Keys that are looked up in an image.
use lh_expect::{expect, expect_eq};
use lhash::run;
use lhash_expect::{CHAIN, CHAIN_WORDS, FIVE, FIVE_WORDS, Sink, Source, built, put, ran, told};
use std::process::Abort;
use std::sync::Wait;
use std::test::Fail;
use std::thread::Threads;

/// Keys to look up in the five records, and what is written of them.
type Row = (&'static [&'static str], &'static str);

const THERE: [Row; 4] = [
    (&["lhash", "get", "-", "61"], "found 31\n"),
    (
        &["lhash", "get", "-", "65", "61", "63"],
        "found 35\nfound 31\nfound 33\n",
    ),
    (&["lhash", "get", "-", "62", "62"], "found 32\nfound 32\n"),
    (
        &["lhash", "get", "five.lhf", "64", "65"],
        "found 34\nfound 35\n",
    ),
];

#[test]
fn keys_that_are_there(rt: HostRuntime) -> Result<(), Fail> {
    let image = built(&rt, FIVE_WORDS, FIVE)?;
    for (words, lines) in THERE {
        told(&rt, words, &image, lines.as_bytes())?;
    }
    Ok(())
}

/// What these words write of the image that `build` writes of a script.
fn finds(
    rt: &(impl AllocGlobal + Threads + Wait + Sync),
    build: &[&str],
    script: &str,
    words: &[&str],
    lines: &[u8],
) -> Result<(), Fail> {
    told(rt, words, &built(rt, build, script)?, lines)
}

/// The second page of a chain, in either version, and a value without a byte.
#[test]
fn keys_in_a_chain(rt: HostRuntime) -> Result<(), Fail> {
    let words = ["lhash", "get", "-", "67", "61"];
    finds(&rt, CHAIN_WORDS, CHAIN, &words, b"found 34\nfound 31\n")?;
    let build = ["lhash", "build", "--capacity=2", "--max=1"];
    finds(&rt, &build, CHAIN, &words, b"found 34\nfound 31\n")?;
    let words = ["lhash", "get", "-", "6a", "6A"];
    finds(
        &rt,
        CHAIN_WORDS,
        "insert 6A -\n",
        &words,
        b"found -\nfound -\n",
    )
}

const ABSENT: [Row; 4] = [
    (&["lhash", "get", "-", "66"], "absent\n"),
    (
        &["lhash", "get", "-", "61", "66", "62"],
        "found 31\nabsent\nfound 32\n",
    ),
    (&["lhash", "get", "-", "66", "61"], "absent\nfound 31\n"),
    (&["lhash", "get", "-", "6100", "00"], "absent\nabsent\n"),
];

/// All lines are written where a key is absent, and the status says so.
#[test]
fn keys_that_are_absent(rt: HostRuntime) -> Result<(), Fail> {
    let image = built(&rt, FIVE_WORDS, FIVE)?;
    for (words, lines) in ABSENT {
        let (code, written, text) = ran(&rt, words, &image)?;
        expect_eq!(&rt, (code, text.as_str()), (6, "a key is absent"));
        expect!(&rt, *written.as_slice() == *lines.as_bytes());
    }
    Ok(())
}

/// A run that ends so wrote nothing.
fn ends(
    rt: &(impl Abort + AllocGlobal + Threads + Wait + Sync),
    words: &[&str],
    input: &[u8],
    code: u8,
    fault: &str,
) -> Result<(), Fail> {
    let (status, written, text) = ran(rt, words, input)?;
    expect_eq!(rt; text.as_str(), fault);
    expect!(rt; status == code && written.is_empty());
    Ok(())
}

/// A word of 57 bytes.
const LONG: &str =
    "616161616161616161616161616161616161616161616161616161616161616161616161616161616161616161616161616161616161616161";

/// Words of which one is no key, and the fault that is told.
const NO_KEYS: [Row; 7] = [
    (&["lhash", "get", "-", "6"], "key 1: bad hexadecimal"),
    (&["lhash", "get", "-", "61", "6g"], "key 2: bad hexadecimal"),
    (
        &["lhash", "get", "-", "61", "62", "x", ""],
        "key 3: bad hexadecimal",
    ),
    (&["lhash", "get", "-", "61", ""], "key 2: key length 0"),
    (&["lhash", "get", "-", "-", "61"], "key 1: key length 0"),
    (&["lhash", "get", "-", LONG], "key 1: key length 57"),
    (&["lhash", "get", "-", "61 62"], "key 1: bad hexadecimal"),
];

#[test]
fn words_that_are_no_keys(rt: HostRuntime) -> Result<(), Fail> {
    let image = built(&rt, FIVE_WORDS, FIVE)?;
    for (words, fault) in NO_KEYS {
        ends(&rt, words, &image, 2, fault)?;
    }
    Ok(())
}

/// Nothing is read where a word is no key.
#[test]
fn words_are_read_before_the_input(rt: HostRuntime) -> Result<(), Fail> {
    let mut source = Source {
        bytes: b"LHF1",
        at_once: 1,
        reads: 0,
        failing_read: 0,
    };
    let mut output = Vec::new(rt.alloc());
    let words = ["lhash", "get", "-", "61", "z"];
    let status = run(&rt, words.as_slice(), false, &mut source, &mut output);
    expect_eq!(&rt, (status.code(), source.reads), (2, 0));
    Ok(())
}

#[test]
fn bytes_that_are_no_image(rt: HostRuntime) -> Result<(), Fail> {
    let words = ["lhash", "get", "-", "61"];
    ends(&rt, &words, b"", 1, "image I1")?;
    ends(&rt, &words, b"insert 61 31\n", 1, "image I1")?;
    let mut image = built(&rt, FIVE_WORDS, FIVE)?;
    let short = image.len().saturating_sub(1);
    ends(&rt, &words, &image[..short], 1, "image I4")?;
    image.push(0)?;
    ends(&rt, &words, &image, 1, "image I5")
}

/// The five records of which the pages of the first bucket and of the second have a wrong kind.
fn forged(rt: &(impl AllocGlobal + Threads + Wait + Sync)) -> Result<Vec<u8>, Fail> {
    let mut image = built(rt, FIVE_WORDS, FIVE)?;
    put(image.as_mut_slice(), 1_024, b"\x07");
    put(image.as_mut_slice(), 2_048, b"\x07");
    Ok(image)
}

/// The fault is the one that the first key meets which meets one, and no page counts that no key leads to.
#[test]
fn faults_that_keys_meet(rt: HostRuntime) -> Result<(), Fail> {
    let image = forged(&rt)?;
    told(&rt, &["lhash", "get", "-", "63"], &image, b"found 33\n")?;
    ends(
        &rt,
        &["lhash", "get", "-", "61"],
        &image,
        1,
        "image I6 at page 1",
    )?;
    ends(
        &rt,
        &["lhash", "get", "-", "63", "62"],
        &image,
        1,
        "image I6 at page 2",
    )?;
    ends(
        &rt,
        &["lhash", "get", "-", "62", "61"],
        &image,
        1,
        "image I6 at page 2",
    )?;
    ends(
        &rt,
        &["lhash", "get", "-", "61", "62"],
        &image,
        1,
        "image I6 at page 1",
    )
}

/// A write that fails ends the run by that, though a key is absent.
#[test]
fn a_failed_write_comes_before_an_absent_key(rt: HostRuntime) -> Result<(), Fail> {
    let image = built(&rt, FIVE_WORDS, FIVE)?;
    let words = ["lhash", "get", "-", "66"];
    for failing_write in 1..=8 {
        let mut source = image.as_slice();
        let mut sink = Sink::new(rt.alloc(), 1, failing_write);
        let status = run(&rt, words.as_slice(), false, &mut source, &mut sink);
        expect!(
            &rt,
            status.code() == 3 && b"absent\n".starts_with(sink.bytes.as_slice())
        );
    }
    Ok(())
}
