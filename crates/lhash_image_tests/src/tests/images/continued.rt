//! Images with a script behind them, whose calls `query` answers and `apply` makes.
use super::{HOLE, UNSORTED, UNSORTED_WORDS};
use lh_expect::{expect, expect_eq};
use lhash_expect::{CHAIN, CHAIN_WORDS, FIVE, FIVE_WORDS, behind, built, inserts, ran, told};
use std::process::Abort;
use std::sync::Wait;
use std::test::Fail;
use std::thread::Threads;

const QUERY: &[&str] = &["lhash", "query"];

const APPLY: &[&str] = &["lhash", "apply"];

const APPLY_FIRST: &[&str] = &["lhash", "apply", "--image", "1"];

/// The replies to a script behind an image.
fn answers(
    rt: &(impl AllocGlobal + Threads + Wait + Sync),
    image: &[u8],
    script: &str,
    replies: &str,
) -> Result<(), Fail> {
    told(rt, QUERY, &behind(rt, image, script)?, replies.as_bytes())
}

/// The image that `apply` writes of an image and a script behind it.
fn applied(
    rt: &(impl Abort + AllocGlobal + Threads + Wait + Sync),
    words: &[&str],
    image: &[u8],
    script: &str,
) -> Result<Vec<u8>, Fail> {
    let (code, written, text) = ran(rt, words, &behind(rt, image, script)?)?;
    assert!(rt; code == 0 && text.is_empty(), "{text}");
    Ok(written)
}

/// Both `query` and `apply` refuse an input, and write nothing.
fn refused(
    rt: &(impl Abort + AllocGlobal + Threads + Wait + Sync),
    image: &[u8],
    script: &str,
    fault: &str,
) -> Result<(), Fail> {
    let input = behind(rt, image, script)?;
    for words in [QUERY, APPLY, APPLY_FIRST] {
        refused_by(rt, words, &input, fault)?;
    }
    Ok(())
}

fn refused_by(
    rt: &(impl Abort + AllocGlobal + Threads + Wait + Sync),
    words: &[&str],
    input: &[u8],
    fault: &str,
) -> Result<(), Fail> {
    let (code, written, text) = ran(rt, words, input)?;
    expect_eq!(rt; text.as_str(), fault);
    expect!(rt, code == 1 && written.is_empty());
    Ok(())
}

/// The load is above its threshold with the seventh record, so the file grows to four buckets.
fn query_goes_on(
    rt: &(impl AllocGlobal + Threads + Wait + Sync),
    image: &[u8],
) -> Result<(), Fail> {
    let script = "search 61\ninsert 62 39\nreplace 65 -\nsearch 65\ndelete 63\nsearch 63\n";
    let replies = "found 31\nexists\nreplaced\nfound -\ndeleted\nabsent\nbuckets 3\n";
    answers(rt, image, script, replies)?;
    let script = "insert 66 36\ninsert 67 37\nsearch 67\n";
    let replies = "inserted\ninserted\nfound 37\nbuckets 4\n";
    answers(rt, image, script, replies)?;
    answers(rt, image, "", "buckets 3\n")?;
    answers(rt, image, "# nothing", "buckets 3\n")
}

#[test]
fn query_goes_on_from_the_image(rt: HostRuntime) -> Result<(), Fail> {
    query_goes_on(&rt, &built(&rt, FIVE_WORDS, FIVE)?)?;
    let empty = built(&rt, FIVE_WORDS, "")?;
    answers(&rt, &empty, "search 61\n", "absent\nbuckets 1\n")
}

/// It is the image's configuration that counts: this file has one bucket, whatever comes.
#[test]
fn query_has_the_configuration_of_the_image(rt: HostRuntime) -> Result<(), Fail> {
    let image = built(&rt, CHAIN_WORDS, CHAIN)?;
    let script = "insert 68 -\ninsert 69 -\ninsert 6a -\nsearch 67\n";
    let replies = "inserted\ninserted\ninserted\nfound 34\nbuckets 1\n";
    answers(&rt, &image, script, replies)
}

/// The image of a script's first part, with the second part behind it, is applied: what is left, in version 1.
fn left_after(
    rt: &(impl Abort + AllocGlobal + Threads + Wait + Sync),
    words: &[&str],
    first: &[u8],
    second: &[u8],
) -> Result<Vec<u8>, Fail> {
    let (code, mut input, _) = ran(rt, words, first)?;
    expect!(rt, code == 0);
    input.extend_from_slice(second)?;
    applied_first(rt, &input)
}

/// The image of version 1 that `apply` writes of an input.
fn applied_first(
    rt: &(impl Abort + AllocGlobal + Threads + Wait + Sync),
    input: &[u8],
) -> Result<Vec<u8>, Fail> {
    let (code, left, _) = ran(rt, APPLY_FIRST, input)?;
    expect!(rt, code == 0);
    Ok(left)
}

/// Wherever a script is cut behind a line, its two parts lead to the image of the whole.
fn cut_everywhere(
    rt: &(impl Abort + AllocGlobal + Threads + Wait + Sync),
    words: &[&str],
    script: &str,
) -> Result<(), Fail> {
    cut_to(rt, words, script.as_bytes(), &built(rt, words, script)?)
}

fn cut_to(
    rt: &(impl Abort + AllocGlobal + Threads + Wait + Sync),
    words: &[&str],
    script: &[u8],
    whole: &[u8],
) -> Result<(), Fail> {
    for cut in 0..=script.len() {
        let (first, second) = script.split_at(cut);
        if first.last() == Some(&b'\n') {
            let left = left_after(rt, words, first, second)?;
            assert!(rt; *left.as_slice() == *whole, "cut at {cut}");
        }
    }
    Ok(())
}

#[test]
fn apply_leads_on_to_the_image_of_all_calls(rt: HostRuntime) -> Result<(), Fail> {
    cut_everywhere(&rt, FIVE_WORDS, FIVE)?;
    cut_everywhere(&rt, CHAIN_WORDS, HOLE)?;
    cut_everywhere(&rt, UNSORTED_WORDS, UNSORTED)?;
    let words = ["lhash", "build", "--initial=2", "--capacity=1", "--image=1"];
    cut_everywhere(&rt, words.as_slice(), UNSORTED)
}

fn empty_script_migrates(
    rt: &(impl AllocGlobal + Threads + Wait + Sync),
    first: &[u8],
    second: &[u8],
) -> Result<(), Fail> {
    for image in [first, second] {
        for empty in ["", "\n\n", "# nothing\n"] {
            told(rt, APPLY, &behind(rt, image, empty)?, second)?;
            told(rt, APPLY_FIRST, &behind(rt, image, empty)?, first)?;
        }
    }
    Ok(())
}

fn applied_as_migrated(
    rt: &(impl Abort + AllocGlobal + Threads + Wait + Sync),
    first: &[u8],
) -> Result<(), Fail> {
    let (code, second, _) = ran(rt, &["lhash", "migrate"], first)?;
    expect!(rt, code == 0 && second.starts_with(b"LHF2"));
    empty_script_migrates(rt, first, &second)
}

/// Without a call it is the same file: `apply` writes what `migrate` writes.
#[test]
fn apply_of_an_empty_script_is_migrate(rt: HostRuntime) -> Result<(), Fail> {
    for (words, script) in [
        (FIVE_WORDS, FIVE),
        (CHAIN_WORDS, CHAIN),
        (UNSORTED_WORDS, UNSORTED),
    ] {
        applied_as_migrated(&rt, &built(&rt, words, script)?)?;
    }
    Ok(())
}

fn script_refused(
    rt: &(impl Abort + AllocGlobal + Threads + Wait + Sync),
    image: &[u8],
) -> Result<(), Fail> {
    refused(rt, image, "frob\n", "line 1: unknown word")?;
    refused(
        rt,
        image,
        "search 61\r\n\n# x\nsearch 6\n",
        "line 4: bad hexadecimal",
    )?;
    refused(rt, image, "\0", "line 1: unknown word")?;
    refused(rt, b"", "frob\n", "image I1")?;
    for cut in [1_023, 4_095] {
        let (head, _) = image.split_at(image.len().min(cut));
        refused(rt, head, "", "image I4")?;
    }
    Ok(())
}

/// Refused with a script that has a fault, and with an empty one.
fn refused_with_both(
    rt: &(impl Abort + AllocGlobal + Threads + Wait + Sync),
    image: &[u8],
    fault: &str,
) -> Result<(), Fail> {
    refused(rt, image, "frob\n", fault)?;
    refused(rt, image, "", fault)
}

/// The image's faults come first, then those of the script, whose lines are counted from its beginning.
#[test]
fn faults_of_the_image_come_before_those_of_the_script(rt: HostRuntime) -> Result<(), Fail> {
    let mut image = built(&rt, FIVE_WORDS, FIVE)?;
    script_refused(&rt, &image)?;
    // The level of the first bucket.
    if let Some(level) = image.get_mut(1_026) {
        *level = 7;
    }
    refused_with_both(&rt, &image, "image I8 at page 1")
}

fn script_too_long(
    rt: &(impl Abort + AllocGlobal + Threads + Wait + Sync),
    input: &mut Vec<u8>,
) -> Result<(), Fail> {
    let script = input.len();
    input.resize(script.saturating_add(16_777_216), b'\n')?;
    told(rt, QUERY, input, b"buckets 3\n")?;
    input.push(b'\n')?;
    refused_by(rt, QUERY, input, "script too long")?;
    refused_by(rt, APPLY, input, "script too long")
}

/// A script behind an image may be as long as any other.
#[test]
fn a_script_behind_an_image_may_be_too_long(rt: HostRuntime) -> Result<(), Fail> {
    script_too_long(&rt, &mut built(&rt, FIVE_WORDS, FIVE)?)
}

fn has_no_image_of_version_1(
    rt: &(impl Abort + AllocGlobal + Threads + Wait + Sync),
    input: &[u8],
) -> Result<(), Fail> {
    let (code, written, text) = ran(rt, APPLY_FIRST, input)?;
    expect!(rt, code == 1 && written.is_empty());
    expect!(rt, text.as_str().starts_with("image V2 at bucket "));
    Ok(())
}

fn has_one_of_version_2(
    rt: &(impl Abort + AllocGlobal + Threads + Wait + Sync),
    input: &[u8],
) -> Result<(), Fail> {
    let (code, left, _) = ran(rt, APPLY, input)?;
    expect!(rt, code == 0 && left.starts_with(b"LHF2"));
    Ok(())
}

/// A key of 32 bytes.
const LONG_KEY: &str = "6161616161616161616161616161616161616161616161616161616161616161";

fn long_key_left(
    rt: &(impl Abort + AllocGlobal + Threads + Wait + Sync),
    image: &[u8],
) -> Result<(), Fail> {
    let script = format!(in rt.alloc(); "insert {LONG_KEY} 31\n")?;
    let input = behind(rt, image, script.as_str())?;
    has_one_of_version_2(rt, &input)?;
    has_no_image_of_version_1(rt, &input)
}

fn long_key_and_fault(
    rt: &(impl Abort + AllocGlobal + Threads + Wait + Sync),
    image: &[u8],
) -> Result<(), Fail> {
    let script = format!(in rt.alloc(); "insert {LONG_KEY} 31\nfrob\n")?;
    refused(rt, image, script.as_str(), "line 2: unknown word")
}

/// What the calls leave may have no image of version 1; a fault of the script comes before.
#[test]
fn what_is_left_may_have_no_image_of_version_1(rt: HostRuntime) -> Result<(), Fail> {
    let image = built(&rt, FIVE_WORDS, FIVE)?;
    long_key_left(&rt, &image)?;
    long_key_and_fault(&rt, &image)?;
    let wide = built(&rt, &["lhash", "build", "--capacity=15"], FIVE)?;
    refused_by(&rt, APPLY_FIRST, &wide, "image V1")
}

/// The greatest number of pages: one record more than may stand in an image.
#[test]
fn what_is_left_may_be_too_large(rt: HostRuntime) -> Result<(), Fail> {
    let image = built(&rt, &["lhash", "build", "--capacity=1"], "")?;
    let script = inserts(&rt, 1_048_576)?;
    refused_by(
        &rt,
        APPLY,
        &behind(&rt, &image, script.as_str())?,
        "image too large",
    )
}
