//! `serve`, from words and bytes to bytes and a status.
use lh_expect::expect_eq;
use lhash::run;
use lhash_expect::{Sink, Source, fails, ran, writes};
use std::alloc::Global;
use std::process::Abort;
use std::sync::Wait;
use std::test::Fail;
use std::thread::Threads;

const SERVE: [&str; 4] = ["lhash", "serve", "--capacity", "1"];

const COMMANDS: [&str; 4] = ["lhash", "commands", "--capacity", "1"];

const CALLS: &str =
    "insert 61 31\ninsert 62 -\n# no request\ninsert 61 32\nreplace 62 3233\nsearch 62\n\ndelete 61\nsearch 61\ninsert 63 33\ninsert 64 34\n";

/// How many bytes a read or a write takes in the tests of devices.
const AT_ONCE: usize = 5;

#[test]
fn serve_has_the_replies_of_commands(rt: HostRuntime) -> Result<(), Fail> {
    let input = joined(rt.alloc(), CALLS.as_bytes(), b"buckets\n")?;
    let replies = replies_of(&rt, COMMANDS.as_slice(), CALLS.as_bytes())?;
    serves(&rt, SERVE.as_slice(), &input, &replies)
}

/// What a run wrote that ended well.
fn replies_of(
    rt: &(impl Abort + AllocGlobal + Threads + Wait + Sync),
    words: &[&str],
    input: &[u8],
) -> Result<Vec<u8>, Fail> {
    let (code, replies, _) = ran(rt, words, input)?;
    expect_eq!(rt; code, 0);
    Ok(replies)
}

/// A conversation ends well, with these answers.
fn serves(
    rt: &(impl Abort + AllocGlobal + Threads + Wait + Sync),
    words: &[&str],
    input: &[u8],
    due: &[u8],
) -> Result<(), Fail> {
    let (code, answers, text) = ran(rt, words, input)?;
    expect_eq!(rt, text.as_str(), "");
    expect_eq!(rt; code, 0);
    expect_eq!(rt; answers.as_slice(), due);
    Ok(())
}

#[test]
fn a_line_at_fault_is_answered_and_changes_nothing(rt: HostRuntime) -> Result<(), Fail> {
    let words = ["lhash", "serve", "--initial=3"];
    let input = "insert 61 31\nfrob\ninsert 6 31\nbuckets 3\nrecords\nbuckets\nrecor";
    let answers =
        "inserted\nfault unknown word\nfault bad hexadecimal\nfault wrong number of words\nrecords 1\nbuckets 3\n";
    writes(&rt, words.as_slice(), input, answers)?;
    let words = ["lhash", "serve", "--initial", "3", "--max", "2"];
    fails(
        &rt,
        words.as_slice(),
        "records\n",
        2,
        "max is less than initial",
    )
}

/// The image that a script of calls builds, in a version.
fn image_of(
    rt: &(impl Abort + AllocGlobal + Threads + Wait + Sync),
    version: &str,
    calls: &str,
) -> Result<Vec<u8>, Fail> {
    let words = ["lhash", "build", "--capacity", "1", "--image", version];
    let (code, image, _) = ran(rt, words.as_slice(), calls.as_bytes())?;
    expect_eq!(rt; code, 0);
    Ok(image)
}

/// Some bytes and others behind them.
fn joined(alloc: Global, first: &[u8], second: &[u8]) -> Result<Vec<u8>, Fail> {
    let mut all = Vec::new(alloc);
    all.extend_from_slice(first)?;
    all.extend_from_slice(second)?;
    Ok(all)
}

const FROM_IMAGE: [&str; 3] = ["lhash", "serve", "--image"];

/// The replies of `query`, and then the image that `apply` leaves.
fn due_of(alloc: Global, replies: &[u8], left: &[u8]) -> Result<Vec<u8>, Fail> {
    let head = format!(in alloc; "image {}\n", left.len())?;
    joined(alloc, &joined(alloc, replies, head.as_bytes())?, left)
}

/// What `query` and `apply` make of an image and the calls.
fn due_from(
    rt: &(impl Abort + AllocGlobal + Threads + Wait + Sync),
    image: &[u8],
) -> Result<Vec<u8>, Fail> {
    let input = joined(rt.alloc(), image, CALLS.as_bytes())?;
    let replies = replies_of(rt, &["lhash", "query"], &input)?;
    due_of(
        rt.alloc(),
        &replies,
        &replies_of(rt, &["lhash", "apply"], &input)?,
    )
}

fn goes_on_from(
    rt: &(impl Abort + AllocGlobal + Threads + Wait + Sync),
    image: &[u8],
) -> Result<(), Fail> {
    let lines = joined(rt.alloc(), CALLS.as_bytes(), b"buckets\nimage\n")?;
    let input = joined(rt.alloc(), image, &lines)?;
    serves(rt, FROM_IMAGE.as_slice(), &input, &due_from(rt, image)?)
}

#[test]
fn serve_goes_on_from_an_image_as_query_and_apply_do(rt: HostRuntime) -> Result<(), Fail> {
    for version in ["1", "2"] {
        let image = image_of(&rt, version, "insert 61 31\ninsert 65 35\n")?;
        goes_on_from(&rt, &image)?;
    }
    Ok(())
}

#[test]
fn serve_without_an_image_where_one_is_due_tells_why(rt: HostRuntime) -> Result<(), Fail> {
    fails(&rt, FROM_IMAGE.as_slice(), "", 1, "image I1")?;
    fails(&rt, FROM_IMAGE.as_slice(), "records\n", 1, "image I1")?;
    let words = ["lhash", "serve", "--image", "--load=100"];
    fails(
        &rt,
        words.as_slice(),
        "",
        2,
        "--image excludes --initial, --capacity, --load and --max",
    )
}

#[test]
fn a_read_that_fails_within_the_image_ends_serve(rt: HostRuntime) -> Result<(), Fail> {
    let image = image_of(&rt, "2", "insert 61 31\n")?;
    let input = joined(rt.alloc(), &image, b"records\n")?;
    for failing_read in 1..=3 {
        let mut source = Source {
            bytes: &input,
            at_once: 8_192,
            reads: 0,
            failing_read,
        };
        let mut output = Vec::new(rt.alloc());
        let status = run(&rt, FROM_IMAGE.as_slice(), false, &mut source, &mut output);
        assert!(rt; status.code() == 3, "read {failing_read}");
        assert!(rt; output.is_empty(), "read {failing_read}");
    }
    Ok(())
}

/// A failed read ends the run when the lines that had come by then are answered.
fn read_fails(
    rt: &(impl Abort + AllocGlobal + Threads + Wait + Sync),
    failing_read: usize,
) -> Result<(), Fail> {
    let mut source = Source {
        bytes: CALLS.as_bytes(),
        at_once: AT_ONCE,
        reads: 0,
        failing_read,
    };
    let mut output = Vec::new(rt.alloc());
    let status = run(rt, SERVE.as_slice(), false, &mut source, &mut output);
    expect_eq!(rt, status.code(), 3);
    let came = CALLS.len().saturating_sub(source.bytes.len());
    let (heard, _) = CALLS.as_bytes().split_at(came.min(CALLS.len()));
    let (_, answers, _) = ran(rt, SERVE.as_slice(), heard)?;
    assert_eq!(rt; output, answers, "read {failing_read}");
    Ok(())
}

#[test]
fn a_failed_read_ends_a_conversation(rt: HostRuntime) -> Result<(), Fail> {
    for failing_read in 1..=CALLS.len() / AT_ONCE + 1 {
        read_fails(&rt, failing_read)?;
    }
    Ok(())
}

#[test]
fn a_failed_write_ends_a_conversation(rt: HostRuntime) -> Result<(), Fail> {
    let (_, answers, _) = ran(&rt, SERVE.as_slice(), CALLS.as_bytes())?;
    for failing_write in 1..=answers.len() / AT_ONCE + 1 {
        let mut input = CALLS.as_bytes();
        let mut sink = Sink::new(rt.alloc(), AT_ONCE, failing_write);
        let status = run(&rt, SERVE.as_slice(), false, &mut input, &mut sink);
        assert!(rt;
            status.code() == 3 && answers.starts_with(&sink.bytes),
            "write {failing_write}"
        );
    }
    Ok(())
}
