//! Readers and writers that fail at each of their turns, or that give and take little, of every subcommand.
use lh_expect::{expect, expect_eq};
use lhash::run;
use lhash_expect::{
    FIVE, FIVE_CENSUS, FIVE_RECORDS, FIVE_WORDS, Sink, Source, behind, built, inserts, ran,
};
use std::io::{self, Write};
use std::process::Abort;
use std::sync::Wait;
use std::test::Fail;
use std::thread::Threads;

/// The words of a run, its script, and what it writes.
type Row = (&'static [&'static str], &'static str, &'static str);

/// A run of each subcommand that reads a script and writes text, and one that has nothing to write but still flushes.
const ROWS: [Row; 4] = [
    (
        &["lhash", "commands"],
        "insert 61 31\nreplace 61 32\n",
        "inserted\nreplaced\nbuckets 1\n",
    ),
    (
        &["lhash", "steps"],
        "call 0 search 61\nread 0\n",
        "called\naim 0 0\n",
    ),
    (&["lhash", "steps"], "", ""),
    (
        &["lhash", "drive", "--threads", "2"],
        "insert 61 31\ninsert 62 32\nsearch 61\ndelete 62\n",
        "settled\ncalls 4\nfound 1\nabsent 0\ninserted 2\nexists 0\ndeleted 1\nreplaced 0\nrecords 1\n",
    ),
];

/// A read that fails ends the run, with nothing written, and is not tried again.
fn read_fails(
    rt: &(impl Abort + AllocGlobal + Threads + Wait + Sync),
    words: &[&str],
    bytes: &[u8],
    at_once: usize,
    failing_read: usize,
) -> Result<(), Fail> {
    let mut source = Source {
        bytes,
        at_once,
        reads: 0,
        failing_read,
    };
    let mut output = Vec::new(rt.alloc());
    let status = run(rt, words, false, &mut source, &mut output);
    assert!(rt;
        status.code() == 3 && output.is_empty(),
        "read {failing_read}"
    );
    expect!(rt, source.reads == failing_read);
    let text = status.to_string(rt.alloc())?;
    expect!(rt, text.as_str() == "read failed");
    Ok(())
}

/// A reader that gives this many bytes at a time is read whole, in as many reads.
fn reads_whole(
    rt: &(impl Abort + AllocGlobal + Threads + Wait + Sync),
    words: &[&str],
    bytes: &[u8],
    at_once: usize,
    told: &[u8],
) -> Result<usize, Fail> {
    let mut source = Source {
        bytes,
        at_once,
        reads: 0,
        failing_read: 0,
    };
    let mut output = Vec::new(rt.alloc());
    let status = run(rt, words, false, &mut source, &mut output);
    expect!(rt, status.code() == 0 && *output.as_slice() == *told);
    Ok(source.reads)
}

/// Each read ends the run where it fails.
fn fails_at_each_read(
    rt: &(impl Abort + AllocGlobal + Threads + Wait + Sync),
    words: &[&str],
    bytes: &[u8],
    at_once: usize,
    told: &[u8],
) -> Result<(), Fail> {
    let reads = reads_whole(rt, words, bytes, at_once, told)?;
    for failing_read in 1..=reads {
        read_fails(rt, words, bytes, at_once, failing_read)?;
    }
    Ok(())
}

/// A write or the flush that fails ends the run, and is not tried again.
fn write_fails(
    rt: &(impl Abort + AllocGlobal + Threads + Wait + Sync),
    words: &[&str],
    input: &[u8],
    at_once: usize,
    failing_write: usize,
    whole: &[u8],
) -> Result<(), Fail> {
    let mut source = input;
    let mut sink = Sink::new(rt.alloc(), at_once, failing_write);
    let status = run(rt, words, false, &mut source, &mut sink);
    assert!(rt;
        status.code() == 3 && sink.writes == failing_write,
        "write {failing_write}"
    );
    expect!(rt, whole.starts_with(sink.bytes.as_slice()));
    let text = status.to_string(rt.alloc())?;
    expect!(rt, text.as_str() == "write failed");
    Ok(())
}

/// A writer that takes this many bytes at a time gets the whole, in as many writes with the flush.
fn takes_whole(
    rt: &(impl Abort + AllocGlobal + Threads + Wait + Sync),
    words: &[&str],
    input: &[u8],
    at_once: usize,
    whole: &[u8],
) -> usize {
    let mut source = input;
    let mut sink = Sink::new(rt.alloc(), at_once, 0);
    let status = run(rt, words, false, &mut source, &mut sink);
    expect!(rt, status.code() == 0 && *sink.bytes.as_slice() == *whole);
    sink.writes
}

/// Each of this many writes with the flush ends the run where it fails.
fn fails_at_each_write(
    rt: &(impl Abort + AllocGlobal + Threads + Wait + Sync),
    words: &[&str],
    input: &[u8],
    at_once: usize,
    writes: usize,
    whole: &[u8],
) -> Result<(), Fail> {
    expect!(rt, takes_whole(rt, words, input, at_once, whole) == writes);
    for failing_write in 1..=writes {
        write_fails(rt, words, input, at_once, failing_write, whole)?;
    }
    Ok(())
}

#[test]
fn each_failed_read_of_a_script_ends_the_run(rt: HostRuntime) -> Result<(), Fail> {
    for (words, script, told) in ROWS {
        fails_at_each_read(&rt, words, script.as_bytes(), 1, told.as_bytes())?;
    }
    let image = built(&rt, FIVE_WORDS, FIVE)?;
    fails_at_each_read(&rt, FIVE_WORDS, FIVE.as_bytes(), 4, &image)
}

/// Byte by byte there are as many writes as bytes, and the flush.
#[test]
fn each_failed_write_ends_the_run(rt: HostRuntime) -> Result<(), Fail> {
    for (words, script, told) in ROWS {
        let writes = told.len().saturating_add(1);
        fails_at_each_write(&rt, words, script.as_bytes(), 1, writes, told.as_bytes())?;
    }
    Ok(())
}

#[test]
fn each_failed_write_of_an_image_ends_build(rt: HostRuntime) -> Result<(), Fail> {
    let image = built(&rt, FIVE_WORDS, FIVE)?;
    let script = FIVE.as_bytes();
    expect!(
        &rt,
        takes_whole(&rt, FIVE_WORDS, script, 1, &image) == 4_097
    );
    fails_at_each_write(&rt, FIVE_WORDS, script, 64, 65, &image)?;
    fails_at_each_write(&rt, FIVE_WORDS, script, 4_096, 5, &image)
}

#[test]
fn images_are_read_in_pieces_of_any_length(rt: HostRuntime) -> Result<(), Fail> {
    let image = built(&rt, FIVE_WORDS, FIVE)?;
    for at_once in [1, 7, 1_024, 4_095] {
        let census = FIVE_CENSUS.as_bytes();
        reads_whole(&rt, &["lhash", "check"], &image, at_once, census)?;
        let records = FIVE_RECORDS.as_bytes();
        reads_whole(&rt, &["lhash", "dump"], &image, at_once, records)?;
    }
    Ok(())
}

/// Each read and each write of a subcommand that reads an image ends the run where it fails. Reads of 7 bytes
/// at most take 147 for each of the four pages, longer ones one; one more finds the end.
fn fails_at_each_turn(
    rt: &(impl Abort + AllocGlobal + Threads + Wait + Sync),
    words: &[&str],
    image: &[u8],
    told: &[u8],
) -> Result<(), Fail> {
    for (at_once, reads) in [(7, 589), (1_024, 5)] {
        expect!(rt, reads_whole(rt, words, image, at_once, told)? == reads);
        fails_at_each_read(rt, words, image, at_once, told)?;
    }
    fails_at_each_write(rt, words, image, 1, told.len().saturating_add(1), told)
}

fn draw_fails_at_each_turn(
    rt: &(impl Abort + AllocGlobal + Threads + Wait + Sync),
    image: &[u8],
) -> Result<(), Fail> {
    let draw = ["lhash", "draw"];
    let (_, drawing, _) = ran(rt, &draw, image)?;
    expect!(rt, drawing.len() > 1_000);
    fails_at_each_turn(rt, &draw, image, &drawing)
}

/// Pages are no bound to its reads, so those of 7 bytes at most are 586, of which the last takes one byte, and one that
/// finds the end.
fn get_fails_at_each_turn(
    rt: &(impl Abort + AllocGlobal + Threads + Wait + Sync),
    image: &[u8],
) -> Result<(), Fail> {
    let get = ["lhash", "get", "-", "62", "63"];
    let lines = b"found 32\nfound 33\n";
    for (at_once, reads) in [(7, 587), (1_024, 5)] {
        expect!(rt; reads_whole(rt, &get, image, at_once, lines)? == reads);
        fails_at_each_read(rt, &get, image, at_once, lines)?;
    }
    fails_at_each_write(rt, &get, image, 1, 19, lines)
}

/// Each failed turn ends each subcommand that reads an image and writes text.
fn each_fails_at_each_turn(
    rt: &(impl Abort + AllocGlobal + Threads + Wait + Sync),
    image: &[u8],
) -> Result<(), Fail> {
    fails_at_each_turn(rt, &["lhash", "check"], image, FIVE_CENSUS.as_bytes())?;
    fails_at_each_turn(rt, &["lhash", "dump"], image, FIVE_RECORDS.as_bytes())?;
    get_fails_at_each_turn(rt, image)?;
    draw_fails_at_each_turn(rt, image)
}

#[test]
fn each_failed_turn_ends_what_reads_an_image(rt: HostRuntime) -> Result<(), Fail> {
    each_fails_at_each_turn(&rt, &built(&rt, FIVE_WORDS, FIVE)?)
}

fn replay_fails_at_each_turn(
    rt: &(impl Abort + AllocGlobal + Threads + Wait + Sync),
    words: &[&str],
    steps: &[u8],
    picture: &[u8],
) -> Result<(), Fail> {
    expect!(rt, picture.len() > 500);
    fails_at_each_read(rt, words, steps, 1, picture)?;
    let writes = picture.len().saturating_add(1);
    fails_at_each_write(rt, words, steps, 1, writes, picture)
}

#[test]
fn each_failed_turn_ends_replay(rt: HostRuntime) -> Result<(), Fail> {
    let replay = ["lhash", "replay"];
    let steps = b"call 0 search 61\nread 0\n";
    let (_, picture, _) = ran(&rt, &replay, steps)?;
    replay_fails_at_each_turn(&rt, &replay, steps, &picture)
}

/// An image of either version is turned into one of version 2 of four pages.
fn migrate_fails_at_each_turn(
    rt: &(impl Abort + AllocGlobal + Threads + Wait + Sync),
    words: &[&str],
    old: &[u8],
    new: &[u8],
) -> Result<(), Fail> {
    expect_eq!(rt, new.len(), 16_384);
    fails_at_each_read(rt, words, old, 7, new)?;
    fails_at_each_read(rt, words, old, 1_024, new)?;
    fails_at_each_read(rt, words, new, 1_024, new)?;
    fails_at_each_write(rt, words, old, 64, 257, new)?;
    fails_at_each_write(rt, words, old, 4_096, 5, new)
}

#[test]
fn each_failed_turn_ends_migrate(rt: HostRuntime) -> Result<(), Fail> {
    let migrate = ["lhash", "migrate"];
    let old = built(&rt, FIVE_WORDS, FIVE)?;
    let (_, new, _) = ran(&rt, &migrate, &old)?;
    migrate_fails_at_each_turn(&rt, &migrate, &old, &new)
}

fn query_fails_at_each_turn(
    rt: &(impl Abort + AllocGlobal + Threads + Wait + Sync),
    input: &[u8],
) -> Result<(), Fail> {
    let query = ["lhash", "query"];
    let replies = b"found 31\ninserted\ninserted\nbuckets 4\n";
    for at_once in [7, 1_024] {
        fails_at_each_read(rt, &query, input, at_once, replies)?;
    }
    let writes = replies.len().saturating_add(1);
    fails_at_each_write(rt, &query, input, 1, writes, replies)
}

fn apply_fails_at_each_turn(
    rt: &(impl Abort + AllocGlobal + Threads + Wait + Sync),
    words: &[&str],
    input: &[u8],
    left: &[u8],
) -> Result<(), Fail> {
    expect_eq!(rt, left.len(), 20_480);
    for at_once in [7, 1_024] {
        fails_at_each_read(rt, words, input, at_once, left)?;
    }
    fails_at_each_write(rt, words, input, 64, 321, left)?;
    fails_at_each_write(rt, words, input, 4_096, 6, left)
}

/// Four pages of version 1, and a script behind them.
#[test]
fn each_failed_turn_ends_what_goes_on_from_an_image(rt: HostRuntime) -> Result<(), Fail> {
    let script = "search 61\ninsert 66 36\ninsert 67 37\n";
    let apply = ["lhash", "apply"];
    let input = behind(&rt, &built(&rt, FIVE_WORDS, FIVE)?, script)?;
    query_fails_at_each_turn(&rt, &input)?;
    let (_, left, _) = ran(&rt, &apply, &input)?;
    apply_fails_at_each_turn(&rt, &apply, &input, &left)
}

/// A read that fails behind an image, where a fault of the script would stand, ends the run with this status.
fn ends_behind(
    rt: &(impl Abort + AllocGlobal + Threads + Wait + Sync),
    image: &[u8],
    code: u8,
) -> Result<(), Fail> {
    let input = behind(rt, image, "frob\n")?;
    for words in [["lhash", "query"], ["lhash", "apply"]] {
        let mut source = Source {
            bytes: &input,
            at_once: 1_024,
            reads: 0,
            failing_read: 5,
        };
        let mut output = Vec::new(rt.alloc());
        let status = run(rt, words.as_slice(), false, &mut source, &mut output);
        expect!(rt, status.code() == code && output.is_empty());
    }
    Ok(())
}

/// The faults of an image come before a read that fails behind it, and that before a fault of the script.
#[test]
fn a_failed_read_stands_between_image_and_script(rt: HostRuntime) -> Result<(), Fail> {
    let mut image = built(&rt, FIVE_WORDS, FIVE)?;
    ends_behind(&rt, &image, 3)?;
    // The level of the first bucket.
    if let Some(level) = image.get_mut(1_026) {
        *level = 7;
    }
    ends_behind(&rt, &image, 1)
}

/// An image with a byte in the place of another.
fn forged(rt: &impl AllocGlobal, image: &[u8], place: usize, byte: u8) -> Result<Vec<u8>, Fail> {
    let mut forged = behind(rt, image, "")?;
    if let Some(old) = forged.get_mut(place) {
        *old = byte;
    }
    Ok(forged)
}

/// The second read fails, and the fault of the first page is told.
fn first_page_fails(
    rt: &(impl Abort + AllocGlobal + Threads + Wait + Sync),
    bytes: &[u8],
    text: &str,
) -> Result<(), Fail> {
    let mut source = Source {
        bytes,
        at_once: 1_024,
        reads: 0,
        failing_read: 2,
    };
    let mut output = Vec::new(rt.alloc());
    let status = run(rt, &["lhash", "check"], false, &mut source, &mut output);
    expect!(rt, status.code() == 1 && output.is_empty());
    expect_eq!(rt; status.to_string(rt.alloc())?.as_str(), text);
    Ok(())
}

/// The first three faults of an image come before a read that fails.
#[test]
fn faults_of_the_first_page_come_before_a_failed_read(rt: HostRuntime) -> Result<(), Fail> {
    let image = built(&rt, FIVE_WORDS, FIVE)?;
    // The magic, the initial number of buckets, and the number of records.
    let faults = [
        (3, b'3', "image I1"),
        (4, 0, "image I2 at offset 4"),
        (28, 7, "image I3"),
    ];
    for (place, byte, text) in faults {
        first_page_fails(&rt, &forged(&rt, &image, place, byte)?, text)?;
    }
    Ok(())
}

#[test]
fn a_writer_that_takes_nothing_has_failed(rt: HostRuntime) -> Result<(), Fail> {
    let mut input = b"".as_slice();
    let mut sink = Sink::new(rt.alloc(), 0, 0);
    let words = ["lhash", "commands"];
    let status = run(&rt, words.as_slice(), false, &mut input, &mut sink);
    expect_eq!(&rt, status.to_string(rt.alloc())?.as_str(), "write failed");
    expect_eq!(rt; sink.writes, 1);
    Ok(())
}

/// What a script of many lines leads to goes out in few writes.
fn goes_out_in_chunks(
    rt: &(impl Abort + AllocGlobal + Threads + Wait + Sync),
    words: &[&str],
    input: &[u8],
    lines: usize,
) {
    let mut source = input;
    let mut sink = Sink::new(rt.alloc(), usize::MAX, 0);
    let status = run(rt, words, false, &mut source, &mut sink);
    expect!(rt, status.code() == 0 && sink.writes < 16);
    let written = sink.bytes.iter().filter(|byte| **byte == b'\n').count();
    expect!(rt, written == lines);
}

#[test]
fn many_lines_go_out_in_chunks(rt: HostRuntime) -> Result<(), Fail> {
    let script = inserts(&rt, 20_000)?;
    goes_out_in_chunks(&rt, &["lhash", "commands"], script.as_bytes(), 20_001);
    let image = built(&rt, &["lhash", "build"], script.as_str())?;
    goes_out_in_chunks(&rt, &["lhash", "dump"], &image, 20_000);
    Ok(())
}

/// Counts the bytes that it takes, and those of them that came after the last flush.
#[derive(Drop)]
struct Unflushed {
    bytes: usize,
    whole: usize,
}

impl Write for Unflushed {
    fn write(&mut self, buf: &[u8]) -> io::Result<usize> {
        self.bytes = self.bytes.saturating_add(buf.len());
        self.whole = self.whole.saturating_add(buf.len());
        Ok(buf.len())
    }

    fn flush(&mut self) -> io::Result<()> {
        self.bytes = 0;
        Ok(())
    }
}

/// However long the last chunk is, it is flushed: each search takes seven bytes, and the size ten.
#[test]
fn the_last_chunk_is_flushed(rt: HostRuntime) -> Result<(), Fail> {
    for searches in [0, 1, 5_800, 8_800, 9_360, 20_000] {
        let mut script = String::new(rt.alloc());
        for _ in 0..searches {
            script.push_str("search 61\n")?;
        }
        let mut input = script.as_bytes();
        let mut output = Unflushed { bytes: 0, whole: 0 };
        let status = run(&rt, &["lhash", "commands"], false, &mut input, &mut output);
        expect!(&rt, status.code() == 0 && output.bytes == 0);
        expect_eq!(rt;
            output.whole,
            7_usize.saturating_mul(searches).saturating_add(10)
        );
    }
    Ok(())
}
