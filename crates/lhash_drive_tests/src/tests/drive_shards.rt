//! Command scripts in threads on several shards.
use lh_addr::Config;
use lh_bucket::Call;
use lh_expect::{expect, expect_eq};
use lh_file::NoGate;
use lh_page::{Key, Value};
use lhash::{DeviceFault, Driven, Status, drive_shards_with, drive_with, run};
use lhash_expect::{Sink, Source};
use std::process::Abort;
use std::sync::Wait;
use std::test::Fail;
use std::thread::Threads;

/// Adds four calls of each key, the first one of all keys, then the second, and so on: an insert, a replace, a delete of
/// each third key and an insert of the others once more, and a search.
fn add_lives(calls: &mut Vec<Call>, keys: u16) -> Result<(), Fail> {
    let (one, two) = (Value::new(b"1")?, Value::new(b"22")?);
    for number in 0..keys {
        calls.push(Call::Insert(Key::new(&number.to_be_bytes())?, one))?;
    }
    for number in 0..keys {
        calls.push(Call::Replace(Key::new(&number.to_be_bytes())?, two))?;
    }
    for number in 0..keys {
        let key = Key::new(&number.to_be_bytes())?;
        if number % 3 == 0 {
            calls.push(Call::Delete(key))?;
        } else {
            calls.push(Call::Insert(key, one))?;
        }
    }
    for number in 0..keys {
        calls.push(Call::Search(Key::new(&number.to_be_bytes())?))?;
    }
    Ok(())
}

/// The number of keys is a multiple of each number of threads, so one thread makes all calls of a key.
#[test]
fn shards_have_the_totals_of_one_file(rt: HostRuntime) -> Result<(), Fail> {
    let config = Config::new(1, 2, 100, 65536)?;
    let mut calls = Vec::new(rt.alloc());
    add_lives(&mut calls, 960)?;
    let totals = Driven {
        calls: 3840,
        found: 640,
        absent: 320,
        inserted: 960,
        exists: 640,
        deleted: 320,
        replaced: 960,
        records: 640,
    };
    let one = drive_with(&rt, rt.alloc(), config, calls.as_slice(), 1, NoGate);
    expect_eq!(rt; one, Ok(totals));
    for shards in [1, 2, 8, 64] {
        for threads in [1, 4, 8] {
            expect!(&rt, threads > 0 && shards > 0 && shards <= 64);
            let calls = calls.as_slice();
            let driven = drive_shards_with(&rt, rt.alloc(), config, calls, threads, shards);
            assert_eq!(rt; driven, Ok(totals), "{shards} shards, {threads} threads");
        }
    }
    Ok(())
}

/// The number of calls is a multiple of none of these numbers of threads, and there are fewer keys than shards.
#[test]
fn calls_that_fill_no_row_of_threads_are_made(rt: HostRuntime) -> Result<(), Fail> {
    let config = Config::new(1, 14, 100, 65536)?;
    let mut calls = Vec::new(rt.alloc());
    for letter in b'a'..b'r' {
        calls.push(Call::Insert(Key::new(&[letter])?, Value::new(b"1")?))?;
    }
    let calls = calls.as_slice();
    for threads in [2, 3, 5, 16, 18, 64] {
        expect!(&rt, threads > 0);
        let driven = drive_shards_with(&rt, rt.alloc(), config, calls, threads, 64);
        let totals = Driven {
            calls: 17,
            found: 0,
            absent: 0,
            inserted: 17,
            exists: 0,
            deleted: 0,
            replaced: 0,
            records: 17,
        };
        assert_eq!(rt; driven, Ok(totals), "{threads} threads");
    }
    Ok(())
}

/// How a script ends in threads on shards of one bucket each, and what is written then.
fn answered(
    rt: &(impl Abort + AllocGlobal + Threads + Wait + Sync),
    script: &str,
    threads: &str,
    shards: &str,
) -> Result<(Status, Vec<u8>), Fail> {
    let words = ["lhash", "drive", "--threads", threads, "--shards", shards];
    let (mut source, mut output) = (script.as_bytes(), Vec::new(rt.alloc()));
    let status = run(rt, words.as_slice(), false, &mut source, &mut output);
    Ok((status, output))
}

/// A script ends well on each of these numbers of shards, and these totals are written.
fn writes_totals(
    rt: &(impl Abort + AllocGlobal + Threads + Wait + Sync),
    script: &str,
    threads: &str,
    totals: &str,
) -> Result<(), Fail> {
    for shards in ["1", "2", "8", "64"] {
        let (status, output) = answered(rt, script, threads, shards)?;
        expect_eq!(rt, status.code(), 0);
        assert_eq!(rt; output.as_slice(), totals.as_bytes(), "{shards} shards");
    }
    Ok(())
}

/// With four threads each key has a thread of its own, with two and with one too.
#[test]
fn each_reply_is_counted(rt: HostRuntime) -> Result<(), Fail> {
    let script =
        "insert 61 31\ninsert 62 32\ninsert 63 33\ninsert 64 34\nsearch 61\ninsert 62 35\ndelete 63\nsearch 64\nsearch 61\nsearch 62\nsearch 63\ndelete 64\nreplace 61 36\nreplace 62 -\nreplace 63 37\nreplace 64 38\n";
    let totals =
        "settled\ncalls 16\nfound 4\nabsent 3\ninserted 4\nexists 1\ndeleted 2\nreplaced 2\nrecords 2\n";
    for threads in ["1", "2", "4"] {
        writes_totals(&rt, script, threads, totals)?;
    }
    Ok(())
}

#[test]
fn an_empty_script_has_totals(rt: HostRuntime) -> Result<(), Fail> {
    let totals =
        "settled\ncalls 0\nfound 0\nabsent 0\ninserted 0\nexists 0\ndeleted 0\nreplaced 0\nrecords 0\n";
    for threads in ["1", "8"] {
        writes_totals(&rt, "# none\n", threads, totals)?;
    }
    Ok(())
}

#[test]
fn a_faulty_script_runs_nothing(rt: HostRuntime) -> Result<(), Fail> {
    let (status, output) = answered(&rt, "insert 61 31\nsearch 6\nfrob\n", "4", "8")?;
    expect_eq!(&rt, status.code(), 1);
    expect_eq!(
        &rt,
        status.to_string(rt.alloc())?.as_str(),
        "line 2: bad hexadecimal"
    );
    expect!(&rt, output.is_empty());
    Ok(())
}

#[test]
fn a_device_may_fail(rt: HostRuntime) -> Result<(), Fail> {
    let words = ["lhash", "drive", "--threads", "2", "--shards", "2"];
    for (failing_read, failing_write) in [(2, 0), (0, 1)] {
        let mut source = Source {
            bytes: b"insert 61 31\n",
            at_once: 5,
            reads: 0,
            failing_read,
        };
        let mut sink = Sink::new(rt.alloc(), 1_000, failing_write);
        let status = run(&rt, words.as_slice(), false, &mut source, &mut sink);
        let fault = if failing_read > 0 {
            DeviceFault::Read
        } else {
            DeviceFault::Write
        };
        expect!(&rt, matches!(status, Status::Device(told) if told == fault));
        expect!(&rt, sink.bytes.is_empty());
    }
    Ok(())
}
