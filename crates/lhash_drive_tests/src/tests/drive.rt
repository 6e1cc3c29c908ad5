//! Command scripts in threads.
use lh_addr::Config;
use lh_bucket::Call;
use lh_expect::{expect, expect_eq};
use lh_file::{Gate, NoGate, Point};
use lh_page::{Key, Value};
use lhash::{Driven, Status, Unsettled, drive_with, drive_with_snapshots};
use lhash_expect::{fails, writes};
use std::alloc::{AllocError, Global};
use std::process::Abort;
use std::sync::Wait;
use std::sync::atomic::{AtomicU64, Ordering};
use std::test::Fail;
use std::thread;
use std::thread::Threads;

/// This many inserts of different keys, and then a search for each of them.
fn inserts_and_searches(alloc: Global, keys: u32) -> Result<String, Fail> {
    let mut script = String::new(alloc);
    for number in 0..keys {
        script.writeln(format_args!("insert {number:04x} {number:08x}"))?;
    }
    for number in 0..keys {
        script.writeln(format_args!("search {number:04x}"))?;
    }
    Ok(script)
}

#[test]
fn four_threads_find_what_they_inserted(rt: HostRuntime) -> Result<(), Fail> {
    let script = inserts_and_searches(rt.alloc(), 400)?;
    let words = ["lhash", "drive", "--threads", "4"];
    let totals =
        "settled\ncalls 800\nfound 400\nabsent 0\ninserted 400\nexists 0\ndeleted 0\nreplaced 0\nrecords 400\n";
    writes(&rt, words.as_slice(), script.as_str(), totals)
}

/// For each of this many keys the same four calls, the first one of all keys, then the second, and so on.
fn lives_of(alloc: Global, keys: u32) -> Result<String, Fail> {
    let mut script = String::new(alloc);
    for number in 0..keys {
        script.writeln(format_args!("insert {number:04x} 31"))?;
    }
    for number in 0..keys {
        script.writeln(format_args!("replace {number:04x} 32"))?;
    }
    for number in 0..keys {
        script.writeln(format_args!("search {number:04x}"))?;
    }
    for number in 0..keys {
        script.writeln(format_args!("delete {number:04x}"))?;
    }
    Ok(script)
}

/// The number of keys is a multiple of each number of threads, so one thread makes all calls of a key; in another order
/// than the script's they would have other replies.
#[test]
fn many_threads_make_their_calls_in_order(rt: HostRuntime) -> Result<(), Fail> {
    let script = lives_of(rt.alloc(), 1_600)?;
    let totals =
        "settled\ncalls 6400\nfound 1600\nabsent 0\ninserted 1600\nexists 0\ndeleted 1600\nreplaced 1600\nrecords 0\n";
    for threads in ["--threads=5", "--threads=50", "--threads=64"] {
        let words = ["lhash", "drive", "--capacity=2", threads];
        writes(&rt, words.as_slice(), script.as_str(), totals)?;
    }
    Ok(())
}

/// With this option there are the totals, and this behind them.
fn has_line(
    rt: &(impl AllocGlobal + Threads + Wait + Sync),
    script: &str,
    snapshots: &str,
    line: &str,
) -> Result<(), Fail> {
    let totals =
        "settled\ncalls 800\nfound 400\nabsent 0\ninserted 400\nexists 0\ndeleted 0\nreplaced 0\nrecords 400\n";
    let lines = format!(in rt.alloc(); "{totals}{line}")?;
    for threads in ["--threads=1", "--threads=4"] {
        let words = ["lhash", "drive", "--capacity=1", threads, snapshots];
        writes(rt, words.as_slice(), script, lines.as_str())?;
    }
    Ok(())
}

#[test]
fn snapshots_have_a_line(rt: HostRuntime) -> Result<(), Fail> {
    let script = inserts_and_searches(rt.alloc(), 400)?;
    has_line(&rt, script.as_str(), "--snapshots=0", "")?;
    has_line(&rt, script.as_str(), "--snapshots=1", "snapshots 1\n")?;
    has_line(&rt, script.as_str(), "--snapshots=5", "snapshots 5\n")
}

#[test]
fn an_empty_script_has_snapshots(rt: HostRuntime) -> Result<(), Fail> {
    let words = ["lhash", "drive", "--snapshots", "2"];
    let totals =
        "settled\ncalls 0\nfound 0\nabsent 0\ninserted 0\nexists 0\ndeleted 0\nreplaced 0\nrecords 0\nsnapshots 2\n";
    writes(&rt, words.as_slice(), "", totals)
}

#[test]
fn too_many_snapshots_are_refused(rt: HostRuntime) -> Result<(), Fail> {
    let words = ["lhash", "drive", "--snapshots", "1001"];
    let reason = "invalid value '1001' for '--snapshots <snapshots>': 1001 is not in 0..=1000";
    fails(&rt, words.as_slice(), "frob", 2, reason)?;
    let words = ["lhash", "commands", "--snapshots", "1"];
    let reason = "unexpected argument '--snapshots' found";
    fails(&rt, words.as_slice(), "frob", 2, reason)
}

#[test]
fn each_reply_is_counted(rt: HostRuntime) -> Result<(), Fail> {
    let words = ["lhash", "drive", "--threads", "1", "--initial=3"];
    let script =
        "insert 61 31\ninsert 61 32\nsearch 61\nsearch 62\ninsert 62 33\ndelete 61\ndelete 61\nsearch 62\ninsert 63 -\nreplace 62 34\nreplace 62 -\nreplace 64 -\nsearch 62\n";
    let totals =
        "settled\ncalls 13\nfound 3\nabsent 3\ninserted 3\nexists 1\ndeleted 1\nreplaced 2\nrecords 2\n";
    writes(&rt, words.as_slice(), script, totals)
}

#[test]
fn an_empty_script_has_totals(rt: HostRuntime) -> Result<(), Fail> {
    let words = ["lhash", "drive"];
    let totals =
        "settled\ncalls 0\nfound 0\nabsent 0\ninserted 0\nexists 0\ndeleted 0\nreplaced 0\nrecords 0\n";
    writes(&rt, words.as_slice(), "# none\n", totals)
}

#[test]
fn a_faulty_script_runs_nothing(rt: HostRuntime) -> Result<(), Fail> {
    let words = ["lhash", "drive"];
    let script = "insert 61 31\nsearch 6\nfrob\n";
    fails(&rt, words.as_slice(), script, 1, "line 2: bad hexadecimal")?;
    let words = ["lhash", "drive", "--initial", "3", "--max", "2"];
    fails(&rt, words.as_slice(), "frob", 2, "max is less than initial")
}

/// A status of this fault has code 5 and this text.
fn tells(rt: &(impl Abort + AllocGlobal), fault: Unsettled, text: &str) -> Result<(), AllocError> {
    let status = Status::NotSettled(fault);
    expect_eq!(rt, status.code(), 5);
    expect_eq!(rt; status.to_string(rt.alloc())?.as_str(), text);
    Ok(())
}

#[test]
fn what_is_not_settled_has_a_text(rt: HostRuntime) -> Result<(), Fail> {
    let key = Key::new(b"\x61\x0a")?;
    tells(
        &rt,
        Unsettled::SplitUnderWay,
        "not settled: split under way",
    )?;
    tells(
        &rt,
        Unsettled::MissingStamp(7),
        "not settled: missing stamp 7",
    )?;
    tells(&rt, Unsettled::Reply(12), "not settled: reply at 12")?;
    tells(&rt, Unsettled::Content(key), "not settled: content of 610a")?;
    let away = Unsettled::Placed { bucket: 3, key };
    tells(&rt, away, "not settled: place of 610a in bucket 3")?;
    tells(&rt, Unsettled::Call, "not settled: call fault")?;
    Ok(())
}

/// Holds each call at the first bucket that it gets, until this many calls have got one.
#[derive(Drop)]
struct MeetAll {
    wanted: u64,
    met: AtomicU64,
    late: AtomicU64,
}

/// How many turns a call is held before the test fails.
const TURNS: u32 = 1_000_000;

/// How many turns something that may not happen is given to happen.
const REST: u32 = 10_000;

impl Gate for MeetAll {
    fn at(&self, point: Point) {
        let Point::Holding { .. } = point else {
            return;
        };
        self.met.fetch_add(1, Ordering::SeqCst);
        for _turn in 0..TURNS {
            if self.met.load(Ordering::SeqCst) >= self.wanted {
                return;
            }
            thread::yield_now();
        }
        self.late.fetch_add(1, Ordering::SeqCst);
    }
}

/// An insert of a 1 for each letter.
fn inserts_of(alloc: Global, letters: &[u8]) -> Result<Vec<Call>, Fail> {
    let mut calls = Vec::new(alloc);
    let value = Value::new(b"1")?;
    for letter in letters {
        let key = Key::new(&[*letter])?;
        calls.push(Call::Insert(key, value))?;
    }
    Ok(calls)
}

/// The totals of this many inserts of different keys.
fn all_inserted(count: u64) -> Driven {
    Driven {
        calls: count,
        found: 0,
        absent: 0,
        inserted: count,
        exists: 0,
        deleted: 0,
        replaced: 0,
        records: count,
    }
}

/// An insert of each letter in a thread of its own: all of them hold a bucket of these at the same time.
fn hold_at_once(
    rt: &(impl Abort + AllocGlobal + Threads + Wait + Sync),
    letters: &[u8],
    threads: u32,
    buckets: u32,
) -> Result<(), Fail> {
    expect!(rt, threads > 0);
    let calls = inserts_of(rt.alloc(), letters)?;
    let wanted = u64::from(threads);
    let gate = MeetAll {
        wanted,
        met: AtomicU64::new(0),
        late: AtomicU64::new(0),
    };
    let config = Config::new(buckets, 14, 100, 65536)?;
    let driven = drive_with(rt, rt.alloc(), config, calls.as_slice(), threads, &gate);
    expect_eq!(rt; driven, Ok(all_inserted(wanted)));
    expect!(rt, gate.met.load(Ordering::SeqCst) >= wanted);
    expect_eq!(rt, gate.late.load(Ordering::SeqCst), 0);
    Ok(())
}

#[test]
fn calls_hold_as_many_buckets(rt: HostRuntime) -> Result<(), Fail> {
    hold_at_once(&rt, b"abcdefghi", 9, 16)?;
    hold_at_once(&rt, b"abcdefghijklmnopq", 17, 256)
}

/// The number of calls is a multiple of none of these numbers of threads.
#[test]
fn calls_that_fill_no_row_of_threads_are_made(rt: HostRuntime) -> Result<(), Fail> {
    let calls = inserts_of(rt.alloc(), b"abcdefghijklmnopq")?;
    let config = Config::new(1, 2, 100, 65536)?;
    for threads in [2, 3, 5, 16, 18, 64] {
        expect!(&rt, threads > 0);
        let driven = drive_with(&rt, rt.alloc(), config, calls.as_slice(), threads, NoGate);
        assert_eq!(rt; driven, Ok(all_inserted(17)), "{threads} threads");
    }
    Ok(())
}

/// Records are counted, and held against the acts, once their threads have ended.
#[test]
fn a_record_outlives_the_thread_that_wrote_it(rt: HostRuntime) -> Result<(), Fail> {
    let config = Config::new(1, 14, 100, 65536)?;
    let calls = inserts_of(rt.alloc(), b"a")?;
    let driven = drive_with(&rt, rt.alloc(), config, calls.as_slice(), 1, NoGate);
    expect_eq!(rt; driven, Ok(all_inserted(1)));
    Ok(())
}

/// A gate that takes one turn of waiting at every point.
#[derive(Clone, Copy)]
struct OneTurn;

impl Gate for OneTurn {
    fn at(&self, _point: Point) {
        thread::yield_now();
    }
}

/// This many inserts of different keys, and then a search for each of them.
fn calls_of(alloc: Global, keys: u16) -> Result<Vec<Call>, Fail> {
    let mut calls = Vec::new(alloc);
    let value = Value::new(b"1")?;
    for number in 0..keys {
        let key = Key::new(&number.to_be_bytes())?;
        calls.push(Call::Insert(key, value))?;
    }
    for number in 0..keys {
        let key = Key::new(&number.to_be_bytes())?;
        calls.push(Call::Search(key))?;
    }
    Ok(calls)
}

#[test]
fn eight_threads_settle_though_each_waits(rt: HostRuntime) -> Result<(), Fail> {
    let calls = calls_of(rt.alloc(), 1000)?;
    let config = Config::new(1, 1, 100, 65536)?;
    let driven = drive_with(&rt, rt.alloc(), config, calls.as_slice(), 8, OneTurn);
    let totals = Driven {
        calls: 2000,
        found: 1000,
        absent: 0,
        inserted: 1000,
        exists: 0,
        deleted: 0,
        replaced: 0,
        records: 1000,
    };
    expect_eq!(rt; driven, Ok(totals));
    Ok(())
}

/// Counts snapshots, and holds the thread that has made this many calls until there is one.
#[derive(Drop)]
struct HoldForSnapshot {
    wanted: u64,
    made: AtomicU64,
    taken: AtomicU64,
    late: AtomicU64,
}

impl HoldForSnapshot {
    fn after(wanted: u64) -> HoldForSnapshot {
        HoldForSnapshot {
            wanted,
            made: AtomicU64::new(0),
            taken: AtomicU64::new(0),
            late: AtomicU64::new(0),
        }
    }
}

impl Gate for HoldForSnapshot {
    fn at(&self, point: Point) {
        match point {
            Point::Surveyed { .. } => {
                self.taken.fetch_add(1, Ordering::SeqCst);
            }
            Point::Released { .. } => {
                if self.made.fetch_add(1, Ordering::SeqCst).wrapping_add(1) != self.wanted {
                    return;
                }
                for _turn in 0..TURNS {
                    if self.taken.load(Ordering::SeqCst) > 0 {
                        return;
                    }
                    thread::yield_now();
                }
                self.late.fetch_add(1, Ordering::SeqCst);
            }
            _ => {}
        }
    }
}

/// Of four calls in one thread and one snapshot, the snapshot comes after the second call, and the others wait for it.
#[test]
fn a_snapshot_is_taken_while_calls_are_made(rt: HostRuntime) -> Result<(), Fail> {
    let calls = inserts_of(rt.alloc(), b"abcd")?;
    let config = Config::new(1, 14, 100, 65536)?;
    let gate = HoldForSnapshot::after(2);
    let driven = drive_with_snapshots(&rt, rt.alloc(), config, calls.as_slice(), 1, 1, &gate);
    expect_eq!(rt; driven, Ok(all_inserted(4)));
    expect_eq!(&rt, gate.taken.load(Ordering::SeqCst), 1);
    expect_eq!(&rt, gate.late.load(Ordering::SeqCst), 0);
    Ok(())
}

/// Counts calls and snapshots. It holds a thread that has made two calls until there is a snapshot, and one that has made
/// four until there are two; one that has made three gives a second snapshot turns to come too soon.
#[derive(Drop)]
struct HoldsApart {
    made: AtomicU64,
    taken: AtomicU64,
    early: AtomicU64,
    late: AtomicU64,
}

impl HoldsApart {
    fn new() -> HoldsApart {
        HoldsApart {
            made: AtomicU64::new(0),
            taken: AtomicU64::new(0),
            early: AtomicU64::new(0),
            late: AtomicU64::new(0),
        }
    }

    /// Whether there are so many snapshots within some turns.
    fn comes_to(&self, taken: u64, turns: u32) -> bool {
        for _turn in 0..turns {
            if self.taken.load(Ordering::SeqCst) >= taken {
                return true;
            }
            thread::yield_now();
        }
        false
    }
}

impl Gate for HoldsApart {
    fn at(&self, point: Point) {
        match point {
            Point::Surveyed { .. } => {
                self.taken.fetch_add(1, Ordering::SeqCst);
            }
            Point::Released { .. } => {
                let made = self.made.fetch_add(1, Ordering::SeqCst);
                if made == 2 && self.comes_to(2, REST) {
                    self.early.fetch_add(1, Ordering::SeqCst);
                }
                if made == 1 && !self.comes_to(1, TURNS) || made == 3 && !self.comes_to(2, TURNS) {
                    self.late.fetch_add(1, Ordering::SeqCst);
                }
            }
            _ => {}
        }
    }
}

/// Of six calls in one thread and two snapshots, one comes after the second call and one after the fourth.
#[test]
fn snapshots_are_spread_over_the_calls(rt: HostRuntime) -> Result<(), Fail> {
    let calls = inserts_of(rt.alloc(), b"abcdef")?;
    let config = Config::new(1, 14, 100, 65536)?;
    let gate = HoldsApart::new();
    let driven = drive_with_snapshots(&rt, rt.alloc(), config, calls.as_slice(), 1, 2, &gate);
    expect_eq!(rt; driven, Ok(all_inserted(6)));
    expect_eq!(&rt, gate.taken.load(Ordering::SeqCst), 2);
    expect_eq!(&rt, gate.early.load(Ordering::SeqCst), 0);
    expect_eq!(&rt, gate.late.load(Ordering::SeqCst), 0);
    Ok(())
}

/// The number of keys is a multiple of each number of threads, so one thread makes both calls of a key.
#[test]
fn as_many_snapshots_are_taken(rt: HostRuntime) -> Result<(), Fail> {
    let calls = calls_of(rt.alloc(), 102)?;
    let config = Config::new(1, 1, 100, 65536)?;
    for (threads, snapshots) in [(1, 5), (3, 1), (3, 5), (3, 40), (3, 0)] {
        expect!(&rt, threads > 0);
        let gate = HoldForSnapshot::after(0);
        let driven = drive_with_snapshots(
            &rt,
            rt.alloc(),
            config,
            calls.as_slice(),
            threads,
            snapshots,
            &gate,
        );
        let totals = Driven {
            calls: 204,
            found: 102,
            absent: 0,
            inserted: 102,
            exists: 0,
            deleted: 0,
            replaced: 0,
            records: 102,
        };
        assert_eq!(rt;
            driven,
            Ok(totals),
            "{threads} threads, {snapshots} snapshots"
        );
        expect_eq!(&rt, gate.taken.load(Ordering::SeqCst), u64::from(snapshots));
    }
    Ok(())
}
