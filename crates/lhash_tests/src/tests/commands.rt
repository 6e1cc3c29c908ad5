//! `commands`, from words and bytes to bytes and a status.
use lh_expect::{expect, expect_eq};
use lhash_expect::{fails, ran, told, writes};
use std::process::Abort;
use std::sync::Wait;
use std::test::Fail;
use std::thread::Threads;

const COMMANDS: &[&str] = &["lhash", "commands"];

#[test]
fn an_empty_script_has_the_size_alone(rt: HostRuntime) -> Result<(), Fail> {
    let words = ["lhash", "commands", "--initial", "3"];
    writes(&rt, words.as_slice(), "", "buckets 3\n")
}

#[test]
fn an_insert_keeps_the_value_that_is_there(rt: HostRuntime) -> Result<(), Fail> {
    let script = "insert 61 31\ninsert 61 32\nsearch 61\n";
    let output = "inserted\nexists\nfound 31\nbuckets 1\n";
    writes(&rt, ["lhash", "commands"].as_slice(), script, output)
}

#[test]
fn a_delete_ends_a_record(rt: HostRuntime) -> Result<(), Fail> {
    let script = "delete 61\ninsert 61 31\ndelete 61\nsearch 61\n";
    let output = "absent\ninserted\ndeleted\nabsent\nbuckets 1\n";
    writes(&rt, ["lhash", "commands"].as_slice(), script, output)
}

#[test]
fn a_replace_changes_a_value_that_is_there(rt: HostRuntime) -> Result<(), Fail> {
    let words = ["lhash", "commands"];
    let script = "replace 61 31\ninsert 61 31\nreplace 61 32\nsearch 61\n";
    let output = "absent\ninserted\nreplaced\nfound 32\nbuckets 1\n";
    writes(&rt, words.as_slice(), script, output)?;
    fails(
        &rt,
        words.as_slice(),
        "replace 61",
        1,
        "line 1: wrong number of words",
    )
}

#[test]
fn replaces_grow_no_file(rt: HostRuntime) -> Result<(), Fail> {
    let words = ["lhash", "commands", "--capacity", "1", "--max", "2"];
    let script = "insert 61 31\nreplace 61 -\nreplace 62 31\nreplace 61 3132\nsearch 61\n";
    let output = "inserted\nreplaced\nabsent\nreplaced\nfound 3132\nbuckets 1\n";
    writes(&rt, words.as_slice(), script, output)
}

#[test]
fn records_of_many_buckets_are_found(rt: HostRuntime) -> Result<(), Fail> {
    let words = ["lhash", "commands", "--initial", "3"];
    let script =
        "insert 61 31\ninsert 62 32\ninsert 63 -\nsearch 61\nsearch 62\nsearch 63\nsearch 64";
    let output = "inserted\ninserted\ninserted\nfound 31\nfound 32\nfound -\nabsent\nbuckets 3\n";
    writes(&rt, words.as_slice(), script, output)
}

/// Five records grow a file to so many buckets.
fn grows_to(
    rt: &(impl AllocGlobal + Threads + Wait + Sync),
    words: &[&str],
    buckets: u32,
) -> Result<(), Fail> {
    let script = "insert 61 31\ninsert 62 32\ninsert 63 33\ninsert 64 34\ninsert 65 35\n";
    let told = "inserted\ninserted\ninserted\ninserted\ninserted\n";
    let output = format!(in rt.alloc(); "{told}buckets {buckets}\n")?;
    writes(rt, words, script, output.as_str())
}

#[test]
fn a_file_grows_past_its_threshold(rt: HostRuntime) -> Result<(), Fail> {
    let words = ["lhash", "commands", "--capacity", "2"];
    grows_to(&rt, words.as_slice(), 3)?;
    let words = ["lhash", "commands", "--capacity", "2", "--load", "200"];
    grows_to(&rt, words.as_slice(), 2)?;
    let words = ["lhash", "commands", "--capacity", "2", "--max", "1"];
    grows_to(&rt, words.as_slice(), 1)
}

/// A quarter of the longest key, and an eighth of the longest value.
const PART: &str = "6162636465666768696a6b6c6d6e";

fn longest_are_taken(
    rt: &(impl AllocGlobal + Threads + Wait + Sync),
    key: &str,
    value: &str,
) -> Result<(), Fail> {
    let script = format!(in rt.alloc();
        "insert {key} {value}\nsearch {key}\ninsert {PART}{PART}616263 -\ninsert 61 -\n"
    )?;
    let output = format!(in rt.alloc();
        "inserted\nfound {value}\ninserted\ninserted\nbuckets 1\n"
    )?;
    writes(rt, COMMANDS, script.as_str(), output.as_str())
}

/// An insert of this key and this value is refused.
fn insert_fails(
    rt: &(impl AllocGlobal + Threads + Wait + Sync),
    key: &str,
    value: &str,
    fault: &str,
) -> Result<(), Fail> {
    let script = format!(in rt.alloc(); "insert {key} {value}")?;
    fails(rt, COMMANDS, script.as_str(), 1, fault)
}

/// The longest key and the longest value, and longer ones, of one byte more.
fn length_limits(
    rt: &(impl AllocGlobal + Threads + Wait + Sync),
    key: &str,
    value: &str,
) -> Result<(), Fail> {
    longest_are_taken(rt, key, value)?;
    let longer = format!(in rt.alloc(); "{key}61")?;
    insert_fails(rt, longer.as_str(), "31", "line 1: key length 57")?;
    let longer = format!(in rt.alloc(); "{value}31")?;
    insert_fails(rt, "61", longer.as_str(), "line 1: value length 113")?;
    insert_fails(rt, "-", "31", "line 1: key length 0")
}

#[test]
fn lengths_have_limits(rt: HostRuntime) -> Result<(), Fail> {
    let key = format!(in rt.alloc(); "{PART}{PART}{PART}{PART}")?;
    let value = format!(in rt.alloc(); "{key}{key}")?;
    length_limits(&rt, key.as_str(), value.as_str())
}

#[test]
fn the_first_fault_is_answered(rt: HostRuntime) -> Result<(), Fail> {
    let commands = ["lhash", "commands"];
    let commands = commands.as_slice();
    fails(&rt, commands, "# x\n\nfrob", 1, "line 3: unknown word")?;
    fails(
        &rt,
        commands,
        "insert 6g",
        1,
        "line 1: wrong number of words",
    )?;
    fails(&rt, commands, "insert 6g 31", 1, "line 1: bad hexadecimal")?;
    fails(&rt, commands, "insert - 3", 1, "line 1: key length 0")?;
    fails(
        &rt,
        commands,
        "search 61\r\r\n",
        1,
        "line 1: bad hexadecimal",
    )?;
    fails(
        &rt,
        commands,
        "search 61\nsearch 6\nfrob\n",
        1,
        "line 2: bad hexadecimal",
    )
}

#[test]
fn blanks_and_line_ends_mean_nothing(rt: HostRuntime) -> Result<(), Fail> {
    let commands = ["lhash", "commands"];
    let output = "absent\nbuckets 1\n";
    writes(&rt, commands.as_slice(), " \tsearch\t 61 \t\r\n", output)?;
    writes(&rt, commands.as_slice(), "search 61", output)?;
    writes(
        &rt,
        commands.as_slice(),
        "# a comment\n\n\t#x\nsearch 6A\n",
        output,
    )
}

fn is_too_long(
    rt: &(impl Abort + AllocGlobal + Threads + Wait + Sync),
    script: &[u8],
) -> Result<(), Fail> {
    let (code, written, text) = ran(rt, COMMANDS, script)?;
    expect_eq!(rt, text.as_str(), "script too long");
    expect_eq!(rt; code, 1);
    expect!(rt, written.is_empty());
    Ok(())
}

#[test]
fn a_script_has_a_limit(rt: HostRuntime) -> Result<(), Fail> {
    let mut blanks = Vec::new(rt.alloc());
    blanks.resize(16_777_217, b' ')?;
    is_too_long(&rt, &blanks)?;
    blanks.truncate(16_777_216);
    told(&rt, COMMANDS, &blanks, b"buckets 1\n")
}
