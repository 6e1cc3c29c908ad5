//! Step scripts, from words and bytes to bytes and a status.
use lh_expect::{expect, expect_eq};
use lhash_expect::{fails, ran, writes};
use std::alloc::Global;
use std::sync::Wait;
use std::test::Fail;
use std::thread::Threads;

/// The words of a run of steps with options.
fn words_of<'a>(alloc: Global, options: &[&'a str]) -> Result<Vec<&'a str>, Fail> {
    let mut words = Vec::new(alloc);
    words.push("lhash")?;
    words.push("steps")?;
    words.extend_from_slice(options)?;
    Ok(words)
}

/// Adds steps and what they tell.
fn add_lines(script: &mut String, output: &mut String, lines: &[(&str, &str)]) -> Result<(), Fail> {
    for (line, told) in lines {
        script.push_str(line)?;
        script.push_str("\n")?;
        output.push_str(told)?;
        output.push_str("\n")?;
    }
    Ok(())
}

/// The steps of these lines, and then of those, tell these lines.
fn tells_both(
    rt: &(impl AllocGlobal + Threads + Wait + Sync),
    options: &[&str],
    lines: &[(&str, &str)],
    more: &[(&str, &str)],
) -> Result<(), Fail> {
    let words = words_of(rt.alloc(), options)?;
    let mut script = String::new(rt.alloc());
    let mut output = String::new(rt.alloc());
    add_lines(&mut script, &mut output, lines)?;
    add_lines(&mut script, &mut output, more)?;
    writes(rt, words.as_slice(), script.as_str(), output.as_str())
}

/// The steps of these lines tell these lines.
fn tells(
    rt: &(impl AllocGlobal + Threads + Wait + Sync),
    options: &[&str],
    lines: &[(&str, &str)],
) -> Result<(), Fail> {
    tells_both(rt, options, lines, &[])
}

/// A record, and a split of its bucket up to its pointer.
const SPLIT_BUT_NOT_POINTED: [(&str, &str); 9] = [
    ("call 0 insert 62 31", "called"),
    ("read 0", "aim 0 0"),
    ("lock 0", "locked 0 0"),
    ("act 0", "inserted"),
    ("release 0", "released"),
    ("split-begin", "begun 0 1"),
    ("split-lock", "both 0 1"),
    ("split-move", "moved 0 1"),
    ("split-release", "freed"),
];

#[test]
fn an_old_root_by_one_split(rt: HostRuntime) -> Result<(), Fail> {
    let lines = [
        ("call 0 insert 62 31", "called"),
        ("read 0", "aim 0 0"),
        ("split-begin", "begun 0 1"),
        ("split-lock", "both 0 1"),
        ("split-move", "moved 0 1"),
        ("split-release", "freed"),
        ("split-point", "point 2"),
        ("lock 0", "locked 0 1"),
        ("act 0", "refused C3"),
        ("rehash 0", "aim 1 1"),
        ("lock 0", "locked 1 1"),
        ("act 0", "inserted"),
        ("release 0", "released"),
    ];
    tells(&rt, [].as_slice(), lines.as_slice())
}

#[test]
fn an_old_root_by_four_splits(rt: HostRuntime) -> Result<(), Fail> {
    let lines = [
        ("call 0 search 68", "called"),
        ("read 0", "aim 0 0"),
        ("split-begin", "begun 0 1"),
        ("split-lock", "both 0 1"),
        ("split-move", "moved 0 1"),
        ("split-release", "freed"),
        ("split-point", "point 2"),
        ("split-begin", "begun 0 2"),
        ("split-lock", "both 0 2"),
        ("split-move", "moved 0 2"),
        ("split-release", "freed"),
        ("split-point", "point 3"),
        ("split-begin", "begun 1 3"),
        ("split-lock", "both 1 3"),
        ("split-move", "moved 1 3"),
        ("split-release", "freed"),
        ("split-point", "point 4"),
        ("split-begin", "begun 0 4"),
        ("split-lock", "both 0 4"),
        ("split-move", "moved 0 4"),
        ("split-release", "freed"),
        ("split-point", "point 5"),
        ("lock 0", "locked 0 3"),
        ("rehash 0", "aim 1 1"),
        ("lock 0", "locked 1 2"),
        ("rehash 0", "aim 2 3"),
        ("lock 0", "locked 3 2"),
        ("act 0", "absent"),
    ];
    tells(&rt, [].as_slice(), lines.as_slice())
}

#[test]
fn between_move_and_pointer(rt: HostRuntime) -> Result<(), Fail> {
    let lines = [
        ("call 1 search 62", "called"),
        ("read 1", "aim 0 0"),
        ("lock 1", "locked 0 1"),
        ("act 1", "refused C3"),
        ("rehash 1", "aim 1 1"),
        ("lock 1", "locked 1 1"),
        ("act 1", "found 31"),
        ("release 1", "released"),
        ("split-drop", "refused C1"),
        ("split-point", "point 2"),
    ];
    tells_both(
        &rt,
        [].as_slice(),
        SPLIT_BUT_NOT_POINTED.as_slice(),
        lines.as_slice(),
    )
}

#[test]
fn a_replace_finds_its_way_too(rt: HostRuntime) -> Result<(), Fail> {
    let lines = [
        ("call 1 replace 62 32", "called"),
        ("read 1", "aim 0 0"),
        ("lock 1", "locked 0 1"),
        ("act 1", "refused C3"),
        ("rehash 1", "aim 1 1"),
        ("lock 1", "locked 1 1"),
        ("act 1", "replaced"),
    ];
    tells_both(
        &rt,
        [].as_slice(),
        SPLIT_BUT_NOT_POINTED.as_slice(),
        lines.as_slice(),
    )
}

#[test]
fn a_replace_locks_exclusively(rt: HostRuntime) -> Result<(), Fail> {
    let lines = [
        ("call 0 search 61", "called"),
        ("read 0", "aim 0 0"),
        ("lock 0", "locked 0 0"),
        ("call 3 replace 61 31", "called"),
        ("read 3", "aim 0 0"),
        ("lock 3", "refused C2"),
        ("release 0", "given up"),
        ("lock 3", "locked 0 0"),
        ("call 0 search 61", "called"),
        ("read 0", "aim 0 0"),
        ("lock 0", "refused C2"),
        ("act 3", "absent"),
    ];
    tells(&rt, [].as_slice(), lines.as_slice())
}

#[test]
fn lock_modes(rt: HostRuntime) -> Result<(), Fail> {
    let lines = [
        ("call 0 search 61", "called"),
        ("read 0", "aim 0 0"),
        ("lock 0", "locked 0 0"),
        ("call 1 insert 61 31", "called"),
        ("read 1", "aim 0 0"),
        ("lock 1", "refused C2"),
        ("call 2 search 61", "called"),
        ("read 2", "aim 0 0"),
        ("lock 2", "locked 0 0"),
        ("split-begin", "begun 0 1"),
        ("split-lock", "refused C2"),
        ("rehash 0", "refused C4"),
        ("release 2", "given up"),
    ];
    tells(&rt, [].as_slice(), lines.as_slice())
}

#[test]
fn one_split_at_a_time(rt: HostRuntime) -> Result<(), Fail> {
    let lines = [("split-begin", "begun 0 1"), ("split-begin", "refused C5")];
    tells(&rt, [].as_slice(), lines.as_slice())?;
    let lines = [("split-begin", "refused C6")];
    tells(&rt, ["--max", "1"].as_slice(), lines.as_slice())?;
    let lines = [("split-begin", "begun 0 1"), ("split-move", "refused C1")];
    tells(&rt, [].as_slice(), lines.as_slice())?;
    let lines = [
        ("split-begin", "begun 0 1"),
        ("split-drop", "dropped"),
        ("split-begin", "begun 0 1"),
    ];
    tells(&rt, [].as_slice(), lines.as_slice())
}

#[test]
fn workers_have_numbers_up_to_15(rt: HostRuntime) -> Result<(), Fail> {
    tells(&rt, [].as_slice(), [("read 0", "refused C1")].as_slice())?;
    tells(
        &rt,
        [].as_slice(),
        [
            ("call 15 search 61", "called"),
            ("call 00 search 61", "called"),
        ]
        .as_slice(),
    )?;
    let steps = ["lhash", "steps"];
    let steps = steps.as_slice();
    fails(
        &rt,
        steps,
        "call 16 search 61",
        1,
        "line 1: bad worker number",
    )?;
    fails(&rt, steps, "call 0", 1, "line 1: wrong number of words")?;
    fails(&rt, steps, "call 0 frob", 1, "line 1: unknown word")?;
    fails(
        &rt,
        steps,
        "call 007 search 61",
        1,
        "line 1: bad worker number",
    )?;
    fails(&rt, steps, "# x\n\nfrob", 1, "line 3: unknown word")?;
    fails(&rt, steps, "read 0\nsearch 61", 1, "line 2: unknown word")
}

#[test]
fn an_empty_script_tells_nothing(rt: HostRuntime) -> Result<(), Fail> {
    tells(&rt, [].as_slice(), [].as_slice())?;
    let words = ["lhash", "steps", "--initial", "3", "--max", "2"];
    fails(&rt, words.as_slice(), "frob", 2, "max is less than initial")?;
    let (code, written, _) = ran(&rt, ["lhash", "steps", "--help"].as_slice(), b"frob")?;
    expect_eq!(rt; code, 0);
    expect!(&rt, !written.is_empty());
    Ok(())
}
