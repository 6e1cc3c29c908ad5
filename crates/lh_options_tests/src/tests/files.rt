//! The files that words name.
use lh_options::files_of;
use std::alloc::AllocError;
use std::process::Abort;

/// Words behind the program's name, and the files that they name.
type Row = (
    &'static [&'static str],
    Option<&'static str>,
    Option<&'static str>,
);

const ROWS: &[Row] = &[
    (&["lhash", "commands"], None, None),
    (&["lhash", "commands", "a.txt"], Some("a.txt"), None),
    (
        &["lhash", "commands", "a.txt", "--max", "7"],
        Some("a.txt"),
        None,
    ),
    (
        &["lhash", "drive", "--threads=2", "a.txt"],
        Some("a.txt"),
        None,
    ),
    (&["lhash", "check", "-"], None, None),
    (&["lhash", "check", "--", "-o"], Some("-o"), None),
    (&["lhash", "check", "--", "-"], None, None),
    (&["lhash", "query", ""], Some(""), None),
    (&["lhash", "serve", "--image", "a.lhf"], Some("a.lhf"), None),
    (&["lhash", "serve", "a.txt", "--image"], Some("a.txt"), None),
    (
        &["lhash", "build", "--image", "1", "a.txt"],
        Some("a.txt"),
        None,
    ),
    (&["lhash", "build", "-o", "b.lhf"], None, Some("b.lhf")),
    (
        &["lhash", "load", "in.cdb", "-o", "out.lhf"],
        Some("in.cdb"),
        Some("out.lhf"),
    ),
    (&["lhash", "load", "-", "-o", "-"], None, None),
    (
        &["lhash", "dump", "--format", "cdb", "a.lhf"],
        Some("a.lhf"),
        None,
    ),
    (
        &["lhash", "build", "-ob.lhf", "a.txt"],
        Some("a.txt"),
        Some("b.lhf"),
    ),
    (
        &["lhash", "draw", "a.lhf", "--output", "b.svg"],
        Some("a.lhf"),
        Some("b.svg"),
    ),
    (
        &["lhash", "migrate", "--output=b.lhf", "a.lhf"],
        Some("a.lhf"),
        Some("b.lhf"),
    ),
    (
        &["lhash", "apply", "a.lhf", "-o", "a.lhf"],
        Some("a.lhf"),
        Some("a.lhf"),
    ),
    (&["lhash", "get", "a.lhf", "61", "62"], Some("a.lhf"), None),
    (&["lhash", "get", "-", "61"], None, None),
    (&["lhash", "replay", "-o", "-"], None, None),
    // These are refused.
    (&["lhash", "check", "a.lhf", "b.lhf"], None, None),
    (&["lhash", "check", "a.lhf", "-o", "b.txt"], None, None),
    (&["lhash", "build", "a.txt", "-o"], None, None),
    (
        &["lhash", "build", "-o", "a.lhf", "-o", "b.lhf"],
        None,
        None,
    ),
    (&["lhash", "build", "a.txt", "--image=+1"], None, None),
    (&["lhash", "dump", "--format", "csv", "a.lhf"], None, None),
    (&["lhash", "get", "a.lhf"], None, None),
    (&["lhash", "a.txt"], None, None),
    (&["lhash", "check", "a.lhf", "--help"], None, None),
];

fn names(rt: &(impl Abort + AllocGlobal), row: &Row) -> Result<(), AllocError> {
    let (words, input, output) = *row;
    let files = files_of(rt.alloc(), words)?;
    assert!(rt;
        files.input.as_deref() == input && files.output.as_deref() == output,
        "{words:?} names {files:?}"
    );
    Ok(())
}

#[test]
fn files_that_words_name(rt: HostRuntime) -> Result<(), AllocError> {
    for row in ROWS {
        names(&rt, row)?;
    }
    Ok(())
}
