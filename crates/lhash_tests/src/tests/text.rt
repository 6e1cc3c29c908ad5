//! Keys and values as text.
use lh_expect::{expect, expect_eq};
use lhash::run;
use lhash_expect::{built, fails, ran, told, writes};
use std::test::Fail;

/// Three records: a key of letters, one with a blank, and a single dash with the empty value.
const INSERTS: &str = "insert ada 0172\ninsert a\\20b \\5c\ninsert \\2d -\n";

/// The same in hexadecimal.
const DIGITS: &str = "insert 616461 30313732\ninsert 612062 5c\ninsert 2d -\n";

const BUILD: &[&str] = &["lhash", "build", "--text"];

/// Words, an input, and what is written.
type Row = (&'static [&'static str], &'static str, &'static str);

const SCRIPTS: [Row; 5] = [
    (
        &["lhash", "commands", "--text"],
        "insert ada 0172\nsearch ada\nsearch 616461\nreplace ada \\00\\ff\nsearch ada\n",
        "inserted\nfound 0172\nabsent\nreplaced\nfound \\00\\ff\nbuckets 1\n",
    ),
    (
        &["lhash", "commands"],
        "insert 616461 30313732\nsearch 616461\n",
        "inserted\nfound 30313732\nbuckets 1\n",
    ),
    (
        &["lhash", "steps", "--text"],
        "call 0 insert \\2d -\nread 0\nlock 0\nact 0\nrelease 0\ncall 1 search \\2d\nread 1\nlock 1\nact 1\n",
        "called\naim 0 0\nlocked 0 0\ninserted\nreleased\ncalled\naim 0 0\nlocked 0 0\nfound -\n",
    ),
    (
        &["lhash", "drive", "--text", "--threads", "1"],
        "insert ada 0172\nsearch ada\nsearch bob\n",
        "settled\ncalls 3\nfound 1\nabsent 1\ninserted 1\nexists 0\ndeleted 0\nreplaced 0\nrecords 1\n",
    ),
    (
        &["lhash", "serve", "--text"],
        "insert a\\20b x\nsearch a b\nsearch a\\20b\nsearch \\61\n",
        "inserted\nfault wrong number of words\nfound x\nfault bad text\n",
    ),
];

#[test]
fn scripts_in_text(rt: HostRuntime) -> Result<(), Fail> {
    for (words, script, output) in SCRIPTS {
        writes(&rt, words, script, output)?;
    }
    Ok(())
}

/// The image tells nothing of how its records were written.
#[test]
fn text_and_hexadecimal_build_one_image(rt: HostRuntime) -> Result<(), Fail> {
    let image = built(&rt, BUILD, INSERTS)?;
    told(&rt, &["lhash", "build"], DIGITS.as_bytes(), &image)
}

/// Words, and what they write of the three records.
const READS: [(&[&str], &[u8]); 4] = [
    (
        &["lhash", "dump", "--text"],
        b"0 ada 0172\n0 a\\20b \\5c\n0 \\2d -\n",
    ),
    (
        &["lhash", "dump"],
        b"0 616461 30313732\n0 612062 5c\n0 2d -\n",
    ),
    (
        &["lhash", "get", "--text", "-", "\\2d", "ada", "a\\20b"],
        b"found -\nfound 0172\nfound \\5c\n",
    ),
    (&["lhash", "get", "-", "ada", "--text"], b"found 0172\n"),
];

#[test]
fn images_in_text(rt: HostRuntime) -> Result<(), Fail> {
    let image = built(&rt, BUILD, INSERTS)?;
    for (words, lines) in READS {
        told(&rt, words, &image, lines)?;
    }
    Ok(())
}

/// A script behind the image of the three records.
#[test]
fn a_script_in_text_behind_an_image(rt: HostRuntime) -> Result<(), Fail> {
    let mut input = built(&rt, BUILD, INSERTS)?;
    input.extend_from_slice(b"search a\\20b\nreplace ada \\09\nsearch ada\ndelete \\2d\n")?;
    told(
        &rt,
        &["lhash", "query", "--text"],
        &input,
        b"found \\5c\nreplaced\nfound \\09\ndeleted\nbuckets 1\n",
    )?;
    let (code, left, _) = ran(&rt, &["lhash", "apply", "--text"], &input)?;
    expect_eq!(&rt; code, 0);
    told(
        &rt,
        &["lhash", "dump", "--text"],
        &left,
        b"0 ada \\09\n0 a\\20b \\5c\n",
    )
}

/// Words, a script of which the second line is at fault, and the fault.
const FAULTS: [Row; 6] = [
    (
        &["lhash", "commands", "--text"],
        "search ada\nsearch a\\41\n",
        "line 2: bad text",
    ),
    (
        &["lhash", "build", "--text"],
        "insert a -\ninsert b \\5C\n",
        "line 2: bad text",
    ),
    (
        &["lhash", "steps", "--text"],
        "read 0\ncall 0 search a\\2\n",
        "line 2: bad text",
    ),
    (
        &["lhash", "drive", "--text"],
        "search a\nsearch -\n",
        "line 2: key length 0",
    ),
    (
        &["lhash", "commands"],
        "search 61\nsearch ada\n",
        "line 2: bad hexadecimal",
    ),
    (
        &["lhash", "replay"],
        "read 0\ncall 0 search ada\n",
        "line 2: bad hexadecimal",
    ),
];

#[test]
fn scripts_that_are_no_text(rt: HostRuntime) -> Result<(), Fail> {
    for (words, script, fault) in FAULTS {
        fails(&rt, words, script, 1, fault)?;
    }
    Ok(())
}

/// Words that are no keys are told by their place, and subcommands without keys have no `--text`.
#[test]
fn words_that_are_no_text(rt: HostRuntime) -> Result<(), Fail> {
    let words = ["lhash", "get", "--text", "-", "ada", "\\"];
    fails(&rt, words.as_slice(), "", 2, "key 2: bad text")?;
    let (code, written, _) = ran(&rt, &["lhash", "replay", "--text"], b"read 0\n")?;
    expect!(&rt; code == 2 && written.is_empty());
    Ok(())
}

/// What is told of four lines where the answers go to a terminal.
const ON_A_TERMINAL: &[u8] =
    b"inserted\nfault image on a terminal\nfault wrong number of words\nfound 31\n";

/// An image is refused there, and the conversation goes on.
#[test]
fn an_image_is_not_told_on_a_terminal(rt: HostRuntime) -> Result<(), Fail> {
    let mut source = b"insert 61 31\nimage\nimage 1\nsearch 61\n".as_slice();
    let mut output = Vec::new(rt.alloc());
    let status = run(&rt, &["lhash", "serve"], true, &mut source, &mut output);
    expect_eq!(&rt; status.code(), 0);
    expect!(&rt, *output.as_slice() == *ON_A_TERMINAL);
    Ok(())
}
