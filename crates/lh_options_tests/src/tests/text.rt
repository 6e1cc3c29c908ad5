//! Which words ask for keys and values as text.
use crate::tests::options::told;
use lh_expect::{expect, expect_eq};
use lh_options::{Request, asks_for_text, request_of};
use std::alloc::AllocError;
use std::process::Abort;

/// The subcommands with the flag; `get` has two words behind its own name.
const WITH: &[&str] = &[
    "commands", "steps", "drive", "build", "query", "apply", "serve", "dump",
];

/// The subcommands without it.
const WITHOUT: &[&str] = &["replay", "load", "check", "draw", "migrate"];

/// Words, and whether they ask for text.
const ROWS: &[(&[&str], bool)] = &[
    (&["lhash", "get", "a.lhf", "ada", "--text"], true),
    (&["lhash", "get", "--text", "a.lhf", "ada", "bob"], true),
    (&["lhash", "get", "a.lhf", "ada", "--text", "bob"], true),
    (&["lhash", "get", "a.lhf", "616461"], false),
    (&["lhash", "get", "a.lhf", "--", "--text"], false),
    (&["lhash", "get", "a.lhf", "text"], false),
    (&["lhash", "commands", "text"], false),
    (&["lhash", "commands", "--", "--text"], false),
    (&["lhash", "serve", "--image", "--text", "a.lhf"], true),
    (&["lhash", "serve", "--image", "a.lhf"], false),
    (&["lhash", "apply", "--text", "-o", "b.lhf"], true),
    (&["lhash", "apply", "-o", "--text"], false),
    (&["lhash", "dump", "--format", "cdb", "--text"], true),
    (&["lhash", "drive", "--text", "--max", "7"], true),
    // These are refused.
    (&["lhash", "--text"], false),
    (&["lhash", "--text", "commands"], false),
    (&["lhash", "commands", "--text", "--text"], false),
    (&["lhash", "commands", "--text=yes"], false),
    (&["lhash", "commands", "--texts"], false),
    (&["lhash", "commands", "-t"], false),
    (&["lhash", "commands", "--text", "--max=+7"], false),
    (&["lhash", "commands", "--text", "a.txt", "b.txt"], false),
    (&["lhash", "dump", "--format", "csv", "--text"], false),
    (&["lhash", "get", "a.lhf", "--text"], false),
    (&["lhash", "commands", "--text", "--help"], false),
];

fn expect_asked<'a>(
    rt: &(impl Abort + AllocGlobal),
    words: &'a [&'a str],
    asked: bool,
) -> Result<(), AllocError> {
    let is = asks_for_text(rt.alloc(), words)?;
    assert!(rt; is == asked, "{words:?} asks for text: {is}");
    Ok(())
}

#[test]
fn words_that_ask_for_text(rt: HostRuntime) -> Result<(), AllocError> {
    for subcommand in WITH {
        expect_asked(&rt, ["lhash", *subcommand].as_slice(), false)?;
        expect_asked(&rt, ["lhash", *subcommand, "--text"].as_slice(), true)?;
        expect_asked(&rt, ["lhash", *subcommand, "--text", "a"].as_slice(), true)?;
    }
    for row in ROWS {
        let (words, asked) = *row;
        expect_asked(&rt, words, asked)?;
    }
    Ok(())
}

/// Why these words are refused.
fn reason(rt: &impl AllocGlobal, words: &[&str]) -> Result<String, AllocError> {
    match request_of(rt.alloc(), words)? {
        Request::Refused(text) => Ok(text),
        _ => String::from_str(rt.alloc(), "not refused"),
    }
}

#[test]
fn other_subcommands_have_no_text(rt: HostRuntime) -> Result<(), AllocError> {
    for subcommand in WITHOUT {
        let words = ["lhash", *subcommand, "--text"];
        let told = reason(&rt, words.as_slice())?;
        expect_eq!(&rt, told.as_str(), "unexpected argument '--text' found");
        expect_asked(&rt, words.as_slice(), false)?;
    }
    Ok(())
}

#[test]
fn text_is_a_flag(rt: HostRuntime) -> Result<(), AllocError> {
    let told = reason(&rt, ["lhash", "query", "--text", "--text"].as_slice())?;
    expect_eq!(
        &rt,
        told.as_str(),
        "the argument '--text' cannot be used multiple times"
    );
    let told = reason(&rt, ["lhash", "query", "--text=yes"].as_slice())?;
    expect_eq!(
        &rt,
        told.as_str(),
        "unexpected value 'yes' for '--text' found; no more were expected"
    );
    Ok(())
}

/// The text of help that a subcommand has.
fn help_of(rt: &impl AllocGlobal, subcommand: &str) -> Result<String, AllocError> {
    told(rt, ["lhash", subcommand, "--help"].as_slice())
}

#[test]
fn help_says_what_text_is(rt: HostRuntime) -> Result<(), AllocError> {
    for subcommand in WITH {
        let help = help_of(&rt, *subcommand)?;
        expect!(&rt, help.as_str().contains(" --text "));
    }
    for subcommand in WITHOUT {
        let help = help_of(&rt, *subcommand)?;
        expect!(&rt, !help.as_str().contains("--text"));
    }
    Ok(())
}

#[test]
fn help_shows_records_of_text(rt: HostRuntime) -> Result<(), AllocError> {
    let commands = help_of(&rt, "commands")?;
    for part in [
        " Keys and values as text, not in hexadecimal\n",
        "byte as \\xx, in hexadecimal; - is the empty value, and \\2d a single -:\n",
        "\n  insert ada 0172         inserted\n",
    ] {
        expect!(&rt, commands.as_str().contains(part));
    }
    let get = help_of(&rt, "get")?;
    for part in [
        " two digits a byte, or as text with --text\n",
        " Keys and values as text, not in hexadecimal\n",
        ": lhash get --text users.lhf ada bob\n",
    ] {
        expect!(&rt, get.as_str().contains(part));
    }
    Ok(())
}
