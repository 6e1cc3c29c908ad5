//! Words that ask for no file.
use lh_expect::{expect, expect_eq};
use lhash_expect::{fails, ran, writes};
use std::test::Fail;

#[test]
fn words_are_judged_before_the_input(rt: HostRuntime) -> Result<(), Fail> {
    let words = ["lhash", "commands", "--initial", "3", "--max", "2"];
    fails(&rt, words.as_slice(), "frob", 2, "max is less than initial")?;
    for words in [
        ["lhash", "commands", "--initial=0"].as_slice(),
        ["lhash", "commands", "--load=x"].as_slice(),
        ["lhash", "frob"].as_slice(),
        ["lhash"].as_slice(),
    ] {
        let (code, written, _) = ran(&rt, words, b"frob")?;
        expect_eq!(rt; code, 2);
        expect!(&rt, written.is_empty());
    }
    Ok(())
}

#[test]
fn help_goes_to_the_output(rt: HostRuntime) -> Result<(), Fail> {
    for words in [
        ["lhash", "--help"].as_slice(),
        ["lhash", "help"].as_slice(),
        ["lhash", "commands", "--help"].as_slice(),
    ] {
        let (code, written, text) = ran(&rt, words, b"frob")?;
        expect_eq!(rt; code, 0);
        expect_eq!(&rt, text.as_str(), "");
        expect!(&rt, !written.is_empty());
    }
    Ok(())
}

/// No control character of a word is written or said as it is, the program's name among them.
#[test]
fn control_characters_of_words_are_escaped(rt: HostRuntime) -> Result<(), Fail> {
    for words in [
        ["lhash", "fr\u{1b}[31mob"].as_slice(),
        ["lhash", "commands", "--\u{1b}[31m"].as_slice(),
        ["lhash", "commands", "--max", "\u{1b}]0;x\u{7}"].as_slice(),
        ["lhash", "dump", "\u{7f}\u{9b}31m\r"].as_slice(),
        ["lhash", "fr\nob"].as_slice(),
        ["\u{1b}[31mlhash", "--help"].as_slice(),
        ["\u{1b}[31mlhash", "drive", "--help"].as_slice(),
        ["\u{1b}[31mlhash"].as_slice(),
    ] {
        let (_, written, text) = ran(&rt, words, b"")?;
        expect!(&rt, !written.is_empty() || !text.as_str().is_empty());
        expect!(
            &rt,
            !text.as_str().chars().any(|letter| letter.is_control())
        );
        expect!(
            &rt,
            written
                .iter()
                .all(|byte| *byte == b'\n' || *byte >= b' ' && *byte < 127)
        );
    }
    let words = ["lhash", "fr\u{1b}[31mob"];
    let reason = "unrecognized subcommand 'fr\\u{1b}[31mob'";
    fails(&rt, words.as_slice(), "", 2, reason)
}

#[test]
fn a_number_has_no_sign(rt: HostRuntime) -> Result<(), Fail> {
    let reason = "numbers have no sign";
    for words in [
        ["lhash", "commands", "--initial=+1"].as_slice(),
        ["lhash", "steps", "--capacity", "+1"].as_slice(),
        ["lhash", "replay", "--load=+10"].as_slice(),
        ["lhash", "build", "--max", "+7"].as_slice(),
        ["lhash", "build", "--image=+2"].as_slice(),
        ["lhash", "drive", "--threads=+1"].as_slice(),
        ["lhash", "drive", "--snapshots=+1"].as_slice(),
        ["lhash", "drive", "--snapshots=-0"].as_slice(),
    ] {
        fails(&rt, words, "frob", 2, reason)?;
    }
    Ok(())
}

#[test]
fn the_version_goes_to_the_output(rt: HostRuntime) -> Result<(), Fail> {
    let words = ["lhash", "--version"];
    writes(&rt, words.as_slice(), "frob", "lhash 0.2.0\n")
}
