//! Images that are inputs of their own, and what follows them another one.
use lh_expect::{expect, expect_eq};
use lhash::run_on;
use lhash_expect::{FIVE, FIVE_CENSUS, FIVE_WORDS, behind, built, ran};
use std::process::Abort;
use std::sync::Wait;
use std::test::Fail;
use std::thread::Threads;

const CALLS: &str = "search 61\ndelete 62\ninsert 66 36\nsearch 66\n";

/// The exit status, what was written, and the text of the status, of a run on a file and an input.
fn ran_on(
    rt: &(impl AllocGlobal + Threads + Wait + Sync),
    words: &[&str],
    file: &[u8],
    input: &[u8],
) -> Result<(u8, Vec<u8>, String), Fail> {
    let (mut file, mut source) = (file, input);
    let mut output = Vec::new(rt.alloc());
    let status = run_on(rt, words, false, &mut file, &mut source, &mut output);
    Ok((status.code(), output, status.to_string(rt.alloc())?))
}

/// Apart they do what they do as one input.
fn does_the_same(
    rt: &(impl Abort + AllocGlobal + Threads + Wait + Sync),
    image: &[u8],
    script: &str,
) -> Result<(), Fail> {
    let both = behind(rt, image, script)?;
    for words in [
        ["lhash", "query"].as_slice(),
        ["lhash", "apply"].as_slice(),
        ["lhash", "apply", "--image", "1"].as_slice(),
        ["lhash", "serve", "--image"].as_slice(),
    ] {
        let apart = ran_on(rt, words, image, script.as_bytes())?;
        expect!(rt, apart == ran(rt, words, both.as_slice())?);
    }
    Ok(())
}

#[test]
fn a_script_apart_does_what_one_behind_does(rt: HostRuntime) -> Result<(), Fail> {
    let image = built(&rt, FIVE_WORDS, FIVE)?;
    for script in [CALLS, "", "search 61\nfrob\n", "search 61"] {
        does_the_same(&rt, image.as_slice(), script)?;
    }
    Ok(())
}

fn refused(
    rt: &(impl Abort + AllocGlobal + Threads + Wait + Sync),
    image: &[u8],
    fault: &str,
) -> Result<(), Fail> {
    for words in [
        ["lhash", "query"].as_slice(),
        ["lhash", "apply"].as_slice(),
        ["lhash", "serve", "--image"].as_slice(),
    ] {
        let (code, written, text) = ran_on(rt, words, image, CALLS.as_bytes())?;
        expect_eq!(rt; text.as_str(), fault);
        expect!(rt, code == 1 && written.is_empty());
    }
    Ok(())
}

/// What comes from the other input completes no image, and bytes behind one begin no script.
#[test]
fn an_image_apart_is_whole(rt: HostRuntime) -> Result<(), Fail> {
    let image = built(&rt, FIVE_WORDS, FIVE)?;
    let image = image.as_slice();
    refused(&rt, &image[..image.len().saturating_sub(1)], "image I4")?;
    refused(&rt, behind(&rt, image, "#\n")?.as_slice(), "image I5")?;
    refused(&rt, b"LHF", "image I1")
}

/// Of other subcommands the file is the whole input.
#[test]
fn other_subcommands_read_the_file_alone(rt: HostRuntime) -> Result<(), Fail> {
    let image = built(&rt, FIVE_WORDS, FIVE)?;
    let words = ["lhash", "check"].as_slice();
    let (code, written, text) = ran_on(&rt, words, image.as_slice(), b"frob\n")?;
    expect!(&rt; code == 0 && text.is_empty());
    expect_eq!(&rt; written.as_slice(), FIVE_CENSUS.as_bytes());
    let (code, written, text) = ran_on(&rt, FIVE_WORDS, FIVE.as_bytes(), b"frob\n")?;
    expect!(&rt; code == 0 && text.is_empty());
    expect!(&rt; *written.as_slice() == *image.as_slice());
    Ok(())
}
