//! Lines in whatever pieces they come.
ghost use Rattle.std.specs.Prelude.{◌≡◌, IfOk, vec_len};

use lh_addr::Config;
use lh_expect::{expect, expect_eq};
use lh_serving::{Conversation, LONGEST_LINE};
use lh_subcommands::Notation;
use std::alloc::{AllocError, Global};
use std::process::Abort;
use std::test::Fail;

/// Each kind of line: calls, what else may be asked, one that ends in CR and LF, an empty line, a comment, and lines at
/// fault.
const LINES: &[u8] = b"insert 61 31\nsearch 61\r\n\n# none\nfrob\nrecords\nreplace 61 32\nbuckets\n\
    search 61 62\nsearch 6\ninsert - 31\nsearch 61\ndelete 61\nrecords 1\nimage 2\nrecords\n";

/// The answers to these lines.
const ANSWERS: &[u8] = b"inserted\nfound 31\nfault unknown word\nrecords 1\nreplaced\nbuckets 1\n\
    fault wrong number of words\nfault bad hexadecimal\nfault key length 0\nfound 32\ndeleted\n\
    fault wrong number of words\nfault wrong number of words\nrecords 0\n";

/// A conversation from an empty file.
pub fn conversation_in(
    alloc: Global,
    notation: Notation,
    is_terminal: bool,
) -> Result<Conversation, Fail> {
    match Conversation::new(alloc, notation, is_terminal, Config::default()) {
        Ok(talk) => Ok(talk),
        Err(_) => Err(Fail::from("no conversation")),
    }
}

fn conversation(alloc: Global) -> Result<Conversation, Fail> {
    conversation_in(alloc, Notation::Hexadecimal, false)
}

/// Hears all of some bytes.
pub fn hear(talk: &mut Conversation, bytes: &[u8]) -> Result<(), Fail> {
    let mut rest = bytes;
    for _ in 0..bytes.len() {
        if rest.is_empty() {
            break;
        }
        if talk.image().is_some() {
            return Err(Fail::from("an image is to be told first"));
        }
        match talk.hear(rest) {
            Ok(behind) => rest = behind,
            Err(_) => return Err(Fail::from("no room")),
        }
    }
    Ok(())
}

/// A text of one byte, again and again.
fn repeated(alloc: Global, byte: u8, count: usize) -> Result<Vec<u8>, AllocError>
    ensures { IfOk result (λ text. vec_len text ≡ count) }
{
    let mut text = Vec::new(alloc);
    text.resize(count, byte)?;
    Ok(text)
}

/// These lines have these answers wherever they are cut.
pub fn cut_anywhere(
    rt: &(impl Abort + AllocGlobal),
    notation: Notation,
    is_terminal: bool,
    lines: &[u8],
    answers: &[u8],
) -> Result<(), Fail> {
    for cut in 0..=lines.len() {
        let mut talk = conversation_in(rt.alloc(), notation, is_terminal)?;
        hear(&mut talk, &lines[..cut])?;
        hear(&mut talk, &lines[cut..])?;
        assert!(rt; *talk.waiting() == *answers, "cut at {cut}");
    }
    Ok(())
}

#[test]
fn lines_cut_anywhere_have_the_same_answers(rt: HostRuntime) -> Result<(), Fail> {
    cut_anywhere(&rt, Notation::Hexadecimal, false, LINES, ANSWERS)
}

#[test]
fn lines_that_come_byte_by_byte_have_the_same_answers(rt: HostRuntime) -> Result<(), Fail> {
    let mut talk = conversation(rt.alloc())?;
    for place in 0..LINES.len() {
        hear(&mut talk, &LINES[place..place + 1])?;
    }
    expect_eq!(&rt, talk.waiting(), ANSWERS);
    Ok(())
}

/// Three records in pages of one have three buckets, and no split is missed.
#[test]
fn a_conversation_splits_where_the_policy_wants_it(rt: HostRuntime) -> Result<(), Fail> {
    let Ok(mut talk) = Conversation::new(
        rt.alloc(),
        Notation::Hexadecimal,
        false,
        Config::new(1, 1, 100, 65536)?,
    ) else {
        return Err(Fail::from("no conversation"));
    };
    hear(
        &mut talk,
        b"insert 61 31\ninsert 62 31\ninsert 63 31\nbuckets\n",
    )?;
    expect_eq!(
        &rt,
        talk.waiting(),
        b"inserted\ninserted\ninserted\nbuckets 3\n".as_slice()
    );
    expect!(&rt, !talk.has_missed_a_split());
    Ok(())
}

#[test]
fn a_line_is_answered_with_its_lf(rt: HostRuntime) -> Result<(), Fail> {
    let mut talk = conversation(rt.alloc())?;
    hear(&mut talk, b"insert 61 31")?;
    expect_eq!(&rt, talk.waiting(), b"".as_slice());
    hear(&mut talk, b"\nrecords\nrec")?;
    expect_eq!(&rt, talk.waiting(), b"inserted\nrecords 1\n".as_slice());
    talk.note_told();
    expect_eq!(&rt, talk.waiting(), b"".as_slice());
    hear(&mut talk, b"ords\n")?;
    expect_eq!(&rt, talk.waiting(), b"records 1\n".as_slice());
    Ok(())
}

/// A line of this many bytes, of which the first is `#`, has this answer, however it is cut; and so has the next line.
fn is_answered(rt: &(impl Abort + AllocGlobal), length: usize, answer: &[u8]) -> Result<(), Fail> {
    let line = repeated(rt.alloc(), b'#', length)?;
    for at_once in [1, 100, 1_000, 10_000] {
        let mut talk = conversation(rt.alloc())?;
        let mut rest = line.as_slice();
        for _ in 0..length {
            let count = rest.len().min(at_once);
            hear(&mut talk, &rest[..count])?;
            rest = &rest[count..];
        }
        hear(&mut talk, b"\nrecords\n")?;
        assert!(rt;
            talk.waiting().starts_with(answer),
            "{length} bytes, {at_once} at once"
        );
        let behind = &talk.waiting()[answer.len().min(talk.waiting().len())..];
        expect_eq!(rt; behind, b"records 0\n".as_slice());
    }
    Ok(())
}

#[test]
fn a_line_has_1024_bytes_at_most(rt: HostRuntime) -> Result<(), Fail> {
    expect!(&rt, LONGEST_LINE == 1_024);
    is_answered(&rt, 1_024, b"")?;
    is_answered(&rt, 1_025, b"fault line too long\n")?;
    is_answered(&rt, 9_000, b"fault line too long\n")
}

/// What waits is these lines, and behind them the image of a file with so many records, or none.
pub fn waits(rt: &impl Abort, talk: &Conversation, lines: &[u8], records: Option<u64>) {
    expect_eq!(rt; talk.waiting(), lines);
    match talk.image() {
        Some(listing) => expect!(rt, records == Some(listing.len())),
        None => expect!(rt, records.is_none()),
    }
}

#[test]
fn an_image_waits_behind_the_lines(rt: HostRuntime) -> Result<(), Fail> {
    let mut talk = conversation(rt.alloc())?;
    expect!(&rt, talk.is_quiet());
    hear(&mut talk, b"insert 61 31\nimage\n")?;
    waits(&rt, &talk, b"inserted\nimage 8192\n", Some(1));
    expect!(&rt, !talk.is_quiet());
    talk.note_told();
    expect!(&rt, talk.is_quiet());
    hear(&mut talk, b"delete 61\nim")?;
    waits(&rt, &talk, b"deleted\n", None);
    hear(&mut talk, b"age\n")?;
    waits(&rt, &talk, b"deleted\nimage 8192\n", Some(0));
    talk.note_told();
    hear(&mut talk, b"records\n")?;
    waits(&rt, &talk, b"records 0\n", None);
    Ok(())
}

#[test]
fn a_conversation_goes_on_from_a_listing(rt: HostRuntime) -> Result<(), Fail> {
    let mut first = conversation(rt.alloc())?;
    hear(&mut first, b"insert 61 31\ninsert 62 32\nimage\n")?;
    let Some(listing) = first.image() else {
        return Err(Fail::from("no image"));
    };
    let Ok(mut next) = Conversation::open_from(rt.alloc(), Notation::Hexadecimal, false, listing)
    else {
        return Err(Fail::from("no conversation"));
    };
    hear(
        &mut next,
        b"records\nsearch 62\ninsert 62 33\ninsert 63 33\nrecords\n",
    )?;
    waits(
        &rt,
        &next,
        b"records 2\nfound 32\nexists\ninserted\nrecords 3\n",
        None,
    );
    Ok(())
}
