//! Conversations with keys and values as text, and those whose answers go to a terminal.
use crate::tests::conversations::{conversation_in, cut_anywhere, hear, waits};
use crate::tests::turns::told;
use lh_expect::{expect, expect_eq};
use lh_serving::Conversation;
use lh_subcommands::Notation;
use std::alloc::AllocError;
use std::process::Abort;
use std::test::Fail;

/// Lines in text: calls, words that are no text, a dash as a value and as a key, and two words in place of one.
const LINES: &[u8] =
    b"insert ada 0172\nsearch ada\nsearch \\2D\ninsert x \\20\\5c\nsearch x\r\n# \\\n\
    search \\41\ninsert - 1\nsearch a\\20b\nsearch a b\nreplace ada -\nsearch ada\ninsert \\2d \\2d\n\
    search \\2d\nsearch caf\xc3\xa9\ninsert caf\\c3\\a9 \\\ndelete ada\nrecords\n";

/// The answers to these lines.
const ANSWERS: &[u8] = b"inserted\nfound 0172\nfault bad text\ninserted\nfound \\20\\5c\n\
    fault bad text\nfault key length 0\nabsent\nfault wrong number of words\nreplaced\nfound -\ninserted\n\
    found \\2d\nfault bad text\nfault bad text\ndeleted\nrecords 2\n";

#[test]
fn text_cut_anywhere_has_the_same_answers(rt: HostRuntime) -> Result<(), Fail> {
    cut_anywhere(&rt, Notation::Text, false, LINES, ANSWERS)
}

/// Lines at a terminal. The file stays as it was where an image is asked for.
const AT_A_TERMINAL: &[u8] =
    b"insert 61 31\nimage\nsearch 61\nimage 2\nrecords\n image\t\r\ndelete 61\nimage\nrecords\n";

/// The answers to these lines, in either notation.
const ON_A_TERMINAL: &[u8] = b"inserted\nfault image on a terminal\nfound 31\n\
    fault wrong number of words\nrecords 1\nfault image on a terminal\ndeleted\n\
    fault image on a terminal\nrecords 0\n";

#[test]
fn an_image_is_not_told_on_a_terminal(rt: HostRuntime) -> Result<(), Fail> {
    for notation in [Notation::Hexadecimal, Notation::Text] {
        cut_anywhere(&rt, notation, true, AT_A_TERMINAL, ON_A_TERMINAL)?;
    }
    Ok(())
}

/// A conversation in text at a terminal, in which nothing was said, has no image.
fn has_no_image(rt: &impl Abort, talk: &mut Conversation) -> Result<(), Fail> {
    hear(talk, b"insert ada 0172\nimage\n")?;
    waits(rt, talk, b"inserted\nfault image on a terminal\n", None);
    talk.note_told();
    expect!(rt, talk.is_quiet());
    hear(talk, b"search ada\nrecords\n")?;
    waits(rt, talk, b"found 0172\nrecords 1\n", None);
    Ok(())
}

#[test]
fn no_image_waits_for_a_terminal(rt: HostRuntime) -> Result<(), Fail> {
    let mut talk = conversation_in(rt.alloc(), Notation::Text, true)?;
    has_no_image(&rt, &mut talk)
}

/// A conversation in text at a terminal finds two records.
fn has_records(rt: &impl Abort, talk: &mut Conversation) -> Result<(), Fail> {
    hear(talk, b"search ada\nsearch \\20\nimage\nrecords\n")?;
    let answers = b"found 0172\nfound \\5c\nfault image on a terminal\nrecords 2\n";
    waits(rt, talk, answers, None);
    Ok(())
}

/// The file whose image waits is that of a conversation in text, at a terminal.
fn goes_on(rt: &(impl Abort + AllocGlobal), first: &Conversation) -> Result<(), Fail> {
    let Some(listing) = first.image() else {
        return Err(Fail::from("no image"));
    };
    let Ok(mut next) = Conversation::open_from(rt.alloc(), Notation::Text, true, listing) else {
        return Err(Fail::from("no conversation"));
    };
    has_records(rt, &mut next)
}

/// What was written in hexadecimal is read in text.
#[test]
fn a_conversation_in_text_goes_on_from_a_listing(rt: HostRuntime) -> Result<(), Fail> {
    let mut first = conversation_in(rt.alloc(), Notation::Hexadecimal, false)?;
    hear(&mut first, b"insert 616461 30313732\ninsert 20 5C\nimage\n")?;
    goes_on(&rt, &first)
}

/// Hears a byte that is written by its digits, again and again.
fn hear_bytes(talk: &mut Conversation, count: usize) -> Result<(), Fail> {
    for _ in 0..count {
        hear(talk, b"\\5c")?;
    }
    Ok(())
}

/// Hears the longest key and the longest value behind a verb.
fn hear_record(talk: &mut Conversation, verb: &[u8]) -> Result<(), Fail> {
    hear(talk, verb)?;
    hear_bytes(talk, 56)?;
    hear(talk, b" ")?;
    hear_bytes(talk, 112)?;
    hear(talk, b"\n")
}

/// The longest record is inserted, replaced and asked for. No line is longer than that of the replace.
fn hear_longest(talk: &mut Conversation) -> Result<(), Fail> {
    hear_record(talk, b"insert ")?;
    hear_record(talk, b"replace ")?;
    hear(talk, b"search ")?;
    hear_bytes(talk, 56)?;
    hear(talk, b"\n")
}

fn add_longest(text: &mut String) -> Result<(), AllocError> {
    text.push_str("inserted\nreplaced\nfound ")?;
    for _ in 0..112 {
        text.push_str(r"\5c")?;
    }
    text.push_str("\n")
}

fn tells_longest(rt: &(impl Abort + AllocGlobal), talk: &Conversation) -> Result<(), Fail> {
    let mut answers = String::new(rt.alloc());
    add_longest(&mut answers)?;
    waits(rt, talk, answers.as_bytes(), None);
    Ok(())
}

#[test]
fn the_longest_record_of_text_has_its_answers(rt: HostRuntime) -> Result<(), Fail> {
    let mut talk = conversation_in(rt.alloc(), Notation::Text, false)?;
    hear_longest(&mut talk)?;
    tells_longest(&rt, &talk)
}

#[test]
fn serve_answers_text_before_the_next_read(rt: HostRuntime) -> Result<(), Fail> {
    let pieces: [&[u8]; 3] = [
        b"insert ada 0172\nsea",
        b"rch ada\nsearch \\2D\ninsert x \\2",
        b"0\\5c\nsearch x\nrec",
    ];
    let answers = told(
        &rt,
        Notation::Text,
        false,
        pieces.as_slice(),
        false,
        [0, 9, 35, 57].as_slice(),
    )?;
    expect_eq!(rt;
        answers.as_slice(),
        b"inserted\nfound 0172\nfault bad text\ninserted\nfound \\20\\5c\n".as_slice()
    );
    Ok(())
}

#[test]
fn serve_tells_no_image_on_a_terminal(rt: HostRuntime) -> Result<(), Fail> {
    let pieces: [&[u8]; 2] = [b"insert ada 0172\nimage\nrecords\nima", b"ge\nsearch ada\n"];
    let answers = told(
        &rt,
        Notation::Text,
        true,
        pieces.as_slice(),
        false,
        [0, 45, 82].as_slice(),
    )?;
    expect_eq!(rt;
        answers.as_slice(),
        b"inserted\nfault image on a terminal\nrecords 1\nfault image on a terminal\nfound 0172\n".as_slice()
    );
    Ok(())
}
