//! Step scripts from end to end: events, and the texts of faults.
use lh_bucket::Call;
use lh_core::{Effect, Event, Refusal};
use lh_expect::expect_eq;
use lh_page::{Key, Value};
use lh_script::{EntryText, LineFault, Notation, ParseError, ScriptFault, parse};
use std::alloc::{AllocError, Global};
use std::fmt::Display;
use std::process::Abort;
use std::test::Fail;

/// How many events a text has, or what is wrong with it.
fn outcome(alloc: Global, notation: Notation, text: &[u8]) -> Result<String, AllocError> {
    match parse::<Event>(alloc, notation, text) {
        Ok(events) => {
            let count = events.len();
            format!(in alloc; "{count} events")
        }
        Err(ParseError::Fault(fault)) => fault.to_string(alloc),
        Err(ParseError::Memory) => Err(AllocError),
    }
}

/// A script in this notation has so many events, or this is wrong with it.
pub fn expect_in(
    rt: &(impl Abort + AllocGlobal),
    notation: Notation,
    text: &str,
    expected: &str,
) -> Result<(), Fail> {
    let told = outcome(rt.alloc(), notation, text.as_bytes())?;
    expect_eq!(rt, (text, told.as_str()), (text, expected));
    Ok(())
}

fn expect(rt: &(impl Abort + AllocGlobal), text: &str, expected: &str) -> Result<(), Fail> {
    expect_in(rt, Notation::Hexadecimal, text, expected)
}

#[test]
fn each_line_is_an_event(rt: HostRuntime) -> Result<(), Fail> {
    let text =
        b"call 0 search 61\ncall 07 insert 62 3132\n\n# act\ncall 15 delete 63\ncall 1 replace 62 32\n\
        read 1\nlock 2\nrehash 3\nact 4\nrelease 05\n\
        split-begin\nsplit-lock\nsplit-move\nsplit-release\nsplit-point\nsplit-drop\n"
            .as_slice();
    let expected = [
        Event::Call(0, Call::Search(Key::new(b"a")?)),
        Event::Call(7, Call::Insert(Key::new(b"b")?, Value::new(b"12")?)),
        Event::Call(15, Call::Delete(Key::new(b"c")?)),
        Event::Call(1, Call::Replace(Key::new(b"b")?, Value::new(b"2")?)),
        Event::Read(1),
        Event::Lock(2),
        Event::Rehash(3),
        Event::Act(4),
        Event::Release(5),
        Event::SplitBegin,
        Event::SplitLock,
        Event::SplitMove,
        Event::SplitRelease,
        Event::SplitPoint,
        Event::SplitDrop,
    ];
    let Ok(events) = parse::<Event>(rt.alloc(), Notation::Hexadecimal, text) else {
        return Err(Fail::from("no events"));
    };
    expect_eq!(&rt, events.as_slice(), expected.as_slice());
    Ok(())
}

#[test]
fn a_worker_has_one_or_two_digits(rt: HostRuntime) -> Result<(), Fail> {
    for (text, want) in [
        ("read 9", "1 events"),
        ("read 15", "1 events"),
        ("read 16", "line 1: bad worker number"),
        ("read 99", "line 1: bad worker number"),
        ("read 007", "line 1: bad worker number"),
        ("read a", "line 1: bad worker number"),
        ("read 1:", "line 1: bad worker number"),
        ("read -1", "line 1: bad worker number"),
        ("call 007 search 61", "line 1: bad worker number"),
        ("call 16 search 61", "line 1: bad worker number"),
    ] {
        expect(&rt, text, want)?;
    }
    Ok(())
}

#[test]
fn faults_of_a_line_have_an_order(rt: HostRuntime) -> Result<(), Fail> {
    for (text, want) in [
        ("frob 16", "line 1: unknown word"),
        ("call 0", "line 1: wrong number of words"),
        ("call", "line 1: wrong number of words"),
        ("call 0 frob", "line 1: unknown word"),
        ("call 16 frob 6g", "line 1: unknown word"),
        ("call 16 search", "line 1: wrong number of words"),
        ("call 16 insert 6g", "line 1: wrong number of words"),
        ("call 16 insert 6g 3", "line 1: bad worker number"),
        ("call 1 insert 6g 3", "line 1: bad hexadecimal"),
        ("call 1 insert - 3", "line 1: key length 0"),
        ("call 1 insert 61 3", "line 1: bad hexadecimal"),
        ("read", "line 1: wrong number of words"),
        ("read 16 1", "line 1: wrong number of words"),
        ("split-begin 1", "line 1: wrong number of words"),
        ("split-begin\nsplit", "line 2: unknown word"),
    ] {
        expect(&rt, text, want)?;
    }
    Ok(())
}

/// What a value displays.
pub fn expect_text(
    rt: &(impl Abort + AllocGlobal),
    value: &impl Display,
    text: &str,
) -> Result<(), Fail> {
    expect_eq!(rt; value.to_string(rt.alloc())?.as_str(), text);
    Ok(())
}

/// The line of an entry, in hexadecimal.
fn expect_entry(
    rt: &(impl Abort + AllocGlobal),
    entry: &Result<Effect, Refusal>,
    text: &str,
) -> Result<(), Fail> {
    let notation = Notation::Hexadecimal;
    expect_text(rt, &EntryText { notation, entry }, text)
}

/// Numbers of as many digits as they may have, and the refusal that ends a run in place of being told.
#[test]
fn what_is_seldom_told_has_a_text(rt: HostRuntime) -> Result<(), Fail> {
    let aim = Effect::Aim {
        level: 16,
        bucket: 65_535,
    };
    let length = LineFault::ValueLength(8_388_608);
    let fault = ScriptFault::AtLine(16_777_216, length);
    expect_entry(&rt, &Ok(aim), "aim 16 65535")?;
    expect_entry(&rt, &Err(Refusal::Memory), "refused C7")?;
    expect_text(&rt, &length, "value length 8388608")?;
    expect_text(&rt, &fault, "line 16777216: value length 8388608")
}
