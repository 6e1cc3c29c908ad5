//! Keys and values as text: words that are read and written, scripts, and replies.
use crate::tests::commands::outcome;
use crate::tests::steps;
use crate::tests::steps::expect_text;
use lh_bucket::{Call, Reply};
use lh_core::{Effect, Event};
use lh_expect::expect_eq;
use lh_page::{Key, Value};
use lh_script::{
    EffectText, EntryText, KeyWord, LineFault, Notation, ReplyText, ValueWord, parse, read_key,
};
use std::alloc::{AllocError, Global};
use std::process::Abort;
use std::test::Fail;

// ---- words

/// Words, and the bytes that each stands for.
const WORDS: &[(&str, &[u8])] = &[
    ("ada", b"ada"),
    ("0172", b"0172"),
    (r"ada\20l", b"ada l"),
    (r"\2d", b"-"),
    ("--", b"--"),
    ("-a", b"-a"),
    ("a-b", b"a-b"),
    (r"-\20", b"- "),
    (r"\20", b" "),
    (r"\5c", b"\\"),
    (r"\5c41", b"\\41"),
    (r"\5c2d", b"\\2d"),
    (r"\09\0a\0d", b"\t\n\r"),
    (r"\00", b"\0"),
    (r"\1f!~\7f", b"\x1f!~\x7f"),
    (r"\80\ff", b"\x80\xff"),
    (r"caf\c3\a9", b"caf\xc3\xa9"),
    ("#", b"#"),
    ("6g", b"6g"),
];

/// A word is read as this key, and the key is written so.
fn expect_key(rt: &(impl Abort + AllocGlobal), word: &str, bytes: &[u8]) -> Result<(), Fail> {
    let notation = Notation::Text;
    let key = &Key::new(bytes)?;
    expect_eq!(rt, read_key(notation, word.as_bytes()), Ok(*key));
    expect_text(rt, &KeyWord { notation, key }, word)
}

/// A line in text is just this call.
fn expect_call(rt: &(impl Abort + AllocGlobal), line: &[u8], call: Call) -> Result<(), Fail> {
    let Ok(calls) = parse::<Call>(rt.alloc(), Notation::Text, line) else {
        return Err(Fail::from("no calls"));
    };
    expect_eq!(rt, calls.as_slice(), [call].as_slice());
    Ok(())
}

/// A word is read as this value, and the value is written so.
fn expect_value(rt: &(impl Abort + AllocGlobal), word: &str, bytes: &[u8]) -> Result<(), Fail> {
    let notation = Notation::Text;
    let value = &Value::new(bytes)?;
    let insert = Call::Insert(Key::new(b"a")?, *value);
    expect_text(rt, &ValueWord { notation, value }, word)?;
    let line = line_of(rt.alloc(), "insert a ", word, 1, "\n")?;
    expect_call(rt, line.as_bytes(), insert)
}

#[test]
fn words_are_read_and_written(rt: HostRuntime) -> Result<(), Fail> {
    for row in WORDS {
        let (word, bytes) = *row;
        expect_key(&rt, word, bytes)?;
        expect_value(&rt, word, bytes)?;
    }
    expect_value(&rt, "-", b"")
}

/// The first of 32 bytes, and the word of them.
const PIECES: &[(u8, &str)] = &[
    (
        0,
        r"\00\01\02\03\04\05\06\07\08\09\0a\0b\0c\0d\0e\0f\10\11\12\13\14\15\16\17\18\19\1a\1b\1c\1d\1e\1f",
    ),
    (32, r##"\20!"#$%&'()*+,-./0123456789:;<=>?"##),
    (64, r"@ABCDEFGHIJKLMNOPQRSTUVWXYZ[\5c]^_"),
    (96, r"`abcdefghijklmnopqrstuvwxyz{|}~\7f"),
    (
        128,
        r"\80\81\82\83\84\85\86\87\88\89\8a\8b\8c\8d\8e\8f\90\91\92\93\94\95\96\97\98\99\9a\9b\9c\9d\9e\9f",
    ),
    (
        160,
        r"\a0\a1\a2\a3\a4\a5\a6\a7\a8\a9\aa\ab\ac\ad\ae\af\b0\b1\b2\b3\b4\b5\b6\b7\b8\b9\ba\bb\bc\bd\be\bf",
    ),
    (
        192,
        r"\c0\c1\c2\c3\c4\c5\c6\c7\c8\c9\ca\cb\cc\cd\ce\cf\d0\d1\d2\d3\d4\d5\d6\d7\d8\d9\da\db\dc\dd\de\df",
    ),
    (
        224,
        r"\e0\e1\e2\e3\e4\e5\e6\e7\e8\e9\ea\eb\ec\ed\ee\ef\f0\f1\f2\f3\f4\f5\f6\f7\f8\f9\fa\fb\fc\fd\fe\ff",
    ),
];

/// The 32 bytes from a first one on.
fn bytes_from(first: u8) -> [u8; 32] {
    let mut bytes = [0; 32];
    let mut byte = first;
    for place in bytes.iter_mut() {
        *place = byte;
        byte = byte.wrapping_add(1);
    }
    bytes
}

#[test]
fn each_byte_is_written_and_read_back(rt: HostRuntime) -> Result<(), Fail> {
    for row in PIECES {
        let (first, word) = *row;
        let bytes = bytes_from(first);
        expect_key(&rt, word, bytes.as_slice())?;
        expect_value(&rt, word, bytes.as_slice())?;
    }
    Ok(())
}

// ---- scripts

/// A script in text has so many calls, or this is wrong with it.
fn expect_outcome(rt: &(impl Abort + AllocGlobal), text: &[u8], want: &str) -> Result<(), Fail> {
    let told = outcome(rt.alloc(), Notation::Text, text)?;
    expect_eq!(rt, (text, told.as_str()), (text, want));
    Ok(())
}

/// Lines of which a word stands for no bytes.
const BAD_TEXTS: &[&[u8]] = &[
    // A byte by its digits that is written as it is.
    br"search \41",
    br"search \7e",
    br"search \21",
    br"search a\2d",
    br"search \2da",
    br"search \2d\2d",
    // Digits in upper case.
    br"search \2D",
    br"search \5C",
    br"search \fF",
    // No digits, or too few.
    br"search \",
    br"search \2",
    br"search \\",
    br"search a\zz",
    br"search \x20",
    br"search \:0",
    br"search \0g",
    br"search a\20\",
    br"search a\20\2",
    // Bytes that don't print.
    b"search \x7f",
    b"search \x80",
    b"search caf\xc3\xa9",
    b"search \0",
    b"search a\r\r\n",
    // Other words than the key of a search.
    br"insert a \",
    br"insert a a\2d",
    br"replace \41 a",
    b"insert a \xff",
    b"insert \x1f a",
];

#[test]
fn no_other_word_is_read(rt: HostRuntime) -> Result<(), Fail> {
    for line in BAD_TEXTS {
        expect_outcome(&rt, *line, "line 1: bad text")?;
    }
    Ok(())
}

/// Scripts, and how many calls they have or what is wrong with them.
const SCRIPTS: &[(&str, &str)] = &[
    ("search -\n", "line 1: key length 0"),
    ("insert - \\\n", "line 1: key length 0"),
    ("insert \\ -\n", "line 1: bad text"),
    ("search ada l\n", "line 1: wrong number of words"),
    ("search \\ 20\n", "line 1: wrong number of words"),
    ("insert \\\n", "line 1: wrong number of words"),
    ("frob \\\n", "line 1: unknown word"),
    ("# \\\nsearch a\r\n\tdelete\tb\t\ninsert # #\n", "3 calls"),
    ("search 61\nsearch 6\nsearch \\6\n", "line 3: bad text"),
];

#[test]
fn faults_of_a_line_have_an_order(rt: HostRuntime) -> Result<(), Fail> {
    for row in SCRIPTS {
        let (text, want) = *row;
        expect_outcome(&rt, text.as_bytes(), want)?;
    }
    Ok(())
}

fn add(text: &mut String, word: &str, count: usize) -> Result<(), AllocError> {
    for _ in 0..count {
        text.push_str(word)?;
    }
    Ok(())
}

/// A text, so many times a word, and another text.
fn line_of(
    alloc: Global,
    before: &str,
    word: &str,
    count: usize,
    after: &str,
) -> Result<String, AllocError> {
    let mut line = String::from_str(alloc, before)?;
    add(&mut line, word, count)?;
    add(&mut line, after, 1)?;
    Ok(line)
}

/// Lines, as in [`line_of`], and whether they are a call or what is wrong with them.
const LENGTHS: &[(&str, &str, usize, &str, &str)] = &[
    ("search ", r"\20", 56, "\n", "1 calls"),
    ("search ", r"\20", 57, "\n", "line 1: key length 57"),
    ("search ", r"\20", 57, "\\\n", "line 1: bad text"),
    ("insert ", r"\20", 57, " \\\n", "line 1: key length 57"),
    ("search ", "-", 56, "\n", "1 calls"),
    ("search ", "-", 57, "\n", "line 1: key length 57"),
    ("delete ", "a", 500_000, "\n", "line 1: key length 500000"),
    (
        "delete ",
        r"\00",
        300_000,
        "\n",
        "line 1: key length 300000",
    ),
    ("insert a ", r"\ff", 112, "\n", "1 calls"),
    ("insert a ", r"\ff", 113, "\n", "line 1: value length 113"),
    ("insert a ", r"\ff", 113, "\\f\n", "line 1: bad text"),
    ("replace a ", "~", 112, "\n", "1 calls"),
    ("replace a ", "~", 113, "\n", "line 1: value length 113"),
];

#[test]
fn keys_have_56_bytes_and_values_112_at_most(rt: HostRuntime) -> Result<(), Fail> {
    for row in LENGTHS {
        let (before, word, count, after, want) = *row;
        let line = line_of(rt.alloc(), before, word, count, after)?;
        expect_outcome(&rt, line.as_bytes(), want)?;
    }
    Ok(())
}

#[test]
fn the_longest_key_is_read_and_written(rt: HostRuntime) -> Result<(), Fail> {
    let word = line_of(rt.alloc(), "", r"\5c", 56, "")?;
    expect_key(&rt, word.as_str(), &[b'\\'; 56])
}

#[test]
fn the_longest_value_is_read_and_written(rt: HostRuntime) -> Result<(), Fail> {
    let word = line_of(rt.alloc(), "", r"\5c", 112, "")?;
    expect_value(&rt, word.as_str(), &[b'\\'; 112])
}

// ---- replies

fn expect_found(
    rt: &(impl Abort + AllocGlobal),
    notation: Notation,
    bytes: &[u8],
    text: &str,
) -> Result<(), Fail> {
    let reply = &Reply::Found(Value::new(bytes)?);
    expect_text(rt, &ReplyText { notation, reply }, text)
}

/// Bytes, and the reply that finds them.
const FOUND: &[(&str, &str)] = &[
    ("0172", "found 0172"),
    ("", "found -"),
    ("-", r"found \2d"),
    (" \\", r"found \20\5c"),
];

#[test]
fn replies_tell_values_as_text(rt: HostRuntime) -> Result<(), Fail> {
    for row in FOUND {
        let (bytes, text) = *row;
        expect_found(&rt, Notation::Text, bytes.as_bytes(), text)?;
    }
    Ok(())
}

#[test]
fn hexadecimal_words_are_written(rt: HostRuntime) -> Result<(), Fail> {
    let notation = Notation::Hexadecimal;
    let key = &Key::new(b"-\xff")?;
    let value = &Value::empty();
    expect_text(&rt, &KeyWord { notation, key }, "2dff")?;
    expect_text(&rt, &ValueWord { notation, value }, "-")?;
    expect_found(&rt, notation, b"02", "found 3032")
}

#[test]
fn hexadecimal_words_are_read(rt: HostRuntime) -> Result<(), Fail> {
    let key = read_key(Notation::Hexadecimal, b"2dFF");
    let not_key = read_key(Notation::Hexadecimal, b"ada");
    expect_eq!(&rt, key, Ok(Key::new(b"-\xff")?));
    expect_eq!(&rt, not_key, Err(LineFault::BadHexadecimal));
    Ok(())
}

// ---- steps

#[test]
fn steps_have_keys_and_values_as_text(rt: HostRuntime) -> Result<(), Fail> {
    let text = b"call 0 insert ada 0172\ncall 1 search ada\\20l\n# \\\nread 0\n";
    let expected = [
        Event::Call(0, Call::Insert(Key::new(b"ada")?, Value::new(b"0172")?)),
        Event::Call(1, Call::Search(Key::new(b"ada l")?)),
        Event::Read(0),
    ];
    let Ok(events) = parse::<Event>(rt.alloc(), Notation::Text, text.as_slice()) else {
        return Err(Fail::from("no events"));
    };
    expect_eq!(&rt, events.as_slice(), expected.as_slice());
    Ok(())
}

/// Step scripts, and how many events they have or what is wrong with them.
const STEPS: &[(&str, &str)] = &[
    ("call 0 insert ada \\41\n", "line 1: bad text"),
    ("call 0 insert - \\41\n", "line 1: key length 0"),
    ("call 16 insert \\ 0172\n", "line 1: bad worker number"),
    ("call 0 search ada l\n", "line 1: wrong number of words"),
    ("read 0\ncall 0 delete \\2D\n", "line 2: bad text"),
    ("call 0 replace \\2d -\nread 0\n", "2 events"),
];

#[test]
fn faults_of_steps_in_text(rt: HostRuntime) -> Result<(), Fail> {
    for row in STEPS {
        let (text, want) = *row;
        steps::expect_in(&rt, Notation::Text, text, want)?;
    }
    Ok(())
}

#[test]
fn effects_tell_values_as_text(rt: HostRuntime) -> Result<(), Fail> {
    let notation = Notation::Text;
    let effect = &Effect::Answered(Reply::Found(Value::new(b"0172 ")?));
    let entry = &Ok(*effect);
    expect_text(&rt, &EffectText { notation, effect }, r"found 0172\20")?;
    expect_text(&rt, &EntryText { notation, entry }, r"found 0172\20")
}
