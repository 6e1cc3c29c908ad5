//! Command scripts from end to end: calls, and the texts of faults.
ghost use Rattle.std.specs.Prelude.{◌≡◌, IfOk, vec_len};

use lh_bucket::Call;
use lh_expect::expect_eq;
use lh_page::{Key, Value};
use lh_script::{Notation, ParseError, parse};
use std::alloc::{AllocError, AllocGlobal, Global};
use std::process::Abort;
use std::test::Fail;

/// A text of one byte, again and again.
fn repeated(alloc: Global, byte: u8, count: usize) -> Result<Vec<u8>, AllocError>
    ensures { IfOk result (λ text. vec_len text ≡ count) }
{
    let mut text = Vec::new(alloc);
    text.resize(count, byte)?;
    Ok(text)
}

/// A line `before`, `digits` zeros and `after`.
fn with_zeros(
    alloc: Global,
    before: &[u8],
    digits: usize,
    after: &[u8],
) -> Result<Vec<u8>, AllocError> {
    let zeros = repeated(alloc, b'0', digits)?;
    joined(alloc, [before, &zeros, after])
}

/// One part after another.
fn joined(alloc: Global, parts: [&[u8]; 3]) -> Result<Vec<u8>, AllocError> {
    let mut text = Vec::new(alloc);
    for part in parts {
        text.extend_from_slice(part)?;
    }
    Ok(text)
}

/// How many calls a text has, or what is wrong with it.
pub fn outcome(alloc: Global, notation: Notation, text: &[u8]) -> Result<String, AllocError> {
    match parse::<Call>(alloc, notation, text) {
        Ok(calls) => {
            let count = calls.len();
            format!(in alloc; "{count} calls")
        }
        Err(ParseError::Fault(fault)) => fault.to_string(alloc),
        Err(ParseError::Memory) => Err(AllocError),
    }
}

/// A text has so many calls, or this is wrong with it.
fn expect_outcome(rt: &(impl Abort + AllocGlobal), text: &[u8], want: &str) -> Result<(), Fail> {
    let told = outcome(rt.alloc(), Notation::Hexadecimal, text)?;
    expect_eq!(rt; told.as_str(), want);
    Ok(())
}

/// The same of a line with so many zeros in it.
fn expect_of_zeros(
    rt: &(impl Abort + AllocGlobal),
    before: &str,
    digits: usize,
    after: &str,
    want: &str,
) -> Result<(), Fail> {
    let text = with_zeros(rt.alloc(), before.as_bytes(), digits, after.as_bytes())?;
    expect_outcome(rt, &text, want)
}

#[test]
fn each_verb_is_a_call(rt: HostRuntime) -> Result<(), Fail> {
    let text = b"search 61\ninsert 62 3132\n\ndelete 63\nreplace 64 -\n".as_slice();
    let expected = [
        Call::Search(Key::new(b"a")?),
        Call::Insert(Key::new(b"b")?, Value::new(b"12")?),
        Call::Delete(Key::new(b"c")?),
        Call::Replace(Key::new(b"d")?, Value::new(b"")?),
    ];
    let Ok(calls) = parse::<Call>(rt.alloc(), Notation::Hexadecimal, text) else {
        return Err(Fail::from("no calls"));
    };
    expect_eq!(&rt, calls.as_slice(), expected.as_slice());
    Ok(())
}

#[test]
fn digits_have_either_case(rt: HostRuntime) -> Result<(), Fail> {
    let Ok(calls) = parse::<Call>(
        rt.alloc(),
        Notation::Hexadecimal,
        b"insert 0aF9 cDeB00".as_slice(),
    ) else {
        return Err(Fail::from("no calls"));
    };
    let expected = [Call::Insert(Key::new(b"\x0a\xf9")?, Value::new(b"\xcd\xeb\x00")?)];
    expect_eq!(&rt, calls.as_slice(), expected.as_slice());
    Ok(())
}

#[test]
fn a_dash_is_the_empty_value(rt: HostRuntime) -> Result<(), Fail> {
    let Ok(calls) = parse::<Call>(rt.alloc(), Notation::Hexadecimal, b"insert 61 -".as_slice())
    else {
        return Err(Fail::from("no calls"));
    };
    let expected = [Call::Insert(Key::new(b"a")?, Value::new(b"")?)];
    expect_eq!(&rt, calls.as_slice(), expected.as_slice());
    Ok(())
}

#[test]
fn faulty_words(rt: HostRuntime) -> Result<(), Fail> {
    for (text, want) in [
        ("# x\n\nfrob\n", "line 3: unknown word"),
        ("Search 61\n", "line 1: unknown word"),
        ("search\n", "line 1: wrong number of words"),
        ("search 61 62\n", "line 1: wrong number of words"),
        ("insert 6g\n", "line 1: wrong number of words"),
        ("insert 61 31 # x\n", "line 1: wrong number of words"),
        ("replace 61\n", "line 1: wrong number of words"),
    ] {
        expect_outcome(&rt, text.as_bytes(), want)?;
    }
    Ok(())
}

#[test]
fn faulty_operands(rt: HostRuntime) -> Result<(), Fail> {
    for (text, want) in [
        ("insert 6g 31\n", "line 1: bad hexadecimal"),
        ("insert 61 3\n", "line 1: bad hexadecimal"),
        ("insert - 3\n", "line 1: key length 0"),
        ("delete --\n", "line 1: bad hexadecimal"),
        ("search 61\nsearch 6\nfrob\n", "line 2: bad hexadecimal"),
    ] {
        expect_outcome(&rt, text.as_bytes(), want)?;
    }
    expect_outcome(&rt, b"delete 6\xe9\n", "line 1: bad hexadecimal")
}

#[test]
fn keys_have_56_bytes_at_most(rt: HostRuntime) -> Result<(), Fail> {
    for (before, digits, after, want) in [
        ("search ", 112, "\n", "1 calls"),
        ("search ", 114, "\n", "line 1: key length 57"),
        ("search ", 115, "\n", "line 1: bad hexadecimal"),
        ("search ", 114, "0g\n", "line 1: bad hexadecimal"),
        ("insert ", 114, " 3\n", "line 1: key length 57"),
    ] {
        expect_of_zeros(&rt, before, digits, after, want)?;
    }
    Ok(())
}

#[test]
fn values_have_112_bytes_at_most(rt: HostRuntime) -> Result<(), Fail> {
    for (digits, want) in [
        (224, "1 calls"),
        (226, "line 1: value length 113"),
        (227, "line 1: bad hexadecimal"),
    ] {
        expect_of_zeros(&rt, "insert 61 ", digits, "\n", want)?;
    }
    Ok(())
}

#[test]
fn long_words_have_their_length(rt: HostRuntime) -> Result<(), Fail> {
    expect_of_zeros(&rt, "delete ", 1_000_000, "\n", "line 1: key length 500000")
}

#[test]
fn blanks_comments_and_line_ends(rt: HostRuntime) -> Result<(), Fail> {
    for (text, want) in [
        ("", "0 calls"),
        ("\n \t\n\r\n", "0 calls"),
        (" \tsearch\t 61 \t\r\n", "1 calls"),
        ("search 61", "1 calls"),
        (" #search 61\n#\nsearch 61\n", "1 calls"),
        ("search 61\r\r\n", "line 1: bad hexadecimal"),
        ("search 61\r", "line 1: bad hexadecimal"),
        ("\r", "line 1: unknown word"),
        ("search 61\r \n", "line 1: bad hexadecimal"),
    ] {
        expect_outcome(&rt, text.as_bytes(), want)?;
    }
    Ok(())
}

#[test]
fn scripts_have_16_777_216_bytes_at_most(rt: HostRuntime) -> Result<(), Fail> {
    let text = repeated(rt.alloc(), b' ', 16_777_217)?;
    expect_outcome(&rt, &text, "script too long")?;
    expect_outcome(&rt, &text.as_slice()[1..], "0 calls")
}
