//! Runs, from words and bytes to bytes and a status.
ghost use Rattle.std.specs.Prelude.{◌≡◌, OnOk};

use lh_expect::equal_values;
use lhash::run;
use std::sync::Wait;
use std::test::Fail;
use std::thread::Threads;

/// The exit status, what was written, and the text of the status.
pub fn ran(
    rt: &(impl AllocGlobal + Threads + Wait + Sync),
    words: &[&str],
    input: &[u8],
) -> Result<(u8, Vec<u8>, String), Fail> {
    let mut source = input;
    let mut output = Vec::new(rt.alloc());
    let status = run(rt, words, false, &mut source, &mut output);
    Ok((status.code(), output, status.to_string(rt.alloc())?))
}

/// A run with this exit status, this text and this output is the one that is due.
fn ends(
    code: u8,
    text: &str,
    output: &[u8],
    due_code: u8,
    due_text: &str,
    due: &[u8],
) -> Result<(), Fail>
    ensures code { OnOk result (code ≡ due_code) }
    ensures text { OnOk result (text.now ≡ due_text.now) }
    ensures output { OnOk result (output.now ≡ due.now) }
{
    equal_values(text, due_text)?;
    equal_values(output, due)?;
    equal_values(code, due_code)?;
    Ok(())
}

/// A run on these bytes is done, and wrote this.
pub fn told(
    rt: &(impl AllocGlobal + Threads + Wait + Sync),
    words: &[&str],
    input: &[u8],
    output: &[u8],
) -> Result<(), Fail> {
    let (code, written, text) = ran(rt, words, input)?;
    ends(code, text.as_str(), written.as_slice(), 0, "", output)
}

/// A run on this text is done, and wrote this.
pub fn writes(
    rt: &(impl AllocGlobal + Threads + Wait + Sync),
    words: &[&str],
    input: &str,
    output: &str,
) -> Result<(), Fail> {
    told(rt, words, input.as_bytes(), output.as_bytes())
}

/// A run on this text ends with this status and this fault, and wrote nothing.
pub fn fails(
    rt: &(impl AllocGlobal + Threads + Wait + Sync),
    words: &[&str],
    input: &str,
    code: u8,
    fault: &str,
) -> Result<(), Fail> {
    let (status, written, text) = ran(rt, words, input.as_bytes())?;
    ends(status, text.as_str(), written.as_slice(), code, fault, b"")
}
