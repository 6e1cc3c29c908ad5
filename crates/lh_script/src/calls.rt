//! The calls of a script: the table of their verbs.
ghost use Rattle.std.specs.Prelude.{◌≡◌, codes};
ghost use Rattle.lh_script.specs.Calls.{call, then_key, then_pair, with_key, with_pair};
ghost use Rattle.lh_script.specs.Lines.{words};

use crate::fault::LineFault;
use crate::lines::{is_name, one_word, two_words};
use crate::notation::Notation;
use crate::operands::{read_key, read_value};
use lh_bucket::Call;
use lh_page::{Key, Value};

/// What stands before a verb, and the key that a word stands for.
#[inline(always)]
fn key_after<B: Copy>(
    notation: Notation,
    before: Result<B, LineFault>,
    word: &[u8],
) -> Result<(B, Key), LineFault>
    ensures { result ≡ then_key notation before word.now }
{
    Ok((before?, read_key(notation, word)?))
}

/// What stands before a verb, and the key that is the one word of a text.
#[tactic(auto, using(crate::proofs::Verbs::not_one, crate::proofs::Verbs::one_key))]
#[inline(always)]
fn key_behind<B: Copy>(
    notation: Notation,
    before: Result<B, LineFault>,
    text: &[u8],
) -> Result<(B, Key), LineFault>
    ensures { result ≡ with_key notation before (words text.now) }
{
    match one_word(text) {
        Some(word) => key_after(notation, before, word),
        None => Err(LineFault::WordCount),
    }
}

/// What stands before a verb, and the key and the value that two words stand for.
#[inline(always)]
fn pair_after<B: Copy>(
    notation: Notation,
    before: Result<B, LineFault>,
    first: &[u8],
    second: &[u8],
) -> Result<(B, Key, Value), LineFault>
    ensures { result ≡ then_pair notation before first.now second.now }
{
    Ok((
        before?,
        read_key(notation, first)?,
        read_value(notation, second)?,
    ))
}

/// What stands before a verb, and the key and the value that are the two words of a text.
#[tactic(auto, using(crate::proofs::Verbs::not_two, crate::proofs::Verbs::two_words))]
#[inline(always)]
fn pair_behind<B: Copy>(
    notation: Notation,
    before: Result<B, LineFault>,
    text: &[u8],
) -> Result<(B, Key, Value), LineFault>
    ensures { result ≡ with_pair notation before (words text.now) }
{
    match two_words(text) {
        Some((first, second)) => pair_after(notation, before, first, second),
        None => Err(LineFault::WordCount),
    }
}

/// What stands before a verb, and the call of the verb and of what stands behind it. The words behind it are counted
/// before any is read, so a fault of what stands before it comes in between.
#[tactic(auto, unfolding(crate::specs::Calls::call))]
pub fn read_call<B: Copy>(
    notation: Notation,
    before: Result<B, LineFault>,
    verb: &[u8],
    rest: &[u8],
) -> Result<(B, Call), LineFault>
    ensures { result ≡ call notation before verb.now (words rest.now) }
{
    if is_name(verb, b"search".as_slice()) {
        let (before, key) = key_behind(notation, before, rest)?;
        Ok((before, Call::Search(key)))
    } else if is_name(verb, b"insert".as_slice()) {
        let (before, key, value) = pair_behind(notation, before, rest)?;
        Ok((before, Call::Insert(key, value)))
    } else if is_name(verb, b"delete".as_slice()) {
        let (before, key) = key_behind(notation, before, rest)?;
        Ok((before, Call::Delete(key)))
    } else if is_name(verb, b"replace".as_slice()) {
        let (before, key, value) = pair_behind(notation, before, rest)?;
        Ok((before, Call::Replace(key, value)))
    } else {
        Err(LineFault::UnknownWord)
    }
}
