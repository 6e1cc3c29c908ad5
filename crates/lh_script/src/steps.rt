//! The lines of a step script.
ghost use Rattle.std.specs.Prelude.{◌≡◌, ◌<◌, ◌++◌, codes, vec_len, vec_capacity};
ghost use Rattle.lh_script.specs.Lines.{words};
ghost use Rattle.lh_script.specs.Steps.{event_of, is_decimal, of_call, of_splitter, step, worker, worker_alone};

use crate::calls::read_call;
use crate::fault::LineFault;
use crate::lines::{first_word, is_name, one_word, statement_words};
use crate::notation::Notation;
use crate::script::{Statement, keep};
use lh_core::Event;

fn is_decimal_digit(byte: u8) -> bool
    ensures { result ≡ is_decimal byte }
{
    byte >= b'0' && byte <= b'9'
}

/// The number of a worker.
#[tactic(auto, unfolding(crate::specs::Steps::worker))]
fn worker_number(word: &[u8]) -> Result<u8, LineFault>
    ensures { result ≡ worker word.now }
{
    match word {
        [c] if is_decimal_digit(*c) => Ok(*c - b'0'),
        [c, d] if is_decimal_digit(*c) && is_decimal_digit(*d) => {
            let number = 10 * (*c - b'0') + (*d - b'0');
            if number <= 15 {
                Ok(number)
            } else {
                Err(LineFault::WorkerNumber)
            }
        }
        _ => Err(LineFault::WorkerNumber),
    }
}

/// The call that comes in, by what stands behind `call`.
fn call_behind(notation: Notation, text: &[u8]) -> Result<Event, LineFault>
    ensures { result ≡ of_call notation (words text.now) }
{
    let Some((place, behind)) = first_word(text) else {
        return Err(LineFault::WordCount);
    };
    let Some((verb, rest)) = first_word(behind) else {
        return Err(LineFault::WordCount);
    };
    let (place, call) = read_call(notation, worker_number(place), verb, rest)?;
    Ok(Event::Call(place, call))
}

/// The worker whose number is the one word of a text.
#[tactic(auto, using(crate::proofs::StepLines::no_worker, crate::proofs::StepLines::worker_behind))]
fn worker_behind(text: &[u8]) -> Result<u8, LineFault>
    ensures { result ≡ worker_alone (words text.now) }
{
    match one_word(text) {
        Some(word) => worker_number(word),
        None => Err(LineFault::WordCount),
    }
}

/// An event of the splitter, where a text has no word.
#[tactic(auto, unfolding(crate::specs::Steps::of_splitter))]
fn if_alone(event: Event, text: &[u8]) -> Result<Event, LineFault>
    ensures { result ≡ of_splitter event (words text.now) }
{
    if first_word(text).is_some() {
        return Err(LineFault::WordCount);
    }
    Ok(event)
}

/// The event of a line, by its first word and what stands behind it.
#[tactic(auto, unfolding(crate::specs::Steps::event_of))]
fn event_of_line(notation: Notation, word: &[u8], rest: &[u8]) -> Result<Event, LineFault>
    ensures { result ≡ event_of notation word.now (words rest.now) }
{
    if is_name(word, b"call".as_slice()) {
        call_behind(notation, rest)
    } else if is_name(word, b"read".as_slice()) {
        Ok(Event::Read(worker_behind(rest)?))
    } else if is_name(word, b"lock".as_slice()) {
        Ok(Event::Lock(worker_behind(rest)?))
    } else if is_name(word, b"rehash".as_slice()) {
        Ok(Event::Rehash(worker_behind(rest)?))
    } else if is_name(word, b"act".as_slice()) {
        Ok(Event::Act(worker_behind(rest)?))
    } else if is_name(word, b"release".as_slice()) {
        Ok(Event::Release(worker_behind(rest)?))
    } else if is_name(word, b"split-begin".as_slice()) {
        if_alone(Event::SplitBegin, rest)
    } else if is_name(word, b"split-lock".as_slice()) {
        if_alone(Event::SplitLock, rest)
    } else if is_name(word, b"split-move".as_slice()) {
        if_alone(Event::SplitMove, rest)
    } else if is_name(word, b"split-release".as_slice()) {
        if_alone(Event::SplitRelease, rest)
    } else if is_name(word, b"split-point".as_slice()) {
        if_alone(Event::SplitPoint, rest)
    } else if is_name(word, b"split-drop".as_slice()) {
        if_alone(Event::SplitDrop, rest)
    } else {
        Err(LineFault::UnknownWord)
    }
}

/// What a line of a step script says.
#[tactic(auto, unfolding(crate::specs::Steps::step))]
fn read_step(notation: Notation, line: &[u8]) -> Result<Option<Event>, LineFault>
    ensures { result ≡ step notation (words line.now) }
{
    let Some((word, rest)) = statement_words(line) else {
        return Ok(None);
    };
    Ok(Some(event_of_line(notation, word, rest)?))
}

impl Statement for Event {
    ghost reads = { step };

    fn read(notation: Notation, line: &[u8], statements: &mut Vec<Event>) -> Result<(), LineFault> {
        keep(read_step(notation, line), statements)
    }
}
