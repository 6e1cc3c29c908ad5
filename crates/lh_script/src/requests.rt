//! The lines of a client, read one at a time.
ghost use Rattle.std.specs.Prelude.{◌≡◌, ◌++◌, false, MatchOption};
ghost use Rattle.std.specs.List.{list_any};
ghost use Rattle.lh_script.specs.Lines.{is_lf, without_last_cr, words};
ghost use Rattle.lh_script.specs.Requests.{if_alone, request, request_of};
ghost use Rattle.lh_script.specs.Texts.{line};

use crate::calls::read_call;
use crate::fault::LineFault;
use crate::lines::{first_word, is_name, statement_words, without_cr};
use crate::notation::Notation;
use lh_bucket::Call;
use memchr::memchr;

/// What a client asks for.
#[derive(Clone, Copy, Debug, PartialEq, Eq)]
pub enum ClientRequest {
    /// The reply to a call.
    Call(Call),
    /// The number of buckets.
    Buckets,
    /// The number of records.
    Records,
    /// The file as an image.
    Image,
}

/// A request, where a text has no word.
#[tactic(auto, unfolding(crate::specs::Requests::if_alone))]
fn only(asked: ClientRequest, text: &[u8]) -> Result<ClientRequest, LineFault>
    ensures { result ≡ if_alone asked (words text.now) }
{
    if first_word(text).is_some() {
        return Err(LineFault::WordCount);
    }
    Ok(asked)
}

/// The request of a line, by its first word and what stands behind it.
#[tactic(auto, unfolding(crate::specs::Requests::request_of))]
fn request_of_line(notation: Notation, word: &[u8], rest: &[u8]) -> Result<ClientRequest, LineFault>
    ensures { result ≡ request_of notation word.now (words rest.now) }
{
    if is_name(word, b"buckets".as_slice()) {
        only(ClientRequest::Buckets, rest)
    } else if is_name(word, b"records".as_slice()) {
        only(ClientRequest::Records, rest)
    } else if is_name(word, b"image".as_slice()) {
        only(ClientRequest::Image, rest)
    } else {
        let ((), call) = read_call(notation, Ok(()), word, rest)?;
        Ok(ClientRequest::Call(call))
    }
}

/// What a line without its LF asks for, if anything. One CR at its end is dropped.
#[tactic(auto, unfolding(crate::specs::Requests::request))]
pub fn read_request(notation: Notation, line: &[u8]) -> Result<Option<ClientRequest>, LineFault>
    ensures { result ≡ request notation (words (without_last_cr line.now)) }
{
    let Some((word, rest)) = statement_words(without_cr(line)) else {
        return Ok(None);
    };
    Ok(Some(request_of_line(notation, word, rest)?))
}

/// The first line of some bytes, without its LF, and what stands behind it; or none where no LF is there.
#[tactic(auto, using(crate::proofs::Cutting::no_lf))]
pub fn cut_line(bytes: &[u8]) -> Option<(&[u8], &[u8])>
    ensures { MatchOption result (list_any is_lf bytes.now ≡ false)
        (λ cut. (bytes.now ≡ line cut.0.now ++ cut.1.now) × (list_any is_lf cut.0.now ≡ false)) }
{
    let end = memchr(b'\n', bytes)?;
    Some((&bytes[..end], &bytes[end + 1..]))
}
