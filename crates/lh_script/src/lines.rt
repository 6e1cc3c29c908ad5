//! The lines of a script and the words of a line, as parts of the script's bytes.
ghost use Rattle.std.specs.Prelude.{◌≡◌, ◌≢◌, [], ◌∷◌, ◌<◌, ◌≤◌, true, not, length, MatchOption};
ghost use Rattle.std.specs.List.{position, position_or_len};
ghost use Rattle.lh_script.specs.Lines.{IsStatement, lines, words, is_blank, is_comment, is_lf, is_skipped, is_word};
ghost use Rattle.lh_script.specs.Lines.{without_last_cr};

use memchr::memchr;

#[tactic(auto, unfolding(crate::specs::Lines::is_blank))]
fn is_blank_byte(byte: u8) -> bool
    ensures { result ≡ is_blank byte }
{
    byte == b' ' || byte == b'\t'
}

fn first_word_byte(text: &[u8]) -> Option<usize>
    ensures { result ≡ position (λ c. not (is_blank c)) text.now }
{
    text.iter().position(|byte| !is_blank_byte(*byte))
}

fn first_blank(text: &[u8]) -> Option<usize>
    ensures { result ≡ position is_blank text.now }
{
    text.iter().position(|byte| is_blank_byte(*byte))
}

/// How many blanks a text begins with.
#[tactic(auto, using(crate::proofs::Splitting::unwrap_position))]
fn blanks(text: &[u8]) -> usize
    ensures value { result ≡ position_or_len (λ c. not (is_blank c)) text.now }
    ensures bound { result ≤ length text.now }
{
    first_word_byte(text).unwrap_or(text.len())
}

/// Where the first blank stands.
#[tactic(auto, using(crate::proofs::Splitting::unwrap_position))]
fn word_length(text: &[u8]) -> usize
    ensures value { result ≡ position_or_len is_blank text.now }
    ensures bound { result ≤ length text.now }
{
    first_blank(text).unwrap_or(text.len())
}

/// Where the first LF stands.
#[tactic(auto, using(crate::proofs::Splitting::lf_found))]
fn line_length(text: &[u8]) -> usize
    ensures value { result ≡ position_or_len is_lf text.now }
    ensures bound { result ≤ length text.now }
{
    memchr(b'\n', text).unwrap_or(text.len())
}

/// The first word of a line and what stands behind it.
pub fn first_word(line: &[u8]) -> Option<(&[u8], &[u8])>
    ensures { MatchOption result (words line.now ≡ []) (λ x. words line.now ≡ x.0.now ∷ words x.1.now) }
{
    let word = &line[blanks(line)..];
    if word.is_empty() {
        return None;
    }
    Some(word.split_at(word_length(word)))
}

/// The one word of a text.
pub fn one_word(text: &[u8]) -> Option<&[u8]>
    ensures { MatchOption result (length (words text.now) ≢ 1) (λ word. words text.now ≡ word.now ∷ []) }
{
    let (word, rest) = first_word(text)?;
    if first_word(rest).is_some() {
        return None;
    }
    Some(word)
}

/// The two words of a text.
pub fn two_words(text: &[u8]) -> Option<(&[u8], &[u8])>
    ensures { MatchOption result (length (words text.now) ≢ 2) (λ x. words text.now ≡ x.0.now ∷ x.1.now ∷ []) }
{
    let (first, rest) = first_word(text)?;
    let (second, behind) = first_word(rest)?;
    if first_word(behind).is_some() {
        return None;
    }
    Some((first, second))
}

/// A line without the CR at its end, if there is one.
#[tactic(auto, using(crate::proofs::Splitting::cr_stays, crate::proofs::Splitting::cr_goes))]
pub fn without_cr(line: &[u8]) -> &[u8]
    ensures { result.now ≡ without_last_cr line.now }
{
    let length = line.len();
    if length > 0 && line[length - 1] == b'\r' {
        &line[..length - 1]
    } else {
        line
    }
}

/// The first line of a text and what stands behind it.
pub fn first_line(text: &[u8]) -> (&[u8], &[u8])
    requires { 0 < length text.now }
    ensures first { lines text.now ≡ result.0.now ∷ lines result.1.now }
    ensures shorter { length result.1.now < length text.now }
{
    let end = line_length(text);
    if end == text.len() {
        return (text, &text[end..]);
    }
    (without_cr(&text[..end]), &text[end + 1..])
}

fn is_comment_word(word: &[u8]) -> bool
    ensures { result ≡ is_comment word.now }
{
    !word.is_empty() && word[0] == b'#'
}

/// The first word of a line and what stands behind it, unless the line has no word or is a comment.
pub fn statement_words(line: &[u8]) -> Option<(&[u8], &[u8])>
    ensures { MatchOption result (is_skipped (words line.now) ≡ true)
        (λ x. IsStatement x.0.now (words x.1.now) (words line.now)) }
{
    let (word, rest) = first_word(line)?;
    if is_comment_word(word) {
        return None;
    }
    Some((word, rest))
}

/// Whether a word is this one.
pub fn is_name(word: &[u8], name: &[u8]) -> bool
    ensures { result ≡ is_word word.now name.now }
{
    word == name
}
