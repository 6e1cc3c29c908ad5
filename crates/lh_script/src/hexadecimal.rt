//! Byte strings as words.
ghost use Rattle.std.specs.Prelude.{◌≡◌, ◌+◌, ◌*◌, ◌<◌, ◌≤◌, ◌∷◌, IfSome, MatchBool, is_some, length, take};
ghost use Rattle.std.specs.Option.{option_map, unwrap_or};
ghost use Rattle.std.specs.List.{list_all};
ghost use Rattle.lh_script.specs.Hexadecimal.{digit, pairs, is_dash, hexadecimal_bytes};

/// The value of each digit by its code, and 16 for a byte that is no digit.
static DIGIT_VALUES: [u8; 256] = [
    16, 16, 16, 16, 16, 16, 16, 16, 16, 16, 16, 16, 16, 16, 16, 16, 16, 16, 16, 16, 16, 16, 16, 16,
    16, 16, 16, 16, 16, 16, 16, 16, 16, 16, 16, 16, 16, 16, 16, 16, 16, 16, 16, 16, 16, 16, 16, 16,
    0, 1, 2, 3, 4, 5, 6, 7, 8, 9, 16, 16, 16, 16, 16, 16, 16, 10, 11, 12, 13, 14, 15, 16, 16, 16,
    16, 16, 16, 16, 16, 16, 16, 16, 16, 16, 16, 16, 16, 16, 16, 16, 16, 16, 16, 16, 16, 16, 16, 10,
    11, 12, 13, 14, 15, 16, 16, 16, 16, 16, 16, 16, 16, 16, 16, 16, 16, 16, 16, 16, 16, 16, 16, 16,
    16, 16, 16, 16, 16, 16, 16, 16, 16, 16, 16, 16, 16, 16, 16, 16, 16, 16, 16, 16, 16, 16, 16, 16,
    16, 16, 16, 16, 16, 16, 16, 16, 16, 16, 16, 16, 16, 16, 16, 16, 16, 16, 16, 16, 16, 16, 16, 16,
    16, 16, 16, 16, 16, 16, 16, 16, 16, 16, 16, 16, 16, 16, 16, 16, 16, 16, 16, 16, 16, 16, 16, 16,
    16, 16, 16, 16, 16, 16, 16, 16, 16, 16, 16, 16, 16, 16, 16, 16, 16, 16, 16, 16, 16, 16, 16, 16,
    16, 16, 16, 16, 16, 16, 16, 16, 16, 16, 16, 16, 16, 16, 16, 16, 16, 16, 16, 16, 16, 16, 16, 16,
    16, 16, 16, 16, 16, 16, 16, 16, 16, 16, 16, 16, 16, 16,
];

/// The value of a digit, and 16 for a byte that is no digit.
#[tactic(auto, using(crate::proofs::Pairs::digit_from_table))]
fn digit_value(byte: u8) -> u8
    ensures value { result ≡ unwrap_or (digit byte) 16 }
    ensures bound { result ≤ 16 }
{
    DIGIT_VALUES[byte as usize]
}

#[tactic(auto, using(crate::proofs::Pairs::digit_is_below))]
fn is_digit(byte: u8) -> bool
    ensures { result ≡ is_some (digit byte) }
{
    digit_value(byte) < 16
}

fn are_digits(word: &[u8]) -> bool
    ensures { result ≡ list_all (λ c. is_some (digit c)) word.now }
{
    word.iter().all(|byte| is_digit(*byte))
}

pub fn is_dash_word(word: &[u8]) -> bool
    ensures { result ≡ is_dash word.now }
{
    word.len() == 1 && word[0] == b'-'
}

/// The number of bytes that pairs of digits stand for.
#[tactic(auto, using(crate::proofs::Pairs::length_of_pairs))]
fn pair_count(word: &[u8]) -> Option<usize>
    ensures { result ≡ option_map length (pairs word.now) }
{
    if word.len() % 2 == 0 && are_digits(word) {
        Some(word.len() / 2)
    } else {
        None
    }
}

/// The byte that the first two digits of a text stand for, a mark of 16 or more where one of them is no digit, and
/// what stands behind them.
#[tactic(auto, using(crate::proofs::Pairs::pair_bad))]
fn first_byte(text: &[u8]) -> (u8, u8, &[u8])
    requires { 1 < length text.now }
    ensures good { result.1 < 16 → pairs text.now ≡ option_map (λ bytes. result.0 ∷ bytes) (pairs result.2.now) }
    ensures bad { 16 ≤ result.1 → pairs text.now ≡ None }
    ensures rest { length result.2.now + 2 ≡ length text.now }
{
    let high = digit_value(text[0]);
    let low = digit_value(text[1]);
    (16 * (high % 16) + low % 16, high | low, &text[2..])
}

/// Writes the bytes of pairs of digits, and says whether all of them are digits.
fn decode_pairs(word: &[u8], out: &mut [u8]) -> bool
    requires { length word.now ≡ 2 * length out.old }
    ensures { MatchBool result (pairs word.now ≡ Some out.new) (pairs word.now ≡ None) }
{
    let mut rest = word;
    let mut marks = 0;
    for byte in out.iter_mut() {
        let (value, mark, behind) = first_byte(rest);
        *byte = value;
        marks |= mark;
        rest = behind;
    }
    marks < 16
}

/// The number of bytes that a word stands for. Where `room` is long enough, they are written to its front.
#[tactic(auto, using(crate::proofs::Pairs::room_short, crate::proofs::Pairs::odd_none))]
pub fn decode(word: &[u8], room: &mut [u8]) -> Option<usize>
    ensures length { result ≡ option_map length (hexadecimal_bytes word.now) }
    ensures bytes { IfSome result (λ n. n ≤ length room.old → hexadecimal_bytes word.now ≡ Some (take n room.new)) }
{
    if is_dash_word(word) {
        return Some(0);
    }
    let length = word.len() / 2;
    if length > room.len() {
        return pair_count(word);
    }
    if word.len() % 2 == 1 {
        return None;
    }
    if decode_pairs(word, &mut room[..length]) {
        Some(length)
    } else {
        None
    }
}
