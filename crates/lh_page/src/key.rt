//! Keys: short byte strings that are kept in place and copied freely.
ghost use Rattle.std.specs.Prelude.{◌≡◌, ◌≢◌, ℕ, ◌<◌, ◌≤◌, ◌+◌, ◌↔◌, List, [], ◌∷◌, length, take, slice_index, Some};
ghost use Rattle.std.specs.Prelude.{IsOk, IfOk, IfErr, nat_eq, refl};
ghost use Rattle.std.specs.Ordering.{nat_cmp};
ghost use Rattle.std.specs.Bool.{OnTrue, OnFalse};
ghost use Rattle.std.specs.Str.{IsUtf8, bytes_eq};
ghost use Rattle.std.specs.Cmp.{partial_equiv_from_equiv};
ghost use Rattle.std.specs.Cmp.Lexicographic.{pointwise, slice_cmp, nat_list_eq_equiv, nat_list_cmp_total, texts_po};
ghost use Rattle.std.specs.Cmp.Lexicographic.{texts_ties};
ghost use Rattle.lh_page.specs.Limits.{IsKey};
ghost use Rattle.lh_page.specs.Mark.{mark_of, mixed_words, same_words, word_at};

use crate::comparing::{STRIDE, common_front};
use crate::limits::LONGEST_KEY;
use crate::rows::{KEY_ROOM, PaddedBytes};
use byteorder::{ByteOrder, LittleEndian};
use std::cmp::Ordering;
use std::marker::Model;
use std::str::Utf8Error;
use std::{fmt, str};
use thiserror::Error;

/// A key of 1 to 56 bytes. Keys are compared and ordered by their bytes, a key before its longer extensions. `Debug`
/// writes them as a literal of Rust, as `b"ada"`.
#[derive(Clone, Copy)]
pub struct Key {
    bytes: PaddedBytes<KEY_ROOM>,
}

impl Model for Key {
    ghost use Rattle.std.specs.Prelude.{ℕ, List};
    ghost use Rattle.lh_page.specs.Limits.{IsKey};

    ghost Value = { List ℕ };

    ghost view = { λ k. k.bytes };

    ghost invariant = { λ k. IsKey k.bytes };

    ghost inverse = { λ b. record { bytes = b } };
}

/// A length that no key has: 0, or more than 56 bytes.
#[derive(Clone, Copy, Debug, PartialEq, Eq, Error)]
#[error("key length {length}")]
pub struct KeyLength {
    pub length: usize,
}

impl Key {
    /// The key with these bytes.
    pub fn new(bytes: &[u8]) -> Result<Self, KeyLength>
        ensures variant { IsOk result ↔ IsKey bytes.now }
        ensures ok { IfOk result (λ key. key ≡ bytes.now) }
        ensures err { IfErr result (λ error. error.length ≡ length bytes.now) }
    {
        let length = bytes.len();
        if length < 1 || length > LONGEST_KEY {
            return Err(KeyLength { length });
        }
        Ok(Key::of(bytes))
    }

    /// The key with these bytes, of which there are as many as keys have.
    #[inline]
    pub(crate) fn of(bytes: &[u8]) -> Self
        requires { IsKey bytes.now }
        ensures { result ≡ bytes.now }
    {
        Key {
            bytes: PaddedBytes::of(bytes),
        }
    }

    /// The number of bytes.
    #[inline]
    pub(crate) fn len(&self) -> u8
        ensures { result ≡ length self.now }
    {
        self.bytes.len() as u8
    }

    pub fn bytes(&self) -> &[u8]
        ensures value { result.now ≡ self.now }
        ensures kept { IsKey self.now }
    {
        self.bytes.as_slice()
    }

    /// The bytes as text, where they are UTF-8.
    pub fn as_str(&self) -> Result<&str, Utf8Error>
        ensures variant { IsOk result ↔ IsUtf8 self.now }
        ensures ok { IfOk result (λ text. text.now ≡ self.now) }
    {
        str::from_utf8(self.bytes())
    }

    /// The key, with zeros behind it.
    #[inline]
    pub(crate) fn row(&self) -> &[u8; KEY_ROOM]
        ensures front { take (length self.now) result.now ≡ self.now }
        ensures kept { IsKey self.now }
    {
        self.bytes.row()
    }

    /// Whether this key is the first `len` of some bytes.
    #[inline(always)]
    pub(crate) fn is_front(&self, bytes: &[u8], len: u8) -> bool
        requires stride { STRIDE ≤ length bytes.now }
        requires len { len ≤ length bytes.now }
        ensures { result ≡ bytes_eq (take len bytes.now) self.now }
    {
        self.bytes.len() == len as usize && starts_alike(self.bytes.row(), bytes, len as usize)
    }

    /// A key for places that hold none.
    pub(crate) fn placeholder() -> Self
        ensures { result ≡ 0 ∷ [] }
    {
        Key::of(&[0])
    }

    /// A byte that tells most keys apart, made of all of the key's bytes.
    pub(crate) fn mark(&self) -> u8
        ensures { result ≡ mark_of self.now }
    {
        mix(self.bytes.row())
    }
}

/// Whether the first bytes are the same in both. The second half of them is looked at only where it counts, since it
/// may be in another line of the cache.
#[inline(always)]
fn starts_alike(a: &[u8; KEY_ROOM], b: &[u8], len: usize) -> bool
    requires key { len ≤ KEY_ROOM }
    requires stride { STRIDE ≤ length b.now }
    requires len { len ≤ length b.now }
    ensures same { OnTrue result ((i : ℕ) → i < len → slice_index a.now i ≡ slice_index b.now i) }
    ensures other { OnFalse result ((i : ℕ) × (i < len) × (slice_index a.now i ≢ slice_index b.now i)) }
{
    let front = common_front(a, b);
    if b.len() == STRIDE || len <= STRIDE || front < STRIDE {
        return front >= len;
    }
    let rest = b.len().min(KEY_ROOM) - STRIDE;
    rest + common_front(&a[rest..], &b[rest..]) >= len
}

/// The high byte of a sum of odd multiples of the seven words.
#[inline]
fn mix(bytes: &[u8; KEY_ROOM]) -> u8
    ensures { result ≡ mixed_words bytes.now }
{
    let first = word(bytes, 0).wrapping_mul(0x9e37_79b9_7f4a_7c15);
    let second = word(bytes, 8).wrapping_mul(0xc2b2_ae3d_27d4_eb4f);
    let third = word(bytes, 16).wrapping_mul(0x1656_67b1_9e37_79f9);
    let fourth = word(bytes, 24).wrapping_mul(0x85eb_ca77_c2b2_ae63);
    let fifth = word(bytes, 32).wrapping_mul(0x27d4_eb2f_1656_67c5);
    let sixth = word(bytes, 40).wrapping_mul(0xd6e8_feb8_6659_fd93);
    let last = word(bytes, 48).wrapping_mul(0xff51_afd7_ed55_8ccd);
    let sum = first
        .wrapping_add(second)
        .wrapping_add(third)
        .wrapping_add(fourth)
        .wrapping_add(fifth)
        .wrapping_add(sixth)
        .wrapping_add(last);
    (sum >> 56) as u8
}

/// The number in the 8 bytes from a place.
#[inline]
#[tactic(auto, unfolding(crate::specs::Mark::word_at))]
fn word(bytes: &[u8; KEY_ROOM], place: usize) -> u64
    requires { place + 8 ≤ KEY_ROOM }
    ensures { result ≡ word_at bytes.now place }
{
    LittleEndian::read_u64(&bytes[place..place + 8])
}

impl fmt::Debug for Key {
    fn fmt<W: fmt::Write>(&self, f: &mut fmt::Formatter<W>) -> fmt::Result {
        write!(f, "b\"{}\"", self.bytes().escape_ascii())
    }
}

impl PartialEq for Key {
    ghost eq = { pointwise nat_eq };

    ghost laws = { partial_equiv_from_equiv nat_list_eq_equiv };

    fn eq(&self, other: &Self) -> bool {
        self.bytes.len() == other.bytes.len() && is_same(self.bytes.row(), other.bytes.row())
    }
}

/// Whether two rows of bytes are the same.
#[inline]
fn is_same(a: &[u8; KEY_ROOM], b: &[u8; KEY_ROOM]) -> bool
    ensures same { OnTrue result (a.now ≡ b.now) }
    ensures other { OnFalse result (a.now ≢ b.now) }
{
    agree(a, b)
}

/// Whether two rows of bytes have the same words: eight bytes at a time.
#[inline]
fn agree(a: &[u8; KEY_ROOM], b: &[u8; KEY_ROOM]) -> bool
    ensures { result ≡ same_words a.now b.now }
{
    word(a, 0) == word(b, 0)
        && word(a, 8) == word(b, 8)
        && word(a, 16) == word(b, 16)
        && word(a, 24) == word(b, 24)
        && word(a, 32) == word(b, 32)
        && word(a, 40) == word(b, 40)
        && word(a, 48) == word(b, 48)
}

impl Eq for Key {
    ghost laws = { nat_list_eq_equiv };
}

impl PartialOrd for Key {
    ghost partial_cmp = { λ s t. Some (slice_cmp nat_cmp s t) };

    ghost laws = { texts_po };

    fn partial_cmp(&self, other: &Self) -> Option<Ordering> {
        Some(self.cmp(other))
    }
}

impl Ord for Key {
    ghost cmp = { slice_cmp nat_cmp };

    ghost total = { nat_list_cmp_total };

    ghost matches_partial_cmp = { λ s t. refl };

    ghost matches_eq = { texts_ties };

    fn cmp(&self, other: &Self) -> Ordering {
        self.bytes().cmp(other.bytes())
    }
}
