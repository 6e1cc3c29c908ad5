//! Values: short byte strings that are kept in place and copied freely.
ghost use Rattle.std.specs.Prelude.{◌≡◌, ℕ, ◌↔◌, List, [], length, take, Some, IsOk, IfOk, IfErr, nat_eq, refl};
ghost use Rattle.std.specs.Ordering.{nat_cmp};
ghost use Rattle.std.specs.Str.{IsUtf8};
ghost use Rattle.std.specs.Cmp.{partial_equiv_from_equiv};
ghost use Rattle.std.specs.Cmp.Lexicographic.{pointwise, slice_cmp, nat_list_eq_equiv, nat_list_cmp_total, texts_po};
ghost use Rattle.std.specs.Cmp.Lexicographic.{texts_ties};
ghost use Rattle.lh_page.specs.Limits.{IsValue};

use crate::limits::LONGEST_VALUE;
use crate::rows::{PaddedBytes, VALUE_ROOM};
use std::cmp::Ordering;
use std::marker::Model;
use std::str::Utf8Error;
use std::{fmt, str};
use thiserror::Error;

/// A value of 0 to 112 bytes. Values are compared and ordered by their bytes, a value before its longer extensions.
/// `Debug` writes them as a literal of Rust, as `b"0171"`.
#[derive(Clone, Copy)]
pub struct Value {
    bytes: PaddedBytes<VALUE_ROOM>,
}

impl Model for Value {
    ghost use Rattle.std.specs.Prelude.{ℕ, List};
    ghost use Rattle.lh_page.specs.Limits.{IsValue};

    ghost Value = { List ℕ };

    ghost view = { λ v. v.bytes };

    ghost invariant = { λ v. IsValue v.bytes };

    ghost inverse = { λ b. record { bytes = b } };
}

/// A length that no value has: more than 112 bytes.
#[derive(Clone, Copy, Debug, PartialEq, Eq, Error)]
#[error("value length {length}")]
pub struct ValueLength {
    pub length: usize,
}

impl Value {
    /// The value with these bytes.
    pub fn new(bytes: &[u8]) -> Result<Self, ValueLength>
        ensures variant { IsOk result ↔ IsValue bytes.now }
        ensures ok { IfOk result (λ value. value ≡ bytes.now) }
        ensures err { IfErr result (λ error. error.length ≡ length bytes.now) }
    {
        let length = bytes.len();
        if length > LONGEST_VALUE {
            return Err(ValueLength { length });
        }
        Ok(Value::of(bytes))
    }

    /// The value with these bytes, of which there are as many as values have.
    #[inline]
    pub(crate) fn of(bytes: &[u8]) -> Self
        requires { IsValue bytes.now }
        ensures { result ≡ bytes.now }
    {
        Value {
            bytes: PaddedBytes::of(bytes),
        }
    }

    /// The value without bytes.
    pub fn empty() -> Self
        ensures { result ≡ [] }
    {
        Value {
            bytes: PaddedBytes::empty(),
        }
    }

    /// Puts other bytes in the place of the value's, of which there are as many as values have.
    #[inline]
    pub fn set(&mut self, bytes: &[u8])
        requires { IsValue bytes.now }
        ensures { self.new ≡ bytes.now }
    {
        self.bytes.set(bytes);
    }

    /// The value, with zeros behind it.
    #[inline]
    pub(crate) fn row(&self) -> &[u8; VALUE_ROOM]
        ensures { take (length self.now) result.now ≡ self.now }
    {
        self.bytes.row()
    }

    pub fn bytes(&self) -> &[u8]
        ensures value { result.now ≡ self.now }
        ensures kept { IsValue self.now }
    {
        self.bytes.as_slice()
    }

    /// The bytes as text, where they are UTF-8.
    pub fn as_str(&self) -> Result<&str, Utf8Error>
        ensures variant { IsOk result ↔ IsUtf8 self.now }
        ensures ok { IfOk result (λ text. text.now ≡ self.now) }
    {
        str::from_utf8(self.bytes())
    }
}

impl fmt::Debug for Value {
    fn fmt<W: fmt::Write>(&self, f: &mut fmt::Formatter<W>) -> fmt::Result {
        write!(f, "b\"{}\"", self.bytes().escape_ascii())
    }
}

impl PartialEq for Value {
    ghost eq = { pointwise nat_eq };

    ghost laws = { partial_equiv_from_equiv nat_list_eq_equiv };

    fn eq(&self, other: &Self) -> bool {
        self.bytes() == other.bytes()
    }
}

impl Eq for Value {
    ghost laws = { nat_list_eq_equiv };
}

impl PartialOrd for Value {
    ghost partial_cmp = { λ s t. Some (slice_cmp nat_cmp s t) };

    ghost laws = { texts_po };

    fn partial_cmp(&self, other: &Self) -> Option<Ordering> {
        Some(self.cmp(other))
    }
}

impl Ord for Value {
    ghost cmp = { slice_cmp nat_cmp };

    ghost total = { nat_list_cmp_total };

    ghost matches_partial_cmp = { λ s t. refl };

    ghost matches_eq = { texts_ties };

    fn cmp(&self, other: &Self) -> Ordering {
        self.bytes().cmp(other.bytes())
    }
}
