//! Rows of bytes in which keys and values are kept.
ghost use Rattle.std.specs.Prelude.{◌≡◌, ◌≤◌, [], length, take};
ghost use Rattle.lh_page.specs.Rows.{padded};

use crate::limits::{LONGEST_KEY, LONGEST_VALUE};
use std::marker::Model;

/// The bytes of memory of a key.
pub const KEY_ROOM: usize = LONGEST_KEY;

/// The bytes of memory of a value.
pub const VALUE_ROOM: usize = LONGEST_VALUE;

/// Up to `N` bytes, at the front of a row of `N` that has zeros behind them.
#[derive(Clone, Copy)]
pub struct PaddedBytes<const N: usize> {
    row: [u8; N],
    // A whole word, since copies of an odd number of bytes are made of words that overlap, and each then waits for the
    // one before.
    len: usize,
}

impl<const N: usize> Model for PaddedBytes<N> {
    ghost use Rattle.std.specs.Prelude.{◌≡◌, ℕ, ◌≤◌, ◌-◌, ◌++◌, List, length, take, drop};
    ghost use Rattle.lh_page.specs.Rows.{padded, zeros};
    ghost use Rattle.std.proofs.Common.{ap, ◌∙◌, sym, arith, take-append-drop, length-take-le};

    ghost Value = { List ℕ };

    ghost view = { λ b. take b.len b.row };

    ghost invariant = { λ b. (b.len ≤ N) × (length b.row ≡ N) × (drop b.len b.row ≡ zeros (N - b.len)) };

    ghost inverse = { λ bytes. record { row = padded N bytes; len = length bytes } };

    ghost inverse_ok = { λ b h i. record {
      row = (ap (λ n. take b.len b.row ++ zeros (N - n)) (length-take-le b.len b.row (omega (arith, h.0, h.1)))
          ∙ (ap (λ r. take b.len b.row ++ r) (sym h.2) ∙ take-append-drop b.len b.row)) i;
      len = length-take-le b.len b.row (omega (arith, h.0, h.1)) i;
    } };
}

impl<const N: usize> PaddedBytes<N> {
    /// These bytes, with zeros behind them.
    #[inline]
    pub fn of(bytes: &[u8]) -> Self
        requires { length bytes.now ≤ N }
        ensures { result ≡ bytes.now }
    {
        let mut row = [0; N];
        row[..bytes.len()].copy_from_slice(bytes);
        PaddedBytes {
            row,
            len: bytes.len(),
        }
    }

    /// No bytes.
    #[inline]
    pub fn empty() -> Self
        ensures { result ≡ [] }
    {
        PaddedBytes {
            row: [0; N],
            len: 0,
        }
    }

    /// Puts other bytes in the place of these.
    #[inline]
    pub fn set(&mut self, bytes: &[u8])
        requires { length bytes.now ≤ N }
        ensures { self.new ≡ bytes.now }
    {
        let row = &mut self.row[..];
        let len = bytes.len();
        row[..len].copy_from_slice(bytes);
        row[len..].fill(0);
        self.len = len;
    }

    /// The number of bytes.
    #[inline]
    pub fn len(&self) -> usize
        ensures { result ≡ length self.now }
    {
        self.len
    }

    /// The bytes alone.
    #[inline]
    pub fn as_slice(&self) -> &[u8]
        ensures { result.now ≡ self.now }
    {
        &self.row[..self.len]
    }

    /// The bytes and the zeros behind them.
    #[inline]
    pub fn row(&self) -> &[u8; N]
        ensures whole { result.now ≡ padded N self.now }
        ensures front { take (length self.now) result.now ≡ self.now }
    {
        &self.row
    }
}
