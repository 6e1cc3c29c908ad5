//! A row of bytes compared with one byte, many at once: the places where that byte stands, as the bits that are set.
ghost use Rattle.std.specs.Prelude.{◌≡◌, ◌≢◌, ◌↔◌, ℕ, ◌-◌, ◌*◌, ◌^◌, ◌<◌, ◌≤◌, length, slice_index};
ghost use Rattle.std.specs.Int.{bit_at};

use std::simd::prelude::*;

/// The places of a byte among the first eight.
#[inline]
pub fn places_8(row: &[u8], byte: u8) -> u64
    requires { 8 ≤ length row.now }
    ensures few { result < 2 ^ 8 }
    ensures places { (i : ℕ) → i < 8 → (bit_at result i ≡ 1) ↔ (slice_index row.now i ≡ byte) }
{
    u8x8::from_slice(row)
        .simd_eq(u8x8::splat(byte))
        .to_bitmask()
}

/// The places of a byte among the first 16.
#[inline]
pub fn places_16(row: &[u8], byte: u8) -> u64
    requires { 16 ≤ length row.now }
    ensures few { result < 2 ^ 16 }
    ensures places { (i : ℕ) → i < 16 → (bit_at result i ≡ 1) ↔ (slice_index row.now i ≡ byte) }
{
    u8x16::from_slice(row)
        .simd_eq(u8x16::splat(byte))
        .to_bitmask()
}

/// The places of a byte among the first 32.
#[inline]
pub fn places_32(row: &[u8], byte: u8) -> u64
    requires { 32 ≤ length row.now }
    ensures few { result < 2 ^ 32 }
    ensures places { (i : ℕ) → i < 32 → (bit_at result i ≡ 1) ↔ (slice_index row.now i ≡ byte) }
{
    u8x32::from_slice(row)
        .simd_eq(u8x32::splat(byte))
        .to_bitmask()
}

/// The places in a row of which so many bytes were compared first, and then those behind them.
#[inline]
pub fn beside(front: u64, back: u64, width: u32) -> u64
    requires width { width < 64 }
    requires front { front < 2 ^ width }
    requires back { back * 2 ^ width < 2 ^ 64 }
    ensures front { (i : ℕ) → i < width → bit_at result i ≡ bit_at front i }
    ensures back { (i : ℕ) → width ≤ i → bit_at result i ≡ bit_at back (i - width) }
{
    front | back << width
}

/// The lowest bit that is set.
#[inline]
pub fn lowest(bits: u64) -> usize
    requires { bits ≢ 0 }
    ensures within { result < 64 }
    ensures set { bit_at bits result ≡ 1 }
    ensures below { (i : ℕ) → i < result → bit_at bits i ≡ 0 }
{
    bits.trailing_zeros() as usize
}

/// The bits without one of them.
#[inline]
pub fn without(bits: u64, place: usize) -> u64
    requires within { place < 64 }
    requires set { bit_at bits place ≡ 1 }
    ensures fewer { result < bits }
    ensures others { (i : ℕ) → i < 64 → i ≢ place → bit_at result i ≡ bit_at bits i }
{
    bits & !(1 << place)
}
