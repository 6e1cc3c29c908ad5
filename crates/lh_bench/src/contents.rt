//! Keys and values.

use crate::numbers::{GAMMA, mix};
use lh_page::{Key, Value};

/// Sixteen bytes that go with a number.
fn bytes_of(seed: u64, number: u64) -> [u8; 16] {
    let first = number.wrapping_mul(2).wrapping_add(1).wrapping_mul(GAMMA);
    let low = mix(seed.wrapping_add(first));
    let high = mix(seed.wrapping_add(first).wrapping_add(GAMMA));
    ((high as u128) << 64 | low as u128).to_le_bytes()
}

fn short_key(seed: u64, number: u64) -> Key {
    match Key::new(&bytes_of(seed, number)) {
        Ok(key) => key,
        Err(_) => unreachable!(),
    }
}

// Long keys and values are made apart, so that calls with short ones have no room for them.
#[inline(never)]
fn long_key(seed: u64, number: u64) -> Key {
    let bytes = bytes_of(seed, number);
    let mut places = [0; 64];
    for place in places.chunks_exact_mut(16) {
        place.copy_from_slice(&bytes);
    }
    match Key::new(&places[..50]) {
        Ok(key) => key,
        Err(_) => unreachable!(),
    }
}

fn short_value(seed: u64, number: u64) -> Value {
    match Value::new(&bytes_of(seed, number)) {
        Ok(value) => value,
        Err(_) => unreachable!(),
    }
}

#[inline(never)]
fn long_value(seed: u64, number: u64) -> Value {
    let bytes = bytes_of(seed, number);
    let mut places = [0; 112];
    for place in places.chunks_exact_mut(16) {
        place.copy_from_slice(&bytes);
    }
    match Value::new(&places[..100]) {
        Ok(value) => value,
        Err(_) => unreachable!(),
    }
}

fn are_short_bytes(bytes: &[u8], seed: u64, number: u64) -> bool {
    match <[u8; 16]>::try_from(bytes) {
        Ok(bytes) => u128::from_le_bytes(bytes) == u128::from_le_bytes(bytes_of(seed, number)),
        Err(_) => false,
    }
}

const VALUES: u64 = 0xa5a5_a5a5_a5a5_a5a5;

/// How keys and values are made of the numbers of records.
#[derive(Clone, Copy)]
pub struct Contents {
    pub seed: u64,
    /// Whether keys have 50 bytes and values 100, and not 16 each.
    pub are_long: bool,
}

impl Contents {
    /// The bytes of a short key.
    #[inline]
    pub fn key_bytes(self, number: u64) -> [u8; 16] {
        bytes_of(self.seed, number)
    }

    /// The bytes of a short value.
    #[inline]
    pub fn value_bytes(self, number: u64) -> [u8; 16] {
        bytes_of(self.seed ^ VALUES, number)
    }

    #[inline]
    pub fn key(self, number: u64) -> Key {
        if self.are_long {
            long_key(self.seed, number)
        } else {
            short_key(self.seed, number)
        }
    }

    #[inline]
    pub fn value(self, number: u64) -> Value {
        if self.are_long {
            long_value(self.seed ^ VALUES, number)
        } else {
            short_value(self.seed ^ VALUES, number)
        }
    }

    /// Whether these are the bytes of a record's value.
    #[inline]
    pub fn are_bytes(self, bytes: &[u8], number: u64) -> bool {
        if self.are_long {
            bytes == long_value(self.seed ^ VALUES, number).bytes()
        } else {
            are_short_bytes(bytes, self.seed ^ VALUES, number)
        }
    }

    /// The value that a record is given in place of its own: this many bytes of 40, which go with its number.
    pub fn other_value(self, number: u64, length: u8) -> Value {
        let seed = self.seed ^ 0x5a5a_5a5a_5a5a_5a5a;
        let mut bytes = [0; 48];
        for (part, place) in bytes.chunks_exact_mut(16).enumerate() {
            let own = number.wrapping_mul(3).wrapping_add(part as u64);
            place.copy_from_slice(&bytes_of(seed, own));
        }
        match Value::new(&bytes[..(length as usize).min(40)]) {
            Ok(value) => value,
            Err(_) => unreachable!(),
        }
    }
}
