//! Slots: a record each, in as much room as their type says.
ghost use Rattle.std.specs.Prelude.{◌≡◌, ◌<◌, [], ◌∷◌, ◌++◌, length, vec_len, vec_capacity};
ghost use Rattle.std.specs.Str.{bytes_eq};
ghost use Rattle.lh_page.specs.Limits.{IsKey, IsValue};
ghost use Rattle.lh_page.specs.Slots.{record_of, FitsRoom, IsRoom, IsSlot};

use crate::comparing::STRIDE;
use crate::key::Key;
use crate::limits::LONGEST_KEY;
use crate::pair::Pair;
use crate::value::Value;
use std::marker::Model;

/// What a slot holds, in one part, since parts that are copied one by one are copied twice.
#[derive(Clone, Copy, Debug)]
struct Packed<const ROOM: usize> {
    key_len: u8,
    value_len: u8,
    bytes: [u8; ROOM],
}

/// A record: the key is the first bytes, and the value is right behind it, so that a short record is read from few
/// lines of the cache. Whatever is behind the value is not read.
#[derive(Debug, Drop)]
pub struct RecordSlot<const ROOM: usize> {
    packed: Packed<ROOM>,
}

impl<const ROOM: usize> Model for RecordSlot<ROOM> {
    ghost use Rattle.lh_page.specs.declared.pair.Pair.{Pair};
    ghost use Rattle.lh_page.specs.Slots.{record_of, IsSlot};

    ghost Value = { Pair };

    ghost view = { λ s. record_of s.packed.key_len s.packed.value_len s.packed.bytes };

    ghost invariant = { λ s. IsSlot ROOM s.packed.key_len s.packed.value_len s.packed.bytes };
}

impl<const ROOM: usize> RecordSlot<ROOM> {
    /// Appends the slot of a record where memory for it is there.
    // A slot that is handed out would be copied once more.
    #[inline(always)]
    pub fn push_onto(slots: &mut Vec<Self>, key: &Key, value: &Value)
        requires room { IsRoom ROOM }
        requires fits { FitsRoom ROOM key.now value.now }
        requires free { vec_len slots.old < vec_capacity slots.old }
        ensures items { slots.new.items ≡ slots.old.items ++ record { key = key.now; value = value.now } ∷ [] }
        ensures capacity { vec_capacity slots.new ≡ vec_capacity slots.old }
    {
        let mut next = Packed {
            key_len: 0,
            value_len: 0,
            bytes: [0; ROOM],
        };
        fill(&mut next, key, value);
        slots.push_reserved(RecordSlot { packed: next });
    }

    /// The record.
    #[inline]
    pub fn pair(&self) -> Pair
        ensures { result ≡ self.now }
    {
        Pair {
            key: self.key(),
            value: self.value(),
        }
    }

    /// The record's key.
    #[inline]
    pub fn key(&self) -> Key
        ensures { result ≡ self.now.key }
    {
        Key::of(self.key_bytes())
    }

    /// The record's value.
    #[inline]
    pub fn value(&self) -> Value
        ensures { result ≡ self.now.value }
    {
        Value::of(self.value_bytes())
    }

    /// The bytes of the record's key.
    #[inline(always)]
    pub fn key_bytes(&self) -> &[u8]
        ensures key { result.now ≡ self.now.key }
        ensures kept { IsKey result.now }
    {
        &self.packed.bytes[..self.packed.key_len as usize]
    }

    /// The bytes of the record's value.
    #[inline(always)]
    pub fn value_bytes(&self) -> &[u8]
        ensures value { result.now ≡ self.now.value }
        ensures kept { IsValue result.now }
    {
        let key_len = self.packed.key_len as usize;
        let row = &self.packed.bytes[..];
        &row[key_len..key_len + self.packed.value_len as usize]
    }

    /// Whether the record has a key.
    #[inline(always)]
    pub fn has_key(&self, key: &Key) -> bool
        ensures { result ≡ bytes_eq self.now.key key.now }
    {
        if ROOM < STRIDE {
            return self.key_bytes() == key.bytes();
        }
        key.is_front(&self.packed.bytes, self.packed.key_len)
    }

    /// Puts a value in the place of the one under the record's key.
    #[inline(always)]
    pub fn put_value(&mut self, value: &Value)
        requires { FitsRoom ROOM self.old.key value.now }
        ensures { self.new ≡ record { key = self.old.key; value = value.now } }
    {
        let text = value.bytes();
        let key_len = self.packed.key_len as usize;
        self.packed.value_len = text.len() as u8;
        let row = &mut self.packed.bytes[..];
        row[key_len..key_len + text.len()].copy_from_slice(text);
    }

    /// The same record in another slot.
    #[inline(always)]
    pub fn copy(&self) -> Self
        ensures { result ≡ self.now }
    {
        RecordSlot {
            packed: self.packed,
        }
    }
}

/// Writes a record. All of the key's row is copied that there is room for, so that no loop goes by the key's length.
#[inline(always)]
fn fill<const ROOM: usize>(packed: &mut Packed<ROOM>, key: &Key, value: &Value)
    requires room { IsRoom ROOM }
    requires long { length packed.old.bytes ≡ ROOM }
    requires fits { FitsRoom ROOM key.now value.now }
    ensures sound { IsSlot ROOM packed.new.key_len packed.new.value_len packed.new.bytes }
    ensures key { (record_of packed.new.key_len packed.new.value_len packed.new.bytes).key ≡ key.now }
    ensures value { (record_of packed.new.key_len packed.new.value_len packed.new.bytes).value ≡ value.now }
{
    let front = ROOM.min(LONGEST_KEY);
    let key_len = key.len() as usize;
    let text = value.bytes();
    packed.key_len = key.len();
    packed.value_len = text.len() as u8;
    let row = &mut packed.bytes[..];
    row[..front].copy_from_slice(&key.row()[..front]);
    row[key_len..key_len + text.len()].copy_from_slice(text);
}
