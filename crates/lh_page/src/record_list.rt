//! Lists of records, each in a slot.
ghost use Rattle.std.specs.Prelude.{◌≡◌, ◌+◌, ◌%◌, ◌<◌, ◌≤◌, [], ◌∷◌, ◌++◌, length, slice_get, slice_index_or, Some};
ghost use Rattle.std.specs.Prelude.{take, slice_set, IsOk, IfOk, OnOk, OnErr, vec_len, vec_capacity};
ghost use Rattle.std.specs.List.{swap_remove};
ghost use Rattle.std.specs.Str.{bytes_eq};
ghost use Rattle.lh_page.specs.Limits.{IsKey, IsValue};
ghost use Rattle.lh_page.specs.Records.{key_at, value_at, with_value, no_pair};
ghost use Rattle.lh_page.specs.Slots.{whole_steps, FitsRoom, IsRoom};

use crate::key::Key;
use crate::memory::Memory;
use crate::pair::Pair;
use crate::record_slot::RecordSlot;
use crate::value::Value;
use std::alloc::Global;
use std::marker::Model;

/// How many slots a list grows by.
pub const STEP: usize = 4;

/// Each record stands in a slot of its own, so that a value is replaced in its place.
#[derive(Debug, Drop)]
pub struct RecordList<const ROOM: usize> {
    slots: Vec<RecordSlot<ROOM>>,
}

impl<const ROOM: usize> Model for RecordList<ROOM> {
    ghost use Rattle.std.specs.Prelude.{◌≤◌, List, length, vec_capacity};
    ghost use Rattle.lh_page.specs.declared.pair.Pair.{Pair};
    ghost use Rattle.lh_page.specs.Slots.{whole_steps, IsRoom};

    ghost Value = { List Pair };

    ghost view = { λ r. r.slots.items };

    ghost invariant = { λ r. IsRoom ROOM × (whole_steps (length r.slots.items) ≤ vec_capacity r.slots) };
}

impl<const ROOM: usize> RecordList<ROOM> {
    /// No records. They take no memory.
    pub fn new(alloc: Global) -> Self
        requires { IsRoom ROOM }
        ensures { result ≡ [] }
    {
        RecordList {
            slots: Vec::new(alloc),
        }
    }

    /// No records, with memory for as many as are to come.
    pub fn with_room(alloc: Global, records: usize) -> Result<Self, Memory>
        requires { IsRoom ROOM }
        ensures empty { IfOk result (λ list. list ≡ []) }
        ensures none { records ≡ 0 → IsOk result }
    {
        let slots = Vec::with_capacity(alloc, records.saturating_add(STEP - 1) / STEP * STEP)?;
        Ok(RecordList { slots })
    }

    /// The number of records.
    #[inline]
    pub fn len(&self) -> usize
        ensures { result ≡ length self.now }
    {
        self.slots.len()
    }

    /// The allocator of the records' memory.
    pub fn allocator(&self) -> Global {
        *self.slots.allocator()
    }

    /// The record at a place.
    #[inline]
    pub fn pair_at(&self, place: usize) -> Pair
        requires { place < length self.now }
        ensures { slice_get self.now place ≡ Some result }
    {
        let slot = &self.slots[place];
        slot.pair()
    }

    /// The key of the record at a place.
    #[inline]
    pub fn key_at(&self, place: usize) -> Key
        requires { place < length self.now }
        ensures { result ≡ key_at self.now place }
    {
        let slot = &self.slots[place];
        slot.key()
    }

    /// The bytes of the key of the record at a place.
    #[inline]
    pub fn key_bytes(&self, place: usize) -> &[u8]
        requires { place < length self.now }
        ensures key { result.now ≡ key_at self.now place }
        ensures kept { IsKey result.now }
    {
        let slot = &self.slots[place];
        slot.key_bytes()
    }

    /// The value of the record at a place.
    #[inline]
    pub fn value_at(&self, place: usize) -> Value
        requires { place < length self.now }
        ensures { result ≡ value_at self.now place }
    {
        let slot = &self.slots[place];
        slot.value()
    }

    /// The bytes of the value of the record at a place.
    #[inline]
    pub fn value_bytes(&self, place: usize) -> &[u8]
        requires { place < length self.now }
        ensures value { result.now ≡ value_at self.now place }
        ensures kept { IsValue result.now }
    {
        let slot = &self.slots[place];
        slot.value_bytes()
    }

    /// Whether the record at a place has a key.
    #[inline]
    pub fn has_key(&self, place: usize, key: &Key) -> bool
        requires { place < length self.now }
        ensures { result ≡ bytes_eq (key_at self.now place) key.now }
    {
        let slot = &self.slots[place];
        slot.has_key(key)
    }

    /// Appends a record. After an error the list is as it was.
    #[inline]
    pub fn append(&mut self, key: &Key, value: &Value) -> Result<(), Memory>
        requires { FitsRoom ROOM key.now value.now }
        ensures ok { OnOk result (self.new ≡ self.old ++ record { key = key.now; value = value.now } ∷ []) }
        ensures err { OnErr result (self.new ≡ self.old) }
        ensures full { OnErr result (length self.old % STEP ≡ 0) }
    {
        make_room(&mut self.slots)?;
        RecordSlot::push_onto(&mut self.slots, key, value);
        Ok(())
    }

    /// Appends the record at a place of another list. After an error the list is as it was.
    #[inline]
    pub fn push_from(&mut self, other: &RecordList<ROOM>, place: usize) -> Result<(), Memory>
        requires { place < length other.now }
        ensures ok { OnOk result (self.new ≡ self.old ++ slice_index_or other.now place no_pair ∷ []) }
        ensures err { OnErr result (self.new ≡ self.old) }
        ensures full { OnErr result (length self.old % STEP ≡ 0) }
    {
        make_room(&mut self.slots)?;
        self.slots.push_reserved(other.slots[place].copy());
        Ok(())
    }

    /// Puts a value in the place of the one under a record's key.
    #[inline]
    pub fn set_value(&mut self, place: usize, value: &Value)
        requires within { place < length self.old }
        requires fits { FitsRoom ROOM (key_at self.old place) value.now }
        ensures { self.new ≡ with_value self.old place value.now }
    {
        let slot = &mut self.slots[place];
        slot.put_value(value);
    }

    /// Copies the record at a place over one that stands before it, or over itself.
    #[inline]
    pub fn move_to(&mut self, place: usize, from: usize)
        requires order { place ≤ from }
        requires within { from < length self.old }
        ensures { self.new ≡ slice_set self.old place (slice_index_or self.old from no_pair) }
    {
        if place < from {
            let slot = self.slots[from].copy();
            self.slots[place] = slot;
        }
    }

    /// Keeps the first records alone, and gives back memory that they don't need.
    #[inline]
    pub fn truncate(&mut self, len: usize)
        requires { len ≤ length self.old }
        ensures { self.new ≡ take len self.old }
    {
        self.slots.truncate(len);
        self.slots.shrink_to(len.div_ceil(STEP) * STEP);
    }

    /// Drops the record at a place, and moves the last record into the hole.
    #[inline]
    pub fn discard(&mut self, place: usize)
        requires { place < length self.old }
        ensures { self.new ≡ swap_remove self.old place (slice_index_or self.old place no_pair) }
    {
        let _ = self.slots.swap_remove(place);
    }
}

/// Takes the memory of some slots more where all are in use. After an error nothing has changed.
#[inline(always)]
fn make_room<const ROOM: usize>(slots: &mut Vec<RecordSlot<ROOM>>) -> Result<(), Memory>
    requires room { IsRoom ROOM }
    requires kept { whole_steps (length slots.old.items) ≤ vec_capacity slots.old }
    ensures same { slots.new.items ≡ slots.old.items }
    ensures kept { whole_steps (length slots.new.items) ≤ vec_capacity slots.new }
    ensures next { OnOk result (whole_steps (1 + length slots.new.items) ≤ vec_capacity slots.new) }
    ensures full { OnErr result (length slots.old.items % STEP ≡ 0) }
{
    if slots.len() % STEP == 0 {
        slots.reserve_exact(STEP)?;
    }
    Ok(())
}
