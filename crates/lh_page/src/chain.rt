//! Packed chains of records.
ghost use Rattle.std.specs.Prelude.{not, ◌≡◌, ◌+◌, ◌%◌, ◌<◌, ◌≤◌, [], ◌∷◌, ◌++◌, length, slice_get, slice_index_or, Some};
ghost use Rattle.std.specs.Prelude.{None, IsOk, IfOk, IfSome, IfNone, OnOk, OnErr};
ghost use Rattle.std.specs.List.{IsDistinct, filter, swap_remove};
ghost use Rattle.std.specs.Str.{bytes_eq};
ghost use Rattle.lh_page.specs.Limits.{IsPageCapacity, IsValue};
ghost use Rattle.lh_page.specs.Slots.{slot_step, IsRoom, FitsRoom, FitAll};
ghost use Rattle.lh_page.specs.PackedList.{IsPackedList, pages_of};
ghost use Rattle.lh_page.specs.Records.{key_at, keys_of, no_pair, place_of, value_at, with_value, AbsentBelow};
ghost use Rattle.lh_page.specs.Records.{StandsFirst};

use crate::division::{Part, copied, gone_of, keep_rest};
use crate::going::Going;
use crate::key::Key;
use crate::key_set::KeySet;
use crate::limits::WIDEST_ROOM;
use crate::marks::{MARKED, find_marked, marks_of, move_mark, put_mark};
use crate::memory::Memory;
use crate::packing::pages_needed;
use crate::pair::Pair;
use crate::record_list::RecordList;
use crate::value::Value;
use std::alloc::Global;
use std::marker::Model;

/// A chain with room for every key and every value.
pub type Chain = SizedChain<WIDEST_ROOM>;

/// The records of one bucket, in a primary page and overflow pages of `capacity` records each.
///
/// The record at place `i` stands in page `i / capacity`, so every page but the last is full and only the primary
/// page may be empty. No key stands twice. Memory is taken for four records at a time, and none before the first
/// one.
#[derive(Debug, Drop)]
pub struct SizedChain<const ROOM: usize> {
    capacity: u32,
    // The marks of the first records, so that a look-up touches few others.
    marks: [u8; MARKED],
    pairs: RecordList<ROOM>,
}

impl<const ROOM: usize> Model for SizedChain<ROOM> {
    ghost use Rattle.lh_page.specs.PackedList.{PackedList};
    ghost use Rattle.std.specs.Prelude.{◌≡◌};
    ghost use Rattle.lh_page.specs.Marks.{IsChain};
    ghost use Rattle.lh_page.specs.Slots.{IsRoom};

    ghost Value = { PackedList };

    ghost view = { λ c. record { capacity = c.capacity; pairs = c.pairs } };

    ghost invariant = { λ c. IsRoom ROOM × IsChain c.capacity c.marks c.pairs };
}

impl<const ROOM: usize> SizedChain<ROOM> {
    /// An empty chain, with pages of 1 to 24 records.
    pub fn new(alloc: Global, capacity: u32) -> Result<Self, Memory>
        requires capacity { IsPageCapacity capacity }
        requires room { IsRoom ROOM }
        ensures succeeds { IsOk result }
        ensures empty { IfOk result (λ chain. chain ≡ record { capacity = capacity; pairs = [] }) }
    {
        Ok(SizedChain {
            capacity,
            marks: [0; MARKED],
            pairs: RecordList::new(alloc),
        })
    }

    /// A chain with pages of 1 to 24 records that has these records in their order. No key stands twice
    /// among them, so none is looked for.
    pub fn from_pairs(alloc: Global, capacity: u32, pairs: &[Pair]) -> Result<Self, Memory>
        requires capacity { IsPageCapacity capacity }
        requires distinct { IsDistinct bytes_eq (keys_of pairs.now) }
        requires room { IsRoom ROOM }
        requires fit { FitAll ROOM pairs.now }
        ensures chain { IfOk result (λ chain. chain ≡ record { capacity = capacity; pairs = pairs.now }) }
        ensures none { length pairs.now ≡ 0 → IsOk result }
    {
        let mut chain = SizedChain::new(alloc, capacity)?;
        chain.pairs = copied(alloc, pairs)?;
        chain.marks = marks_of(&chain.pairs);
        Ok(chain)
    }

    /// The number of records that a page holds.
    pub fn capacity(&self) -> u32
        ensures { result ≡ self.now.capacity }
    {
        self.capacity
    }

    /// The number of records.
    pub fn len(&self) -> usize
        ensures length { result ≡ length self.now.pairs }
        ensures kept { IsPackedList self.now }
    {
        self.pairs.len()
    }

    /// The number of pages, the primary page counted.
    pub fn pages(&self) -> usize
        ensures { result ≡ length (pages_of self.now.capacity self.now.pairs) }
    {
        pages_needed(self.pairs.len(), self.capacity)
    }

    /// The place of the record with a key.
    pub fn find(&self, key: &Key) -> Option<usize>
        ensures place { result ≡ place_of self.now.pairs key.now }
        ensures found { IfSome result (λ place. StandsFirst self.now.pairs place key.now) }
        ensures absent { IfNone result (AbsentBelow self.now.pairs (length self.now.pairs) key.now) }
    {
        match find_marked(&self.marks, &self.pairs, key) {
            Some(place) => Some(place),
            None => find_unmarked(&self.pairs, key),
        }
    }

    /// The record at a place.
    pub fn pair_at(&self, place: usize) -> Pair
        requires { place < length self.now.pairs }
        ensures { slice_get self.now.pairs place ≡ Some result }
    {
        self.pairs.pair_at(place)
    }

    /// The value of the record at a place. Its key isn't read.
    pub fn value_at(&self, place: usize) -> Value
        requires { place < length self.now.pairs }
        ensures { result ≡ value_at self.now.pairs place }
    {
        self.pairs.value_at(place)
    }

    /// The bytes of the value of the record at a place, which are not copied. Its key isn't read.
    #[inline]
    pub fn value_bytes(&self, place: usize) -> &[u8]
        requires { place < length self.now.pairs }
        ensures value { result.now ≡ value_at self.now.pairs place }
        ensures kept { IsValue result.now }
    {
        self.pairs.value_bytes(place)
    }

    /// Appends a record whose key is not there yet. After an error the chain is as it was.
    pub fn push(&mut self, pair: Pair) -> Result<(), Memory>
        requires absent { place_of self.old.pairs pair.key ≡ None }
        requires fits { FitsRoom ROOM pair.key pair.value }
        ensures ok { OnOk result (self.new ≡ record self.old { pairs = self.old.pairs ++ pair ∷ [] }) }
        ensures err { OnErr result (self.new ≡ self.old) }
        ensures full { OnErr result (length self.old.pairs % slot_step ≡ 0) }
    {
        self.append(&pair.key, &pair.value)
    }

    /// Appends a record whose key is not there yet, without a pair being made. After an error the chain is as it was.
    #[inline]
    pub fn append(&mut self, key: &Key, value: &Value) -> Result<(), Memory>
        requires absent { place_of self.old.pairs key.now ≡ None }
        requires fits { FitsRoom ROOM key.now value.now }
        ensures ok { OnOk result (
            self.new ≡ record self.old { pairs = self.old.pairs ++ record { key = key.now; value = value.now } ∷ [] }) }
        ensures err { OnErr result (self.new ≡ self.old) }
        ensures full { OnErr result (length self.old.pairs % slot_step ≡ 0) }
    {
        let place = self.pairs.len();
        self.pairs.append(key, value)?;
        // Made of the key at hand: reading it back would wait until the record has reached its memory.
        put_mark(&mut self.marks, place, key);
        Ok(())
    }

    /// Takes the record at a place out, and moves the last record into the hole.
    pub fn remove(&mut self, place: usize) -> Pair
        requires { place < length self.old.pairs }
        ensures removed { slice_get self.old.pairs place ≡ Some result }
        ensures left { self.new ≡ record self.old { pairs = swap_remove self.old.pairs place result } }
    {
        let removed = self.pair_at(place);
        self.discard(place);
        removed
    }

    /// Drops the record at a place, and moves the last record into the hole.
    #[inline]
    pub fn discard(&mut self, place: usize)
        requires { place < length self.old.pairs }
        ensures { self.new ≡ record self.old {
          pairs = swap_remove self.old.pairs place (slice_index_or self.old.pairs place no_pair);
        } }
    {
        let last = self.pairs.len() - 1;
        self.pairs.discard(place);
        move_mark(&mut self.marks, &self.pairs, place, last);
    }

    /// Takes the records whose keys are in a set out, into a chain of their own. Both parts keep their order.
    /// All growth comes first: after an error the chain is as it was.
    pub fn split_off<S: KeySet>(&mut self, keys: &S) -> Result<Self, Memory>
        ensures gone { IfOk result (λ gone.
            gone ≡ record self.old { pairs = filter (λ p. S.member keys.now p.key) self.old.pairs }) }
        ensures kept { OnOk result
            (self.new ≡ record self.old { pairs = filter (λ p. not (S.member keys.now p.key)) self.old.pairs }) }
        ensures err { OnErr result (self.new ≡ self.old) }
        ensures none { length self.old.pairs ≡ 0 → IsOk result }
    {
        let going = Going::among(&self.pairs, keys);
        let Part { pairs, marks } = gone_of(&self.pairs, &self.marks, keys, going)?;
        keep_rest(&mut self.pairs, &mut self.marks, keys, going);
        Ok(SizedChain {
            capacity: self.capacity,
            marks,
            pairs,
        })
    }

    /// Puts a value in the place of the one under a record's key, which is handed out.
    pub fn replace_at(&mut self, place: usize, value: Value) -> Value
        requires within { place < length self.old.pairs }
        requires fits { FitsRoom ROOM (key_at self.old.pairs place) value }
        ensures replaced { result ≡ value_at self.old.pairs place }
        ensures changed { self.new ≡ record self.old { pairs = with_value self.old.pairs place value } }
    {
        let replaced = self.value_at(place);
        self.set_value(place, &value);
        replaced
    }

    /// Puts a value in the place of the one under a record's key.
    #[inline]
    pub fn set_value(&mut self, place: usize, value: &Value)
        requires within { place < length self.old.pairs }
        requires fits { FitsRoom ROOM (key_at self.old.pairs place) value.now }
        ensures { self.new ≡ record self.old { pairs = with_value self.old.pairs place value.now } }
    {
        self.pairs.set_value(place, value);
    }
}

/// The place of the first record with a key, which stands behind those with marks.
fn find_unmarked<const ROOM: usize>(pairs: &RecordList<ROOM>, key: &Key) -> Option<usize>
    requires { AbsentBelow pairs.now MARKED key.now }
    ensures found { IfSome result (λ place. StandsFirst pairs.now place key.now) }
    ensures absent { IfNone result (AbsentBelow pairs.now (length pairs.now) key.now) }
{
    for place in MARKED..pairs.len() {
        if pairs.has_key(place, key) {
            return Some(place);
        }
    }
    None
}
