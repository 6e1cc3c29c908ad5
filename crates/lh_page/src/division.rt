//! Dividing a list of records in two, each part in the order of the whole.
ghost use Rattle.std.specs.Prelude.{not, ◌≡◌, ◌<◌, ◌≤◌, [], ◌∷◌, ◌++◌, length, slice_index_or, IsOk, IfOk, OnOk};
ghost use Rattle.std.specs.List.{filter};
ghost use Rattle.lh_page.specs.Going.{AreBitsOf};
ghost use Rattle.lh_page.specs.Marks.{IsMarked};
ghost use Rattle.lh_page.specs.Records.{no_pair};
ghost use Rattle.lh_page.specs.Slots.{IsRoom, FitAll};

use crate::going::Going;
use crate::key_set::KeySet;
use crate::marks::{MARKED, mark_from, move_mark};
use crate::memory::Memory;
use crate::pair::Pair;
use crate::record_list::RecordList;
use std::alloc::Global;
use std::marker::Model;

/// Records and their marks.
#[derive(Drop)]
pub struct Part<const ROOM: usize> {
    pub pairs: RecordList<ROOM>,
    pub marks: [u8; MARKED],
}

impl<const ROOM: usize> Model for Part<ROOM> {
    ghost use Rattle.std.specs.Prelude.{◌≡◌, List, length};
    ghost use Rattle.lh_page.specs.declared.pair.Pair.{Pair};
    ghost use Rattle.lh_page.specs.Marks.{marked_room, IsMarked};

    ghost Value = { List Pair };

    ghost view = { λ p. p.pairs };

    ghost invariant = { λ p. (length p.marks ≡ marked_room) × IsMarked p.marks p.pairs };
}

impl<const ROOM: usize> Part<ROOM> {
    /// No records, with memory for as many as are to come.
    fn with_room(alloc: Global, records: usize) -> Result<Self, Memory>
        requires { IsRoom ROOM }
        ensures empty { IfOk result (λ part. part ≡ []) }
        ensures none { records ≡ 0 → IsOk result }
    {
        Ok(Part {
            pairs: RecordList::with_room(alloc, records)?,
            marks: [0; MARKED],
        })
    }

    /// Appends the record at a place of a list, and its mark. After an error nothing has changed.
    #[inline]
    fn push_from(
        &mut self,
        pairs: &RecordList<ROOM>,
        marks: &[u8; MARKED],
        place: usize,
    ) -> Result<(), Memory>
        requires within { place < length pairs.now }
        requires marked { IsMarked marks.now pairs.now }
        ensures { OnOk result (self.new ≡ self.old ++ slice_index_or pairs.now place no_pair ∷ []) }
    {
        let last = self.pairs.len();
        self.pairs.push_from(pairs, place)?;
        if last < MARKED {
            self.marks[last] = mark_from(marks, pairs, place);
        }
        Ok(())
    }
}

/// A copy of records that fit.
pub fn copied<const ROOM: usize>(alloc: Global, pairs: &[Pair]) -> Result<RecordList<ROOM>, Memory>
    requires room { IsRoom ROOM }
    requires fit { FitAll ROOM pairs.now }
    ensures copy { IfOk result (λ copy. copy ≡ pairs.now) }
    ensures none { length pairs.now ≡ 0 → IsOk result }
{
    let mut copy = RecordList::with_room(alloc, pairs.len())?;
    for pair in pairs {
        copy.append(&pair.key, &pair.value)?;
    }
    Ok(copy)
}

/// A copy of the records that go, with memory for no others where it is known how many they are.
#[tactic(auto, using(crate::proofs::Parts::filter_taken, crate::proofs::Parts::filter_left))]
pub fn gone_of<S: KeySet, const ROOM: usize>(
    pairs: &RecordList<ROOM>,
    marks: &[u8; MARKED],
    keys: &S,
    going: Going,
) -> Result<Part<ROOM>, Memory>
    requires room { IsRoom ROOM }
    requires marked { IsMarked marks.now pairs.now }
    requires bits { AreBitsOf (S.member keys.now) going pairs.now }
    ensures gone { IfOk result (λ part. part ≡ filter (λ p. S.member keys.now p.key) pairs.now) }
    ensures none { length pairs.now ≡ 0 → IsOk result }
{
    let mut gone = Part::with_room(pairs.allocator(), going.guess(pairs.len()))?;
    for place in 0..pairs.len() {
        if going.takes(pairs, keys, place) {
            gone.push_from(pairs, marks, place)?;
        }
    }
    Ok(gone)
}

/// Moves the records that stay together, in their order and in the memory that they are in, and their marks with them.
/// The memory behind them is given back.
pub fn keep_rest<S: KeySet, const ROOM: usize>(
    pairs: &mut RecordList<ROOM>,
    marks: &mut [u8; MARKED],
    keys: &S,
    going: Going,
)
    requires marked { IsMarked marks.old pairs.old }
    requires bits { AreBitsOf (S.member keys.now) going pairs.old }
    ensures kept { pairs.new ≡ filter (λ p. not (S.member keys.now p.key)) pairs.old }
    ensures marked { IsMarked marks.new pairs.new }
    ensures room { length marks.new ≡ length marks.old }
{
    let mut kept = 0;
    for place in 0..pairs.len() {
        if !going.takes(pairs, keys, place) {
            pairs.move_to(kept, place);
            move_mark(marks, pairs, kept, place);
            kept += 1;
        }
    }
    pairs.truncate(kept);
}
