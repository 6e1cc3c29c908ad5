//! The row of one-byte marks in the head of a chain. A look-up reads the records of its key's mark alone.
ghost use Rattle.std.specs.Prelude.{◌≡◌, ◌≢◌, ◌↔◌, ℕ, ◌<◌, ◌≤◌, length, slice_index, IfSome, IfNone};
ghost use Rattle.std.specs.Int.{bit_at};
ghost use Rattle.lh_page.specs.Mark.{mark_of};
ghost use Rattle.lh_page.specs.Marks.{IsMarked, IsMarkedAt};
ghost use Rattle.lh_page.specs.Records.{key_at, AbsentBelow, StandsFirst};

use crate::key::Key;
use crate::lanes::{beside, lowest, places_16, places_32, without};
use crate::record_list::RecordList;

/// How many records of a chain have marks.
pub const MARKED: usize = 48;

/// Marks the record at a place, where one stands there and its mark has room.
pub fn mark_at<const ROOM: usize>(marks: &mut [u8; MARKED], pairs: &RecordList<ROOM>, place: usize)
    ensures { IsMarkedAt marks.old marks.new pairs.now place }
{
    if place < MARKED && place < pairs.len() {
        marks[place] = pairs.key_at(place).mark();
    }
}

/// Puts the mark of a key at a place, where it has room.
pub fn put_mark(marks: &mut [u8; MARKED], place: usize, key: &Key)
    ensures marked { place < MARKED → slice_index marks.new place ≡ mark_of key.now }
    ensures room { length marks.new ≡ length marks.old }
    ensures others { (i : ℕ) → i ≢ place → slice_index marks.new i ≡ slice_index marks.old i }
{
    if place < MARKED {
        marks[place] = key.mark();
    }
}

/// The mark of the record at a place. It is made of the key only where the row has none.
#[inline]
pub fn mark_from<const ROOM: usize>(
    marks: &[u8; MARKED],
    pairs: &RecordList<ROOM>,
    from: usize,
) -> u8
    requires within { from < length pairs.now }
    requires marked { IsMarked marks.now pairs.now }
    ensures { result ≡ mark_of (key_at pairs.now from) }
{
    if from < MARKED {
        marks[from]
    } else {
        pairs.key_at(from).mark()
    }
}

/// Marks the record that has moved from the last place to this one, where one stands there and its mark has room.
pub fn move_mark<const ROOM: usize>(
    marks: &mut [u8; MARKED],
    pairs: &RecordList<ROOM>,
    place: usize,
    last: usize,
)
    requires order { place ≤ last }
    requires moved { last < MARKED → place < length pairs.now →
        slice_index marks.old last ≡ mark_of (key_at pairs.now place) }
    ensures { IsMarkedAt marks.old marks.new pairs.now place }
{
    if last < MARKED {
        // Made of no key: reading one would wait for its line.
        let mark = marks[last];
        marks[place] = mark;
    } else {
        mark_at(marks, pairs, place);
    }
}

/// The marks of the first records.
pub fn marks_of<const ROOM: usize>(pairs: &RecordList<ROOM>) -> [u8; MARKED]
    ensures marked { IsMarked result pairs.now }
    ensures room { length result ≡ MARKED }
{
    let mut marks = [0; MARKED];
    for place in 0..pairs.len().min(MARKED) {
        mark_at(&mut marks, pairs, place);
    }
    marks
}

/// The place of the first record with a key among those with marks.
pub fn find_marked<const ROOM: usize>(
    marks: &[u8; MARKED],
    pairs: &RecordList<ROOM>,
    key: &Key,
) -> Option<usize>
    requires { IsMarked marks.now pairs.now }
    ensures found { IfSome result (λ place. StandsFirst pairs.now place key.now) }
    ensures absent { IfNone result (AbsentBelow pairs.now MARKED key.now) }
{
    let mut left = places_of(marks, key.mark());
    while left != 0 {
        let place = lowest(left);
        if place >= MARKED || place >= pairs.len() {
            return None;
        }
        if pairs.has_key(place, key) {
            return Some(place);
        }
        left = without(left, place);
    }
    None
}

/// The places of a mark, as the bits that are set.
#[inline]
fn places_of(marks: &[u8; MARKED], mark: u8) -> u64
    ensures { (i : ℕ) → i < MARKED → (bit_at result i ≡ 1) ↔ (slice_index marks.now i ≡ mark) }
{
    let front = places_32(&marks[..32], mark);
    let back = places_16(&marks[32..], mark);
    beside(front, back, 32)
}
