//! Which records of a list go.
ghost use Rattle.std.specs.Prelude.{◌≡◌, ◌<◌, ◌≤◌, length};
ghost use Rattle.lh_page.specs.Going.{IsBitOf, AreBitsOf};
ghost use Rattle.lh_page.specs.Records.{key_at};

use crate::key_set::KeySet;
use crate::record_list::RecordList;

/// How many records of a list have a bit.
const BITS: usize = 64;

/// Which of the first 64 records of a list go, by the bits of their places, so that the code of a key is computed once.
/// Of the records behind them, which few chains have, the set is asked again.
#[derive(Clone, Copy)]
pub struct Going {
    bits: u64,
}

impl Going {
    /// The records whose keys are in a set.
    #[tactic(auto, using(crate::proofs::GoingBits::bits_set, crate::proofs::GoingBits::bits_left))]
    pub fn among<S: KeySet, const ROOM: usize>(pairs: &RecordList<ROOM>, keys: &S) -> Self
        ensures { AreBitsOf (S.member keys.now) result pairs.now }
    {
        let mut bits = 0;
        for place in 0..pairs.len().min(BITS) {
            if keys.contains(pairs.key_bytes(place)) {
                bits |= 1 << place;
            }
        }
        Going { bits }
    }

    /// How many records of a list go: the number itself where each of them has a bit, and else a guess.
    pub fn guess(self, len: usize) -> usize
        ensures none { self.bits ≡ 0 → len ≡ 0 → result ≡ 0 }
    {
        self.bits.count_ones() as usize + len.saturating_sub(BITS).div_ceil(2)
    }

    /// Whether the record at a place goes.
    #[inline]
    pub fn takes<S: KeySet, const ROOM: usize>(
        self,
        pairs: &RecordList<ROOM>,
        keys: &S,
        place: usize,
    ) -> bool
        requires within { place < length pairs.now }
        requires bits { IsBitOf (S.member keys.now) self pairs.now place }
        ensures { result ≡ S.member keys.now (key_at pairs.now place) }
    {
        if place < BITS {
            self.bits >> place & 1 == 1
        } else {
            keys.contains(pairs.key_bytes(place))
        }
    }
}
