//! A caller's hands of all shards.
use lh_file::Hand;
use std::fmt;
use std::marker::Model;

/// A caller's own token of some shards: a [`Hand`] of each file, in their order. Each thread works with hands of its
/// own.
#[derive(Drop)]
pub struct Hands {
    pub(crate) hands: Vec<Hand>,
}

impl Model for Hands {
    ghost use Rattle.std.specs.Prelude.{List};
    ghost use Rattle.lh_file.specs.Words.HandState.{HandState};

    ghost Value = { List HandState };

    ghost view = { λ h. h.hands.items };
}

impl Hands {
    ghost use Rattle.std.specs.Prelude.{◌≡◌, ◌<◌, length, slice_get, slice_set, Some};
    ghost use Rattle.std.specs.Borrow.{Lends, sem};
    ghost use Rattle.lh_file.specs.contracts.words.hand.Hand.{the_row as hand_row};
    ghost use Rattle.lh_shards.specs.contracts.hands.Hands.{the_row};

    /// The hand of a shard. What its borrower does leaves the other hands as they were.
    #[inline(always)]
    pub(crate) fn at(&mut self, shard: usize) -> &mut Hand
        requires { shard < length self.old }
        ensures* writes_back { sem 𝓛 (Lends the_row hand_row self.entry result (slice_set self.entry.now shard)) }
        ensures value { slice_get self.old shard ≡ Some result.now }
    {
        &mut self.hands[shard]
    }
}

impl fmt::Debug for Hands {
    fn fmt<W: fmt::Write>(&self, f: &mut fmt::Formatter<W>) -> fmt::Result {
        write!(f, "Hands of {} shards", self.hands.len())
    }
}
