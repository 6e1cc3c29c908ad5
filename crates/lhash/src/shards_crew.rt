//! Shards as what threads share.
use crate::crew::{SharedTable, WorkersProgress};
use crate::drive::DriveFault;
use lh_bucket::{Answer, Call};
use lh_file::laws::hands_keep_their_shares as hands_of_a_file_keep_their_shares;
use lh_file::{FileBrand, FileFault, Traced};
use lh_shards::laws::hands_keep_their_shares;
use lh_shards::{Hands, Shards, SplitFault};
use std::alloc::Global;
use std::sync::Wait;

impl<J: FileBrand> SharedTable for Shards<Traced, J> {
    ghost use Rattle.lhash.specs.Crew.{HaveCalls};

    type Hands = Hands;

    type Seen = ();

    ghost have = { HaveCalls };

    ghost saw = { λ shards hands snapshots seen. Unit {0} };

    fn make<R: Wait>(&self, rt: &R, hands: &mut Hands, call: &Call) -> Result<Answer, FileFault> {
        // A served call leaves the hand of its shard the file's own, with its share, and so all hands.
        hands_of_a_file_keep_their_shares();
        hands_keep_their_shares();
        match *call {
            Call::Search(key) => self.search(rt, hands, key),
            Call::Insert(key, value) => self.insert(rt, hands, key, value),
            Call::Delete(key) => self.delete(rt, hands, key),
            Call::Replace(key, value) => self.replace(rt, hands, key, value),
        }
    }

    fn divide(&self, hands: &mut Hands, calls: u64) -> Result<Hands, DriveFault> {
        // Both parts of the hands are their files' own, and have their shares between them.
        hands_keep_their_shares();
        match self.split_hands(hands, calls) {
            Ok(part) => Ok(part),
            Err(SplitFault::Memory) => Err(DriveFault::Memory),
            // Each hand has enough.
            Err(SplitFault::Spent { .. }) => unreachable!(),
        }
    }

    fn join(&self, first: Hands, second: Hands) -> Result<Hands, DriveFault> {
        // Hands that are joined are their files' own, and have both shares.
        hands_keep_their_shares();
        match self.join_hands(first, second) {
            Ok(joined) => Ok(joined),
            Err(_) => Err(DriveFault::Memory),
        }
    }

    /// Snapshots are those of one file.
    fn look_on<R: Wait>(
        &self,
        _rt: &R,
        _alloc: Global,
        _hands: &mut Hands,
        _progress: &WorkersProgress,
        _snapshots: u32,
    ) -> Result<(), DriveFault> {
        Ok(())
    }
}
