//! Hands of all shards joined.
ghost use Rattle.std.specs.Prelude.{◌≡◌, ◌≤◌, false, length, IfOk, IfErr, IfSome, IfNone, IsOk};
ghost use Rattle.lh_file.specs.FileState.{IsOf};
ghost use Rattle.lh_file.specs.Words.HandState.{IsJoined};
ghost use Rattle.lh_shards.specs.Hands.{AreOf};
ghost use Rattle.lh_shards.specs.Joining.{AllHaveRoom, AreJoinedByShard, AreSame, AreUnited, HaveRoomBefore, IsShort};

use crate::fault::JoinShardsFault;
use crate::hands::Hands;
use crate::shards::SizedShards;
use lh_file::{FileBrand, Hand, Mode, NoGate, SizedFile};
use std::collections::VecDeque;

/// Makes room in each first hand for the acts of the second, up to the first that gets none.
fn make_room(first: &mut Hands, second: &Hands) -> Option<u32>
    requires count { length second.now ≡ length first.old }
    requires few { length first.old ≤ 1024 }
    ensures same { AreSame first.old first.new }
    ensures room { IfNone result (AllHaveRoom first.new second.now) }
    ensures short { IfSome result (IsShort first.old second.now) }
    ensures before { IfSome result (λ shard. HaveRoomBefore shard first.new second.now) }
{
    for shard in 0..second.hands.len() {
        match first.hands[shard].make_room_for(&second.hands[shard]) {
            Ok(()) => {}
            Err(_) => return Some(shard as u32),
        }
    }
    None
}

/// Joins two hands of one file, the first of which has room for the acts of the second.
fn join<M: Mode, J: FileBrand, const ROOM: usize>(
    file: &SizedFile<NoGate, M, J, ROOM>,
    first: Hand,
    second: Hand,
) -> Hand
    requires first { IsOf file.now.state first }
    requires second { IsOf file.now.state second }
    requires right { second.view.has_right ≡ false }
    requires room { length second.acts ≤ first.room }
    ensures { IsJoined first second result }
{
    match file.join_hands(first, second) {
        Ok(hand) => hand,
        Err(_) => unreachable!(),
    }
}

impl<M: Mode, J: FileBrand, const ROOM: usize> SizedShards<M, J, ROOM> {
    /// Makes of two hands of each shard one: what they may do and what they did is added. Where there is no memory for
    /// the acts of a second hand, the first shard where that is so is named, and all hands come back as they were.
    pub fn join_hands(&self, mut first: Hands, second: Hands) -> Result<Hands, JoinShardsFault>
        requires first { AreOf self.now first }
        requires second { AreOf self.now second }
        ensures united { AreUnited first second result }
        ensures of { IfOk result (AreOf self.now) }
        ensures first_of { IfErr result (λ fault. AreOf self.now fault.first) }
        ensures second_of { IfErr result (λ fault. AreOf self.now fault.second) }

        // It is refused only where a first hand has no room for the acts of the second.
        ensures roomy { AllHaveRoom first second → IsOk result }
    {
        let _few = self.count();
        match make_room(&mut first, &second) {
            Some(shard) => Err(JoinShardsFault {
                shard,
                first,
                second,
            }),
            None => Ok(self.joined(first, second)),
        }
    }

    /// The same, of hands that have room for the acts of the others. The list of the first hands turns round once, so
    /// that no memory is taken.
    fn joined(&self, first: Hands, second: Hands) -> Hands
        requires first { AreOf self.now first }
        requires second { AreOf self.now second }
        requires room { AllHaveRoom first second }
        ensures { AreJoinedByShard first second result }
    {
        let mut hands = VecDeque::from_vec(first.hands);
        let mut others = second.hands.into_iter();
        for shard in 0..self.files.len() {
            let Some(own) = hands.pop_front() else {
                unreachable!()
            };
            let Some(other) = others.next() else {
                unreachable!()
            };
            hands.push_back_reserved(join(&self.files[shard], own, other));
        }
        Hands {
            hands: hands.into_vec(),
        }
    }
}
