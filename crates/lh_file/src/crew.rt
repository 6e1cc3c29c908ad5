//! Hands for several threads.
ghost use Rattle.std.specs.Prelude.{◌≡◌, ◌*◌, ◌+◌, ◌-◌, ◌^◌, ◌<◌, ◌≤◌, ◌∷◌, ◌++◌, [], false, min, vec_capacity, vec_len, All, IsOk};
ghost use Rattle.std.specs.Prelude.{IfOk, IfErr, OnOk, OnErr, length, sum_by};
ghost use Rattle.lh_file.specs.FileState.{IsOf, MayBeJoined};
ghost use Rattle.lh_file.specs.Words.Calls.{IsNotGiven};
ghost use Rattle.lh_file.specs.Words.HandState.{AreJoined, HandState, IsBranch, IsJoined, IsSame, seeing};
ghost use Rattle.lh_words.specs.Views.{lessened};

use crate::buckets::brand::FileBrand;
use crate::fault::{FileFault, JoinAllFault};
use crate::file::SizedFile;
use crate::gate::Gate;
use crate::words::hand::Hand;
use lh_bucket::Memory;
use lh_words::Mode;

/// How many acts some hands keep together, up to the greatest number.
fn acts_of(hands: &[Hand]) -> usize
    ensures { result ≡ min (sum_by (λ hand. length hand.acts) hands.now) (2 ^ 64 - 1) }
{
    let mut acts = 0_usize;
    for hand in hands {
        acts = acts.saturating_add(hand.acts.len());
    }
    acts
}

impl<G: Gate, M: Mode, J: FileBrand, const ROOM: usize> SizedFile<G, M, J, ROOM> {
    /// Divides a hand that may make so many calls, and puts the new one behind others that there is room for.
    fn give(&self, hands: &mut Vec<Hand>, hand: &mut Hand, calls: u64)
        requires of { IsOf self.now.state hand.old }
        requires enough { calls ≤ hand.old.view.left }
        requires room { vec_len hands.old < vec_capacity hands.old }
        ensures count { length hands.new.items ≡ length hands.old.items + 1 }
        ensures len { vec_len hands.new ≡ vec_len hands.old + 1 }
        ensures given { (given : HandState) × (hands.new.items ≡ hands.old.items ++ given ∷ [])
            × IsBranch calls hand.old given }
        ensures room { vec_capacity hands.old ≤ vec_capacity hands.new }
        ensures kept { hand.new ≡ seeing hand.old (lessened calls hand.old.view) }
    {
        // The hand has enough, and there is room.
        let Ok(given) = self.split_hand(hand, calls) else {
            unreachable!()
        };
        let Ok(()) = hands.push(given) else {
            unreachable!()
        };
    }

    /// As many hands of a hand that may make so many calls for each.
    fn given_hands(&self, hand: &mut Hand, count: u32, calls: u64) -> Result<Vec<Hand>, Memory>
        requires of { IsOf self.now.state hand.old }
        requires enough { count * calls ≤ hand.old.view.left }
        ensures count { IfOk result (λ given. length given.items ≡ count) }
        ensures given { IfOk result (λ given. All (IsBranch calls hand.old) given.items) }
        ensures kept { OnOk result (hand.new ≡ seeing hand.old (lessened (count * calls) hand.old.view)) }
        ensures unchanged { OnErr result (hand.new ≡ hand.old) }
    {
        let mut hands = Vec::with_capacity(self.words.alloc, count as usize)?;
        for _thread in 0..count {
            self.give(&mut hands, hand, calls);
        }
        Ok(hands)
    }

    /// Adds a hand to another one that has room for its acts.
    pub(crate) fn add_hand(&self, first: &mut Hand, mut second: Hand)
        requires first { IsOf self.now.state first.old }
        requires second { IsOf self.now.state second }
        requires right { second.view.has_right ≡ false }
        requires room { length second.acts ≤ first.old.room }
        ensures joined { IsJoined first.old second first.new }
        ensures room { first.old.room ≤ first.new.room + length second.acts }
    {
        match first.acts.append(&mut second.acts) {
            Ok(()) => {}
            // There is room.
            Err(_) => unreachable!(),
        }
        let Hand {
            seat,
            known,
            has_right: _,
            left,
            recording: _,
            acts: _,
        } = second;
        let words = &self.words;
        words.table.unite(&mut first.seat, seat);
        first.known = first.known.max(known);
        first.left += left;
    }

    /// Adds hands to another one that has room for the acts of all.
    fn add_all(&self, mut first: Hand, others: Vec<Hand>) -> Hand
        requires first { IsOf self.now.state first }
        requires others { All (MayBeJoined self.now.state) others.items }
        requires room { sum_by (λ hand. length hand.acts) others.items ≤ first.room }
        ensures joined { AreJoined first others.items result }
        ensures of { IsOf self.now.state result }
    {
        for other in others {
            self.add_hand(&mut first, other);
        }
        first
    }

    /// Moves `calls` of the calls that the hand may make to each of `count` new hands, one for each of several threads.
    /// Where the hand may make fewer, or memory runs out, it stays as it was.
    pub fn split_hands(
        &self,
        hand: &mut Hand,
        count: u32,
        calls: u64,
    ) -> Result<Vec<Hand>, FileFault>
        requires { IsOf self.now.state hand.old }
        ensures count { IfOk result (λ given. length given.items ≡ count) }
        ensures given { IfOk result (λ given. All (IsBranch calls hand.old) given.items) }
        ensures of { IfOk result (λ given. All (IsOf self.now.state) given.items) }
        ensures kept { OnOk result (hand.new ≡ seeing hand.old (lessened (count * calls) hand.old.view)) }
        ensures refused { IfErr result (IsNotGiven (count * calls) hand.old) }
        ensures unchanged { OnErr result (hand.new ≡ hand.old) }
    {
        if u128::from(hand.left) < u128::from(count) * u128::from(calls) {
            return Err(FileFault::Spent { left: hand.left });
        }
        Ok(self.given_hands(hand, count, calls)?)
    }

    /// Makes one hand of many: what the others may do and what they did is added to the first, in their order. None of
    /// them may have the right to split. Where there is no memory for their acts, all come back as they were.
    pub fn join_all(&self, mut first: Hand, others: Vec<Hand>) -> Result<Hand, JoinAllFault>
        requires first { IsOf self.now.state first }
        requires others { All (MayBeJoined self.now.state) others.items }
        ensures joined { IfOk result (AreJoined first others.items) }
        ensures of { IfOk result (IsOf self.now.state) }
        ensures err { IfErr result (λ fault. IsSame first fault.first × (fault.others.items ≡ others.items)) }

        // It is refused only where the first has no room for the others' acts.
        ensures roomy { sum_by (λ hand. length hand.acts) others.items ≤ first.room → IsOk result }
    {
        match first.reserve(acts_of(&others)) {
            Ok(()) => Ok(self.add_all(first, others)),
            Err(_) => Err(JoinAllFault { first, others }),
        }
    }
}
