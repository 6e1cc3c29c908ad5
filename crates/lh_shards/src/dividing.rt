//! Hands of all shards divided in two.
ghost use Rattle.std.specs.Prelude.{◌≡◌, ◌+◌, ◌^◌, ◌<◌, ◌≤◌, ◌∷◌, ◌++◌, ℕ, [], length, vec_capacity, vec_len, IfOk};
ghost use Rattle.std.specs.Prelude.{IfNone, IfSome, OnOk, OnErr};
ghost use Rattle.lh_file.specs.FileState.{IsOf};
ghost use Rattle.lh_file.specs.Words.HandState.{IsBranch};
ghost use Rattle.lh_shards.specs.Dividing.{AllHave, AreDivided, EachPair, HasGiven, IsRefused};
ghost use Rattle.lh_shards.specs.Hands.{AreOf};

use crate::fault::SplitFault;
use crate::hands::Hands;
use crate::shards::SizedShards;
use lh_file::{FileBrand, Hand, Memory, Mode, NoGate, SizedFile};

/// The first hand that may make fewer calls than these.
fn first_short(hands: &[Hand], calls: u64) -> Option<SplitFault>
    requires { length hands.now ≤ 1024 }
    ensures none { IfNone result (AllHave calls hands.now) }
    ensures short { IfSome result (IsRefused calls hands.now) }
{
    for shard in 0..hands.len() {
        let left = hands[shard].left();
        if left < calls {
            return Some(SplitFault::Spent {
                shard: shard as u32,
                left,
            });
        }
    }
    None
}

impl Hands {
    /// How many more calls may be made by these hands, whichever shards the calls go to.
    pub fn left(&self) -> u64
        ensures all { AllHave result self.now }
        ensures most { (calls : ℕ) → calls < 2 ^ 64 → AllHave calls self.now → calls ≤ result }
    {
        let mut least = u64::MAX;
        for shard in 0..self.hands.len() {
            least = least.min(self.hands[shard].left());
        }
        least
    }
}

/// Divides one hand, which may make so many calls.
fn divide<M: Mode, J: FileBrand, const ROOM: usize>(
    file: &SizedFile<NoGate, M, J, ROOM>,
    hand: &mut Hand,
    calls: u64,
) -> Hand
    requires of { IsOf file.now.state hand.old }
    requires enough { calls ≤ hand.old.view.left }
    ensures given { IsBranch calls hand.old result }
    ensures kept { HasGiven calls hand.old hand.new }
{
    match file.split_hand(hand, calls) {
        Ok(given) => given,
        Err(_) => unreachable!(),
    }
}

/// Puts a hand behind others that there is room for.
fn put(hands: &mut Vec<Hand>, hand: Hand)
    requires { vec_len hands.old < vec_capacity hands.old }
    ensures items { hands.new.items ≡ hands.old.items ++ hand ∷ [] }
    ensures len { vec_len hands.new ≡ vec_len hands.old + 1 }
    ensures room { vec_capacity hands.old ≤ vec_capacity hands.new }
{
    match hands.push(hand) {
        Ok(()) => {}
        Err(_) => unreachable!(),
    }
}

impl<M: Mode, J: FileBrand, const ROOM: usize> SizedShards<M, J, ROOM> {
    /// Moves `calls` of the calls that each hand may make to a new hand of the same file, for another thread say. Where
    /// a hand may make fewer, or memory runs out, all hands stay as they were.
    pub fn split_hands(&self, hands: &mut Hands, calls: u64) -> Result<Hands, SplitFault>
        requires { AreOf self.now hands.old }
        ensures divided { AreDivided calls hands.old result hands.new }
        ensures of { AreOf self.now hands.new }
        ensures given { IfOk result (AreOf self.now) }
    {
        let _few = self.count();
        if let Some(fault) = first_short(&hands.hands, calls) {
            return Err(fault);
        }
        Ok(self.divided(hands, calls)?)
    }

    /// The same, of hands that may make so many calls.
    fn divided(&self, hands: &mut Hands, calls: u64) -> Result<Hands, Memory>
        requires of { AreOf self.now hands.old }
        requires enough { AllHave calls hands.old }
        ensures given { IfOk result (EachPair (IsBranch calls) hands.old) }
        ensures kept { OnOk result (EachPair (HasGiven calls) hands.old hands.new) }
        ensures unchanged { OnErr result (hands.new ≡ hands.old) }
    {
        let shards = self.files.len();
        let mut given = Vec::with_capacity(*self.files.allocator(), shards)?;
        for shard in 0..shards {
            let hand = divide(&self.files[shard], &mut hands.hands[shard], calls);
            put(&mut given, hand);
        }
        Ok(Hands { hands: given })
    }
}
