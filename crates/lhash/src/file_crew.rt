//! A file as what threads share, and snapshots of it that are taken meanwhile.
ghost use Rattle.std.specs.Prelude.{◌≡◌, ◌+◌, ◌*◌, ◌/◌, ◌<◌, IfErr, IfOk};
ghost use Rattle.lh_file.specs.History.Own.{IsOwn};
ghost use Rattle.lhash.specs.Crew.{HasLookedOn, HasTakenOne};
ghost use Rattle.lhash.specs.Driving.{IsWorkersFault};

use crate::crew::{SharedTable, WorkersProgress};
use crate::drive::DriveFault;
use lh_bucket::{Answer, Call};
use lh_file::laws::hands_keep_their_shares;
use lh_file::{Closed, FileBrand, FileFault, Gate, Hand, HashFile, Traced};
use std::alloc::Global;
use std::sync::Wait;
use std::sync::atomic::Ordering;
use std::thread;

/// Waits until this many acts were made, or no worker is running.
#[tactic(auto, using(crate::proofs::Looking::looked_told, crate::proofs::Looking::looked_first))]
fn await_acts<G: Gate, J: FileBrand, R: Wait>(
    rt: &R,
    file: &HashFile<G, Traced, J>,
    hand: &mut Hand,
    progress: &WorkersProgress,
    acts: u64,
)
    requires { IsOwn file.now.state hand.old }
    ensures { HasLookedOn file.now.state hand.old hand.new }
{
    for _turn in rt.forever() {
        let made = file.told(hand);
        if made >= acts || progress.running.load(Ordering::SeqCst) == 0 {
            return;
        }
        thread::yield_now();
    }
}

/// How many acts a snapshot waits for, counted from 0: the snapshots divide a run's calls evenly.
fn acts_before(calls: u64, number: u32, snapshots: u32) -> u64
    requires { number < snapshots }
    ensures { result ≡ calls * (number + 1) / (snapshots + 1) }
{
    let share = u128::from(calls) * (u128::from(number) + 1);
    (share / (u128::from(snapshots) + 1)) as u64
}

/// Takes the next snapshot when it is due.
fn take_snapshot<G: Gate, J: FileBrand, R: Wait>(
    rt: &R,
    file: &HashFile<G, Traced, J>,
    hand: &mut Hand,
    progress: &WorkersProgress,
    due: u64,
) -> Result<Closed, DriveFault>
    requires { IsOwn file.now.state hand.old }
    ensures hand { HasLookedOn file.now.state hand.old hand.new }
    ensures taken { IfOk result (HasTakenOne file.now.state hand.new) }
    ensures err { IfErr result IsWorkersFault }
{
    await_acts(rt, file, hand, progress, due);
    Ok(file.snapshot(rt, hand)?)
}

impl<G: Gate, J: FileBrand> SharedTable for HashFile<G, Traced, J> {
    ghost use Rattle.lhash.specs.Crew.{HasCalls, HasTaken};

    type Hands = Hand;

    type Seen = Vec<Closed>;

    ghost have = { λ file. HasCalls file.state };

    ghost saw = { λ file hand snapshots taken. HasTaken file.state hand snapshots taken.items };

    fn make<R: Wait>(&self, rt: &R, hand: &mut Hand, call: &Call) -> Result<Answer, FileFault> {
        // A served call leaves the hand the file's own, with its share.
        hands_keep_their_shares();
        match *call {
            Call::Search(key) => self.search(rt, hand, key),
            Call::Insert(key, value) => self.insert(rt, hand, key, value),
            Call::Delete(key) => self.delete(rt, hand, key),
            Call::Replace(key, value) => self.replace(rt, hand, key, value),
        }
    }

    fn divide(&self, hand: &mut Hand, calls: u64) -> Result<Hand, DriveFault> {
        // Both parts of a hand are the file's own, and have its share between them.
        hands_keep_their_shares();
        match self.split_hand(hand, calls) {
            Ok(part) => Ok(part),
            // The hand has enough.
            Err(_) => unreachable!(),
        }
    }

    fn join(&self, first: Hand, second: Hand) -> Result<Hand, DriveFault> {
        // A hand made of two is the file's own, and has both shares.
        hands_keep_their_shares();
        match self.join_hands(first, second) {
            Ok(joined) => Ok(joined),
            Err(_) => Err(DriveFault::Memory),
        }
    }

    /// Takes snapshots, evenly spread over the calls, and those that are left when the workers have ended.
    #[tactic(auto, using(crate::proofs::Looking::looked_again, crate::proofs::Looking::looked_first))]
    fn look_on<R: Wait>(
        &self,
        rt: &R,
        alloc: Global,
        hand: &mut Hand,
        progress: &WorkersProgress,
        snapshots: u32,
    ) -> Result<Vec<Closed>, DriveFault> {
        let mut taken = Vec::new(alloc);
        for number in 0..snapshots {
            let due = acts_before(progress.calls, number, snapshots);
            let snapshot = take_snapshot(rt, self, hand, progress, due)?;
            if taken.push(snapshot).is_err() {
                return Err(DriveFault::Memory);
            }
        }
        Ok(taken)
    }
}
