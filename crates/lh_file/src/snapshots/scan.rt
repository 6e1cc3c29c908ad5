//! Scans.
ghost use Rattle.std.specs.Prelude.{◌≡◌, ℕ, ◌+◌, ◌-◌, ◌*◌, ◌^◌, ◌<◌, ◌≤◌, [], List, None, vec_len, vec_capacity, IfOk};
ghost use Rattle.std.specs.Prelude.{IfErr, OnOk, OnErr, IfSome};
ghost use Rattle.std.specs.List.{FoldsTo};
ghost use Rattle.lh_addr.specs.Limits.{IsInitial, most_level};
ghost use Rattle.lh_file.specs.Calls.Served.{IsNotSpent};
ghost use Rattle.lh_file.specs.FileState.{IsOf};
ghost use Rattle.lh_words.specs.History.Buckets.{bit};
ghost use Rattle.lh_file.specs.Snapshots.Scans.{leads, times_aimed, ahead, IsWithin, HasMet, HasVisited, HasScanned};
ghost use Rattle.lh_words.specs.Rule.{Each};
ghost use Rattle.lh_words.specs.Sums.{total};
ghost use Rattle.lh_file.specs.declared.snapshots.bucket_copy.BucketCopy.{BucketCopy as BucketCopyOf};

use crate::buckets::brand::FileBrand;
use crate::fault::FileFault;
use crate::file::SizedFile;
use crate::gate::Gate;
use crate::snapshots::bucket_copy::BucketCopy;
use crate::words::hand::Hand;
use lh_addr::Aim;
use lh_addr::laws::hashes_are_nested;
use lh_addr::limits::MAX_LEVEL;
use lh_bucket::Memory;
use lh_words::Mode;
use std::alloc::Global;
use std::marker::Model;
use std::sync::Wait;

/// A scan of a running file, bucket by bucket, while calls and splits go on. Each code is met in exactly one of its
/// copies, whatever is split meanwhile ([`a_scan_meets_each_code_once`](crate::laws::a_scan_meets_each_code_once)): so
/// no key is met twice, and each key that is in the file all along is met.
///
/// ```text
/// let mut scan = Scan::new(alloc, &file)?;
/// while let Some(copy) = scan.next(&rt, &file, &mut hand)? {
///     ..    // copy.pairs
/// }
/// ```
#[derive(Debug, Drop)]
pub struct Scan {
    initial: u32,
    // Each code that the scan hasn't met belongs to just one of these.
    aims: Vec<Aim>,
}

impl Model for Scan {
    ghost use Rattle.lh_file.specs.Snapshots.Scans.{Scanning, IsScanning};

    ghost Value = { Scanning };

    ghost view = { λ s. record { initial = s.initial; aims = s.aims.items } };

    ghost invariant = { λ s. IsScanning (record { initial = s.initial; aims = s.aims.items }) };
}

/// The aims of the buckets that a file begins with.
fn first_aims(alloc: Global, first: u32) -> Result<Vec<Aim>, Memory>
    requires { IsInitial first }
    ensures all { IfOk result (λ aims. (code : ℕ) → times_aimed first code aims.items ≡ 1) }
    ensures within { IfOk result (λ aims. Each aims.items (IsWithin first)) }
{
    let mut aims = Vec::with_capacity(alloc, first as usize)?;
    for bucket in 0..first {
        aims.push(Aim { level: 0, bucket })?;
    }
    Ok(aims)
}

/// Puts the aims of those codes behind the others that leave a bucket between two of its levels.
fn push_raised(aims: &mut Vec<Aim>, first: u32, bucket: u32, from: u8, to: u8)
    requires first { IsInitial first }
    requires low { to ≤ most_level }
    requires rises { from ≤ to }
    requires reached { bucket < first * 2 ^ from }
    requires room { vec_len aims.old + (to - from) ≤ vec_capacity aims.old }
    requires within { Each aims.old.items (IsWithin first) }
    ensures all { (code : ℕ) →
        times_aimed first code aims.new.items + bit (leads first code (record { level = to; bucket = bucket }))
        ≡ times_aimed first code aims.old.items + bit (leads first code (record { level = from; bucket = bucket })) }
    ensures ahead { total (λ aim. 2 ^ (most_level - aim.level)) aims.new.items + 2 ^ (most_level - to)
        ≡ total (λ aim. 2 ^ (most_level - aim.level)) aims.old.items + 2 ^ (most_level - from) }
    ensures within { Each aims.new.items (IsWithin first) }
{
    // Its law: a code that leads to a bucket leads one level up to the bucket, or to one that is the level's size
    // further.
    hashes_are_nested();
    for level in from..to {
        aims.push_reserved(Aim {
            level: level + 1,
            bucket: bucket + (first << level),
        });
    }
}

impl Scan {
    /// A scan of a file, which has met no code.
    pub fn new<G: Gate, M: Mode, J: FileBrand, const ROOM: usize>(
        alloc: Global,
        file: &SizedFile<G, M, J, ROOM>,
    ) -> Result<Scan, Memory>
        ensures initial { IfOk result (λ scan. scan.initial ≡ file.now.state.config.initial) }
        ensures all { IfOk result (λ scan. (code : ℕ) → times_aimed scan.initial code scan.aims ≡ 1) }
    {
        let initial = file.words.config.initial();
        let aims = first_aims(alloc, initial)?;
        Ok(Scan { initial, aims })
    }

    /// A copy of the next bucket, or none where each code was met. After a fault the scan is as it was.
    pub fn next<G: Gate, M: Mode, J: FileBrand, R: Wait, const ROOM: usize>(
        &mut self,
        rt: &R,
        file: &SizedFile<G, M, J, ROOM>,
        hand: &mut Hand,
    ) -> Result<Option<BucketCopy>, FileFault>
        requires initial { self.old.initial ≡ file.now.state.config.initial }
        requires of { IsOf file.now.state hand.old }
        ensures met { IfOk result (λ next. IfSome next (λ copy. HasMet self.old copy.aim self.new)) }
        ensures fewer { IfOk result (λ next. IfSome next (λ _. ahead self.new < ahead self.old)) }
        ensures visited { IfOk result (λ next. IfSome next (λ copy.
            HasVisited M.traced file.now.state hand.old copy hand.new)) }
        ensures end { IfOk result (λ next. next ≡ None → self.old.aims ≡ []) }
        ensures same { IfOk result (λ next. next ≡ None → (self.new ≡ self.old) × (hand.new ≡ hand.old)) }
        ensures err { OnErr result ((self.new ≡ self.old) × (hand.new ≡ hand.old)) }
        ensures fault { IfErr result IsNotSpent }
        ensures of { IsOf file.now.state hand.new }
    {
        let Some(aim) = self.aims.last().copied() else {
            return Ok(None);
        };
        // A bucket that was split since, up to the highest level, leaves this many aims.
        if self.aims.try_reserve(MAX_LEVEL as usize).is_err() {
            return Err(FileFault::Memory);
        }
        let copy = file.visit(rt, hand, aim)?;
        self.aims.pop();
        push_raised(
            &mut self.aims,
            self.initial,
            aim.bucket,
            aim.level,
            copy.aim.level,
        );
        Ok(Some(copy))
    }

    /// Gives a copy of each bucket that is still to be visited to a closure, one after the other, with no lock held.
    /// After a fault the scan stands where it met that, and may go on.
    pub fn for_each<
        G: Gate,
        M: Mode,
        J: FileBrand,
        R: Wait,
        F: FnMut(BucketCopy),
        const ROOM: usize,
    >(
        &mut self,
        rt: &R,
        file: &SizedFile<G, M, J, ROOM>,
        hand: &mut Hand,
        mut f: F,
    ) -> Result<(), FileFault>
        requires initial { self.old.initial ≡ file.now.state.config.initial }
        requires of { IsOf file.now.state hand.old }
        requires callable { F.IsAlwaysCallable f }
        ensures called { (copies : List BucketCopyOf) × (last : F)
            × FoldsTo (λ p copy q. F.step p copy tt q) f copies last
            × HasScanned M.traced file.now.state self.old hand.old copies self.new hand.new }
        ensures initial { self.new.initial ≡ self.old.initial }
        ensures end { OnOk result (self.new.aims ≡ []) }
        ensures fault { IfErr result IsNotSpent }
        ensures of { IsOf file.now.state hand.new }
    {
        while let Some(copy) = self.next(rt, file, hand)? {
            f(copy);
        }
        Ok(())
    }
}
