//! Scans of single shards.
ghost use Rattle.std.specs.Prelude.{◌≡◌, ◌<◌, ℕ, [], None, length, IfOk, IfErr, IfSome, OnErr};
ghost use Rattle.lh_file.specs.Calls.Served.{IsNotSpent};
ghost use Rattle.lh_file.specs.Snapshots.Scans.{HasMet, HasVisited, ahead, times_aimed};
ghost use Rattle.lh_shards.specs.Hands.{AreOf, AtShard};
ghost use Rattle.lh_shards.specs.Snapshots.{IsScanOf};

use crate::hands::Hands;
use crate::shards::SizedShards;
use lh_file::{BucketCopy, FileBrand, FileFault, Memory, Mode, Scan};
use std::alloc::Global;
use std::marker::Model;
use std::sync::Wait;

/// A scan of one shard, bucket by bucket, while calls and splits go on: a [`Scan`] of its file.
///
/// ```text
/// for shard in 0..shards.count() {
///     let mut scan = ShardScan::new(alloc, &shards, shard)?;
///     while let Some(copy) = scan.next(&rt, &shards, &mut hands)? {
///         ..    // copy.pairs
///     }
/// }
/// ```
#[derive(Debug, Drop)]
pub struct ShardScan {
    shard: u32,
    scan: Scan,
}

impl Model for ShardScan {
    ghost use Rattle.lh_shards.specs.Snapshots.{ShardScanning};

    ghost Value = { ShardScanning };

    ghost view = { λ s. record { shard = s.shard; scan = s.scan } };
}

impl ShardScan {
    /// A scan of a shard, counted from 0, which has met no code.
    pub fn new<M: Mode, J: FileBrand, const ROOM: usize>(
        alloc: Global,
        shards: &SizedShards<M, J, ROOM>,
        shard: u32,
    ) -> Result<ShardScan, Memory>
        requires { shard < length shards.now }
        ensures shard { IfOk result (λ scan. scan.shard ≡ shard) }
        ensures of { IfOk result (IsScanOf shards.now) }
        ensures all { IfOk result (λ scan. (code : ℕ) → times_aimed scan.scan.initial code scan.scan.aims ≡ 1) }
    {
        let scan = Scan::new(alloc, shards.file(shard as usize))?;
        Ok(ShardScan { shard, scan })
    }

    /// A copy of the next bucket of the shard, or none where each code was met. After a fault the scan is as it was.
    pub fn next<M: Mode, J: FileBrand, R: Wait, const ROOM: usize>(
        &mut self,
        rt: &R,
        shards: &SizedShards<M, J, ROOM>,
        hands: &mut Hands,
    ) -> Result<Option<BucketCopy>, FileFault>
        requires scan { IsScanOf shards.now self.old }
        requires of { AreOf shards.now hands.old }
        ensures met { IfOk result (λ next. IfSome next (λ copy. HasMet self.old.scan copy.aim self.new.scan)) }
        ensures fewer { IfOk result (λ next. IfSome next (λ _. ahead self.new.scan < ahead self.old.scan)) }
        ensures visited { AtShard self.old.shard shards.now hands.old hands.new (λ file before after.
            IfOk result (λ next. IfSome next (λ copy. HasVisited M.traced file before copy after))) }
        ensures end { IfOk result (λ next. next ≡ None → self.old.scan.aims ≡ []) }
        ensures same { IfOk result (λ next. next ≡ None → (self.new ≡ self.old) × (hands.new ≡ hands.old)) }
        ensures err { OnErr result ((self.new ≡ self.old) × (hands.new ≡ hands.old)) }
        ensures fault { IfErr result IsNotSpent }
        ensures scan { IsScanOf shards.now self.new }
        ensures shard { self.new.shard ≡ self.old.shard }
        ensures of { AreOf shards.now hands.new }
    {
        let shard = self.shard as usize;
        self.scan.next(rt, shards.file(shard), hands.at(shard))
    }
}
