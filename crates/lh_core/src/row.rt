//! The buckets of a world: serving a call at one of them, and splitting one.
ghost use Rattle.std.specs.Prelude.{◌≡◌, ◌+◌, ◌<◌, ◌≤◌, ◌^◌, map, IfOk, OnOk, IfErr, OnErr, vec_len};
ghost use Rattle.lh_addr.specs.Limits.{IsInitial, IsCapacity};
ghost use Rattle.lh_bucket.specs.Bucket.{CanSplit};
ghost use Rattle.lh_bucket.specs.Call.{IsInsert};
ghost use Rattle.lh_bucket.specs.PlainMap.{Records, reply, after};
ghost use Rattle.lh_core.specs.Control.{IsControl, IsAimed, world_of};
ghost use Rattle.lh_core.specs.Kept.{IsBucketRow, IsWorld, IsEmptyRow};
ghost use Rattle.lh_core.specs.Splits.{IsSplit, unfilled};
ghost use Rattle.lh_core.specs.World.{IsPlaced, StandsFor, bucket_at};

use crate::control::{Act, Control};
use crate::laws::linear_hashing;
use lh_addr::Config;
use lh_bucket::{Bucket, Memory, Reply};
use std::alloc::Global;

/// The empty buckets that a file begins with.
pub(crate) fn first_row<B: Bucket>(alloc: Global, config: &Config) -> Result<Vec<B>, Memory>
    ensures { IfOk result (λ row. IsEmptyRow config.now config.now.initial (map B.seen row.items)) }
{
    let mut buckets = Vec::new(alloc);
    for number in 0..config.initial() {
        let bucket = B::make(alloc, config.initial(), config.capacity(), number, Some(0))?;
        buckets.push(bucket)?;
    }
    Ok(buckets)
}

/// Serves a call at the bucket that it aims at.
pub(crate) fn serve<B: Bucket>(
    control: &Control,
    buckets: &mut Vec<B>,
    act: &Act<'_>,
) -> Result<Reply, Memory>
    requires act { IsAimed control.now act.now }
    requires world { IsWorld (world_of control.now (map B.seen buckets.old.items)) }
    ensures row { IsBucketRow control.now.config control.now.filled.buckets (map B.seen buckets.new.items) }
    ensures reply { (m : Records) → StandsFor (world_of control.now (map B.seen buckets.old.items)) m →
        IfOk result (λ r. r ≡ reply m act.now.call.now) }
    ensures stands { (m : Records) → StandsFor (world_of control.now (map B.seen buckets.old.items)) m →
        OnOk result (StandsFor (world_of control.now (map B.seen buckets.new.items)) (after m act.now.call.now)) }
    ensures unchanged { OnErr result (map B.seen buckets.new.items ≡ map B.seen buckets.old.items) }
    ensures insert { OnErr result (IsInsert act.now.call.now) }
{
    // Its law: a code has one address, so the bucket says `Here`, and no other has the key.
    linear_hashing();
    let bucket = &mut buckets[act.bucket as usize];
    match bucket.serve(act.call, act.level) {
        Ok(answer) => {
            // In a bucket no key stands twice, before a call and after it.
            let _ = bucket.len();
            Ok(answer.reply())
        }
        Err(_) => Err(Memory),
    }
}

/// Splits one bucket of a row into itself and a new one at the end.
fn split_one<B: Bucket>(
    alloc: Global,
    buckets: &mut Vec<B>,
    i: usize,
    initial: u32,
    capacity: u32,
) -> Result<(), Memory>
    requires initial { IsInitial initial }
    requires capacity { IsCapacity capacity }
    requires within { i < vec_len buckets.old }
    requires few { vec_len buckets.old < 2 ^ 32 }
    requires can { CanSplit (bucket_at (map B.seen buckets.old.items) i).head
        (unfilled (vec_len buckets.old) initial capacity) }
    ensures split { OnOk result (IsSplit (map B.seen buckets.old.items) i initial capacity
        (map B.seen buckets.new.items)) }
    ensures unchanged { OnErr result (map B.seen buckets.new.items ≡ map B.seen buckets.old.items) }
{
    let number = buckets.len() as u32;
    let mut new = B::make(alloc, initial, capacity, number, None)?;
    buckets.reserve(1)?;
    let old = &mut buckets[i];
    old.split_into(&mut new)?;
    // In neither of the two a key stands twice.
    let _ = old.len();
    let _ = new.len();
    // There is room for it, so nothing can fail once the records are divided.
    if let Err(_) = buckets.push(new) {
        unreachable!();
    }
    Ok(())
}

/// Divides the records of a split: the bucket at the pointer is split into itself and a new one.
pub(crate) fn divide<B: Bucket>(
    alloc: Global,
    control: &Control,
    buckets: &mut Vec<B>,
) -> Result<(), Memory>
    requires control { IsControl control.now }
    requires room { control.now.root.buckets < control.now.config.max }
    requires before { control.now.filled.buckets ≡ control.now.root.buckets }
    requires world { IsWorld (world_of control.now (map B.seen buckets.old.items)) }
    ensures row { OnOk result (IsBucketRow control.now.config (control.now.root.buckets + 1)
        (map B.seen buckets.new.items)) }
    ensures stands { (m : Records) → StandsFor (world_of control.now (map B.seen buckets.old.items)) m →
        OnOk result (IsPlaced control.now.config.initial (control.now.root.buckets + 1) m
        (map B.seen buckets.new.items)) }
    ensures unchanged { OnErr result (map B.seen buckets.new.items ≡ map B.seen buckets.old.items) }
{
    // Its laws: a split raises the level of two buckets alone, and moves addresses from one to the other.
    linear_hashing();
    let pointer = control.root.pointer() as usize;
    let initial = control.config.initial();
    let capacity = control.config.capacity();
    match split_one(alloc, buckets, pointer, initial, capacity) {
        Ok(()) => Ok(()),
        Err(Memory) => Err(Memory),
    }
}
