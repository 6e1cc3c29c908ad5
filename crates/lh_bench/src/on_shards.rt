//! The workloads' calls on several files as one.
ghost use Rattle.std.specs.Prelude.{◌≡◌, ◌<◌, All, IfOk, length};
ghost use Rattle.lh_settling.specs.ClosedFile.{IsWhole};
ghost use Rattle.lh_shards.specs.Hands.{AreOf, IsCount};

use crate::contents::Contents;
use crate::counting::{counter, one_more};
use crate::passes::Met;
use crate::table::{CALLS, Table, check_room};
use anyhow::Result;
use lh_bucket::Answer;
use lh_file::{Closed, FileFault, Unbranded, Untraced};
use lh_page::{Key, Value};
use lh_shards::{Hands, ShardScan, SizedShards};
use std::marker::Model;
use std::sync::Wait;

/// Files without history, as one.
type Shards<const ROOM: usize> = SizedShards<Untraced, Unbranded, ROOM>;

/// Shards, and hands of them.
#[derive(Drop)]
pub struct OnShards<'a, const ROOM: usize> {
    shards: &'a Shards<ROOM>,
    hands: Hands,
}

impl<'a, const ROOM: usize> Model for OnShards<'a, ROOM> {
    ghost use Rattle.std.specs.Prelude.{List};
    ghost use Rattle.lh_file.specs.Words.HandState.{HandState};
    ghost use Rattle.lh_shards.specs.Hands.{AreOf};

    ghost Value = { List HandState };

    ghost view = { λ own. own.hands };

    ghost invariant = { λ own. AreOf own.shards.now own.hands };
}

impl<'a, const ROOM: usize> OnShards<'a, ROOM> {
    pub fn new(shards: &'a Shards<ROOM>, hands: Hands) -> OnShards<'a, ROOM>
        requires { AreOf shards.now hands }
        ensures { result ≡ hands }
    {
        OnShards { shards, hands }
    }
}

/// A snapshot of each shard, one after another.
fn snapshots_of<R: Wait + AllocGlobal, const ROOM: usize>(
    rt: &R,
    shards: &Shards<ROOM>,
    hands: &mut Hands,
) -> Result<Vec<Closed>>
    requires { AreOf shards.now hands.old }
    ensures count { IfOk result (λ taken. IsCount (length taken.items)) }
    ensures whole { IfOk result (λ taken. All IsWhole taken.items) }
    ensures of { AreOf shards.now hands.new }
{
    let mut taken = Vec::new(rt.alloc());
    for shard in 0..shards.count() {
        let snapshot = shards.snapshot(rt, hands, shard)?;
        taken.push(snapshot)?;
    }
    Ok(taken)
}

/// Adds what a scan of a shard meets.
fn meet<R: Wait + AllocGlobal, const ROOM: usize>(
    rt: &R,
    shards: &Shards<ROOM>,
    hands: &mut Hands,
    shard: u32,
    met: &mut Met,
) -> Result<()>
    requires of { AreOf shards.now hands.old }
    requires within { shard < length shards.now }
    ensures { AreOf shards.now hands.new }
{
    let mut scan = ShardScan::new(rt.alloc(), shards, shard)?;
    for _ in rt.forever() {
        let Some(copy) = scan.next(rt, shards, hands)? else {
            break;
        };
        met.note_all(&copy.pairs);
    }
    Ok(())
}

/// What scans of all shards meet.
fn met_by_scans<R: Wait + AllocGlobal, const ROOM: usize>(
    rt: &R,
    shards: &Shards<ROOM>,
    hands: &mut Hands,
) -> Result<Met>
    requires { AreOf shards.now hands.old }
    ensures { AreOf shards.now hands.new }
{
    let mut met = Met::NONE;
    for shard in 0..shards.count() {
        meet(rt, shards, hands, shard, &mut met)?;
    }
    Ok(met)
}

impl<'a, const ROOM: usize> Table for OnShards<'a, ROOM> {
    #[inline(always)]
    fn search<R: Wait>(&mut self, rt: &R, key: Key) -> Result<Answer, FileFault> {
        self.shards.search(rt, &mut self.hands, key)
    }

    #[inline(always)]
    fn insert<R: Wait>(&mut self, rt: &R, key: Key, value: Value) -> Result<Answer, FileFault> {
        check_room::<ROOM>(&key, &value)?;
        self.shards.insert(rt, &mut self.hands, key, value)
    }

    #[inline(always)]
    fn delete<R: Wait>(&mut self, rt: &R, key: Key) -> Result<Answer, FileFault> {
        self.shards.delete(rt, &mut self.hands, key)
    }

    #[inline(always)]
    fn replace<R: Wait>(&mut self, rt: &R, key: Key, value: Value) -> Result<Answer, FileFault> {
        check_room::<ROOM>(&key, &value)?;
        self.shards.replace(rt, &mut self.hands, key, value)
    }

    #[inline(always)]
    fn compare<R: Wait>(
        &mut self,
        rt: &R,
        contents: Contents,
        record: u64,
    ) -> Result<Option<bool>, FileFault> {
        let key = contents.key(record);
        let due = |bytes: &[u8]| contents.are_bytes(bytes, record);
        self.shards.with_value(rt, &mut self.hands, &key, due)
    }

    #[inline(always)]
    fn put<R: Wait>(&mut self, rt: &R, key: &Key, value: &Value) -> Result<bool, FileFault> {
        check_room::<ROOM>(key, value)?;
        self.shards.put(rt, &mut self.hands, key, value)
    }

    #[inline(always)]
    fn set<R: Wait>(&mut self, rt: &R, key: &Key, value: &Value) -> Result<bool, FileFault> {
        check_room::<ROOM>(key, value)?;
        self.shards.set(rt, &mut self.hands, key, value)
    }

    #[inline(always)]
    fn remove<R: Wait>(&mut self, rt: &R, key: &Key) -> Result<bool, FileFault> {
        self.shards.remove(rt, &mut self.hands, key)
    }

    #[inline(always)]
    fn count<R: Wait>(&mut self, rt: &R, key: &Key) -> Result<bool, FileFault> {
        let first = counter(1);
        check_room::<ROOM>(key, &first)?;
        self.shards
            .merge(rt, &mut self.hands, key, &first, one_more)
    }

    fn divide(&mut self) -> Result<OnShards<'a, ROOM>> {
        let hands = self.shards.split_hands(&mut self.hands, CALLS)?;
        Ok(OnShards {
            shards: self.shards,
            hands,
        })
    }

    fn buckets(&mut self) -> u64 {
        self.shards.buckets(&mut self.hands)
    }

    fn snapshots<R: Wait + AllocGlobal>(&mut self, rt: &R) -> Result<Vec<Closed>> {
        snapshots_of(rt, self.shards, &mut self.hands)
    }

    fn scan<R: Wait + AllocGlobal>(&mut self, rt: &R) -> Result<Met> {
        met_by_scans(rt, self.shards, &mut self.hands)
    }
}
