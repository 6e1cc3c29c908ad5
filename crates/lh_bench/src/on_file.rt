//! The workloads' calls on a file.
ghost use Rattle.std.specs.Prelude.{◌≡◌};
ghost use Rattle.lh_file.specs.FileState.{IsOf};

use crate::contents::Contents;
use crate::counting::{counter, one_more};
use crate::passes::Met;
use crate::table::{CALLS, Table, check_room};
use anyhow::Result;
use lh_bucket::Answer;
use lh_file::{Closed, FileBrand, FileFault, Hand, Mode, NoGate, Scan, SizedFile};
use lh_page::{Key, Value};
use std::marker::Model;
use std::sync::Wait;

/// A file, and a hand of it.
#[derive(Drop)]
pub struct OnFile<'a, M: Mode, J: FileBrand, const ROOM: usize> {
    file: &'a SizedFile<NoGate, M, J, ROOM>,
    hand: Hand,
}

impl<'a, M: Mode, J: FileBrand, const ROOM: usize> Model for OnFile<'a, M, J, ROOM> {
    ghost use Rattle.lh_file.specs.FileState.{IsOf};
    ghost use Rattle.lh_file.specs.Words.HandState.{HandState};

    ghost Value = { HandState };

    ghost view = { λ own. own.hand };

    ghost invariant = { λ own. IsOf own.file.now.state own.hand };
}

impl<'a, M: Mode, J: FileBrand, const ROOM: usize> OnFile<'a, M, J, ROOM> {
    pub fn new(file: &'a SizedFile<NoGate, M, J, ROOM>, hand: Hand) -> OnFile<'a, M, J, ROOM>
        requires { IsOf file.now.state hand }
        ensures { result ≡ hand }
    {
        OnFile { file, hand }
    }
}

/// What a scan meets.
fn met_by_scan<M: Mode, J: FileBrand, R: Wait + AllocGlobal, const ROOM: usize>(
    rt: &R,
    file: &SizedFile<NoGate, M, J, ROOM>,
    hand: &mut Hand,
) -> Result<Met>
    requires { IsOf file.now.state hand.old }
    ensures { IsOf file.now.state hand.new }
{
    let mut met = Met::NONE;
    let mut scan = Scan::new(rt.alloc(), file)?;
    for _ in rt.forever() {
        let Some(copy) = scan.next(rt, file, hand)? else {
            break;
        };
        met.note_all(&copy.pairs);
    }
    Ok(met)
}

impl<'a, M: Mode, J: FileBrand, const ROOM: usize> Table for OnFile<'a, M, J, ROOM> {
    #[inline(always)]
    fn search<R: Wait>(&mut self, rt: &R, key: Key) -> Result<Answer, FileFault> {
        self.file.search(rt, &mut self.hand, key)
    }

    #[inline(always)]
    fn insert<R: Wait>(&mut self, rt: &R, key: Key, value: Value) -> Result<Answer, FileFault> {
        check_room::<ROOM>(&key, &value)?;
        self.file.insert(rt, &mut self.hand, key, value)
    }

    #[inline(always)]
    fn delete<R: Wait>(&mut self, rt: &R, key: Key) -> Result<Answer, FileFault> {
        self.file.delete(rt, &mut self.hand, key)
    }

    #[inline(always)]
    fn replace<R: Wait>(&mut self, rt: &R, key: Key, value: Value) -> Result<Answer, FileFault> {
        check_room::<ROOM>(&key, &value)?;
        self.file.replace(rt, &mut self.hand, key, value)
    }

    #[inline(always)]
    fn compare<R: Wait>(
        &mut self,
        rt: &R,
        contents: Contents,
        record: u64,
    ) -> Result<Option<bool>, FileFault> {
        let key = contents.key(record);
        let due = |bytes: &[u8]| contents.are_bytes(bytes, record);
        self.file.with_value(rt, &mut self.hand, &key, due)
    }

    #[inline(always)]
    fn put<R: Wait>(&mut self, rt: &R, key: &Key, value: &Value) -> Result<bool, FileFault> {
        check_room::<ROOM>(key, value)?;
        self.file.put(rt, &mut self.hand, key, value)
    }

    #[inline(always)]
    fn set<R: Wait>(&mut self, rt: &R, key: &Key, value: &Value) -> Result<bool, FileFault> {
        check_room::<ROOM>(key, value)?;
        self.file.set(rt, &mut self.hand, key, value)
    }

    #[inline(always)]
    fn remove<R: Wait>(&mut self, rt: &R, key: &Key) -> Result<bool, FileFault> {
        self.file.remove(rt, &mut self.hand, key)
    }

    #[inline(always)]
    fn count<R: Wait>(&mut self, rt: &R, key: &Key) -> Result<bool, FileFault> {
        let first = counter(1);
        check_room::<ROOM>(key, &first)?;
        self.file.merge(rt, &mut self.hand, key, &first, one_more)
    }

    fn divide(&mut self) -> Result<OnFile<'a, M, J, ROOM>> {
        let hand = self.file.split_hand(&mut self.hand, CALLS)?;
        Ok(OnFile {
            file: self.file,
            hand,
        })
    }

    fn buckets(&mut self) -> u64 {
        u64::from(self.file.buckets(&mut self.hand))
    }

    fn snapshots<R: Wait + AllocGlobal>(&mut self, rt: &R) -> Result<Vec<Closed>> {
        let snapshot = self.file.snapshot(rt, &mut self.hand)?;
        let mut taken = Vec::new(rt.alloc());
        taken.push(snapshot)?;
        Ok(taken)
    }

    fn scan<R: Wait + AllocGlobal>(&mut self, rt: &R) -> Result<Met> {
        met_by_scan(rt, self.file, &mut self.hand)
    }
}
