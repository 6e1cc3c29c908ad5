//! All buckets of a running file, each held shared.
ghost use Rattle.std.specs.Prelude.{◌≡◌, ◌<◌, ◌≤◌, true, List, [], length, map, take, vec_len, IfOk, IfErr, OnOk};
ghost use Rattle.std.specs.Sync.RwLock.{read_guard_value};
ghost use Rattle.lh_addr.specs.Limits.{most_buckets};
ghost use Rattle.lh_file.specs.Calls.Served.{IsNotSpent};
ghost use Rattle.lh_words.specs.History.Told.{IsSurveyed};
ghost use Rattle.lh_file.specs.Snapshots.Held.{AreBucketsOf, reaches, is_outgrown};
ghost use Rattle.lh_words.specs.Seats.{partless, told_seat};
ghost use Rattle.lh_words.specs.declared.seat_view.Entry.{Entry};

use crate::buckets::brand::FileBrand;
use crate::buckets::copied::copied_pairs;
use crate::buckets::segments::Segments;
use crate::buckets::slot::Slot;
use crate::calls::aim::defect;
use crate::calls::split::is_numbered;
use crate::fault::FileFault;
use crate::gate::{Gate, Point};
use crate::words::Words;
use atomic_table::Seat;
use lh_addr::Config;
use lh_bucket::Memory;
use lh_page::Pair;
use lh_words::{Mode, SeatView};
use std::alloc::Global;
use std::sync::{RwLockReadGuard, Wait};

/// Whether a bucket is filled at a level, or at a higher one, as one that was split again is.
fn reaches(found: Option<u8>, level: u8) -> bool
    ensures { result ≡ reaches level found }
{
    match found {
        Some(found) => found >= level,
        None => false,
    }
}

/// Whether a file has more buckets than these, which are all that one of so many has, and are held: whether the next
/// split of such a file has divided its bucket.
fn is_outgrown<J: FileBrand, const ROOM: usize>(
    config: &Config,
    guards: &[RwLockReadGuard<'_, Slot<J, ROOM>>],
) -> bool
    requires least { config.now.initial ≤ length guards.now }
    requires below { length guards.now < config.now.max }
    ensures { result ≡ is_outgrown config.now.initial (map read_guard_value guards.now) }
{
    // Its clause tells how many buckets a file may have.
    let _most = config.max();
    let (old, _, raised) = config.root(guards.len() as u32).next_split();
    match guards.get(old as usize) {
        Some(guard) => reaches(guard.bucket().level(), raised),
        None => false,
    }
}

impl<J: FileBrand, const ROOM: usize> Segments<J, ROOM> {
    /// Takes the locks of all buckets shared, in the order of their numbers, where there are this many or more. Buckets
    /// that splits fill meanwhile are taken too, until the bucket of the next split is among those that are held.
    // There is no deadlock: a call holds one bucket, and whoever holds several took them in this order.
    pub(crate) fn hold_all<R: Wait>(
        &self,
        rt: &R,
        buckets: u32,
    ) -> Result<Vec<RwLockReadGuard<'_, Slot<J, ROOM>>>, FileFault>
        requires least { self.now.config.initial ≤ buckets }
        requires greatest { buckets ≤ self.now.config.max }
        ensures least { IfOk result (λ guards. buckets ≤ vec_len guards) }
        ensures greatest { IfOk result (λ guards. vec_len guards ≤ self.now.config.max) }
        ensures fault { IfErr result IsNotSpent }
    {
        let Ok(mut guards) = Vec::with_capacity(self.alloc, buckets as usize) else {
            return Err(FileFault::Memory);
        };
        let mut size = buckets;
        for number in 0..self.config.max() {
            if number == size {
                if !is_outgrown(&self.config, &guards) {
                    break;
                }
                size += 1;
            }
            let lock = self.there(number, 0)?;
            if guards.push(lock.read(rt)).is_err() {
                return Err(FileFault::Memory);
            }
        }
        Ok(guards)
    }
}

/// Makes sure that these are the buckets of a file, all of them. A bucket that isn't what it has to be is a defect.
pub(crate) fn check_held<J: FileBrand, const ROOM: usize>(
    config: &Config,
    guards: &[RwLockReadGuard<'_, Slot<J, ROOM>>],
) -> Result<(), FileFault>
    requires least { config.now.initial ≤ length guards.now }
    requires greatest { length guards.now ≤ config.now.max }
    ensures row { OnOk result (AreBucketsOf config.now (map read_guard_value guards.now)) }
    ensures fault { IfErr result IsNotSpent }
{
    // Its clause tells how many buckets a file may have.
    let _most = config.max();
    let root = config.root(guards.len() as u32);
    for place in 0..guards.len() {
        let bucket = guards[place].bucket();
        // Its clause tells what the bucket keeps of its own accord.
        let _records = bucket.len();
        let number = place as u32;
        let level = root.level_of(number);
        if !is_numbered(bucket, config, number) || bucket.level() != Some(level) {
            return Err(defect(number, level, bucket));
        }
    }
    Ok(())
}

impl<M: Mode> Words<M> {
    /// Takes in the seats of buckets of a traced file, from the first on as long as there are any: how many.
    fn borrow_seats<J: FileBrand, R: Wait, const ROOM: usize>(
        &self,
        rt: &R,
        seat: &mut Seat<(), SeatView>,
        guards: &[RwLockReadGuard<'_, Slot<J, ROOM>>],
    ) -> usize
        requires at { seat.old.table_id ≡ self.now.table }
        requires brand { self.now.table ≡ J.tables self.now.shard }
        requires bucketless { seat.old.me.0.parts ≡ [] }
        ensures at { seat.new.table_id ≡ seat.old.table_id }
        ensures within { result ≤ length guards.now }
        ensures taken { seat.new.me ≡ (
          record (seat.old.me.0) {
            parts = take result (map read_guard_value guards.now);
          },
          seat.old.me.1,
        ) }
    {
        for place in 0..guards.len() {
            if !self.borrow_seat(rt, seat, &guards[place]) {
                return place;
            }
        }
        guards.len()
    }

    /// Gives buckets their seats back.
    fn return_seats<J: FileBrand, const ROOM: usize>(
        &self,
        seat: &mut Seat<(), SeatView>,
        guards: &[RwLockReadGuard<'_, Slot<J, ROOM>>],
    )
        requires at { seat.old.table_id ≡ self.now.table }
        requires brand { self.now.table ≡ J.tables self.now.shard }
        requires parts { seat.old.me.0.parts ≡ map read_guard_value guards.now }
        ensures at { seat.new.table_id ≡ seat.old.table_id }
        ensures left { seat.new.me ≡ (partless seat.old.me.0, seat.old.me.1) }
    {
        for place in 0..guards.len() {
            self.return_seat(seat, &guards[place]);
        }
    }

    /// One load of the stamp word while the seats of these buckets, whose locks the caller has, lie with the hand's,
    /// where the file is traced: how many acts there were, and how many of the buckets, from the first on, had a seat.
    pub(crate) fn survey_held<J: FileBrand, R: Wait, const ROOM: usize>(
        &self,
        rt: &R,
        seat: &mut Seat<(), SeatView>,
        guards: &[RwLockReadGuard<'_, Slot<J, ROOM>>],
    ) -> (u64, usize)
        requires at { seat.old.table_id ≡ self.now.table }
        requires brand { M.traced ≡ true → self.now.table ≡ J.tables self.now.shard }
        requires live { 0 < seat.old.me.0.view.initial }
        requires bucketless { seat.old.me.0.parts ≡ [] }
        ensures at { seat.new.table_id ≡ seat.old.table_id }
        ensures rises { seat.old.me.0.view.floor ≤ result.0 }
        ensures told { (log : List Entry) × (seat.new.me ≡ (told_seat result.0 log seat.old.me.0, seat.old.me.1))
            × (M.traced ≡ true → length guards.now ≤ result.1 → IsSurveyed self.now.listing result.0
            seat.old.me.0.entries seat.old.me.0.logs (map read_guard_value guards.now) log) }
    {
        if !M::keeps_history() {
            return (self.table.survey(seat), guards.len());
        }
        let count = self.borrow_seats(rt, seat, guards);
        let acts = self.table.survey(seat);
        self.return_seats(seat, &guards[..count]);
        (acts, count)
    }
}

/// The records of buckets. Each is let go as soon as its records are copied, the first one first, and the gate is told.
pub(crate) fn copied_held<G: Gate, J: FileBrand, const ROOM: usize>(
    alloc: Global,
    gate: &G,
    mut guards: Vec<RwLockReadGuard<'_, Slot<J, ROOM>>>,
) -> Result<Vec<Vec<Pair>>, Memory>
    ensures { IfOk result (λ lists. map (λ v. v.items) lists.items
        ≡ map (λ b. b.pairs) (map read_guard_value guards.entry.items)) }
{
    let mut lists = Vec::with_capacity(alloc, guards.len())?;
    guards.reverse();
    while let Some(guard) = guards.pop() {
        let bucket = guard.bucket().number();
        lists.push(copied_pairs(alloc, guard.bucket())?)?;
        drop(guard);
        gate.at(Point::Copied { bucket });
    }
    Ok(lists)
}
