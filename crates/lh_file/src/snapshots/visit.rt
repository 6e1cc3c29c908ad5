//! Visits to single buckets.
ghost use Rattle.std.specs.Prelude.{◌≡◌, ◌<◌, ◌≤◌, true, [], ◌∷◌, List, IfOk, IfErr, OnErr};
ghost use Rattle.lh_addr.specs.Limits.{most_level};
ghost use Rattle.lh_bucket.specs.Bucket.{IsKept};
ghost use Rattle.lh_file.specs.Calls.Served.{IsNotSpent};
ghost use Rattle.lh_file.specs.FileState.{IsOf};
ghost use Rattle.lh_words.specs.History.Told.{IsSurveyed};
ghost use Rattle.lh_file.specs.Snapshots.Scans.{bucket_of, HasVisited};
ghost use Rattle.lh_words.specs.Seats.{told_seat};
ghost use Rattle.lh_words.specs.declared.seat_view.Entry.{Entry};

use crate::buckets::brand::FileBrand;
use crate::buckets::copied::copied_pairs;
use crate::buckets::slot::Slot;
use crate::calls::aim::defect;
use crate::calls::split::is_numbered;
use crate::fault::FileFault;
use crate::file::SizedFile;
use crate::gate::{Gate, Point};
use crate::snapshots::bucket_copy::BucketCopy;
use crate::words::hand::Hand;
use atomic_table::Seat;
use lh_addr::Aim;
use lh_words::{Mode, SeatView};
use std::sync::Wait;

impl<G: Gate, M: Mode, J: FileBrand, const ROOM: usize> SizedFile<G, M, J, ROOM> {
    /// One load of the stamp word while the seat of a bucket, whose lock the caller has, lies with the hand's, where
    /// the file is traced. A bucket that is wanted at this level and has no seat is a defect of the file.
    fn survey_slot<R: Wait>(
        &self,
        rt: &R,
        seat: &mut Seat<(), SeatView>,
        slot: &Slot<J, ROOM>,
        level: u8,
    ) -> Result<u64, FileFault>
        requires at { seat.old.table_id ≡ self.now.state.table }
        requires live { 0 < seat.old.me.0.view.initial }
        requires bucketless { seat.old.me.0.parts ≡ [] }
        ensures at { seat.new.table_id ≡ seat.old.table_id }
        ensures rises { IfOk result (λ stamps. seat.old.me.0.view.floor ≤ stamps) }
        ensures told { IfOk result (λ stamps. (log : List Entry)
            × (seat.new.me ≡ (told_seat stamps log seat.old.me.0, seat.old.me.1))
            × (M.traced ≡ true → IsSurveyed self.now.state.listing stamps
            seat.old.me.0.entries seat.old.me.0.logs (slot.now ∷ []) log)) }
        ensures err { OnErr result (seat.new.me ≡ seat.old.me) }
        ensures fault { IfErr result IsNotSpent }
    {
        let words = &self.words;
        if !M::keeps_history() {
            return Ok(words.table.survey(seat));
        }
        if !words.borrow_seat(rt, seat, slot) {
            let bucket = slot.bucket();
            return Err(defect(bucket.number(), level, bucket));
        }
        let stamps = words.table.survey(seat);
        words.return_seat(seat, slot);
        Ok(stamps)
    }

    /// The records of a bucket that an aim leads to, and whose lock the caller has.
    fn copy_of<R: Wait>(
        &self,
        rt: &R,
        seat: &mut Seat<(), SeatView>,
        slot: &Slot<J, ROOM>,
        aim: Aim,
    ) -> Result<BucketCopy, FileFault>
        requires at { seat.old.table_id ≡ self.now.state.table }
        requires live { 0 < seat.old.me.0.view.initial }
        requires bucketless { seat.old.me.0.parts ≡ [] }
        ensures at { seat.new.table_id ≡ seat.old.table_id }
        ensures bucket { IfOk result (λ copy. copy.aim.bucket ≡ aim.bucket) }
        ensures rises { IfOk result (λ copy. aim.level ≤ copy.aim.level) }
        ensures low { IfOk result (λ copy. copy.aim.level ≤ most_level) }
        ensures kept { IfOk result (λ copy. IsKept (bucket_of self.now.state.config copy)) }
        ensures after { IfOk result (λ copy. seat.old.me.0.view.floor ≤ copy.stamps) }
        ensures told { IfOk result (λ copy. (log : List Entry)
            × (seat.new.me ≡ (told_seat copy.stamps log seat.old.me.0, seat.old.me.1))
            × (M.traced ≡ true → IsSurveyed self.now.state.listing copy.stamps
            seat.old.me.0.entries seat.old.me.0.logs (bucket_of self.now.state.config copy ∷ []) log)) }
        ensures err { OnErr result (seat.new.me ≡ seat.old.me) }
        ensures fault { IfErr result IsNotSpent }
    {
        let bucket = slot.bucket();
        let found = bucket.level();
        let Some(level) = found else {
            return Err(defect(aim.bucket, aim.level, bucket));
        };
        if !is_numbered(bucket, &self.words.config, aim.bucket) || level < aim.level {
            return Err(defect(aim.bucket, aim.level, bucket));
        }
        let pairs = copied_pairs(self.words.alloc, bucket)?;
        let stamps = self.survey_slot(rt, seat, slot, aim.level)?;
        let aim = Aim {
            level,
            bucket: aim.bucket,
        };
        Ok(BucketCopy { aim, stamps, pairs })
    }

    /// The records of the bucket that an aim leads to, at one moment, with the level that the bucket has then: the
    /// codes of its keys lead to it at that level. A bucket that isn't there at the aim's level or a higher one is a
    /// defect.
    ///
    /// In a traced file the bucket has just what the first [`stamps`](BucketCopy::stamps) acts leave of these codes.
    ///
    /// The bucket's lock is taken shared, for the time of a copy. No stamp is drawn.
    pub fn visit<R: Wait>(&self, rt: &R, hand: &mut Hand, aim: Aim) -> Result<BucketCopy, FileFault>
        requires of { IsOf self.now.state hand.old }
        ensures bucket { IfOk result (λ copy. copy.aim.bucket ≡ aim.bucket) }
        ensures rises { IfOk result (λ copy. aim.level ≤ copy.aim.level) }
        ensures low { IfOk result (λ copy. copy.aim.level ≤ most_level) }
        ensures visited { IfOk result (λ copy. HasVisited M.traced self.now.state hand.old copy hand.new) }
        ensures err { OnErr result (hand.new ≡ hand.old) }
        ensures fault { IfErr result IsNotSpent }
        ensures of { IsOf self.now.state hand.new }
    {
        let lock = self.segments.there(aim.bucket, aim.level)?;
        let guard = lock.read(rt);
        self.gate.at(Point::Holding { bucket: aim.bucket });
        let copy = self.copy_of(rt, &mut hand.seat, &guard, aim);
        drop(guard);
        self.gate.at(Point::Released { bucket: aim.bucket });
        copy
    }
}
