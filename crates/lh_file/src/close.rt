//! How a file is closed.
ghost use Rattle.std.specs.Prelude.{◌≡◌, ℕ, ◌+◌, ◌-◌, ◌%◌, ◌^◌, ◌<◌, ◌≤◌, true, false, [], ◌∷◌, length, map, IfOk};
ghost use Rattle.std.specs.Prelude.{OnOk};
ghost use Rattle.lh_file.specs.Closing.{NoneIsLost, AreGathered, HasHistory};
ghost use Rattle.lh_file.specs.FileState.{IsOf};
ghost use Rattle.lh_file.specs.HashFile.{IsClosing};
ghost use Rattle.lh_words.specs.Seats.{holder, with_parts};

use crate::buckets::brand::FileBrand;
use crate::buckets::copied::copied_pairs;
use crate::buckets::segments::Segments;
use crate::buckets::slot::Slot;
use crate::file::SizedFile;
use crate::gate::Gate;
use crate::words::Words;
use crate::words::hand::Hand;
use atomic_table::Seat;
use lh_addr::RootWord;
use lh_addr::laws::address_is_only_bucket;
use lh_bucket::Memory;
use lh_page::Pair;
use lh_settling::laws::{acts_have_an_order, full_buckets_are_placed};
use lh_settling::{Acts, Closed};
use lh_words::{Mode, SeatView};
use std::alloc::Global;
use std::sync::Wait;

/// What is copied from a file that is closed, bucket after bucket.
#[derive(Drop)]
struct Copies {
    lists: Vec<Vec<Pair>>,
    // How many buckets from the first on were met in their places with their seats.
    whole: u32,
    // Whether no bucket after those had a record.
    clean: bool,
}

impl Copies {
    /// Takes in the seat of the next bucket, where the seats of all buckets before it came in: whether it did.
    fn gather<M: Mode, J: FileBrand, const ROOM: usize>(
        &self,
        words: &Words<M>,
        seat: &mut Seat<(), SeatView>,
        slot: &Slot<J, ROOM>,
    ) -> bool
        requires at { seat.old.table_id ≡ words.now.table }
        requires brand { M.traced ≡ true → words.now.table ≡ J.tables words.now.shard }
        ensures at { seat.new.table_id ≡ seat.old.table_id }
        ensures all { result ≡ true → self.now.whole ≡ length self.now.lists.items }
        ensures number { result ≡ true → slot.now.head.number ≡ self.now.whole }
        ensures taken { result ≡ true → seat.new.me
            ≡ (with_parts seat.old.me.0 (holder (slot.now ∷ [])), seat.old.me.1) }
        ensures same { result ≡ false → seat.new.me ≡ seat.old.me }
    {
        if self.whole as usize != self.lists.len() {
            return false;
        }
        words.gather(seat, slot, self.whole)
    }

    /// Copies the next bucket. In a traced file its seat is taken in, if those of all buckets before it were.
    fn add<M: Mode, J: FileBrand, const ROOM: usize>(
        &mut self,
        alloc: Global,
        words: &Words<M>,
        seat: &mut Seat<(), SeatView>,
        slot: &Slot<J, ROOM>,
    ) -> Result<(), Memory>
        requires at { seat.old.table_id ≡ words.now.table }
        requires brand { M.traced ≡ true → words.now.table ≡ J.tables words.now.shard }
        requires few { length self.old.lists.items < 2 ^ 32 - 1 }
        requires before { AreGathered seat.old.me.0.parts
            (map (λ v. v.items) self.old.lists.items) self.old.whole self.old.clean }
        ensures at { seat.new.table_id ≡ seat.old.table_id }
        ensures kept { seat.new.me ≡ (record (seat.old.me.0) { parts = seat.new.me.0.parts }, seat.old.me.1) }
        ensures more { OnOk result (length self.new.lists.items ≡ length self.old.lists.items + 1) }
        ensures after { OnOk result (AreGathered seat.new.me.0.parts
            (map (λ v. v.items) self.new.lists.items) self.new.whole self.new.clean) }
    {
        let pairs = copied_pairs(alloc, slot.bucket())?;
        if self.gather(words, seat, slot) {
            self.whole += 1;
        } else if !pairs.is_empty() {
            self.clean = false;
        }
        self.lists.push(pairs)?;
        Ok(())
    }
}

impl<J: FileBrand, const ROOM: usize> Segments<J, ROOM> {
    /// The records of each bucket that was made, each copied under its lock. In a traced file the seats of the buckets
    /// come into this one.
    fn copied<M: Mode, R: Wait>(
        &self,
        rt: &R,
        words: &Words<M>,
        seat: &mut Seat<(), SeatView>,
        buckets: u32,
    ) -> Result<Copies, Memory>
        requires at { seat.old.table_id ≡ words.now.table }
        requires brand { M.traced ≡ true → words.now.table ≡ J.tables words.now.shard }
        requires bucketless { seat.old.me.0.parts ≡ [] }
        ensures few { IfOk result (λ copies. length copies.lists.items ≤ self.now.config.max) }
        ensures at { seat.new.table_id ≡ seat.old.table_id }
        ensures kept { seat.new.me ≡ (record (seat.old.me.0) { parts = seat.new.me.0.parts }, seat.old.me.1) }
        ensures gathered { IfOk result (λ copies.
            AreGathered seat.new.me.0.parts (map (λ v. v.items) copies.lists.items) copies.whole copies.clean) }
    {
        let mut copies = Copies {
            lists: Vec::with_capacity(self.alloc, buckets as usize)?,
            whole: 0,
            clean: true,
        };
        for number in 0..self.config.max() {
            let Some(lock) = self.made(number) else {
                break;
            };
            copies.add(self.alloc, words, seat, &lock.read(rt))?;
        }
        Ok(copies)
    }
}

impl<G: Gate, M: Mode, J: FileBrand, const ROOM: usize> SizedFile<G, M, J, ROOM> {
    /// Closes the file: how far it has grown, with the records of its buckets, and the acts of the hand
    /// that closes it. A hand that was not joined into this one is lost with its acts. Without memory
    /// for the records, the file and the hand are gone.
    ///
    /// What was done with a traced file is one legal history, and the closed file holds just what that leaves: where
    /// all buckets were met with their seats ([`Closed::gathered`]) and no split was under way, whatever hands were
    /// lost and whether the file records or not. That history goes on from all that the hand was told of. Where no call
    /// was left with a hand that wasn't joined, and no act was made on a bucket of the caller's own, the hand's acts
    /// are that history.
    ///
    /// No call can be under way, since the file is owned; the locks are taken nevertheless.
    pub fn close<R: Wait>(self, rt: &R, hand: Hand) -> Result<(Closed, Acts), Memory>
    where
        G: Drop,
        requires { IsOf self.state hand }
        ensures closed { IfOk result (λ r. IsClosing self.state hand r.0) }
        ensures acts { IfOk result (λ r. r.1 ≡ hand.acts) }
        ensures none_is_lost { IfOk result (λ r. NoneIsLost hand r.0.stamps) }
        ensures history { IfOk result (λ r. M.traced ≡ true → r.0.gathered ≡ true → r.0.root % 2 ≡ 0 →
            HasHistory self.state.listing r.0 r.1 hand) }
    {
        // Their laws: a code has one address, acts have an order, and full buckets hold no key twice together.
        address_is_only_bucket();
        acts_have_an_order();
        full_buckets_are_placed();
        let SizedFile {
            words,
            segments,
            gate: _,
        } = self;
        let Hand {
            mut seat,
            known,
            has_right: _,
            left: _,
            recording: _,
            acts,
        } = hand;
        let Copies {
            lists,
            whole,
            clean,
        } = segments.copied(rt, &words, &mut seat, known)?;
        let config = words.config;
        let last = words.end(seat);
        let gathered = clean && whole == RootWord::buckets_of(last.root);
        let closed = Closed::ended(config, last.root, last.stamps, lists, gathered);
        Ok((closed, Acts::new(acts)))
    }
}
