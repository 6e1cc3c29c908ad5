//! Snapshots.
ghost use Rattle.std.specs.Prelude.{◌≡◌, ℕ, ◌≤◌, true, List, IfOk, IfErr};
ghost use Rattle.lh_addr.specs.RootWord.{buckets_of};
ghost use Rattle.lh_file.specs.Calls.Served.{IsNotSpent};
ghost use Rattle.lh_file.specs.FileState.{IsOf};
ghost use Rattle.lh_file.specs.Snapshots.Hands.{HasSurveyed};
ghost use Rattle.lh_file.specs.Snapshots.Moments.{IsSnapshot};
ghost use Rattle.lh_file.specs.Words.HandState.{knowing, told_of};
ghost use Rattle.lh_words.specs.declared.seat_view.Entry.{Entry};
ghost use Rattle.lh_settling.specs.ClosedFile.{IsWhole};

use crate::buckets::brand::FileBrand;
use crate::buckets::segments::missing_bucket;
use crate::fault::FileFault;
use crate::file::SizedFile;
use crate::gate::{Gate, Point};
use crate::snapshots::held::{check_held, copied_held};
use crate::words::hand::Hand;
use lh_addr::RootWord;
use lh_addr::laws::address_is_only_bucket;
use lh_bucket::laws::records_make_a_map;
use lh_settling::Closed;
use lh_settling::laws::full_buckets_are_placed;
use lh_words::Mode;
use std::sync::Wait;

impl<G: Gate, M: Mode, J: FileBrand, const ROOM: usize> SizedFile<G, M, J, ROOM> {
    /// The file at one moment, while calls go on: as it would be, had it been closed then with no split under way. Its
    /// [listing](Closed::into_known_listing) can be written as an image. In a traced file it holds just what the first
    /// [`stamps`](Closed::stamps) acts of its one legal history leave; of any other, the recorded acts with stamps
    /// below that number can be [settled](crate::settle_snapshot) with it after the run.
    ///
    /// The locks of all buckets are taken shared, in the order of their numbers. The moment is when the last one was
    /// got; then each bucket is let go as soon as it is copied. A write to a bucket that is held waits, and so do
    /// searches of it behind that write; in a traced file a search also waits while its bucket's seat is taken. No
    /// right to split is needed, and no stamp is drawn.
    ///
    /// Fails when out of memory, or at a bucket that isn't what it has to be. Then nothing is held.
    pub fn snapshot<R: Wait>(&self, rt: &R, hand: &mut Hand) -> Result<Closed, FileFault>
        requires { IsOf self.now.state hand.old }
        ensures config { IfOk result (λ snapshot. snapshot.config ≡ self.now.state.config) }
        ensures whole { IfOk result IsWhole }
        ensures size { IfOk result (λ snapshot. hand.new.view.known ≤ buckets_of snapshot.root) }
        ensures later { IfOk result (λ snapshot. hand.old.view.floor ≤ snapshot.stamps) }
        ensures told { IfOk result (λ snapshot. (known : ℕ) × (log : List Entry)
            × (hand.new ≡ told_of (knowing hand.old known) snapshot.stamps log)
            × (M.traced ≡ true →
            IsSnapshot self.now.state.listing snapshot hand.old.entries hand.old.logs log)) }
        ensures surveyed { HasSurveyed hand.old hand.new }
        ensures fault { IfErr result IsNotSpent }
        ensures of { IsOf self.now.state hand.new }
    {
        // Their laws: a code has one address, a map has each record's key, and full buckets hold no key twice together.
        address_is_only_bucket();
        records_make_a_map();
        full_buckets_are_placed();
        let words = &self.words;
        let buckets = self.buckets(hand);
        self.gate.at(Point::Read);
        let guards = self.segments.hold_all(rt, buckets)?;
        check_held(&words.config, &guards)?;
        let size = guards.len() as u32;
        let (acts, seats) = words.survey_held(rt, &mut hand.seat, &guards);
        self.gate.at(Point::Surveyed { buckets: size });
        if seats < guards.len() {
            return Err(missing_bucket(seats as u32, 0));
        }
        let lists = copied_held(words.alloc, &self.gate, guards)?;
        let root = RootWord::new(size, false);
        Ok(Closed::ended(words.config, root, acts, lists, false))
    }
}
