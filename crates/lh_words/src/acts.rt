//! The stamps of acts. An act that is entered in the history of a traced file has the bucket's seat with the hand for the
//! time of its stamp.
ghost use Rattle.std.specs.Prelude.{◌≡◌, ◌+◌, ◌<◌, ◌≤◌, true, false, None, [], ◌∷◌, length, All};
ghost use Rattle.lh_bucket.specs.Bucket.{Seen, content};
ghost use Rattle.lh_bucket.specs.Change.{call_of, reply_of};
ghost use Rattle.lh_bucket.specs.PlainMap.{reply};
ghost use Rattle.lh_bucket.specs.declared.call.Call.{Call};
ghost use Rattle.lh_bucket.specs.declared.call.Call.TheVariants.{Search};
ghost use Rattle.lh_bucket.specs.declared.call.Reply.{Reply};

use crate::mode::Mode;
use crate::offsets::STAMPS;
use crate::perches::taken;
use crate::plays::{Deed, DrawOutside, DrawStamp, GiveBack, TakeIn};
use crate::seat_view::SeatView;
use crate::table::WordTable;
use atomic_table::{Perch, Seat};
use lh_bucket::{Change, ChangeReply, SizedBucket};
use lh_page::Key;
use std::marker::Brand;
use std::sync::Wait;

/// What a stamp is drawn for: a call, its reply, and the bucket as the call leaves it.
pub trait Stamped {
    ghost call: { Self → Call };

    ghost reply: { Self → Reply };

    ghost bucket: { Self → Seen };
}

/// A change that a bucket has served, and its reply.
#[derive(Clone, Copy)]
pub struct StampedChange<'a, const ROOM: usize> {
    pub change: Change<'a>,
    pub reply: ChangeReply,
    pub bucket: &'a SizedBucket<ROOM>,
}

impl<'a, const ROOM: usize> Stamped for StampedChange<'a, ROOM> {
    ghost call = { λ act. call_of act.change };

    ghost reply = { λ act. reply_of act.reply };

    ghost bucket = { λ act. act.bucket.now };
}

/// A search of a bucket, which needn't have answered yet: the answer is what the bucket has now.
#[derive(Clone, Copy)]
pub struct StampedSearch<'a, const ROOM: usize> {
    pub key: &'a Key,
    pub bucket: &'a SizedBucket<ROOM>,
}

impl<'a, const ROOM: usize> Stamped for StampedSearch<'a, ROOM> {
    ghost call = { λ act. Search act.key.now };

    ghost reply = { λ act. reply (content act.bucket.now) (Search act.key.now) };

    ghost bucket = { λ act. act.bucket.now };
}

impl<M: Mode> WordTable<M> {
    ghost use Rattle.lh_addr.specs.Fnv.{code_of};
    ghost use Rattle.lh_bucket.specs.PlainMap.{key_of};
    ghost use Rattle.lh_words.specs.History.Buckets.{owns, HasServedCall};
    ghost use Rattle.lh_words.specs.Seats.{with_act, holder, met_in};

    /// The step of [`stamp`](Self::stamp), which picks the deed by the act.
    // Inlined: it is one step.
    #[inline(always)]
    fn stamp_deed<D: Deed, A: Stamped>(&self, seat: &mut Seat<(), SeatView>, _act: &A) -> u64
        requires at { seat.old.table_id ≡ self.now.id }
        requires live { 0 < seat.old.me.0.view.initial }
        requires left { 0 < seat.old.me.0.view.left }
        ensures at { seat.new.table_id ≡ seat.old.table_id }
        ensures newest { All (λ x. x < result) seat.old.me.0.view.stamps }
        ensures few { seat.old.me.0.view.inserted + seat.old.me.0.view.deleted ≤ length seat.old.me.0.view.stamps }
        ensures acted { seat.new.me
            ≡ (with_act true D.call D.reply None seat.old.me.0.parts result seat.old.me.0, seat.old.me.1) }
    {
        self.words
            .shared
            .fetch_add::<DrawOutside<D>>(seat, STAMPS, 1)
    }

    /// Stamps an act outside the history: the file isn't traced, or the bucket isn't the file's.
    #[inline(always)]
    pub fn stamp<A: Stamped>(&self, seat: &mut Seat<(), SeatView>, act: &A) -> u64
        requires at { seat.old.table_id ≡ self.now.id }
        requires live { 0 < seat.old.me.0.view.initial }
        requires left { 0 < seat.old.me.0.view.left }
        ensures at { seat.new.table_id ≡ seat.old.table_id }
        ensures newest { All (λ x. x < result) seat.old.me.0.view.stamps }
        ensures few { seat.old.me.0.view.inserted + seat.old.me.0.view.deleted ≤ length seat.old.me.0.view.stamps }
        ensures acted { seat.new.me ≡ (
          with_act true (A.call act.now) (A.reply act.now) None seat.old.me.0.parts result seat.old.me.0,
          seat.old.me.1,
        ) }
    {
        self.stamp_deed::<Brand, _>(seat, act)
    }

    /// The step of [`enter`](Self::enter), which picks the deed by the act and by what lay on the perch.
    // Inlined: it is one step.
    #[inline(always)]
    fn enter_deed<D: Deed, A: Stamped>(
        &self,
        seat: &mut Seat<(), SeatView>,
        _act: &A,
        _perch: &Perch<(), SeatView>,
    ) -> u64
        requires at { seat.old.table_id ≡ self.now.id }
        requires live { 0 < seat.old.me.0.view.initial }
        requires left { 0 < seat.old.me.0.view.left }
        requires serves { (p : Seen) × (seat.old.me.0.parts ≡ p ∷ [])
            × (owns (code_of (key_of D.call)) p ≡ true) × HasServedCall p D.call D.reply D.bucket }
        requires met { D.was ≡ met_in seat.old.me.0.parts (key_of D.call) }
        ensures at { seat.new.table_id ≡ seat.old.table_id }
        ensures newest { All (λ x. x < result) seat.old.me.0.view.stamps }
        ensures above { seat.old.me.0.view.floor ≤ result }
        ensures few { seat.old.me.0.view.inserted + seat.old.me.0.view.deleted ≤ length seat.old.me.0.view.stamps }
        ensures acted { seat.new.me
            ≡ (with_act false D.call D.reply D.was (D.bucket ∷ []) result seat.old.me.0, seat.old.me.1) }
    {
        self.words.shared.fetch_add::<DrawStamp<D>>(seat, STAMPS, 1)
    }

    /// Stamps an act and enters it in the history, by a hand with which the seat of its bucket lies for the time of the
    /// stamp. The seat comes back. What the act met is what the bucket had under the key before.
    pub fn enter<R: Wait, A: Stamped>(
        &self,
        rt: &R,
        perch: &Perch<(), SeatView>,
        seat: &mut Seat<(), SeatView>,
        act: &A,
    ) -> (u64, Seat<(), SeatView>)
        requires at { seat.old.table_id ≡ self.now.id }
        requires there { perch.now.table_id ≡ self.now.id }
        requires free { seat.old.me.1 ≡ [] }
        requires bucketless { seat.old.me.0.parts ≡ [] }
        requires live { 0 < seat.old.me.0.view.initial }
        requires left { 0 < seat.old.me.0.view.left }
        requires serves { (p : Seen) × (perch.now.view ≡ holder (p ∷ []))
            × (owns (code_of (key_of (A.call act.now))) p ≡ true)
            × HasServedCall p (A.call act.now) (A.reply act.now) (A.bucket act.now) }
        ensures at { seat.new.table_id ≡ seat.old.table_id }
        ensures newest { All (λ x. x < result.0) seat.old.me.0.view.stamps }
        ensures above { seat.old.me.0.view.floor ≤ result.0 }
        ensures few { seat.old.me.0.view.inserted + seat.old.me.0.view.deleted ≤ length seat.old.me.0.view.stamps }
        ensures acted { seat.new.me ≡ (
          with_act false (A.call act.now) (A.reply act.now) (met_in perch.now.view.parts (key_of (A.call act.now))) []
              result.0 seat.old.me.0,
          [],
        ) }
        ensures table { result.1.table_id ≡ self.now.id }
        ensures bucket_seat { result.1.me ≡ (holder (A.bucket act.now ∷ []), []) }
    {
        let bucket_seat = taken(rt, perch);
        self.words.shared.join_seat::<TakeIn>(seat, bucket_seat);
        let stamp = self.enter_deed::<Brand, _>(seat, act, perch);
        (stamp, self.words.shared.split_seat::<GiveBack>(seat))
    }
}
