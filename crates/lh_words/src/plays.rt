//! The kinds of atomic step that threads take on a file's words: what each does to the hand that takes
//! it, and what it tells.
ghost use Rattle.std.specs.Prelude.{ℕ, List, [], Option, None};
ghost use Rattle.lh_bucket.specs.Bucket.{Seen};
ghost use Rattle.lh_bucket.specs.Listing.{Lists};
ghost use Rattle.lh_bucket.specs.declared.call.Call.{Call};
ghost use Rattle.lh_bucket.specs.declared.call.Call.TheVariants.{Search};
ghost use Rattle.lh_bucket.specs.declared.call.Reply.{Reply};
ghost use Rattle.lh_bucket.specs.declared.call.Reply.TheVariants.{Absent};
ghost use Rattle.lh_words.specs.Dealing.{dealt_seat, dealt_bucket_seat};
ghost use Rattle.lh_words.specs.Seats.{holder, unowned_bucket, no_listing, with_parts, partless, holder_of, mover};
ghost use Rattle.lh_words.specs.Seats.{upper_half, lessened_seat, branch_seat, joined_seats};
ghost use Rattle.lh_words.specs.Plays.{loaded_root, claimed, pointed, dropped, drawn_outside, drawn, told};
ghost use Rattle.lh_words.specs.Plays.{counted_insert, counted_delete, loaded_inserts, loaded_deletes};

use crate::mode::Mode;
use crate::seat_view::SeatView;
use atomic_table::{Join, Play, Split};
use std::marker::{Brand, PhantomData};

/// A load of the root word.
pub struct LoadRoot;

impl Play<(), SeatView> for LoadRoot {
    ghost then = { loaded_root };
}

/// A compare-exchange of the root word, from even to odd.
pub struct ClaimRight;

impl Play<(), SeatView> for ClaimRight {
    ghost then = { claimed };
}

/// An addition of 1 to the root word by the hand that has the right: one bucket more, and the right is
/// given up.
pub struct MovePointer;

impl Play<(), SeatView> for MovePointer {
    ghost then = { pointed };
}

/// A subtraction of 1 from the root word by the hand that has the right: it is given up.
pub struct DropRight;

impl Play<(), SeatView> for DropRight {
    ghost then = { dropped };
}

/// An act. Each call that draws its stamp picks it.
pub trait Deed {
    ghost call: { Call };

    ghost reply: { Reply };

    // What it met under its key.
    ghost was: { Option (List ℕ) };

    // The bucket as it is then.
    ghost bucket: { Seen };
}

impl Deed for Brand {
    ghost call = { Search [] };

    ghost reply = { Absent };

    ghost was = { None };

    ghost bucket = { unowned_bucket };
}

/// An addition of 1 to the stamp word, for an act outside the history.
pub struct DrawOutside<D> {
    of: PhantomData<D>,
}

impl<D: Deed> Play<(), SeatView> for DrawOutside<D> {
    ghost then = { drawn_outside D.call D.reply };
}

/// An addition of 1 to the count of inserts.
pub struct CountInsert;

impl Play<(), SeatView> for CountInsert {
    ghost then = { counted_insert };
}

/// An addition of 1 to the count of deletes.
pub struct CountDelete;

impl Play<(), SeatView> for CountDelete {
    ghost then = { counted_delete };
}

/// A load of the count of inserts.
pub struct LoadInserts;

impl Play<(), SeatView> for LoadInserts {
    ghost then = { loaded_inserts };
}

/// A load of the count of deletes.
pub struct LoadDeletes;

impl Play<(), SeatView> for LoadDeletes {
    ghost then = { loaded_deletes };
}

/// An addition of 1 to the stamp word, for an act on the file's bucket that lies with the hand.
pub struct DrawStamp<D> {
    of: PhantomData<D>,
}

impl<D: Deed> Play<(), SeatView> for DrawStamp<D> {
    ghost then = { drawn D.call D.reply D.was D.bucket };
}

/// A load of the root word with which a hand takes in the seat of a bucket.
pub struct TakeIn;

impl Join<SeatView> for TakeIn {
    ghost both = { with_parts };

    ghost spent = { holder [] };
}

/// A load of the root word with which the bucket goes back to a seat of its own.
pub struct GiveBack;

impl Split<SeatView> for GiveBack {
    ghost left = { partless };

    ghost right = { holder_of };
}

/// A load of the root word with which a seat gives the first of its buckets to a seat of its own.
pub struct DealOut;

impl Split<SeatView> for DealOut {
    ghost left = { dealt_seat };

    ghost right = { dealt_bucket_seat };
}

/// The two halves of a bucket that was split. Each call that moves a split picks them.
pub trait Halves {
    ghost low: { Seen };

    ghost high: { Seen };
}

impl Halves for Brand {
    ghost low = { unowned_bucket };

    ghost high = { unowned_bucket };
}

/// A load of the root word with which the seat of a bucket that was split becomes those of its halves.
pub struct MoveSplit<H> {
    of: PhantomData<H>,
}

impl<H: Halves> Split<SeatView> for MoveSplit<H> {
    ghost left = { mover H.low };

    ghost right = { λ _. upper_half H.high };
}

/// What a file was opened from. Each call of [`Tell`] picks it, since a step's promise can't read the table's key.
pub trait Opened {
    ghost listing: { Lists };
}

impl Opened for Brand {
    ghost listing = { no_listing };
}

/// A load of the stamp word, which tells of the history of a traced file, and of the buckets that lie with the hand.
pub struct Tell<M, O> {
    of: PhantomData<(M, O)>,
}

impl<M: Mode, O: Opened> Play<(), SeatView> for Tell<M, O> {
    ghost then = { told M.traced O.listing };
}

/// How many calls go to a new hand. Each call of [`Divide`] picks the number.
pub trait Amount {
    ghost calls: { ℕ };
}

impl Amount for Brand {
    ghost calls = { 0 };
}

/// A load of the root word with which a hand is divided.
pub struct Divide<A> {
    of: PhantomData<A>,
}

impl<A: Amount> Split<SeatView> for Divide<A> {
    ghost left = { lessened_seat A.calls };

    ghost right = { branch_seat A.calls };
}

/// A load of the root word with which two hands become one.
pub struct Unite;

impl Join<SeatView> for Unite {
    ghost both = { joined_seats };

    ghost spent = { holder [] };
}
