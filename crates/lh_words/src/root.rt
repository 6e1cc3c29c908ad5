//! The root word: the number of buckets, and the right to split.
ghost use Rattle.std.specs.Prelude.{◌≡◌, ◌≢◌, ◌%◌, ◌^◌, ◌<◌, true, false};

use crate::mode::Mode;
use crate::offsets::ROOT;
use crate::plays::{ClaimRight, DropRight, LoadRoot, MovePointer};
use crate::seat_view::SeatView;
use crate::table::WordTable;
use atomic_table::Seat;
use lh_addr::RootWord;

impl<M: Mode> WordTable<M> {
    ghost use Rattle.lh_addr.specs.RootWord.{buckets_of};
    ghost use Rattle.lh_words.specs.Plays.{IsFound, seen_root};
    ghost use Rattle.lh_words.specs.Seats.{with_view, pointed_seat};
    ghost use Rattle.lh_words.specs.Views.{rooted};

    /// The root word as it is now.
    #[inline(always)]
    pub fn root_word(&self, seat: &mut Seat<(), SeatView>) -> u64
        requires at { seat.old.table_id ≡ self.now.id }
        requires live { 0 < seat.old.me.0.view.initial }
        ensures at { seat.new.table_id ≡ seat.old.table_id }
        ensures found { IsFound seat.old.me.0.view result }
        ensures seen { seat.new.me ≡ seen_root seat.old.me result seat.old.me.0.view.has_right }
    {
        self.words.shared.load::<LoadRoot>(seat, ROOT)
    }

    /// Asks for the right to split where the root word is still this one, with no split under way: the root word that
    /// was found. The right is got where that is the same.
    #[inline(always)]
    pub fn claim_right(&self, seat: &mut Seat<(), SeatView>, word: u64) -> u64
        requires at { seat.old.table_id ≡ self.now.id }
        requires live { 0 < seat.old.me.0.view.initial }
        requires even { word % 2 ≡ 0 }
        requires below { buckets_of word < seat.old.me.0.view.max }
        requires small { buckets_of word < 2 ^ 32 }
        ensures at { seat.new.table_id ≡ seat.old.table_id }
        ensures found { IsFound seat.old.me.0.view result }
        ensures had_none { result ≡ word → seat.old.me.0.view.has_right ≡ false }
        ensures got { result ≡ word → seat.new.me ≡ seen_root seat.old.me result true }
        ensures busy { result ≢ word →
            seat.new.me ≡ seen_root seat.old.me result seat.old.me.0.view.has_right }
    {
        let claimed = RootWord::new(RootWord::buckets_of(word), true);
        self.words
            .shared
            .compare_exchange::<ClaimRight>(seat, ROOT, word, claimed)
    }

    /// Gives the right to split up, with no bucket made.
    pub fn drop_right(&self, seat: &mut Seat<(), SeatView>)
        requires at { seat.old.table_id ≡ self.now.id }
        requires live { 0 < seat.old.me.0.view.initial }
        requires right { seat.old.me.0.view.has_right ≡ true }
        requires unmoved { seat.old.me.0.moved ≡ false }
        ensures at { seat.new.table_id ≡ seat.old.table_id }
        ensures dropped { seat.new.me ≡ (
          with_view seat.old.me.0 (rooted seat.old.me.0.view seat.old.me.0.view.known false),
          seat.old.me.1,
        ) }
    {
        self.words.shared.fetch_sub::<DropRight>(seat, ROOT, 1);
    }

    /// Moves the split pointer past the bucket that was divided, and gives the right to split up. In a traced file its
    /// records were moved before.
    pub fn move_pointer(&self, seat: &mut Seat<(), SeatView>)
        requires at { seat.old.table_id ≡ self.now.id }
        requires live { 0 < seat.old.me.0.view.initial }
        requires right { seat.old.me.0.view.has_right ≡ true }
        requires moved { M.traced ≡ true → seat.old.me.0.moved ≡ true }
        ensures at { seat.new.table_id ≡ seat.old.table_id }
        ensures pointed { seat.new.me ≡ (pointed_seat seat.old.me.0, seat.old.me.1) }
    {
        self.words.shared.fetch_add::<MovePointer>(seat, ROOT, 1);
    }
}
