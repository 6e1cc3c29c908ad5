//! How the words of a file begin: the first seat, and the seats of the buckets that are dealt out of it.
ghost use Rattle.std.specs.Prelude.{◌≡◌, [], IfOk};
ghost use Rattle.lh_words.specs.Dealing.{dealt_seat, dealt_bucket_seat};
ghost use Rattle.lh_words.specs.Seats.{first_seat};

use crate::mode::Mode;
use crate::offsets::{ROOT, WIDTH};
use crate::plays::DealOut;
use crate::seat_view::SeatView;
use crate::table::WordTable;
use atomic_table::{Seat, Table};
use lh_addr::RootWord;
use lh_addr::laws::address_is_only_bucket;
use lh_bucket::laws::listing_is_placed;
use lh_bucket::{Listing, Memory};
use std::alloc::Global;

impl<M: Mode> WordTable<M> {
    /// The words of a file that is opened from a listing, with the first seat, which has all buckets where the file is
    /// traced. Fails only when out of memory.
    pub fn begun(
        alloc: Global,
        listing: &Listing,
    ) -> Result<(WordTable<M>, Seat<(), SeatView>), Memory>
        ensures listing { IfOk result (λ made. made.0.listing ≡ listing.now) }
        ensures table { IfOk result (λ made. made.1.table_id ≡ made.0.id) }
        ensures seat { IfOk result (λ made. made.1.me ≡ (first_seat M.traced listing.now, [])) }
    {
        // Their laws: each bucket of the listing has just the records of its address, and each code has one address.
        listing_is_placed();
        address_is_only_bucket();
        let mut words = [0; WIDTH];
        words[ROOT] = RootWord::new(listing.buckets(), false);
        let (words, seat) = Table::of_words(alloc, &words, listing)?;
        Ok((WordTable { words }, seat))
    }

    /// The seat of the next bucket, out of a seat that has it first.
    pub fn deal_out(&self, seat: &mut Seat<(), SeatView>) -> Seat<(), SeatView>
        requires { seat.old.table_id ≡ self.now.id }
        ensures at { seat.new.table_id ≡ seat.old.table_id }
        ensures left { seat.new.me ≡ (dealt_seat seat.old.me.0, seat.old.me.1) }
        ensures table { result.table_id ≡ self.now.id }
        ensures bucket_seat { result.me ≡ (dealt_bucket_seat seat.old.me.0, []) }
    {
        self.words.shared.split_seat::<DealOut>(seat)
    }
}
