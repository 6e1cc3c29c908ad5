//! The counts of inserts and of deletes.
ghost use Rattle.std.specs.Prelude.{◌≡◌, ◌+◌, ◌<◌, ◌≤◌, length};
ghost use Rattle.lh_bucket.specs.Change.{reply_of};

use crate::mode::Mode;
use crate::offsets::{DELETES, INSERTS};
use crate::plays::{CountDelete, CountInsert, LoadDeletes, LoadInserts};
use crate::seat_view::SeatView;
use crate::table::WordTable;
use atomic_table::Seat;
use lh_bucket::ChangeReply;

impl<M: Mode> WordTable<M> {
    ghost use Rattle.lh_words.specs.Counting.{with_counts};

    /// Counts the reply of an act that has drawn its stamp.
    // Inlined: the reply is known to many a call.
    #[inline(always)]
    pub fn count(&self, seat: &mut Seat<(), SeatView>, reply: ChangeReply)
        requires at { seat.old.table_id ≡ self.now.id }
        requires live { 0 < seat.old.me.0.view.initial }
        requires room { seat.old.me.0.view.inserted + seat.old.me.0.view.deleted < length seat.old.me.0.view.stamps }
        ensures at { seat.new.table_id ≡ seat.old.table_id }
        ensures counted { seat.new.me ≡ (with_counts (reply_of reply) seat.old.me.0, seat.old.me.1) }
    {
        let shared = &self.words.shared;
        match reply {
            ChangeReply::Inserted => {
                shared.fetch_add::<CountInsert>(seat, INSERTS, 1);
            }
            ChangeReply::Deleted => {
                shared.fetch_add::<CountDelete>(seat, DELETES, 1);
            }
            _ => {}
        }
    }

    /// How many inserts have added a record, and how many deletes have removed one. Each is no less than the seat's
    /// own.
    pub fn counts(&self, seat: &mut Seat<(), SeatView>) -> (u64, u64)
        requires at { seat.old.table_id ≡ self.now.id }
        requires live { 0 < seat.old.me.0.view.initial }
        ensures at { seat.new.table_id ≡ seat.old.table_id }
        ensures same { seat.new.me ≡ seat.old.me }
        ensures inserted { seat.old.me.0.view.inserted ≤ result.0 }
        ensures deleted { seat.old.me.0.view.deleted ≤ result.1 }
    {
        let shared = &self.words.shared;
        let inserted = shared.load::<LoadInserts>(seat, INSERTS);
        let deleted = shared.load::<LoadDeletes>(seat, DELETES);
        (inserted, deleted)
    }
}
