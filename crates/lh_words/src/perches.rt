//! Where the seat of a bucket rests while no act is made on the bucket.
ghost use Rattle.std.specs.Prelude.{◌≡◌, [], IfSome};

use crate::seat_view::SeatView;
use atomic_table::{Perch, Seat};
use std::sync::Wait;
use std::thread;

/// The word of a perch while somebody has its seat.
const AWAY: u64 = 0;

/// The least word of a perch while the seat rests there.
const AT_REST: u64 = 2;

/// Waits until a seat rests there again, for a moment at least.
// It only loads: an exchange would take the word's line from whoever gives the seat back.
fn wait_for<R: Wait>(rt: &R, perch: &Perch<(), SeatView>) {
    for _ in rt.forever() {
        thread::yield_now();
        if perch.load() >= AT_REST {
            return;
        }
    }
}

/// The seat that rests there. Another search of the bucket may have it for the time of a stamp.
pub fn taken<R: Wait>(rt: &R, perch: &Perch<(), SeatView>) -> Seat<(), SeatView>
    ensures table { result.table_id ≡ perch.now.table_id }
    ensures me { result.me ≡ (perch.now.view, []) }
{
    for _ in rt.forever() {
        if let (_, Some(seat)) = perch.take(AWAY) {
            return seat;
        }
        wait_for(rt, perch);
    }
    unreachable!()
}

/// The seat that rests there, if one does.
pub fn resting(perch: &Perch<(), SeatView>) -> Option<Seat<(), SeatView>>
    ensures table { IfSome result (λ seat. seat.table_id ≡ perch.now.table_id) }
    ensures me { IfSome result (λ seat. seat.me ≡ (perch.now.view, [])) }
{
    perch.take(AWAY).1
}

/// A perch of this seat, which rests there.
pub fn perch_of(seat: Seat<(), SeatView>) -> Perch<(), SeatView>
    requires { seat.me.1 ≡ [] }
    ensures table { result.table_id ≡ seat.table_id }
    ensures view { result.view ≡ seat.me.0 }
{
    let perch = Perch::new(&seat, AWAY);
    give_back(&perch, seat);
    perch
}

/// Gives a perch its seat back.
// Only who has the seat gives it back, so the perch doesn't refuse it. That isn't proved: nothing is known of a perch's
// word.
pub fn give_back(perch: &Perch<(), SeatView>, seat: Seat<(), SeatView>)
    requires table { seat.table_id ≡ perch.now.table_id }
    requires me { seat.me ≡ (perch.now.view, []) }
{
    let _ = perch.give(seat, AWAY, AT_REST);
}
