//! Settling: whether what the hands of a closed file have done is one legal history.
ghost use Rattle.std.specs.Prelude.{◌≡◌, ◌≢◌, ◌↔◌, Err, IsOk, IfOk, IfErr};
ghost use Rattle.lh_settling.specs.Acts.{acts_before};
ghost use Rattle.lh_settling.specs.ClosedFile.{IsClosed};
ghost use Rattle.lh_settling.specs.SettleFault.{IsDue};
ghost use Rattle.lh_settling.specs.Settled.{IsSettled, Settled};
ghost use Rattle.lh_settling.specs.declared.settle_fault.SettleFault.{SettleFault};
ghost use Rattle.lh_settling.specs.declared.settle_fault.SettleFault.TheVariants.{Memory};

use crate::act::Acts;
use crate::closed_file::Closed;
use crate::contents::{first_away, first_stray};
use crate::history::History;
use crate::laws::settling_has_one_answer;
use crate::order::{in_order, missing_stamp};
use crate::replay::replay;
use crate::settle_fault::SettleFault;
use lh_addr::laws::address_is_only_bucket;
use lh_bucket::Listing;
use std::alloc::Global;

/// Looks for the first fault of a closed file, and answers the history where there is none.
fn judge(
    alloc: Global,
    opening: &Listing,
    closed: &Closed,
    acts: &Acts,
) -> Result<History, SettleFault>
    ensures ok { IfOk result (IsSettled opening.now closed.now acts.now) }
    ensures err { IfErr result (IsDue opening.now closed.now acts.now) }
    ensures kept { IsClosed closed.now }
{
    if closed.split_open() {
        return Err(SettleFault::SplitUnderWay);
    }
    let history = in_order(alloc, acts.lines())?;
    if let Some(stamp) = missing_stamp(&history, closed.stamps()) {
        return Err(SettleFault::MissingStamp(stamp));
    }
    let records = replay(alloc, opening, &history, closed.records() as usize)?;
    if let Some(key) = first_stray(records, closed.lists()) {
        return Err(SettleFault::Content(key));
    }
    // Its law: a key is at home in the bucket of its address, and in no other.
    address_is_only_bucket();
    let root = closed.config().root(closed.buckets());
    match first_away(&root, closed.lists()) {
        Some((bucket, key)) => Err(SettleFault::Placed { bucket, key }),
        None => Ok(History::new(history)),
    }
}

/// Settles a closed file that was opened from a listing: whether these acts, in the order of their
/// stamps, are one legal history of a plain map that begins as the listing, and the file holds just
/// what they leave, each record in the bucket of its address. Answers the history, or the first
/// fault.
///
/// It takes time as sorting the acts does, as long as few keys share a hash. Unless memory runs out, it
/// answers the history exactly where the file is settled, and a fault exactly where that one is due.
///
/// ```text
/// let (closed, acts) = file.close(&rt, hand)?;
/// let history = settle(alloc, &opening, &closed, &acts)?;    // history.at(t) has the stamp t
/// ```
pub fn settle(
    alloc: Global,
    opening: &Listing,
    closed: &Closed,
    acts: &Acts,
) -> Result<History, SettleFault>
    ensures ok { IfOk result (IsSettled opening.now closed.now acts.now) }
    ensures err { IfErr result (IsDue opening.now closed.now acts.now) }
    ensures settled { result ≢ Err Memory → IsOk result ↔ Settled opening.now closed.now acts.now }
    ensures fault { (fault : SettleFault) → fault ≢ Memory → result ≢ Err Memory →
        (result ≡ Err fault) ↔ IsDue opening.now closed.now acts.now fault }
{
    // Its laws make both answers exact: one history at most, and one fault.
    settling_has_one_answer();
    judge(alloc, opening, closed, acts)
}

/// Settles a snapshot of a file that records, after the run: whether those acts that came before it are one legal
/// history from the listing on that the file was opened from, and the snapshot holds just what they leave. Answers
/// their history, or the first fault.
pub fn settle_snapshot(
    alloc: Global,
    opening: &Listing,
    snapshot: &Closed,
    acts: &Acts,
) -> Result<History, SettleFault>
    ensures ok { IfOk result (IsSettled opening.now snapshot.now (acts_before snapshot.now.stamps acts.now)) }
    ensures settled { result ≢ Err Memory →
        IsOk result ↔ Settled opening.now snapshot.now (acts_before snapshot.now.stamps acts.now) }
    ensures err { IfErr result (IsDue opening.now snapshot.now (acts_before snapshot.now.stamps acts.now)) }
{
    let before = acts.before(alloc, snapshot.stamps())?;
    settle(alloc, opening, snapshot, &before)
}
