//! Workloads by the calls of a session: what one costs beside the file that it is of.
ghost use Rattle.lh_page.specs.Slots.{IsRoom};

use crate::contents::Contents;
use crate::meter::{Stopwatch, resident_bytes};
use crate::order::{Order, Room, Workload};
use crate::report::Outcome;
use crate::streams::{Inserts, Mixed, Part, Picks, Step, Stream};
use crate::tally::{Tally, either};
use crate::workloads::settings;
use anyhow::Result;
use lh_bucket::Reply;
use lh_store::{CallFault, Session, SizedOpenStore, WIDEST_ROOM};
use std::rt::{Clock, Files};
use std::sync::Wait;
use std::time::CpuClock;

/// A session, and what it was told.
#[derive(Drop)]
struct SessionCaller<'a, S: Session> {
    session: &'a mut S,
    contents: Contents,
    tally: Tally,
}

impl<S: Session> SessionCaller<'_, S> {
    /// Searches for a record, and compares its value where that stands: whether there is none, or just the one due.
    #[inline]
    fn compare(&mut self, record: u64, is_there: bool) -> Result<bool, CallFault> {
        let contents = self.contents;
        let due = |bytes: &[u8]| contents.are_bytes(bytes, record);
        let met = self.session.with_value(&contents.key_bytes(record), due)?;
        Ok(match met {
            Some(is_due) => {
                self.tally.note_found();
                is_due
            }
            None => {
                self.tally.note(&Reply::Absent);
                !is_there
            }
        })
    }

    /// Makes a call: whether its reply is one that is due.
    #[inline]
    fn make(&mut self, step: Step) -> Result<bool, CallFault> {
        let contents = self.contents;
        let (reply, is_due) = match step {
            Step::Search { record, is_there } => return self.compare(record, is_there),
            Step::Insert { record, is_new } => {
                let (key, value) = (contents.key_bytes(record), contents.value_bytes(record));
                let was_new = self.session.put(&key, &value)?;
                (
                    either(was_new, Reply::Inserted, Reply::Exists),
                    was_new || !is_new,
                )
            }
            Step::Delete { record } | Step::Replace { record, .. } | Step::Count { record } => {
                let was_there = self.session.remove(&contents.key_bytes(record))?;
                (either(was_there, Reply::Deleted, Reply::Absent), true)
            }
        };
        self.tally.note(&reply);
        Ok(is_due)
    }

    /// Makes this many calls of a stream. One that fails, or has not the reply due, counts as wrong.
    fn play<P: Stream>(&mut self, mut stream: P, calls: u64) {
        for _ in 0..calls {
            match self.make(stream.next()) {
                Ok(true) => {}
                _ => self.tally.note_wrong(),
            }
        }
    }
}

/// Adds each `stride`th record: how that went.
fn load<S: Session>(session: &mut S, order: &Order, stride: u64) -> Tally {
    let mut caller = SessionCaller {
        session,
        contents: order.contents(),
        tally: Tally::new(),
    };
    caller.play(Inserts { record: 0, stride }, order.records);
    caller.tally
}

/// Times the calls of a stream, in a table that has this many records before them.
fn timed<S: Session, P: Stream, R: Clock + CpuClock>(
    rt: &R,
    session: &mut S,
    order: &Order,
    stream: P,
    records: u64,
) -> Result<Outcome> {
    let mut caller = SessionCaller {
        session,
        contents: order.contents(),
        tally: Tally::new(),
    };
    let watch = Stopwatch::start(rt)?;
    caller.play(stream, order.calls());
    let spent = watch.stop(rt)?;
    let tally = caller.tally;
    let due = records
        .wrapping_add(tally.inserted)
        .wrapping_sub(tally.deleted);
    let is_due = caller.session.len() == due && tally.replies() == order.calls();
    Ok(Outcome::new(order.calls(), spent, tally, is_due))
}

/// Runs a workload on an empty table. The process had this many bytes of memory before that was made.
fn run_on<S: Session, R: Clock + CpuClock + Files + AllocGlobal>(
    rt: &R,
    session: &mut S,
    order: &Order,
    before: u64,
) -> Result<Outcome> {
    if order.workload == Workload::Inserts {
        let stream = Inserts {
            record: 0,
            stride: 1,
        };
        let outcome = timed(rt, session, order, stream, 0)?;
        return Ok(Outcome {
            resident_bytes: resident_bytes(rt).saturating_sub(before),
            ..outcome
        });
    }
    let is_mixed = order.workload == Workload::Mixed;
    let loaded = load(session, order, if is_mixed { 2 } else { 1 });
    let outcome = if is_mixed {
        timed(
            rt,
            session,
            order,
            Mixed::of_thread(order, 0),
            order.records,
        )?
    } else {
        timed(rt, session, order, Picks::new(order), order.records)?
    };
    Ok(Outcome {
        is_due: outcome.is_due && loaded.wrong == 0 && loaded.inserted == order.records,
        ..outcome
    })
}

/// Runs a workload by a session of a table whose records have this much room.
fn run_sized<R, const ROOM: usize>(rt: &R, order: &Order) -> Result<Outcome>
where
    R: Wait + Clock + CpuClock + Files + AllocGlobal,
    requires { IsRoom ROOM }
{
    let before = resident_bytes(rt);
    let mut store = SizedOpenStore::<ROOM>::new(rt.alloc(), settings()?)?;
    let mut session = store.session(rt)?;
    run_on(rt, &mut session, order, before)
}

/// Runs a workload by a session.
pub fn run_by_session<R>(rt: &R, order: &Order) -> Result<Outcome>
where
    R: Wait + Clock + CpuClock + Files + AllocGlobal,
{
    match order.room {
        Room::Any => run_sized::<R, WIDEST_ROOM>(rt, order),
        Room::Bytes64 => run_sized::<R, 64>(rt, order),
        Room::Bytes32 => run_sized::<R, 32>(rt, order),
    }
}
