//! The lanes of a picture, and how long a bucket is held in one.
ghost use Rattle.std.specs.Prelude.{◌≡◌, ◌≤◌, drop, length};
ghost use Rattle.lh_replay.specs.Lanes.{ends_at, lane_count, lane_of, lets_go, rehashes, rows_until, takes};

use lh_core::{Effect, Event, Refusal};

/// The lane of an event: 0 for the splitter, and the worker's number and 1 for a worker.
pub fn lane_of(event: &Event) -> u32
    ensures value { result ≡ lane_of event.now }
    ensures high { result ≤ 256 }
{
    match event {
        Event::Call(worker, _) => u32::from(*worker) + 1,
        Event::Read(worker) => u32::from(*worker) + 1,
        Event::Lock(worker) => u32::from(*worker) + 1,
        Event::Rehash(worker) => u32::from(*worker) + 1,
        Event::Act(worker) => u32::from(*worker) + 1,
        Event::Release(worker) => u32::from(*worker) + 1,
        _ => 0,
    }
}

/// How many lanes some events have: the splitter's, and those up to the greatest worker's.
pub fn lane_count(events: &[Event]) -> u32
    ensures value { result ≡ lane_count events.now }
    ensures high { result ≤ 257 }
{
    let mut lanes = 1;
    for event in events {
        lanes = lanes.max(lane_of(event) + 1);
    }
    lanes
}

/// Whether a worker goes on to another bucket by it.
pub fn rehashes(event: &Event) -> bool
    ensures { result ≡ rehashes event.now }
{
    matches!(event, Event::Rehash(_))
}

/// Whether what is held is let go by it.
fn lets_go(event: &Event) -> bool
    ensures { result ≡ lets_go event.now }
{
    match event {
        Event::Rehash(_) => true,
        Event::Release(_) => true,
        Event::SplitRelease => true,
        _ => false,
    }
}

/// Whether a bucket is locked by it.
fn takes(event: &Event) -> bool
    ensures { result ≡ takes event.now }
{
    match event {
        Event::Lock(_) => true,
        Event::SplitLock => true,
        _ => false,
    }
}

/// Whether a step of a lane was accepted that locks a bucket, or lets one go.
fn ends_at(is_lock: bool, lane: u32, event: &Event, entry: &Result<Effect, Refusal>) -> bool
    ensures { result ≡ ends_at is_lock lane event.now entry.now }
{
    if entry.is_err() || lane_of(event) != lane {
        return false;
    }
    if is_lock {
        takes(event)
    } else {
        lets_go(event)
    }
}

/// How many rows there are from one on to the next accepted step of a lane that locks a bucket, or lets one go: with
/// the row of that step, or all where there is none.
pub fn rows_until(
    is_lock: bool,
    lane: u32,
    events: &[Event],
    entries: &[Result<Effect, Refusal>],
    from: usize,
) -> usize
    requires same { length entries.now ≡ length events.now }
    requires from { from ≤ length events.now }
    ensures { result ≡ rows_until is_lock lane (drop from events.now) (drop from entries.now) }
{
    for row in from..events.len() {
        if ends_at(is_lock, lane, &events[row], &entries[row]) {
            return row - from + 1;
        }
    }
    events.len() - from
}
