//! A common start, and a common end.

use std::sync::Wait;
use std::sync::atomic::{AtomicU64, Ordering};
use std::thread::yield_now;

/// At it threads wait for the others.
#[derive(Drop)]
pub struct Starter {
    ready: AtomicU64,
    gone: AtomicU64,
    over: AtomicU64,
}

impl Starter {
    pub fn new() -> Starter {
        Starter {
            ready: AtomicU64::new(0),
            gone: AtomicU64::new(0),
            over: AtomicU64::new(0),
        }
    }

    /// Waits for [`start`](Starter::start).
    pub fn stand_by(&self, rt: &impl Wait) {
        self.ready.fetch_add(1, Ordering::SeqCst);
        for _ in rt.forever() {
            if self.gone.load(Ordering::SeqCst) != 0 {
                return;
            }
            yield_now();
        }
    }

    /// Waits until this many threads stand by.
    pub fn await_all(&self, rt: &impl Wait, threads: u64) {
        for _ in rt.forever() {
            if self.ready.load(Ordering::SeqCst) >= threads {
                return;
            }
            yield_now();
        }
    }

    /// Lets all go that stand by, and those that come later.
    pub fn start(&self) {
        self.gone.store(1, Ordering::SeqCst);
    }

    /// Lets all end that go on until they are told.
    pub fn end(&self) {
        self.over.store(1, Ordering::SeqCst);
    }

    /// Whether those that go on are to end.
    #[inline]
    pub fn is_over(&self) -> bool {
        self.over.load(Ordering::SeqCst) != 0
    }
}
