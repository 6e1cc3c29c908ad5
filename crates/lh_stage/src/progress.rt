//! How far a test has come.

use std::sync::atomic::{AtomicU64, Ordering};
use std::thread;

/// How many turns a wait may take before its test fails.
const TURNS: u32 = 10_000_000;

/// How many turns something that may not happen is given to happen.
const REST: u32 = 10_000;

/// How far a test has come: a number that only rises, for which threads wait.
#[derive(Drop)]
pub struct Progress {
    step: AtomicU64,
    failed: AtomicU64,
}

impl Progress {
    pub fn new() -> Progress {
        Progress {
            step: AtomicU64::new(0),
            failed: AtomicU64::new(0),
        }
    }

    pub fn step(&self) -> u64 {
        self.step.load(Ordering::SeqCst)
    }

    pub fn reach(&self, step: u64) {
        self.step.fetch_max(step, Ordering::SeqCst);
    }

    /// Waits until the test has come to a step, or for so many turns: whether it has.
    fn comes_to(&self, step: u64, turns: u32) -> bool {
        for _turn in 0..turns {
            if self.step() >= step {
                return true;
            }
            thread::yield_now();
        }
        false
    }

    /// Waits until the test has come to a step, or for so many turns that the test fails.
    pub fn wait(&self, step: u64) {
        if !self.comes_to(step, TURNS) {
            self.fail();
        }
    }

    /// Gives the test turns to come to a step to which it may not come, and fails if it does.
    pub fn rest(&self, step: u64) {
        if self.comes_to(step, REST) {
            self.fail();
        }
    }

    pub fn fail(&self) {
        self.failed.fetch_add(1, Ordering::SeqCst);
    }

    /// Whether some wait took too many turns, the test came to a step too soon, or it was told to fail.
    pub fn has_failed(&self) -> bool {
        self.failed.load(Ordering::SeqCst) > 0
    }
}
