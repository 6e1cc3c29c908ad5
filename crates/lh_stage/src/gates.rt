//! What gates do to the calls that stand at them.

use crate::progress::Progress;
use lh_file::{Gate, Point};
use std::thread;

/// What a gate does at a point: where the test has come to step `from`, it has come to step `to`, and
/// the call is held until it comes to step `until`.
#[derive(Clone, Copy)]
pub struct Hold {
    pub from: u64,
    pub point: Point,
    pub to: u64,
    pub until: u64,
}

impl Hold {
    /// Holds a call by the first of these that is for its point and for the step of the test: by which one.
    pub fn call(holds: &[Hold], progress: &Progress, point: Point) -> Option<Hold> {
        for hold in holds {
            if hold.point == point && hold.from == progress.step() {
                progress.reach(hold.to);
                progress.wait(hold.until);
                return Some(*hold);
            }
        }
        None
    }
}

/// A gate that waits for one turn at every point.
#[derive(Clone, Copy)]
pub struct GiveWay;

impl Gate for GiveWay {
    fn at(&self, _point: Point) {
        thread::yield_now();
    }
}
