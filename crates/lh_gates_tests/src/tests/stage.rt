//! Gates that hold calls, and log the points that they meet.

use lh_file::{Gate, Point};
use lh_stage::{Hold, Progress};
use std::array;
use std::sync::atomic::{AtomicU64, Ordering};

/// The points that were met, in their order, as far as there is room for them.
#[derive(Drop)]
pub(crate) struct Log {
    met: [AtomicU64; 64],
    count: AtomicU64,
}

/// A point as a number, for the log.
fn number_of(point: Point) -> u64 {
    match point {
        Point::Read => 0,
        Point::Holding { bucket } => 1 + 8 * u64::from(bucket),
        Point::Acted { bucket } => 2 + 8 * u64::from(bucket),
        Point::Released { bucket } => 3 + 8 * u64::from(bucket),
        Point::RightGot => 4,
        Point::Moved { old, new: _ } => 5 + 8 * u64::from(old),
        Point::Pointed { buckets } => 6 + 8 * u64::from(buckets),
        Point::Surveyed { buckets } => 7 + 8 * u64::from(buckets),
        Point::Copied { bucket } => 8 + 8 * u64::from(bucket),
    }
}

impl Log {
    pub(crate) fn new() -> Log {
        Log {
            met: array::from_fn(|_| AtomicU64::new(u64::MAX)),
            count: AtomicU64::new(0),
        }
    }

    fn note(&self, point: Point) {
        let place = self.count.fetch_add(1, Ordering::SeqCst) as usize;
        if let Some(met) = self.met.get(place) {
            met.store(number_of(point), Ordering::SeqCst);
        }
    }

    /// Whether these points were met, in their order, and no others.
    pub(crate) fn is_just(&self, points: &[Point]) -> bool {
        self.count.load(Ordering::SeqCst) == points.len() as u64 && self.ends_with(points)
    }

    /// Whether these points were the last that were met.
    pub(crate) fn ends_with(&self, points: &[Point]) -> bool {
        let count = self.count.load(Ordering::SeqCst) as usize;
        let first = count.saturating_sub(points.len());
        for (i, point) in points.iter().enumerate() {
            let met = match self.met.get(first.saturating_add(i)) {
                Some(met) => met.load(Ordering::SeqCst),
                None => return false,
            };
            if met != number_of(*point) {
                return false;
            }
        }
        true
    }
}

/// A gate that holds calls by a list, and logs every point.
#[derive(Drop)]
pub(crate) struct Stage<'a> {
    pub(crate) holds: &'a [Hold],
    pub(crate) progress: &'a Progress,
    pub(crate) log: &'a Log,
}

impl Gate for Stage<'_> {
    fn at(&self, point: Point) {
        self.log.note(point);
        Hold::call(self.holds, self.progress, point);
    }
}
