//! Gates that hold calls, and count and compare the points at which they stand.

use lh_file::{Gate, Point};
use lh_stage::{Hold, Progress};
use std::sync::atomic::{AtomicU64, Ordering};
use std::thread;

/// How far a scene has come, and the points at which its calls stood.
#[derive(Drop)]
pub(crate) struct Course {
    pub(crate) progress: Progress,
    compared: AtomicU64,
    acted: AtomicU64,
    rights: AtomicU64,
    moved: AtomicU64,
    pointed: AtomicU64,
}

/// How often calls stood at the points that tell of an act, of the right to split, of a move and of a new pointer.
#[derive(Clone, Copy, Debug, PartialEq, Eq)]
pub(crate) struct Counts {
    pub(crate) acted: u64,
    pub(crate) rights: u64,
    pub(crate) moved: u64,
    pub(crate) pointed: u64,
}

impl Course {
    pub(crate) fn new() -> Course {
        Course {
            progress: Progress::new(),
            compared: AtomicU64::new(0),
            acted: AtomicU64::new(0),
            rights: AtomicU64::new(0),
            moved: AtomicU64::new(0),
            pointed: AtomicU64::new(0),
        }
    }

    /// How often calls stood at points so far.
    pub(crate) fn counts(&self) -> Counts {
        Counts {
            acted: self.acted.load(Ordering::SeqCst),
            rights: self.rights.load(Ordering::SeqCst),
            moved: self.moved.load(Ordering::SeqCst),
            pointed: self.pointed.load(Ordering::SeqCst),
        }
    }

    fn count(&self, point: Point) {
        let count = match point {
            Point::Acted { .. } => &self.acted,
            Point::RightGot => &self.rights,
            Point::Moved { .. } => &self.moved,
            Point::Pointed { .. } => &self.pointed,
            _ => return,
        };
        count.fetch_add(1, Ordering::SeqCst);
    }

    /// Compares a point with the next one of these, and fails where it is another one. A point that is met before the
    /// first step isn't compared, nor any where there are none of these.
    fn compare(&self, points: &[Point], point: Point) {
        if points.is_empty() || self.progress.step() == 0 {
            return;
        }
        let place = self.compared.fetch_add(1, Ordering::SeqCst) as usize;
        let is_due = match points.get(place) {
            Some(due) => *due == point,
            None => false,
        };
        if !is_due {
            self.progress.fail();
        }
    }

    /// Whether so many points were compared.
    pub(crate) fn has_compared(&self, points: usize) -> bool {
        self.compared.load(Ordering::SeqCst) == points as u64
    }
}

/// A call that was held from step `from` on is held for some turns more, in which the test may not come to step `not`.
#[derive(Clone, Copy)]
pub(crate) struct Rest {
    pub(crate) from: u64,
    pub(crate) not: u64,
}

/// A gate that holds calls by a list, compares the points that are met, or lets others go first at every point.
#[derive(Drop)]
pub(crate) struct Stage<'a> {
    pub(crate) holds: &'static [Hold],
    pub(crate) rest: Option<Rest>,
    pub(crate) points: &'static [Point],
    pub(crate) course: &'a Course,
    pub(crate) gives_way: bool,
}

impl Gate for Stage<'_> {
    fn at(&self, point: Point) {
        self.course.count(point);
        self.course.compare(self.points, point);
        if self.gives_way {
            thread::yield_now();
        }
        let held = Hold::call(self.holds, &self.course.progress, point);
        if let (Some(hold), Some(rest)) = (held, self.rest) {
            if hold.from == rest.from {
                self.course.progress.rest(rest.not);
            }
        }
    }
}
