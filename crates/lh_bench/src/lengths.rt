//! How many calls took how long.

use std::fmt;

/// How many classes of lengths there are.
const CLASSES: usize = 22;

/// A microsecond and a millisecond, in nanoseconds.
const MICROSECOND: u64 = 1_000;

const MILLISECOND: u64 = 1_000_000;

/// How many calls took how long. They are counted in classes: below 1 us, from 1 to below 2, from 2 to below 4, and so
/// on by powers of two; the last class is 2^20 us and more.
#[derive(Clone, Copy)]
pub struct Lengths {
    classes: [u64; CLASSES],
    pub over_1ms: u64,
    /// Nanoseconds.
    pub longest: u64,
}

/// The class of this many nanoseconds: as many as their whole microseconds have binary digits.
fn class_of(time: u64) -> usize {
    let digits = u64::BITS - (time / MICROSECOND).leading_zeros();
    (digits as usize).min(CLASSES - 1)
}

impl Lengths {
    pub const NONE: Lengths = Lengths {
        classes: [0; CLASSES],
        over_1ms: 0,
        longest: 0,
    };

    /// Notes how many nanoseconds a call took.
    #[inline]
    pub fn note(&mut self, time: u64) {
        if let Some(count) = self.classes.get_mut(class_of(time)) {
            *count = count.wrapping_add(1);
        }
        if time > MILLISECOND {
            self.over_1ms = self.over_1ms.wrapping_add(1);
        }
        self.longest = self.longest.max(time);
    }

    /// How many calls were timed.
    pub fn timed(&self) -> u64 {
        self.classes
            .iter()
            .fold(0u64, |sum, count| sum.wrapping_add(*count))
    }

    /// Adds the calls of another thread.
    pub fn add(&mut self, other: &Lengths) {
        for (own, more) in self.classes.iter_mut().zip(other.classes.iter()) {
            *own = own.wrapping_add(*more);
        }
        self.over_1ms = self.over_1ms.wrapping_add(other.over_1ms);
        self.longest = self.longest.max(other.longest);
    }
}

/// The counts of the classes, as a row in JSON.
impl fmt::Display for Lengths {
    fn fmt<W: fmt::Write>(&self, f: &mut fmt::Formatter<W>) -> fmt::Result {
        let mut before = '[';
        for count in self.classes.iter() {
            write!(f, "{before}{count}")?;
            before = ',';
        }
        write!(f, "]")
    }
}
