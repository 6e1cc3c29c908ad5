//! Times and memory.

use std::rt::{Clock, Files};
use std::time::{CpuClock, Duration, Instant};
use std::{fs, io};

/// Nanoseconds that passed, and that all threads together ran.
#[derive(Clone, Copy)]
pub struct TimeSpent {
    pub wall: u64,
    pub processor: u64,
}

impl TimeSpent {
    pub const NONE: TimeSpent = TimeSpent {
        wall: 0,
        processor: 0,
    };

    pub fn with(self, other: TimeSpent) -> TimeSpent {
        TimeSpent {
            wall: self.wall.saturating_add(other.wall),
            processor: self.processor.saturating_add(other.processor),
        }
    }
}

/// A stopwatch that runs.
#[derive(Clone, Copy)]
pub struct Stopwatch {
    began: Instant,
    processor: Duration,
}

fn nanoseconds(duration: Duration) -> u64 {
    u64::try_from(duration.as_nanos()).unwrap_or(u64::MAX)
}

impl Stopwatch {
    pub fn start(rt: &(impl Clock + CpuClock)) -> io::Result<Stopwatch> {
        Ok(Stopwatch {
            processor: rt.process_cpu_time()?,
            began: Instant::now(rt)?,
        })
    }

    pub fn stop(self, rt: &(impl Clock + CpuClock)) -> io::Result<TimeSpent> {
        let wall = self.began.elapsed(rt)?;
        let processor = rt.process_cpu_time()?;
        Ok(TimeSpent {
            wall: nanoseconds(wall),
            processor: nanoseconds(processor).saturating_sub(nanoseconds(self.processor)),
        })
    }
}

/// The time of steps that follow one another.
#[derive(Clone, Copy)]
pub struct Laps {
    began: Instant,
    passed: u64,
}

impl Laps {
    pub fn start(rt: &impl Clock) -> io::Result<Laps> {
        Ok(Laps {
            began: Instant::now(rt)?,
            passed: 0,
        })
    }

    /// Nanoseconds since the step before ended.
    #[inline]
    pub fn next(&mut self, rt: &impl Clock) -> io::Result<u64> {
        let passed = nanoseconds(self.began.elapsed(rt)?);
        let lap = passed.saturating_sub(self.passed);
        self.passed = passed;
        Ok(lap)
    }
}

/// The bytes of memory that the process has, or 0 where the system doesn't tell.
pub fn resident_bytes(rt: &(impl Files + AllocGlobal)) -> u64 {
    status_bytes(rt, "VmRSS:")
}

/// The bytes of memory that the process had at most, or 0 where the system doesn't tell.
pub fn peak_bytes(rt: &(impl Files + AllocGlobal)) -> u64 {
    status_bytes(rt, "VmHWM:")
}

/// The bytes that the system tells of the process under a name.
fn status_bytes(rt: &(impl Files + AllocGlobal), name: &str) -> u64 {
    let Ok(text) = fs::read_to_string(rt, "/proc/self/status") else {
        return 0;
    };
    for line in text.as_str().lines() {
        if let Some(rest) = line.strip_prefix(name) {
            let number = rest.split_whitespace().next().unwrap_or("");
            return number.parse::<u64>().unwrap_or(0).saturating_mul(1024);
        }
    }
    0
}
