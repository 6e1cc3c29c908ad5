//! The configuration of a file, and the split policy.
ghost use Rattle.std.specs.Prelude.{◌≡◌, IfOk, IfErr, Some};

use crate::limits::{
    DEFAULT_CAPACITY, DEFAULT_INITIAL, DEFAULT_LOAD, DEFAULT_MAX, MAX_BUCKETS, MAX_CAPACITY,
    MAX_INITIAL, MAX_LOAD, MIN_CAPACITY, MIN_INITIAL, MIN_LOAD,
};
use std::error::Error;
use std::fmt;
use std::marker::Model;

/// The setting that [`Config::new`] refused: the first of the four, in this order, that is out of
/// its range.
#[derive(Clone, Copy, Debug, PartialEq, Eq)]
pub enum Range {
    /// The initial number of buckets is not 1 to 256.
    Initial,
    /// The capacity of a page is not 1 to 24 records.
    Capacity,
    /// The load threshold is not 10 to 200 percent.
    Load,
    /// The greatest number of buckets is less than the initial one, or more than 65,536.
    Max,
}

impl fmt::Display for Range {
    ghost use Rattle.lh_addr.specs.Config.{range_text};

    ghost output = { λ range. Some (range_text range) };

    fn fmt<W: fmt::Write>(&self, f: &mut fmt::Formatter<W>) -> fmt::Result {
        match self {
            Range::Initial => write!(f, "initial is out of range"),
            Range::Capacity => write!(f, "capacity is out of range"),
            Range::Load => write!(f, "load is out of range"),
            Range::Max => write!(f, "max is out of range"),
        }
    }
}

impl Error for Range {}

/// How a file begins, how full its pages may be, and how far it may grow.
///
/// [`Config::default`] is a file of any size; what is to be otherwise is named:
///
/// ```text
/// let config = Config::default().with_capacity(24)?.with_load(80)?;
/// ```
#[derive(Clone, Copy, Debug, PartialEq, Eq)]
pub struct Config {
    initial: u32,
    capacity: u32,
    load: u32,
    max: u32,
}

impl Model for Config {
    ghost use Rattle.lh_addr.specs.Settings.{Settings, IsInRange};

    ghost Value = { Settings };

    ghost view = { λ c. record { initial = c.initial; capacity = c.capacity; load = c.load; max = c.max } };

    ghost invariant = { λ c. IsInRange (
        record { initial = c.initial; capacity = c.capacity; load = c.load; max = c.max }) };

    ghost inverse = { λ s. record { initial = s.initial; capacity = s.capacity; load = s.load; max = s.max } };
}

impl Default for Config {
    ghost use Rattle.lh_addr.specs.Settings.{default_settings};

    /// A file that begins with 1 bucket, has 14 records in a page, grows above a load of 100 percent, and may have
    /// 65,536 buckets.
    fn default() -> Config
        ensures { result ≡ default_settings }
    {
        Config {
            initial: DEFAULT_INITIAL,
            capacity: DEFAULT_CAPACITY,
            load: DEFAULT_LOAD,
            max: DEFAULT_MAX,
        }
    }
}

impl Config {
    ghost use Rattle.lh_addr.specs.Settings.{Settings, IsInRange, wants_split};
    ghost use Rattle.lh_addr.specs.Config.{IsFirstOutOfRange};

    /// A configuration of these settings, or the first of them that is out of its range:
    /// `initial` 1 to 256 buckets, `capacity` 1 to 24 records, `load` 10 to 200 percent, `max`
    /// from `initial` to 65,536 buckets.
    pub fn new(initial: u32, capacity: u32, load: u32, max: u32) -> Result<Config, Range>
        ensures ok { IfOk result (λ config. config
            ≡ record { initial = initial; capacity = capacity; load = load; max = max }) }
        ensures in_range { IfOk result IsInRange }
        ensures err { IfErr result (IsFirstOutOfRange
            (record { initial = initial; capacity = capacity; load = load; max = max })) }
    {
        if initial < MIN_INITIAL || initial > MAX_INITIAL {
            return Err(Range::Initial);
        }
        if capacity < MIN_CAPACITY || capacity > MAX_CAPACITY {
            return Err(Range::Capacity);
        }
        if load < MIN_LOAD || load > MAX_LOAD {
            return Err(Range::Load);
        }
        if max < initial || max > MAX_BUCKETS {
            return Err(Range::Max);
        }
        Ok(Config {
            initial,
            capacity,
            load,
            max,
        })
    }

    /// The same configuration with another initial number of buckets, 1 to 256.
    pub fn with_initial(self, initial: u32) -> Result<Config, Range>
        ensures ok { IfOk result (λ config. config ≡ record self { initial = initial }) }
        ensures err { IfErr result (IsFirstOutOfRange (record self { initial = initial })) }
    {
        Config::new(initial, self.capacity, self.load, self.max)
    }

    /// The same configuration with another capacity of a page, 1 to 24 records.
    pub fn with_capacity(self, capacity: u32) -> Result<Config, Range>
        ensures ok { IfOk result (λ config. config ≡ record self { capacity = capacity }) }
        ensures err { IfErr result (IsFirstOutOfRange (record self { capacity = capacity })) }
    {
        Config::new(self.initial, capacity, self.load, self.max)
    }

    /// The same configuration with another load threshold, 10 to 200 percent.
    pub fn with_load(self, load: u32) -> Result<Config, Range>
        ensures ok { IfOk result (λ config. config ≡ record self { load = load }) }
        ensures err { IfErr result (IsFirstOutOfRange (record self { load = load })) }
    {
        Config::new(self.initial, self.capacity, load, self.max)
    }

    /// The same configuration with another greatest number of buckets, from the initial one to 65,536.
    pub fn with_max(self, max: u32) -> Result<Config, Range>
        ensures ok { IfOk result (λ config. config ≡ record self { max = max }) }
        ensures err { IfErr result (IsFirstOutOfRange (record self { max = max })) }
    {
        Config::new(self.initial, self.capacity, self.load, max)
    }

    /// The number of buckets that a file begins with.
    pub fn initial(&self) -> u32
        ensures value { result ≡ self.now.initial }
        ensures in_range { IsInRange self.now }
    {
        self.initial
    }

    /// The number of records that a page holds.
    pub fn capacity(&self) -> u32
        ensures value { result ≡ self.now.capacity }
        ensures in_range { IsInRange self.now }
    {
        self.capacity
    }

    /// The load in percent above which a file is to grow.
    pub fn load(&self) -> u32
        ensures value { result ≡ self.now.load }
        ensures in_range { IsInRange self.now }
    {
        self.load
    }

    /// The greatest number of buckets.
    pub fn max(&self) -> u32
        ensures value { result ≡ self.now.max }
        ensures in_range { IsInRange self.now }
    {
        self.max
    }

    /// Whether a file of `records` records in `buckets` buckets is to grow by one bucket: Litwin's
    /// controlled split, at a load above the threshold, as long as there are fewer than `max`
    /// buckets. It is exact for every count of records.
    pub fn wants_split(&self, records: u64, buckets: u32) -> bool
        ensures { result ≡ wants_split self.now records buckets }
    {
        let threshold = self.load as u128 * self.capacity as u128 * buckets as u128;
        100 * records as u128 > threshold && buckets < self.max
    }
}
