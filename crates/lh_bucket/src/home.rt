//! The bucket of a code.
ghost use Rattle.std.specs.Prelude.{◌≡◌};

use std::marker::Model;

/// The bucket of a code: one at whose local level, which was the level looked for, the code's hash is
/// its number.
///
/// Only a bucket makes one, and an [`Answer`](crate::Answer) is made of one: so it names a bucket that
/// was there.
#[derive(Clone, Copy, Debug, PartialEq, Eq)]
pub struct Home {
    code: u64,
    bucket: u32,
    level: u8,
    initial: u32,
}

impl Model for Home {
    ghost use Rattle.lh_bucket.specs.Home.{HomeOf, LeadsHome};

    ghost Value = { HomeOf };

    ghost view = { λ h. record { code = h.code; bucket = h.bucket; level = h.level; initial = h.initial } };

    ghost invariant = { λ h. LeadsHome (
        record { code = h.code; bucket = h.bucket; level = h.level; initial = h.initial }) };

    ghost inverse = { λ h. record { code = h.code; bucket = h.bucket; level = h.level; initial = h.initial } };
}

impl Home {
    ghost use Rattle.lh_bucket.specs.Home.{HomeOf, LeadsHome};

    #[inline]
    pub(crate) fn new(code: u64, bucket: u32, level: u8, initial: u32) -> Self
        requires { LeadsHome (record { code = code; bucket = bucket; level = level; initial = initial }) }
        ensures { result ≡ record { code = code; bucket = bucket; level = level; initial = initial } }
    {
        Home {
            code,
            bucket,
            level,
            initial,
        }
    }

    /// The code.
    #[inline]
    pub fn code(&self) -> u64
        ensures value { result ≡ self.now.code }
        ensures leads { LeadsHome self.now }
    {
        self.code
    }

    /// The number of the bucket.
    #[inline]
    pub fn bucket(&self) -> u32
        ensures value { result ≡ self.now.bucket }
        ensures leads { LeadsHome self.now }
    {
        self.bucket
    }

    /// The bucket's local level, which was the level looked for.
    #[inline]
    pub fn level(&self) -> u8
        ensures value { result ≡ self.now.level }
        ensures leads { LeadsHome self.now }
    {
        self.level
    }

    /// The number of buckets that the bucket's file began with.
    #[inline]
    pub fn initial(&self) -> u32
        ensures value { result ≡ self.now.initial }
        ensures leads { LeadsHome self.now }
    {
        self.initial
    }
}
