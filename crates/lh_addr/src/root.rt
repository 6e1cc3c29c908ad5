//! The root of a file: how far it has grown, and what follows of addresses and levels.
ghost use Rattle.std.specs.Prelude.{◌≡◌, ◌+◌, ◌*◌, ◌<◌, ◌≤◌, ◌↔◌, ◌^◌, IsSome, IfSome};
ghost use Rattle.lh_addr.specs.Extent.{IsExtent};
ghost use Rattle.lh_addr.specs.Limits.{most_buckets, most_level};
ghost use Rattle.lh_addr.specs.Root.{StoresLevel};

use crate::aim::Aim;
use crate::config::Config;
use crate::hash::modulo;
use crate::limits::{MAX_BUCKETS, MAX_INITIAL, MIN_INITIAL};
use std::marker::Model;

/// The root of a file that began with `initial` buckets and has `buckets` of them: its level `L`
/// and its split pointer `n`, the one pair with `initial * 2^L + n == buckets` and
/// `n < initial * 2^L`.
///
/// ```text
/// let root = Root::new(1, 3)?;                 // level 1, pointer 1
/// root.address(fnv1a(b"b"))                    // 1
/// root.aim(fnv1a(b"b"))                        // bucket 1, at level 1
/// root.next_split()                            // (1, 3, 2): bucket 1 into 1 and 3, at level 2
/// root.grown().pointer()                       // 0: of 4 buckets, at level 2, none is split yet
/// ```
#[derive(Clone, Copy, Debug, PartialEq, Eq)]
pub struct Root {
    initial: u32,
    buckets: u32,
    level: u8,
}

impl Model for Root {
    ghost use Rattle.std.proofs.Common.{sym, ap};
    ghost use Rattle.lh_addr.specs.Extent.{Extent};
    ghost use Rattle.lh_addr.specs.Growth.{level as level_at};
    ghost use Rattle.lh_addr.specs.Root.{StoresLevel};

    ghost Value = { Extent };

    ghost view = { λ r. record { initial = r.initial; buckets = r.buckets } };

    ghost invariant = { λ r. StoresLevel (record { initial = r.initial; buckets = r.buckets }) r.level };

    ghost inverse = { λ e. record { initial = e.initial; buckets = e.buckets; level = level_at e.initial e.buckets } };

    ghost inverse_ok = { λ a h. ap (λ k. record { initial = a.initial; buckets = a.buckets; level = k })
        (sym h.level_is) };
}

/// The level of a file that began with `initial` buckets and has `buckets` of them: how often all that it began with
/// have been split. `initial` is 1 to 256, and `buckets` is `initial` to 65,536.
// The logarithm of a quotient is the difference of the logarithms, or one less: no division is needed, for which each
// call would wait.
#[inline]
pub fn level_of_size(initial: u32, buckets: u32) -> u8
    requires { IsExtent (record { initial = initial; buckets = buckets }) }
    ensures { StoresLevel (record { initial = initial; buckets = buckets }) result }
{
    let most = buckets.ilog2() - initial.ilog2();
    if buckets < initial << most {
        (most - 1) as u8
    } else {
        most as u8
    }
}

impl Root {
    ghost use Rattle.lh_addr.specs.Extent.{IsExtent};
    ghost use Rattle.lh_addr.specs.Growth.{level, pointer, address, level_of};

    /// The root of a file with `buckets` buckets that began with `initial`: none unless `initial`
    /// is 1 to 256, and `buckets` is `initial` to 65,536.
    pub fn new(initial: u32, buckets: u32) -> Option<Root>
        ensures valid { IsSome result ↔ IsExtent (record { initial = initial; buckets = buckets }) }
        ensures value { IfSome result (λ root. root ≡ record { initial = initial; buckets = buckets }) }
    {
        if initial < MIN_INITIAL
            || initial > MAX_INITIAL
            || buckets < initial
            || buckets > MAX_BUCKETS
        {
            return None;
        }
        Some(Root::of(initial, buckets))
    }

    fn of(initial: u32, buckets: u32) -> Root
        requires { IsExtent (record { initial = initial; buckets = buckets }) }
        ensures { result ≡ record { initial = initial; buckets = buckets } }
    {
        Root {
            initial,
            buckets,
            level: level_of_size(initial, buckets),
        }
    }

    /// The root of the file with one bucket more.
    pub fn grown(&self) -> Root
        requires { self.now.buckets < most_buckets }
        ensures value { result ≡ record { initial = self.now.initial; buckets = self.now.buckets + 1 } }
        ensures extent { IsExtent result }
    {
        Root::of(self.initial, self.buckets + 1)
    }

    /// The level: how often all the buckets that the file began with have been split.
    pub fn level(&self) -> u8
        ensures value { result ≡ level self.now.initial self.now.buckets }
        ensures low { result ≤ most_level }
    {
        self.level
    }

    /// The split pointer: the bucket that splits next.
    #[tactic(auto, unfolding(crate::specs::Growth::pointer))]
    pub fn pointer(&self) -> u32
        ensures { result ≡ pointer self.now.initial self.now.buckets }
    {
        self.buckets - self.full_size()
    }

    // The number of buckets that the file had when it reached its level.
    fn full_size(&self) -> u32
        ensures value { result ≡ self.now.initial * 2 ^ level self.now.initial self.now.buckets }
        ensures fits { result ≤ self.now.buckets }
        ensures room { result < most_buckets → level self.now.initial self.now.buckets < most_level }
        ensures extent { IsExtent self.now }
    {
        self.initial << self.level
    }

    /// The number of buckets.
    pub fn buckets(&self) -> u32
        ensures value { result ≡ self.now.buckets }
        ensures extent { IsExtent self.now }
    {
        self.buckets
    }

    /// The number of the bucket that a key of code `c` belongs to: the code's hash at the level,
    /// or one level up where that bucket was split already.
    #[tactic(auto, unfolding(crate::specs::Growth::address, crate::specs::Growth::pointer))]
    pub fn address(&self, c: u64) -> u32
        ensures value { result ≡ address self.now.initial self.now.buckets c }
        ensures within { result < self.now.buckets }
    {
        let size = self.full_size() as u64;
        let bucket = modulo(c, size) as u32;
        // Taken before it is known to be wanted: a processor guesses that wrong for up to half of the codes.
        let raised = modulo(c, 2 * size) as u32;
        if bucket < self.pointer() {
            raised
        } else {
            bucket
        }
    }

    /// The local level of a bucket: the level of the hash function that leads to it.
    #[tactic(auto, unfolding(crate::specs::Growth::level_of, crate::specs::Growth::pointer))]
    pub fn level_of(&self, bucket: u32) -> u8
        requires { bucket < self.now.buckets }
        ensures value { result ≡ level_of self.now.initial self.now.buckets bucket }
        ensures low { result ≤ most_level }
    {
        if bucket < self.pointer() || bucket >= self.full_size() {
            self.level + 1
        } else {
            self.level
        }
    }

    /// Where a caller that reads this root looks for a code: its address, at that bucket's level.
    pub fn aim(&self, code: u64) -> Aim
        ensures bucket { result.bucket ≡ address self.now.initial self.now.buckets code }
        ensures level { result.level ≡ level_of self.now.initial self.now.buckets result.bucket }
        ensures low { result.level ≤ most_level }
        ensures within { result.bucket < self.now.buckets }
    {
        let bucket = self.address(code);
        Aim {
            level: self.level_of(bucket),
            bucket,
        }
    }

    /// The next split: the bucket that splits, the new bucket, and the level of both after it.
    #[tactic(auto, unfolding(crate::specs::Growth::pointer))]
    pub fn next_split(&self) -> (u32, u32, u8)
        requires { self.now.buckets < most_buckets }
        ensures old { result.0 ≡ pointer self.now.initial self.now.buckets }
        ensures new { result.1 ≡ self.now.buckets }
        ensures level { result.2 ≡ level self.now.initial self.now.buckets + 1 }
    {
        (self.pointer(), self.buckets, self.level + 1)
    }
}

impl Config {
    ghost use Rattle.lh_addr.specs.Extent.{IsExtent};
    ghost use Rattle.lh_addr.specs.Limits.{IsSize};

    /// The root of a file of this configuration that has `buckets` buckets, from the initial number
    /// to 65,536.
    pub fn root(&self, buckets: u32) -> Root
        requires { IsSize self.now.initial buckets }
        ensures value { result ≡ record { initial = self.now.initial; buckets = buckets } }
        ensures extent { IsExtent result }
    {
        Root::of(self.initial(), buckets)
    }
}
