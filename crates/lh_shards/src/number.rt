//! Which shard a key belongs to.
ghost use Rattle.std.specs.Prelude.{◌≡◌, ◌<◌, ◌≤◌};
ghost use Rattle.lh_shards.specs.Number.{mixed as mixed_code, shard_of as shard_of_code};

/// The greatest number of shards.
pub const MOST_SHARDS: u32 = 1024;

/// A code with its bits mixed, so that each of them depends on all bits of the code: the 64-bit finalizer of
/// MurmurHash3 (Austin Appleby, `fmix64`).
///
/// The code of a key chooses its bucket by its remainder, that is by its low bits. The mixed one has the same chance to
/// be anything among codes that agree in these, so the choice of the shard leaves no bucket empty.
#[inline]
#[tactic(auto, unfolding(crate::specs::Number::mixed))]
pub fn mixed(code: u64) -> u64
    ensures { result ≡ mixed_code code }
{
    let first = (code ^ (code >> 33)).wrapping_mul(0xff51_afd7_ed55_8ccd);
    let second = (first ^ (first >> 33)).wrapping_mul(0xc4ce_b9fe_1a85_ec53);
    second ^ (second >> 33)
}

/// The shard of a key with this code, counted from 0: the upper 32 bits of the mixed code, of 2^32, in proportion to
/// the number of shards (Daniel Lemire's multiply-shift, which takes no division).
#[inline]
#[tactic(auto, unfolding(crate::specs::Number::shard_of))]
pub fn shard_of(code: u64, shards: u32) -> u32
    requires least { 1 ≤ shards }
    requires most { shards ≤ MOST_SHARDS }
    ensures value { result ≡ shard_of_code code shards }
    ensures within { result < shards }
{
    // Where nothing is to be chosen, no call waits for the mixing.
    if shards == 1 {
        return 0;
    }
    let upper = mixed(code) >> 32;
    ((upper * shards as u64) >> 32) as u32
}
