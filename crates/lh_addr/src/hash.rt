//! The hash functions of a file.
ghost use Rattle.std.specs.Prelude.{◌≡◌, ◌≤◌, ◌%◌};
ghost use Rattle.lh_addr.specs.Growth.{hash_at};
ghost use Rattle.lh_addr.specs.Limits.{IsInitial, most_level};

/// Litwin's hash function `i` at the code `c`: `c` modulo `initial * 2^i`, the number of buckets
/// that a file of `initial` buckets has at level `i`.
pub fn hash_at(initial: u32, i: u8, c: u64) -> u32
    requires initial { IsInitial initial }
    requires level { i ≤ most_level }
    ensures { result ≡ hash_at initial i c }
{
    modulo(c, (initial as u64) << i) as u32
}

/// What a code leaves by a number of buckets. Most files begin with a power of two of them, and a mask
/// takes a small part of the time of a division.
#[inline]
pub(crate) fn modulo(c: u64, buckets: u64) -> u64
    requires { 1 ≤ buckets }
    ensures { result ≡ c % buckets }
{
    if buckets.is_power_of_two() {
        c & (buckets - 1)
    } else {
        c % buckets
    }
}
