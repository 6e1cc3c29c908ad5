//! The code of a key.
ghost use Rattle.std.specs.Prelude.{◌≡◌};
ghost use Rattle.lh_addr.specs.Fnv.{code_of};

const OFFSET_BASIS: u64 = 14695981039346656037;

const PRIME: u64 = 1099511628211;

/// The code of a key: the 64-bit FNV-1a hash of its bytes, with the offset basis and the prime of
/// Fowler, Noll and Vo.
///
/// ```text
/// fnv1a(b"a") == 0xaf63dc4c8601ec8c
/// ```
#[tactic(auto, unfolding(crate::specs::Fnv::code_of))]
pub fn fnv1a(bytes: &[u8]) -> u64
    ensures { result ≡ code_of bytes.now }
{
    bytes.iter().fold(
        OFFSET_BASIS,
        |hash, &byte| (hash ^ byte as u64).wrapping_mul(PRIME),
    )
}
