//! How evenly keys are spread over shards and, within a shard, over buckets, beside a hash of its own for the shard.
use lh_addr::fnv1a;
use lh_expect::{expect, expect_eq};
use lh_shards::{mixed, shard_of};
use std::hash::{DefaultHasher, Hasher};
use std::process::Abort;
use std::test::Fail;

const SHARDS: u32 = 8;

const BUCKETS: u64 = 16;

const CELLS: usize = 128;

const KEYS: u64 = 12_800;

/// Which shard a rule chooses.
#[derive(Clone, Copy)]
enum Rule {
    Mixed,
    OwnHash,
    Remainder,
}

/// The key of a number: its digits, in few bytes, or all bytes of it mixed.
fn bytes_of(number: u64, is_counting: bool) -> [u8; 8] {
    if is_counting {
        number.to_le_bytes()
    } else {
        mixed(number).to_le_bytes()
    }
}

fn chosen(rule: Rule, bytes: &[u8]) -> u32 {
    match rule {
        Rule::Mixed => shard_of(fnv1a(bytes), SHARDS),
        Rule::OwnHash => {
            let mut hasher = DefaultHasher::new();
            hasher.write(bytes);
            (hasher.finish() % 8) as u32
        }
        Rule::Remainder => (fnv1a(bytes) % 8) as u32,
    }
}

/// The greatest number of keys that share a shard and a bucket of it; the mean is 100.
fn fullest(rule: Rule, is_counting: bool) -> u32 {
    let mut counts = [0_u32; CELLS];
    for number in 0..KEYS {
        let bytes = bytes_of(number, is_counting);
        let bucket = (fnv1a(&bytes) % BUCKETS) as usize;
        let cell = chosen(rule, &bytes) as usize * 16 + bucket;
        if cell < CELLS {
            counts[cell] = counts[cell].saturating_add(1);
        }
    }
    let mut most = 0;
    for count in &counts {
        if *count > most {
            most = *count;
        }
    }
    most
}

/// The mixed code fills no bucket much above the mean, as a hash of its own does, and the remainder of the code, which
/// chooses the bucket too, leaves most buckets of a shard empty and fills the others eight times.
fn check_spread(rt: &impl Abort, is_counting: bool) -> Result<(), Fail> {
    expect!(rt, fullest(Rule::Mixed, is_counting) < 150);
    expect!(rt, fullest(Rule::OwnHash, is_counting) < 150);
    expect!(rt, fullest(Rule::Remainder, is_counting) > 600);
    Ok(())
}

#[test]
fn counting_keys_are_spread(rt: HostRuntime) -> Result<(), Fail> {
    check_spread(&rt, true)
}

#[test]
fn pseudo_random_keys_are_spread(rt: HostRuntime) -> Result<(), Fail> {
    check_spread(&rt, false)
}

/// What MurmurHash3's finalizer makes of 0 and of 1.
#[test]
fn codes_are_mixed_as_published(rt: HostRuntime) -> Result<(), Fail> {
    expect_eq!(&rt, mixed(0), 0);
    expect_eq!(&rt, mixed(1), 0xb456_bcfc_34c2_cb2c);
    Ok(())
}
