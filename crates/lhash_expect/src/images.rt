//! Images of a few records, and what stands in them.
ghost use Rattle.std.specs.Prelude.{◌≡◌, ◌≤◌, ◌+◌, ◌++◌, IfOk, drop, length, take};

use crate::runs::ran;
use lh_expect::equal_values;
use std::sync::Wait;
use std::test::Fail;
use std::thread::Threads;

/// Five records of which the splits after the third and the fifth make three buckets.
pub const FIVE: &str = "insert 61 31\ninsert 62 32\ninsert 63 33\ninsert 64 34\ninsert 65 35\n";

pub const FIVE_WORDS: &[&str] = &["lhash", "build", "--capacity", "2", "--image", "1"];

pub const FIVE_CENSUS: &str =
    "buckets 3\nlevel 1\npointer 1\nrecords 5\npages 4\noverflow 0\nlongest 1\n";

pub const FIVE_RECORDS: &str = "0 61 31\n0 65 35\n1 62 32\n1 64 34\n2 63 33\n";

/// Four records in a chain of two pages.
pub const CHAIN: &str = "insert 61 31\ninsert 63 32\ninsert 65 33\ninsert 67 34\n";

pub const CHAIN_WORDS: &[&str] = &[
    "lhash",
    "build",
    "--capacity",
    "2",
    "--max",
    "1",
    "--image=1",
];

/// A script of this many inserts.
pub fn inserts(rt: &impl AllocGlobal, count: u32) -> Result<String, Fail> {
    let mut script = String::new(rt.alloc());
    for number in 0..count {
        script.writeln(format_args!("insert {number:06x} -"))?;
    }
    Ok(script)
}

/// The image that `build` writes.
pub fn built(
    rt: &(impl AllocGlobal + Threads + Wait + Sync),
    words: &[&str],
    script: &str,
) -> Result<Vec<u8>, Fail> {
    let (code, image, text) = ran(rt, words, script.as_bytes())?;
    equal_values((code, text.as_str()), (0, ""))?;
    Ok(image)
}

/// An image, and a script behind it.
pub fn behind(rt: &impl AllocGlobal, image: &[u8], script: &str) -> Result<Vec<u8>, Fail>
    ensures { IfOk result (λ input. input.items ≡ image.now ++ script.now) }
{
    let mut input = Vec::new(rt.alloc());
    input.extend_from_slice(image)?;
    input.extend_from_slice(script.as_bytes())?;
    Ok(input)
}

/// Puts bytes in the place of those that stand there, if there are as many.
pub fn put(bytes: &mut [u8], place: usize, part: &[u8])
    ensures len { length bytes.new ≡ length bytes.old }
    ensures part { place + length part.now ≤ length bytes.old →
        bytes.new ≡ take place bytes.old ++ part.now ++ drop (place + length part.now) bytes.old }
{
    if part.len() <= bytes.len() && place <= bytes.len() - part.len() {
        bytes[place..place + part.len()].copy_from_slice(part);
    }
}
