//! Parts of what was written.
ghost use Rattle.std.specs.Prelude.{◌≡◌, All, OnOk};
ghost use Rattle.lhash_expect.specs.Parts.{times_in};

use lh_expect::equal_values;
use std::test::Fail;

/// Each part stands so often in what was written.
pub fn has_parts(written: &[u8], parts: &[(&str, usize)]) -> Result<(), Fail>
    ensures { OnOk result (All (λ row. times_in row.0.now written.now ≡ row.1) parts.now) }
{
    for (part, wanted) in parts {
        has_part(written, part, *wanted)?;
    }
    Ok(())
}

/// One part stands so often.
fn has_part(written: &[u8], part: &str, wanted: usize) -> Result<(), Fail>
    ensures { OnOk result (times_in part.now written.now ≡ wanted) }
{
    let count = count_of(written, part.as_bytes());
    equal_values((part, count), (part, wanted))?;
    Ok(())
}

/// How often a part stands in some bytes.
fn count_of(bytes: &[u8], part: &[u8]) -> usize
    ensures { result ≡ times_in part.now bytes.now }
{
    let mut count = 0;
    for place in 0..bytes.len() {
        if bytes[place..].starts_with(part) {
            count += 1;
        }
    }
    count
}
