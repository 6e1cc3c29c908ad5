//! Records that the tests make.
ghost use Rattle.std.specs.Prelude.{◌≡◌, IfOk};

use lh_page::{Key, Pair, Value};
use std::test::Fail;

/// The record with these bytes as its key and value.
pub fn pair_of(key: &[u8], value: &[u8]) -> Result<Pair, Fail>
    ensures { IfOk result (λ pair. pair ≡ record { key = key.now; value = value.now }) }
{
    Ok(Pair {
        key: Key::new(key)?,
        value: Value::new(value)?,
    })
}
