//! Files whose records have 32 bytes, and records that take all of them.
ghost use Rattle.std.specs.Prelude.{◌≤◌, length, IfOk};
ghost use Rattle.lh_file.specs.Buckets.Rooms.{FitListing};

use lh_addr::Config;
use lh_bucket::Listing;
use lh_file::{NoGate, SizedFile, Unbranded, Untraced};
use lh_page::{Key, KeyLength, Value};
use std::alloc::Global;
use std::test::Fail;

/// A file whose records have 32 bytes for key and value together.
pub(crate) type Small<M, J> = SizedFile<NoGate, M, J, 32>;

/// One whose history is not traced.
pub(crate) type Plain = Small<Untraced, Unbranded>;

/// The number that a value is.
pub(crate) fn number_in(bytes: &[u8]) -> u64 {
    <[u8; 8]>::try_from(bytes).map_or(0, u64::from_be_bytes)
}

/// The value of a number, which has 8 bytes.
pub(crate) fn value_of(number: u64) -> Value
    ensures { length result ≤ 8 }
{
    Value::new(&number.to_be_bytes()).unwrap_or(Value::empty())
}

/// The value of the next number.
pub(crate) fn one_more(bytes: &[u8]) -> Value
    ensures { length result ≤ 8 }
{
    value_of(number_in(bytes).wrapping_add(1))
}

/// The key of a thread's number, which has 24 bytes.
pub(crate) fn key_of(thread: u8, number: u8) -> Result<Key, KeyLength>
    ensures { IfOk result (λ key. length key ≤ 24) }
{
    let mut bytes = [b'k'; 24];
    bytes[22] = thread;
    bytes[23] = number;
    Key::new(&bytes)
}

/// The listing of an empty file with one bucket, which is split at each second record. Asked for once more where memory
/// was refused.
pub(crate) fn empty(alloc: Global) -> Result<Listing, Fail>
    ensures { IfOk result (FitListing 32) }
{
    let config = Config::new(1, 2, 100, 65536)?;
    let listing = match Listing::empty(alloc, config) {
        Ok(listing) => listing,
        Err(_) => Listing::empty(alloc, config)?,
    };
    Plain::fit_listing(&listing)?;
    Ok(listing)
}
