//! Records as db has them: a line of the key and one of the value.
ghost use Rattle.std.specs.Prelude.{◌≡◌, ◌+◌, ◌≤◌, Some, Ok, IfOk, IfSome, length};
ghost use Rattle.lh_exchange.specs.DbRecords.{next_db, with_value_line};
ghost use Rattle.lh_exchange.specs.StreamParts.{IsNextRecord};

use crate::decoding::{read_key, read_value};
use crate::ending::end_before;
use crate::fault::StreamFault;
use crate::layout::Layout;
use crate::lines::{first_line, is_same_line};
use lh_page::{Key, Pair};

/// The record of a key that was read, and what stands behind the line of its value.
fn behind_key(layout: Layout, key: Key, bytes: &[u8]) -> Result<Option<(Pair, &[u8])>, StreamFault>
    ensures next { IsNextRecord (λ s. s.now) result (with_value_line layout key bytes.now) }
    ensures shorter { IfOk result (λ next. IfSome next (λ x. 1 + length x.1.now ≤ length bytes.now)) }
{
    let Some((line, behind)) = first_line(bytes) else {
        return Err(StreamFault::NoEnd);
    };
    let value = read_value(layout, line)?;
    Ok(Some((Pair { key, value }, behind)))
}

/// The next record and what stands behind it, or none at the end.
#[tactic(auto, unfolding(crate::specs::DbRecords::next_db))]
pub fn next(layout: Layout, bytes: &[u8]) -> Result<Option<(Pair, &[u8])>, StreamFault>
    ensures next { IsNextRecord (λ s. s.now) result (next_db layout bytes.now) }
    ensures shorter { IfOk result (λ next. IfSome next (λ x. 2 + length x.1.now ≤ length bytes.now)) }
{
    let Some((line, behind)) = first_line(bytes) else {
        return Err(StreamFault::NoEnd);
    };
    if is_same_line(line, b"DATA=END".as_slice()) {
        return end_before(behind);
    }
    let key = read_key(layout, line)?;
    behind_key(layout, key, behind)
}
