//! The end of a stream.
ghost use Rattle.std.specs.Prelude.{◌≡◌, IfOk, None};
ghost use Rattle.lh_exchange.specs.StreamParts.{IsNextRecord, at_end};

use crate::fault::StreamFault;
use lh_page::Pair;

/// Nothing, where nothing stands behind the end.
pub fn end_before(bytes: &[u8]) -> Result<Option<(Pair, &[u8])>, StreamFault>
    ensures next { IsNextRecord (λ s. s.now) result (at_end bytes.now) }
    ensures none { IfOk result (λ next. next ≡ None) }
{
    if bytes.is_empty() {
        Ok(None)
    } else {
        Err(StreamFault::BehindEnd)
    }
}
