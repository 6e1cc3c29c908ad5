//! Streams, read whole.
ghost use Rattle.std.specs.Prelude.{◌≡◌, ◌+◌, ◌*◌, ◌^◌, ◌<◌, ◌≤◌, suc, IfOk, IfSome, length};
ghost use Rattle.lh_exchange.specs.DbHeader.{IsBody};
ghost use Rattle.lh_exchange.specs.Exchanged.{GivesRecords, begins_as_cdb, body_of, line_in_record, next_record, no_format};
ghost use Rattle.lh_exchange.specs.Exchanged.{record_fault, records_from, records_in};
ghost use Rattle.lh_exchange.specs.StreamParts.{IsNextRecord};

use crate::fault::{ExchangeError, ExchangeFault, StreamFault};
use crate::header::{Body, read_header};
use crate::layout::Layout;
use crate::lines::{first_line, is_same_line};
use crate::{cdb, db};
use lh_page::Pair;
use std::alloc::Global;

/// The next record and what stands behind it, or none at the end.
fn next(layout: Layout, bytes: &[u8]) -> Result<Option<(Pair, &[u8])>, StreamFault>
    ensures next { IsNextRecord (λ s. s.now) result (next_record layout bytes.now) }
    ensures shorter { IfOk result (λ next. IfSome next (λ x. 2 + length x.1.now ≤ length bytes.now)) }
{
    match layout {
        Layout::Cdb => cdb::next(bytes),
        Layout::Bytevalue => db::next(Layout::Bytevalue, bytes),
        Layout::Print => db::next(Layout::Print, bytes),
    }
}

/// Which line of a record is at fault, from 0.
fn line_of(kind: StreamFault) -> usize
    ensures value { result ≡ line_in_record kind }
    ensures few { result ≤ 1 }
{
    match kind {
        StreamFault::NotAValue | StreamFault::ValueLength(_) | StreamFault::BehindEnd => 1,
        _ => 0,
    }
}

/// A fault behind so many records.
fn fault_behind(before: usize, line: Option<usize>, kind: StreamFault) -> ExchangeFault
    requires before { before + 1 < 2 ^ 64 }
    requires line { IfSome line (λ first. first + 2 * before + 1 < 2 ^ 64) }
    ensures { result ≡ record_fault line before kind }
{
    let line = match line {
        Some(first) => Some(first + 2 * before + line_of(kind)),
        None => None,
    };
    ExchangeFault {
        record: before + 1,
        line,
        kind,
    }
}

/// The records of a body, the first of which stands on this line.
fn read_body(
    alloc: Global,
    layout: Layout,
    line: Option<usize>,
    bytes: &[u8],
) -> Result<Vec<Pair>, ExchangeError>
    requires { IfSome line (λ first. first + length bytes.now + 1 < 2 ^ 64) }
    ensures { GivesRecords (λ v. v.items) result
        (records_from layout line (suc (length bytes.now)) 0 bytes.now) }
{
    let mut pairs = Vec::new(alloc);
    let mut rest = bytes;
    loop {
        match next(layout, rest) {
            Ok(Some((pair, behind))) => {
                if pairs.reserve(1).is_err() {
                    return Err(ExchangeError::Memory);
                }
                pairs.push_reserved(pair);
                rest = behind;
            }
            Ok(None) => return Ok(pairs),
            Err(kind) => {
                return Err(ExchangeError::Fault(fault_behind(pairs.len(), line, kind)));
            }
        }
    }
}

fn is_cdb(bytes: &[u8]) -> bool
    ensures { result ≡ begins_as_cdb bytes.now }
{
    !bytes.is_empty() && (bytes[0] == b'+' || bytes[0] == b'\n')
}

fn no_format_fault() -> ExchangeFault
    ensures { result ≡ no_format }
{
    ExchangeFault {
        record: 0,
        line: None,
        kind: StreamFault::NoFormat,
    }
}

/// How records are written, and where the first begins.
#[tactic(auto, unfolding(crate::specs::Exchanged::body_of))]
fn find_body(bytes: &[u8]) -> Result<Body<'_>, ExchangeFault>
    ensures body { IsBody (λ b. (b.layout, b.line, b.bytes.now)) result (body_of bytes.now) }
    ensures lines { IfOk result (λ b. IfSome b.line (λ first.
        first + length b.bytes.now ≤ length bytes.now + 2)) }
{
    if is_cdb(bytes) {
        return Ok(Body {
            layout: Layout::Cdb,
            line: None,
            bytes,
        });
    }
    let Some((line, behind)) = first_line(bytes) else {
        return Err(no_format_fault());
    };
    if !is_same_line(line, b"VERSION=3".as_slice()) {
        return Err(no_format_fault());
    }
    read_header(behind)
}

/// The records of a stream in either format, in its order, or its first fault.
///
/// A stream is cdb where it begins with `+` or LF, and db where its first line is `VERSION=3`. Of db's header
/// `format=bytevalue` or `format=print` has to be there, so that none is guessed; other lines are passed over, but for
/// those that say that there are no keys, or several values a key. A key may stand in more than one record.
///
/// Besides the bytes it takes memory for the records alone.
pub fn read_records(alloc: Global, bytes: &[u8]) -> Result<Vec<Pair>, ExchangeError>
    ensures { GivesRecords (λ v. v.items) result (records_in bytes.now) }
{
    match find_body(bytes) {
        Ok(body) => read_body(alloc, body.layout, body.line, body.bytes),
        Err(fault) => Err(ExchangeError::Fault(fault)),
    }
}
