//! The header of a db stream.
ghost use Rattle.std.specs.Prelude.{◌≡◌, ◌==◌, ◌+◌, ◌^◌, ◌<◌, ◌≤◌, suc, None, Some, IfOk, IfSome, nat_eq, length, codes};
ghost use Rattle.std.specs.List.{list_any, starts_with};
ghost use Rattle.lh_exchange.specs.DbHeader.{IsBody, behind_header, header_fault, header_from, header_line, let_through};
ghost use Rattle.lh_exchange.specs.DbHeader.{passed_over};

use crate::fault::{ExchangeFault, StreamFault};
use crate::layout::Layout;
use crate::lines::{first_line, is_same_line};

/// What a line of the header says.
#[derive(Clone, Copy)]
pub enum HeaderLine {
    /// The header ends.
    HeaderEnd,
    /// The header goes on, and up to here it has named this of how records are written.
    GoesOn(Option<Layout>),
}

/// The records of a stream, which the header stands in front of.
#[derive(Clone, Copy)]
pub struct Body<'a> {
    /// How they are written.
    pub layout: Layout,
    /// The line of the first of them, where the format is one of lines.
    pub line: Option<usize>,
    pub bytes: &'a [u8],
}

fn has_name(line: &[u8]) -> bool
    ensures { result ≡ list_any (λ c. c == 61) line.now }
{
    line.iter().any(|byte| *byte == b'=')
}

/// What was named before, behind a line `NAME=VALUE` that says nothing of how records are written.
fn pass_over(named: Option<Layout>, line: &[u8]) -> Result<HeaderLine, StreamFault>
    ensures { result ≡ passed_over named line.now }
{
    if has_name(line) {
        Ok(HeaderLine::GoesOn(named))
    } else {
        Err(StreamFault::NotAHeaderLine)
    }
}

fn has_unknown_layout(line: &[u8]) -> bool
    ensures { result ≡ starts_with nat_eq line.now (codes "format=") }
{
    line.starts_with(b"format=".as_slice())
}

/// The same, unless the line says that the records are not those of a table, or names a layout that is not known.
fn pass_through(named: Option<Layout>, line: &[u8]) -> Result<HeaderLine, StreamFault>
    ensures { result ≡ let_through named line.now }
{
    if has_unknown_layout(line) {
        Err(StreamFault::UnknownLayout)
    } else if is_same_line(line, b"keys=0".as_slice()) {
        Err(StreamFault::NoKeys)
    } else if is_same_line(line, b"duplicates=1".as_slice())
        || is_same_line(line, b"dupsort=1".as_slice())
    {
        Err(StreamFault::Duplicates)
    } else {
        pass_over(named, line)
    }
}

/// What a line of the header says, where lines before it may have named how records are written.
#[tactic(auto, unfolding(crate::specs::DbHeader::header_line))]
fn read_line(named: Option<Layout>, line: &[u8]) -> Result<HeaderLine, StreamFault>
    ensures { result ≡ header_line named line.now }
{
    if is_same_line(line, b"HEADER=END".as_slice()) {
        Ok(HeaderLine::HeaderEnd)
    } else if is_same_line(line, b"format=bytevalue".as_slice()) {
        Ok(HeaderLine::GoesOn(Some(Layout::Bytevalue)))
    } else if is_same_line(line, b"format=print".as_slice()) {
        Ok(HeaderLine::GoesOn(Some(Layout::Print)))
    } else {
        pass_through(named, line)
    }
}

fn fault_at(line: usize, kind: StreamFault) -> ExchangeFault
    ensures { result ≡ header_fault line kind }
{
    ExchangeFault {
        record: 0,
        line: Some(line),
        kind,
    }
}

/// The records behind the header's last line, where a line named how they are written.
fn body_behind(named: Option<Layout>, line: usize, bytes: &[u8]) -> Result<Body<'_>, ExchangeFault>
    requires { line + 1 < 2 ^ 64 }
    ensures body { IsBody (λ b. (b.layout, b.line, b.bytes.now)) result (behind_header named line bytes.now) }
    ensures line { IfOk result (λ b. b.line ≡ Some (line + 1)) }
    ensures bytes { IfOk result (λ b. b.bytes.now ≡ bytes.now) }
{
    match named {
        Some(layout) => Ok(Body {
            layout,
            line: Some(line + 1),
            bytes,
        }),
        None => Err(fault_at(line, StreamFault::NoLayout)),
    }
}

/// The records behind the header, of which the first line is the second of the stream.
pub fn read_header(bytes: &[u8]) -> Result<Body<'_>, ExchangeFault>
    ensures body { IsBody (λ b. (b.layout, b.line, b.bytes.now)) result
        (header_from (suc (length bytes.now)) None 2 bytes.now) }
    ensures lines { IfOk result (λ b. IfSome b.line (λ first.
        first + length b.bytes.now ≤ length bytes.now + 2)) }
{
    let mut rest = bytes;
    let mut line = 2;
    let mut named = None;
    while let Some((text, behind)) = first_line(rest) {
        named = match read_line(named, text) {
            Ok(HeaderLine::GoesOn(layout)) => layout,
            Ok(HeaderLine::HeaderEnd) => return body_behind(named, line, behind),
            Err(kind) => return Err(fault_at(line, kind)),
        };
        rest = behind;
        line += 1;
    }
    Err(fault_at(line, StreamFault::NoEnd))
}
