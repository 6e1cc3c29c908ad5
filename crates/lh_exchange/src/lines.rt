//! The lines of a stream, each with its LF.
ghost use Rattle.std.specs.Prelude.{◌≡◌, ◌+◌, ◌≤◌, MatchOption, IfSome, None, Some, length};
ghost use Rattle.lh_exchange.specs.StreamLines.{is_line, whole_line};

use memchr::memchr;

/// The first line of some bytes, without its LF, and what stands behind it; or none where no LF is there.
pub fn first_line(bytes: &[u8]) -> Option<(&[u8], &[u8])>
    ensures cut { MatchOption result (whole_line bytes.now ≡ None)
        (λ cut. whole_line bytes.now ≡ Some (cut.0.now, cut.1.now)) }
    ensures shorter { IfSome result (λ cut. 1 + length cut.1.now ≤ length bytes.now) }
{
    let end = memchr(b'\n', bytes)?;
    Some((&bytes[..end], &bytes[end + 1..]))
}

/// Whether a line is this one.
pub fn is_same_line(line: &[u8], text: &[u8]) -> bool
    ensures { result ≡ is_line line.now text.now }
{
    line == text
}
