//! Writing all of some bytes. A write that fails is never tried again, an interrupted one neither.
ghost use Rattle.std.specs.Prelude.{◌≤◌, ◌<◌, IfOk, OnOk, OnErr, length, take};
ghost use Rattle.std.specs.Io.KnownBytes.{Appends, Keeps};
ghost use Rattle.lh_image.specs.Writing.{IsSent};

use std::io::Write;

/// A write or a flush failed, or a write took no byte.
#[derive(Clone, Copy, Debug, PartialEq, Eq)]
pub struct WriteFailed;

/// One write, of at least one byte.
#[tactic(auto, using(crate::proofs::Writes::Sends::keeps_none))]
fn write_some<W: Write>(writer: &mut W, bytes: &[u8]) -> Result<usize, WriteFailed>
    ensures some { IfOk result (λ n. (0 < n) × (n ≤ length bytes.now)) }
    ensures ok { IfOk result (λ n. Appends (W.contents writer.old) (W.contents writer.new) (take n bytes.now)) }
    ensures err { OnErr result (Keeps (W.contents writer.old) (W.contents writer.new)) }
{
    let Ok(count) = writer.write(bytes) else {
        return Err(WriteFailed);
    };
    if count == 0 {
        return Err(WriteFailed);
    }
    Ok(count)
}

/// Writes all bytes, and flushes nothing. Writes are taken as they come: one may take a part, and the next one begins
/// behind it. The first that fails or takes no byte ends it, and what was taken until then stays written. No memory is
/// taken.
#[tactic(auto, using(crate::proofs::Writes::Sends::writes_more, crate::proofs::Writes::Sends::takes_beginning))]
pub fn send_all<W: Write>(writer: &mut W, bytes: &[u8]) -> Result<(), WriteFailed>
    ensures { IsSent bytes.now result (W.contents writer.old) (W.contents writer.new) }
{
    let mut done = 0;
    while done < bytes.len() {
        done += write_some(writer, &bytes[done..])?;
    }
    Ok(())
}
