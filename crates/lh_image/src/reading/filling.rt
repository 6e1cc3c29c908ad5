//! Filling a buffer from a reader.
ghost use Rattle.std.specs.Prelude.{◌≡◌, ℕ, ◌≤◌, length, IfOk, IfErr, IfSome, slice_index, ◌<◌};
ghost use Rattle.lh_image.specs.Filling.{Fills, IsFilled, ReadsWhole};

use crate::fault::ImageFault;
use std::io;
use std::io::Read;

/// Fills a buffer as far as the reader has bytes. A read that fails is answered at once.
fn fill<R: Read>(reader: &mut R, buffer: &mut [u8]) -> io::Result<usize>
    ensures size { length buffer.new ≡ length buffer.old }
    ensures ok { IfOk result (λ n. Fills (R.remaining reader.old) (R.remaining reader.new) n buffer.new) }
{
    let mut filled = 0;
    while filled < buffer.len() {
        let count = reader.read(&mut buffer[filled..])?;
        if count == 0 {
            break;
        }
        filled += count;
    }
    Ok(filled)
}

/// Reads what fits into the buffer, or all that is left: the number of bytes that came. A read that
/// fails is never tried again, an interrupted one neither.
pub(crate) fn read_into<R: Read>(reader: &mut R, buffer: &mut [u8]) -> Result<usize, ImageFault>
    ensures size { length buffer.new ≡ length buffer.old }
    ensures filled { IfOk result (λ n. IfSome (R.remaining reader.old) (λ bytes.
        IsFilled bytes n buffer.new (R.remaining reader.new))) }
    ensures within { IfOk result (λ n. n ≤ length buffer.old) }
    ensures each_byte { (i : ℕ) → slice_index buffer.new i < 256 }
    ensures fault { IfErr result (λ f. f ≡ ImageFault.ReadFault) }
{
    match fill(reader, buffer) {
        Ok(count) => Ok(count),
        Err(_) => Err(ImageFault::ReadFault),
    }
}

/// Fills the buffer, unless too few bytes are left.
pub(crate) fn read_whole<R: Read>(reader: &mut R, buffer: &mut [u8]) -> Result<(), ImageFault>
    ensures size { length buffer.new ≡ length buffer.old }
    ensures read { IfSome (R.remaining reader.old) (λ bytes.
        ReadsWhole bytes result buffer.new (R.remaining reader.new)) }
{
    if read_into(reader, buffer)? < buffer.len() {
        return Err(ImageFault::Short);
    }
    Ok(())
}
