//! Reading all of an input up to a limit, and writing all of an output. A read or a write that
//! fails is never tried again, an interrupted one neither.
ghost use Rattle.std.specs.Prelude.{◌≡◌, ◌+◌, ◌≤◌, ◌<◌, IfOk, OnOk, OnErr, IfSome, length};
ghost use Rattle.std.specs.Io.KnownBytes.{Appends, Consumes, IsAtEnd};
ghost use Rattle.lh_subcommands.specs.Devices.{ReadsOnto, IsReadOf, TakesBeginning};

use lh_image::{WriteFailed, send_all};
use std::alloc::{AllocError, Global};
use std::io::{Read, Write};

/// Why an input was not read.
#[derive(Clone, Copy, Debug, PartialEq, Eq)]
pub enum ReadError {
    /// There was no memory for its bytes.
    Memory,
    /// A read failed.
    Failed,
}

/// The most bytes that one read is asked for.
const CHUNK: usize = 65_536;

fn chunk_of_zeros(alloc: Global) -> Result<Vec<u8>, AllocError>
    ensures { IfOk result (λ chunk. 0 < length chunk.items) }
{
    let mut chunk = Vec::new(alloc);
    chunk.resize(CHUNK, 0)?;
    Ok(chunk)
}

/// One read of at most `limit` bytes, which are added to `bytes`.
fn read_more<R: Read>(
    reader: &mut R,
    chunk: &mut [u8],
    bytes: &mut Vec<u8>,
    limit: usize,
) -> Result<usize, ReadError>
    requires room { 0 < length chunk.old }
    requires limited { 0 < limit }
    ensures read { OnOk result (ReadsOnto (R.remaining reader.old) (R.remaining reader.new)
        bytes.old.items bytes.new.items) }
    ensures end { IfOk result (λ n. n ≡ 0 → IsAtEnd (R.remaining reader.new)) }
    ensures few { IfOk result (λ n. n ≤ limit) }
    ensures count { IfOk result (λ n. length bytes.new.items ≡ length bytes.old.items + n) }
{
    let room = chunk.len().min(limit);
    let part = &mut chunk[..room];
    let Ok(count) = reader.read(part) else {
        return Err(ReadError::Failed);
    };
    if bytes.extend_from_slice(&part[..count]).is_err() {
        return Err(ReadError::Memory);
    }
    Ok(count)
}

/// The bytes of an input to its end, of which at most one more than `most` is taken.
#[tactic(auto, using(crate::proofs::Devices::reads_none, crate::proofs::Devices::reads_more, crate::proofs::Devices::read_whole, crate::proofs::Devices::read_part))]
pub fn read_up_to<R: Read>(alloc: Global, reader: &mut R, most: usize) -> Result<Vec<u8>, ReadError>
    requires { most ≤ 9223372036854775807 }
    ensures read { IfOk result (λ bytes. IfSome (R.remaining reader.old) (λ input. IsReadOf most input bytes.items)) }
    ensures few { IfOk result (λ bytes. length bytes.items ≤ most + 1) }
    ensures taken { IfOk result (λ bytes.
        Consumes (R.remaining reader.old) (R.remaining reader.new) bytes.items) }
{
    let Ok(mut chunk) = chunk_of_zeros(alloc) else {
        return Err(ReadError::Memory);
    };
    let mut bytes = Vec::new(alloc);
    while bytes.len() <= most {
        let limit = most + 1 - bytes.len();
        if read_more(reader, chunk.as_mut_slice(), &mut bytes, limit)? == 0 {
            return Ok(bytes);
        }
    }
    Ok(bytes)
}

/// More bytes than there is memory for.
const BEYOND_MEMORY: usize = 9_223_372_036_854_775_807;

/// The bytes of an input to its end, however many they are.
pub fn read_whole<R: Read>(alloc: Global, reader: &mut R) -> Result<Vec<u8>, ReadError>
    ensures { IfOk result (λ bytes. IfSome (R.remaining reader.old) (λ input. input ≡ bytes.items)) }
{
    let bytes = read_up_to(alloc, reader, BEYOND_MEMORY)?;
    if bytes.len() > BEYOND_MEMORY {
        return Err(ReadError::Memory);
    }
    Ok(bytes)
}

/// Writes all bytes, and flushes.
#[tactic(auto, using(crate::proofs::Devices::takes_whole))]
pub fn write_all<W: Write>(writer: &mut W, bytes: &[u8]) -> Result<(), WriteFailed>
    ensures ok { OnOk result (Appends (W.contents writer.old) (W.contents writer.new) bytes.now) }
    ensures err { OnErr result (TakesBeginning (W.contents writer.old) (W.contents writer.new) bytes.now) }
{
    send_all(writer, bytes)?;
    if writer.flush().is_err() {
        return Err(WriteFailed);
    }
    Ok(())
}
