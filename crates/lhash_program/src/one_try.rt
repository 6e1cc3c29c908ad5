//! A writer that no one tries again: to those who would, an interrupted write is a failed one.
ghost use Rattle.std.specs.Prelude.{◌≡◌, IfErr};
ghost use Rattle.std.specs.IoError.{error_kind};
ghost use Rattle.std.specs.declared.io.ErrorKind.TheVariants as ErrorKind;

use std::io::{Error, ErrorKind, Result, Write};

/// A writer whose errors say only that a write or a flush failed.
#[derive(Drop)]
pub struct OneTry<W>(pub W);

/// The error of a write that isn't to be tried again.
fn failed() -> Error
    ensures { error_kind result ≡ ErrorKind.Other }
{
    Error::from(ErrorKind::Other)
}

impl<W: Write> Write for OneTry<W> {
    ghost use Rattle.std.specs.Prelude.{IfErr};
    ghost use Rattle.std.specs.Io.{WritesAtMost};
    ghost use Rattle.std.specs.Io.KnownBytes.{Keeps, WriteAppends};

    ghost contents = { λ writer. W.contents writer.0 };

    fn write(&mut self, buf: &[u8]) -> Result<usize>
        ensures bound { WritesAtMost result buf.now }
        ensures bytes { WriteAppends (W.contents self.old.0) (W.contents self.new.0) result buf.now }
        ensures failed { IfErr result (λ error. error_kind error ≡ ErrorKind.Other) }
    {
        match self.0.write(buf) {
            Ok(written) => Ok(written),
            Err(_) => Err(failed()),
        }
    }

    fn flush(&mut self) -> Result<()>
        ensures bytes { Keeps (W.contents self.old.0) (W.contents self.new.0) }
        ensures failed { IfErr result (λ error. error_kind error ≡ ErrorKind.Other) }
    {
        match self.0.flush() {
            Ok(()) => Ok(()),
            Err(_) => Err(failed()),
        }
    }
}
