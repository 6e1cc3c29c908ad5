//! How the records of a stream are written.

/// How the records of a stream are written.
#[derive(Clone, Copy)]
pub enum Layout {
    /// As cdb has them.
    Cdb,
    /// Two lines a record, of two hexadecimal digits a byte.
    Bytevalue,
    /// Two lines a record, of printable bytes as they are and escapes.
    Print,
}
