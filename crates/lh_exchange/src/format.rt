//! The formats.

/// A format in which stores exchange records.
#[derive(Clone, Copy, Debug, PartialEq, Eq)]
pub enum StreamFormat {
    /// Lengths and raw bytes, as `+3,4:ada->0171`, of Bernstein's cdb.
    Cdb,
    /// A header and lines of hexadecimal digits, of Berkeley DB and LMDB.
    Db,
}
