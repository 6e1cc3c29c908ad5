//! Records in the formats in which other stores exchange them.
//!
//! `cdb` is what `cdb -c` reads and `cdb -d` writes; `db` is what `db_dump` and `db_load` of Berkeley DB exchange, and
//! `mdb_dump` and `mdb_load` of LMDB. `read_records` reads a stream in either, whole. A stream is written piece by piece,
//! with no memory: what `head` gives, then for each record what `write_record` does, then what `tail` gives.
//!
//! ```text
//! let pairs = read_records(alloc, b"+3,4:ada->0171\n\n")?;
//! ```
#![tactic(auto)]

mod cdb;
mod db;
mod decoding;
mod ending;
mod fault;
mod format;
mod header;
pub mod laws;
mod layout;
mod lines;
mod reading;
mod writing;

pub use fault::{ExchangeError, ExchangeFault, StreamFault};
pub use format::StreamFormat;
pub use reading::read_records;
pub use writing::{LONGEST_RECORD, head, tail, write_record};
