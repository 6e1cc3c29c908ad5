//! What the tests of `lhash` share: runs and how they end, readers and writers that fail, and images of a few records.
//!
//! Where a run is not as it is due, these functions answer an error, which a test passes on: a library may not end the
//! process, as `expect_eq!` does. The error has both values.
#![tactic(auto)]

mod devices;
mod images;
mod parts;
mod runs;

pub use devices::{Sink, Source};
pub use images::{
    CHAIN, CHAIN_WORDS, FIVE, FIVE_CENSUS, FIVE_RECORDS, FIVE_WORDS, behind, built, inserts, put,
};
pub use parts::has_parts;
pub use runs::{fails, ran, told, writes};
