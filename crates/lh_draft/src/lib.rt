//! A file that takes its name when all of it is written and on the disk, and not before: what had the name keeps it until
//! then, and where the writing fails.
//!
//! ```text
//! let mut file = Beside::create(&rt, alloc, "users.lhf")?;    // users.lhf is as it was
//! file.write_all(b"LHF2")?;
//! keep(&mut file.written())?;                                 // users.lhf is the new one
//! ```
#![tactic(auto)]

mod beside;
mod draft;

pub use beside::{Beside, NotMade, Written};
pub use draft::{Draft, KeepFault, Stage, keep};
