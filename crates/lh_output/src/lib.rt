//! A run whose output is a new file: it takes its name where the run ends with status 0, and not before; what had the
//! name keeps it until then, and where the run ends otherwise.
//!
//! ```text
//! let mut file = Beside::create(rt, alloc, "users.lhf")?;    // users.lhf is as it was
//! let status = run(rt, words, reader, &mut file);
//! let status = settle(&mut file.written(), status);   // users.lhf is the new one just if the status is 0
//! ```
#![tactic(auto)]

mod outcome;

pub use outcome::settle;
