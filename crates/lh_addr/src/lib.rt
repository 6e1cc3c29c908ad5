//! Where a record stands in a linear hash file: the code of a key, the root of a file, the address
//! and the local levels of its buckets, the configuration with its split policy, and the word in
//! which threads that run on one file share its root.
//!
//! W. Litwin, "Linear Hashing: a new tool for file and table addressing", VLDB 1980, gives the hash
//! functions, the address rule and the order of splits. That buckets keep local levels is an idea
//! of C. S. Ellis, "Concurrency in Linear Hashing", ACM TODS 12(2), 1987.
#![tactic(auto)]

mod aim;
mod config;
mod fnv;
mod hash;
pub mod laws;
pub mod limits;
mod root;
mod root_word;

pub use aim::Aim;
pub use config::{Config, Range};
pub use fnv::fnv1a;
pub use hash::hash_at;
pub use root::{Root, level_of_size};
pub use root_word::RootWord;
