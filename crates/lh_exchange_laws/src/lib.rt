//! What reading records of another store and writing them for one are to each other, from the bytes that `lhash load`
//! reads to those that `lhash dump --format` writes. No other crate stands on this one.
#![tactic(auto)]

pub mod laws;
