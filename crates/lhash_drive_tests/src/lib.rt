//! Tests of `lhash` in threads, and with readers, writers and memory that fail it, by its public calls.
#![tactic(auto)]

#[cfg(test)]
mod tests;
