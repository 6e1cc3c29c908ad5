//! Tests of `lh_store` on a disk and without memory, all by its public calls.
#![tactic(auto)]

#[cfg(test)]
mod tests;
