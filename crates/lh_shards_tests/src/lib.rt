//! Tests of `lh_shards`, all by its public calls.
#![tactic(auto)]

#[cfg(test)]
mod tests;
