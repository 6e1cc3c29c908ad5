//! Tests of `lh_shard_store`, all by its public calls. They stand apart so that they are proved over its statements.
#![tactic(auto)]

#[cfg(test)]
mod tests;
