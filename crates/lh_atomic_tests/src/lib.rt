//! Tests of `lh_file`'s calls that read and write in one act, untraced and traced, by its public calls. They stand apart so
//! that they are proved over its statements, beside its other tests.
#![tactic(auto)]

#[cfg(test)]
mod tests;
