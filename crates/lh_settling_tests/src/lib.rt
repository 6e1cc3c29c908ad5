//! Tests of how `lh_file` settles closed files, all by its public calls on files that are made by hand. They stand apart so
//! that they are proved over its statements, beside its other tests.
#![tactic(auto)]

#[cfg(test)]
mod tests;
