//! Tests of `lh_file` under gates, by its public calls: which points its calls pass, and what others do meanwhile. They
//! stand apart so that they are proved over its statements, beside its other tests.
#![tactic(auto)]

#[cfg(test)]
mod tests;
