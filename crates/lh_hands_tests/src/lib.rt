//! Tests of `lh_file`'s hands, of one thread and of many, by its public calls. They stand apart so that they are proved over
//! its statements, beside its other tests.
#![tactic(auto)]

#[cfg(test)]
mod tests;
