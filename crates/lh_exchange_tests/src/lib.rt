//! Tests of `lh_exchange`, all by its public calls. They stand apart so that they are proved over its
//! statements, without proving it again, and while its wrong bodies are tried.
#![tactic(auto)]

#[cfg(test)]
mod tests;
