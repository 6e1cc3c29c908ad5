//! Tests of `lh_file`'s files whose records have less room than the longest key and value want, by its public calls. They
//! stand apart so that they are proved over its statements, without proving it again, and while its wrong bodies are tried.
#![tactic(auto)]

#[cfg(test)]
mod tests;
