//! Tests of calls, snapshots and scans of running files, by `lh_file`'s public calls. They stand apart so that they are
//! proved over its statements, without proving it again, and while its wrong bodies are tried.
#![tactic(auto)]

#[cfg(test)]
mod tests;
