//! Tests of `lh_file`, all by its public calls. They stand apart so that they are proved over its statements, without
//! proving it again, and while its wrong bodies are tried. Those of its hands, of gates, of calls that read and write in one
//! act, of settling, of histories, of snapshots and of small records have crates of their own, beside this one.
#![tactic(auto)]

#[cfg(test)]
mod tests;
