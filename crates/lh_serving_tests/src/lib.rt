//! Tests of `lh_serving`, and of the subcommand `serve` over it, all by their public calls. They stand apart so that
//! they are proved over those crates' statements, without proving them again, and while their wrong bodies are tried.
#![tactic(auto)]

#[cfg(test)]
mod tests;
