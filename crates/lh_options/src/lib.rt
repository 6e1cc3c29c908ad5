//! The command line: what the words ask for, by the options of each subcommand.
//!
//! ```text
//! request_of(alloc, &["lhash", "commands", "--initial", "3"])?    // Request::Commands(config)
//! files_of(alloc, &["lhash", "check", "users.lhf"])?              // that file as the input
//! asks_for_text(alloc, &["lhash", "commands", "--text"])?         // true
//! ```
#![tactic(auto)]

mod app;
mod dump_format;
mod escapes;
mod help;
mod key_words;
pub mod laws;
mod options;

pub use dump_format::DumpFormat;
pub use escapes::escaped;
pub use key_words::KeyWords;
pub use options::{
    ImageVersion, NamedFiles, Request, asks_for_text, files_of, hint_of, request_of,
};
