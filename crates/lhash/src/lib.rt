//! All of the program `lhash` but its process: `run`, from words and bytes to bytes and a status.
//!
//! The words are taken apart by `lh_options`. `drive` stands here, which makes the calls of a command script in threads
//! that share one file or several shards, and writes totals; `lh_subcommands` has all others.
#![tactic(auto)]

mod crew;
mod drive;
mod drive_shards;
mod driven;
mod file_crew;
pub mod laws;
mod program;
mod shards_crew;

pub use drive::{DriveFault, drive_with, drive_with_snapshots};
pub use drive_shards::drive_shards_with;
pub use driven::Driven;
pub use lh_options::{NamedFiles, escaped, files_of, hint_of};
pub use lh_script::{LineFault, ScriptFault};
pub use lh_subcommands::{DeviceFault, InputFault, Status, Unsettled};
pub use program::{asks_for_image, reads_apart, refuse, run, run_on};
