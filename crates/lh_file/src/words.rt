//! The words of a running file, and what it was opened with.

mod begin;
mod borrowed;
mod counts;
mod end;
pub(crate) mod hand;
pub(crate) mod load;
pub(crate) mod looks;
pub(crate) mod right;
mod traced_acts;
mod traced_looks;

use lh_addr::Config;
use lh_words::{Mode, WordTable};
use std::alloc::Global;
use std::marker::Model;

/// A running file but for its buckets: the words under their rule, the configuration, whether acts are
/// recorded, how many records the file was opened with, and which shard it is. `M` says whether the file's history is
/// traced.
#[derive(Drop)]
pub(crate) struct Words<M: Mode> {
    pub(crate) table: WordTable<M>,
    pub(crate) config: Config,
    pub(crate) recording: bool,
    pub(crate) opening: u64,
    pub(crate) shard: u32,
    pub(crate) alloc: Global,
}

impl<M: Mode> Model for Words<M> {
    ghost use Rattle.lh_file.specs.FileState.{FileState};

    ghost Value = { FileState };

    ghost use Rattle.lh_file.specs.Words.Fields.{file_state_of, IsFile};

    ghost view = { file_state_of };

    ghost invariant = { IsFile };
}
