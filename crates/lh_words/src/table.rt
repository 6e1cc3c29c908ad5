//! The table of a file's words.

use crate::mode::Mode;
use crate::rule::RunningRule;
use crate::seat_view::SeatView;
use atomic_table::Table;
use lh_bucket::Listing;
use std::alloc::Global;
use std::marker::Model;

/// The words of a running file under their rule. `M` says whether the file's history is traced.
#[derive(Drop)]
pub struct WordTable<M: Mode> {
    pub(crate) words: Table<(), SeatView, Listing, RunningRule<M>, Global>,
}

impl<M: Mode> Model for WordTable<M> {
    ghost use Rattle.lh_words.specs.TableState.{TableState};

    ghost Value = { TableState };

    ghost use Rattle.lh_words.specs.TableState.{table_state_of, IsWordTable};

    ghost view = { table_state_of };

    ghost invariant = { IsWordTable };
}
