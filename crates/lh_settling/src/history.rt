//! What the hands of a file have done, settled.
ghost use Rattle.std.specs.Prelude.{◌≡◌, ◌<◌, List, length, slice_get, Some};

use crate::act::ActLine;
use std::marker::Model;

/// The history of a file: the acts that were settled, in the order of their stamps, so that the act
/// at place `t` has the stamp `t`.
#[derive(Debug, Drop)]
pub struct History {
    lines: Vec<ActLine>,
}

impl Model for History {
    ghost use Rattle.std.specs.Prelude.{List};
    ghost use Rattle.lh_settling.specs.declared.act.ActLine.{ActLine};

    ghost Value = { List ActLine };

    ghost view = { λ h. h.lines.items };
}

impl History {
    pub(crate) fn new(lines: Vec<ActLine>) -> History
        ensures { result ≡ lines.items }
    {
        History { lines }
    }

    /// The number of acts.
    pub fn len(&self) -> usize
        ensures { result ≡ length self.now }
    {
        self.lines.len()
    }

    /// The act with a stamp, which is its place.
    pub fn at(&self, stamp: usize) -> ActLine
        requires { stamp < length self.now }
        ensures { slice_get self.now stamp ≡ Some result }
    {
        self.lines[stamp]
    }
}
