//! What hands have done.
ghost use Rattle.std.specs.Prelude.{◌≡◌, ◌<◌, List, length, slice_get, Some, IfOk};
ghost use Rattle.lh_settling.specs.Acts.{acts_before};

use lh_bucket::{Call, Memory, Reply};
use std::alloc::Global;
use std::marker::Model;

/// One act: a call that was served, its reply, and the stamp that it drew while its bucket was held.
#[derive(Clone, Copy, Debug, PartialEq, Eq)]
pub struct ActLine {
    /// A number that no other act of the file has; stamps count from 0.
    pub stamp: u64,
    pub call: Call,
    pub reply: Reply,
}

/// The acts that a hand has kept, its own and those of the hands that were joined to it, in no
/// particular order.
#[derive(Debug, Drop)]
pub struct Acts {
    lines: Vec<ActLine>,
}

impl Model for Acts {
    ghost use Rattle.std.specs.Prelude.{List};
    ghost use Rattle.lh_settling.specs.declared.act.ActLine.{ActLine};

    ghost Value = { List ActLine };

    ghost view = { λ a. a.lines.items };
}

impl Acts {
    /// The acts of these lines, in any order.
    pub fn new(lines: Vec<ActLine>) -> Acts
        ensures { result ≡ lines.items }
    {
        Acts { lines }
    }

    /// The number of acts.
    pub fn len(&self) -> usize
        ensures { result ≡ length self.now }
    {
        self.lines.len()
    }

    /// The act at a place, counted from 0.
    pub fn at(&self, place: usize) -> ActLine
        requires { place < length self.now }
        ensures { slice_get self.now place ≡ Some result }
    {
        self.lines[place]
    }

    /// The acts with stamps below this one, in their order.
    pub fn before(&self, alloc: Global, stamp: u64) -> Result<Acts, Memory>
        ensures { IfOk result (λ acts. acts ≡ acts_before stamp self.now) }
    {
        let lines = self
            .lines
            .iter()
            .filter(|act| act.stamp < stamp)
            .copied()
            .collect(alloc)?;
        Ok(Acts { lines })
    }

    pub(crate) fn lines(&self) -> &[ActLine]
        ensures { result.now ≡ self.now }
    {
        &self.lines
    }
}
