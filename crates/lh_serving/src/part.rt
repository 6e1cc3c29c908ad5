//! A line that has come in part.
ghost use Rattle.std.specs.Prelude.{◌≡◌, ◌++◌, ℕ, List, [], None, Some, IfOk, MatchOption};
ghost use Rattle.lh_serving.specs.Parts.{kept};

use std::alloc::{AllocError, Global};
use std::marker::Model;

/// The most bytes of a line before its LF. The longest call, a replace, takes 345 with single blanks, and
/// 513 where each byte of text is written by its digits.
pub const LONGEST_LINE: usize = 1_024;

/// What has come of a line; of a line that is too long nothing is kept but that it is.
#[derive(Drop)]
pub struct LinePart {
    bytes: Vec<u8>,
    is_too_long: bool,
}

impl Model for LinePart {
    ghost use Rattle.std.specs.Prelude.{ℕ, List, Option};

    ghost Value = { Option (List ℕ) };

    ghost use Rattle.lh_serving.specs.PartSeen.{HasLineRoom, part_seen};

    ghost view = { part_seen };

    ghost invariant = { HasLineRoom };
}

impl LinePart {
    /// Nothing of a line. No part of a line takes memory later.
    pub fn new(alloc: Global) -> Result<LinePart, AllocError>
        ensures { IfOk result (λ part. part ≡ kept []) }
    {
        Ok(LinePart {
            bytes: Vec::with_capacity(alloc, LONGEST_LINE)?,
            is_too_long: false,
        })
    }

    /// More of the line has come.
    pub fn add(&mut self, more: &[u8])
        ensures { (line : List ℕ) → self.old ≡ kept line → self.new ≡ kept (line ++ more.now) }
    {
        if self.is_too_long {
            return;
        }
        if more.len() > LONGEST_LINE - self.bytes.len() {
            self.is_too_long = true;
            return;
        }
        match self.bytes.extend_from_slice(more) {
            Ok(()) => {}
            // There is room for the longest line.
            Err(_) => unreachable!(),
        }
    }

    /// What has come, unless it is too long.
    pub fn line(&self) -> Option<&[u8]>
        ensures { MatchOption result (self.now ≡ None) (λ line. self.now ≡ Some line.now) }
    {
        if self.is_too_long {
            return None;
        }
        Some(self.bytes.as_slice())
    }

    /// Another line begins.
    pub fn clear(&mut self)
        ensures { self.new ≡ kept [] }
    {
        self.bytes.clear();
        self.is_too_long = false;
    }
}
