//! The steps of the splitter.
ghost use Rattle.std.specs.Prelude.{◌≡◌, ◌+◌, ◌<◌, Ok, Err, Some, IfOk, IfErr, OnErr};
ghost use Rattle.lh_core.specs.declared.event.Event.TheVariants as event;
ghost use Rattle.lh_core.specs.declared.state.SplitState.TheVariants as split;
ghost use Rattle.lh_core.specs.State.{with_splitter, with_moved};
ghost use Rattle.lh_core.specs.Rules.{begin_split, lock_both, free_both, point, drop_split, allowed};
ghost use Rattle.lh_core.specs.Control.{IsControl, HasNoReply, KeepsFile, control_state, step_to};

use crate::control::Control;
use crate::effect::{Effect, Refusal};
use crate::state::SplitState;

impl Control {
    /// The splitter takes the right to split, if the file is not full.
    pub(crate) fn begin_split(&mut self) -> Result<Effect, Refusal>
        requires { IsControl self.old }
        ensures value { step_to result self.new
            ≡ begin_split self.old.config (control_state self.old) self.old.splitter }
        ensures told { IfOk result HasNoReply }
        ensures keeps { KeepsFile self.old self.new }
        ensures filled { self.new.filled ≡ self.old.filled }
        ensures err { OnErr result (self.new ≡ self.old) }
    {
        match self.splitter {
            SplitState::Idle => {
                if self.root.buckets() == self.config.max() {
                    Err(Refusal::FileFull)
                } else {
                    let old = self.root.pointer();
                    let new = self.root.buckets();
                    self.splitter = SplitState::Begun;
                    Ok(Effect::Begun { old, new })
                }
            }
            _ => Err(Refusal::SplitBusy),
        }
    }

    /// The splitter locks the bucket that splits, and the new one.
    pub(crate) fn lock_both(&mut self) -> Result<Effect, Refusal>
        requires { IsControl self.old }
        ensures value { step_to result self.new ≡ lock_both self.old.config (control_state self.old) self.old.splitter }
        ensures told { IfOk result HasNoReply }
        ensures keeps { KeepsFile self.old self.new }
        ensures filled { self.new.filled ≡ self.old.filled }
        ensures err { OnErr result (self.new ≡ self.old) }
    {
        match self.splitter {
            SplitState::Begun => {
                let old = self.root.pointer();
                let new = self.root.buckets();
                if self.is_held(old) {
                    Err(Refusal::Held)
                } else {
                    self.splitter = SplitState::Locked;
                    Ok(Effect::Both { old, new })
                }
            }
            _ => Err(Refusal::WrongState),
        }
    }

    /// The effect of dividing the records of a split, if that is allowed now.
    pub(crate) fn moving(&self) -> Result<Effect, Refusal>
        requires { IsControl self.now }
        ensures allowed { IfOk result (λ effect. allowed self.now.config (control_state self.now) event.SplitMove
            ≡ Ok (Some effect, with_moved (control_state self.now))) }
        ensures told { IfOk result HasNoReply }
        ensures locked { IfOk result (λ _. self.now.splitter ≡ split.Locked) }
        ensures refused { IfErr result (λ r. allowed self.now.config (control_state self.now) event.SplitMove ≡ Err r) }
    {
        match self.splitter {
            SplitState::Locked => {
                let old = self.root.pointer();
                let new = self.root.buckets();
                Ok(Effect::Moved { old, new })
            }
            _ => Err(Refusal::WrongState),
        }
    }

    /// Notes that the records of a split are divided.
    pub(crate) fn note_move(&mut self)
        requires control { IsControl self.old }
        requires room { self.old.root.buckets < self.old.config.max }
        ensures state { control_state self.new ≡ with_moved (control_state self.old) }
        ensures keeps { KeepsFile self.old self.new }
    {
        self.filled = self.root.grown();
        self.splitter = SplitState::LockedMoved;
    }

    /// The splitter lets both buckets go.
    pub(crate) fn free_both(&mut self) -> Result<Effect, Refusal>
        ensures value { step_to result self.new ≡ free_both (control_state self.old) self.old.splitter }
        ensures told { IfOk result HasNoReply }
        ensures keeps { KeepsFile self.old self.new }
        ensures filled { self.new.filled ≡ self.old.filled }
        ensures err { OnErr result (self.new ≡ self.old) }
    {
        match self.splitter {
            SplitState::Locked => {
                self.splitter = SplitState::Begun;
                Ok(Effect::Freed)
            }
            SplitState::LockedMoved => {
                self.splitter = SplitState::Moved;
                Ok(Effect::Freed)
            }
            _ => Err(Refusal::WrongState),
        }
    }

    /// The splitter moves the pointer to the next bucket, and lets the right go.
    pub(crate) fn point(&mut self) -> Result<Effect, Refusal>
        requires { IsControl self.old }
        ensures value { step_to result self.new ≡ point (control_state self.old) self.old.splitter }
        ensures told { IfOk result HasNoReply }
        ensures keeps { KeepsFile self.old self.new }
        ensures filled { self.new.filled ≡ self.old.filled }
        ensures err { OnErr result (self.new ≡ self.old) }
    {
        match self.splitter {
            SplitState::Moved => {
                self.root = self.filled;
                self.splitter = SplitState::Idle;
                Ok(Effect::Point {
                    buckets: self.filled.buckets(),
                })
            }
            _ => Err(Refusal::WrongState),
        }
    }

    /// The splitter gives a split up that has moved nothing.
    pub(crate) fn drop_split(&mut self) -> Result<Effect, Refusal>
        ensures value { step_to result self.new ≡ drop_split (control_state self.old) self.old.splitter }
        ensures told { IfOk result HasNoReply }
        ensures keeps { KeepsFile self.old self.new }
        ensures filled { self.new.filled ≡ self.old.filled }
        ensures err { OnErr result (self.new ≡ self.old) }
    {
        match self.splitter {
            SplitState::Begun => {
                self.splitter = SplitState::Idle;
                Ok(Effect::Dropped)
            }
            _ => Err(Refusal::WrongState),
        }
    }
}
