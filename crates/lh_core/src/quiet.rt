//! The quiet steps, which leave the records where they are, whoever takes them.
ghost use Rattle.std.specs.Prelude.{◌≡◌, IfOk, OnErr};
ghost use Rattle.lh_core.specs.Rules.{allowed};
ghost use Rattle.lh_core.specs.Control.{IsControl, HasNoReply, IsQuiet, KeepsFile, control_state, step_to};

use crate::control::Control;
use crate::effect::{Effect, Refusal};
use crate::event::Event;

impl Control {
    /// Takes a step that leaves the records where they are, unless it is refused.
    pub(crate) fn turn(&mut self, event: Event) -> Result<Effect, Refusal>
        requires control { IsControl self.old }
        requires quiet { IsQuiet event }
        ensures value { step_to result self.new ≡ allowed self.old.config (control_state self.old) event }
        ensures told { IfOk result HasNoReply }
        ensures keeps { KeepsFile self.old self.new }
        ensures filled { self.new.filled ≡ self.old.filled }
        ensures err { OnErr result (self.new ≡ self.old) }
    {
        match event {
            Event::Call(worker, call) => self.call(worker, call),
            Event::Read(worker) => self.read(worker),
            Event::Lock(worker) => self.lock(worker),
            Event::Rehash(worker) => self.rehash(worker),
            Event::Release(worker) => self.release(worker),
            Event::SplitBegin => self.begin_split(),
            Event::SplitLock => self.lock_both(),
            Event::SplitRelease => self.free_both(),
            Event::SplitPoint => self.point(),
            Event::SplitDrop => self.drop_split(),
            // These two change the records too, so the world takes them.
            Event::Act(_) => unreachable!(),
            Event::SplitMove => unreachable!(),
        }
    }
}
