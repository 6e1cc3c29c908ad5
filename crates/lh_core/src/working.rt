//! The steps of the sixteen workers.
ghost use Rattle.std.specs.Prelude.{◌≡◌, ◌<◌, Ok, Err, Some, None, IfOk, IfErr, OnErr, IfSome, slice_get};
ghost use Rattle.std.specs.Option.{option_copied};
ghost use Rattle.lh_core.specs.declared.event.Event.TheVariants as event;
ghost use Rattle.lh_core.specs.declared.control.Act.{Act as ActOf};
ghost use Rattle.lh_core.specs.Aims.{Leads};
ghost use Rattle.lh_core.specs.Rules.{called, read, lock, rehash, release, at_worker, allowed};
ghost use Rattle.lh_core.specs.Control.{IsControl, HasNoReply, IsActOf, IsAimed, KeepsFile, control_state, step_to};
ghost use Rattle.lh_core.specs.Control.{acted};

use crate::control::{Act, Control};
use crate::effect::{Effect, Refusal};
use crate::laws::linear_hashing;
use crate::state::WorkerState;
use lh_addr::{Aim, fnv1a, hash_at};
use lh_bucket::Call;

impl Control {
    /// What a worker is doing, if there is such a worker.
    fn doing_at(&self, worker: u8) -> Option<&WorkerState>
        requires { IsControl self.now }
        ensures value { option_copied result ≡ slice_get self.now.workers worker }
        ensures leads { IfSome result (λ doing. (worker < 16)
            × Leads self.now.config.initial self.now.filled.buckets doing.now) }
    {
        self.workers.get(worker as usize)
    }

    /// A call comes in at a worker.
    pub(crate) fn call(&mut self, worker: u8, call: Call) -> Result<Effect, Refusal>
        requires { IsControl self.old }
        ensures value { step_to result self.new ≡ at_worker (control_state self.old) worker (called call) }
        ensures told { IfOk result HasNoReply }
        ensures keeps { KeepsFile self.old self.new }
        ensures filled { self.new.filled ≡ self.old.filled }
        ensures err { OnErr result (self.new ≡ self.old) }
    {
        match self.doing_at(worker) {
            Some(WorkerState::Idle) => {
                self.workers[worker as usize] = WorkerState::Called(call);
                Ok(Effect::Called)
            }
            _ => Err(Refusal::WrongState),
        }
    }

    /// A call at the bucket of its key, at that bucket's level.
    pub(crate) fn aimed<'a>(&self, call: &'a Call) -> Act<'a>
        requires { IsControl self.now }
        ensures call { result.call.now ≡ call.now }
        ensures aimed { IsAimed self.now result }
    {
        // Its law: a code's address, at its own level, is an aim.
        linear_hashing();
        let Aim { level, bucket } = self.filled.aim(fnv1a(call.key().bytes()));
        Act {
            call,
            level,
            bucket,
        }
    }

    /// A worker reads the root.
    pub(crate) fn read(&mut self, worker: u8) -> Result<Effect, Refusal>
        requires { IsControl self.old }
        ensures value { step_to result self.new
            ≡ at_worker (control_state self.old) worker (read self.old.config (control_state self.old)) }
        ensures told { IfOk result HasNoReply }
        ensures keeps { KeepsFile self.old self.new }
        ensures filled { self.new.filled ≡ self.old.filled }
        ensures err { OnErr result (self.new ≡ self.old) }
    {
        match self.doing_at(worker) {
            Some(WorkerState::Called(call)) => {
                let Aim { level, bucket } = self.root.aim(fnv1a(call.key().bytes()));
                self.workers[worker as usize] = WorkerState::Aimed(*call, level, bucket);
                Ok(Effect::Aim { level, bucket })
            }
            _ => Err(Refusal::WrongState),
        }
    }

    /// A worker locks the bucket of its aim.
    pub(crate) fn lock(&mut self, worker: u8) -> Result<Effect, Refusal>
        requires { IsControl self.old }
        ensures value { step_to result self.new
            ≡ at_worker (control_state self.old) worker (lock self.old.config (control_state self.old)) }
        ensures told { IfOk result HasNoReply }
        ensures keeps { KeepsFile self.old self.new }
        ensures filled { self.new.filled ≡ self.old.filled }
        ensures err { OnErr result (self.new ≡ self.old) }
    {
        match self.doing_at(worker) {
            Some(WorkerState::Aimed(call, k, bucket)) => {
                let bucket = *bucket;
                if self.is_barred(call, bucket) {
                    Err(Refusal::Held)
                } else {
                    let level = self.level(bucket);
                    self.workers[worker as usize] = WorkerState::Holding(*call, *k, bucket);
                    Ok(Effect::Locked { bucket, level })
                }
            }
            _ => Err(Refusal::WrongState),
        }
    }

    /// A worker lets a bucket go that was split, and aims one level up.
    pub(crate) fn rehash(&mut self, worker: u8) -> Result<Effect, Refusal>
        requires { IsControl self.old }
        ensures value { step_to result self.new
            ≡ at_worker (control_state self.old) worker (rehash self.old.config (control_state self.old)) }
        ensures told { IfOk result HasNoReply }
        ensures keeps { KeepsFile self.old self.new }
        ensures filled { self.new.filled ≡ self.old.filled }
        ensures err { OnErr result (self.new ≡ self.old) }
    {
        match self.doing_at(worker) {
            Some(WorkerState::Holding(call, k, bucket)) => {
                if *k == self.level(*bucket) {
                    Err(Refusal::NothingToRehash)
                } else {
                    let level = *k + 1;
                    let bucket = hash_at(self.config.initial(), level, fnv1a(call.key().bytes()));
                    self.workers[worker as usize] = WorkerState::Aimed(*call, level, bucket);
                    Ok(Effect::Aim { level, bucket })
                }
            }
            _ => Err(Refusal::WrongState),
        }
    }

    /// A worker lets its bucket go.
    pub(crate) fn release(&mut self, worker: u8) -> Result<Effect, Refusal>
        requires { IsControl self.old }
        ensures value { step_to result self.new ≡ at_worker (control_state self.old) worker (release) }
        ensures told { IfOk result HasNoReply }
        ensures keeps { KeepsFile self.old self.new }
        ensures filled { self.new.filled ≡ self.old.filled }
        ensures err { OnErr result (self.new ≡ self.old) }
    {
        let effect = match self.doing_at(worker) {
            Some(WorkerState::Holding(_, _, _)) => Effect::GivenUp,
            Some(WorkerState::Acted(_, _)) => Effect::Released,
            _ => return Err(Refusal::WrongState),
        };
        self.workers[worker as usize] = WorkerState::Idle;
        Ok(effect)
    }

    /// The act that a worker may take now.
    pub(crate) fn act(&self, worker: u8) -> Result<Act<'_>, Refusal>
        requires { IsControl self.now }
        ensures allowed { IfOk result (λ act. allowed self.now.config (control_state self.now) (event.Act worker)
            ≡ Ok (None, acted (control_state self.now) worker act)) }
        ensures act { IfOk result (IsActOf self.now worker) }
        ensures refused { IfErr result (λ r.
            allowed self.now.config (control_state self.now) (event.Act worker) ≡ Err r) }
    {
        match self.doing_at(worker) {
            Some(WorkerState::Holding(call, level, bucket)) => {
                if *level < self.level(*bucket) {
                    Err(Refusal::MustRehash)
                } else {
                    Ok(Act {
                        call,
                        level: *level,
                        bucket: *bucket,
                    })
                }
            }
            Some(_) => Err(Refusal::WrongState),
            None => Err(Refusal::WrongState),
        }
    }

    /// Notes that a worker has acted.
    pub(crate) fn note_act(&mut self, worker: u8)
        requires control { IsControl self.old }
        requires there { worker < 16 }
        ensures state { (act : ActOf) → IsActOf self.old worker act →
            control_state self.new ≡ acted (control_state self.old) worker act }
        ensures keeps { KeepsFile self.old self.new }
        ensures filled { self.new.filled ≡ self.old.filled }
    {
        if let WorkerState::Holding(call, _, bucket) = self.workers[worker as usize] {
            self.workers[worker as usize] = WorkerState::Acted(call, bucket);
        }
    }
}
