//! The world: a file of buckets, and who does what there.
ghost use Rattle.std.specs.Prelude.{◌≡◌, ◌<◌, ◌≤◌, ◌∷◌, [], map, IfOk, OnErr, Some, slice_get};
ghost use Rattle.std.specs.FinMap.{empty};
ghost use Rattle.lh_bucket.specs.PlainMap.{Records};
ghost use Rattle.lh_core.specs.declared.event.Event.TheVariants as event;
ghost use Rattle.lh_core.specs.State.{first};
ghost use Rattle.lh_core.specs.History.{IsEntry};
ghost use Rattle.lh_core.specs.Log.{Log};
ghost use Rattle.lh_core.specs.Headline.{HasLedTo};
ghost use Rattle.lh_core.specs.Kept.{IsWorld};
ghost use Rattle.lh_core.specs.Control.{IsQuiet};
ghost use Rattle.lh_core.specs.World.{IsStep, StandsFor, FollowsMap, bucket_at};

use crate::control::Control;
use crate::effect::{Effect, Refusal};
use crate::event::Event;
use crate::laws::linear_hashing;
use crate::row::{divide, first_row, serve};
use crate::state::{SplitState, WorkerState};
use lh_addr::{Config, Root};
use lh_bucket::{Bucket, Memory};
use std::alloc::Global;
use std::marker::Model;

/// A linear hash file, sixteen workers and one splitter. Nothing waits here: a step that the
/// state does not allow is refused.
#[derive(Drop)]
pub struct World<B: Bucket> {
    pub(crate) control: Control,
    pub(crate) buckets: Vec<B>,
}

impl<B: Bucket> Model for World<B> {
    ghost use Rattle.std.specs.Prelude.{map};
    ghost use Rattle.lh_core.specs.World.{WorldSeen};
    ghost use Rattle.lh_core.specs.Kept.{IsWorld};
    ghost use Rattle.lh_core.specs.Control.{IsControl, world_of};

    ghost Value = { WorldSeen };

    ghost view = { λ w. world_of w.control (map B.seen w.buckets.items) };

    ghost invariant = { λ w. IsControl w.control × IsWorld (world_of w.control (map B.seen w.buckets.items)) };
}

impl<B: Bucket> World<B> {
    /// An empty file of this configuration, with its initial buckets. Nobody is at work.
    pub fn new(alloc: Global, config: Config) -> Result<World<B>, Memory>
        ensures config { IfOk result (λ w. w.config ≡ config) }
        ensures state { IfOk result (λ w. w.state ≡ first config) }
        ensures empty { IfOk result (λ w. StandsFor w empty) }
        ensures led { IfOk result (HasLedTo []) }
    {
        // Its laws: at first each bucket is at level 0.
        linear_hashing();
        let root = config.root(config.initial());
        let buckets = first_row(alloc, &config)?;
        let control = Control {
            config,
            root,
            filled: root,
            workers: [WorkerState::Idle; 16],
            splitter: SplitState::Idle,
        };
        Ok(World { control, buckets })
    }

    fn act(&mut self, worker: u8) -> Result<Effect, Refusal>
        ensures step { IsStep self.old (event.Act worker) result self.new }
        ensures unchanged { OnErr result (self.new ≡ self.old) }
    {
        // Its laws: each aim leads to a filled bucket after the act too.
        linear_hashing();
        match self.control.act(worker) {
            Ok(act) => match serve(&self.control, &mut self.buckets, &act) {
                Ok(reply) => {
                    self.control.note_act(worker);
                    Ok(Effect::Answered(reply))
                }
                Err(Memory) => Err(Refusal::Memory),
            },
            Err(refusal) => Err(refusal),
        }
    }

    fn move_records(&mut self) -> Result<Effect, Refusal>
        ensures step { IsStep self.old event.SplitMove result self.new }
        ensures unchanged { OnErr result (self.new ≡ self.old) }
    {
        // Its laws: each aim leads to a filled bucket after the move too.
        linear_hashing();
        match self.control.moving() {
            Ok(effect) => {
                match divide(*self.buckets.allocator(), &self.control, &mut self.buckets) {
                    Ok(()) => {
                        self.control.note_move();
                        Ok(effect)
                    }
                    Err(Memory) => Err(Refusal::Memory),
                }
            }
            Err(refusal) => Err(refusal),
        }
    }

    fn turn(&mut self, event: Event) -> Result<Effect, Refusal>
        requires { IsQuiet event }
        ensures step { IsStep self.old event result self.new }
        ensures unchanged { OnErr result (self.new ≡ self.old) }
    {
        // Its laws: each aim leads to a filled bucket after the step too.
        linear_hashing();
        self.control.turn(event)
    }

    fn advance(&mut self, event: Event) -> Result<Effect, Refusal>
        ensures step { IsStep self.old event result self.new }
        ensures unchanged { OnErr result (self.new ≡ self.old) }
    {
        match event {
            Event::Act(worker) => self.act(worker),
            Event::SplitMove => self.move_records(),
            _ => self.turn(event),
        }
    }

    /// What holds of every world.
    pub(crate) fn is_kept(&self)
        ensures { IsWorld self.now }
    {
        // What is inside a world tells what holds of it.
        let _ = &self.control;
    }

    /// Takes one step, if the state allows it: the effect, or the first refusal that applies.
    pub fn step(&mut self, event: Event) -> Result<Effect, Refusal>
        ensures config { self.new.config ≡ self.old.config }

        // Entry and state are those of the rules.
        ensures ruled { IsEntry self.old.config self.old.state event result self.new.state }

        // A refusal leaves everything as it was.
        ensures unchanged { OnErr result (self.new ≡ self.old) }

        // Whatever map the buckets stand for, the step answers and changes as that map does.
        ensures follows { (m : Records) → StandsFor self.old m → FollowsMap self.old m event result self.new }

        // Whatever steps have led here, those and this one have led to the new world.
        ensures led { (log : Log) → HasLedTo log self.old → HasLedTo ((event, result) ∷ log) self.new }
    {
        // Its laws: what holds of a log holds of one step more, by what is kept before the step and after it.
        linear_hashing();
        self.is_kept();
        let entry = self.advance(event);
        self.is_kept();
        entry
    }

    /// The root, which calls begin from.
    pub fn root(&self) -> Root
        ensures value { result ≡ record { initial = self.now.config.initial; buckets = self.now.state.buckets } }
        ensures kept { IsWorld self.now }
    {
        self.control.root
    }

    /// The number of filled buckets: that of the root, or one more from the move of a split's
    /// records until the pointer moves.
    pub fn filled(&self) -> u32
        ensures value { result ≡ self.now.state.filled }
        ensures kept { IsWorld self.now }
    {
        self.control.filled.buckets()
    }

    /// What a worker, 0 to 15, is doing.
    pub fn worker(&self, worker: u8) -> WorkerState
        requires { worker < 16 }
        ensures { slice_get self.now.state.workers worker ≡ Some result }
    {
        self.control.workers[worker as usize]
    }

    /// What the splitter is doing.
    pub fn splitter(&self) -> SplitState
        ensures { result ≡ self.now.state.splitter }
    {
        self.control.splitter
    }

    /// A filled bucket.
    pub fn bucket(&self, i: u32) -> &B
        requires { i < self.now.state.filled }
        ensures { slice_get self.now.buckets i ≡ Some (B.seen result.now) }
    {
        &self.buckets[i as usize]
    }
}
