//! A file with one caller.
ghost use Rattle.std.specs.Prelude.{◌≡◌, ◌+◌, ◌-◌, ◌^◌, ◌<◌, ◌≤◌, [], length, Ok, IsTrue, IfOk, OnErr, OnOk, false};
ghost use Rattle.std.specs.Prelude.{true};
ghost use Rattle.std.specs.Result.{IsOk};
ghost use Rattle.std.specs.FinMap.{len};
ghost use Rattle.lh_bucket.specs.PlainMap.{IsInsert, Records};
ghost use Rattle.lh_core.specs.History.{may_want_memory};
ghost use Rattle.lh_core.specs.Rules.{allowed};
ghost use Rattle.lh_core.specs.Serial.{IsAtRest, IsGivenUp, IsGrownAfter, IsServedAlone, IsServedOn, IsSerial};
ghost use Rattle.lh_core.specs.Serial.{IsSerialFrom, HasGrown, HasRecords, grows_after, count_after};
ghost use Rattle.lh_core.specs.World.{IsStep, StandsFor};

use crate::effect::{Effect, Refusal};
use crate::event::Event;
use crate::row::serve;
use crate::world::World;
use lh_addr::Config;
use lh_bucket::{Bucket, Call, Memory, Reply};
use std::alloc::Global;

/// The replies to calls, one for each, and the world that they left.
#[derive(Drop)]
pub struct SerialRan<B: Bucket> {
    pub replies: Vec<Reply>,
    pub world: World<B>,
}

/// What came of a call whose caller goes on where memory runs out.
#[derive(Clone, Copy)]
pub struct Served {
    pub reply: Reply,
    /// The number of records from now on.
    pub records: u64,
    /// Whether it asked for a split, and memory ran out for that.
    pub split_refused: bool,
}

/// The number of records after a reply.
fn count_after(records: u64, reply: &Reply) -> u64
    requires { records < 2 ^ 64 - 1 }
    ensures value { result ≡ count_after records reply.now }
    ensures few { result ≤ records + 1 }
{
    match reply {
        Reply::Inserted => records + 1,
        Reply::Deleted => records.saturating_sub(1),
        _ => records,
    }
}

impl<B: Bucket> World<B> {
    /// Takes a step that the rules allow, so that only memory may run out.
    fn take(&mut self, event: Event) -> Result<Effect, Memory>
        requires { IsOk (allowed self.old.config self.old.state event) }
        ensures ok { IfOk result (λ effect. IsStep self.old event (Ok effect) self.new) }
        ensures err { OnErr result (self.new ≡ self.old) }
        ensures wanted { OnErr result (may_want_memory self.old.state event ≡ true) }
    {
        match self.step(event) {
            Ok(effect) => Ok(effect),
            Err(Refusal::Memory) => Err(Memory),
            // The rules have no refusal for it.
            Err(_) => unreachable!(),
        }
    }

    /// Takes a step that the rules allow, and that takes no memory.
    fn take_free(&mut self, event: Event) -> Effect
        requires allowed { IsOk (allowed self.old.config self.old.state event) }
        requires free { may_want_memory self.old.state event ≡ false }
        ensures { IsStep self.old event (Ok result) self.new }
    {
        match self.take(event) {
            Ok(effect) => effect,
            // It takes no memory.
            Err(Memory) => unreachable!(),
        }
    }

    /// Serves a call by the five steps of worker 0, where nobody else is at work. Where memory runs out,
    /// the worker gives the call up.
    fn serve_alone(&mut self, call: Call) -> Result<Reply, Memory>
        requires { IsAtRest self.old.state }
        ensures ok { IfOk result (λ reply. IsServedAlone self.old call reply self.new) }
        ensures err { OnErr result (IsGivenUp self.old self.new) }
        ensures insert { OnErr result (IsInsert call) }
    {
        // What holds of every world: by it the rules allow each of the five steps.
        self.is_kept();
        self.take_free(Event::Call(0, call));
        self.take_free(Event::Read(0));
        self.take_free(Event::Lock(0));
        match self.take(Event::Act(0)) {
            Ok(effect) => {
                self.take_free(Event::Release(0));
                match effect {
                    Effect::Answered(reply) => Ok(reply),
                    // An act tells a reply.
                    _ => unreachable!(),
                }
            }
            Err(Memory) => {
                self.take_free(Event::Release(0));
                Err(Memory)
            }
        }
    }

    /// Splits once, where nobody is at work and the file may grow. Where memory runs out, the splitter
    /// gives the split up.
    fn grow(&mut self) -> Result<(), Memory>
        requires rest { IsAtRest self.old.state }
        requires room { self.old.state.buckets < self.old.config.max }
        ensures ok { OnOk result (HasGrown self.old self.new) }
        ensures err { OnErr result (IsGivenUp self.old self.new) }
    {
        // What holds of every world: by it the rules allow each of the five steps.
        self.is_kept();
        self.take_free(Event::SplitBegin);
        self.take_free(Event::SplitLock);
        match self.take(Event::SplitMove) {
            Ok(_) => {
                self.take_free(Event::SplitRelease);
                self.take_free(Event::SplitPoint);
                Ok(())
            }
            Err(Memory) => {
                self.take_free(Event::SplitRelease);
                self.take_free(Event::SplitDrop);
                Err(Memory)
            }
        }
    }

    /// Whether the split policy wants a split after a reply that left this number of records.
    fn wants(&self, reply: &Reply, records: u64) -> bool
        ensures value { result ≡ grows_after self.now.config records self.now.state.buckets reply.now }
        ensures room { IsTrue result → self.now.state.buckets < self.now.config.max }
    {
        match reply {
            Reply::Inserted => self
                .control
                .config
                .wants_split(records, self.control.root.buckets()),
            _ => false,
        }
    }

    /// Counts the record of a call that got this reply, and splits once where the policy wants it. The number of records
    /// was `records`.
    fn grow_after(&mut self, reply: Reply, records: u64) -> Served
        requires rest { IsAtRest self.old.state }
        requires few { records < 2 ^ 64 - 1 }
        ensures reply { result.reply ≡ reply }
        ensures count { result.records ≡ count_after records reply }
        ensures few { result.records ≤ records + 1 }
        ensures grown { IsGrownAfter self.old result.records reply result.split_refused self.new }
    {
        let count = count_after(records, &reply);
        let split_refused = self.wants(&reply, count) && self.grow().is_err();
        Served {
            reply,
            records: count,
            split_refused,
        }
    }

    /// Serves a call of a caller who goes on where memory runs out, and splits once where the policy wants
    /// it. The number of records was `records`.
    ///
    /// It does at once what the five steps of a worker do: nobody else is there to see that they are one. Only an insert
    /// may fail; then nothing has changed. Where memory runs out for the split alone, the call is served, and the next
    /// record that is added asks for a split again.
    pub fn serve(&mut self, call: Call, records: u64) -> Result<Served, Memory>
        requires rest { IsAtRest self.old.state }
        requires few { records < 2 ^ 64 - 1 }
        ensures served { (m : Records) → StandsFor self.old m → records ≡ len m →
            IfOk result (λ it. IsServedOn self.old m call it.reply it.records it.split_refused self.new) }
        ensures rest { IsAtRest self.new.state }
        ensures err { OnErr result (IsGivenUp self.old self.new) }
        ensures insert { OnErr result (IsInsert call) }
    {
        let act = self.control.aimed(&call);
        let reply = serve(&self.control, &mut self.buckets, &act)?;
        Ok(self.grow_after(reply, records))
    }

    /// Serves calls one after another, from this number of records on.
    pub(crate) fn serve_all(
        &mut self,
        alloc: Global,
        calls: &[Call],
        start: u64,
    ) -> Result<Vec<Reply>, Memory>
        requires rest { IsAtRest self.old.state }
        requires records { HasRecords self.old start }
        requires room { start + length calls.now < 2 ^ 64 }
        ensures served { (m : Records) → StandsFor self.old m → start ≡ len m →
            IfOk result (λ replies. IsSerialFrom self.old.config m self.old.state.buckets
            calls.now replies.items self.new) }
        ensures unchanged { calls.now ≡ [] → OnOk result (self.new ≡ self.old) }
    {
        let mut replies = Vec::with_capacity(alloc, calls.len())?;
        let mut records = start;
        for call in calls {
            let reply = self.serve_alone(*call)?;
            let served = self.grow_after(reply, records);
            if served.split_refused {
                return Err(Memory);
            }
            records = served.records;
            replies.push(served.reply)?;
        }
        // What holds of every world: each bucket has its local level.
        self.is_kept();
        Ok(replies)
    }
}

/// Serves calls one after another on an empty file of this configuration, which grows by the split
/// policy.
///
/// Each call takes the five steps of one worker, and each split the five of the splitter. It fails only
/// where memory runs out.
pub fn serial<B: Bucket>(
    alloc: Global,
    config: Config,
    calls: &[Call],
) -> Result<SerialRan<B>, Memory>
    ensures { IfOk result (λ ran. IsSerial config calls.now ran.replies.items ran.world) }
{
    let mut world = World::new(alloc, config)?;
    let replies = world.serve_all(alloc, calls, 0)?;
    Ok(SerialRan { replies, world })
}
