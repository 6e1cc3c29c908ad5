//! Lists of steps.
ghost use Rattle.std.specs.Prelude.{◌≡◌, [], IfOk};
ghost use Rattle.lh_core.specs.Headline.{HasLedTo, IsHeadline};

use crate::effect::{Effect, Refusal};
use crate::event::Event;
use crate::world::World;
use lh_addr::Config;
use lh_bucket::{Bucket, Memory};
use std::alloc::Global;

/// The entries of a list of events, one for each, and the world that it left.
#[derive(Drop)]
pub struct Ran<B: Bucket> {
    pub entries: Vec<Result<Effect, Refusal>>,
    pub world: World<B>,
}

impl<B: Bucket> World<B> {
    /// Takes the steps of a list, one after another.
    fn take_all(
        &mut self,
        alloc: Global,
        events: &[Event],
    ) -> Result<Vec<Result<Effect, Refusal>>, Memory>
        requires { HasLedTo [] self.old }
        ensures { IfOk result (λ entries. IsHeadline self.old.config events.now entries.items self.new) }
    {
        let mut entries = Vec::with_capacity(alloc, events.len())?;
        for event in events {
            let entry = self.step(*event);
            entries.push(entry)?;
        }
        Ok(entries)
    }
}

/// Runs a list of events, sensible or not, on an empty file of this configuration.
///
/// A refused event is an entry, also where memory ran out for it; it changes nothing. The error of the
/// call itself means that there was no memory for the empty file or for the entries.
pub fn run<B: Bucket>(alloc: Global, config: Config, events: &[Event]) -> Result<Ran<B>, Memory>
    ensures { IfOk result (λ ran. IsHeadline config events.now ran.entries.items ran.world) }
{
    let mut world = World::new(alloc, config)?;
    let entries = world.take_all(alloc, events)?;
    Ok(Ran { entries, world })
}
