//! Several files as one open table.
ghost use Rattle.std.specs.Prelude.{◌≡◌, ◌↔◌, false, length, Err, IfOk, IfErr};
ghost use Rattle.lh_shards.specs.Closing.{AreClosedBy};
ghost use Rattle.lh_shards.specs.Hands.{AreCreated, IsCount};
ghost use Rattle.lh_shards.specs.Opening.{AreOpened};
ghost use Rattle.lh_shards.specs.OpenFault.{IsOpenFault};

use crate::all_shards::hands_for;
use crate::sharded_session::{ShardedSession, sessions_of};
use lh_bucket::Listing;
use lh_shards::{ClosedShards, CreateFault, Hands, OpenFault, Shards, SplitFault};
use lh_store::{Config, Memory};
use std::alloc::Global;
use std::marker::Model;
use std::sync::Wait;

/// How many calls a session may make on each shard.
const SESSION_CALLS: u64 = 1 << 44;

/// Several files as one table that is open, for more records than one file has room for. The code of a key chooses its
/// file. The history isn't traced: no call says what others did.
///
/// Threads share a table by its [`sessions`](Self::sessions), one for each.
#[derive(Drop)]
pub struct ShardStore {
    alloc: Global,
    shards: Shards,
    hands: Hands,
}

impl Model for ShardStore {
    ghost use Rattle.lh_shard_store.specs.ShardedSessions.{ShardedState};
    ghost use Rattle.lh_shards.specs.Hands.{AreOf};

    ghost Value = { ShardedState };

    ghost view = { λ own. record { files = own.shards; hands = own.hands } };

    ghost invariant = { λ own. AreOf own.shards own.hands };
}

impl ShardStore {
    /// A table of so many shards, 1 to 1,024, with no records. Each shard has this configuration.
    pub fn new(alloc: Global, config: Config, shards: u32) -> Result<ShardStore, CreateFault>
        ensures created { IfOk result (λ it. AreCreated shards config false it.files it.hands) }
        ensures count { (result ≡ Err CreateFault.Count) ↔ (¬ (IsCount shards)) }
    {
        let (shards, hands) = Shards::create(alloc, config, shards, false)?;
        Ok(ShardStore {
            alloc,
            shards,
            hands,
        })
    }

    /// A table with the records of listings, one a shard, such as those of a table of as many shards that was
    /// [closed](Self::close).
    pub fn open(alloc: Global, listings: &[Listing]) -> Result<ShardStore, OpenFault>
        ensures opened { IfOk result (λ it. AreOpened listings.now false it.files it.hands) }
        ensures err { IfErr result (IsOpenFault listings.now) }
    {
        let (shards, hands) = Shards::open_from(alloc, listings, false)?;
        Ok(ShardStore {
            alloc,
            shards,
            hands,
        })
    }

    /// The number of shards.
    pub fn shards(&self) -> u32
        ensures value { result ≡ length self.now.files }
        ensures range { IsCount result }
    {
        self.shards.count()
    }

    /// A session of this table, which may make 2^44 calls on each shard. A table serves half a million sessions.
    pub fn session<'a, R: Wait>(
        &'a mut self,
        rt: &'a R,
    ) -> Result<ShardedSession<'a, R>, SplitFault>
        ensures { IfOk result (λ session. session.files ≡ self.old.files) }
    {
        let hands = self.shards.split_hands(&mut self.hands, SESSION_CALLS)?;
        Ok(ShardedSession::new(rt, self.alloc, &self.shards, hands))
    }

    /// As many sessions at once, such as for threads of the caller's own.
    pub fn sessions<'a, R: Wait>(
        &'a mut self,
        rt: &'a R,
        threads: u32,
    ) -> Result<Vec<ShardedSession<'a, R>>, SplitFault>
        ensures { IfOk result (λ sessions. length sessions.items ≡ threads) }
    {
        let hands = hands_for(
            self.alloc,
            &self.shards,
            &mut self.hands,
            threads,
            SESSION_CALLS,
        )?;
        Ok(sessions_of(rt, self.alloc, &self.shards, hands)?)
    }

    /// Closes the table. What its shards hold may go on as [listings](ClosedShards::into_listings), from which a table of
    /// as many shards is [opened](Self::open).
    pub fn close<R: Wait>(self, rt: &R) -> Result<ClosedShards, Memory>
        ensures { IfOk result (AreClosedBy false self.files self.hands) }
    {
        let ShardStore { shards, hands, .. } = self;
        shards.close(rt, hands)
    }
}
