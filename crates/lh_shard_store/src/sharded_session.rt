//! Sessions of several files as one table.
ghost use Rattle.std.specs.Prelude.{◌≡◌, ◌^◌, ◌<◌, ◌≤◌, ℕ, false, length, All, IfOk};
ghost use Rattle.lh_page.specs.Slots.{widest_room};
ghost use Rattle.lh_shards.specs.Counts.{IsActSum, IsBucketSum};
ghost use Rattle.lh_shards.specs.Dividing.{AllHave};
ghost use Rattle.lh_shards.specs.Hands.{AreOf};
ghost use Rattle.lh_shard_store.specs.ShardedSessions.{HasIdled, IsMadeAtHome, IsRecordSum};

use crate::all_shards::give_all;
use lh_shards::{Hands, Shards};
use lh_store::{BucketCopy, CallFault, Compared, Key, Memory, Session, Value};
use std::alloc::Global;
use std::marker::Model;
use std::sync::Wait;

/// A session of several files as one table: the files, hands of them, and the runtime.
#[derive(Drop)]
pub struct ShardedSession<'a, R: Wait> {
    rt: &'a R,
    alloc: Global,
    shards: &'a Shards,
    hands: Hands,
}

impl<'a, R: Wait> Model for ShardedSession<'a, R> {
    ghost use Rattle.lh_shard_store.specs.ShardedSessions.{ShardedState};
    ghost use Rattle.lh_shards.specs.Hands.{AreOf};

    ghost Value = { ShardedState };

    ghost view = { λ own. record { files = own.shards.now; hands = own.hands } };

    ghost invariant = { λ own. AreOf own.shards.now own.hands };
}

impl<'a, R: Wait> ShardedSession<'a, R> {
    /// A session with these hands.
    pub(crate) fn new(
        rt: &'a R,
        alloc: Global,
        shards: &'a Shards,
        hands: Hands,
    ) -> ShardedSession<'a, R>
        requires { AreOf shards.now hands }
        ensures { result ≡ record { files = shards.now; hands = hands } }
    {
        ShardedSession {
            rt,
            alloc,
            shards,
            hands,
        }
    }
}

/// A session for each of these hands.
pub(crate) fn sessions_of<'a, R: Wait>(
    rt: &'a R,
    alloc: Global,
    shards: &'a Shards,
    hands: Vec<Hands>,
) -> Result<Vec<ShardedSession<'a, R>>, Memory>
    requires { All (AreOf shards.now) hands.items }
    ensures { IfOk result (λ sessions. length sessions.items ≡ length hands.items) }
{
    let mut sessions = Vec::with_capacity(alloc, hands.len())?;
    for own in hands {
        sessions.push_reserved(ShardedSession::new(rt, alloc, shards, own));
    }
    Ok(sessions)
}

impl<'a, R: Wait> Session for ShardedSession<'a, R> {
    ghost made = { IsMadeAtHome };

    ghost met = { λ old call reply _ new. IsMadeAtHome old call reply new };

    ghost idle = { HasIdled };

    ghost counts = { λ old buckets new. IsBucketSum old.files old.hands buckets new.hands };

    ghost tells = { λ old acts new. IsActSum false old.files old.hands acts new.hands };

    ghost room = { widest_room };

    #[inline(always)]
    fn get(&mut self, key: &[u8]) -> Result<Option<Value>, CallFault> {
        let key = Key::new(key)?;
        Ok(self.shards.get(self.rt, &mut self.hands, &key)?)
    }

    #[inline(always)]
    fn read_into(&mut self, key: &[u8], value: &mut Value) -> Result<bool, CallFault> {
        let key = Key::new(key)?;
        Ok(
            self.shards
                .read_into(self.rt, &mut self.hands, &key, value)?,
        )
    }

    #[inline(always)]
    fn with_value<T, F: FnOnce(&[u8]) -> T + Drop>(
        &mut self,
        key: &[u8],
        then: F,
    ) -> Result<Option<T>, CallFault> {
        let key = Key::new(key)?;
        Ok(
            self.shards
                .with_value(self.rt, &mut self.hands, &key, then)?,
        )
    }

    #[inline(always)]
    fn put(&mut self, key: &[u8], value: &[u8]) -> Result<bool, CallFault> {
        let key = Key::new(key)?;
        let value = Value::new(value)?;
        Ok(self.shards.put(self.rt, &mut self.hands, &key, &value)?)
    }

    #[inline(always)]
    fn set(&mut self, key: &[u8], value: &[u8]) -> Result<bool, CallFault> {
        let key = Key::new(key)?;
        let value = Value::new(value)?;
        Ok(self.shards.set(self.rt, &mut self.hands, &key, &value)?)
    }

    #[inline(always)]
    fn remove(&mut self, key: &[u8]) -> Result<bool, CallFault> {
        let key = Key::new(key)?;
        Ok(self.shards.remove(self.rt, &mut self.hands, &key)?)
    }

    #[inline(always)]
    fn upsert(&mut self, key: &[u8], value: &[u8]) -> Result<bool, CallFault> {
        let key = Key::new(key)?;
        let value = Value::new(value)?;
        Ok(self.shards.upsert(self.rt, &mut self.hands, &key, &value)?)
    }

    #[inline(always)]
    fn get_or_put(&mut self, key: &[u8], value: &[u8]) -> Result<Option<Value>, CallFault> {
        let key = Key::new(key)?;
        let value = Value::new(value)?;
        Ok(
            self.shards
                .get_or_put(self.rt, &mut self.hands, &key, &value)?,
        )
    }

    #[inline(always)]
    fn take(&mut self, key: &[u8]) -> Result<Option<Value>, CallFault> {
        let key = Key::new(key)?;
        Ok(self.shards.take(self.rt, &mut self.hands, &key)?)
    }

    #[inline(always)]
    fn update_within<F: FnOnce(&[u8]) -> Value + Drop>(
        &mut self,
        key: &[u8],
        _most: usize,
        change: F,
    ) -> Result<bool, CallFault> {
        let key = Key::new(key)?;
        Ok(self.shards.update(self.rt, &mut self.hands, &key, change)?)
    }

    #[inline(always)]
    fn merge_within<F: FnOnce(&[u8]) -> Value + Drop>(
        &mut self,
        key: &[u8],
        first: &[u8],
        _most: usize,
        next: F,
    ) -> Result<bool, CallFault> {
        let key = Key::new(key)?;
        let first = Value::new(first)?;
        Ok(
            self.shards
                .merge(self.rt, &mut self.hands, &key, &first, next)?,
        )
    }

    #[inline(always)]
    fn compare_and_set(
        &mut self,
        key: &[u8],
        expected: &[u8],
        value: &[u8],
    ) -> Result<Compared, CallFault> {
        let key = Key::new(key)?;
        let expected = Value::new(expected)?;
        let value = Value::new(value)?;
        Ok(
            self.shards
                .compare_and_set(self.rt, &mut self.hands, &key, &expected, &value)?,
        )
    }

    #[inline(always)]
    fn contains(&mut self, key: &[u8]) -> Result<bool, CallFault> {
        let found = self.with_value(key, |_bytes: &[u8]| ())?;
        Ok(found.is_some())
    }

    fn len(&mut self) -> u64
        ensures idle { HasIdled self.old self.new }
        ensures sum { IsRecordSum self.old result self.new }
    {
        let load = self.shards.load(&mut self.hands);
        load.opening
            .saturating_add(load.inserted)
            .saturating_sub(load.deleted)
    }

    fn buckets(&mut self) -> u64 {
        self.shards.buckets(&mut self.hands)
    }

    fn told(&mut self) -> u64 {
        self.shards.acts(&mut self.hands)
    }

    fn left(&self) -> u64
        ensures all { AllHave result self.now.hands }
        ensures most { (calls : ℕ) → calls < 2 ^ 64 → AllHave calls self.now.hands → calls ≤ result }
    {
        self.hands.left()
    }

    fn for_each<F: FnMut(BucketCopy)>(&mut self, f: F) -> Result<(), CallFault> {
        give_all(self.rt, self.alloc, self.shards, &mut self.hands, f)?;
        Ok(())
    }
}
