//! Sessions of one file.
ghost use denote.Ref.{Bor};
ghost use Rattle.std.specs.Prelude.{◌≡◌, ◌+◌, ◌≤◌, Bool, true, false, length, All, IfOk, vec_len, vec_capacity};
ghost use Rattle.lh_file.specs.FileState.{FileState};
ghost use Rattle.lh_store.specs.Histories.{IsOneHistory};
ghost use Rattle.lh_store.specs.Sessions.{no_state};

use crate::fault::CallFault;
use crate::room::{check_fit, check_room};
use crate::session::Session;
use crate::snapshots::Snapshots;
use crate::store::Store;
use crate::threads::ThreadSession;
use lh_file::laws::hands_keep_their_shares;
use lh_file::{
    BucketCopy, Compared, FileBrand, FileFault, Hand, Memory, Mode, NoGate, Scan, SizedFile,
    WIDEST_ROOM,
};
use lh_page::{Key, Value};
use std::alloc::Global;
use std::marker::{Brand, Model, PhantomData};
use std::mem;
use std::sync::Wait;

/// Names the file of sessions: a session that takes another one's place is then of the same file.
pub trait SessionName {
    // Whether there is a name,
    ghost is_named: { Bool };

    // and what contracts see of the file.
    ghost state: { FileState };
}

impl SessionName for Brand {
    ghost is_named = { true };

    ghost state = { no_state };
}

/// No file is named.
pub struct Unnamed;

impl SessionName for Unnamed {
    ghost is_named = { false };

    ghost state = { no_state };
}

/// A session of a file whose records have room for every key and every value.
pub type FileSession<'a, R, M, J, B> = SizedSession<'a, R, M, J, B, WIDEST_ROOM>;

/// A session of one file: the file, a hand of it, and the runtime. Each record has `ROOM` bytes for its key and its value
/// together.
#[derive(Drop)]
pub struct SizedSession<'a, R: Wait, M: Mode, J: FileBrand, B: SessionName, const ROOM: usize> {
    rt: &'a R,
    alloc: Global,
    file: &'a SizedFile<NoGate, M, J, ROOM>,
    hand: Hand,
    name: PhantomData<B>,
}

impl<'a, R: Wait, M: Mode, J: FileBrand, B: SessionName, const ROOM: usize> Model
    for SizedSession<'a, R, M, J, B, ROOM> {
    ghost use Rattle.lh_store.specs.Sessions.{SessionState, IsSession};

    ghost Value = { SessionState };

    ghost view = { λ own. record { file = own.file.now.state; hand = own.hand } };

    ghost invariant = { λ own. IsSession M.traced B.is_named B.state own.file.now.state own.hand };
}

impl<'a, R: Wait, M: Mode, J: FileBrand, B: SessionName, const ROOM: usize> SizedSession<
    'a,
    R,
    M,
    J,
    B,
    ROOM,
> {
    ghost use Rattle.lh_store.specs.Sessions.{IsSession};

    /// A session with this hand.
    pub(crate) fn new(
        rt: &'a R,
        alloc: Global,
        file: &'a SizedFile<NoGate, M, J, ROOM>,
        hand: Hand,
    ) -> SizedSession<'a, R, M, J, B, ROOM>
        requires { IsSession M.traced B.is_named B.state file.now.state hand }
        ensures { result ≡ record { file = file.now.state; hand = hand } }
    {
        SizedSession {
            rt,
            alloc,
            file,
            hand,
            name: PhantomData,
        }
    }

    /// A session of the same file for each of these hands.
    pub(crate) fn beside(&self, hands: Vec<Hand>) -> Result<Vec<Self>, Memory>
        requires { All (IsSession M.traced B.is_named B.state self.now.file) hands.items }
        ensures { IfOk result (λ sessions. length sessions.items ≡ length hands.items) }
    {
        let mut sessions = Vec::with_capacity(self.alloc, hands.len())?;
        for hand in hands {
            sessions.push_reserved(SizedSession {
                rt: self.rt,
                alloc: self.alloc,
                file: self.file,
                hand,
                name: PhantomData,
            });
        }
        Ok(sessions)
    }

    /// The records that all sessions leave so far, and how many acts they have made.
    pub(crate) fn left_by_all(&mut self) -> Result<(Store, u64), FileFault>
        ensures { M.traced ≡ true → B.is_named ≡ true →
            IfOk result (λ left. IsOneHistory B.state.listing left.1 left.0) }
    {
        let snapshot = self.file.snapshot(self.rt, &mut self.hand)?;
        let acts = snapshot.stamps();
        Ok((Store::of(snapshot.into_known_listing()), acts))
    }

    /// The hand.
    pub(crate) fn into_hand(self) -> Hand
        ensures { B.is_named ≡ true → IsSession M.traced B.is_named B.state B.state result }
    {
        self.hand
    }

    /// Joins a hand of the same file into this one's. No memory is taken, since neither keeps acts.
    fn join(&mut self, hand: Hand)
        requires named { B.is_named ≡ true }
        requires session { IsSession M.traced B.is_named B.state B.state hand }
        ensures { self.new.file ≡ self.old.file }
    {
        hands_keep_their_shares();
        let Ok(spare) = self.file.split_hand(&mut self.hand, 0) else {
            return;
        };
        let first = mem::replace(&mut self.hand, spare);
        match self.file.join_hands(first, hand) {
            Ok(joined) => self.hand = joined,
            // Neither hand has acts.
            Err(_) => unreachable!(),
        }
    }
}

impl<'a, R: Wait, M: Mode, J: FileBrand, B: SessionName, const ROOM: usize> Session
    for SizedSession<'a, R, M, J, B, ROOM> {
    ghost use Rattle.lh_file.specs.Calls.Served.{KnowsMore};
    ghost use Rattle.lh_file.specs.History.Telling.{HasTold};
    ghost use Rattle.lh_file.specs.Words.Calls.{IsBuckets};
    ghost use Rattle.lh_store.specs.Sessions.{IsMade, IsMet};

    ghost made = { λ old call reply new. IsMade M.traced old.hand call reply new.hand };

    ghost met = { λ old call reply was new. IsMet M.traced old.hand call reply was new.hand };

    ghost idle = { λ old new. KnowsMore old.hand new.hand };

    ghost counts = { λ old buckets new. IsBuckets old.file old.hand buckets new.hand };

    ghost tells = { λ old acts new. HasTold M.traced old.file old.hand acts new.hand };

    ghost room = { ROOM };

    #[inline(always)]
    fn get(&mut self, key: &[u8]) -> Result<Option<Value>, CallFault> {
        let key = Key::new(key)?;
        Ok(self.file.get(self.rt, &mut self.hand, &key)?)
    }

    #[inline(always)]
    fn read_into(&mut self, key: &[u8], value: &mut Value) -> Result<bool, CallFault> {
        let key = Key::new(key)?;
        Ok(self.file.read_into(self.rt, &mut self.hand, &key, value)?)
    }

    #[inline(always)]
    fn with_value<T, F: FnOnce(&[u8]) -> T + Drop>(
        &mut self,
        key: &[u8],
        then: F,
    ) -> Result<Option<T>, CallFault> {
        let key = Key::new(key)?;
        Ok(self.file.with_value(self.rt, &mut self.hand, &key, then)?)
    }

    #[inline(always)]
    fn put(&mut self, key: &[u8], value: &[u8]) -> Result<bool, CallFault> {
        let key = Key::new(key)?;
        let value = Value::new(value)?;
        check_fit::<ROOM>(&key, &value)?;
        Ok(self.file.put(self.rt, &mut self.hand, &key, &value)?)
    }

    #[inline(always)]
    fn set(&mut self, key: &[u8], value: &[u8]) -> Result<bool, CallFault> {
        let key = Key::new(key)?;
        let value = Value::new(value)?;
        check_fit::<ROOM>(&key, &value)?;
        Ok(self.file.set(self.rt, &mut self.hand, &key, &value)?)
    }

    #[inline(always)]
    fn remove(&mut self, key: &[u8]) -> Result<bool, CallFault> {
        let key = Key::new(key)?;
        Ok(self.file.remove(self.rt, &mut self.hand, &key)?)
    }

    #[inline(always)]
    fn upsert(&mut self, key: &[u8], value: &[u8]) -> Result<bool, CallFault> {
        let key = Key::new(key)?;
        let value = Value::new(value)?;
        check_fit::<ROOM>(&key, &value)?;
        Ok(self.file.upsert(self.rt, &mut self.hand, &key, &value)?)
    }

    #[inline(always)]
    fn get_or_put(&mut self, key: &[u8], value: &[u8]) -> Result<Option<Value>, CallFault> {
        let key = Key::new(key)?;
        let value = Value::new(value)?;
        check_fit::<ROOM>(&key, &value)?;
        Ok(self.file.get_or_put(self.rt, &mut self.hand, &key, &value)?)
    }

    #[inline(always)]
    fn take(&mut self, key: &[u8]) -> Result<Option<Value>, CallFault> {
        let key = Key::new(key)?;
        Ok(self.file.take(self.rt, &mut self.hand, &key)?)
    }

    #[inline(always)]
    fn update_within<F: FnOnce(&[u8]) -> Value + Drop>(
        &mut self,
        key: &[u8],
        most: usize,
        change: F,
    ) -> Result<bool, CallFault> {
        let key = Key::new(key)?;
        check_room::<ROOM>(key.bytes().len() + most)?;
        Ok(self.file.update(self.rt, &mut self.hand, &key, change)?)
    }

    #[inline(always)]
    fn merge_within<F: FnOnce(&[u8]) -> Value + Drop>(
        &mut self,
        key: &[u8],
        first: &[u8],
        most: usize,
        next: F,
    ) -> Result<bool, CallFault> {
        let key = Key::new(key)?;
        let first = Value::new(first)?;
        check_room::<ROOM>(key.bytes().len() + first.bytes().len().max(most))?;
        Ok(
            self.file
                .merge(self.rt, &mut self.hand, &key, &first, next)?,
        )
    }

    #[inline(always)]
    fn compare_and_set(
        &mut self,
        key: &[u8],
        expected: &[u8],
        value: &[u8],
    ) -> Result<Compared, CallFault> {
        let key = Key::new(key)?;
        let expected = Value::new(expected)?;
        let value = Value::new(value)?;
        check_fit::<ROOM>(&key, &value)?;
        Ok(
            self.file
                .compare_and_set(self.rt, &mut self.hand, &key, &expected, &value)?,
        )
    }

    #[inline(always)]
    fn contains(&mut self, key: &[u8]) -> Result<bool, CallFault> {
        let found = self.with_value(key, |_bytes: &[u8]| ())?;
        Ok(found.is_some())
    }

    fn len(&mut self) -> u64 {
        let load = self.file.load(&mut self.hand);
        load.opening
            .saturating_add(load.inserted)
            .saturating_sub(load.deleted)
    }

    fn buckets(&mut self) -> u64 {
        u64::from(self.file.buckets(&mut self.hand))
    }

    fn told(&mut self) -> u64 {
        self.file.told(&mut self.hand)
    }

    fn left(&self) -> u64 {
        self.hand.left()
    }

    fn for_each<F: FnMut(BucketCopy)>(&mut self, f: F) -> Result<(), CallFault> {
        let mut scan = Scan::new(self.alloc, self.file)?;
        scan.for_each(self.rt, self.file, &mut self.hand, f)?;
        Ok(())
    }
}

impl<'a, R: Wait, M: Mode, J: FileBrand, B: SessionName, const ROOM: usize> Snapshots
    for SizedSession<'a, R, M, J, B, ROOM> {
    ghost use Rattle.lh_store.specs.Histories.{IsLeftByAll};

    ghost leaves = { λ own listing. IsLeftByAll M.traced own.file.listing listing };

    fn snapshot(&mut self) -> Result<Store, CallFault> {
        let snapshot = self.file.snapshot(self.rt, &mut self.hand)?;
        Ok(Store::of(snapshot.into_known_listing()))
    }
}

impl<'a, R: Wait, M: Mode, J: FileBrand, B: SessionName, const ROOM: usize> ThreadSession
    for SizedSession<'a, R, M, J, B, ROOM> {
    ghost named = { B.is_named };

    fn alloc(&self) -> Global {
        self.alloc
    }

    fn divide(&mut self, threads: u32) -> Result<Vec<Self>, Memory> {
        let share = self.hand.left() / (u64::from(threads) + 1);
        match self.file.split_hands(&mut self.hand, threads, share) {
            Ok(hands) => self.beside(hands),
            Err(_) => Err(Memory),
        }
    }

    fn unite(&mut self, part: Self) {
        self.join(part.into_hand());
    }
}
