//! Tables without history, whose sessions are made at any time.
ghost use Rattle.std.specs.Prelude.{◌≡◌, true, false, length, IfOk, IfErr, OnOk};
ghost use Rattle.lh_file.specs.Buckets.Rooms.{FitListing};
ghost use Rattle.lh_page.specs.Slots.{IsRoom};
ghost use Rattle.lh_store.specs.Rooms.{NamesMisfit};
ghost use Rattle.lh_store.specs.Sessions.{IsSession};

use crate::fault::OpenStoreFault;
use crate::file_session::{FileSession, SessionName, SizedSession, Unnamed};
use crate::session::Session;
use crate::store::{Store, Work};
use crate::threads::on_threads;
use lh_addr::Config;
use lh_file::{
    FileFault, Hand, HashFile, Memory, NoGate, SizedFile, Unbranded, Untraced, WIDEST_ROOM,
};
use std::alloc::Global;
use std::marker::{Brand, Model};
use std::mem;
use std::sync::Wait;
use std::thread::Threads;

/// How many calls a session of a table may make.
const SESSION_CALLS: u64 = 1 << 44;

/// A table that is open, whose records have room for every key and every value.
pub type OpenStore = SizedOpenStore<WIDEST_ROOM>;

/// A table that is open. Its history isn't traced: no call says what others did. Each record has `ROOM` bytes for its key
/// and its value together, 168 at most.
///
/// ```text
/// let mut seen = SizedOpenStore::<16>::new(rt.alloc(), Config::default())?;
/// seen.session(&rt)?.upsert(&session.to_le_bytes(), &second.to_le_bytes())?;
/// ```
///
/// Threads share a table by its [`sessions`](Self::sessions), one for each. An [`OpenStore`] has [`run`](Self::run) too.
#[derive(Drop)]
pub struct SizedOpenStore<const ROOM: usize> {
    alloc: Global,
    file: SizedFile<NoGate, Untraced, Unbranded, ROOM>,
    hand: Hand,
}

impl<const ROOM: usize> Model for SizedOpenStore<ROOM> {
    ghost use Rattle.lh_store.specs.Sessions.{SessionState, IsSession, no_state};
    ghost use Rattle.std.specs.Prelude.{false};

    ghost Value = { SessionState };

    ghost view = { λ own. record { file = own.file.state; hand = own.hand } };

    ghost invariant = { λ own. IsSession false false no_state own.file.state own.hand };
}

impl<const ROOM: usize> SizedOpenStore<ROOM> {
    /// A table with no records.
    pub fn new(alloc: Global, config: Config) -> Result<Self, Memory>
        requires { IsRoom ROOM }
    {
        SizedOpenStore::filled(alloc, &Store::new(alloc, config)?)
    }

    /// A table with the records of a store, if all have room. For an [`OpenStore`] [`open`](Self::open) is enough.
    pub fn open_sized(alloc: Global, store: &Store) -> Result<Self, OpenStoreFault>
        requires { IsRoom ROOM }
        ensures listing { IfOk result (λ it. it.file.listing ≡ store.now) }
        ensures fits { OnOk result (FitListing ROOM store.now) }
        ensures err { IfErr result (NamesMisfit ROOM store.now) }
    {
        SizedFile::<NoGate, Untraced, Unbranded, ROOM>::fit_listing(store.listing())?;
        Ok(SizedOpenStore::filled(alloc, store)?)
    }

    /// A table with the records of a store, which have room.
    fn filled(alloc: Global, store: &Store) -> Result<Self, Memory>
        requires room { IsRoom ROOM }
        requires fits { FitListing ROOM store.now }
        ensures { IfOk result (λ it. it.file.listing ≡ store.now) }
    {
        let (file, hand) = SizedFile::open_from(alloc, store.listing(), false, NoGate)?;
        Ok(SizedOpenStore { alloc, file, hand })
    }

    /// A session of this table, which may make 2^44 calls, some ten days of them without a pause. A table serves half a
    /// million sessions.
    pub fn session<'a, R: Wait>(
        &'a mut self,
        rt: &'a R,
    ) -> Result<SizedSession<'a, R, Untraced, Unbranded, Unnamed, ROOM>, FileFault> {
        let hand = self.file.split_hand(&mut self.hand, SESSION_CALLS)?;
        Ok(SizedSession::new(rt, self.alloc, &self.file, hand))
    }

    /// As many sessions at once, such as for threads of the caller's own.
    pub fn sessions<'a, R: Wait>(
        &'a mut self,
        rt: &'a R,
        threads: u32,
    ) -> Result<Vec<SizedSession<'a, R, Untraced, Unbranded, Unnamed, ROOM>>, FileFault> {
        let spare = self.file.split_hand(&mut self.hand, 0)?;
        let hands = self
            .file
            .split_hands(&mut self.hand, threads, SESSION_CALLS)?;
        Ok(SizedSession::new(rt, self.alloc, &self.file, spare).beside(hands)?)
    }

    /// All records at one moment.
    pub fn snapshot<R: Wait>(&mut self, rt: &R) -> Result<Store, FileFault> {
        let snapshot = self.file.snapshot(rt, &mut self.hand)?;
        Ok(Store::of(snapshot.into_known_listing()))
    }
}

impl SizedOpenStore<WIDEST_ROOM> {
    /// A table with the records of a store.
    pub fn open(alloc: Global, store: &Store) -> Result<OpenStore, Memory>
        ensures { IfOk result (λ it. it.file.listing ≡ store.now) }
    {
        OpenStore::filled(alloc, store)
    }

    /// Lets threads work on the table, and waits for all of them: what came of each, in their order. Without memory for
    /// that nothing is done.
    pub fn run<R: Threads + Wait + Sync, W: Work + Sync>(
        &mut self,
        rt: &R,
        threads: u32,
        work: &W,
    ) -> Result<Vec<W::Done>, Memory>
    where
        W::Done: Send + Drop,
        ensures { IfOk result (λ done. length done.items ≡ threads) }
    {
        let Ok(spare) = self.file.split_hand(&mut self.hand, 0) else {
            return Err(Memory);
        };
        let hand = mem::replace(&mut self.hand, spare);
        let (done, hand) = run_on::<Brand, R, W>(rt, self.alloc, &self.file, hand, threads, work);
        self.hand = hand;
        done
    }
}

/// Lets threads work on a file that this type names: what came of that, and the hand.
fn run_on<B, R, W>(
    rt: &R,
    alloc: Global,
    file: &HashFile<NoGate>,
    hand: Hand,
    threads: u32,
    work: &W,
) -> (Result<Vec<W::Done>, Memory>, Hand)
where
    B: SessionName + Send + Sync,
    R: Threads + Wait + Sync,
    W: Work + Sync,
    W::Done: Send + Drop,
    requires named { B.is_named ≡ true }
    requires name { B.state ≡ file.now.state }
    requires session { IsSession false true B.state file.now.state hand }
    ensures session { IsSession false true B.state file.now.state result.1 }
    ensures count { IfOk result.0 (λ done. length done.items ≡ threads) }
{
    let mut session: FileSession<'_, R, Untraced, Unbranded, B> = FileSession::new(
        rt, alloc, file, hand,
    );
    let done = on_threads(
        rt,
        &mut session,
        threads,
        |thread: usize, own: &mut FileSession<'_, R, Untraced, Unbranded, B>| work.run(thread, own),
    );
    (done, session.into_hand())
}
