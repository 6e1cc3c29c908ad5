//! The shards, and how they are created.
ghost use Rattle.std.specs.Prelude.{◌≡◌, ◌<◌, ◌↔◌, List, ℕ, length, slice_get, Some, Err, IfOk, IsTrue};
ghost use Rattle.lh_page.specs.Slots.{FitsRoom, IsRoom};
ghost use Rattle.lh_shards.specs.Hands.{AreCreated, IsCount};
ghost use Rattle.lh_shards.specs.Number.{shard_of as shard_of_code};

use crate::fault::CreateFault;
use crate::hands::Hands;
use crate::number::{MOST_SHARDS, shard_of};
use lh_addr::Config;
use lh_file::{FileBrand, Memory, Mode, NoGate, SizedFile, Unbranded, Untraced, WIDEST_ROOM};
use lh_page::{Key, Value};
use std::alloc::Global;
use std::marker::Model;

/// Shards whose records have room for every key and every value.
pub type Shards<M = Untraced, J = Unbranded> = SizedShards<M, J, WIDEST_ROOM>;

/// Several files as one table. Threads share them, and each takes part with [`Hands`] of its own.
///
/// `M` says whether the histories of the files are traced, and `J` names the tables of traced ones, as for a
/// [`HashFile`](lh_file::HashFile). [`Shards`] whose type says neither are untraced. Each record has `ROOM` bytes for
/// its key and its value together.
#[derive(Drop)]
pub struct SizedShards<M: Mode, J: FileBrand, const ROOM: usize> {
    pub(crate) files: Vec<SizedFile<NoGate, M, J, ROOM>>,
}

impl<M: Mode, J: FileBrand, const ROOM: usize> Model for SizedShards<M, J, ROOM> {
    ghost use Rattle.std.specs.Prelude.{List, length, map};
    ghost use Rattle.lh_file.specs.FileState.{FileState};
    ghost use Rattle.lh_shards.specs.Hands.{IsCount};

    ghost Value = { List FileState };

    ghost view = { λ s. map (λ file. file.state) s.files.items };

    ghost invariant = { λ s. IsCount (length s.files.items) };
}

impl<const ROOM: usize> SizedShards<Untraced, Unbranded, ROOM> {
    /// Empty files of a configuration, 1 to 1,024 of them, and the first hand of each, which may make 2^63 calls. With
    /// `recording` each hand keeps its acts.
    pub fn create(
        alloc: Global,
        config: Config,
        shards: u32,
        recording: bool,
    ) -> Result<(Self, Hands), CreateFault>
        requires { IsRoom ROOM }
        ensures created { IfOk result (λ made. AreCreated shards config recording made.0 made.1) }
        ensures count { (result ≡ Err CreateFault.Count) ↔ (¬ (IsCount shards)) }
    {
        if shards == 0 || shards > MOST_SHARDS {
            return Err(CreateFault::Count);
        }
        Ok(SizedShards::created(alloc, config, shards, recording)?)
    }

    /// The same, of a number that is known to be in range.
    fn created(
        alloc: Global,
        config: Config,
        shards: u32,
        recording: bool,
    ) -> Result<(Self, Hands), Memory>
        requires count { IsCount shards }
        requires room { IsRoom ROOM }
        ensures { IfOk result (λ made. AreCreated shards config recording made.0 made.1) }
    {
        let mut files = Vec::with_capacity(alloc, shards as usize)?;
        let mut hands = Vec::with_capacity(alloc, shards as usize)?;
        for _shard in 0..shards {
            let (file, hand) = SizedFile::create(alloc, config, recording, NoGate)?;
            files.push(file)?;
            hands.push(hand)?;
        }
        Ok((SizedShards { files }, Hands { hands }))
    }
}

impl<M: Mode, J: FileBrand, const ROOM: usize> SizedShards<M, J, ROOM> {
    /// Whether each record has room for this key with this value: a call that may write them is to be asked for only
    /// then. The records of [`Shards`] have room for all.
    #[inline]
    pub fn fits(key: &Key, value: &Value) -> bool
        ensures { IsTrue result ↔ FitsRoom ROOM key.now value.now }
    {
        SizedFile::<NoGate, M, J, ROOM>::fits(key, value)
    }

    /// The number of shards.
    #[inline]
    pub fn count(&self) -> u32
        ensures value { result ≡ length self.now }
        ensures range { IsCount result }
    {
        self.files.len() as u32
    }

    /// The shard of a key with this code.
    #[inline]
    pub fn shard_of(&self, code: u64) -> u32
        ensures value { result ≡ shard_of_code code (length self.now) }
        ensures within { result < length self.now }
    {
        shard_of(code, self.count())
    }

    /// The file of a shard.
    #[inline(always)]
    pub(crate) fn file(&self, shard: usize) -> &SizedFile<NoGate, M, J, ROOM>
        requires { shard < length self.now }
        ensures { slice_get self.now shard ≡ Some result.now.state }
    {
        &self.files[shard]
    }
}
