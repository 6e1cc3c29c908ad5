//! Keys whose codes are known.
ghost use Rattle.std.specs.Prelude.{◌≡◌, ◌<◌, length};
ghost use Rattle.lh_addr.specs.Fnv.{code_of};
ghost use Rattle.lh_shards.specs.Number.{home_of};

use crate::shards::SizedShards;
use lh_file::{Coded, FileBrand, Mode};
use lh_page::Key;

/// A key that is lent, with its code, so that a call computes it once for the shard and the bucket.
#[derive(Clone, Copy)]
pub(crate) struct KnownKey<'a> {
    key: &'a Key,
    code: u64,
    ghost coded: { code ≡ code_of key.now },
}

impl<'a> Coded for KnownKey<'a> {
    ghost bytes = { λ known. known.key.now };

    #[inline]
    fn key(&self) -> &Key {
        self.key
    }

    #[inline]
    fn code(&self) -> u64 {
        self.code
    }
}

impl<M: Mode, J: FileBrand, const ROOM: usize> SizedShards<M, J, ROOM> {
    /// Where the call of a key goes: the key's shard, and the key with its code.
    #[inline(always)]
    pub(crate) fn route<'a, K: Coded>(&self, key: &'a K) -> (usize, KnownKey<'a>)
        ensures key { result.1.key.now ≡ K.bytes key.now }
        ensures home { result.0 ≡ home_of (length self.now) (K.bytes key.now) }
        ensures within { result.0 < length self.now }
    {
        let code = key.code();
        let shard = self.shard_of(code) as usize;
        let key = key.key();
        (shard, KnownKey { key, code })
    }
}
