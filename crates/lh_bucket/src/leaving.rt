//! The keys that a split sends away.
ghost use Rattle.std.specs.Prelude.{◌≤◌};
ghost use Rattle.lh_addr.specs.Limits.{IsInitial, most_level};

use lh_addr::{fnv1a, hash_at};
use lh_page::KeySet;

/// The keys whose code leads to another bucket than `number` at a level.
#[derive(Drop)]
pub(crate) struct Leaving {
    pub(crate) initial: u32,
    pub(crate) level: u8,
    pub(crate) number: u32,
    ghost initial_in_range: { IsInitial initial },
    ghost level_in_range: { level ≤ most_level },
}

impl KeySet for Leaving {
    ghost use Rattle.std.specs.Prelude.{not};
    ghost use Rattle.lh_bucket.specs.Leaving.{leads_to};

    ghost member = { λ s key. not (leads_to s.initial s.level s.number key) };

    fn contains(&self, key: &[u8]) -> bool {
        hash_at(self.initial, self.level, fnv1a(key)) != self.number
    }
}
