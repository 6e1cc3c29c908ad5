//! What every bucket can do.
ghost use Rattle.std.specs.Prelude.{◌≡◌, ◌+◌, ◌*◌, ◌^◌, ◌<◌, ◌≤◌, [], length, not, slice_get, Some, IsOk, IfOk, OnOk};
ghost use Rattle.std.specs.Prelude.{OnErr};
ghost use Rattle.std.specs.Option.{ForSome};
ghost use Rattle.std.specs.FinMap.{retain_keys};
ghost use Rattle.lh_addr.specs.Fnv.{code_of};
ghost use Rattle.lh_addr.specs.Limits.{IsInitial, IsCapacity, most_level};
ghost use Rattle.lh_bucket.specs.declared.call.Reply.TheVariants.{Inserted};
ghost use Rattle.lh_bucket.specs.declared.verdict.Verdict.TheVariants.{Here};
ghost use Rattle.lh_bucket.specs.Bucket.{Seen, IsKept, CanSplit, content, verdict, answer, raised, stays};
ghost use Rattle.lh_bucket.specs.Call.{key_of, IsInsert, IsSearch};
ghost use Rattle.lh_bucket.specs.PlainMap.{reply, after};

use crate::answer::Answer;
use crate::call::Call;
use crate::verdict::Verdict;
use lh_page::{Memory, Pair};
use std::alloc::Global;

/// A bucket of a linear hash file: a finite map from keys to values, with a number and a local
/// level. A bucket has no level until a split fills it.
///
/// A bucket keeps this of its own accord: no key stands twice, each key of a filled bucket has the
/// bucket's number as its code's hash at the bucket's level, a level is at most 16, and a bucket
/// that isn't filled has no records.
pub trait Bucket: Drop {
    /// The bucket as its callers see it: its number, initial count, capacity and level, and its
    /// records in the order of their places.
    ghost seen: { Self → Seen };

    /// An empty bucket of a file that began with `initial` buckets (1 to 256) and has pages of
    /// `capacity` records (1 to 24). A bucket with a level is filled: it may hold records.
    fn make(
        alloc: Global,
        initial: u32,
        capacity: u32,
        number: u32,
        level: Option<u8>,
    ) -> Result<Self, Memory>
        requires initial { IsInitial initial }
        requires capacity { IsCapacity capacity }
        requires level { ForSome level (λ l. (l ≤ most_level) × (number < initial * 2 ^ l)) }
        ensures { IfOk result (λ b. seen b ≡ record {
          head = record { number = number; initial = initial; capacity = capacity; level = level };
          pairs = [];
        }) };

    /// The bucket's number in its file.
    fn number(&self) -> u32
        ensures { result ≡ (seen self.now).head.number };

    /// The number of buckets that its file began with.
    fn initial(&self) -> u32
        ensures { result ≡ (seen self.now).head.initial };

    /// The number of records that a page holds.
    fn capacity(&self) -> u32
        ensures { result ≡ (seen self.now).head.capacity };

    /// The local level, or none where the bucket isn't filled yet.
    fn level(&self) -> Option<u8>
        ensures { result ≡ (seen self.now).head.level };

    /// The number of records.
    fn len(&self) -> usize
        ensures value { result ≡ length (seen self.now).pairs }
        ensures kept { IsKept (seen self.now) };

    /// The record at a place. Places count from 0, in an order that each type of bucket has.
    fn pair_at(&self, place: usize) -> Pair
        requires { place < length (seen self.now).pairs }
        ensures { slice_get (seen self.now).pairs place ≡ Some result };

    /// What the bucket says to a call whose key has the code `c` and that looks for it at level `k`.
    fn compare(&self, c: u64, k: u8) -> Verdict
        requires { k ≤ most_level }
        ensures { result ≡ verdict (seen self.now).head c k };

    /// Answers a search that met the verdict `Here` at level `k`.
    fn look(&self, call: &Call, k: u8) -> Answer
        requires search { IsSearch call.now }
        requires low { k ≤ most_level }
        requires here { verdict (seen self.now).head (code_of (key_of call.now)) k ≡ Here }
        ensures { result ≡ answer (seen self.now) call.now k };

    /// Serves a call that met the verdict `Here` at level `k`.
    fn serve(&mut self, call: &Call, k: u8) -> Result<Answer, Memory>
        requires low { k ≤ most_level }
        requires here { verdict (seen self.old).head (code_of (key_of call.now)) k ≡ Here }
        ensures answer { IfOk result (λ a. a ≡ answer (seen self.old) call.now k) }
        ensures head { (seen self.new).head ≡ (seen self.old).head }
        ensures content { OnOk result (content (seen self.new) ≡ after (content (seen self.old)) call.now) }

        // Only an insert of a new key takes memory, and without memory nothing changes.
        ensures no_memory { ¬ (IsInsert call.now) → IsOk result }
        ensures new_key { OnErr result (reply (content (seen self.old)) call.now ≡ Inserted) }
        ensures err { OnErr result (seen self.new ≡ seen self.old) };

    /// Splits this bucket, which is filled at a level `l` below 16, into itself and `new`, a bucket
    /// of the same file that isn't filled and has this one's number and `initial * 2^l` more. The
    /// records whose code still leads here at level `l + 1` stay, and all others go to `new`.
    fn split_into(&mut self, new: &mut Self) -> Result<(), Memory>
        requires { CanSplit (seen self.old).head (seen new.old).head }
        ensures old_head { OnOk result ((seen self.new).head ≡ raised (seen self.old).head (seen self.old).head) }
        ensures new_head { OnOk result ((seen new.new).head ≡ raised (seen self.old).head (seen new.old).head) }
        ensures old_content { OnOk result (content (seen self.new)
            ≡ retain_keys (content (seen self.old)) (stays (seen self.old).head)) }
        ensures new_content { OnOk result (content (seen new.new)
            ≡ retain_keys (content (seen self.old)) (λ key. not (stays (seen self.old).head key))) }

        // Without memory nothing changes.
        ensures old_unchanged { OnErr result (seen self.new ≡ seen self.old) }
        ensures new_unchanged { OnErr result (seen new.new ≡ seen new.old) };
}
