//! A bucket that is a packed chain of pages.
ghost use Rattle.std.specs.Prelude.{not, ◌≡◌, ◌≤◌, ◌↔◌, IsOk, IfOk, OnOk, OnErr};
ghost use Rattle.std.specs.Bool.{IsTrue};
ghost use Rattle.std.specs.List.{filter};
ghost use Rattle.std.specs.FinMap.{get, retain_keys};
ghost use Rattle.lh_addr.specs.Fnv.{code_of};
ghost use Rattle.lh_addr.specs.Limits.{most_level};
ghost use Rattle.lh_page.specs.Records.{place_of};
ghost use Rattle.lh_page.specs.Slots.{FitsRoom};
ghost use Rattle.lh_bucket.specs.declared.call.Call.TheVariants.{Search, Insert, Delete, Replace};
ghost use Rattle.lh_bucket.specs.declared.call.Reply.TheVariants.{Inserted};
ghost use Rattle.lh_bucket.specs.declared.verdict.Verdict.TheVariants.{Here};
ghost use Rattle.lh_bucket.specs.Call.{key_of, CallFits, IsInsert};
ghost use Rattle.lh_bucket.specs.Change.{call_of, reply_of};
ghost use Rattle.lh_bucket.specs.PlainMap.{reply, after};
ghost use Rattle.lh_bucket.specs.Records.{map_of};
ghost use Rattle.lh_bucket.specs.PagedBucket.{found_at, served};

use crate::answer::Answer;
use crate::bucket::Bucket;
use crate::call::Call;
use crate::change::{Change, ChangeReply};
use crate::copied::by_place;
use crate::home::Home;
use crate::leaving::Leaving;
use crate::verdict::{Verdict, verdict_of};
use lh_addr::laws::hashes_are_nested;
use lh_page::limits::WIDEST_ROOM;
use lh_page::{Key, Memory, Pair, SizedChain, Value};
use std::alloc::Global;
use std::marker::Model;

/// A bucket with room for every key and every value.
pub type PagedBucket = SizedBucket<WIDEST_ROOM>;

/// A bucket that is a packed chain of pages: its places are those of the chain. An insert puts its
/// record last, a delete moves the last record into the hole, a replace leaves each record in its place,
/// and a split keeps the order of the records that stay and of those that go.
///
/// Each record has `ROOM` bytes for its key and its value together.
#[derive(Debug, Drop)]
pub struct SizedBucket<const ROOM: usize> {
    number: u32,
    initial: u32,
    level: Option<u8>,
    chain: SizedChain<ROOM>,
}

impl<const ROOM: usize> Model for SizedBucket<ROOM> {
    ghost use Rattle.lh_bucket.specs.Bucket.{Head, Seen, IsKept};

    ghost Value = { Seen };

    ghost view = { λ b. record {
      head = record { number = b.number; initial = b.initial; capacity = b.chain.capacity; level = b.level };
      pairs = b.chain.pairs;
    } };

    ghost invariant = { λ b. IsKept (record {
      head = record { number = b.number; initial = b.initial; capacity = b.chain.capacity; level = b.level };
      pairs = b.chain.pairs;
    }) };
}

impl<const ROOM: usize> SizedBucket<ROOM> {
    ghost use Rattle.std.specs.Prelude.{ℕ, ◌*◌, ◌^◌, ◌<◌, [], length, Some};
    ghost use Rattle.std.specs.List.{IsDistinct};
    ghost use Rattle.std.specs.Option.{ForSome};
    ghost use Rattle.std.specs.Str.{bytes_eq};
    ghost use Rattle.lh_addr.specs.Growth.{hash_at};
    ghost use Rattle.lh_addr.specs.Limits.{IsInitial, IsCapacity};
    ghost use Rattle.lh_page.specs.Records.{keys_of, key_at};
    ghost use Rattle.lh_page.specs.Slots.{IsRoom, FitAll};

    /// An empty bucket of a file that began with `initial` buckets (1 to 256) and has pages of
    /// `capacity` records (1 to 24). A bucket with a level is filled: it may hold records.
    pub fn make(
        alloc: Global,
        initial: u32,
        capacity: u32,
        number: u32,
        level: Option<u8>,
    ) -> Result<Self, Memory>
        requires initial { IsInitial initial }
        requires capacity { IsCapacity capacity }
        requires level { ForSome level (λ l. (l ≤ most_level) × (number < initial * 2 ^ l)) }
        requires room { IsRoom ROOM }
        ensures { IfOk result (λ b. b ≡ record {
          head = record { number = number; initial = initial; capacity = capacity; level = level };
          pairs = [];
        }) }
    {
        let chain = SizedChain::new(alloc, capacity)?;
        Ok(SizedBucket {
            number,
            initial,
            level,
            chain,
        })
    }

    /// A bucket of a file that began with `initial` buckets (1 to 256) and has pages of `capacity` records
    /// (1 to 24). It is filled at a level of at most 16, with these records in their order. No key stands
    /// twice among them, so none is looked for.
    pub fn filled(
        alloc: Global,
        initial: u32,
        capacity: u32,
        number: u32,
        level: u8,
        pairs: &[Pair],
    ) -> Result<Self, Memory>
        requires initial { IsInitial initial }
        requires capacity { IsCapacity capacity }
        requires level { level ≤ most_level }
        requires number { number < initial * 2 ^ level }
        requires distinct { IsDistinct bytes_eq (keys_of pairs.now) }
        requires home { (place : ℕ) → place < length pairs.now →
            hash_at initial level (code_of (key_at pairs.now place)) ≡ number }
        requires room { IsRoom ROOM }
        requires fit { FitAll ROOM pairs.now }
        ensures { IfOk result (λ b. b ≡ record {
          head = record { number = number; initial = initial; capacity = capacity; level = Some level };
          pairs = pairs.now;
        }) }
    {
        let chain = SizedChain::from_pairs(alloc, capacity, pairs)?;
        let bucket = SizedBucket {
            number,
            initial,
            level: Some(level),
            chain,
        };
        Ok(bucket)
    }
}

impl<const ROOM: usize> SizedBucket<ROOM> {
    ghost use Rattle.std.specs.Prelude.{◌<◌, length, slice_get, Some};
    ghost use Rattle.lh_bucket.specs.Bucket.{IsKept, CanSplit, content, verdict, raised, stays};

    /// Whether each record has room for this key with this value.
    #[inline]
    pub fn fits(key: &Key, value: &Value) -> bool
        ensures { IsTrue result ↔ FitsRoom ROOM key.now value.now }
    {
        ROOM >= WIDEST_ROOM || key.bytes().len() + value.bytes().len() <= ROOM
    }

    /// The bucket's number in its file.
    pub fn number(&self) -> u32
        ensures { result ≡ self.now.head.number }
    {
        self.number
    }

    /// The number of buckets that its file began with.
    pub fn initial(&self) -> u32
        ensures { result ≡ self.now.head.initial }
    {
        self.initial
    }

    /// The number of records that a page holds.
    pub fn capacity(&self) -> u32
        ensures { result ≡ self.now.head.capacity }
    {
        self.chain.capacity()
    }

    /// The local level, or none where the bucket isn't filled yet.
    pub fn level(&self) -> Option<u8>
        ensures { result ≡ self.now.head.level }
    {
        self.level
    }

    /// The number of records.
    pub fn len(&self) -> usize
        ensures value { result ≡ length self.now.pairs }
        ensures kept { IsKept self.now }
    {
        self.chain.len()
    }

    /// The record at a place. Places count from 0, in the order of the chain.
    pub fn pair_at(&self, place: usize) -> Pair
        requires { place < length self.now.pairs }
        ensures { slice_get self.now.pairs place ≡ Some result }
    {
        self.chain.pair_at(place)
    }

    /// A copy of the records, in the order of their places.
    pub fn copied_pairs(&self, alloc: Global) -> Result<Vec<Pair>, Memory>
        ensures pairs { IfOk result (λ pairs. pairs.items ≡ self.now.pairs) }
        ensures kept { IsKept self.now }
    {
        let count = self.len();
        by_place(
            alloc,
            count,
            |place| -> Pair
                requires { place < length self.now.pairs }
                ensures { slice_get self.entry.now.pairs place ≡ Some result }
            { self.pair_at(place) },
        )
    }

    /// What the bucket says to a call whose key has the code `c` and that looks for it at level `k`.
    pub fn compare(&self, c: u64, k: u8) -> Verdict
        requires { k ≤ most_level }
        ensures { result ≡ verdict self.now.head c k }
    {
        verdict_of(self.number, self.initial, self.level, c, k)
    }

    /// Splits this bucket, which is filled at a level `l` below 16, into itself and `new`, a bucket
    /// of the same file that isn't filled and has this one's number and `initial * 2^l` more. The
    /// records whose code still leads here at level `l + 1` stay, and all others go to `new`.
    pub fn split_into(&mut self, new: &mut Self) -> Result<(), Memory>
        requires { CanSplit self.old.head new.old.head }
        ensures old_head { OnOk result (self.new.head ≡ raised self.old.head self.old.head) }
        ensures new_head { OnOk result (new.new.head ≡ raised self.old.head new.old.head) }
        ensures old_content { OnOk result (content self.new ≡ retain_keys (content self.old) (stays self.old.head)) }
        ensures new_content { OnOk result (content new.new
            ≡ retain_keys (content self.old) (λ key. not (stays self.old.head key))) }

        // Each keeps the order of its records.
        ensures old_order { OnOk result (self.new.pairs ≡ filter (λ p. stays self.old.head p.key) self.old.pairs) }
        ensures new_order { OnOk result (new.new.pairs ≡ filter (λ p. not (stays self.old.head p.key)) self.old.pairs) }

        // Without memory nothing changes.
        ensures old_unchanged { OnErr result (self.new ≡ self.old) }
        ensures new_unchanged { OnErr result (new.new ≡ new.old) }
    {
        // What leaves has the new bucket's number: one level up a hash is as before or `initial * 2^l` more.
        hashes_are_nested();
        let level = self.level.unwrap_or(0) + 1;
        let leaving = Leaving {
            initial: self.initial,
            level,
            number: self.number,
        };
        let gone = self.chain.split_off(&leaving)?;
        // No key stands twice in what stays, nor in what goes.
        let _ = self.chain.len();
        let _ = gone.len();
        self.level = Some(level);
        new.chain = gone;
        new.level = Some(level);
        Ok(())
    }
}

impl<const ROOM: usize> SizedBucket<ROOM> {
    ghost use Rattle.std.specs.Prelude.{IfSome, ◌<◌, length};
    ghost use Rattle.lh_page.specs.Limits.{IsValue};
    ghost use Rattle.lh_page.specs.Records.{value_at};
    ghost use Rattle.lh_bucket.specs.Bucket.{content, verdict};
    ghost use Rattle.lh_bucket.specs.Home.{HomeOf};

    /// The home of a code that met the verdict `Here` at level `k`.
    #[inline]
    pub fn home(&self, code: u64, k: u8) -> Home
        requires low { k ≤ most_level }
        requires here { verdict self.now.head code k ≡ Here }
        ensures { result ≡ record {
          code = code;
          bucket = self.now.head.number;
          level = k;
          initial = self.now.head.initial;
        } }
    {
        Home::new(code, self.number, k, self.initial)
    }

    /// The place of the record with a key.
    #[inline]
    pub fn find(&self, key: &Key) -> Option<usize>
        ensures place { result ≡ place_of self.now.pairs key.now }
        ensures found { found_at self.now.pairs result ≡ reply (content self.now) (Search key.now) }
        ensures within { IfSome result (λ place. place < length self.now.pairs) }
    {
        self.chain.find(key)
    }

    /// The bytes of the value of the record at a place, which are not copied.
    #[inline]
    pub fn value_bytes(&self, place: usize) -> &[u8]
        requires { place < length self.now.pairs }
        ensures value { result.now ≡ value_at self.now.pairs place }
        ensures kept { IsValue result.now }
    {
        self.chain.value_bytes(place)
    }

    /// Serves a change that met the verdict `Here` at level `k`. What it is about is lent, and only its kind of reply
    /// is handed out.
    // Inlined with what it calls, so that nothing is done for the other changes.
    #[inline(always)]
    pub fn change(&mut self, change: Change<'_>, k: u8) -> Result<ChangeReply, Memory>
        requires low { k ≤ most_level }
        requires here { verdict self.old.head (code_of (key_of (call_of change))) k ≡ Here }
        requires fits { CallFits ROOM (call_of change) }
        ensures reply { IfOk result (λ r. reply_of r ≡ reply (content self.old) (call_of change.entry)) }
        ensures head { self.new.head ≡ self.old.head }
        ensures content { OnOk result (content self.new ≡ after (content self.old) (call_of change.entry)) }
        ensures order { OnOk result (self.new.pairs ≡ served self.old.pairs (call_of change.entry)) }

        // Only an insert of a new key takes memory, and without memory nothing changes.
        ensures no_memory { ¬ (IsInsert (call_of change.entry)) → IsOk result }
        ensures new_key { OnErr result (reply (content self.old) (call_of change.entry) ≡ Inserted) }
        ensures err { OnErr result (self.new ≡ self.old) }
    {
        let place = self.find(change.key());
        self.change_found(change, place, k)
    }

    /// The same, where the place of the record with its key has been found, or that there is none: the key isn't looked
    /// for again.
    #[inline(always)]
    pub fn change_found(
        &mut self,
        change: Change<'_>,
        place: Option<usize>,
        k: u8,
    ) -> Result<ChangeReply, Memory>
        requires low { k ≤ most_level }
        requires here { verdict self.old.head (code_of (key_of (call_of change))) k ≡ Here }
        requires place { place ≡ place_of self.old.pairs (key_of (call_of change)) }
        requires fits { CallFits ROOM (call_of change) }
        ensures reply { IfOk result (λ r. reply_of r ≡ reply (content self.old) (call_of change.entry)) }
        ensures head { self.new.head ≡ self.old.head }
        ensures content { OnOk result (content self.new ≡ after (content self.old) (call_of change.entry)) }
        ensures order { OnOk result (self.new.pairs ≡ served self.old.pairs (call_of change.entry)) }
        ensures no_memory { ¬ (IsInsert (call_of change.entry)) → IsOk result }
        ensures new_key { OnErr result (reply (content self.old) (call_of change.entry) ≡ Inserted) }
        ensures err { OnErr result (self.new ≡ self.old) }
    {
        let reply = change_at(&mut self.chain, change, place)?;
        // In a chain no key stands twice.
        let _ = self.chain.len();
        Ok(reply)
    }
}

/// The value under a key in a chain.
fn value_in<const ROOM: usize>(chain: &SizedChain<ROOM>, key: &Key) -> Option<Value>
    ensures { result ≡ get (map_of chain.now.pairs) key.now }
{
    match chain.find(key) {
        Some(place) => Some(chain.value_at(place)),
        None => None,
    }
}

/// Puts a record last in a chain, unless its key is there, at this place.
fn insert_into<const ROOM: usize>(
    chain: &mut SizedChain<ROOM>,
    key: &Key,
    value: &Value,
    place: Option<usize>,
) -> Result<ChangeReply, Memory>
    requires place { place ≡ place_of chain.old.pairs key.now }
    requires fits { FitsRoom ROOM key.now value.now }
    ensures reply { IfOk result (λ r. reply_of r ≡ reply (map_of chain.old.pairs) (Insert key.now value.now)) }
    ensures list { OnOk result (
        chain.new ≡ record chain.old { pairs = served chain.old.pairs (Insert key.now value.now) }) }
    ensures new_key { OnErr result (reply (map_of chain.old.pairs) (Insert key.now value.now) ≡ Inserted) }
    ensures err { OnErr result (chain.new ≡ chain.old) }
{
    match place {
        Some(_) => Ok(ChangeReply::Exists),
        None => {
            chain.append(key, value)?;
            Ok(ChangeReply::Inserted)
        }
    }
}

/// Takes the record with a key, at this place, out of a chain, if it is there.
fn delete_from<const ROOM: usize>(
    chain: &mut SizedChain<ROOM>,
    _key: &Key,
    place: Option<usize>,
) -> ChangeReply
    requires { place ≡ place_of chain.old.pairs _key.now }
    ensures reply { reply_of result ≡ reply (map_of chain.old.pairs) (Delete _key.now) }
    ensures list { chain.new ≡ record chain.old { pairs = served chain.old.pairs (Delete _key.now) } }
{
    match place {
        Some(place) => {
            chain.discard(place);
            ChangeReply::Deleted
        }
        None => ChangeReply::Absent,
    }
}

/// Gives the record with a key, at this place, another value, if it is there.
fn replace_in<const ROOM: usize>(
    chain: &mut SizedChain<ROOM>,
    _key: &Key,
    value: &Value,
    place: Option<usize>,
) -> ChangeReply
    requires place { place ≡ place_of chain.old.pairs _key.now }
    requires fits { FitsRoom ROOM _key.now value.now }
    ensures reply { reply_of result ≡ reply (map_of chain.old.pairs) (Replace _key.now value.now) }
    ensures list { chain.new ≡ record chain.old { pairs = served chain.old.pairs (Replace _key.now value.now) } }
{
    match place {
        Some(place) => {
            chain.set_value(place, value);
            ChangeReply::Replaced
        }
        None => ChangeReply::Absent,
    }
}

/// Serves a change at a chain, which has the record with its key at this place.
#[inline(always)]
fn change_at<const ROOM: usize>(
    chain: &mut SizedChain<ROOM>,
    change: Change<'_>,
    place: Option<usize>,
) -> Result<ChangeReply, Memory>
    requires place { place ≡ place_of chain.old.pairs (key_of (call_of change)) }
    requires fits { CallFits ROOM (call_of change) }
    ensures reply { IfOk result (λ r. reply_of r ≡ reply (map_of chain.old.pairs) (call_of change.entry)) }
    ensures list { OnOk result (chain.new
        ≡ record chain.old { pairs = served chain.old.pairs (call_of change.entry) }) }
    ensures no_memory { ¬ (IsInsert (call_of change.entry)) → IsOk result }
    ensures new_key { OnErr result (reply (map_of chain.old.pairs) (call_of change.entry) ≡ Inserted) }
    ensures err { OnErr result (chain.new ≡ chain.old) }
{
    match change {
        Change::Insert(key, value) => insert_into(chain, key, value, place),
        Change::Delete(key) => Ok(delete_from(chain, key, place)),
        Change::Replace(key, value) => Ok(replace_in(chain, key, value, place)),
    }
}

impl Bucket for PagedBucket {
    ghost use Rattle.lh_bucket.specs.Bucket.{content, verdict, answer};

    ghost seen = { λ b. b };

    fn make(
        alloc: Global,
        initial: u32,
        capacity: u32,
        number: u32,
        level: Option<u8>,
    ) -> Result<Self, Memory> {
        SizedBucket::make(alloc, initial, capacity, number, level)
    }

    fn number(&self) -> u32 {
        SizedBucket::number(self)
    }

    fn initial(&self) -> u32 {
        SizedBucket::initial(self)
    }

    fn capacity(&self) -> u32 {
        SizedBucket::capacity(self)
    }

    fn level(&self) -> Option<u8> {
        SizedBucket::level(self)
    }

    fn len(&self) -> usize {
        SizedBucket::len(self)
    }

    fn pair_at(&self, place: usize) -> Pair {
        SizedBucket::pair_at(self, place)
    }

    fn compare(&self, c: u64, k: u8) -> Verdict {
        SizedBucket::compare(self, c, k)
    }

    fn look(&self, call: &Call, k: u8) -> Answer {
        let value = value_in(&self.chain, call.key());
        Answer::searched(call.key(), value.as_ref(), self.number, k, self.initial)
    }

    // Inlined with what it calls, so that an answer is made where its caller has room for it.
    #[inline(always)]
    fn serve(&mut self, call: &Call, k: u8) -> Result<Answer, Memory>
        requires low { k ≤ most_level }
        requires here { verdict self.old.head (code_of (key_of call.now)) k ≡ Here }
        ensures answer { IfOk result (λ a. a ≡ answer self.old call.now k) }
        ensures head { self.new.head ≡ self.old.head }
        ensures content { OnOk result (content self.new ≡ after (content self.old) call.now) }
        ensures order { OnOk result (self.new.pairs ≡ served self.old.pairs call.now) }
        ensures no_memory { ¬ (IsInsert call.now) → IsOk result }
        ensures new_key { OnErr result (reply (content self.old) call.now ≡ Inserted) }
        ensures err { OnErr result (self.new ≡ self.old) }
    {
        let Some(change) = Change::of_call(call) else {
            return Ok(self.look(call, k));
        };
        let reply = self.change(change, k)?;
        Ok(Answer::changed(change, reply, self.number, k, self.initial))
    }

    fn split_into(&mut self, new: &mut Self) -> Result<(), Memory> {
        SizedBucket::split_into(self, new)
    }
}
