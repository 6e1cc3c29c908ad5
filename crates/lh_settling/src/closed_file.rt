//! Files that are closed.
ghost use Rattle.std.specs.Prelude.{◌≡◌, ℕ, ◌+◌, ◌-◌, ◌*◌, ◌/◌, ◌%◌, ◌^◌, ◌<◌, ◌≤◌, ◌↔◌, ◌⊎◌, false, length, map, min};
ghost use Rattle.std.specs.Prelude.{take, IsTrue, IfOk, IfErr};
ghost use Rattle.lh_addr.specs.Limits.{most_buckets};

use lh_addr::{Config, RootWord};
use lh_bucket::{Listing, ListingFault, Memory};
use lh_page::Pair;
use std::alloc::Global;
use std::marker::Model;

/// A file that is closed, or a snapshot of one that runs: how far it had grown, how many stamps its acts drew, and the
/// records of its buckets.
#[derive(Debug, Drop)]
pub struct Closed {
    config: Config,
    // The root word: how many buckets there were, and whether a hand had the right to split.
    root: u64,
    stamps: u64,
    // Buckets that were made and never filled stand behind the others, with empty lists.
    lists: Vec<Vec<Pair>>,
    gathered: bool,
}

impl Model for Closed {
    ghost use Rattle.std.specs.Prelude.{map};
    ghost use Rattle.lh_settling.specs.ClosedFile.{ClosedFile, IsClosed};

    ghost Value = { ClosedFile };

    ghost view = { λ c. record {
      config = c.config;
      root = c.root;
      stamps = c.stamps;
      lists = map (λ v. v.items) c.lists.items;
      gathered = c.gathered;
    } };

    ghost invariant = { λ c. IsClosed (record {
      config = c.config;
      root = c.root;
      stamps = c.stamps;
      lists = map (λ v. v.items) c.lists.items;
      gathered = c.gathered;
    }) };
}

/// Copies lists of records.
fn copied(alloc: Global, lists: &[Vec<Pair>]) -> Result<Vec<Vec<Pair>>, Memory>
    ensures { IfOk result (λ copies. map (λ v. v.items) copies.items ≡ map (λ v. v.items) lists.now) }
{
    let mut copies = Vec::with_capacity(alloc, lists.len())?;
    for list in lists {
        let copy = Vec::from_slice(alloc, list)?;
        copies.push(copy)?;
    }
    Ok(copies)
}

impl Closed {
    ghost use Rattle.lh_addr.specs.RootWord.{buckets_of};
    ghost use Rattle.lh_bucket.specs.Listing.{count_of, IsListing};
    ghost use Rattle.lh_bucket.specs.ListingFault.{IsFaultOf};
    ghost use Rattle.lh_settling.specs.ClosedFile.{IsClosed, IsWhole};

    /// A closed file of these parts, such as one that is to be settled by hand: its configuration, its root
    /// word, which is twice its number of buckets, and one more while a hand had the right to split, its
    /// number of stamps, and the records of each bucket.
    pub fn new(config: Config, root: u64, stamps: u64, lists: Vec<Vec<Pair>>) -> Closed
        requires from_initial { config.initial ≤ buckets_of root }
        requires to_max { buckets_of root ≤ config.max }
        requires few { length lists.items ≤ config.max }
        ensures { result ≡ record {
          config = config;
          root = root;
          stamps = stamps;
          lists = map (λ v. v.items) lists.items;
          gathered = false;
        } }
    {
        Closed::ended(config, root, stamps, lists, false)
    }

    /// The same, with what [`gathered`](Closed::gathered) is to answer. It is for the crate of the running file, which
    /// knows whether it met all buckets with their seats when it closed the file; whoever makes a closed file of parts
    /// takes [`new`](Closed::new).
    pub fn ended(
        config: Config,
        root: u64,
        stamps: u64,
        lists: Vec<Vec<Pair>>,
        gathered: bool,
    ) -> Closed
        requires from_initial { config.initial ≤ buckets_of root }
        requires to_max { buckets_of root ≤ config.max }
        requires few { length lists.items ≤ config.max }
        ensures { result ≡ record {
          config = config;
          root = root;
          stamps = stamps;
          lists = map (λ v. v.items) lists.items;
          gathered = gathered;
        } }
    {
        let _initial = config.initial();
        Closed {
            config,
            root,
            stamps,
            lists,
            gathered,
        }
    }

    pub(crate) fn config(&self) -> Config
        ensures value { result ≡ self.now.config }
        ensures kept { IsClosed self.now }
    {
        self.config
    }

    /// The number of buckets, those of a split under way not counted twice.
    pub fn buckets(&self) -> u32
        ensures value { result ≡ buckets_of self.now.root }
        ensures kept { IsClosed self.now }
    {
        RootWord::buckets_of(self.root)
    }

    /// Whether a hand had the right to split when the file was closed.
    pub fn split_open(&self) -> bool
        ensures value { IsTrue result ↔ (self.now.root % 2 ≡ 1) }
        ensures kept { IsClosed self.now }
    {
        RootWord::split_of(self.root)
    }

    /// The number of stamps that were drawn: how many acts there were.
    pub fn stamps(&self) -> u64
        ensures { result ≡ self.now.stamps }
    {
        self.stamps
    }

    /// Whether the file was traced, each of its buckets was met with its seat, and no bucket past them had a record. A
    /// traced file that was closed never answers no, as far as is known; nothing proves it, and one comparison a bucket
    /// tells it. A snapshot, and a file that is made of parts, always does. Where it is so, what the hands have done
    /// needs no settling: `HashFile::close` of `lh_file` says what holds then.
    pub fn gathered(&self) -> bool
        ensures { result ≡ self.now.gathered }
    {
        self.gathered
    }

    /// The number of records in its buckets, where it is below 2^64; a memory that held more would
    /// answer 2^64 - 1.
    pub fn records(&self) -> u64
        ensures { result ≡ min (count_of self.now.lists) (2 ^ 64 - 1) }
    {
        let mut count = 0_u64;
        for list in &self.lists {
            count = count.saturating_add(list.len() as u64);
        }
        count
    }

    /// The file as a listing of its buckets, or the first fault that its lists have as such, or `Memory` where they
    /// could not be copied.
    pub fn listing(&self) -> Result<Listing, ListingFault>
        ensures ok { IfOk result (λ listing. listing ≡ record {
          config = self.now.config;
          lists = take (buckets_of self.now.root) self.now.lists;
        }) }
        ensures err { IfErr result (λ fault. (fault ≡ ListingFault.Memory)
            ⊎ IsFaultOf self.now.config (buckets_of self.now.root)
            (take (buckets_of self.now.root) self.now.lists) fault) }
    {
        let alloc = *self.lists.allocator();
        let buckets = self.buckets();
        let end = self.lists.len().min(buckets as usize);
        match copied(alloc, &self.lists[..end]) {
            Ok(lists) => Listing::new(alloc, self.config, buckets, lists),
            Err(Memory) => Err(ListingFault::Memory),
        }
    }

    /// The file as a listing of its buckets, or the first fault that its lists have as such, like `listing`.
    /// The records are moved, so that none is copied; with a fault they are gone.
    pub fn into_listing(self) -> Result<Listing, ListingFault>
        ensures ok { IfOk result (λ listing. listing ≡ record {
          config = self.config;
          lists = take (buckets_of self.root) self.lists;
        }) }
        ensures kept { IfOk result IsListing }
        ensures err { IfErr result (IsFaultOf self.config (buckets_of self.root)
            (take (buckets_of self.root) self.lists)) }
    {
        let alloc = *self.lists.allocator();
        let buckets = self.buckets();
        let Closed {
            config,
            root: _,
            stamps: _,
            mut lists,
            gathered: _,
        } = self;
        lists.truncate(buckets as usize);
        Listing::new(alloc, config, buckets, lists)
    }

    /// The listing of a file that is known to have one, as a snapshot has. The records are moved; no key is looked at
    /// and no memory taken.
    pub fn into_known_listing(self) -> Listing
        requires { IsWhole self }
        ensures { result ≡ record { config = self.config; lists = self.lists } }
    {
        let Closed {
            config,
            root: _,
            stamps: _,
            lists,
            gathered: _,
        } = self;
        Listing::of_known(config, lists)
    }

    pub(crate) fn lists(&self) -> &[Vec<Pair>]
        ensures value { map (λ v. v.items) result.now ≡ self.now.lists }
        ensures few { length result.now ≤ most_buckets }
    {
        &self.lists
    }
}
