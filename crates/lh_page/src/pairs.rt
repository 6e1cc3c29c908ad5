//! The records of one page, kept in place.
ghost use Rattle.std.specs.Prelude.{◌≡◌, ◌<◌, ◌≤◌, List, [], ◌∷◌, ◌++◌, length, slice_get, Some};
ghost use Rattle.std.proofs.Common.{rules};
ghost use Rattle.std.specs.Cmp.Rules.{comparing};
ghost use Rattle.std.specs.Cmp.Lexicographic.{pointwise};
ghost use Rattle.lh_page.specs.Records.{FitsPage};

use crate::key::Key;
use crate::limits::LARGEST_PAGE;
use crate::pair::Pair;
use crate::value::Value;
use std::marker::Model;

/// At most 24 records in their order. They take no memory beside the value itself.
#[derive(Debug, Drop)]
pub struct Pairs {
    // Any record stands in a place that isn't used.
    places: [Pair; LARGEST_PAGE],
    len: usize,
}

impl Model for Pairs {
    ghost use Rattle.std.specs.Prelude.{◌≡◌, ◌≤◌, List, length, take};
    ghost use Rattle.lh_page.specs.declared.pair.Pair.{Pair};
    ghost use Rattle.lh_page.specs.Limits.{largest_page};
    ghost use Rattle.lh_page.specs.Records.{FitsPage};

    ghost Value = { List Pair };

    ghost view = { λ p. take p.len p.places };

    ghost invariant = { λ p. (length p.places ≡ largest_page) × FitsPage (take p.len p.places)
        × (p.len ≤ largest_page) };
}

impl Pairs {
    /// No records.
    pub fn new() -> Self
        ensures { result ≡ [] }
    {
        Pairs {
            places: [Pair {
                key: Key::placeholder(),
                value: Value::empty(),
            }; LARGEST_PAGE],
            len: 0,
        }
    }

    /// Lets all records go.
    pub fn clear(&mut self)
        ensures { self.new ≡ [] }
    {
        self.len = 0;
    }

    /// The number of records.
    pub fn len(&self) -> usize
        ensures length { result ≡ length self.now }
        ensures kept { FitsPage self.now }
    {
        self.len
    }

    /// The record at a place.
    pub fn at(&self, place: usize) -> Pair
        requires { place < length self.now }
        ensures { slice_get self.now place ≡ Some result }
    {
        let pairs = &self.places[..self.len];
        pairs[place]
    }

    /// Appends a record.
    pub fn push(&mut self, pair: Pair)
        requires { length self.old < LARGEST_PAGE }
        ensures { self.new ≡ self.old ++ pair ∷ [] }
    {
        // Their contracts say that a key and a value are within their limits, which a page's records have to be.
        let _ = pair.key.bytes();
        let _ = pair.value.bytes();
        self.places[self.len] = pair;
        self.len += 1;
    }
}

impl PartialEq for Pairs {
    ghost eq = { pointwise ⟦<Pair as PartialEq>⟧.eq };

    ghost laws = { Prim.search (comparing, rules) };

    fn eq(&self, other: &Self) -> bool {
        self.places[..self.len] == other.places[..other.len]
    }
}

impl Eq for Pairs {
    ghost laws = { Prim.search (comparing, rules) };
}
