//! Laws over the definitions of buckets and listings, each the contract of a function that does
//! nothing: a caller whose proof needs a law calls it.

ghost use Rattle.lh_bucket.specs.Laws.{HereLaw, StayLaw, EmptyLaw, KeyLaw, LookupLaw, CountLaw, PlacedLaw};

/// When a bucket is the one that a call looks for.
pub fn here_is_own_level()
    ensures { HereLaw }
{}

/// Which keys a split leaves where they are.
pub fn split_keeps_its_own()
    ensures { StayLaw }
{}

/// What the map of some records has.
pub fn records_make_a_map()
    ensures empty { EmptyLaw }
    ensures keys { KeyLaw }
    ensures lookup { LookupLaw }
    ensures count { CountLaw }
{}

/// The lists of a listing are its records, each in the bucket of its address.
pub fn listing_is_placed()
    ensures { PlacedLaw }
{}
