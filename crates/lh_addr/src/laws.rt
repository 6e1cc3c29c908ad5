//! Laws of linear hashing over the definitions of `specs/Growth.antt`, each the contract of a
//! function that does nothing: a caller whose proof needs a law calls it.

ghost use Rattle.lh_addr.specs.Growth.{RootLaw, AddressLaw, LevelReaches, SplitLevels, SplitAddresses, AimBegins};
ghost use Rattle.lh_addr.specs.Growth.{AimStays, AimRises, HashRises, HashFalls};

/// The level and the pointer are the one pair that a file's size has.
pub fn root_is_only_pair()
    ensures { RootLaw }
{}

/// A code's address is the one bucket of the file whose number is the code's hash at that bucket's
/// local level.
pub fn address_is_only_bucket()
    ensures { AddressLaw }
{}

/// A bucket's number is below the size of its local level.
pub fn levels_reach_their_buckets()
    ensures { LevelReaches }
{}

/// A split raises the local levels of two buckets, and moves the addresses of one bucket's codes.
pub fn split_moves_one_bucket()
    ensures levels { SplitLevels }
    ensures addresses { SplitAddresses }
{}

/// An aim stays good while the file grows, and a rehash by one level makes a good aim of one that
/// is too low.
pub fn aims_last()
    ensures begins { AimBegins }
    ensures stays { AimStays }
    ensures rises { AimRises }
{}

/// How the hashes of two levels go together.
pub fn hashes_are_nested()
    ensures rises { HashRises }
    ensures falls { HashFalls }
{}
