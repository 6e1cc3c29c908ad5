//! Laws over the definitions of `specs/`, each the contract of a function that does nothing: a caller whose proof
//! needs a law calls it.
ghost use Rattle.lh_image.specs.Canonical.{CanonicalLaw, LengthLaw};
ghost use Rattle.lh_image.specs.Chains.{ChainLaw, PathsLaw};
ghost use Rattle.lh_image.specs.Counted.{CensusLaw};
ghost use Rattle.lh_image.specs.FirstFault.{FirstFaultLaw, NoFaultLaw};
ghost use Rattle.lh_image.specs.Image.{ImageLaw, OneListingLaw};
ghost use Rattle.lh_image.specs.Indexed.{PlacesLaw, WalkLaw};
ghost use Rattle.lh_image.specs.LookUp.{FaultLaw, MapLaw, StandsLaw};
ghost use Rattle.lh_image.specs.Reading.{LeadingLaw};
ghost use Rattle.lh_image.specs.RoundTrip.{RoundTripLaw};

use lh_addr::laws::address_is_only_bucket;
use lh_bucket::laws::{listing_is_placed, records_make_a_map};
use lh_page::laws::{
    a_page_is_its_bytes, faultless_bytes_are_a_page, pages_are_packed, pages_are_pieces,
    pages_read_back,
};

/// Pages that name each other rightly, each of them on some chain, are those that paths from the heads cover, and the
/// chains are the paths. No two paths have a page in common, and no path has a page twice.
pub fn linked_pages_are_chains()
    ensures chains { ChainLaw }
    ensures paths { PathsLaw }
{}

/// An image has no fault, and no other listing.
pub fn image_is_of_only_listing()
    ensures { OneListingLaw }
{
    pages_read_back();
}

/// Bytes have no fault exactly where they are an image of a listing, and then of that one alone.
pub fn faultless_bytes_are_an_image()
    ensures { ImageLaw }
{
    pages_read_back();
    faultless_bytes_are_a_page();
}

/// The fault that is answered is the one in the table of faults whose condition holds where no condition
/// with a lower number does, at the first place where it holds. None is answered where no condition holds.
pub fn answered_fault_is_first()
    ensures first { FirstFaultLaw }
    ensures none { NoFaultLaw }
{}

/// The census of an image's listing gives the numbers that are counted in the image's bytes.
pub fn census_counts_pages()
    ensures { CensusLaw }
{
    pages_are_packed();
}

/// What is written is an image of the listing.
pub fn what_is_written_is_an_image()
    ensures { CanonicalLaw }
{
    pages_are_packed();
    pages_are_pieces();
    a_page_is_its_bytes();
    pages_read_back();
}

/// What is written has the bytes of its pages.
pub fn written_images_have_their_pages()
    ensures { LengthLaw }
{
    pages_are_packed();
    pages_are_pieces();
    a_page_is_its_bytes();
    pages_read_back();
}

/// The image that is written of a listing is read as that listing.
pub fn written_images_read_back()
    ensures { RoundTripLaw }
{
    what_is_written_is_an_image();
    image_is_of_only_listing();
}

/// An image with other bytes behind it is what leads in them, and the others are what follows.
pub fn an_image_leads()
    ensures { LeadingLaw }
{
    image_is_of_only_listing();
}

/// A look-up in an image of a listing answers as the plain map of all records does. In any bytes, a value that is found
/// stands with the key in a page of the key's bucket, and a fault is that of a page of the key's chain, or names a page
/// that leads back to itself.
pub fn what_is_found_stands_there()
    ensures map { MapLaw }
    ensures stands { StandsLaw }
    ensures faults { FaultLaw }
{
    image_is_of_only_listing();
    address_is_only_bucket();
    records_make_a_map();
    listing_is_placed();
}

/// In an image of a listing each record of its plain map has one place, and no other record has one. So a walk from place to
/// place, as by calls of [`next_in`](crate::indexed::next_in) from 0 on, comes to each record once.
pub fn each_record_has_one_place()
    ensures places { PlacesLaw }
    ensures walk { WalkLaw }
{
    address_is_only_bucket();
    records_make_a_map();
    listing_is_placed();
}
