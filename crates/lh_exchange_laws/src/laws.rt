//! Laws over the definitions that the contracts of `load` and `dump` cite, each the contract of a function that does
//! nothing.
ghost use Rattle.lh_exchange_laws.specs.LoadLaws.{LoadedIsDumpedLaw};

use lh_addr::laws::address_is_only_bucket;
use lh_bucket::laws::{listing_is_placed, records_make_a_map};
use lh_exchange::laws::{cdb_is_exact, written_is_read};
use lh_image::laws::written_images_read_back;

/// What `load` read is what `dump --format` gives back: of the image that `load` wrote it writes a stream that is read
/// without a fault and has the same records, in some order, whichever formats the two streams are in.
pub fn loaded_records_are_dumped()
    ensures { LoadedIsDumpedLaw }
{
    address_is_only_bucket();
    records_make_a_map();
    listing_is_placed();
    cdb_is_exact();
    written_is_read();
    written_images_read_back();
}
