//! Whether a listing's records have room in the slots of an image.
ghost use Rattle.std.specs.Prelude.{◌≡◌, ◌<◌, IfNone, IfSome, position};
ghost use Rattle.lh_bucket.specs.Listing.{EachPlace, IsFirst, list_at, size};
ghost use Rattle.lh_image.specs.Fitting.{IsFitting, IsTooLong, is_too_long};

use lh_bucket::Listing;
use lh_page::Pair;
use lh_page::format::Format;

/// Whether a slot has no room for a record.
#[tactic(auto, unfolding(crate::specs::Fitting::is_too_long))]
fn is_too_long(format: Format, pair: &Pair) -> bool
    ensures { result ≡ is_too_long format pair.now }
{
    pair.key.bytes().len() > format.key || pair.value.bytes().len() > format.value
}

/// The place of a bucket's first record for which no slot has room.
fn first_in(listing: &Listing, format: Format, bucket: u32) -> Option<usize>
    requires { bucket < size listing.now }
    ensures { result ≡ position (is_too_long format) (list_at listing.now.lists bucket) }
{
    listing
        .pairs_of(bucket)
        .iter()
        .position(|pair| is_too_long(format, pair))
}

/// The bucket and the place of the first record for which no slot has room.
pub(crate) fn first_too_long(listing: &Listing, format: Format) -> Option<(u32, usize)>
    ensures found { IfSome result (λ at. IsFirst (IsFitting format) (IsTooLong format) listing.now.lists at.0 at.1) }
    ensures none { IfNone result (EachPlace (IsFitting format) listing.now.lists) }
{
    for bucket in 0..listing.buckets() {
        if let Some(place) = first_in(listing, format, bucket) {
            return Some((bucket, place));
        }
    }
    None
}
