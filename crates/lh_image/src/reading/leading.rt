//! Reading an image that other bytes follow.
ghost use Rattle.std.specs.Prelude.{◌≡◌, IfSome, IfOk};
ghost use Rattle.lh_image.specs.Image.{IsImage};
ghost use Rattle.lh_image.specs.Reading.{IsDueAnswer, LeavesFollowing, leading, reading_of};

use crate::fault::ImageFault;
use crate::judge::listed::listing_of_pages;
use crate::laws::faultless_bytes_are_an_image;
use crate::reading::first_page::read_header;
use crate::reading::pages::read_pages;
use lh_bucket::Listing;
use std::alloc::Global;
use std::io::Read;

/// The listing of the image that the reader's bytes begin with, or why they begin with none; the bytes that follow the
/// image are left in the reader.
///
/// The header says how many bytes are the image's. Their fault is the one that [`read_image`](crate::read_image) tells
/// of them alone, so it is never `ImageFault::Trailing`; where there are fewer, it is `ImageFault::Short`.
///
/// ```text
/// let mut input = bytes.as_slice();                      // an image and other bytes
/// let listing = read_leading_image(alloc, &mut input)?;
/// input                                                  // the other bytes
/// ```
pub fn read_leading_image<R: Read>(alloc: Global, reader: &mut R) -> Result<Listing, ImageFault>
    ensures exact { IfSome (R.remaining reader.old) (λ bytes.
        IsDueAnswer (λ listing l. listing ≡ l) result (reading_of (leading bytes))) }
    ensures image { IfSome (R.remaining reader.old) (λ bytes.
        IfOk result (λ listing. IsImage (leading bytes) listing)) }
    ensures rest { IfSome (R.remaining reader.old) (λ bytes. LeavesFollowing result bytes (R.remaining reader.new)) }
{
    // Its law: bytes without a fault are an image, and of the listing that they show.
    faultless_bytes_are_an_image();
    let header = read_header(reader)?;
    let (table, faults) = read_pages(alloc, &header, reader)?;
    listing_of_pages(alloc, &header, &table, &faults)
}
