//! Reading an image, page by page.
ghost use Rattle.std.specs.Prelude.{◌≡◌, IfSome, IfOk};
ghost use Rattle.lh_image.specs.Image.{IsImage};
ghost use Rattle.lh_image.specs.Reading.{IsDueAnswer, Leaves, reading_of};

mod filling;
pub(crate) mod first_page;
mod leading;
pub(crate) mod memory;
pub(crate) mod page;
pub(crate) mod pages;

use crate::fault::ImageFault;
use crate::judge::listed::listing_of_pages;
use crate::laws::faultless_bytes_are_an_image;
use crate::reading::first_page::read_header;
use crate::reading::pages::{read_end, read_pages};
pub use leading::read_leading_image;
use lh_bucket::Listing;
use std::alloc::Global;
use std::io::Read;

/// The listing that the reader's bytes are an image of, or why they are none.
///
/// Reads are taken as they come, each of at most a page; one that fails is never tried again. The first page
/// is read first and decides the faults of the header; then the rest is read, up to one byte past the last
/// page. Its first 1,024 bytes tell the version, and so whether more of it is read.
pub fn read_image<R: Read>(alloc: Global, reader: &mut R) -> Result<Listing, ImageFault>
    ensures exact { IfSome (R.remaining reader.old) (λ bytes.
        IsDueAnswer (λ listing l. listing ≡ l) result (reading_of bytes)) }
    ensures image { IfSome (R.remaining reader.old) (λ bytes. IfOk result (λ listing. IsImage bytes listing)) }
    ensures rest { IfSome (R.remaining reader.old) (λ bytes. Leaves result bytes (R.remaining reader.new)) }
{
    // Its law: bytes without a fault are an image, and of the listing that they show.
    faultless_bytes_are_an_image();
    let header = read_header(reader)?;
    let (table, faults) = read_pages(alloc, &header, reader)?;
    read_end(reader)?;
    listing_of_pages(alloc, &header, &table, &faults)
}
