//! Images: whole files as bytes. An image is a row of pages, which is written whole, read whole and checked.
//! There are two versions of it: with pages of 1,024 bytes for short records, and with pages of 4,096 for all.
//!
//! ```text
//! write_image(&listing, &mut writer)?;              // the listing as bytes of version 2
//! write_image_v1(&listing, &mut writer)?;           // or of version 1, if its records are short enough
//! image_len(&listing)?                              // how many bytes of version 2 that are
//! let listing = read_image(alloc, &mut reader)?;    // exactly the images, and each fault by its place
//! read_leading_image(alloc, &mut reader)?           // of an image that other bytes follow, which are left to be read
//! check_image(alloc, &mut reader)?.longest          // pages of the longest chain
//! Image::open(&bytes)?.find(&key)?                  // one key's value, in the bytes as they are
//! Image::open(&bytes)?.check(alloc)?                // all pages are looked at once,
//!     .find(&key)                                   // and then many keys are looked up, which has no fault
//! ```
#![tactic(auto)]

mod census;
mod checked;
mod fault;
mod header;
mod image;
pub mod indexed;
mod judge;
pub mod laws;
mod layout;
mod limits;
mod marks;
mod reading;
mod table;
mod version;
mod writing;

pub use census::{Census, check_image};
pub use checked::CheckedImage;
pub use checked::index::PageIndex;
pub use fault::{ImageFault, WriteImageFault};
pub use image::Image;
pub use reading::{read_image, read_leading_image};
pub use version::Version;
pub use writing::sending::{WriteFailed, send_all};
pub use writing::{image_len, write_image, write_image_v1};
