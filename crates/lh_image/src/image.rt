//! A look-up in the bytes of an image.
ghost use Rattle.std.specs.Prelude.{◌≡◌, ◌≤◌, ◌==◌, List, ℕ, Ok, Err, Some, None, IfOk, IfErr, IfSome, MatchOption};
ghost use Rattle.std.specs.Prelude.{length};
ghost use Rattle.std.specs.FinMap.{get};
ghost use Rattle.std.specs.Result.{result_err};
ghost use Rattle.lh_bucket.specs.Listing.{Lists, all_of, count_of, size};
ghost use Rattle.lh_bucket.specs.Records.{map_of};
ghost use Rattle.lh_page.specs.Limits.{IsValue};
ghost use Rattle.lh_image.specs.Checked.{IsChecked};
ghost use Rattle.lh_image.specs.Faults.{image_fault};
ghost use Rattle.lh_image.specs.Indexed.{extent_of};
ghost use Rattle.lh_image.specs.Image.{IsImage};
ghost use Rattle.lh_image.specs.Layout.{header_of, view_of};
ghost use Rattle.lh_image.specs.Listed.{IsMemoryOr};
ghost use Rattle.lh_image.specs.LookUp.{Stands, look_up, opening_fault};
ghost use Rattle.lh_image.specs.Version.{version_of};

mod opening;
pub(crate) mod slots;
pub(crate) mod walk;

use crate::checked::index::PageIndex;
use crate::checked::{CheckedImage, check_pages};
use crate::fault::ImageFault;
use crate::header::Header;
use crate::image::opening::{check_size, header_in};
use crate::image::walk::{place_of, value_at};
use crate::laws::what_is_found_stands_there;
use crate::version::Version;
use lh_addr::{Config, Root};
use lh_page::{Key, Value};
use std::alloc::Global;
use std::marker::Model;

/// The bytes of an image of either version, to look keys up in. They are borrowed, as of a file that was read or
/// mapped; nothing is copied and no memory is taken.
///
/// ```text
/// let image = Image::open(&bytes)?;       // one look at the first page
/// image.find(&Key::new(b"Ada")?)?         // the value, by one look at each page of one chain
/// ```
#[derive(Drop)]
pub struct Image<'a> {
    bytes: &'a [u8],
    header: Header,
    root: Root,
}

impl<'a> Model for Image<'a> {
    ghost use Rattle.std.specs.Prelude.{ℕ, List};
    ghost use Rattle.lh_image.specs.LookUp.{IsOpenedImage};

    ghost Value = { List ℕ };

    ghost view = { λ i. i.bytes.now };

    ghost invariant = { λ i. IsOpenedImage i.bytes.now i.header i.root };
}

impl<'a> Image<'a> {
    /// Opens bytes by their first page and by how many they are: `ImageFault::Magic` to `ImageFault::Trailing`. What
    /// the other pages hold is looked at by each look-up as far as it goes; [`check_image`](crate::check_image) looks
    /// at all.
    pub fn open(bytes: &'a [u8]) -> Result<Image<'a>, ImageFault>
        ensures fault { result_err result ≡ opening_fault bytes.now }
        ensures bytes { IfOk result (λ image. image ≡ bytes.now) }
    {
        let header = header_in(bytes)?;
        check_size(bytes, &header)?;
        Ok(Image {
            bytes,
            root: header.config.root(header.buckets),
            header,
        })
    }

    /// Looks at all pages once, for look-ups that then have no fault and look at no more than they need.
    ///
    /// It takes 32 bytes for each page, which are kept. Records are looked at where they stand; only where a page has a
    /// fault or a chain has 64 pages or more are they copied while it runs. The fault is that of
    /// [`check_image`](crate::check_image).
    pub fn check(&self, alloc: Global) -> Result<CheckedImage<'a>, ImageFault>
        ensures image { IfOk result (λ checked. IsImage self.now checked) }
        ensures fault { IfErr result (λ fault. IsMemoryOr fault (image_fault self.now)) }
    {
        CheckedImage::of(alloc, self.bytes, &self.header, &self.root)
    }

    /// The version of the image.
    pub fn version(&self) -> Version
        ensures { result ≡ version_of self.now }
    {
        self.header.version
    }

    /// The configuration of the file.
    pub fn config(&self) -> Config
        ensures value { result ≡ (header_of self.now).config }
        ensures listed { (l : Lists) → IsImage self.now l → result ≡ l.config }
    {
        self.header.config
    }

    /// The number of buckets.
    pub fn buckets(&self) -> u32
        ensures value { result ≡ (header_of self.now).buckets }
        ensures listed { (l : Lists) → IsImage self.now l → result ≡ size l }
    {
        self.header.buckets
    }

    /// The number of pages, the header among them.
    pub fn pages(&self) -> u32
        ensures { result ≡ (header_of self.now).pages }
    {
        self.header.pages
    }

    /// Looks at all pages once, as [`check`](Image::check) does, and puts what look-ups want of them into the caller's
    /// memory: an entry for each page. Where no page has a fault and no chain has 64 pages it asks for none. After a
    /// fault the index has entries of some pages.
    pub fn check_into(&self, alloc: Global, index: &mut [PageIndex]) -> Result<(), ImageFault>
        requires { length index.old ≡ (header_of self.now).pages }
        ensures checked { IfOk result (λ _. IsChecked self.now (header_of self.now) (extent_of self.now) index.new) }
        ensures fault { IfErr result (λ fault. IsMemoryOr fault (image_fault self.now)) }
    {
        check_pages(alloc, self.bytes, &self.header, &self.root, index)
    }

    /// The number of records, as the header has it.
    pub fn len(&self) -> u64
        ensures value { result ≡ (header_of self.now).records }
        ensures listed { (l : Lists) → IsImage self.now l → result ≡ count_of l.lists }
    {
        self.header.records
    }

    /// Whether there is no record, as the header has it.
    pub fn is_empty(&self) -> bool
        ensures { result ≡ ((header_of self.now).records == 0) }
    {
        self.len() == 0
    }

    /// The bytes of a key's value, lent by the image, or none where there is no such key.
    ///
    /// The pages of the chain of the key's bucket are looked at, up to the one that has the key. The first of them that
    /// has a fault by itself ends the look-up with the first of its faults, by the order of [`ImageFault`]: `Kind` to
    /// `Next`, `Slot`, and `Misfit` where one of its records belongs to another bucket. A chain that comes to a page
    /// again ends with `Twice` of it. In an image without a fault no look-up has one.
    pub fn find_bytes(&self, key: &Key) -> Result<Option<&'a [u8]>, ImageFault>
        ensures found { IfOk result (λ found. MatchOption found (look_up (view_of self.now) key.now ≡ Ok None)
            (λ value. look_up (view_of self.now) key.now ≡ Ok (Some value.now))) }
        ensures fault { IfErr result (λ fault. look_up (view_of self.now) key.now ≡ Err fault) }
        ensures stands { IfOk result (λ found. IfSome found (λ value. Stands (view_of self.now) key.now value.now)) }
        ensures short { IfOk result (λ found. IfSome found (λ value. IsValue value.now)) }
    {
        // Its law: what is found stands with the key in a page of the key's bucket.
        what_is_found_stands_there();
        match place_of(self.bytes, &self.header, &self.root, key)? {
            Some((page, slot)) => Ok(Some(value_at(
                self.bytes,
                &self.header,
                &self.root,
                page,
                slot,
            ))),
            None => Ok(None),
        }
    }

    /// The value of a key, if there is one, as [`find_bytes`](Image::find_bytes) finds it.
    pub fn find(&self, key: &Key) -> Result<Option<Value>, ImageFault>
        ensures exact { result ≡ look_up (view_of self.now) key.now }
        ensures listed { (l : Lists) → IsImage self.now l → result ≡ Ok (get (map_of (all_of l.lists)) key.now) }
        ensures stands { IfOk result (λ found. IfSome found (Stands (view_of self.now) key.now)) }
    {
        // Its law: in an image of a listing the plain map of all records answers the same.
        what_is_found_stands_there();
        match self.find_bytes(key)? {
            Some(bytes) => match Value::new(bytes) {
                Ok(value) => Ok(Some(value)),
                Err(_) => unreachable!(),
            },
            None => Ok(None),
        }
    }
}
