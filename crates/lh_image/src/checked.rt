//! Look-ups in the bytes of an image that was checked.
ghost use Rattle.std.specs.Prelude.{◌≡◌, ◌==◌, length, IfErr, IfOk, IfSome, MatchOption, None, Some};
ghost use Rattle.std.specs.FinMap.{get};
ghost use Rattle.lh_bucket.specs.Listing.{all_of, count_of, size};
ghost use Rattle.lh_bucket.specs.Records.{map_of};
ghost use Rattle.lh_page.specs.Limits.{IsValue};
ghost use Rattle.lh_image.specs.Checked.{IsChecked};
ghost use Rattle.lh_image.specs.Faults.{image_fault};
ghost use Rattle.lh_image.specs.Image.{IsImage};
ghost use Rattle.lh_image.specs.Listed.{IsMemoryOr};
ghost use Rattle.lh_image.specs.LookUp.{IsOpenedImage};

mod apart;
pub(crate) mod index;
mod pages;
mod plain;
mod whole;

use crate::checked::index::{NOTHING, PageIndex, put_index};
use crate::checked::pages::pages_in;
use crate::checked::whole::is_plain;
use crate::fault::ImageFault;
use crate::header::Header;
use crate::indexed::find_in;
use crate::judge::listed::listing_of_pages;
use crate::laws::{
    faultless_bytes_are_an_image, image_is_of_only_listing, what_is_found_stands_there,
};
use lh_addr::{Config, Root};
use lh_page::{Key, Value};
use std::alloc::Global;
use std::marker::Model;

/// The bytes of an image that was checked, to look keys up in: seen as the listing that they are an image of.
///
/// No look-up has a fault, and none judges what it meets: it compares keys where they stand, in the pages of one chain.
/// Nothing is copied, and a look-up takes no memory. For each page 32 bytes are kept, by which a look-up goes to those
/// slots alone whose keys are likely to be the key.
///
/// ```text
/// let image = Image::open(&bytes)?.check(alloc)?;  // one look at all pages
/// image.find_bytes(&Key::new(b"Ada")?)             // the value, and never a fault
/// ```
#[derive(Drop)]
pub struct CheckedImage<'a> {
    bytes: &'a [u8],
    header: Header,
    root: Root,
    index: Vec<PageIndex>,
}

impl<'a> Model for CheckedImage<'a> {
    ghost use Rattle.lh_bucket.specs.Listing.{Lists};
    ghost use Rattle.lh_image.specs.Checked.{IsChecked};
    ghost use Rattle.lh_image.specs.Image.{listing_of};
    ghost use Rattle.lh_image.specs.Layout.{view_of};

    ghost Value = { Lists };

    ghost view = { λ i. listing_of (view_of i.bytes.now) };

    ghost invariant = { λ i. IsChecked i.bytes.now i.header i.root i.index.items };
}

/// Looks at all pages of bytes that were opened, and puts what look-ups want of them into an index.
pub(crate) fn check_pages(
    alloc: Global,
    bytes: &[u8],
    header: &Header,
    root: &Root,
    index: &mut [PageIndex],
) -> Result<(), ImageFault>
    requires opened { IsOpenedImage bytes.now header.now root.now }
    requires size { length index.old ≡ header.now.pages }
    ensures checked { IfOk result (λ _. IsChecked bytes.now header.now root.now index.new) }
    ensures fault { IfErr result (λ fault. IsMemoryOr fault (image_fault bytes.now)) }
{
    if is_plain(bytes, header, root, index) {
        return Ok(());
    }
    // Some page has a fault, or a chain is long. Their laws: bytes without a fault are an image, and of the one listing
    // that they show.
    faultless_bytes_are_an_image();
    image_is_of_only_listing();
    let (table, faults) = pages_in(alloc, bytes, header, root)?;
    listing_of_pages(alloc, header, &table, &faults)?;
    put_index(bytes, header, root, index);
    Ok(())
}

impl<'a> CheckedImage<'a> {
    /// Looks at all pages of bytes that were opened.
    pub(crate) fn of(
        alloc: Global,
        bytes: &'a [u8],
        header: &Header,
        root: &Root,
    ) -> Result<CheckedImage<'a>, ImageFault>
        requires { IsOpenedImage bytes.now header.now root.now }
        ensures image { IfOk result (λ checked. IsImage bytes.now checked) }
        ensures fault { IfErr result (λ fault. IsMemoryOr fault (image_fault bytes.now)) }
    {
        let mut index = vec![in alloc; NOTHING; header.pages as usize]?;
        check_pages(alloc, bytes, header, root, &mut index)?;
        Ok(CheckedImage {
            bytes,
            header: *header,
            root: *root,
            index,
        })
    }

    /// The configuration of the file.
    pub fn config(&self) -> Config
        ensures { result ≡ self.now.config }
    {
        self.header.config
    }

    /// The number of buckets.
    pub fn buckets(&self) -> u32
        ensures { result ≡ size self.now }
    {
        self.header.buckets
    }

    /// The number of records.
    pub fn len(&self) -> u64
        ensures { result ≡ count_of self.now.lists }
    {
        self.header.records
    }

    /// Whether there is no record.
    pub fn is_empty(&self) -> bool
        ensures { result ≡ (count_of self.now.lists == 0) }
    {
        self.len() == 0
    }

    /// The bytes of a key's value, lent by the image, or none where there is no such key.
    pub fn find_bytes(&self, key: &Key) -> Option<&'a [u8]>
        ensures listed { MatchOption result (get (map_of (all_of self.now.lists)) key.now ≡ None)
            (λ value. get (map_of (all_of self.now.lists)) key.now ≡ Some value.now) }
        ensures short { IfSome result (λ value. IsValue value.now) }
    {
        // Its law: in an image of a listing the plain map of all records answers the same.
        what_is_found_stands_there();
        match find_in(
            self.bytes,
            self.header.version,
            &self.root,
            &self.index,
            key.bytes(),
        ) {
            Ok(found) => found,
            Err(_) => unreachable!(),
        }
    }

    /// The value of a key, if there is one.
    pub fn find(&self, key: &Key) -> Option<Value>
        ensures { result ≡ get (map_of (all_of self.now.lists)) key.now }
    {
        match self.find_bytes(key) {
            Some(bytes) => match Value::new(bytes) {
                Ok(value) => Some(value),
                Err(_) => unreachable!(),
            },
            None => None,
        }
    }
}
