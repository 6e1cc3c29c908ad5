//! Look-ups in an image that was checked, whose index its caller keeps: for a caller that holds no value of this crate from
//! call to call, as a program in C.
//!
//! Nothing that is handed in is trusted: whatever bytes and index are, nothing but them is read, and the look-up ends. Where
//! the index is that of the bytes and they are an image, it answers what the image's plain map has.
ghost use Rattle.std.specs.Prelude.{◌≡◌, false, ◌+◌, ◌*◌, ◌<◌, ◌≤◌, length, IfOk, IfSome, IsOk, IsSome};
ghost use Rattle.std.specs.Str.{bytes_eq};
ghost use Rattle.lh_addr.specs.Extent.{Extent};
ghost use Rattle.lh_addr.specs.Fnv.{code_of};
ghost use Rattle.lh_page.specs.Format.{IsWithinLimits, page_size, slot_size};
ghost use Rattle.lh_page.specs.Limits.{IsKey, IsValue};
ghost use Rattle.lh_page.specs.PageFields.{is_bad_record, pair_of, pairs_of, used_of, value_length};
ghost use Rattle.lh_page.specs.PageTable.{slot};
ghost use Rattle.lh_image.specs.Checked.{IsChecked, code_mark, index_at};
ghost use Rattle.lh_image.specs.declared.header.Header.{Header};
ghost use Rattle.lh_image.specs.Indexed.{AnswersLookUp, IsGoodPage, IsNext, IsStart};
ghost use Rattle.lh_image.specs.Layout.{page};
ghost use Rattle.lh_image.specs.LookUp.{IsSlotOf, first_pairs};
ghost use Rattle.lh_image.specs.Version.{page_bytes, version_of};

use crate::checked::index::{MOST, PageIndex, mark_of};
use crate::image::slots::{has_key, key_in, slot_at, value_in};
use crate::laws::{image_is_of_only_listing, what_is_found_stands_there};
use crate::limits::MAX_PAGES;
use crate::marks::places_of;
use crate::version::Version;
use lh_addr::{Root, fnv1a};
use lh_page::format::Format;
use lh_page::lanes::{lowest, without};

/// What was met is no image that was checked with this index: something has changed since, or was another's.
#[derive(Clone, Copy, Debug, PartialEq, Eq)]
pub struct Changed;

/// Whether the record at a place of a page has the key.
#[inline]
fn has_key_at(page: &[u8], format: Format, place: usize, key: &[u8]) -> bool
    requires size { length page.now ≡ page_size format }
    requires limits { IsWithinLimits format }
    requires within { place < format.slots }
    ensures { is_bad_record format (slot format page.now place) ≡ false →
        result ≡ bytes_eq (pair_of format (slot format page.now place)).key key.now }
{
    let slot = slot_at(page, format, place);
    slot[0] as usize <= format.key && has_key(slot, format, key)
}

/// The place of the key among the first records of a page.
#[inline]
pub(crate) fn place_among(
    page: &[u8],
    format: Format,
    entry: &PageIndex,
    until: usize,
    key: &[u8],
    mark: u8,
) -> Option<usize>
    requires size { length page.now ≡ page_size format }
    requires limits { IsWithinLimits format }
    requires until { until ≤ format.slots }
    ensures within { IfSome result (λ place. place < format.slots) }
    ensures found { IsGoodPage format page.now entry.now → until ≤ used_of page.now →
        mark ≡ code_mark (code_of key.now) →
        IsSlotOf format page.now key.now (first_pairs format page.now until) result }
{
    let mut left = places_of(&entry.marks, mark);
    while left != 0 {
        let place = lowest(left);
        if place >= until {
            return None;
        }
        if has_key_at(page, format, place, key) {
            return Some(place);
        }
        left = without(left, place);
    }
    None
}

/// The place of the key among the records of a page.
#[inline]
pub(crate) fn place_in(
    page: &[u8],
    format: Format,
    entry: &PageIndex,
    key: &[u8],
    mark: u8,
) -> Option<usize>
    requires size { length page.now ≡ page_size format }
    requires limits { IsWithinLimits format }
    ensures within { IfSome result (λ place. place < format.slots) }
    ensures found { IsGoodPage format page.now entry.now → mark ≡ code_mark (code_of key.now) →
        IsSlotOf format page.now key.now (pairs_of format page.now) result }
{
    place_among(
        page,
        format,
        entry,
        (entry.used as usize).min(format.slots),
        key,
        mark,
    )
}

/// The value at a place of a page, if its length is one that a value may have there.
fn value_at(page: &[u8], format: Format, place: usize) -> Result<&[u8], Changed>
    requires size { length page.now ≡ page_size format }
    requires limits { IsWithinLimits format }
    requires within { place < format.slots }
    ensures value { IfOk result (λ value. value.now ≡ (pair_of format (slot format page.now place)).value) }
    ensures short { IfOk result (λ value. IsValue value.now) }
    ensures fits { value_length (slot format page.now place) ≤ format.value → IsOk result }
{
    let slot = slot_at(page, format, place);
    if slot[1] as usize > format.value {
        return Err(Changed);
    }
    Ok(value_in(slot, format))
}

/// The bytes of a page, if there are as many.
#[inline]
pub(crate) fn page_in(bytes: &[u8], version: Version, number: u32) -> Option<&[u8]>
    ensures size { IfSome result (λ page. length page.now ≡ page_bytes version) }
    ensures page { version ≡ version_of bytes.now → IfSome result (λ own. own.now ≡ page bytes.now number) }
    ensures there { page_bytes version * number + page_bytes version ≤ length bytes.now → IsSome result }
{
    let size = version.page_bytes();
    let start = size * number as usize;
    if bytes.len() < start + size {
        return None;
    }
    Some(&bytes[start..start + size])
}

/// Where the look-up of a key begins: the primary page of its bucket, and the key's mark.
#[repr(C)]
#[derive(Clone, Copy)]
pub struct Start {
    pub page: u32,
    pub mark: u8,
}

/// Where the look-up of a key begins.
#[inline]
pub fn start_of(root: &Root, key: &[u8]) -> Start
    ensures { IsStart root.now key.now result }
{
    // A root has at most 65,536 buckets.
    let _ = root.buckets();
    let code = fnv1a(key);
    Start {
        page: 1 + root.address(code),
        mark: mark_of(code),
    }
}

/// The value of a key from where its look-up begins, lent by the bytes of an image, or none where there is no such key.
pub fn find_from<'a>(
    bytes: &'a [u8],
    version: Version,
    index: &[PageIndex],
    key: &[u8],
    start: Start,
) -> Result<Option<&'a [u8]>, Changed>
    ensures found { (header : Header) → (root : Extent) → version ≡ header.version →
        IsChecked bytes.now header root index.now → IsStart root key.now start →
        AnswersLookUp bytes.now key.now result }
    ensures short { IfOk result (λ found. IfSome found (λ value. IsValue value.now)) }
{
    // Its law: a look-up in an image has no fault, so no page that is met has one, nor does the chain lead back.
    what_is_found_stands_there();
    let format = version.format();
    let mut number = start.page;
    for _ in 0..index.len() {
        if number as usize >= index.len() {
            return Err(Changed);
        }
        let entry = &index[number as usize];
        let Some(page) = page_in(bytes, version, number) else {
            return Err(Changed);
        };
        if let Some(place) = place_in(page, format, entry, key, start.mark) {
            return match value_at(page, format, place) {
                Ok(value) => Ok(Some(value)),
                Err(Changed) => Err(Changed),
            };
        }
        if entry.next == 0 {
            return Ok(None);
        }
        number = entry.next;
    }
    Err(Changed)
}

/// The value of a key, lent by the bytes of an image, or none where there is no such key.
pub fn find_in<'a>(
    bytes: &'a [u8],
    version: Version,
    root: &Root,
    index: &[PageIndex],
    key: &[u8],
) -> Result<Option<&'a [u8]>, Changed>
    ensures found { (header : Header) → version ≡ header.version → IsChecked bytes.now header root.now index.now →
        AnswersLookUp bytes.now key.now result }
    ensures short { IfOk result (λ found. IfSome found (λ value. IsValue value.now)) }
{
    find_from(bytes, version, index, key, start_of(root, key))
}

/// The place of the first record with the key's mark in the page where its look-up begins, if there is one: to be read
/// early, before any is compared.
#[inline]
pub fn likely_place(index: &[PageIndex], start: Start) -> usize
    ensures { result < 64 }
{
    if start.page as usize >= index.len() {
        return 0;
    }
    let bits = places_of(&index[start.page as usize].marks, start.mark);
    if bits == 0 {
        return 0;
    }
    lowest(bits)
}

/// The first byte of a slot, if there is one.
#[inline]
pub fn first_byte(bytes: &[u8], version: Version, number: u32, place: usize) -> u8 {
    let Some(page) = page_in(bytes, version, number) else {
        return 0;
    };
    let format = version.format();
    if place >= format.slots {
        return 0;
    }
    slot_at(page, format, place)[0]
}

/// The key and the value in a slot of a page, if their lengths are those of a record there.
fn record_at(page: &[u8], format: Format, place: usize) -> Result<(&[u8], &[u8]), Changed>
    requires size { length page.now ≡ page_size format }
    requires limits { IsWithinLimits format }
    requires within { place < format.slots }
    ensures key { IfOk result (λ r. r.0.now ≡ (pair_of format (slot format page.now place)).key) }
    ensures value { IfOk result (λ r. r.1.now ≡ (pair_of format (slot format page.now place)).value) }
    ensures good { is_bad_record format (slot format page.now place) ≡ false → IsOk result }
{
    let slot = slot_at(page, format, place);
    if slot[0] as usize > format.key {
        return Err(Changed);
    }
    if slot[1] as usize > format.value {
        return Err(Changed);
    }
    Ok((key_in(slot, format), value_in(slot, format)))
}

/// How many slots of a page are used, by what is kept of it, and of page 0 none.
#[inline]
fn used_in(index: &[PageIndex], number: usize, slots: usize) -> usize
    requires { number < length index.now }
    ensures few { result ≤ slots }
    ensures first { number ≡ 0 → result ≡ 0 }
    ensures kept { 1 ≤ number → (index_at index.now number).used ≤ slots →
        result ≡ (index_at index.now number).used }
{
    if number == 0 {
        return 0;
    }
    (index[number].used as usize).min(slots)
}

/// The first record that stands at a place or behind it, and its place, or none where there is no record more. The places of
/// page `p` are `24 * p` and those behind it, one for each slot that a page may have.
pub fn next_in<'a>(
    bytes: &'a [u8],
    version: Version,
    index: &[PageIndex],
    from: u64,
) -> Result<Option<(u64, &'a [u8], &'a [u8])>, Changed>
    ensures { (header : Header) → (root : Extent) → version ≡ header.version →
        IsChecked bytes.now header root index.now → IsNext bytes.now from result }
{
    // Its law: in an image each page has no more records than slots, and no bad one.
    image_is_of_only_listing();
    let format = version.format();
    let pages = index.len().min(MAX_PAGES as usize);
    for at in from..(pages * MOST) as u64 {
        let number = at as usize / MOST;
        let place = at as usize % MOST;
        if place < used_in(index, number, format.slots) {
            let Some(page) = page_in(bytes, version, number as u32) else {
                return Err(Changed);
            };
            return match record_at(page, format, place) {
                Ok((key, value)) => Ok(Some((at, key, value))),
                Err(Changed) => Err(Changed),
            };
        }
    }
    Ok(None)
}
