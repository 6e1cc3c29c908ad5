//! liblhf: keys looked up in images by programs in C, and in what calls C; and images built. `examples/c/lhf.h` declares what
//! is exported here, and says how it is used.
//!
//! Nothing that C hands in is trusted further than that a pointer and a length are those of bytes that are there: whatever
//! the bytes are, and whatever numbers stand in a handle, nothing else is read, and each call returns. So no export has a
//! `requires`; what is answered is told where the handle is one that was made of the bytes.
#![tactic(auto)]

mod build;
mod codes;
mod handle;
mod many;
mod texts;

ghost use Rattle.std.specs.Prelude.{◌≡◌, ◌<◌, ◌≤◌, length, take};
ghost use Rattle.std.specs.FinMap.{get};
ghost use Rattle.lh_bucket.specs.Listing.{Lists, all_of};
ghost use Rattle.lh_bucket.specs.Records.{map_of};
ghost use Rattle.lh_image.specs.Faults.{image_fault};
ghost use Rattle.lh_image.specs.Image.{IsImage};
ghost use Rattle.lh_image.specs.LookUp.{opening_fault};
ghost use Rattle.lh_page.specs.Limits.{IsKey};
ghost use Rattle.lhf.specs.Built.{IsBuilt, IsWanted};
ghost use Rattle.lhf.specs.Handles.{IsCheckedHandle, IsOpenHandle};
ghost use Rattle.lhf.specs.Many.{AreOfKeys, AreReplies};
ghost use Rattle.lhf.specs.Replies.{IsJudged, IsNextReply, IsReply, IsSeekReply, TellsFault, absent, sought, too_small};

use crate::build::{NewFile, NewRecord, built, number_of};
use crate::codes::{ABSENT, CHANGED, OK, TOO_SMALL, code_of, place_of};
use crate::handle::{Ask, Handle, Slice, put_numbers, root_of, version_of};
use crate::many::{answer_all, read_entries, read_slots, start_all};
use crate::texts::text_of;
use lh_image::indexed::{find_in, next_in};
use lh_image::laws::{image_is_of_only_listing, what_is_found_stands_there};
use lh_image::{Image, PageIndex};
use lh_page::Key;
use lh_page::limits::LONGEST_KEY;
use std::alloc::Global;

/// Opens bytes as an image, by their first page and by how many they are: 0, or the number of their first fault, 1 to 5.
#[unsafe(no_mangle)]
pub extern "C" fn lhf_open<'a>(image: &mut Handle<'a>, bytes: &'a [u8]) -> u32
    ensures code { TellsFault (opening_fault bytes.now) result image.new.at }
    ensures open { result ≡ 0 → IsOpenHandle bytes.now image.new }
{
    image.bytes = bytes;
    image.index = &[];
    match Image::open(bytes) {
        Ok(opened) => {
            put_numbers(image, &opened);
            OK
        }
        Err(fault) => {
            image.at = place_of(&fault);
            code_of(&fault)
        }
    }
}

/// How many entries the index of an image has.
#[unsafe(no_mangle)]
pub extern "C" fn lhf_index_len(image: &Handle) -> usize
    ensures { result ≡ image.now.pages }
{
    image.pages as usize
}

/// Looks at all pages of an image once, and writes its index: 0, or the number of the first fault of the bytes, or that
/// memory ran out, or that the index isn't as long as the image has pages.
#[unsafe(no_mangle)]
pub extern "C" fn lhf_check<'a>(
    alloc: Global,
    image: &mut Handle<'a>,
    index: &'a mut [PageIndex],
) -> u32
    ensures code { IsJudged (image_fault image.old.bytes.now) result image.new.at }
    ensures checked { result ≡ 0 → IsCheckedHandle image.new }
    ensures bytes { image.new.bytes.now ≡ image.old.bytes.now }
{
    // Its law: an image has no fault.
    image_is_of_only_listing();
    let opened = match Image::open(image.bytes) {
        Ok(opened) => opened,
        Err(fault) => {
            image.at = place_of(&fault);
            return code_of(&fault);
        }
    };
    if index.len() != opened.pages() as usize {
        return CHANGED;
    }
    match opened.check_into(alloc, index) {
        Ok(()) => {
            put_numbers(image, &opened);
            image.index = index;
            OK
        }
        Err(fault) => {
            image.at = place_of(&fault);
            code_of(&fault)
        }
    }
}

/// The value of a key in an image that was checked.
#[unsafe(no_mangle)]
pub extern "C" fn lhf_find<'a>(image: &Handle<'a>, key: &[u8], value: &mut Slice<'a>) -> u32
    ensures found { IsCheckedHandle image.now → IsKey key.now → (l : Lists) → IsImage image.now.bytes.now l →
        IsReply (get (map_of (all_of l.lists)) key.now) result value.new.bytes.now }
    ensures strange { ¬ IsKey key.now → result ≡ absent }
{
    if key.len() == 0 || key.len() > LONGEST_KEY {
        return ABSENT;
    }
    // Its law: a look-up in an image answers what the plain map of its records has.
    what_is_found_stands_there();
    let Some(version) = version_of(image) else {
        return CHANGED;
    };
    let Some(root) = root_of(image) else {
        return CHANGED;
    };
    match find_in(image.bytes, version, &root, image.index, key) {
        Ok(Some(found)) => {
            value.bytes = found;
            OK
        }
        Ok(None) => ABSENT,
        Err(_) => CHANGED,
    }
}

/// The values of many keys in an image that was checked, each as [`lhf_find`] finds it. What is read first of each key's
/// page is read of all before any is compared, so that their waits for memory run side by side.
#[unsafe(no_mangle)]
pub extern "C" fn lhf_find_many<'a>(image: &Handle<'a>, asks: &mut [Ask<'a>]) -> u32
    ensures keys { AreOfKeys asks.old asks.new }
    ensures found { IsCheckedHandle image.now → (l : Lists) → IsImage image.now.bytes.now l → AreReplies l asks.new }
    ensures done { IsCheckedHandle image.now → result ≡ 0 }
{
    let Some(version) = version_of(image) else {
        return CHANGED;
    };
    let Some(root) = root_of(image) else {
        return CHANGED;
    };
    start_all(asks, &root);
    read_entries(asks, image.index);
    read_slots(asks, image.bytes, version);
    answer_all(asks, image.bytes, version, image.index);
    OK
}

/// The value of a key in an image that was opened: each page that is met is judged first, so it need not be checked.
#[unsafe(no_mangle)]
pub extern "C" fn lhf_seek<'a>(image: &mut Handle<'a>, key: &[u8], value: &mut Slice<'a>) -> u32
    ensures exact { IsKey key.now →
        IsSeekReply (sought image.old.bytes.now key.now) result image.new.at value.new.bytes.now }
    ensures found { IsKey key.now → (l : Lists) → IsImage image.old.bytes.now l →
        IsReply (get (map_of (all_of l.lists)) key.now) result value.new.bytes.now }
    ensures strange { ¬ IsKey key.now → result ≡ absent }
{
    // Its law: a look-up in an image answers what the plain map of its records has.
    what_is_found_stands_there();
    // And its: an image has no fault.
    image_is_of_only_listing();
    let Ok(key) = Key::new(key) else {
        return ABSENT;
    };
    let opened = match Image::open(image.bytes) {
        Ok(opened) => opened,
        Err(fault) => {
            image.at = place_of(&fault);
            return code_of(&fault);
        }
    };
    match opened.find_bytes(&key) {
        Ok(Some(found)) => {
            value.bytes = found;
            OK
        }
        Ok(None) => ABSENT,
        Err(fault) => {
            image.at = place_of(&fault);
            code_of(&fault)
        }
    }
}

/// The first record from a place on; the place becomes the one behind it.
#[unsafe(no_mangle)]
pub extern "C" fn lhf_next<'a>(
    image: &Handle<'a>,
    place: &mut u64,
    key: &mut Slice<'a>,
    value: &mut Slice<'a>,
) -> u32
    ensures { IsCheckedHandle image.now →
        IsNextReply image.now.bytes.now place.old result place.new key.new.bytes.now value.new.bytes.now }
{
    let Some(version) = version_of(image) else {
        return CHANGED;
    };
    match next_in(image.bytes, version, image.index, *place) {
        Ok(Some((at, own, found))) => {
            *place = at.saturating_add(1);
            key.bytes = own;
            value.bytes = found;
            OK
        }
        Ok(None) => ABSENT,
        Err(_) => CHANGED,
    }
}

/// Writes the image of the file that inserts of some records leave of another image, or of an empty file where there are no
/// bytes of one, and how many bytes it has.
#[unsafe(no_mangle)]
pub extern "C" fn lhf_build(
    alloc: Global,
    old: &[u8],
    records: &[NewRecord],
    file: &NewFile,
    image: &mut [u8],
    size: &mut usize,
) -> u32
    ensures built { result ≡ 0 → IsBuilt old.now file.now records.now (take size.new image.new) }
    ensures within { result ≡ 0 → size.new ≤ length image.new }
    ensures wanted { result ≡ too_small → IsWanted old.now file.now records.now size.new (length image.old) }
    ensures kept { ¬ (result ≡ 0) → image.new ≡ image.old }
{
    match built(alloc, old, records, file) {
        Ok(bytes) => {
            *size = bytes.len();
            if image.len() < bytes.len() {
                return TOO_SMALL;
            }
            image[..bytes.len()].copy_from_slice(bytes.as_slice());
            OK
        }
        Err(fault) => number_of(&fault),
    }
}

/// What a code says, as a text: 0, or that there is no such code.
#[unsafe(no_mangle)]
pub extern "C" fn lhf_text<'a>(code: u32, text: &mut Slice<'a>) -> u32
    ensures known { code ≤ too_small → result ≡ 0 }
    ensures text { code ≤ too_small → 1 ≤ length text.new.bytes.now }
    ensures unknown { too_small < code → result ≡ absent }
{
    match text_of(code) {
        Some(own) => {
            text.bytes = own.as_bytes();
            OK
        }
        None => ABSENT,
    }
}
