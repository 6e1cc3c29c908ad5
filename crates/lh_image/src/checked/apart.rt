//! The keys of one chain, compared where they stand.
ghost use Rattle.std.specs.Prelude.{◌≡◌, ◌-◌, ◌<◌, ◌≤◌, ◌++◌, ℕ, List, [], true, length, take};
ghost use Rattle.std.specs.Prelude.{IfSome};
ghost use Rattle.std.specs.List.{flat_map};
ghost use Rattle.lh_addr.specs.Fnv.{code_of};
ghost use Rattle.lh_addr.specs.Limits.{most_buckets};
ghost use Rattle.lh_page.specs.declared.format.Format.{Format};
ghost use Rattle.lh_page.specs.PageFields.{pair_of, used_of};
ghost use Rattle.lh_page.specs.Records.{keys_of};
ghost use Rattle.lh_image.specs.Chains.{IsPath, stands_in};
ghost use Rattle.lh_image.specs.Checked.{code_mark, index_at};
ghost use Rattle.lh_image.specs.declared.version.Version.{Version};
ghost use Rattle.lh_image.specs.Indexed.{IsGoodPage};
ghost use Rattle.lh_image.specs.Layout.{page, view_of};
ghost use Rattle.lh_image.specs.LookUp.{first_pairs, slot_of};
ghost use Rattle.lh_image.specs.Plain.{AreDistinctChains, AreNew, IsIndexOf, IsNextOf, IsNoneOf, keys_on};
ghost use Rattle.lh_image.specs.Version.{format_of, version_of};
ghost use Rattle.lh_image.specs.View.{page_count};

use crate::checked::index::{MOST, PageIndex};
use crate::image::slots::{key_in, slot_at};
use crate::indexed::{page_in, place_among, place_in};
use crate::marks::places_of;
use crate::version::Version;
use lh_page::lanes::lowest;

/// A chain of this many pages is long. In a shorter one each page is compared with each before it.
const LONG: usize = 64;

/// What is kept of a page behind the header, if there is such a page.
fn entry_in(index: &[PageIndex], number: u32) -> Option<&PageIndex>
    ensures entry { IfSome result (λ entry. entry.now ≡ index_at index.now number) }
    ensures from { IfSome result (λ _. 1 ≤ number) }
    ensures below { IfSome result (λ _. number < length index.now) }
{
    if number == 0 || number as usize >= index.len() {
        return None;
    }
    Some(&index[number as usize])
}

/// Whether no record of a page has the key.
fn lacks(
    bytes: &[u8],
    version: Version,
    index: &[PageIndex],
    number: u32,
    key: &[u8],
    mark: u8,
) -> bool
    ensures { IsIndexOf bytes.now version index.now → mark ≡ code_mark (code_of key.now) → result ≡ true →
        IsNoneOf key.now (keys_of ((view_of bytes.now).records number)) }
{
    let Some(entry) = entry_in(index, number) else {
        return false;
    };
    let Some(page) = page_in(bytes, version, number) else {
        return false;
    };
    place_in(page, version.format(), entry, key, mark).is_none()
}

/// Whether no record of the first pages of a chain has the key.
fn lack(
    bytes: &[u8],
    version: Version,
    index: &[PageIndex],
    pages: &[u32],
    key: &[u8],
    mark: u8,
) -> bool
    ensures { IsIndexOf bytes.now version index.now → mark ≡ code_mark (code_of key.now) → result ≡ true →
        IsNoneOf key.now (keys_on bytes.now pages.now) }
{
    for page in pages {
        if !lacks(bytes, version, index, *page, key, mark) {
            return false;
        }
    }
    true
}

/// Whether none of the first records of a page has the mark, and so none of the keys that have it.
fn lacks_mark(entry: &PageIndex, until: usize, mark: u8) -> bool
    ensures { (f : Format) → (pg : List ℕ) → (key : List ℕ) → IsGoodPage f pg entry.now → f.slots ≤ MOST →
        until ≤ used_of pg → mark ≡ code_mark (code_of key) → result ≡ true →
        IsNoneOf key (keys_of (first_pairs f pg until)) }
{
    let places = places_of(&entry.marks, mark);
    places == 0 || lowest(places) >= until
}

/// Whether no record of some pages has the mark, and so none of the keys that have it.
fn lack_mark(index: &[PageIndex], pages: &[u32], mark: u8) -> bool
    ensures { (bytes : List ℕ) → (version : Version) → (key : List ℕ) → IsIndexOf bytes version index.now →
        mark ≡ code_mark (code_of key) → result ≡ true → IsNoneOf key (keys_on bytes pages.now) }
{
    for page in pages {
        let Some(entry) = entry_in(index, *page) else {
            return false;
        };
        if !lacks_mark(entry, entry.used as usize, mark) {
            return false;
        }
    }
    true
}

/// Whether the key of a page's record stands neither before it in the page nor in the pages before that one. The bytes
/// are read only where a key before it has the same mark.
fn is_new(
    bytes: &[u8],
    version: Version,
    index: &[PageIndex],
    before: &[u32],
    number: u32,
    place: usize,
) -> bool
    ensures { IsIndexOf bytes.now version index.now → place < used_of (page bytes.now number) → result ≡ true →
        IsNoneOf (pair_of (format_of (version_of bytes.now)) (slot_of bytes.now number place)).key
        (keys_on bytes.now before.now
        ++ keys_of (first_pairs (format_of (version_of bytes.now)) (page bytes.now number) place)) }
{
    let Some(entry) = entry_in(index, number) else {
        return false;
    };
    let format = version.format();
    if place >= format.slots {
        return false;
    }
    let mark = entry.marks[place];
    if lack_mark(index, before, mark) && lacks_mark(entry, place, mark) {
        return true;
    }
    let Some(page) = page_in(bytes, version, number) else {
        return false;
    };
    let slot = slot_at(page, format, place);
    if slot[0] as usize > format.key {
        return false;
    }
    let key = key_in(slot, format);
    lack(bytes, version, index, before, key, mark)
        && place_among(page, format, entry, place, key, mark).is_none()
}

/// Whether the keys of a page's records stand neither twice in it nor in the pages before it.
fn are_new(bytes: &[u8], version: Version, index: &[PageIndex], before: &[u32], number: u32) -> bool
    ensures { IsIndexOf bytes.now version index.now → result ≡ true →
        AreNew (keys_on bytes.now before.now) ((view_of bytes.now).records number) }
{
    let Some(entry) = entry_in(index, number) else {
        return false;
    };
    for place in 0..entry.used as usize {
        if !is_new(bytes, version, index, before, number, place) {
            return false;
        }
    }
    true
}

/// Whether no key stands twice in a chain.
fn is_apart(bytes: &[u8], version: Version, index: &[PageIndex], chain: &[u32]) -> bool
    ensures { IsIndexOf bytes.now version index.now → result ≡ true →
        AreNew [] (flat_map (view_of bytes.now).records chain.now) }
{
    for place in 0..chain.len() {
        if !are_new(bytes, version, index, &chain[..place], chain[place]) {
            return false;
        }
    }
    true
}

/// The pages of a chain, if it isn't long: how many.
fn chain_into(index: &[PageIndex], first: u32, chain: &mut [u32; LONG]) -> Option<usize>
    ensures few { IfSome result (λ count. count ≤ LONG) }
    ensures within { IfSome result (λ count. (p : ℕ) → stands_in (take count chain.new) p ≡ true →
        p < length index.now) }
    ensures path { IfSome result (λ count. (next : ℕ → ℕ) → IsNextOf index.now next →
        IsPath next first (take count chain.new)) }
{
    let mut page = first;
    for count in 0..LONG {
        if page == 0 {
            return Some(count);
        }
        let Some(entry) = entry_in(index, page) else {
            return None;
        };
        chain[count] = page;
        page = entry.next;
    }
    None
}

/// Whether each bucket's chain is short and has no key twice, and all chains have as many pages as there are.
pub(crate) fn are_apart(bytes: &[u8], version: Version, index: &[PageIndex], buckets: u32) -> bool
    requires few { buckets ≤ most_buckets }
    ensures { IsIndexOf bytes.now version index.now → length index.now ≡ page_count (view_of bytes.now) →
        result ≡ true → AreDistinctChains bytes.now buckets (length index.now - 1) }
{
    let mut chain = [0; LONG];
    let mut count = 0;
    for bucket in 0..buckets {
        let Some(own) = chain_into(index, 1 + bucket, &mut chain) else {
            return false;
        };
        if !is_apart(bytes, version, index, &chain[..own]) {
            return false;
        }
        count += own;
    }
    count + 1 == index.len()
}
