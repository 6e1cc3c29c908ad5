//! Many keys in one call: what is read first of each is read of all, before any is compared.
ghost use Rattle.std.specs.Prelude.{◌≡◌};
ghost use Rattle.lh_addr.specs.Extent.{Extent};
ghost use Rattle.lh_bucket.specs.Listing.{Lists};
ghost use Rattle.lh_image.specs.Checked.{IsChecked};
ghost use Rattle.lh_image.specs.Image.{IsImage};
ghost use Rattle.lh_image.specs.Indexed.{IsStart};
ghost use Rattle.lh_image.specs.declared.header.Header.{Header};
ghost use Rattle.lhf.specs.Many.{KeepStarts, AreOfKeys, AreReplies, AreStarted, KeepsStart};
ghost use Rattle.lhf.specs.Replies.{IsAskReply};

use crate::codes::{ABSENT, CHANGED, OK};
use crate::handle::Ask;
use lh_addr::Root;
use lh_image::indexed::{find_from, first_byte, likely_place, start_of};
use lh_image::laws::what_is_found_stands_there;
use lh_image::{PageIndex, Version};
use lh_page::limits::LONGEST_KEY;

/// Where the look-up of each key begins.
pub(crate) fn start_all(asks: &mut [Ask], root: &Root)
    ensures keys { AreOfKeys asks.old asks.new }
    ensures started { AreStarted root.now asks.new }
{
    for place in 0..asks.len() {
        start(&mut asks[place], root);
    }
}

/// Where the look-up of a key begins.
fn start(ask: &mut Ask, root: &Root)
    ensures key { ask.new.key ≡ ask.old.key }
    ensures start { IsStart root.now ask.new.key.bytes.now ask.new.start }
{
    ask.start = start_of(root, ask.key.bytes);
}

/// Reads of each key what is kept of the page where its look-up begins.
pub(crate) fn read_entries(asks: &mut [Ask], index: &[PageIndex])
    ensures { KeepStarts asks.old asks.new }
{
    for place in 0..asks.len() {
        read_entry(&mut asks[place], index);
    }
}

/// Reads what is kept of the page where the look-up of a key begins: which record is likely to have the key.
fn read_entry(ask: &mut Ask, index: &[PageIndex])
    ensures { KeepsStart ask.old ask.new }
{
    ask.place = likely_place(index, ask.start) as u8;
}

/// Reads the first byte of each record that is likely to have its key.
pub(crate) fn read_slots(asks: &mut [Ask], bytes: &[u8], version: Version)
    ensures { KeepStarts asks.old asks.new }
{
    for place in 0..asks.len() {
        read_slot(&mut asks[place], bytes, version);
    }
}

/// Reads the first byte of the record that is likely to have the key. That it is kept keeps it from being left out.
fn read_slot(ask: &mut Ask, bytes: &[u8], version: Version)
    ensures { KeepsStart ask.old ask.new }
{
    ask.first = first_byte(bytes, version, ask.start.page, ask.place as usize);
}

/// The value of each key, from where its look-up begins.
pub(crate) fn answer_all<'a>(
    asks: &mut [Ask<'a>],
    bytes: &'a [u8],
    version: Version,
    index: &[PageIndex],
)
    ensures keys { AreOfKeys asks.old asks.new }
    ensures found { (header : Header) → (root : Extent) → version ≡ header.version →
        IsChecked bytes.now header root index.now → AreStarted root asks.old → (l : Lists) → IsImage bytes.now l →
        AreReplies l asks.new }
{
    for place in 0..asks.len() {
        answer(&mut asks[place], bytes, version, index);
    }
}

/// The value of a key, from where its look-up begins.
fn answer<'a>(ask: &mut Ask<'a>, bytes: &'a [u8], version: Version, index: &[PageIndex])
    ensures key { ask.new.key ≡ ask.old.key }
    ensures found { (header : Header) → (root : Extent) → version ≡ header.version →
        IsChecked bytes.now header root index.now → IsStart root ask.old.key.bytes.now ask.old.start →
        (l : Lists) → IsImage bytes.now l → IsAskReply l ask.new }
{
    // Its law: a look-up in an image answers what the plain map of its records has.
    what_is_found_stands_there();
    if ask.key.bytes.len() == 0 || ask.key.bytes.len() > LONGEST_KEY {
        ask.code = ABSENT;
        return;
    }
    match find_from(bytes, version, index, ask.key.bytes, ask.start) {
        Ok(Some(found)) => {
            ask.value.bytes = found;
            ask.code = OK;
        }
        Ok(None) => ask.code = ABSENT,
        Err(_) => ask.code = CHANGED,
    }
}
