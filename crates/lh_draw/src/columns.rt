//! The parts of a drawing, made of what is counted of a file.
ghost use Rattle.std.specs.Prelude.{◌≡◌, ◌+◌, ◌*◌, ◌/◌, ◌^◌, ◌<◌, ◌≤◌, IfSome, min};
ghost use Rattle.lh_addr.specs.Limits.{most_level};
ghost use Rattle.lh_bucket.specs.Listing.{IsListing, list_at, size};
ghost use Rattle.lh_draw.specs.Columns.{chain_length, column_count, is_next_level, whole_tally};
ghost use Rattle.lh_draw.specs.Drawing.{canvas_of, cuts_of, filling_of, floor_of, group_bar, label_count, label_of};
ghost use Rattle.lh_draw.specs.Drawing.{legend_of, level_above, more_of, page_bar, part_of, pointer_mark_of, title_of};
ghost use Rattle.lh_draw.specs.Sizes.{most_drawn};

use crate::bars::{Bar, Cuts, More};
use crate::elements::{Canvas, Label, Legend, Mark, Title};
use crate::measures::{
    bar_width, centre, column_count, end_bucket, first_bucket, group_size, label_step, left,
};
use crate::sizes::{HEAD_HEIGHT, MOST_DRAWN, MOST_PLACES, PAGE_GAP, PAGE_HEIGHT, PAGE_STEP};
use crate::tally::{Tally, chain_length, counted_between};
use lh_bucket::Listing;

/// Whether a bucket was split at the file's level, or came of such a split.
fn is_next_level(listing: &Listing, bucket: u32) -> bool
    requires { bucket < size listing.now }
    ensures { result ≡ is_next_level listing.now bucket }
{
    let root = listing.root();
    root.level() < root.level_of(bucket)
}

/// Such a part of a height as is used of some slots.
fn part_of(height: u32, used: u128, slots: u128) -> u32
    requires height { height ≤ 1000 }
    requires some { 1 ≤ slots }
    requires used { used ≤ slots }
    requires slots { slots < 2 ^ 100 }
    ensures { result ≡ part_of height used slots }
{
    (u128::from(height) * used / slots) as u32
}

/// How high the records of some slots stand, of which a page's are as high as the step to the next page: to a given
/// height at most.
fn filling_of(records: u128, slots: u128, most: u32) -> u32
    requires some { 1 ≤ slots }
    requires records { records < 2 ^ 101 }
    ensures { result ≡ filling_of records slots most }
{
    (u128::from(PAGE_STEP) * records / slots).min(u128::from(most)) as u32
}

/// What is counted of the whole file.
pub fn whole_tally(listing: &Listing) -> Tally
    ensures value { result ≡ whole_tally listing.now }
    ensures pages { result.pages < 2 ^ 96 }
{
    counted_between(listing, 0, listing.buckets())
}

/// Where the floor is, below the title and the longest chain that is drawn, with its number above it where it has more
/// pages.
pub fn floor_of(longest: usize) -> u32
    ensures value { result ≡ floor_of longest }
    ensures high { result ≤ 1100 }
{
    HEAD_HEIGHT + PAGE_STEP * longest.min(MOST_PLACES) as u32
}

/// What is drawn on.
pub fn canvas_of(listing: &Listing, longest: usize) -> Canvas
    requires { longest ≡ (whole_tally listing.now).longest }
    ensures { result ≡ canvas_of listing.now }
{
    let buckets = listing.buckets();
    Canvas {
        width: 48 + left(buckets, column_count(buckets)).max(600),
        height: u128::from(floor_of(longest)) + 56,
    }
}

/// The title of a drawing.
pub fn title_of(listing: &Listing, tally: &Tally) -> Title
    requires tally { tally.now ≡ whole_tally listing.now }
    requires pages { tally.now.pages < 2 ^ 96 }
    ensures { result ≡ title_of listing.now }
{
    let root = listing.root();
    Title {
        buckets: listing.buckets(),
        level: root.level(),
        pointer: root.pointer(),
        records: tally.records,
        pages: tally.pages + 1,
        longest: tally.longest,
    }
}

/// The level above the file's, where buckets have it: bucket 0 is the first that a split gives it to.
fn level_above(listing: &Listing) -> Option<u8>
    ensures value { result ≡ level_above listing.now }
    ensures most { IfSome result (λ level. level ≤ most_level) }
{
    let first = listing.root().level_of(0);
    if is_next_level(listing, 0) {
        Some(first)
    } else {
        None
    }
}

/// The legend of a drawing.
pub fn legend_of(listing: &Listing) -> Legend
    ensures value { result ≡ legend_of listing.now }
    ensures most { IfSome result.next (λ level. level ≤ most_level) }
{
    let level = listing.root().level();
    Legend {
        level,
        next: level_above(listing),
        group: group_size(listing.buckets()),
    }
}

/// A page of the chain of a bucket, in the bucket's column.
pub fn page_bar(listing: &Listing, bucket: u32, page: u32) -> Bar
    requires few { size listing.now ≤ 128 }
    requires bucket { bucket < size listing.now }
    requires page { page
        < min most_drawn (chain_length listing.now.config.capacity (list_at listing.now.lists bucket)) }
    ensures { result ≡ page_bar listing.now bucket page }
{
    let buckets = listing.buckets();
    let capacity = listing.config().capacity() as usize;
    let behind = listing
        .len_of(bucket)
        .saturating_sub(capacity * page as usize);
    Bar {
        left: left(buckets, bucket),
        foot: PAGE_STEP * page,
        width: bar_width(buckets),
        height: PAGE_HEIGHT,
        used: part_of(PAGE_HEIGHT, behind.min(capacity) as u128, capacity as u128),
        is_next: is_next_level(listing, bucket),
    }
}

/// How many pages of a bucket's chain are not drawn.
pub fn more_of(listing: &Listing, bucket: u32) -> More
    requires few { size listing.now ≤ 128 }
    requires bucket { bucket < size listing.now }
    ensures { result ≡ more_of listing.now bucket }
{
    More {
        centre: centre(listing.buckets(), bucket),
        pages: chain_length(listing, bucket),
    }
}

/// The bar of a column that shows a group of buckets.
pub fn group_bar(listing: &Listing, column: u32) -> Bar
    requires { column < column_count (size listing.now) }
    ensures { result ≡ group_bar listing.now column }
{
    let buckets = listing.buckets();
    let first = first_bucket(buckets, column);
    let end = end_bucket(buckets, column);
    let tally = counted_between(listing, first, end);
    let height = PAGE_STEP * tally.longest.min(MOST_DRAWN) as u32 - PAGE_GAP;
    let slots = u128::from(listing.config().capacity()) * u128::from(end - first);
    Bar {
        left: left(buckets, column),
        foot: 0,
        width: bar_width(buckets),
        height,
        used: filling_of(tally.records, slots, height),
        is_next: is_next_level(listing, first),
    }
}

/// The lines that cut the columns into pages.
pub fn cuts_of(listing: &Listing, longest: usize) -> Cuts
    requires { longest ≡ (whole_tally listing.now).longest }
    ensures { result ≡ cuts_of listing.now }
{
    let buckets = listing.buckets();
    let width = left(buckets, column_count(buckets));
    Cuts {
        middle: width / 2,
        width,
        height: PAGE_STEP * longest.min(MOST_DRAWN) as u32,
    }
}

/// How many columns have a label.
pub fn label_count(listing: &Listing) -> u32
    ensures { result ≡ label_count listing.now }
{
    let buckets = listing.buckets();
    (column_count(buckets) - 1) / label_step(buckets) + 1
}

/// The label of every this many columns.
pub fn label_of(listing: &Listing, place: u32) -> Label
    requires { place < label_count listing.now }
    ensures { result ≡ label_of listing.now place }
{
    let buckets = listing.buckets();
    let column = place * label_step(buckets);
    Label {
        centre: centre(buckets, column),
        bucket: first_bucket(buckets, column),
    }
}

/// The split pointer's mark.
pub fn mark_of(listing: &Listing) -> Mark
    ensures { result ≡ pointer_mark_of listing.now }
{
    let pointer = listing.root().pointer();
    let buckets = listing.buckets();
    Mark {
        centre: centre(buckets, pointer / group_size(buckets)),
        pointer,
    }
}
