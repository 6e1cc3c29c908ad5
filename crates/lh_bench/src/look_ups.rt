//! Look-ups in the bytes of images, one a file.
ghost use Rattle.std.specs.Prelude.{length, IfOk};
ghost use Rattle.lh_shards.specs.Hands.{IsCount};

use crate::contents::Contents;
use crate::image::write_listing;
use crate::listed::list_table;
use crate::meter::{Stopwatch, TimeSpent};
use crate::numbers::Numbers;
use crate::order::Order;
use crate::report::Outcome;
use crate::tally::Tally;
use anyhow::Result;
use lh_addr::fnv1a;
use lh_bucket::Reply;
use lh_image::{CheckedImage, Image};
use lh_page::Key;
use lh_shards::shard_of;
use std::alloc::Global;
use std::rt::Clock;
use std::sync::Wait;
use std::time::CpuClock;

/// The images of a table that the records were inserted into, one a file, and whether all were.
fn images_of<R: Wait + AllocGlobal>(rt: &R, order: &Order) -> Result<(Vec<Vec<u8>>, bool)>
    ensures { IfOk result (λ made. IsCount (length made.0.items)) }
{
    let listed = list_table(rt, order)?;
    let mut images = Vec::new(rt.alloc());
    for listing in &listed.listings {
        let mut bytes = Vec::new(rt.alloc());
        write_listing(listing, order.image, &mut bytes)?;
        images.push(bytes)?;
    }
    Ok((images, listed.has_all))
}

/// The same images, of which all pages were looked at.
fn checked<'a>(alloc: Global, images: &'a [Vec<u8>]) -> Result<Vec<CheckedImage<'a>>>
    requires { IsCount (length images.now) }
    ensures { IfOk result (λ checked. IsCount (length checked.items)) }
{
    let mut checked = Vec::new(alloc);
    for bytes in images {
        checked.push(Image::open(bytes)?.check(alloc)?)?;
    }
    Ok(checked)
}

/// How many bytes they are.
fn bytes_in(images: &[Vec<u8>]) -> u64 {
    let mut bytes = 0_u64;
    for image in images {
        bytes = bytes.saturating_add(image.len() as u64);
    }
    bytes
}

/// The image where a key is, if it is anywhere: that of its shard.
// Where there is one, no code is made of the key for that.
fn image_of<'a, 'b>(images: &'a [CheckedImage<'b>], key: &Key) -> &'a CheckedImage<'b>
    requires { IsCount (length images.now) }
{
    match images {
        [image] => image,
        _ => &images[shard_of(fnv1a(key.bytes()), images.len() as u32) as usize],
    }
}

/// Looks a record up.
fn look_up(images: &[CheckedImage<'_>], contents: Contents, record: u64, tally: &mut Tally)
    requires { IsCount (length images.now) }
{
    let key = contents.key(record);
    match image_of(images, &key).find_bytes(&key) {
        Some(bytes) => {
            tally.note_found();
            if !contents.are_bytes(bytes, record) {
                tally.note_wrong();
            }
        }
        None => tally.note(&Reply::Absent),
    }
}

/// Whether each record has its value.
fn have_all(images: &[CheckedImage<'_>], order: &Order) -> bool
    requires { IsCount (length images.now) }
{
    let mut tally = Tally::new();
    for record in 0..order.records {
        look_up(images, order.contents(), record, &mut tally);
    }
    tally.found == order.records && tally.wrong == 0
}

/// Looks up records that are picked from as many as there are in the images, of which this is the first, and tells how
/// long that took.
fn look_up_picked<R: Clock + CpuClock>(
    rt: &R,
    images: &[CheckedImage<'_>],
    order: &Order,
    numbers: &mut Numbers,
    first: u64,
    tally: &mut Tally,
) -> Result<TimeSpent>
    requires { IsCount (length images.now) }
{
    let contents = order.contents();
    let watch = Stopwatch::start(rt)?;
    for _ in 0..order.calls() / 2 {
        let record = first.wrapping_add(numbers.below(order.records));
        look_up(images, contents, record, tally);
    }
    Ok(watch.stop(rt)?)
}

/// Look-ups of records that are there, and then of records that are not.
pub fn look_up_all<R>(rt: &R, order: &Order) -> Result<Outcome>
where
    R: Wait + Clock + CpuClock + AllocGlobal,
{
    let (bytes, are_inserted) = images_of(rt, order)?;
    let images = checked(rt.alloc(), &bytes)?;
    let are_there = are_inserted && have_all(&images, order);
    let mut numbers = Numbers::of_thread(order, 0);
    let mut tally = Tally::new();
    let found = look_up_picked(rt, &images, order, &mut numbers, 0, &mut tally)?;
    let absent = look_up_picked(rt, &images, order, &mut numbers, order.records, &mut tally)?;
    let calls = order.calls();
    let is_due = are_there && tally.found == calls / 2 && tally.absent == calls / 2;
    Ok(Outcome {
        found,
        absent,
        file_bytes: bytes_in(&bytes),
        ..Outcome::new(calls, found.with(absent), tally, is_due)
    })
}
