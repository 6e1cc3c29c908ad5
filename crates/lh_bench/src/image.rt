//! A table that is written as images, one a file, read back and searched.
ghost use Rattle.std.specs.Prelude.{IfOk};
ghost use Rattle.lh_page.specs.Slots.{IsRoom};
ghost use Rattle.lh_file.specs.FileState.{IsOf};
ghost use Rattle.lh_shards.specs.Hands.{AreOf};

use crate::caller::{Caller, play};
use crate::listed::{Listed, list};
use crate::meter::{Stopwatch, TimeSpent};
use crate::on_file::OnFile;
use crate::on_shards::OnShards;
use crate::order::{Order, Room};
use crate::report::Outcome;
use crate::streams::Searches;
use crate::table::Table;
use crate::tally::Tally;
use crate::workloads::{empty_shards, empty_sized_file};
use anyhow::Result;
use lh_bucket::Listing;
use lh_file::{Hand, NoGate, SizedFile, Unbranded, Untraced, WIDEST_ROOM};
use lh_image::{Version, read_image, write_image, write_image_v1};
use lh_shards::{Hands, SizedShards};
use std::alloc::Global;
use std::fs;
use std::io::{BufReader, BufWriter, Write};
use std::os::unix::fs::MetadataExt;
use std::rt::{Clock, Files};
use std::sync::Wait;
use std::time::CpuClock;

const BUFFER: usize = 1 << 17;

/// A file without history.
type File<const ROOM: usize> = SizedFile<NoGate, Untraced, Unbranded, ROOM>;

/// Files without history, as one.
type Shards<const ROOM: usize> = SizedShards<Untraced, Unbranded, ROOM>;

/// The path of the image of this file of a table.
fn path_of(alloc: Global, file: u32) -> Result<String> {
    Ok(format!(in alloc; "lh_bench.{file}.lhf")?)
}

/// Writes an image of a listing.
pub fn write_listing<W: Write>(listing: &Listing, version: Version, writer: &mut W) -> Result<()> {
    match version {
        Version::One => write_image_v1(listing, writer)?,
        Version::Two => write_image(listing, writer)?,
    }
    Ok(())
}

/// Writes an image of each listing, and stops the watch. Answers what it tells, and whether the listings have all
/// records.
fn write_listed<R>(
    rt: &R,
    order: &Order,
    listed: &Listed,
    watch: Stopwatch,
) -> Result<(TimeSpent, bool)>
where
    R: Files + Clock + CpuClock + AllocGlobal,
{
    for (listing, file) in listed.listings.iter().zip(0..order.files()) {
        let path = path_of(rt.alloc(), file)?;
        let mut writer = BufWriter::with_capacity(
            rt.alloc(),
            BUFFER,
            fs::create(rt, path.as_str())?,
        )?;
        write_listing(listing, order.image, &mut writer)?;
    }
    Ok((watch.stop(rt)?, listed.has_all))
}

/// Inserts the records into an empty table, and writes images of it. Answers how long that took, and whether all were
/// inserted.
// The table is made, and it and the listings are let go, off the clock.
fn write<R, const ROOM: usize>(rt: &R, order: &Order) -> Result<(TimeSpent, bool)>
where
    R: Wait + Files + Clock + CpuClock + AllocGlobal,
    requires { IsRoom ROOM }
{
    match order.shards {
        None => {
            let (file, hand) = empty_sized_file::<ROOM>(rt.alloc())?;
            let watch = Stopwatch::start(rt)?;
            let listed = list(rt, OnFile::new(&file, hand), order)?;
            write_listed(rt, order, &listed, watch)
        }
        Some(shards) => {
            let (shards, hands) = empty_shards::<ROOM>(rt.alloc(), shards)?;
            let watch = Stopwatch::start(rt)?;
            let listed = list(rt, OnShards::new(&shards, hands), order)?;
            write_listed(rt, order, &listed, watch)
        }
    }
}

/// The listing that the image under a path has.
fn read_listing_at(rt: &(impl Files + AllocGlobal), path: &str) -> Result<Listing> {
    let mut reader = BufReader::with_capacity(rt.alloc(), BUFFER, fs::open(rt, path)?)?;
    Ok(read_image(rt.alloc(), &mut reader)?)
}

/// The listing that the image of this file has.
fn read_listing(rt: &(impl Files + AllocGlobal), file: u32) -> Result<Listing> {
    let path = path_of(rt.alloc(), file)?;
    read_listing_at(rt, path.as_str())
}

/// A file with these records.
fn file_of<const ROOM: usize>(alloc: Global, listing: &Listing) -> Result<(File<ROOM>, Hand)>
    requires { IsRoom ROOM }
    ensures { IfOk result (λ made. IsOf made.0.state made.1) }
{
    File::<ROOM>::fit_listing(listing)?;
    Ok(File::open_from(alloc, listing, false, NoGate)?)
}

/// The file that was written.
fn read_file<R: Files + AllocGlobal, const ROOM: usize>(rt: &R) -> Result<(File<ROOM>, Hand)>
    requires { IsRoom ROOM }
    ensures { IfOk result (λ made. IsOf made.0.state made.1) }
{
    let listing = read_listing(rt, 0)?;
    file_of::<ROOM>(rt.alloc(), &listing)
}

/// Reads the listings that the images of so many files have.
fn read_listings(
    rt: &(impl Files + AllocGlobal),
    files: u32,
    listings: &mut Vec<Listing>,
) -> Result<()> {
    for file in 0..files {
        listings.push(read_listing(rt, file)?)?;
    }
    Ok(())
}

/// Shards with these records.
fn shards_of<const ROOM: usize>(
    alloc: Global,
    listings: &[Listing],
) -> Result<(Shards<ROOM>, Hands)>
    requires { IsRoom ROOM }
    ensures { IfOk result (λ made. AreOf made.0 made.1) }
{
    Shards::<ROOM>::fit_listings(listings)?;
    Ok(Shards::open_from(alloc, listings, false)?)
}

/// The shards that were written.
fn read_shards<R: Files + AllocGlobal, const ROOM: usize>(
    rt: &R,
    shards: u32,
) -> Result<(Shards<ROOM>, Hands)>
    requires { IsRoom ROOM }
    ensures { IfOk result (λ made. AreOf made.0 made.1) }
{
    let mut listings = Vec::new(rt.alloc());
    read_listings(rt, shards, &mut listings)?;
    shards_of::<ROOM>(rt.alloc(), &listings)
}

/// Searches for each record, and stops the watch.
fn search_all<T: Table, R: Wait + Clock + CpuClock>(
    rt: &R,
    table: T,
    order: &Order,
    watch: Stopwatch,
) -> Result<(TimeSpent, Tally)> {
    let stream = Searches {
        record: 0,
        are_there: true,
    };
    let caller = play(rt, Caller::new(table, order), stream, order.records);
    Ok((watch.stop(rt)?, caller.tally))
}

/// Reads the images, and searches. Answers how long that took, and the replies.
fn read<R, const ROOM: usize>(rt: &R, order: &Order) -> Result<(TimeSpent, Tally)>
where
    R: Wait + Files + Clock + CpuClock + AllocGlobal,
    requires { IsRoom ROOM }
{
    let watch = Stopwatch::start(rt)?;
    match order.shards {
        None => {
            let (file, hand) = read_file::<R, ROOM>(rt)?;
            search_all(rt, OnFile::new(&file, hand), order, watch)
        }
        Some(shards) => {
            let (shards, hands) = read_shards::<R, ROOM>(rt, shards)?;
            search_all(rt, OnShards::new(&shards, hands), order, watch)
        }
    }
}

/// The blocks that the image of this file takes on the disk.
fn blocks_of(rt: &(impl Files + AllocGlobal), file: u32) -> Result<u64> {
    let path = path_of(rt.alloc(), file)?;
    Ok(fs::metadata(rt, path.as_str())?.blocks())
}

/// The bytes that the images take on the disk.
fn bytes_on_disk(rt: &(impl Files + AllocGlobal), order: &Order) -> Result<u64> {
    let mut blocks = 0_u64;
    for file in 0..order.files() {
        blocks = blocks.saturating_add(blocks_of(rt, file)?);
    }
    Ok(blocks.saturating_mul(512))
}

fn remove_images(rt: &(impl Files + AllocGlobal), order: &Order) -> Result<()> {
    for file in 0..order.files() {
        fs::remove_file(rt, path_of(rt.alloc(), file)?.as_str())?;
    }
    Ok(())
}

/// Writes, reads and searches a table whose records have this much room.
fn write_and_read_sized<R, const ROOM: usize>(rt: &R, order: &Order) -> Result<Outcome>
where
    R: Wait + Files + Clock + CpuClock + AllocGlobal,
    requires { IsRoom ROOM }
{
    let (writing, is_written) = write::<R, ROOM>(rt, order)?;
    let file_bytes = bytes_on_disk(rt, order)?;
    let (reading, tally) = read::<R, ROOM>(rt, order)?;
    remove_images(rt, order)?;
    let is_due = is_written && tally.found == order.records;
    Ok(Outcome {
        write: writing.wall,
        read: reading.wall,
        file_bytes,
        ..Outcome::new(order.calls(), writing.with(reading), tally, is_due)
    })
}

/// Writes, reads and searches.
pub fn write_and_read<R>(rt: &R, order: &Order) -> Result<Outcome>
where
    R: Wait + Files + Clock + CpuClock + AllocGlobal,
{
    match order.room {
        Room::Any => write_and_read_sized::<R, WIDEST_ROOM>(rt, order),
        Room::Bytes64 => write_and_read_sized::<R, 64>(rt, order),
        Room::Bytes32 => write_and_read_sized::<R, 32>(rt, order),
    }
}
