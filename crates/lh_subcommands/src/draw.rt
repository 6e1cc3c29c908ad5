//! The subcommand `draw`, from an image to a drawing of the file.
ghost use Rattle.std.specs.Prelude.{◌≡◌, ◌<◌, ◌≤◌, OnOk, OnErr, IfSome, []};
ghost use Rattle.std.specs.String.{string_bytes};
ghost use Rattle.std.specs.Io.KnownBytes.{Appends};
ghost use Rattle.lh_bucket.specs.Listing.{size};
ghost use Rattle.lh_draw.specs.Columns.{column_count, whole_tally};
ghost use Rattle.lh_subcommands.specs.Devices.{Adds, Breaks, IsReserved, TakesBeginning};
ghost use Rattle.lh_draw.specs.Drawing.{chain_text, columns_text, drawing_foot_text, drawing_head_text, drawing_of};
ghost use Rattle.lh_draw.specs.Drawing.{group_bar, in_turn};
ghost use Rattle.lh_draw.specs.DrawingTexts.{bar_text};
ghost use Rattle.lh_subcommands.specs.Images.{draw_due};
ghost use Rattle.lh_subcommands.specs.Run.{Ends};

use crate::device::write_all;
use crate::input::unreadable;
use crate::output::{put, room};
use crate::status::{DeviceFault, Status};
use lh_bucket::Listing;
use lh_draw::{
    Caption, MOST_DRAWN, Plot, canvas_of, chain_length, column_count, cuts_of, floor_of, group_bar,
    is_detailed, label_count, label_of, legend_of, mark_of, more_of, page_bar, title_of,
    whole_tally,
};
use lh_image::{WriteFailed, read_image};
use std::alloc::Global;
use std::io::{Read, Write};

/// Writes what stands before the columns.
fn write_head<W: Write>(
    writer: &mut W,
    waiting: &mut String,
    listing: &Listing,
    longest: usize,
) -> Result<(), WriteFailed>
    requires { longest ≡ (whole_tally listing.now).longest }
    ensures ok { Adds result (W.contents writer.old) (W.contents writer.new)
        (string_bytes waiting.old) (string_bytes waiting.new) (drawing_head_text listing.now) }
    ensures err { Breaks result (W.contents writer.old) (W.contents writer.new)
        (string_bytes waiting.old) (drawing_head_text listing.now) }
{
    put(writer, waiting, canvas_of(listing, longest))?;
    put(writer, waiting, title_of(listing, &whole_tally(listing)))?;
    put(writer, waiting, legend_of(listing))?;
    let is_detailed = is_detailed(listing.buckets());
    put(writer, waiting, Caption { is_detailed })?;
    let floor = floor_of(longest);
    put(writer, waiting, Plot { floor })
}

/// Writes the pages of a bucket.
fn write_chain<W: Write>(
    writer: &mut W,
    waiting: &mut String,
    listing: &Listing,
    bucket: u32,
) -> Result<(), WriteFailed>
    requires few { size listing.now ≤ 128 }
    requires bucket { bucket < size listing.now }
    ensures ok { Adds result (W.contents writer.old) (W.contents writer.new)
        (string_bytes waiting.old) (string_bytes waiting.new) (chain_text listing.now bucket) }
    ensures err { Breaks result (W.contents writer.old) (W.contents writer.new)
        (string_bytes waiting.old) (chain_text listing.now bucket) }
{
    let pages = chain_length(listing, bucket).min(MOST_DRAWN) as u32;
    for page in 0..pages {
        put(writer, waiting, page_bar(listing, bucket, page))?;
    }
    put(writer, waiting, more_of(listing, bucket))
}

/// Writes a column for each bucket.
fn write_chains<W: Write>(
    writer: &mut W,
    waiting: &mut String,
    listing: &Listing,
) -> Result<(), WriteFailed>
    requires { size listing.now ≤ 128 }
    ensures ok { Adds result (W.contents writer.old) (W.contents writer.new)
        (string_bytes waiting.old) (string_bytes waiting.new) (in_turn (chain_text listing.now) (size listing.now)) }
    ensures err { Breaks result (W.contents writer.old) (W.contents writer.new)
        (string_bytes waiting.old) (in_turn (chain_text listing.now) (size listing.now)) }
{
    for bucket in 0..listing.buckets() {
        write_chain(writer, waiting, listing, bucket)?;
    }
    Ok(())
}

/// Writes a column for each group of buckets.
fn write_groups<W: Write>(
    writer: &mut W,
    waiting: &mut String,
    listing: &Listing,
) -> Result<(), WriteFailed>
    ensures ok { Adds result (W.contents writer.old) (W.contents writer.new)
        (string_bytes waiting.old) (string_bytes waiting.new)
        (in_turn (λ column. bar_text (group_bar listing.now column)) (column_count (size listing.now))) }
    ensures err { Breaks result (W.contents writer.old) (W.contents writer.new)
        (string_bytes waiting.old)
        (in_turn (λ column. bar_text (group_bar listing.now column)) (column_count (size listing.now))) }
{
    for column in 0..column_count(listing.buckets()) {
        put(writer, waiting, group_bar(listing, column))?;
    }
    Ok(())
}

/// Writes the columns.
fn write_columns<W: Write>(
    writer: &mut W,
    waiting: &mut String,
    listing: &Listing,
) -> Result<(), WriteFailed>
    ensures ok { Adds result (W.contents writer.old) (W.contents writer.new)
        (string_bytes waiting.old) (string_bytes waiting.new) (columns_text listing.now) }
    ensures err { Breaks result (W.contents writer.old) (W.contents writer.new)
        (string_bytes waiting.old) (columns_text listing.now) }
{
    if is_detailed(listing.buckets()) {
        write_chains(writer, waiting, listing)
    } else {
        write_groups(writer, waiting, listing)
    }
}

/// Writes what stands behind the columns.
fn write_foot<W: Write>(
    writer: &mut W,
    waiting: &mut String,
    listing: &Listing,
    longest: usize,
) -> Result<(), WriteFailed>
    requires { longest ≡ (whole_tally listing.now).longest }
    ensures ok { Adds result (W.contents writer.old) (W.contents writer.new)
        (string_bytes waiting.old) (string_bytes waiting.new) (drawing_foot_text listing.now) }
    ensures err { Breaks result (W.contents writer.old) (W.contents writer.new)
        (string_bytes waiting.old) (drawing_foot_text listing.now) }
{
    put(writer, waiting, cuts_of(listing, longest))?;
    for place in 0..label_count(listing) {
        put(writer, waiting, label_of(listing, place))?;
    }
    put(writer, waiting, mark_of(listing))
}

/// Writes a drawing of a file.
fn write_drawing<W: Write>(
    writer: &mut W,
    waiting: &mut String,
    listing: &Listing,
) -> Result<(), WriteFailed>
    requires empty { string_bytes waiting.old ≡ [] }
    requires room { IsReserved waiting.old }
    ensures ok { OnOk result (Appends (W.contents writer.old) (W.contents writer.new)
        (drawing_of listing.now)) }
    ensures err { OnErr result (TakesBeginning (W.contents writer.old) (W.contents writer.new)
        (drawing_of listing.now)) }
{
    let longest = whole_tally(listing).longest;
    write_head(writer, waiting, listing, longest)?;
    write_columns(writer, waiting, listing)?;
    write_foot(writer, waiting, listing, longest)?;
    write_all(writer, waiting.as_bytes())
}

/// Reads an image, and writes a drawing of the file.
pub fn answer_draw<R: Read, W: Write>(alloc: Global, reader: &mut R, writer: &mut W) -> Status
    ensures { IfSome (R.remaining reader.old) (λ input.
        Ends result (draw_due input) (W.contents writer.old) (W.contents writer.new)) }
{
    let listing = match read_image(alloc, reader) {
        Ok(listing) => listing,
        Err(fault) => return unreadable(fault),
    };
    let Ok(mut waiting) = room(alloc) else {
        return Status::Memory;
    };
    match write_drawing(writer, &mut waiting, &listing) {
        Ok(()) => Status::Done,
        Err(_) => Status::Device(DeviceFault::Write),
    }
}
