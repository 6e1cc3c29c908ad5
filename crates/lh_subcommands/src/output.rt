//! Lines on their way to a writer: they wait until there are enough of them for one write.
ghost use Rattle.std.specs.Prelude.{◌≡◌, ◌<◌, ◌++◌, ℕ, List, Option, OnOk, OnErr, IfOk, IfSome, flat_map, length, Some};
ghost use Rattle.std.specs.Prelude.{[]};
ghost use Rattle.std.specs.String.{string_bytes};
ghost use Rattle.std.specs.Io.KnownBytes.{Appends};
ghost use Rattle.lh_bucket.specs.Listing.{list_at, size};
ghost use Rattle.lh_subcommands.specs.Devices.{Adds, Breaks, IsReserved, Sends, TakesBeginning, written_at_once};
ghost use Rattle.lh_subcommands.specs.ImageTexts.{bucket_text, dump_text};
ghost use Rattle.lh_script.specs.StepTexts.{steps_text};
ghost use Rattle.lh_script.specs.Texts.{commands_text, line, reply_text, size_text};

use crate::device::write_all;
use crate::image_texts::RecordText;
use lh_bucket::{Listing, Reply};
use lh_core::{Effect, Refusal};
use lh_image::WriteFailed;
use lh_page::limits::{LONGEST_KEY, LONGEST_VALUE};
use lh_script::{EntryText, Notation, ReplyText, SizeText};
use std::alloc::{AllocError, Global};
use std::fmt::Display;
use std::io::Write;

/// How many bytes are written at once.
pub(crate) const CHUNK: usize = 65_536;

/// No line is longer ([a law](crate::laws::lines_have_room)): key and value take three bytes for each of
/// theirs, and all else takes less than 256. A step of a picture has none of them, and takes less than 550. What stands above a picture's
/// steps is longer, and comes first, when nothing waits.
const LONGEST_LINE: usize = 256 + 3 * (LONGEST_KEY + LONGEST_VALUE);

/// Room for the lines that wait, so that none of them needs memory later.
pub fn room(alloc: Global) -> Result<String, AllocError>
    ensures empty { IfOk result (λ waiting. string_bytes waiting ≡ []) }
    ensures reserved { IfOk result IsReserved }
{
    String::with_capacity(alloc, CHUNK + LONGEST_LINE)
}

/// Writes what waits where it is enough.
#[tactic(auto, using(crate::proofs::Sending::sends_now, crate::proofs::Sending::stops_within))]
fn send_enough<W: Write>(writer: &mut W, waiting: &mut String) -> Result<(), WriteFailed>
    ensures ok { (before : Option (List ℕ)) (text : List ℕ) →
        Sends before (W.contents writer.old) (string_bytes waiting.old) text →
        OnOk result (Sends before (W.contents writer.new) (string_bytes waiting.new) text) }
    ensures err { (before : Option (List ℕ)) (text : List ℕ) →
        Sends before (W.contents writer.old) (string_bytes waiting.old) text →
        OnErr result (TakesBeginning before (W.contents writer.new) text) }
    ensures few { OnOk result (length (string_bytes waiting.new) < written_at_once) }
{
    if waiting.len() >= CHUNK {
        write_all(writer, waiting.as_bytes())?;
        waiting.clear();
    }
    Ok(())
}

/// Adds a line to those that wait, and writes them where they are enough. A line that cannot be
/// made counts as a failed write; with the room that [`room`] makes there is none.
pub fn put_line<W: Write, D: Display + Drop>(
    writer: &mut W,
    waiting: &mut String,
    text: D,
) -> Result<(), WriteFailed>
    ensures ok { (before : Option (List ℕ)) (sent : List ℕ) →
        Sends before (W.contents writer.old) (string_bytes waiting.old) sent →
        OnOk result (IfSome (D.output text) (λ bytes.
        Sends before (W.contents writer.new) (string_bytes waiting.new) (sent ++ line bytes))) }
    ensures err { (before : Option (List ℕ)) (sent : List ℕ) →
        Sends before (W.contents writer.old) (string_bytes waiting.old) sent →
        OnErr result (IfSome (D.output text) (λ bytes.
        TakesBeginning before (W.contents writer.new) (sent ++ line bytes))) }
    ensures few { OnOk result (length (string_bytes waiting.new) < written_at_once) }
{
    if waiting.writeln(text).is_err() {
        return Err(WriteFailed);
    }
    send_enough(writer, waiting)
}

/// Adds a text to what waits, and writes that where it is enough. As with a line, a text that cannot
/// be made counts as a failed write.
pub fn put<W: Write, D: Display + Drop>(
    writer: &mut W,
    waiting: &mut String,
    text: D,
) -> Result<(), WriteFailed>
    ensures ok { (before : Option (List ℕ)) (sent : List ℕ) →
        Sends before (W.contents writer.old) (string_bytes waiting.old) sent →
        OnOk result (IfSome (D.output text) (λ bytes.
        Sends before (W.contents writer.new) (string_bytes waiting.new) (sent ++ bytes))) }
    ensures err { (before : Option (List ℕ)) (sent : List ℕ) →
        Sends before (W.contents writer.old) (string_bytes waiting.old) sent →
        OnErr result (IfSome (D.output text) (λ bytes.
        TakesBeginning before (W.contents writer.new) (sent ++ bytes))) }
    ensures few { OnOk result (length (string_bytes waiting.new) < written_at_once) }
{
    if waiting.write(text).is_err() {
        return Err(WriteFailed);
    }
    send_enough(writer, waiting)
}

/// Writes a line for each reply, and one for the number of buckets.
pub fn write_replies<W: Write>(
    writer: &mut W,
    waiting: &mut String,
    notation: Notation,
    replies: &[Reply],
    buckets: u32,
) -> Result<(), WriteFailed>
    requires empty { string_bytes waiting.old ≡ [] }
    requires room { IsReserved waiting.old }
    ensures ok { OnOk result (Appends (W.contents writer.old) (W.contents writer.new)
        (commands_text notation replies.now buckets)) }
    ensures err { OnErr result (TakesBeginning (W.contents writer.old) (W.contents writer.new)
        (commands_text notation replies.now buckets)) }
{
    for reply in replies {
        put_line(writer, waiting, ReplyText { notation, reply })?;
    }
    put_line(writer, waiting, SizeText(buckets))?;
    write_all(writer, waiting.as_bytes())
}

/// Writes a line for each event.
pub fn write_entries<W: Write>(
    writer: &mut W,
    waiting: &mut String,
    notation: Notation,
    entries: &[Result<Effect, Refusal>],
) -> Result<(), WriteFailed>
    requires empty { string_bytes waiting.old ≡ [] }
    requires room { IsReserved waiting.old }
    ensures ok { OnOk result (Appends (W.contents writer.old) (W.contents writer.new)
        (steps_text notation entries.now)) }
    ensures err { OnErr result (TakesBeginning (W.contents writer.old) (W.contents writer.new)
        (steps_text notation entries.now)) }
{
    for entry in entries {
        put_line(writer, waiting, EntryText { notation, entry })?;
    }
    write_all(writer, waiting.as_bytes())
}

/// Writes a line for each record of a bucket, in the order of the chain.
fn write_bucket<W: Write>(
    writer: &mut W,
    waiting: &mut String,
    notation: Notation,
    listing: &Listing,
    bucket: u32,
) -> Result<(), WriteFailed>
    requires { bucket < size listing.now }
    ensures ok { Adds result (W.contents writer.old) (W.contents writer.new)
        (string_bytes waiting.old) (string_bytes waiting.new) (bucket_text notation bucket (list_at listing.now.lists bucket)) }
    ensures err { Breaks result (W.contents writer.old) (W.contents writer.new)
        (string_bytes waiting.old) (bucket_text notation bucket (list_at listing.now.lists bucket)) }
{
    for place in 0..listing.len_of(bucket) {
        let pair = listing.pair_at(bucket, place);
        put_line(
            writer,
            waiting,
            RecordText {
                notation,
                bucket,
                pair: &pair,
            },
        )?;
    }
    Ok(())
}

/// Writes a line for each record of a file, the buckets in rising order.
pub fn write_records<W: Write>(
    writer: &mut W,
    waiting: &mut String,
    notation: Notation,
    listing: &Listing,
) -> Result<(), WriteFailed>
    requires empty { string_bytes waiting.old ≡ [] }
    requires room { IsReserved waiting.old }
    ensures ok { OnOk result (Appends (W.contents writer.old) (W.contents writer.new)
        (dump_text notation listing.now)) }
    ensures err { OnErr result (TakesBeginning (W.contents writer.old) (W.contents writer.new)
        (dump_text notation listing.now)) }
{
    for bucket in 0..listing.buckets() {
        write_bucket(writer, waiting, notation, listing, bucket)?;
    }
    write_all(writer, waiting.as_bytes())
}
