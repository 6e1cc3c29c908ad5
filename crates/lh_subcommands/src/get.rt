//! The subcommand `get`: keys are looked up in the bytes of an image, and a line is written for each.
ghost use Rattle.std.specs.Prelude.{◌≡◌, ◌⊎◌, IfErr, IfOk, IfSome, OnErr, OnOk, Ok, Err, Some, [], map};
ghost use Rattle.std.specs.Io.KnownBytes.{Appends};
ghost use Rattle.std.specs.String.{string_bytes};
ghost use Rattle.lh_bucket.specs.declared.call.Reply.{Reply as ReplyOf};
ghost use Rattle.lh_image.specs.Layout.{view_of};
ghost use Rattle.lh_image.specs.LookUp.{look_up};
ghost use Rattle.lh_image.specs.declared.fault.ImageFault.TheVariants.{Memory as NoMemory};
ghost use Rattle.lh_subcommands.specs.Devices.{IsReserved, TakesBeginning};
ghost use Rattle.lh_subcommands.specs.Get.{EndsFound, EndsGetting, IsKeysOf, IsRefusedFor, found_in, found_of};
ghost use Rattle.lh_subcommands.specs.Get.{found_text, has_absent, is_missing, keys_of, no_key_text, look_up_reply, told_by};

use crate::device::{ReadError, read_whole, write_all};
use crate::input::unreadable;
use crate::output::{put_line, room};
use crate::status::{DeviceFault, Status};
use lh_bucket::Reply;
use lh_image::{Image, ImageFault, WriteFailed};
use lh_page::Key;
use lh_script::{LineFault, Notation, ReplyText, read_key};
use std::alloc::Global;
use std::fmt;
use std::io::{Read, Write};

/// A word that is no key.
#[derive(Clone, Copy)]
pub(crate) struct NoKey {
    /// Its place among the words of keys, from 1.
    pub(crate) place: usize,
    pub(crate) fault: LineFault,
}

impl fmt::Display for NoKey {
    ghost use Rattle.lh_subcommands.specs.Get.{no_key_text};

    ghost output = { λ no. Some (no_key_text no) };

    fn fmt<W: fmt::Write>(&self, f: &mut fmt::Formatter<W>) -> fmt::Result {
        write!(f, "key {}: {}", self.place, self.fault)
    }
}

/// How a run ends whose words of keys have one that is none.
fn refused(alloc: Global, no: NoKey) -> Status
    ensures { IsRefusedFor no result }
{
    match no.to_string(alloc) {
        Ok(text) => Status::Words(text),
        Err(_) => Status::Memory,
    }
}

/// The keys that words stand for, or how the run ends at the first that stands for none.
fn read_keys(alloc: Global, notation: Notation, words: &[String]) -> Result<Vec<Key>, Status>
    ensures { IsKeysOf result (keys_of notation (map string_bytes words.now)) }
{
    let mut keys = Vec::new(alloc);
    for word in words {
        match read_key(notation, word.as_bytes()) {
            Ok(key) => {
                let Ok(()) = keys.push(key) else {
                    return Err(Status::Memory);
                };
            },
            Err(fault) => {
                let place = keys.len() + 1;
                return Err(refused(alloc, NoKey { place, fault }));
            },
        }
    }
    Ok(keys)
}

/// What is told of a key.
fn reply_of(image: &Image<'_>, key: &Key) -> Result<Reply, ImageFault>
    ensures { result ≡ look_up_reply (look_up (view_of image.now) key.now) }
{
    match image.find(key)? {
        Some(value) => Ok(Reply::Found(value)),
        None => Ok(Reply::Absent),
    }
}

/// What is told of each key in turn, or the first fault that a look-up meets.
fn find_each(alloc: Global, image: &Image<'_>, keys: &[Key]) -> Result<Vec<Reply>, ImageFault>
    ensures ok { IfOk result (λ replies. found_in (view_of image.now) keys.now ≡ Ok replies.items) }
    ensures err { IfErr result (λ fault.
        (fault ≡ NoMemory) ⊎ (found_in (view_of image.now) keys.now ≡ Err fault)) }
{
    let mut replies = Vec::new(alloc);
    for key in keys {
        let reply = match reply_of(image, key) {
            Ok(reply) => reply,
            Err(fault) => return Err(fault),
        };
        let Ok(()) = replies.push(reply) else {
            return Err(ImageFault::Memory);
        };
    }
    Ok(replies)
}

/// The same of bytes that are opened first.
fn find_all(alloc: Global, bytes: &[u8], keys: &[Key]) -> Result<Vec<Reply>, ImageFault>
    ensures ok { IfOk result (λ replies. found_of bytes.now keys.now ≡ Ok replies.items) }
    ensures err { IfErr result (λ fault. (fault ≡ NoMemory) ⊎ (found_of bytes.now keys.now ≡ Err fault)) }
{
    match Image::open(bytes) {
        Ok(image) => find_each(alloc, &image, keys),
        Err(fault) => Err(fault),
    }
}

/// Writes a line for each reply.
fn write_found<W: Write>(
    writer: &mut W,
    waiting: &mut String,
    notation: Notation,
    replies: &[Reply],
) -> Result<(), WriteFailed>
    requires empty { string_bytes waiting.old ≡ [] }
    requires room { IsReserved waiting.old }
    ensures ok { OnOk result (Appends (W.contents writer.old) (W.contents writer.new) (found_text notation replies.now)) }
    ensures err { OnErr result (TakesBeginning (W.contents writer.old) (W.contents writer.new)
        (found_text notation replies.now)) }
{
    for reply in replies {
        put_line(writer, waiting, ReplyText { notation, reply })?;
    }
    write_all(writer, waiting.as_bytes())
}

/// Whether a reply says that a key is absent.
fn says_absent(reply: &Reply) -> bool
    ensures { result ≡ is_missing reply.now }
{
    match reply {
        Reply::Absent => true,
        _ => false,
    }
}

/// Whether one of some replies does.
fn is_one_absent(replies: &[Reply]) -> bool
    ensures { result ≡ has_absent replies.now }
{
    replies.iter().any(|reply| says_absent(reply))
}

/// How a run ends that has written these replies.
fn told(replies: &[Reply]) -> Status
    ensures { result ≡ told_by (has_absent replies.now) }
{
    if is_one_absent(replies) {
        Status::KeyAbsent
    } else {
        Status::Done
    }
}

/// Writes the replies, and says whether each key was there.
fn tell_found<W: Write>(
    alloc: Global,
    notation: Notation,
    replies: &[Reply],
    writer: &mut W,
) -> Status
    ensures { EndsFound notation result (Ok replies.now) (W.contents writer.old) (W.contents writer.new) }
{
    let Ok(mut waiting) = room(alloc) else {
        return Status::Memory;
    };
    match write_found(writer, &mut waiting, notation, replies) {
        Ok(()) => told(replies),
        Err(WriteFailed) => Status::Device(DeviceFault::Write),
    }
}

/// Reads an image whole, looks keys up in it in turn, and writes a line for each.
fn get_keys<R: Read, W: Write>(
    alloc: Global,
    notation: Notation,
    keys: &[Key],
    reader: &mut R,
    writer: &mut W,
) -> Status
    ensures { IfSome (R.remaining reader.old) (λ input.
        EndsFound notation result (found_of input keys.now) (W.contents writer.old) (W.contents writer.new)) }
{
    let bytes = match read_whole(alloc, reader) {
        Ok(bytes) => bytes,
        Err(ReadError::Memory) => return Status::Memory,
        Err(ReadError::Failed) => return Status::Device(DeviceFault::Read),
    };
    match find_all(alloc, bytes.as_slice(), keys) {
        Ok(replies) => tell_found(alloc, notation, replies.as_slice(), writer),
        Err(fault) => unreadable(fault),
    }
}

/// Looks up in an image the keys that words stand for, in turn, and writes a line for each. No page is looked at that
/// no key leads to. Where a word is no key, nothing is read.
pub fn answer_get<R: Read, W: Write>(
    alloc: Global,
    notation: Notation,
    words: &[String],
    reader: &mut R,
    writer: &mut W,
) -> Status
    ensures { EndsGetting notation (map string_bytes words.now) result (R.remaining reader.old) (R.remaining reader.new)
        (W.contents writer.old) (W.contents writer.new) }
{
    match read_keys(alloc, notation, words) {
        Ok(keys) => get_keys(alloc, notation, keys.as_slice(), reader, writer),
        Err(status) => status,
    }
}
