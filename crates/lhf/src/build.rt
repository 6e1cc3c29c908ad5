//! Images built by programs in C.
ghost use Rattle.std.specs.Prelude.{◌≡◌, ◌<◌, ◌≤◌, IfOk};
ghost use Rattle.lh_image.specs.Canonical.{canonical};
ghost use Rattle.lh_image.specs.declared.version.Version.{Version};
ghost use Rattle.lhf.specs.Built.{IsBuilt, IsGrown, IsStartingFile, puts_of};
ghost use Rattle.lhf.specs.Replies.{too_small};

use crate::codes::code_of;
use crate::handle::Slice;
use lh_addr::Config;
use lh_bucket::{Call, Listing, Memory};
use lh_core::serial_from;
use lh_image::{ImageFault, WriteImageFault, read_image, write_image};
use lh_page::{Key, Value};
use std::alloc::Global;

/// A record that is to be put into an image.
#[repr(C)]
#[derive(Drop)]
pub struct NewRecord<'a> {
    pub key: Slice<'a>,
    pub value: Slice<'a>,
}

/// The configuration of a file that begins empty.
#[repr(C)]
#[derive(Clone, Copy)]
pub struct NewFile {
    pub initial: u32,
    pub capacity: u32,
    pub load: u32,
    pub max: u32,
}

/// Why no image was built.
#[derive(Clone, Copy, Debug, PartialEq, Eq)]
pub(crate) enum BuildFault {
    /// The bytes to begin with are no image.
    Image(ImageFault),
    /// A setting is out of its range.
    Setting,
    /// A key or a value has a length that none has.
    Record,
    /// The image would have too many pages.
    TooLarge,
    /// There was no memory.
    Memory,
}

/// The file to begin with: that of an image, or an empty one where there are no bytes.
fn starting_file(alloc: Global, old: &[u8], file: &NewFile) -> Result<Listing, BuildFault>
    ensures { IfOk result (IsStartingFile old.now file.now) }
{
    if old.is_empty() {
        let Ok(config) = Config::new(file.initial, file.capacity, file.load, file.max) else {
            return Err(BuildFault::Setting);
        };
        return match Listing::empty(alloc, config) {
            Ok(listing) => Ok(listing),
            Err(_) => Err(BuildFault::Memory),
        };
    }
    let mut reader = old;
    match read_image(alloc, &mut reader) {
        Ok(listing) => Ok(listing),
        Err(fault) => Err(BuildFault::Image(fault)),
    }
}

/// The inserts of some records.
fn puts_of(alloc: Global, records: &[NewRecord]) -> Result<Vec<Call>, BuildFault>
    ensures { IfOk result (λ calls. calls.items ≡ puts_of records.now) }
{
    let mut calls = Vec::new(alloc);
    for record in records {
        let Ok(key) = Key::new(record.key.bytes) else {
            return Err(BuildFault::Record);
        };
        let Ok(value) = Value::new(record.value.bytes) else {
            return Err(BuildFault::Record);
        };
        if calls.push(Call::Insert(key, value)).is_err() {
            return Err(BuildFault::Memory);
        }
    }
    Ok(calls)
}

/// The file that calls leave of another one.
fn file_after(alloc: Global, file: &Listing, calls: &[Call]) -> Result<Listing, Memory>
    ensures { IfOk result (IsGrown file.now calls.now) }
{
    let ran = serial_from(alloc, file, calls)?;
    let left = ran.world.listing()?;
    // In a listing each record is at home, and no key stands twice.
    let _ = left.buckets();
    Ok(left)
}

/// The image of a file.
fn image_of(alloc: Global, file: &Listing) -> Result<Vec<u8>, BuildFault>
    ensures { IfOk result (λ bytes. bytes.items ≡ canonical Version.Two file.now) }
{
    let mut bytes = Vec::new(alloc);
    match write_image(file, &mut bytes) {
        Ok(()) => Ok(bytes),
        Err(WriteImageFault::TooLarge) => Err(BuildFault::TooLarge),
        Err(_) => Err(BuildFault::Memory),
    }
}

/// The image of the file that inserts of some records leave of another file.
pub(crate) fn built(
    alloc: Global,
    old: &[u8],
    records: &[NewRecord],
    file: &NewFile,
) -> Result<Vec<u8>, BuildFault>
    ensures { IfOk result (λ bytes. IsBuilt old.now file.now records.now bytes.items) }
{
    let start = starting_file(alloc, old, file)?;
    let calls = puts_of(alloc, records)?;
    let Ok(left) = file_after(alloc, &start, calls.as_slice()) else {
        return Err(BuildFault::Memory);
    };
    let image = image_of(alloc, &left)?;
    Ok(image)
}

/// The number of a fault.
pub(crate) fn number_of(fault: &BuildFault) -> u32
    ensures some { 1 ≤ result }
    ensures another { result < too_small }
{
    match fault {
        BuildFault::Image(fault) => code_of(fault),
        BuildFault::Setting => 18,
        BuildFault::Record => 19,
        BuildFault::TooLarge => 20,
        BuildFault::Memory => 15,
    }
}
