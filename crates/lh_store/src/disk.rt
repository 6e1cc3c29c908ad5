//! Records on disk, as images.
ghost use Rattle.std.specs.Prelude.{◌≡◌, ◌⊎◌, OnErr, OnOk};

use lh_bucket::Listing;
use lh_draft::{Beside, Draft, KeepFault, NotMade, Stage, keep};
use lh_image::{ImageFault, WriteImageFault, read_image, write_image};
use std::alloc::{AllocError, Global};
use std::fs::{File, Files};
use std::io::{self, BufReader, BufWriter, ErrorKind, Write};
use thiserror::Error;

/// How many bytes of an image are gathered for one write, and asked for in one read.
const GATHERED: usize = 65_536;

/// Why records were not saved. But for `Folder`, the file of this name is as it was before.
#[derive(Clone, Copy, Debug, Error)]
pub enum SaveFault {
    #[error("no memory")]
    Memory,
    /// The image would have more than 1,048,576 pages, or a write failed.
    #[error("{0}")]
    Image(#[from] WriteImageFault),
    /// Also where the path is that of a folder, a device or a pipe.
    #[error("the new file was not made: {0}")]
    Create(io::Error),
    /// The system doesn't say that the new file has reached the disk.
    #[error("the new file was not synced: {0}")]
    Sync(io::Error),
    #[error("the new file was not renamed: {0}")]
    Rename(io::Error),
    /// The new file has its name, but the system doesn't say that the name has reached the disk.
    #[error("the folder was not synced: {0}")]
    Folder(io::Error),
}

/// Why no records were loaded.
#[derive(Clone, Copy, Debug, Error)]
pub enum LoadFault {
    #[error("no memory")]
    Memory,
    #[error("the file was not opened: {0}")]
    Open(io::Error),
    /// The file isn't an image, or a read failed.
    #[error("{0}")]
    Image(#[from] ImageFault),
}

impl From<NotMade> for SaveFault {
    fn from(fault: NotMade) -> Self {
        match fault {
            NotMade::NotAFile => SaveFault::Create(io::Error::from(ErrorKind::InvalidInput)),
            NotMade::Refused(error) => SaveFault::Create(error),
            NotMade::Memory => SaveFault::Memory,
        }
    }
}

impl From<AllocError> for LoadFault {
    fn from(_error: AllocError) -> Self {
        LoadFault::Memory
    }
}

/// Writes records as an image.
fn write_gathered<W: Write + Drop>(
    alloc: Global,
    listing: &Listing,
    file: W,
) -> Result<(), SaveFault> {
    let Ok(mut writer) = BufWriter::with_capacity(alloc, GATHERED, file) else {
        return Err(SaveFault::Memory);
    };
    Ok(write_image(listing, &mut writer)?)
}

/// Gives a new file its name where all of it was written, and removes it otherwise.
fn settle<F: Draft>(file: &mut F, written: Result<(), SaveFault>) -> Result<(), SaveFault>
    requires { F.stage file.old ≡ Stage.Open }
    ensures ok { OnOk result (F.stage file.new ≡ Stage.Durable) }
    ensures err { OnErr result ((F.stage file.new ≡ Stage.Removed) ⊎ (F.stage file.new ≡ Stage.Named)) }
    ensures removed { OnErr written (F.stage file.new ≡ Stage.Removed) }
{
    match written {
        Ok(()) => match keep(file) {
            Ok(()) => Ok(()),
            Err(KeepFault::Sync(error)) => Err(SaveFault::Sync(error)),
            Err(KeepFault::Rename(error)) => Err(SaveFault::Rename(error)),
            Err(KeepFault::Folder(error)) => Err(SaveFault::Folder(error)),
        },
        Err(fault) => {
            file.remove();
            Err(fault)
        },
    }
}

/// Saves records as an image of version 2 under this path; a link is followed. The image goes to a new file beside it, is
/// written out and synced, and takes its name only then, in one step: whenever this is stopped, by a fault or with the
/// machine, the path has all of its old file or all of the new one. With the machine the new file may stay under its own
/// name, that of the path with `.lhash-` and a number behind it, and may be deleted.
pub fn save<R: Files>(
    files: &R,
    alloc: Global,
    listing: &Listing,
    path: &str,
) -> Result<(), SaveFault> {
    let mut made = Beside::create(files, alloc, path)?;
    let written = write_gathered(alloc, listing, &mut made);
    settle(&mut made.written(), written)
}

/// The records of an image of either version.
pub fn load<R: Files>(files: &R, alloc: Global, path: &str) -> Result<Listing, LoadFault> {
    let file = match File::open(files, path) {
        Ok(file) => file,
        Err(error) => return Err(LoadFault::Open(error)),
    };
    let Ok(mut reader) = BufReader::with_capacity(alloc, GATHERED, file) else {
        return Err(LoadFault::Memory);
    };
    Ok(read_image(alloc, &mut reader)?)
}
