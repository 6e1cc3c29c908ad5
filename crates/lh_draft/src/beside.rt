//! A new file of the system's, beside the one whose name it is to take.
ghost use Rattle.std.specs.Prelude.{◌≡◌};

use crate::draft::{Draft, Stage};
use std::alloc::{AllocError, Global};
use std::fs::{File, Files, OpenFile, Permissions};
use std::io::{Error, ErrorKind, Write};
use std::{fs, io};

/// How many names are tried for a new file: what a run that was killed has left keeps its own.
const TRIES: u32 = 1_000;

/// Why there is no new file.
#[derive(Debug, Drop)]
pub enum NotMade {
    /// Its name is that of a folder, a device or the like, whose place no file takes.
    NotAFile,
    /// The system refused it.
    Refused(Error),
    /// Memory ran out.
    Memory,
}

impl From<AllocError> for NotMade {
    fn from(_error: AllocError) -> NotMade {
        NotMade::Memory
    }
}

impl From<Error> for NotMade {
    fn from(error: Error) -> NotMade {
        match error.kind() {
            ErrorKind::OutOfMemory => NotMade::Memory,
            _ => NotMade::Refused(error),
        }
    }
}

/// A new file, beside the one whose name it is to take. Where it is let go without its name, it stays under its own.
#[derive(Drop)]
pub struct Beside<'a, R: Files> {
    files: &'a R,
    file: R::File,
    /// The name under which it is written.
    path: String,
    /// The name that it is to take.
    name: String,
}

/// A new file to which nothing more is written.
#[derive(Drop)]
pub struct Written<'a, R: Files> {
    file: Beside<'a, R>,
    stage: Stage,
}

/// The name that a file is to take: that of what a link leads to.
fn followed(files: &impl Files, alloc: Global, name: &str) -> Result<String, NotMade> {
    match files.canonicalize(alloc, name) {
        Ok(path) => Ok(String::from_str(alloc, path.as_path().as_str())?),
        Err(error) if error.kind() == ErrorKind::NotFound => Ok(String::from_str(alloc, name)?),
        Err(error) => Err(NotMade::from(error)),
    }
}

/// Who may read and write the file that has a name, if there is one.
fn permissions_of(files: &impl Files, name: &str) -> Result<Option<Permissions>, NotMade> {
    match fs::metadata(files, name) {
        Ok(old) if old.is_file() => Ok(Some(old.permissions())),
        Ok(_) => Err(NotMade::NotAFile),
        Err(error) if error.kind() == ErrorKind::NotFound => Ok(None),
        Err(error) => Err(NotMade::from(error)),
    }
}

/// A file that is new, and its name: beside the one whose name it is to take, in the same folder.
fn new_beside<R: Files>(
    files: &R,
    alloc: Global,
    name: &str,
) -> Result<(R::File, String), NotMade> {
    for number in 0..TRIES {
        let path = format!(in alloc; "{name}.lhash-{number}")?;
        match File::create_new(files, path.as_str()) {
            Ok(file) => return Ok((file, path)),
            Err(error) if error.kind() == ErrorKind::AlreadyExists => {},
            Err(error) => return Err(NotMade::from(error)),
        }
    }
    Err(NotMade::Refused(Error::from(ErrorKind::AlreadyExists)))
}

/// The folder in which a file of a name stands.
fn folder_of(name: &str) -> &str {
    match name.rsplit_once('/') {
        Some(("", _)) => "/",
        Some((folder, _)) => folder,
        None => ".",
    }
}

impl<'a, R: Files> Beside<'a, R> {
    /// A new file that is to take a name; a link is followed. Where a file has that name, the new one may be read and
    /// written by the same people. Until it takes that name its own is that one with `.lhash-` and a number behind it.
    pub fn create(files: &'a R, alloc: Global, name: &str) -> Result<Beside<'a, R>, NotMade> {
        let name = followed(files, alloc, name)?;
        let permissions = permissions_of(files, name.as_str())?;
        let (file, path) = new_beside(files, alloc, name.as_str())?;
        if let Some(permissions) = permissions
            && let Err(error) = file.set_permissions(permissions)
        {
            let _ = fs::remove_file(files, path.as_str());
            return Err(NotMade::from(error));
        }
        Ok(Beside {
            files,
            file,
            path,
            name,
        })
    }

    /// The file, once nothing more is written to it.
    pub fn written(self) -> Written<'a, R>
        ensures { result.stage ≡ Stage.Open }
    {
        Written {
            file: self,
            stage: Stage::Open,
        }
    }
}

impl<R: Files> Write for Beside<'_, R> {
    fn write(&mut self, buf: &[u8]) -> io::Result<usize> {
        self.file.write(buf)
    }

    fn flush(&mut self) -> io::Result<()> {
        self.file.flush()
    }
}

impl<R: Files> Draft for Written<'_, R> {
    ghost stage = { λ written. written.stage };

    fn sync(&mut self) -> io::Result<()> {
        self.file.file.sync_all()?;
        self.stage = Stage::Synced;
        Ok(())
    }

    fn take_name(&mut self) -> io::Result<()> {
        let file = &self.file;
        fs::rename(file.files, file.path.as_str(), file.name.as_str())?;
        self.stage = Stage::Named;
        Ok(())
    }

    /// A name reaches the disk with its folder.
    fn sync_name(&mut self) -> io::Result<()> {
        let file = &self.file;
        File::open(file.files, folder_of(file.name.as_str()))?.sync_all()?;
        self.stage = Stage::Durable;
        Ok(())
    }

    fn remove(&mut self) {
        let _ = fs::remove_file(self.file.files, self.file.path.as_str());
        self.stage = Stage::Removed;
    }
}
