//! A disk in memory: a folder with one file, a new one beside it, and nothing else. Each turn is noted, and one may be
//! refused.
use std::alloc::{AllocError, Allocator, Global};
use std::cell::RefCell;
use std::fs::{Files, Metadata, OpenFile, OpenOptions, Permissions};
use std::io::{self, Error, ErrorKind, Read, Seek, SeekFrom, Write};
use std::mem;
use std::path::PathBuf;

/// The path of the file. The new one's has `.lhash-0` behind it.
pub(crate) const PATH: &str = "disk/users";

/// What a disk is asked to do.
#[derive(Clone, Copy, Debug, PartialEq, Eq)]
pub(crate) enum Turn {
    Follow,
    Look,
    Create,
    Allow,
    Write,
    Sync,
    Rename,
    Remove,
    Open,
    Read,
    OpenFolder,
    SyncFolder,
}

/// What has a path.
#[derive(Clone, Copy, PartialEq, Eq)]
enum Name {
    Old,
    New,
    Folder,
}

/// The name of a path.
fn name_of(path: &str) -> io::Result<Name> {
    match path {
        "disk/users" => Ok(Name::Old),
        "disk/users.lhash-0" => Ok(Name::New),
        "disk" => Ok(Name::Folder),
        _ => Err(Error::from(ErrorKind::NotFound)),
    }
}

/// A file, which need not be there.
#[derive(Drop)]
struct Held {
    is_there: bool,
    bytes: Vec<u8>,
}

/// The file, the new one, the turns so far, and the number of the one that is refused, counted from 1.
#[derive(Drop)]
struct State {
    old: Held,
    new: Held,
    turns: Vec<Turn>,
    refused: usize,
}

impl State {
    fn held(&mut self, name: Name) -> &mut Held {
        match name {
            Name::New => &mut self.new,
            Name::Old | Name::Folder => &mut self.old,
        }
    }

    /// Notes a turn, unless it is refused.
    fn take(&mut self, turn: Turn) -> io::Result<()> {
        self.turns.push(turn)?;
        if self.turns.len() == self.refused {
            return Err(Error::from(ErrorKind::PermissionDenied));
        }
        Ok(())
    }

    /// Whether there is a file of this path.
    fn look(&mut self, turn: Turn, path: &str) -> io::Result<bool> {
        self.take(turn)?;
        Ok(self.held(name_of(path)?).is_there)
    }

    /// Opens a file, which is made where that is asked for.
    fn open(&mut self, name: Name, is_new: bool) -> io::Result<()> {
        if name == Name::Folder {
            return self.take(Turn::OpenFolder);
        }
        self.take(if is_new { Turn::Create } else { Turn::Open })?;
        let held = self.held(name);
        if is_new {
            if held.is_there {
                return Err(Error::from(ErrorKind::AlreadyExists));
            }
            held.is_there = true;
            held.bytes.clear();
        }
        if held.is_there {
            Ok(())
        } else {
            Err(Error::from(ErrorKind::NotFound))
        }
    }
}

/// A disk.
#[derive(Drop)]
pub(crate) struct Disk {
    state: RefCell<State>,
}

impl Disk {
    /// An empty disk, which asks for no more memory for this many bytes of a file.
    pub(crate) fn new(alloc: Global, bytes: usize) -> Result<Disk, AllocError> {
        let old = Held {
            is_there: false,
            bytes: Vec::with_capacity(alloc, bytes)?,
        };
        let new = Held {
            is_there: false,
            bytes: Vec::with_capacity(alloc, bytes)?,
        };
        Ok(Disk {
            state: RefCell::new(State {
                old,
                new,
                turns: Vec::with_capacity(alloc, 64)?,
                refused: 0,
            }),
        })
    }

    fn with<T: Drop, F: FnOnce(&mut State) -> io::Result<T> + Drop>(&self, f: F) -> io::Result<T>
        requires { F.IsAlwaysCallable f }
    {
        match self.state.try_borrow_mut() {
            Ok(mut state) => f(&mut state),
            Err(_) => Err(Error::from(ErrorKind::ResourceBusy)),
        }
    }

    /// Forgets the turns so far, and refuses this one of those to come, counted from 1; 0 is none of them.
    pub(crate) fn refuse(&self, turn: usize) -> io::Result<()> {
        self.with(|state: &mut State| {
            state.turns.clear();
            state.refused = turn;
            Ok(())
        })
    }

    /// Whether there was this turn at this place, counted from 1.
    pub(crate) fn turn(&self, place: usize) -> io::Result<Option<Turn>> {
        self.with(|state: &mut State| Ok(state.turns.get(place.wrapping_sub(1)).copied()))
    }

    /// Puts bytes into the file.
    pub(crate) fn put(&self, bytes: &[u8]) -> io::Result<()> {
        self.with(|state: &mut State| {
            state.old.is_there = true;
            state.old.bytes.clear();
            state.old.bytes.extend_from_slice(bytes)?;
            Ok(())
        })
    }

    /// Whether the file has these bytes.
    pub(crate) fn is_old(&self, bytes: &[u8]) -> io::Result<bool> {
        self.with(|state: &mut State| Ok(
            state.old.is_there && *state.old.bytes.as_slice() == *bytes,
        ))
    }

    /// Whether the new file is there.
    pub(crate) fn has_new(&self) -> io::Result<bool> {
        self.with(|state: &mut State| Ok(state.new.is_there))
    }
}

/// The file system of a disk.
#[derive(Clone, Copy)]
pub(crate) struct OnDisk<'a>(pub &'a Disk);

/// An open file, or the folder.
#[derive(Drop)]
pub(crate) struct DiskFile<'a> {
    disk: &'a Disk,
    name: Name,
    at: usize,
}

const UNUSED: ErrorKind = ErrorKind::Unsupported;

impl<'a> Files for OnDisk<'a> {
    type File = DiskFile<'a>;

    type Dir = DiskFile<'a>;

    fn open_file(&self, how: &OpenOptions, path: &str) -> io::Result<DiskFile<'a>> {
        how.check()?;
        let (disk, name) = (self.0, name_of(path)?);
        disk.with(|state: &mut State| state.open(name, how.asks_create_new()))?;
        Ok(DiskFile { disk, name, at: 0 })
    }

    fn rename(&self, from: &str, to: &str) -> io::Result<()> {
        self.0.with(|state: &mut State| {
            state.take(Turn::Rename)?;
            if name_of(from)? != Name::New || name_of(to)? != Name::Old || !state.new.is_there {
                return Err(Error::from(ErrorKind::NotFound));
            }
            mem::swap(&mut state.old, &mut state.new);
            state.new.is_there = false;
            Ok(())
        })
    }

    fn remove_file(&self, path: &str) -> io::Result<()> {
        self.0.with(|state: &mut State| {
            state.take(Turn::Remove)?;
            state.held(name_of(path)?).is_there = false;
            Ok(())
        })
    }

    fn open_dir(&self, _path: &str) -> io::Result<DiskFile<'a>> {
        Err(Error::from(UNUSED))
    }

    fn canonicalize<B: Allocator>(&self, alloc: B, path: &str) -> io::Result<PathBuf<B>> {
        let is_there = self
            .0
            .with(|state: &mut State| state.look(Turn::Follow, path))?;
        if is_there {
            Ok(PathBuf::from_str(alloc, path)?)
        } else {
            Err(Error::from(ErrorKind::NotFound))
        }
    }

    fn metadata(&self, path: &str) -> io::Result<Metadata> {
        let is_there = self
            .0
            .with(|state: &mut State| state.look(Turn::Look, path))?;
        if is_there {
            Ok(Metadata::of_file(0))
        } else {
            Err(Error::from(ErrorKind::NotFound))
        }
    }

    fn symlink_metadata(&self, _path: &str) -> io::Result<Metadata> {
        Err(Error::from(UNUSED))
    }

    fn copy(&self, _from: &str, _to: &str) -> io::Result<u64> {
        Err(Error::from(UNUSED))
    }

    fn create_dir(&self, _path: &str) -> io::Result<()> {
        Err(Error::from(UNUSED))
    }

    fn remove_dir(&self, _path: &str) -> io::Result<()> {
        Err(Error::from(UNUSED))
    }

    fn remove_dir_all<B: Allocator>(&self, _alloc: B, _path: &str) -> io::Result<()> {
        Err(Error::from(UNUSED))
    }
}

impl Read for DiskFile<'_> {
    fn read(&mut self, buf: &mut [u8]) -> io::Result<usize> {
        let (name, at, room) = (self.name, self.at, buf.len());
        let count = self.disk.with(|state: &mut State| {
            state.take(Turn::Read)?;
            let rest = state.held(name).bytes.get(at..).unwrap_or(&[]);
            let count = rest.len().min(buf.len());
            buf[..count].copy_from_slice(&rest[..count]);
            Ok(count)
        })?;
        self.at = at.saturating_add(count);
        Ok(count.min(room))
    }
}

impl Write for DiskFile<'_> {
    fn write(&mut self, buf: &[u8]) -> io::Result<usize> {
        let name = self.name;
        self.disk.with(|state: &mut State| {
            state.take(Turn::Write)?;
            state.held(name).bytes.extend_from_slice(buf)?;
            Ok(())
        })?;
        Ok(buf.len())
    }

    fn flush(&mut self) -> io::Result<()> {
        Ok(())
    }
}

impl Seek for DiskFile<'_> {
    fn seek(&mut self, _to: SeekFrom) -> io::Result<u64> {
        Err(Error::from(UNUSED))
    }
}

impl OpenFile for DiskFile<'_> {
    fn metadata(&self) -> io::Result<Metadata> {
        Err(Error::from(UNUSED))
    }

    fn set_len(&self, _size: u64) -> io::Result<()> {
        Err(Error::from(UNUSED))
    }

    fn sync_all(&self) -> io::Result<()> {
        let turn = if self.name == Name::Folder {
            Turn::SyncFolder
        } else {
            Turn::Sync
        };
        self.disk.with(|state: &mut State| state.take(turn))
    }

    fn set_permissions(&self, _permissions: Permissions) -> io::Result<()> {
        self.disk.with(|state: &mut State| state.take(Turn::Allow))
    }

    fn sync_data(&self) -> io::Result<()> {
        Err(Error::from(UNUSED))
    }
}
