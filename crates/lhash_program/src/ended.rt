//! How the process ends, and what it says of that.
use lhash::{DeviceFault, Status};
use std::fmt;
use std::io::Error;

/// How the process ends.
#[derive(Debug, Drop)]
pub enum Ended {
    /// As its run did, by a fault that is no file's.
    Ran(Status),
    /// As its run did, by the fault of a file that the words name.
    At(String, Status),
    /// A file that the words name could not be opened, or not be made.
    NotOpened(String, DeviceFault, Error),
    /// The words name a folder, a device or the like as the file to write.
    NotAFile(String),
}

impl From<Status> for Ended {
    fn from(status: Status) -> Ended {
        Ended::Ran(status)
    }
}

impl Ended {
    /// The exit status.
    pub fn code(&self) -> u8 {
        match self {
            Ended::Ran(status) => status.code(),
            Ended::At(_, status) => status.code(),
            Ended::NotOpened(_, _, _) => 3,
            Ended::NotAFile(_) => 3,
        }
    }
}

impl fmt::Display for Ended {
    fn fmt<W: fmt::Write>(&self, f: &mut fmt::Formatter<W>) -> fmt::Result {
        match self {
            Ended::Ran(status) => write!(f, "{status}"),
            Ended::At(file, status) => write!(f, "{file}: {status}"),
            Ended::NotOpened(file, fault, error) => write!(f, "{file}: {fault}: {error}"),
            Ended::NotAFile(file) => write!(f, "{file}: not a regular file"),
        }
    }
}
