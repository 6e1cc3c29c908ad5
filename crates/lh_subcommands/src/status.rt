//! How a run of the program ended.
ghost use Rattle.std.specs.Prelude.{◌≡◌, Some};
ghost use Rattle.lh_subcommands.specs.Status.{status_code, status_text};

use crate::load::RecordsFault;
use crate::unsettled::Unsettled;
use lh_image::{ImageFault, WriteImageFault};
use lh_script::ScriptFault;
use std::fmt;

/// What is wrong with an input.
#[derive(Clone, Copy, Debug, PartialEq, Eq)]
pub enum InputFault {
    /// The script is at fault.
    Script(ScriptFault),
    /// The bytes are no image.
    Image(ImageFault),
    /// The file that the script leads to has no image in the version that is asked for.
    Unwritten(WriteImageFault),
    /// The records of another store are not loaded.
    Load(RecordsFault),
}

/// Which device failed.
#[derive(Clone, Copy, Debug, PartialEq, Eq)]
pub enum DeviceFault {
    /// A read of the input failed.
    Read,
    /// A write or a flush of the output failed, or a write took no byte.
    Write,
}

/// How a run of the program ended. Its text is empty where it was done.
#[derive(Debug, Drop)]
pub enum Status {
    /// All was read, done and written.
    Done,
    /// The input is at fault, and nothing was written.
    Input(InputFault),
    /// The words are refused, nothing was read and nothing was written.
    Words(String),
    /// The input was not read, or the output not written to its end.
    Device(DeviceFault),
    /// Memory ran out, or a thread couldn't be started, and nothing was written.
    Memory,
    /// What threads did is not settled, and nothing was written.
    NotSettled(Unsettled),
    /// A key that was looked up is absent. All was read and written, as where a run is done.
    KeyAbsent,
}

impl Status {
    /// The exit status: 0 done, 1 a fault in the input, 2 the words, 3 a device, 4 out of memory,
    /// 5 not settled, 6 a key is absent.
    pub fn code(&self) -> u8
        ensures { result ≡ status_code self.now }
    {
        match self {
            Status::Done => 0,
            Status::Input(_) => 1,
            Status::Words(_) => 2,
            Status::Device(_) => 3,
            Status::Memory => 4,
            Status::NotSettled(_) => 5,
            Status::KeyAbsent => 6,
        }
    }
}

impl fmt::Display for InputFault {
    ghost use Rattle.lh_subcommands.specs.Status.{input_fault_text};

    ghost output = { λ fault. Some (input_fault_text fault) };

    fn fmt<W: fmt::Write>(&self, f: &mut fmt::Formatter<W>) -> fmt::Result {
        match self {
            InputFault::Script(fault) => write!(f, "{fault}"),
            InputFault::Image(fault) => write!(f, "{fault}"),
            InputFault::Unwritten(fault) => write!(f, "{fault}"),
            InputFault::Load(fault) => write!(f, "{fault}"),
        }
    }
}

impl fmt::Display for DeviceFault {
    ghost use Rattle.lh_subcommands.specs.Status.{device_text};

    ghost output = { λ fault. Some (device_text fault) };

    fn fmt<W: fmt::Write>(&self, f: &mut fmt::Formatter<W>) -> fmt::Result {
        match self {
            DeviceFault::Read => write!(f, "read failed"),
            DeviceFault::Write => write!(f, "write failed"),
        }
    }
}

impl fmt::Display for Status {
    ghost output = { λ status. Some (status_text status) };

    fn fmt<W: fmt::Write>(&self, f: &mut fmt::Formatter<W>) -> fmt::Result {
        match self {
            Status::Done => Ok(()),
            Status::Input(fault) => write!(f, "{fault}"),
            Status::Words(text) => write!(f, "{text}"),
            Status::Device(fault) => write!(f, "{fault}"),
            Status::Memory => write!(f, "no memory"),
            Status::NotSettled(fault) => write!(f, "not settled: {fault}"),
            Status::KeyAbsent => write!(f, "a key is absent"),
        }
    }
}
