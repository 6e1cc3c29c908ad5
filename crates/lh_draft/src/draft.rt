//! When a new file takes its name.
ghost use Rattle.std.specs.Prelude.{◌≡◌};
ghost use Rattle.lh_draft.specs.Keeping.{stage_after};

use std::io::{self, Error};

/// How far a new file is.
#[derive(Clone, Copy, Debug, PartialEq, Eq)]
pub enum Stage {
    /// It is written, under a name of its own.
    Open,
    /// All that was written of it has reached the disk.
    Synced,
    /// It has the name that it was written for.
    Named,
    /// That name has reached the disk too.
    Durable,
    /// It was removed, and what had that name has it still.
    Removed,
}

/// A new file that is to take a name.
pub trait Draft {
    ghost use Rattle.std.specs.Prelude.{◌≡◌, OnErr, OnOk};
    ghost use Rattle.lh_draft.specs.declared.draft.Stage.{Stage};
    ghost use Rattle.lh_draft.specs.declared.draft.Stage.TheVariants.{Durable, Named, Open, Removed, Synced};

    /// How far it is.
    ghost stage: { Self → Stage };

    /// Waits until all that was written has reached the disk.
    fn sync(&mut self) -> io::Result<()>
        requires { stage self.old ≡ Open }
        ensures ok { OnOk result (stage self.new ≡ Synced) }
        ensures err { OnErr result (stage self.new ≡ Open) };

    /// Gives it the name that it was written for, in place of what had it.
    fn take_name(&mut self) -> io::Result<()>
        requires { stage self.old ≡ Synced }
        ensures ok { OnOk result (stage self.new ≡ Named) }
        ensures err { OnErr result (stage self.new ≡ Synced) };

    /// Waits until its name has reached the disk.
    fn sync_name(&mut self) -> io::Result<()>
        requires { stage self.old ≡ Named }
        ensures ok { OnOk result (stage self.new ≡ Durable) }
        ensures err { OnErr result (stage self.new ≡ Named) };

    /// Removes it.
    fn remove(&mut self)
        requires named { stage self.old ≡ Named → ⊥ }
        requires durable { stage self.old ≡ Durable → ⊥ }
        ensures { stage self.new ≡ Removed };
}

/// Why a new file was not kept, or may not be there after the machine has stopped. But for `Folder` the new file is
/// removed, and what had its name has it still.
#[derive(Clone, Copy, Debug)]
pub enum KeepFault {
    /// The system doesn't say that the new file has reached the disk.
    Sync(Error),
    /// It has not taken its name.
    Rename(Error),
    /// It has its name, but the system doesn't say that the name has reached the disk. Not every system can.
    Folder(Error),
}

/// Gives a file that is written its name, once it has reached the disk, and removes it where that fails.
pub fn keep<F: Draft>(file: &mut F) -> Result<(), KeepFault>
    requires { F.stage file.old ≡ Stage.Open }
    ensures { F.stage file.new ≡ stage_after result }
{
    if let Err(error) = file.sync() {
        file.remove();
        return Err(KeepFault::Sync(error));
    }
    if let Err(error) = file.take_name() {
        file.remove();
        return Err(KeepFault::Rename(error));
    }
    match file.sync_name() {
        Ok(()) => Ok(()),
        Err(error) => Err(KeepFault::Folder(error)),
    }
}
