//! What becomes of a run's new file, by how the run ended.
ghost use Rattle.std.specs.Prelude.{◌≡◌, ◌⊎◌};

use lh_draft::{Draft, KeepFault, Stage, keep};
use lh_subcommands::{DeviceFault, Status};

/// How a run ends whose output is a new file, by how it ended before: the file takes its name where all was done, and is
/// removed otherwise. Not every system can say that a name has reached the disk, so the run doesn't rest on that.
pub fn settle<F: Draft>(file: &mut F, status: Status) -> Status
    requires { F.stage file.old ≡ Stage.Open }
    ensures done { result ≡ Status.Done → (status ≡ Status.Done)
        × ((F.stage file.new ≡ Stage.Named) ⊎ (F.stage file.new ≡ Stage.Durable)) }
    ensures removed { (result ≡ Status.Done → ⊥) → F.stage file.new ≡ Stage.Removed }
    ensures kept { (status ≡ Status.Done → ⊥) → result ≡ status }
    ensures written { status ≡ Status.Done →
        (result ≡ Status.Done) ⊎ (result ≡ Status.Device DeviceFault.Write) }
{
    match status {
        Status::Done => match keep(file) {
            Ok(()) | Err(KeepFault::Folder(_)) => Status::Done,
            Err(KeepFault::Sync(_) | KeepFault::Rename(_)) => Status::Device(DeviceFault::Write),
        },
        other => {
            file.remove();
            other
        },
    }
}
