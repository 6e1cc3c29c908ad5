//! Sessions of tables that are copied at one moment.
ghost use Rattle.std.specs.Prelude.{IfOk};
ghost use Rattle.lh_bucket.specs.Listing.{Lists};

use crate::fault::CallFault;
use crate::session::Session;
use crate::store::Store;

/// A session that can copy its whole table at one moment: of one file, since several have no moment in common.
pub trait Snapshots: Session {
    // These records are what all calls of its table leave so far.
    ghost leaves: { Self → Lists → Type 0 };

    /// All records at one moment, which may be [saved](Store::save) while other threads go on. Writes wait while the records
    /// are copied.
    fn snapshot(&mut self) -> Result<Store, CallFault>
        ensures { IfOk result (leaves self.old) };
}
