//! One closed shard.
use lh_file::{Acts, Closed};

/// A shard that is closed: its file, and the acts of the hand that closed it.
#[derive(Debug, Drop)]
pub struct ClosedShard {
    pub closed: Closed,
    pub acts: Acts,
}
