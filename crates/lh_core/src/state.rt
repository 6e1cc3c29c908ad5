//! What the workers and the splitter are doing.

use lh_bucket::Call;

/// What a worker is doing.
#[derive(Clone, Copy, Debug, PartialEq, Eq)]
pub enum WorkerState {
    /// Nothing.
    Idle,
    /// It has a call.
    Called(Call),
    /// It aims with this level at this bucket.
    Aimed(Call, u8, u32),
    /// It holds the bucket of its aim.
    Holding(Call, u8, u32),
    /// It holds the bucket that its call was served at.
    Acted(Call, u32),
}

/// What the splitter is doing.
#[derive(Clone, Copy, Debug, PartialEq, Eq)]
pub enum SplitState {
    /// Nothing: no split is under way.
    Idle,
    /// It has the right to split.
    Begun,
    /// It holds the bucket that splits, and the new one.
    Locked,
    /// It holds both, and the records are divided.
    LockedMoved,
    /// The records are divided, and it holds nothing.
    Moved,
}
