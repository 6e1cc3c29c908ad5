//! Events: what may be asked of a world.

use lh_bucket::Call;

/// One step that a worker or the splitter is to take. A worker is named by its number, 0 to 15.
#[derive(Clone, Copy, Debug, PartialEq, Eq)]
pub enum Event {
    /// A call comes in at an idle worker.
    Call(u8, Call),
    /// A worker with a call reads the root, and so gets an aim: a level and a bucket.
    Read(u8),
    /// A worker locks the bucket of its aim: shared for a search, else exclusively.
    Lock(u8),
    /// A worker whose bucket was split since lets it go, and aims one level higher.
    Rehash(u8),
    /// A worker serves its call at the bucket that it holds.
    Act(u8),
    /// A worker lets its bucket go and is idle again. Before its act that gives up its call.
    Release(u8),
    /// The splitter takes the right to split.
    SplitBegin,
    /// The splitter locks the bucket that splits, and the new one.
    SplitLock,
    /// The splitter divides the records between both.
    SplitMove,
    /// The splitter lets both buckets go.
    SplitRelease,
    /// The splitter moves the split pointer on: the file has one bucket more.
    SplitPoint,
    /// The splitter gives the right back, with nothing moved.
    SplitDrop,
}
