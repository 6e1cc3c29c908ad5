//! Snapshots of files that are split meanwhile.

use super::scene::{ONE_BUCKET, Scene, perform};
use super::tasks::Task;
use lh_file::Point;
use lh_stage::{FIRST_RIGHT, Hold, Told};
use std::test::Fail;

/// The split has moved its records, and is held until the snapshot is taken.
const HELD_BEFORE_THE_POINTER: [Hold; 1] = [Hold {
    from: 0,
    point: Point::Moved { old: 0, new: 1 },
    to: 1,
    until: 2,
}];

/// The snapshot has one bucket more than the root says, and all records.
const BEFORE_THE_POINTER: Scene = Scene {
    holds: &HELD_BEFORE_THE_POINTER,
    hands: &[
        &[
            (Task::TryRight, FIRST_RIGHT),
            (Task::Split, Told::Done),
            (Task::Buckets, Told::Number(2)),
        ],
        &[
            (Task::Wait(1), Told::Done),
            (Task::Buckets, Told::Number(1)),
            (Task::Snapshot, Told::Done),
            (Task::Buckets, Told::Number(1)),
            (Task::Reach(2), Told::Done),
        ],
    ],
    taken: &[&[b"a1c1e1g1", b"b1d1f1h1"]],
    ..ONE_BUCKET
};

#[test]
fn a_snapshot_between_move_and_pointer(rt: HostRuntime) -> Result<(), Fail> {
    perform(&rt, rt.alloc(), &BEFORE_THE_POINTER)
}

/// The replace has bucket 1, and is held until the file has grown.
const HELD_WHILE_IT_GROWS: [Hold; 1] = [Hold {
    from: 1,
    point: Point::Holding { bucket: 1 },
    to: 2,
    until: 4,
}];

/// The file has six buckets when the snapshot begins. That waits for bucket 1 while buckets 2 and 3 are split, and has
/// the eight buckets that there are then.
const WHILE_IT_GROWS: Scene = Scene {
    settings: [4, 14, 100, 65536],
    holds: &HELD_WHILE_IT_GROWS,
    first: &[(Task::Fill, Told::Done), (Task::Grow(2), Told::Done)],
    hands: &[
        &[
            (Task::Reach(1), Told::Done),
            (Task::Replace(b'f'), Told::Replaced),
        ],
        &[
            (Task::Wait(2), Told::Done),
            (Task::Buckets, Told::Number(6)),
            (Task::Reach(3), Told::Done),
            (Task::Snapshot, Told::Done),
            (Task::Reach(5), Told::Done),
        ],
        &[
            (Task::Wait(3), Told::Done),
            (Task::Rest(5), Told::Done),
            (Task::Grow(2), Told::Done),
            (Task::Buckets, Told::Number(8)),
            (Task::Reach(4), Told::Done),
        ],
    ],
    taken: &[&[b"e1", b"f2", b"c1", b"d1", b"a1", b"b1", b"g1", b"h1"]],
    ..ONE_BUCKET
};

#[test]
fn a_file_grows_under_a_snapshot(rt: HostRuntime) -> Result<(), Fail> {
    perform(&rt, rt.alloc(), &WHILE_IT_GROWS)
}

/// The snapshot has read the size, and is held until the file has grown.
const HELD_AT_ITS_SIZE: [Hold; 1] = [Hold {
    from: 1,
    point: Point::Read,
    to: 2,
    until: 3,
}];

/// The file has one bucket when the snapshot begins, which is split three times before the snapshot has its lock.
const BEFORE_THE_FIRST_LOCK: Scene = Scene {
    holds: &HELD_AT_ITS_SIZE,
    hands: &[
        &[
            (Task::Reach(1), Told::Done),
            (Task::Snapshot, Told::Done),
            (Task::Buckets, Told::Number(8)),
        ],
        &[
            (Task::Wait(2), Told::Done),
            (Task::Buckets, Told::Number(1)),
            (Task::Grow(7), Told::Done),
            (Task::Reach(3), Told::Done),
        ],
    ],
    taken: &[&[b"e1", b"f1", b"c1", b"d1", b"a1", b"b1", b"g1", b"h1"]],
    ..ONE_BUCKET
};

#[test]
fn a_file_grows_before_a_snapshot_has_a_lock(rt: HostRuntime) -> Result<(), Fail> {
    perform(&rt, rt.alloc(), &BEFORE_THE_FIRST_LOCK)
}
