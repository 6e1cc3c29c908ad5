//! What visits and snapshots hold, and how long.

use super::scene::{ONE_BUCKET, Scene, perform};
use super::stage::Rest;
use super::tasks::Task;
use lh_file::Point;
use lh_stage::{Hold, Told};
use std::test::Fail;

/// A visit has the lock of its bucket, and is held until a search there is answered.
const HELD_AT_ITS_BUCKET: [Hold; 1] = [Hold {
    from: 1,
    point: Point::Holding { bucket: 0 },
    to: 2,
    until: 3,
}];

const VISIT_AND_SEARCH: Scene = Scene {
    holds: &HELD_AT_ITS_BUCKET,
    hands: &[
        &[(Task::Reach(1), Told::Done), (Task::ForEach, Told::Done)],
        &[
            (Task::Wait(2), Told::Done),
            (Task::Search(b'a'), Told::Found(b'1')),
            (Task::Reach(3), Told::Done),
        ],
    ],
    ..ONE_BUCKET
};

#[test]
fn a_search_passes_a_visit(rt: HostRuntime) -> Result<(), Fail> {
    perform(&rt, rt.alloc(), &VISIT_AND_SEARCH)
}

/// A visit has let its bucket go, and is held until a write there is answered.
const HELD_BEHIND_ITS_BUCKET: [Hold; 1] = [Hold {
    from: 1,
    point: Point::Released { bucket: 0 },
    to: 2,
    until: 3,
}];

const VISIT_AND_WRITE: Scene = Scene {
    holds: &HELD_BEHIND_ITS_BUCKET,
    hands: &[
        &[(Task::Reach(1), Told::Done), (Task::ForEach, Told::Done)],
        &[
            (Task::Wait(2), Told::Done),
            (Task::Replace(b'a'), Told::Replaced),
            (Task::Reach(3), Told::Done),
        ],
    ],
    ..ONE_BUCKET
};

#[test]
fn a_bucket_that_a_visit_has_left_is_free(rt: HostRuntime) -> Result<(), Fail> {
    perform(&rt, rt.alloc(), &VISIT_AND_WRITE)
}

const ONE_VISIT: [Point; 2] = [Point::Holding { bucket: 0 }, Point::Released { bucket: 0 }];

const A_VISIT: Scene = Scene {
    points: &ONE_VISIT,
    first: &[
        (Task::Fill, Told::Done),
        (Task::Reach(1), Told::Done),
        (Task::ForEach, Told::Done),
    ],
    ..ONE_BUCKET
};

#[test]
fn a_visit_has_two_points(rt: HostRuntime) -> Result<(), Fail> {
    perform(&rt, rt.alloc(), &A_VISIT)
}

/// A snapshot has copied bucket 0, and is held until a write there is answered. It has bucket 1 still.
const HELD_BETWEEN_TWO_COPIES: [Hold; 1] = [Hold {
    from: 1,
    point: Point::Copied { bucket: 0 },
    to: 2,
    until: 3,
}];

const SNAPSHOT_AND_WRITES: Scene = Scene {
    holds: &HELD_BETWEEN_TWO_COPIES,
    rest: Some(Rest { from: 1, not: 4 }),
    first: &[(Task::Fill, Told::Done), (Task::Grow(1), Told::Done)],
    hands: &[
        &[(Task::Reach(1), Told::Done), (Task::Snapshot, Told::Done)],
        &[
            (Task::Wait(2), Told::Done),
            (Task::Replace(b'a'), Told::Replaced),
            (Task::Reach(3), Told::Done),
        ],
        &[
            (Task::Wait(2), Told::Done),
            (Task::Replace(b'b'), Told::Replaced),
            (Task::Reach(4), Told::Done),
        ],
    ],
    taken: &[&[b"a1c1e1g1", b"b1d1f1h1"]],
    ..ONE_BUCKET
};

#[test]
fn a_bucket_that_a_snapshot_has_copied_is_free(rt: HostRuntime) -> Result<(), Fail> {
    perform(&rt, rt.alloc(), &SNAPSHOT_AND_WRITES)
}
