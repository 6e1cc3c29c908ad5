//! Snapshots while calls are held.

use super::scene::{ONE_BUCKET, Scene, perform};
use super::sound::ANY;
use super::stage::Rest;
use super::tasks::Task;
use lh_file::Point;
use lh_stage::{Hold, Told};
use std::test::Fail;

/// The snapshot has all locks, and is held until the replace has begun. That doesn't come to its act while it is held.
const HELD_AT_ITS_MOMENT: [Hold; 3] = [
    Hold {
        from: 0,
        point: Point::Surveyed { buckets: 2 },
        to: 1,
        until: 3,
    },
    Hold {
        from: 2,
        point: Point::Read,
        to: 3,
        until: 3,
    },
    Hold {
        from: 3,
        point: Point::Acted { bucket: 1 },
        to: 4,
        until: 4,
    },
];

/// Searches are answered meanwhile.
const ONE_MOMENT: Scene = Scene {
    holds: &HELD_AT_ITS_MOMENT,
    rest: Some(Rest { from: 0, not: 4 }),
    first: &[(Task::Fill, Told::Done), (Task::Grow(1), Told::Done)],
    hands: &[
        &[(Task::Snapshot, Told::Done)],
        &[
            (Task::Wait(1), Told::Done),
            (Task::Search(b'a'), Told::Found(b'1')),
            (Task::Search(b'b'), Told::Found(b'1')),
            (Task::Reach(2), Told::Done),
            (Task::Replace(b'b'), Told::Replaced),
            (Task::Search(b'b'), Told::Found(b'2')),
        ],
    ],
    taken: &[&[b"a1c1e1g1", b"b1d1f1h1"]],
    ..ONE_BUCKET
};

#[test]
fn a_snapshot_is_one_moment(rt: HostRuntime) -> Result<(), Fail> {
    perform(&rt, rt.alloc(), &ONE_MOMENT)
}

/// Either snapshot has all locks before one of them lets a bucket go.
const BOTH_HELD: [Hold; 2] = [
    Hold {
        from: 0,
        point: Point::Surveyed { buckets: 2 },
        to: 1,
        until: 2,
    },
    Hold {
        from: 1,
        point: Point::Surveyed { buckets: 2 },
        to: 2,
        until: 2,
    },
];

const TWO_SNAPSHOTS: Scene = Scene {
    holds: &BOTH_HELD,
    first: &[(Task::Fill, Told::Done), (Task::Grow(1), Told::Done)],
    hands: &[
        &[(Task::Snapshot, Told::Done)],
        &[(Task::Wait(1), Told::Done), (Task::Snapshot, Told::Done)],
    ],
    taken: &[&[b"a1c1e1g1", b"b1d1f1h1"], &[b"a1c1e1g1", b"b1d1f1h1"]],
    ..ONE_BUCKET
};

#[test]
fn two_snapshots_are_taken_at_once(rt: HostRuntime) -> Result<(), Fail> {
    perform(&rt, rt.alloc(), &TWO_SNAPSHOTS)
}

/// The search has bucket 1, for which the replace waits, and is held until the snapshot is about to begin, and for some
/// turns more.
const HELD_BEFORE_A_HAND_THAT_WAITS: [Hold; 2] = [
    Hold {
        from: 0,
        point: Point::Holding { bucket: 1 },
        to: 1,
        until: 3,
    },
    Hold {
        from: 1,
        point: Point::Read,
        to: 2,
        until: 2,
    },
];

/// The snapshot has the old value or the new one.
const BESIDE_A_HAND_THAT_WAITS: Scene = Scene {
    holds: &HELD_BEFORE_A_HAND_THAT_WAITS,
    rest: Some(Rest { from: 0, not: 4 }),
    first: &[(Task::Fill, Told::Done), (Task::Grow(1), Told::Done)],
    hands: &[
        &[(Task::Search(b'b'), Told::Found(b'1'))],
        &[
            (Task::Wait(1), Told::Done),
            (Task::Replace(b'b'), Told::Replaced),
            (Task::Reach(4), Told::Done),
        ],
        &[
            (Task::Wait(2), Told::Done),
            (Task::Reach(3), Told::Done),
            (Task::Snapshot, Told::Done),
        ],
    ],
    taken: &[ANY],
    ..ONE_BUCKET
};

#[test]
fn a_snapshot_is_taken_beside_a_hand_that_waits(rt: HostRuntime) -> Result<(), Fail> {
    perform(&rt, rt.alloc(), &BESIDE_A_HAND_THAT_WAITS)
}
