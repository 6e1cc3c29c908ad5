//! When a call draws its stamp, and when it is counted.

use super::scene::{ONE_BUCKET, Scene, perform};
use super::tasks::Task;
use lh_file::Point;
use lh_stage::{Hold, Told};
use std::test::Fail;

/// Each of eight calls has let its bucket go, and is held until the one after it has returned: so the last one returns
/// first.
const HELD_IN_REVERSE: [Hold; 8] = [
    Hold {
        from: 1,
        point: Point::Released { bucket: 0 },
        to: 2,
        until: 16,
    },
    Hold {
        from: 2,
        point: Point::Released { bucket: 0 },
        to: 3,
        until: 15,
    },
    Hold {
        from: 3,
        point: Point::Released { bucket: 0 },
        to: 4,
        until: 14,
    },
    Hold {
        from: 4,
        point: Point::Released { bucket: 0 },
        to: 5,
        until: 13,
    },
    Hold {
        from: 5,
        point: Point::Released { bucket: 0 },
        to: 6,
        until: 12,
    },
    Hold {
        from: 6,
        point: Point::Released { bucket: 0 },
        to: 7,
        until: 11,
    },
    Hold {
        from: 7,
        point: Point::Released { bucket: 0 },
        to: 8,
        until: 10,
    },
    Hold {
        from: 8,
        point: Point::Released { bucket: 0 },
        to: 9,
        until: 9,
    },
];

/// The value that the last one leaves is that of the greatest stamp.
const EIGHT_REPLACES: Scene = Scene {
    holds: &HELD_IN_REVERSE,
    first: &[(Task::Fill, Told::Done), (Task::Reach(1), Told::Done)],
    hands: &[
        &[
            (Task::Wait(1), Told::Done),
            (Task::Set(b'a', b'0'), Told::Replaced),
            (Task::Reach(17), Told::Done),
            (Task::Search(b'a'), Told::Found(b'7')),
        ],
        &[
            (Task::Wait(2), Told::Done),
            (Task::Set(b'a', b'1'), Told::Replaced),
            (Task::Reach(16), Told::Done),
        ],
        &[
            (Task::Wait(3), Told::Done),
            (Task::Set(b'a', b'2'), Told::Replaced),
            (Task::Reach(15), Told::Done),
        ],
        &[
            (Task::Wait(4), Told::Done),
            (Task::Set(b'a', b'3'), Told::Replaced),
            (Task::Reach(14), Told::Done),
        ],
        &[
            (Task::Wait(5), Told::Done),
            (Task::Set(b'a', b'4'), Told::Replaced),
            (Task::Reach(13), Told::Done),
        ],
        &[
            (Task::Wait(6), Told::Done),
            (Task::Set(b'a', b'5'), Told::Replaced),
            (Task::Reach(12), Told::Done),
        ],
        &[
            (Task::Wait(7), Told::Done),
            (Task::Set(b'a', b'6'), Told::Replaced),
            (Task::Reach(11), Told::Done),
        ],
        &[
            (Task::Wait(8), Told::Done),
            (Task::Set(b'a', b'7'), Told::Replaced),
            (Task::Reach(10), Told::Done),
        ],
    ],
    ..ONE_BUCKET
};

/// Inserts and deletes of one key take turns.
const INSERTS_AND_DELETES: Scene = Scene {
    hands: &[
        &[
            (Task::Wait(1), Told::Done),
            (Task::Insert(b'i'), Told::Inserted),
            (Task::Reach(17), Told::Done),
            (Task::Search(b'i'), Told::Absent),
        ],
        &[
            (Task::Wait(2), Told::Done),
            (Task::Delete(b'i'), Told::Deleted),
            (Task::Reach(16), Told::Done),
        ],
        &[
            (Task::Wait(3), Told::Done),
            (Task::Insert(b'i'), Told::Inserted),
            (Task::Reach(15), Told::Done),
        ],
        &[
            (Task::Wait(4), Told::Done),
            (Task::Delete(b'i'), Told::Deleted),
            (Task::Reach(14), Told::Done),
        ],
        &[
            (Task::Wait(5), Told::Done),
            (Task::Insert(b'i'), Told::Inserted),
            (Task::Reach(13), Told::Done),
        ],
        &[
            (Task::Wait(6), Told::Done),
            (Task::Delete(b'i'), Told::Deleted),
            (Task::Reach(12), Told::Done),
        ],
        &[
            (Task::Wait(7), Told::Done),
            (Task::Insert(b'i'), Told::Inserted),
            (Task::Reach(11), Told::Done),
        ],
        &[
            (Task::Wait(8), Told::Done),
            (Task::Delete(b'i'), Told::Deleted),
            (Task::Reach(10), Told::Done),
        ],
    ],
    ..EIGHT_REPLACES
};

#[test]
fn eight_calls_have_their_stamps_before_they_let_their_bucket_go(
    rt: HostRuntime,
) -> Result<(), Fail> {
    perform(&rt, rt.alloc(), &EIGHT_REPLACES)?;
    perform(&rt, rt.alloc(), &INSERTS_AND_DELETES)
}

/// A call of each kind is served, and is held until another hand has been told of its act.
const HELD_AT_EACH_ACT: [Hold; 4] = [
    Hold {
        from: 1,
        point: Point::Acted { bucket: 0 },
        to: 2,
        until: 3,
    },
    Hold {
        from: 3,
        point: Point::Acted { bucket: 0 },
        to: 4,
        until: 5,
    },
    Hold {
        from: 5,
        point: Point::Acted { bucket: 0 },
        to: 6,
        until: 7,
    },
    Hold {
        from: 7,
        point: Point::Acted { bucket: 0 },
        to: 8,
        until: 9,
    },
];

/// An act has its stamp and is counted before its bucket is let go.
const FOUR_ACTS: Scene = Scene {
    holds: &HELD_AT_EACH_ACT,
    hands: &[
        &[
            (Task::Reach(1), Told::Done),
            (Task::Replace(b'a'), Told::Replaced),
            (Task::Insert(b'i'), Told::Inserted),
            (Task::Delete(b'b'), Told::Deleted),
            (Task::Search(b'a'), Told::Found(b'2')),
        ],
        &[
            (Task::Wait(2), Told::Done),
            (Task::Told, Told::Number(9)),
            (Task::Load, Told::Load(8, 0)),
            (Task::Reach(3), Told::Done),
            (Task::Wait(4), Told::Done),
            (Task::Told, Told::Number(10)),
            (Task::Load, Told::Load(9, 0)),
            (Task::Reach(5), Told::Done),
            (Task::Wait(6), Told::Done),
            (Task::Told, Told::Number(11)),
            (Task::Load, Told::Load(9, 1)),
            (Task::Reach(7), Told::Done),
            (Task::Wait(8), Told::Done),
            (Task::Told, Told::Number(12)),
            (Task::Load, Told::Load(9, 1)),
            (Task::Reach(9), Told::Done),
        ],
    ],
    ..ONE_BUCKET
};

#[test]
fn an_act_has_its_stamp_while_its_bucket_is_held(rt: HostRuntime) -> Result<(), Fail> {
    perform(&rt, rt.alloc(), &FOUR_ACTS)
}
