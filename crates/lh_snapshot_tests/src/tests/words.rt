//! What a hand sees of what others did: the size, the right to split, and how many records there are.

use super::scene::{ONE_BUCKET, Scene, perform};
use super::tasks::Task;
use lh_file::{Point, Right};
use lh_stage::{BUSY, FIRST_RIGHT, Hold, Told};
use std::test::Fail;

/// The right to split a file that began with one bucket, before its second and its fourth split.
const SECOND_RIGHT: Told = Told::Right(Right::Got { old: 0, new: 2 });

const FOURTH_RIGHT: Told = Told::Right(Right::Got { old: 0, new: 4 });

/// The split is held before the pointer moves, and after it.
const HELD_ROUND_THE_POINTER: [Hold; 2] = [
    Hold {
        from: 1,
        point: Point::Moved { old: 0, new: 1 },
        to: 2,
        until: 3,
    },
    Hold {
        from: 3,
        point: Point::Pointed { buckets: 2 },
        to: 4,
        until: 5,
    },
];

const ROUND_THE_POINTER: Scene = Scene {
    holds: &HELD_ROUND_THE_POINTER,
    hands: &[
        &[
            (Task::Buckets, Told::Number(1)),
            (Task::Reach(1), Told::Done),
            (Task::TryRight, FIRST_RIGHT),
            (Task::Split, Told::Done),
            (Task::Buckets, Told::Number(2)),
        ],
        &[
            (Task::Wait(2), Told::Done),
            (Task::Buckets, Told::Number(1)),
            (Task::TryRight, BUSY),
            (Task::Reach(3), Told::Done),
            (Task::Wait(4), Told::Done),
            (Task::Buckets, Told::Number(2)),
            (Task::TryRight, SECOND_RIGHT),
            (Task::DropRight, Told::Done),
            (Task::Reach(5), Told::Done),
        ],
    ],
    ..ONE_BUCKET
};

#[test]
fn a_size_is_seen_when_the_pointer_has_moved(rt: HostRuntime) -> Result<(), Fail> {
    perform(&rt, rt.alloc(), &ROUND_THE_POINTER)
}

const FOUR_SPLITS: [Point; 12] = [
    Point::RightGot,
    Point::Moved { old: 0, new: 1 },
    Point::Pointed { buckets: 2 },
    Point::RightGot,
    Point::Moved { old: 0, new: 2 },
    Point::Pointed { buckets: 3 },
    Point::RightGot,
    Point::Moved { old: 1, new: 3 },
    Point::Pointed { buckets: 4 },
    Point::RightGot,
    Point::Moved { old: 0, new: 4 },
    Point::Pointed { buckets: 5 },
];

/// The first hand knows of one bucket when it asks for the right to split four.
const WITH_AN_OLD_SIZE: Scene = Scene {
    points: &FOUR_SPLITS,
    hands: &[
        &[
            (Task::Buckets, Told::Number(1)),
            (Task::Reach(1), Told::Done),
            (Task::Wait(2), Told::Done),
            (Task::TryRight, FOURTH_RIGHT),
            (Task::Split, Told::Done),
            (Task::Buckets, Told::Number(5)),
        ],
        &[
            (Task::Wait(1), Told::Done),
            (Task::Grow(3), Told::Done),
            (Task::Reach(2), Told::Done),
        ],
    ],
    ..ONE_BUCKET
};

#[test]
fn a_hand_with_an_old_size_gets_the_right(rt: HostRuntime) -> Result<(), Fail> {
    perform(&rt, rt.alloc(), &WITH_AN_OLD_SIZE)
}

/// What an insert adds and a delete removes is counted, by whomever, and nothing else.
const COUNTED: Scene = Scene {
    first: &[
        (Task::Load, Told::Load(0, 0)),
        (Task::Fill, Told::Done),
        (Task::Load, Told::Load(8, 0)),
        (Task::Delete(b'a'), Told::Deleted),
        (Task::Load, Told::Load(8, 1)),
        (Task::Delete(b'a'), Told::Absent),
        (Task::Insert(b'b'), Told::Exists),
        (Task::Replace(b'b'), Told::Replaced),
        (Task::Replace(b'a'), Told::Absent),
        (Task::Search(b'a'), Told::Absent),
        (Task::Search(b'b'), Told::Found(b'2')),
        (Task::Load, Told::Load(8, 1)),
        (Task::Insert(b'a'), Told::Inserted),
        (Task::Load, Told::Load(9, 1)),
    ],
    hands: &[
        &[
            (Task::Delete(b'c'), Told::Deleted),
            (Task::Reach(1), Told::Done),
            (Task::Wait(2), Told::Done),
            (Task::Load, Told::Load(10, 2)),
        ],
        &[
            (Task::Wait(1), Told::Done),
            (Task::Load, Told::Load(9, 2)),
            (Task::Insert(b'c'), Told::Inserted),
            (Task::Reach(2), Told::Done),
        ],
    ],
    ..ONE_BUCKET
};

#[test]
fn a_load_tells_what_was_added_and_removed(rt: HostRuntime) -> Result<(), Fail> {
    perform(&rt, rt.alloc(), &COUNTED)
}
