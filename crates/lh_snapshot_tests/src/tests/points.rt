//! The points at which calls stand: those that are due, and no others.

use super::scene::{ONE_BUCKET, Scene, perform};
use super::tasks::{Task, Tasks};
use lh_file::{Point, Right};
use lh_stage::{BUSY, FIRST_RIGHT, Hold, Told};
use std::test::Fail;

const RIGHTS: [Point; 8] = [
    Point::RightGot,
    Point::RightGot,
    Point::Moved { old: 0, new: 1 },
    Point::Pointed { buckets: 2 },
    Point::Read,
    Point::Holding { bucket: 0 },
    Point::Acted { bucket: 0 },
    Point::Released { bucket: 0 },
];

/// A right that is asked for by the hand that has it isn't got, and one that is given up isn't used.
const RIGHTS_TWICE: Scene = Scene {
    points: &RIGHTS,
    first: &[
        (Task::Reach(1), Told::Done),
        (Task::TryRight, FIRST_RIGHT),
        (Task::TryRight, BUSY),
        (Task::DropRight, Told::Done),
        (Task::TryRight, FIRST_RIGHT),
        (Task::Split, Told::Done),
        (Task::Search(b'a'), Told::Absent),
    ],
    ..ONE_BUCKET
};

const ONE_CALL: [Point; 4] = [
    Point::Read,
    Point::Holding { bucket: 0 },
    Point::Acted { bucket: 0 },
    Point::Released { bucket: 0 },
];

/// A full file gives no right, whatever the load.
const IN_A_FULL_FILE: Scene = Scene {
    settings: [1, 1, 10, 1],
    points: &ONE_CALL,
    first: &[
        (Task::Reach(1), Told::Done),
        (Task::TryRight, Told::Right(Right::Full)),
        (Task::Insert(b'a'), Told::Inserted),
    ],
    ..ONE_BUCKET
};

#[test]
fn a_right_that_is_not_got_is_not_told(rt: HostRuntime) -> Result<(), Fail> {
    perform(&rt, rt.alloc(), &RIGHTS_TWICE)?;
    perform(&rt, rt.alloc(), &IN_A_FULL_FILE)
}

const ONE_SPLIT: [Point; 31] = [
    Point::Read,
    Point::Holding { bucket: 0 },
    Point::Acted { bucket: 0 },
    Point::Released { bucket: 0 },
    Point::RightGot,
    Point::Moved { old: 0, new: 1 },
    Point::Pointed { buckets: 2 },
    Point::Read,
    Point::Holding { bucket: 0 },
    Point::Acted { bucket: 0 },
    Point::Released { bucket: 0 },
    Point::Read,
    Point::Holding { bucket: 0 },
    Point::Acted { bucket: 0 },
    Point::Released { bucket: 0 },
    Point::Read,
    Point::Holding { bucket: 0 },
    Point::Acted { bucket: 0 },
    Point::Released { bucket: 0 },
    Point::Read,
    Point::Holding { bucket: 0 },
    Point::Acted { bucket: 0 },
    Point::Released { bucket: 0 },
    Point::Read,
    Point::Holding { bucket: 0 },
    Point::Acted { bucket: 0 },
    Point::Released { bucket: 0 },
    Point::Read,
    Point::Holding { bucket: 1 },
    Point::Acted { bucket: 1 },
    Point::Released { bucket: 1 },
];

/// One record in two buckets is too much for the load. Only an insert that adds a record splits a bucket, and only one.
const ONE_INSERT_SPLITS: Scene = Scene {
    settings: [1, 1, 10, 65536],
    points: &ONE_SPLIT,
    first: &[
        (Task::Reach(1), Told::Done),
        (Task::Insert(b'a'), Told::Inserted),
        (Task::Insert(b'a'), Told::Exists),
        (Task::Search(b'a'), Told::Found(b'1')),
        (Task::Replace(b'a'), Told::Replaced),
        (Task::Delete(b'a'), Told::Deleted),
        (Task::Delete(b'a'), Told::Absent),
        (Task::Delete(b'b'), Told::Absent),
    ],
    ..ONE_BUCKET
};

#[test]
fn an_insert_that_adds_a_record_splits_once(rt: HostRuntime) -> Result<(), Fail> {
    perform(&rt, rt.alloc(), &ONE_INSERT_SPLITS)
}

const BUSY_ONCE: [Point; 11] = [
    Point::Read,
    Point::Holding { bucket: 0 },
    Point::Acted { bucket: 0 },
    Point::Released { bucket: 0 },
    Point::Read,
    Point::Holding { bucket: 0 },
    Point::Acted { bucket: 0 },
    Point::Released { bucket: 0 },
    Point::RightGot,
    Point::Moved { old: 0, new: 1 },
    Point::Pointed { buckets: 2 },
];

/// The load asks for a split at each insert. The first one is answered while another hand has the right, and splits
/// nothing.
const BESIDE_THE_RIGHT: Scene = Scene {
    settings: [1, 1, 10, 65536],
    points: &BUSY_ONCE,
    first: &[],
    hands: &[
        &[
            (Task::TryRight, FIRST_RIGHT),
            (Task::Reach(1), Told::Done),
            (Task::Wait(2), Told::Done),
            (Task::DropRight, Told::Done),
            (Task::Reach(3), Told::Done),
        ],
        &[
            (Task::Wait(1), Told::Done),
            (Task::Insert(b'a'), Told::Inserted),
            (Task::Buckets, Told::Number(1)),
            (Task::Reach(2), Told::Done),
            (Task::Wait(3), Told::Done),
            (Task::Insert(b'b'), Told::Inserted),
            (Task::Buckets, Told::Number(2)),
        ],
    ],
    ..ONE_BUCKET
};

#[test]
fn an_insert_does_not_wait_for_the_right(rt: HostRuntime) -> Result<(), Fail> {
    perform(&rt, rt.alloc(), &BESIDE_THE_RIGHT)
}

const DEEP_CALLS: [Point; 20] = [
    Point::Read,
    Point::Holding { bucket: 12 },
    Point::Acted { bucket: 12 },
    Point::Released { bucket: 12 },
    Point::Read,
    Point::Holding { bucket: 37 },
    Point::Acted { bucket: 37 },
    Point::Released { bucket: 37 },
    Point::Read,
    Point::Holding { bucket: 19 },
    Point::Acted { bucket: 19 },
    Point::Released { bucket: 19 },
    Point::Read,
    Point::Holding { bucket: 38 },
    Point::Acted { bucket: 38 },
    Point::Released { bucket: 38 },
    Point::Read,
    Point::Holding { bucket: 18 },
    Point::Acted { bucket: 18 },
    Point::Released { bucket: 18 },
];

/// Forty buckets have the levels 5 and 6. No call begins at a lower one.
const IN_FORTY_BUCKETS: Scene = Scene {
    points: &DEEP_CALLS,
    first: &[
        (Task::Fill, Told::Done),
        (Task::Grow(39), Told::Done),
        (Task::Reach(1), Told::Done),
        (Task::Search(b'a'), Told::Found(b'1')),
        (Task::Replace(b'b'), Told::Replaced),
        (Task::Insert(b'd'), Told::Exists),
        (Task::Delete(b'g'), Told::Deleted),
        (Task::Search(b'c'), Told::Found(b'1')),
    ],
    ..ONE_BUCKET
};

#[test]
fn a_call_begins_at_the_level_of_its_bucket(rt: HostRuntime) -> Result<(), Fail> {
    perform(&rt, rt.alloc(), &IN_FORTY_BUCKETS)
}

/// The first call has read the size, and is held until bucket 0 is split. It looks there, and again a level up, and is
/// held in between until another hand has written there.
const HELD_BETWEEN_TWO_LEVELS: [Hold; 2] = [
    Hold {
        from: 1,
        point: Point::Read,
        to: 2,
        until: 3,
    },
    Hold {
        from: 3,
        point: Point::Released { bucket: 0 },
        to: 4,
        until: 5,
    },
];

const THE_SAME_BUCKET_AGAIN: [Point; 13] = [
    Point::Read,
    Point::RightGot,
    Point::Moved { old: 0, new: 1 },
    Point::Pointed { buckets: 2 },
    Point::Holding { bucket: 0 },
    Point::Released { bucket: 0 },
    Point::Read,
    Point::Holding { bucket: 0 },
    Point::Acted { bucket: 0 },
    Point::Released { bucket: 0 },
    Point::Holding { bucket: 0 },
    Point::Acted { bucket: 0 },
    Point::Released { bucket: 0 },
];

const GROWS_THEN_WRITES: Tasks = &[
    (Task::Wait(2), Told::Done),
    (Task::Grow(1), Told::Done),
    (Task::Reach(3), Told::Done),
    (Task::Wait(4), Told::Done),
    (Task::Replace(b'e'), Told::Replaced),
    (Task::Reach(5), Told::Done),
];

const A_SEARCH_AGAIN: Scene = Scene {
    holds: &HELD_BETWEEN_TWO_LEVELS,
    points: &THE_SAME_BUCKET_AGAIN,
    hands: &[
        &[
            (Task::Reach(1), Told::Done),
            (Task::Search(b'e'), Told::Found(b'2')),
        ],
        GROWS_THEN_WRITES,
    ],
    ..ONE_BUCKET
};

const A_WRITE_AGAIN: Scene = Scene {
    hands: &[
        &[
            (Task::Reach(1), Told::Done),
            (Task::Delete(b'e'), Told::Deleted),
        ],
        GROWS_THEN_WRITES,
    ],
    ..A_SEARCH_AGAIN
};

#[test]
fn a_call_that_comes_back_to_a_bucket_has_let_it_go(rt: HostRuntime) -> Result<(), Fail> {
    perform(&rt, rt.alloc(), &A_SEARCH_AGAIN)?;
    perform(&rt, rt.alloc(), &A_WRITE_AGAIN)
}
