//! Calls that are held at a point while others go on.

use super::play::{Scene, perform};
use lh_file::Point;
use lh_stage::{BUSY, FIRST_RIGHT, FOURTH_RIGHT, Hold, SECOND_RIGHT, THIRD_RIGHT, Task, Told};
use std::test::Fail;

const HELD: [Hold; 1] = [Hold {
    from: 0,
    point: Point::Holding { bucket: 0 },
    to: 1,
    until: 2,
}];

#[test]
fn a_held_call_holds_up_nobody_but_its_bucket(rt: HostRuntime) -> Result<(), Fail> {
    let scene = Scene {
        capacity: 14,
        holds: &HELD,
        first: &[(Task::Search(b'a'), Told::Absent)],
        second: &[
            (Task::Wait(1), Told::Done),
            (Task::Buckets, Told::Number(1)),
            (Task::TryRight, FIRST_RIGHT),
            (Task::DropRight, Told::Done),
            (Task::Reach(2), Told::Done),
        ],
        buckets: 1,
        acts: 1,
        points: &[],
    };
    perform(&rt, rt.alloc(), scene)
}

/// The replace has the lock of its bucket, and is held until the search is about to take it.
const HELD_WITH_THE_LOCK: [Hold; 2] = [
    Hold {
        from: 1,
        point: Point::Holding { bucket: 0 },
        to: 2,
        until: 3,
    },
    Hold {
        from: 2,
        point: Point::Read,
        to: 3,
        until: 3,
    },
];

#[test]
fn a_search_waits_for_the_replace_of_its_bucket(rt: HostRuntime) -> Result<(), Fail> {
    let scene = Scene {
        capacity: 14,
        holds: &HELD_WITH_THE_LOCK,
        first: &[
            (Task::Insert(b'a'), Told::Inserted),
            (Task::Reach(1), Told::Done),
            (Task::Replace(b'a'), Told::Replaced),
        ],
        second: &[
            (Task::Wait(2), Told::Done),
            (Task::Search(b'a'), Told::Found(b'2')),
        ],
        buckets: 1,
        acts: 3,
        points: &[],
    };
    perform(&rt, rt.alloc(), scene)
}

/// The third record splits bucket 0; the split is held until a call has left bucket 1.
const HELD_BEFORE_THE_POINTER: [Hold; 2] = [
    Hold {
        from: 0,
        point: Point::Moved { old: 0, new: 1 },
        to: 1,
        until: 2,
    },
    Hold {
        from: 1,
        point: Point::Released { bucket: 1 },
        to: 2,
        until: 2,
    },
];

/// The call goes on from bucket 0 to bucket 1 before the pointer moves.
const POINTED_LAST: [Point; 8] = [
    Point::Moved { old: 0, new: 1 },
    Point::Read,
    Point::Holding { bucket: 0 },
    Point::Released { bucket: 0 },
    Point::Holding { bucket: 1 },
    Point::Acted { bucket: 1 },
    Point::Released { bucket: 1 },
    Point::Pointed { buckets: 2 },
];

#[test]
fn a_search_finds_its_record_between_move_and_pointer(rt: HostRuntime) -> Result<(), Fail> {
    let scene = Scene {
        capacity: 2,
        holds: &HELD_BEFORE_THE_POINTER,
        first: &[
            (Task::Insert(b'a'), Told::Inserted),
            (Task::Insert(b'b'), Told::Inserted),
            (Task::Insert(b'c'), Told::Inserted),
            (Task::Buckets, Told::Number(2)),
        ],
        second: &[
            (Task::Wait(1), Told::Done),
            (Task::Buckets, Told::Number(1)),
            (Task::Search(b'b'), Told::Found(b'1')),
        ],
        buckets: 2,
        acts: 4,
        points: &POINTED_LAST,
    };
    perform(&rt, rt.alloc(), scene)
}

#[test]
fn a_replace_meets_its_record_between_move_and_pointer(rt: HostRuntime) -> Result<(), Fail> {
    let scene = Scene {
        capacity: 2,
        holds: &HELD_BEFORE_THE_POINTER,
        first: &[
            (Task::Insert(b'a'), Told::Inserted),
            (Task::Insert(b'b'), Told::Inserted),
            (Task::Insert(b'c'), Told::Inserted),
            (Task::Search(b'b'), Told::Found(b'2')),
        ],
        second: &[
            (Task::Wait(1), Told::Done),
            (Task::Buckets, Told::Number(1)),
            (Task::Replace(b'b'), Told::Replaced),
        ],
        buckets: 2,
        acts: 5,
        points: &[],
    };
    perform(&rt, rt.alloc(), scene)
}

const HELD_WITH_THE_RIGHT: [Hold; 1] = [Hold {
    from: 0,
    point: Point::RightGot,
    to: 1,
    until: 2,
}];

#[test]
fn a_right_that_is_held_is_busy(rt: HostRuntime) -> Result<(), Fail> {
    let scene = Scene {
        capacity: 2,
        holds: &HELD_WITH_THE_RIGHT,
        first: &[
            (Task::Insert(b'a'), Told::Inserted),
            (Task::Insert(b'b'), Told::Inserted),
            (Task::Insert(b'c'), Told::Inserted),
            (Task::Buckets, Told::Number(2)),
        ],
        second: &[
            (Task::Wait(1), Told::Done),
            (Task::TryRight, BUSY),
            (Task::Buckets, Told::Number(1)),
            (Task::Reach(2), Told::Done),
        ],
        buckets: 2,
        acts: 3,
        points: &[],
    };
    perform(&rt, rt.alloc(), scene)
}

/// The second hand's search has read the root, and is held until the file has split four times.
const HELD_AT_AN_OLD_ROOT: [Hold; 1] = [Hold {
    from: 1,
    point: Point::Read,
    to: 2,
    until: 3,
}];

const FOUR_SPLITS: [(Task, Told); 10] = [
    (Task::Wait(2), Told::Done),
    (Task::TryRight, FIRST_RIGHT),
    (Task::Split, Told::Done),
    (Task::TryRight, SECOND_RIGHT),
    (Task::Split, Told::Done),
    (Task::TryRight, THIRD_RIGHT),
    (Task::Split, Told::Done),
    (Task::TryRight, FOURTH_RIGHT),
    (Task::Split, Told::Done),
    (Task::Reach(3), Told::Done),
];

/// The search goes from bucket 0 by bucket 1 to bucket 3.
const FOLLOWED: [Point; 8] = [
    Point::Pointed { buckets: 5 },
    Point::Holding { bucket: 0 },
    Point::Released { bucket: 0 },
    Point::Holding { bucket: 1 },
    Point::Released { bucket: 1 },
    Point::Holding { bucket: 3 },
    Point::Acted { bucket: 3 },
    Point::Released { bucket: 3 },
];

#[test]
fn a_search_by_an_old_root_follows_four_splits(rt: HostRuntime) -> Result<(), Fail> {
    let scene = Scene {
        capacity: 2,
        holds: &HELD_AT_AN_OLD_ROOT,
        first: &FOUR_SPLITS,
        second: &[
            (Task::Insert(b'h'), Told::Inserted),
            (Task::Reach(1), Told::Done),
            (Task::Search(b'h'), Told::Found(b'1')),
        ],
        buckets: 5,
        acts: 2,
        points: &FOLLOWED,
    };
    perform(&rt, rt.alloc(), scene)
}

/// A call that knows of the first bucket alone begins by the root as it is now, at the level of its bucket.
const BY_THE_ROOT: [Point; 5] = [
    Point::Pointed { buckets: 5 },
    Point::Read,
    Point::Holding { bucket: 3 },
    Point::Acted { bucket: 3 },
    Point::Released { bucket: 3 },
];

const FOUR_SPLITS_AT_ONCE: [(Task, Told); 9] = [
    (Task::TryRight, FIRST_RIGHT),
    (Task::Split, Told::Done),
    (Task::TryRight, SECOND_RIGHT),
    (Task::Split, Told::Done),
    (Task::TryRight, THIRD_RIGHT),
    (Task::Split, Told::Done),
    (Task::TryRight, FOURTH_RIGHT),
    (Task::Split, Told::Done),
    (Task::Reach(1), Told::Done),
];

#[test]
fn a_call_begins_by_the_root_as_it_is(rt: HostRuntime) -> Result<(), Fail> {
    let scene = Scene {
        capacity: 2,
        holds: &[],
        first: &FOUR_SPLITS_AT_ONCE,
        second: &[
            (Task::Wait(1), Told::Done),
            (Task::Search(b'h'), Told::Absent),
        ],
        buckets: 5,
        acts: 1,
        points: &BY_THE_ROOT,
    };
    perform(&rt, rt.alloc(), scene)
}

/// The first insert has let its bucket go, and is held until the second one has it.
const HELD_WITHOUT_THE_LOCK: [Hold; 2] = [
    Hold {
        from: 0,
        point: Point::Released { bucket: 0 },
        to: 1,
        until: 2,
    },
    Hold {
        from: 1,
        point: Point::Holding { bucket: 0 },
        to: 2,
        until: 2,
    },
];

#[test]
fn a_bucket_that_is_released_is_free(rt: HostRuntime) -> Result<(), Fail> {
    let scene = Scene {
        capacity: 14,
        holds: &HELD_WITHOUT_THE_LOCK,
        first: &[(Task::Insert(b'a'), Told::Inserted)],
        second: &[
            (Task::Wait(1), Told::Done),
            (Task::Insert(b'b'), Told::Inserted),
        ],
        buckets: 1,
        acts: 2,
        points: &[],
    };
    perform(&rt, rt.alloc(), scene)
}

/// The search has let its bucket go, and is held until the record that it found is deleted.
const HELD_AFTER_A_SEARCH: [Hold; 1] = [Hold {
    from: 1,
    point: Point::Released { bucket: 0 },
    to: 2,
    until: 3,
}];

/// A search has its stamp before it lets its bucket go.
#[test]
fn a_search_comes_before_what_it_does_not_see(rt: HostRuntime) -> Result<(), Fail> {
    let scene = Scene {
        capacity: 14,
        holds: &HELD_AFTER_A_SEARCH,
        first: &[
            (Task::Insert(b'a'), Told::Inserted),
            (Task::Reach(1), Told::Done),
            (Task::Wait(2), Told::Done),
            (Task::Delete(b'a'), Told::Deleted),
            (Task::Reach(3), Told::Done),
        ],
        second: &[
            (Task::Wait(1), Told::Done),
            (Task::Search(b'a'), Told::Found(b'1')),
        ],
        buckets: 1,
        acts: 3,
        points: &[],
    };
    perform(&rt, rt.alloc(), scene)
}

/// The search has read the root, and is held until bucket 0 is split; then it goes on from there, and is held until an
/// insert has bucket 0.
const HELD_BEFORE_THE_NEXT_BUCKET: [Hold; 3] = [
    Hold {
        from: 0,
        point: Point::Read,
        to: 1,
        until: 2,
    },
    Hold {
        from: 2,
        point: Point::Released { bucket: 0 },
        to: 3,
        until: 4,
    },
    Hold {
        from: 3,
        point: Point::Holding { bucket: 0 },
        to: 4,
        until: 4,
    },
];

#[test]
fn a_bucket_that_a_call_has_left_is_free(rt: HostRuntime) -> Result<(), Fail> {
    let scene = Scene {
        capacity: 14,
        holds: &HELD_BEFORE_THE_NEXT_BUCKET,
        first: &[
            (Task::Wait(1), Told::Done),
            (Task::TryRight, FIRST_RIGHT),
            (Task::Split, Told::Done),
            (Task::Reach(2), Told::Done),
            (Task::Wait(3), Told::Done),
            (Task::Insert(b'a'), Told::Inserted),
        ],
        second: &[(Task::Search(b'b'), Told::Absent)],
        buckets: 2,
        acts: 2,
        points: &[],
    };
    perform(&rt, rt.alloc(), scene)
}
