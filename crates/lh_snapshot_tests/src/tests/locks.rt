//! What locks a call holds, and which of them it shares.

use super::scene::{ONE_BUCKET, Scene, perform};
use super::stage::Rest;
use super::tasks::{Task, Tasks};
use lh_file::Point;
use lh_stage::{Hold, Told};
use std::test::Fail;

/// Nine letters go to nine buckets of sixteen. Each insert has the lock of its bucket, and is held until all nine have
/// theirs.
const NINE_HELD: [Hold; 9] = [
    Hold {
        from: 0,
        point: Point::Holding { bucket: 12 },
        to: 1,
        until: 9,
    },
    Hold {
        from: 1,
        point: Point::Holding { bucket: 5 },
        to: 2,
        until: 9,
    },
    Hold {
        from: 2,
        point: Point::Holding { bucket: 2 },
        to: 3,
        until: 9,
    },
    Hold {
        from: 3,
        point: Point::Holding { bucket: 3 },
        to: 4,
        until: 9,
    },
    Hold {
        from: 4,
        point: Point::Holding { bucket: 0 },
        to: 5,
        until: 9,
    },
    Hold {
        from: 5,
        point: Point::Holding { bucket: 9 },
        to: 6,
        until: 9,
    },
    Hold {
        from: 6,
        point: Point::Holding { bucket: 6 },
        to: 7,
        until: 9,
    },
    Hold {
        from: 7,
        point: Point::Holding { bucket: 7 },
        to: 8,
        until: 9,
    },
    Hold {
        from: 8,
        point: Point::Holding { bucket: 4 },
        to: 9,
        until: 9,
    },
];

const NINE_WRITERS: Scene = Scene {
    settings: [16, 14, 100, 65536],
    holds: &NINE_HELD,
    first: &[],
    hands: &[
        &[(Task::Insert(b'a'), Told::Inserted)],
        &[
            (Task::Wait(1), Told::Done),
            (Task::Insert(b'b'), Told::Inserted),
        ],
        &[
            (Task::Wait(2), Told::Done),
            (Task::Insert(b'c'), Told::Inserted),
        ],
        &[
            (Task::Wait(3), Told::Done),
            (Task::Insert(b'd'), Told::Inserted),
        ],
        &[
            (Task::Wait(4), Told::Done),
            (Task::Insert(b'e'), Told::Inserted),
        ],
        &[
            (Task::Wait(5), Told::Done),
            (Task::Insert(b'f'), Told::Inserted),
        ],
        &[
            (Task::Wait(6), Told::Done),
            (Task::Insert(b'g'), Told::Inserted),
        ],
        &[
            (Task::Wait(7), Told::Done),
            (Task::Insert(b'h'), Told::Inserted),
        ],
        &[
            (Task::Wait(8), Told::Done),
            (Task::Insert(b'i'), Told::Inserted),
        ],
    ],
    ..ONE_BUCKET
};

#[test]
fn nine_writers_hold_nine_buckets(rt: HostRuntime) -> Result<(), Fail> {
    perform(&rt, rt.alloc(), &NINE_WRITERS)
}

/// Each of two searches has the lock of the same bucket, and is held until both have it.
const BOTH_HELD: [Hold; 2] = [
    Hold {
        from: 0,
        point: Point::Holding { bucket: 0 },
        to: 1,
        until: 2,
    },
    Hold {
        from: 1,
        point: Point::Holding { bucket: 0 },
        to: 2,
        until: 2,
    },
];

const TWO_SEARCHES: Scene = Scene {
    holds: &BOTH_HELD,
    first: &[],
    hands: &[
        &[(Task::Search(b'a'), Told::Absent)],
        &[
            (Task::Wait(1), Told::Done),
            (Task::Search(b'b'), Told::Absent),
        ],
    ],
    ..ONE_BUCKET
};

/// The first search has looked, and is held until the second one has.
const BOTH_HAVE_LOOKED: [Hold; 2] = [
    Hold {
        from: 0,
        point: Point::Acted { bucket: 0 },
        to: 1,
        until: 2,
    },
    Hold {
        from: 1,
        point: Point::Acted { bucket: 0 },
        to: 2,
        until: 2,
    },
];

const TWO_SEARCHES_THAT_LOOKED: Scene = Scene {
    holds: &BOTH_HAVE_LOOKED,
    ..TWO_SEARCHES
};

#[test]
fn two_searches_hold_one_bucket(rt: HostRuntime) -> Result<(), Fail> {
    perform(&rt, rt.alloc(), &TWO_SEARCHES)?;
    perform(&rt, rt.alloc(), &TWO_SEARCHES_THAT_LOOKED)
}

/// The first call is served, and is held until the second one has begun. That doesn't get the bucket while the first
/// one is held.
const HELD_AT_ITS_ACT: [Hold; 3] = [
    Hold {
        from: 1,
        point: Point::Acted { bucket: 0 },
        to: 2,
        until: 3,
    },
    Hold {
        from: 2,
        point: Point::Read,
        to: 3,
        until: 3,
    },
    Hold {
        from: 3,
        point: Point::Holding { bucket: 0 },
        to: 4,
        until: 4,
    },
];

const TWO_WRITES: Scene = Scene {
    holds: &HELD_AT_ITS_ACT,
    rest: Some(Rest { from: 1, not: 4 }),
    hands: &[
        &[
            (Task::Reach(1), Told::Done),
            (Task::Replace(b'a'), Told::Replaced),
        ],
        &[
            (Task::Wait(2), Told::Done),
            (Task::Delete(b'a'), Told::Deleted),
        ],
    ],
    ..ONE_BUCKET
};

const WRITE_AND_SEARCH: Scene = Scene {
    hands: &[
        &[
            (Task::Reach(1), Told::Done),
            (Task::Replace(b'a'), Told::Replaced),
        ],
        &[
            (Task::Wait(2), Told::Done),
            (Task::Search(b'a'), Told::Found(b'2')),
        ],
    ],
    ..TWO_WRITES
};

const SEARCH_AND_WRITE: Scene = Scene {
    hands: &[
        &[
            (Task::Reach(1), Told::Done),
            (Task::Search(b'a'), Told::Found(b'1')),
        ],
        &[
            (Task::Wait(2), Told::Done),
            (Task::Insert(b'i'), Told::Inserted),
        ],
    ],
    ..TWO_WRITES
};

#[test]
fn a_call_has_its_bucket_until_after_its_act(rt: HostRuntime) -> Result<(), Fail> {
    perform(&rt, rt.alloc(), &TWO_WRITES)?;
    perform(&rt, rt.alloc(), &WRITE_AND_SEARCH)?;
    perform(&rt, rt.alloc(), &SEARCH_AND_WRITE)
}

/// The first call has read the size, and is held until bucket 0 is split and another hand has bucket 1; then it goes on
/// from bucket 0, and waits for bucket 1.
const HELD_UNTIL_BUCKET_1_IS_TAKEN: [Hold; 3] = [
    Hold {
        from: 1,
        point: Point::Read,
        to: 2,
        until: 4,
    },
    Hold {
        from: 3,
        point: Point::Holding { bucket: 1 },
        to: 4,
        until: 6,
    },
    Hold {
        from: 4,
        point: Point::Released { bucket: 0 },
        to: 5,
        until: 5,
    },
];

const GROWS_THEN_WRITES_TO_BUCKET_0: Tasks = &[
    (Task::Wait(2), Told::Done),
    (Task::Grow(1), Told::Done),
    (Task::Reach(3), Told::Done),
    (Task::Wait(5), Told::Done),
    (Task::Rest(6), Told::Done),
    (Task::Replace(b'a'), Told::Replaced),
    (Task::Reach(6), Told::Done),
];

const TAKES_BUCKET_1: Tasks = &[
    (Task::Wait(3), Told::Done),
    (Task::Replace(b'b'), Told::Replaced),
];

/// Bucket 0 is written to meanwhile.
const SEARCH_FOR_BUCKET_1: Scene = Scene {
    holds: &HELD_UNTIL_BUCKET_1_IS_TAKEN,
    hands: &[
        &[
            (Task::Reach(1), Told::Done),
            (Task::Search(b'b'), Told::Found(b'2')),
        ],
        GROWS_THEN_WRITES_TO_BUCKET_0,
        TAKES_BUCKET_1,
    ],
    ..ONE_BUCKET
};

const WRITE_FOR_BUCKET_1: Scene = Scene {
    hands: &[
        &[
            (Task::Reach(1), Told::Done),
            (Task::Replace(b'b'), Told::Replaced),
        ],
        GROWS_THEN_WRITES_TO_BUCKET_0,
        TAKES_BUCKET_1,
    ],
    ..SEARCH_FOR_BUCKET_1
};

#[test]
fn a_call_that_waits_for_its_next_bucket_holds_none(rt: HostRuntime) -> Result<(), Fail> {
    perform(&rt, rt.alloc(), &SEARCH_FOR_BUCKET_1)?;
    perform(&rt, rt.alloc(), &WRITE_FOR_BUCKET_1)
}
