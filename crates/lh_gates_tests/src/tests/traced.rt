//! Traced files, whose calls stand at the points at which those of untraced ones stand.
ghost use Rattle.std.specs.Prelude.{◌≡◌, true};
ghost use Rattle.lh_file.specs.Buckets.Brands.{IsBrandOf};

use super::play::work;
use super::stage::{Log, Stage};
use lh_addr::Config;
use lh_bucket::Listing;
use lh_expect::{expect, expect_eq};
use lh_file::{FileBrand, Opening, Point};
use lh_stage::{Progress, SECOND_RIGHT, Task, Told, made};
use std::marker::Brand;
use std::sync::Wait;
use std::test::Fail;

/// Three inserts, a call of each other kind by the second letter, one that misses it, and a split.
const CALLS: [(Task, Told); 9] = [
    (Task::Insert(b'a'), Told::Inserted),
    (Task::Insert(b'b'), Told::Inserted),
    (Task::Insert(b'c'), Told::Inserted),
    (Task::Search(b'b'), Told::Found(b'1')),
    (Task::Replace(b'b'), Told::Replaced),
    (Task::Delete(b'b'), Told::Deleted),
    (Task::Search(b'b'), Told::Absent),
    (Task::TryRight, SECOND_RIGHT),
    (Task::Split, Told::Done),
];

/// The first answer to those calls that is not due, in a file that is being opened.
fn told_of<J: FileBrand, R: Wait>(
    rt: &R,
    opening: Opening<'_, Stage<'_>>,
    progress: &Progress,
) -> Option<Option<Told>>
    requires { IsBrandOf true J.named J.tables opening }
{
    let (file, hand) = opening.file::<J>().ok()?;
    Some(work(rt, &file, progress, hand, &CALLS).wrong)
}

/// The points of those calls. A record with the second letter goes to bucket 1 with the first split.
const POINTS: [Point; 34] = [
    Point::Read,
    Point::Holding { bucket: 0 },
    Point::Acted { bucket: 0 },
    Point::Released { bucket: 0 },
    Point::Read,
    Point::Holding { bucket: 0 },
    Point::Acted { bucket: 0 },
    Point::Released { bucket: 0 },
    Point::Read,
    Point::Holding { bucket: 0 },
    Point::Acted { bucket: 0 },
    Point::Released { bucket: 0 },
    Point::RightGot,
    Point::Moved { old: 0, new: 1 },
    Point::Pointed { buckets: 2 },
    Point::Read,
    Point::Holding { bucket: 1 },
    Point::Acted { bucket: 1 },
    Point::Released { bucket: 1 },
    Point::Read,
    Point::Holding { bucket: 1 },
    Point::Acted { bucket: 1 },
    Point::Released { bucket: 1 },
    Point::Read,
    Point::Holding { bucket: 1 },
    Point::Acted { bucket: 1 },
    Point::Released { bucket: 1 },
    Point::Read,
    Point::Holding { bucket: 1 },
    Point::Acted { bucket: 1 },
    Point::Released { bucket: 1 },
    Point::RightGot,
    Point::Moved { old: 0, new: 2 },
    Point::Pointed { buckets: 3 },
];

#[test]
fn calls_of_an_untraced_file_pass_these_points(rt: HostRuntime) -> Result<(), Fail> {
    let (progress, log) = (Progress::new(), Log::new());
    let gate = Stage {
        holds: &[],
        progress: &progress,
        log: &log,
    };
    let (file, hand) = made(rt.alloc(), Config::new(1, 2, 100, 65536)?, gate)?;
    expect_eq!(&rt, work(&rt, &file, &progress, hand, &CALLS).wrong, None);
    expect!(&rt, log.is_just(&POINTS));
    Ok(())
}

#[test]
fn calls_of_a_traced_file_pass_the_same_points(rt: HostRuntime) -> Result<(), Fail> {
    let (progress, log) = (Progress::new(), Log::new());
    let gate = Stage {
        holds: &[],
        progress: &progress,
        log: &log,
    };
    let listing = Listing::empty(rt.alloc(), Config::new(1, 2, 100, 65536)?)?;
    let opening = Opening::of(rt.alloc(), &listing, true, gate)?;
    assert_eq!(rt; told_of::<Brand, _>(&rt, opening, &progress), Some(None));
    expect!(&rt, log.is_just(&POINTS));
    Ok(())
}
