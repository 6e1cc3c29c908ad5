//! Snapshots, and images of them.
ghost use Rattle.lh_file.specs.FileState.{IsOf};

use super::calls::works_on;
use super::scene::{ONE_BUCKET, Scene, perform};
use super::tasks::Task;
use lh_bucket::Listing;
use lh_file::{Closed, FileBrand, Gate, Hand, HashFile, Mode};
use lh_image::{read_image, write_image};
use lh_stage::{REFUSED, Told};
use std::alloc::Global;
use std::sync::Wait;
use std::test::Fail;

/// Takes a snapshot and keeps it. The hand has its calls and its right as before.
fn keep_once<G: Gate, M: Mode, J: FileBrand, R: Wait>(
    rt: &R,
    file: &HashFile<G, M, J>,
    hand: &mut Hand,
    taken: &mut Vec<Closed>,
) -> Told
    requires { IsOf file.now.state hand.old }
    ensures { IsOf file.now.state hand.new }
{
    let (left, right) = (hand.left(), hand.has_right());
    let snapshot = file.snapshot(rt, hand);
    if hand.left() != left || hand.has_right() != right {
        return Told::Wrong;
    }
    match snapshot {
        Ok(snapshot) => match taken.push(snapshot) {
            Ok(()) => Told::Done,
            Err(_) => REFUSED,
        },
        Err(fault) => Told::Fault(fault),
    }
}

/// Takes a snapshot and keeps it, and once more where memory was refused: the file works on then, and no stamp was
/// drawn.
pub(crate) fn keep_snapshot<G: Gate, M: Mode, J: FileBrand, R: Wait>(
    rt: &R,
    file: &HashFile<G, M, J>,
    hand: &mut Hand,
    taken: &mut Vec<Closed>,
) -> Told
    requires { IsOf file.now.state hand.old }
    ensures { IsOf file.now.state hand.new }
{
    let acts = file.told(hand);
    let told = keep_once(rt, file, hand, taken);
    if told != REFUSED {
        return told;
    }
    if file.told(hand) != acts || !works_on(rt, file, hand) {
        return Told::Wrong;
    }
    keep_once(rt, file, hand, taken)
}

/// Whether two listings have the same records in the same buckets.
fn is_same(first: &Listing, second: &Listing) -> bool {
    let buckets = first.buckets();
    if second.buckets() != buckets || first.config() != second.config() {
        return false;
    }
    for bucket in 0..buckets {
        if first.pairs_of(bucket) != second.pairs_of(bucket) {
            return false;
        }
    }
    true
}

/// A listing that was written as an image and read back from it.
fn read_back(alloc: Global, listing: &Listing) -> Option<Listing> {
    let mut bytes = Vec::new(alloc);
    write_image(listing, &mut bytes).ok()?;
    read_image(alloc, &mut bytes.as_slice()).ok()
}

/// Writes the image of a snapshot, and reads it back: how many records it has, if they are those of the snapshot.
pub(crate) fn image<G: Gate, M: Mode, J: FileBrand, R: Wait>(
    rt: &R,
    alloc: Global,
    file: &HashFile<G, M, J>,
    hand: &mut Hand,
) -> Told
    requires { IsOf file.now.state hand.old }
    ensures { IsOf file.now.state hand.new }
{
    let Ok(snapshot) = file.snapshot(rt, hand) else {
        return Told::Wrong;
    };
    let listing = snapshot.into_known_listing();
    match read_back(alloc, &listing) {
        Some(read) if is_same(&listing, &read) => Told::Number(read.len()),
        _ => Told::Wrong,
    }
}

/// An image is written before and after two splits and an insert.
const TWO_IMAGES: Scene = Scene {
    first: &[
        (Task::Fill, Told::Done),
        (Task::Image, Told::Number(8)),
        (Task::Grow(2), Told::Done),
        (Task::Insert(b'i'), Told::Inserted),
        (Task::Image, Told::Number(9)),
        (Task::WorksOn, Told::Done),
    ],
    ..ONE_BUCKET
};

#[test]
fn an_image_of_a_running_file(rt: HostRuntime) -> Result<(), Fail> {
    perform(&rt, rt.alloc(), &TWO_IMAGES)
}

/// After a snapshot each bucket is searched and written to, and one is split.
const WORKING_ON: Scene = Scene {
    settings: [4, 14, 100, 65536],
    first: &[
        (Task::Fill, Told::Done),
        (Task::Grow(4), Told::Done),
        (Task::Snapshot, Told::Done),
        (Task::WorksOn, Told::Done),
        (Task::Grow(1), Told::Done),
        (Task::Snapshot, Told::Done),
        (Task::WorksOn, Told::Done),
    ],
    taken: &[
        &[b"e1", b"f1", b"c1", b"d1", b"a1", b"b1", b"g1", b"h1"],
        &[b"e2", b"f2", b"c2", b"d2", b"a2", b"b2", b"g2", b"h2", b""],
    ],
    ..ONE_BUCKET
};

#[test]
fn a_file_works_on_after_a_snapshot(rt: HostRuntime) -> Result<(), Fail> {
    perform(&rt, rt.alloc(), &WORKING_ON)
}
