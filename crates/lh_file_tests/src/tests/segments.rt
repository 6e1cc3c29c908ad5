//! Segments, each made by the first split that wants a bucket of it, or when the file is opened.
ghost use Rattle.std.specs.Prelude.{◌≡◌, IfOk, IfSome};
ghost use Rattle.lh_file.specs.FileState.{IsOf};

use super::turns::{Turn, perform_in_turn};
use lh_addr::Config;
use lh_bucket::Listing;
use lh_expect::{expect, expect_eq};
use lh_file::{Hand, HashFile, Memory, NoGate, Segment, parts};
use lh_stage::{FIRST_RIGHT, SECOND_RIGHT, THIRD_RIGHT, Task, Told, made, split_once};
use std::alloc::Global;
use std::sync::Wait;
use std::test::Fail;

/// Whether a note knows segment 2, which has buckets 2 and 3, of a file of one bucket: before each of three splits, and
/// after the last.
fn sights<R: Wait>(rt: &R, file: &HashFile<NoGate>, hand: &mut Hand) -> Option<[bool; 4]>
    requires { IsOf file.now.state hand.old }
{
    let mut note = parts::segment_note(file, 2);
    let new = parts::segment(file, &mut note, 2).is_some();
    if !split_once(rt, file, hand) {
        return None;
    }
    let first = parts::segment(file, &mut note, 2).is_some();
    if !split_once(rt, file, hand) {
        return None;
    }
    let second = parts::segment(file, &mut note, 2).is_some();
    if !split_once(rt, file, hand) {
        return None;
    }
    let third = parts::segment(file, &mut note, 2).is_some();
    Some([new, first, second, third])
}

#[test]
fn a_segment_is_seen_once_a_split_has_made_it(rt: HostRuntime) -> Result<(), Fail> {
    let config = Config::new(1, 14, 100, 65536)?;
    let (file, mut hand) = made(rt.alloc(), config, NoGate)?;
    let seen = sights(&rt, &file, &mut hand).ok_or("a split failed")?;
    expect_eq!(rt; seen, [false, false, true, true]);
    Ok(())
}

/// Segment 1 of a file of one bucket, as a note sees it after the first split and after the second: it is the same.
fn seen_twice<'a, R: Wait>(
    rt: &R,
    file: &'a HashFile<NoGate>,
    hand: &mut Hand,
) -> Option<(&'a Segment, &'a Segment)>
    requires { IsOf file.now.state hand.old }
    ensures { IfSome result (λ seen. seen.1.now ≡ seen.0.now) }
{
    let mut note = parts::segment_note(file, 1);
    if !split_once(rt, file, hand) {
        return None;
    }
    let first = parts::segment(file, &mut note, 1)?;
    if !split_once(rt, file, hand) {
        return None;
    }
    let second = parts::segment(file, &mut note, 1)?;
    Some((first, second))
}

#[test]
fn a_segment_stays_the_same(rt: HostRuntime) -> Result<(), Fail> {
    let config = Config::new(1, 14, 100, 65536)?;
    let (file, mut hand) = made(rt.alloc(), config, NoGate)?;
    expect!(&rt, seen_twice(&rt, &file, &mut hand).is_some());
    Ok(())
}

/// A file with the buckets of a listing, and its first hand.
fn opened(alloc: Global, listing: &Listing) -> Result<(HashFile<NoGate>, Hand), Memory>
    ensures { IfOk result (λ made. IsOf made.0.state made.1) }
{
    HashFile::open_from(alloc, listing, true, NoGate)
}

/// Three buckets with no records.
fn three_buckets(alloc: Global) -> Result<Listing, Fail> {
    let mut lists = Vec::new(alloc);
    for _bucket in 0..3 {
        lists.push(Vec::new(alloc))?;
    }
    Ok(Listing::new(alloc, Config::new(1, 14, 100, 65536)?, 3, lists)?)
}

/// Segment 2 is there with its first bucket, and the split that fills its second one meets it.
#[test]
fn an_opened_file_has_the_segments_of_its_buckets(rt: HostRuntime) -> Result<(), Fail> {
    let listing = three_buckets(rt.alloc())?;
    let (file, mut hand) = opened(rt.alloc(), &listing)?;
    let seen = sights(&rt, &file, &mut hand).ok_or("a split failed")?;
    expect_eq!(rt; seen, [true, true, true, true]);
    Ok(())
}

/// The second split makes segment 2, and moves the record to its first bucket. The third split meets the segment.
const INTO_ONE_SEGMENT: [Turn; 10] = [
    (1, Task::Insert(b'c'), Told::Inserted),
    (1, Task::TryRight, FIRST_RIGHT),
    (1, Task::Split, Told::Done),
    (1, Task::TryRight, SECOND_RIGHT),
    (1, Task::Split, Told::Done),
    (2, Task::Replace(b'c'), Told::Replaced),
    (1, Task::TryRight, THIRD_RIGHT),
    (1, Task::Split, Told::Done),
    (2, Task::Buckets, Told::Number(4)),
    (2, Task::Search(b'c'), Told::Found(b'2')),
];

/// The segment isn't made again: its first bucket has its record.
#[test]
fn a_split_keeps_the_segment_that_it_meets(rt: HostRuntime) -> Result<(), Fail> {
    perform_in_turn(&rt, rt.alloc(), 65536, &INTO_ONE_SEGMENT, Ok(3))
}
