//! The calls of a file, one hand after another.

use super::turns::{Turn, perform_in_turn, play_in_turn};
use lh_addr::Config;
use lh_bucket::Listing;
use lh_expect::expect_eq;
use lh_file::{FileFault, HashFile, NoGate, Right, SettleFault};
use lh_stage::{BUSY, FIRST_RIGHT, FOURTH_RIGHT, SECOND_RIGHT, THIRD_RIGHT, Task, Told};
use std::test::Fail;

const SEEN_BY_BOTH: [Turn; 8] = [
    (1, Task::TryRight, FIRST_RIGHT),
    (1, Task::Split, Told::Done),
    (2, Task::Buckets, Told::Number(2)),
    (1, Task::Insert(b'a'), Told::Inserted),
    (2, Task::Inserted, Told::Number(1)),
    (2, Task::Search(b'a'), Told::Found(b'1')),
    (2, Task::Delete(b'a'), Told::Deleted),
    (1, Task::Search(b'a'), Told::Absent),
];

#[test]
fn two_hands_see_one_file(rt: HostRuntime) -> Result<(), Fail> {
    perform_in_turn(&rt, rt.alloc(), 65536, &SEEN_BY_BOTH, Ok(4))
}

/// A replace that misses its key adds nothing; one that meets it leaves its value, and neither count.
const REPLACES: [Turn; 9] = [
    (1, Task::Replace(b'a'), Told::Absent),
    (1, Task::Search(b'a'), Told::Absent),
    (2, Task::Insert(b'a'), Told::Inserted),
    (2, Task::Search(b'a'), Told::Found(b'1')),
    (1, Task::Replace(b'a'), Told::Replaced),
    (2, Task::Search(b'a'), Told::Found(b'2')),
    (2, Task::Replace(b'b'), Told::Absent),
    (2, Task::Inserted, Told::Number(1)),
    (2, Task::Deleted, Told::Number(0)),
];

#[test]
fn a_replace_gives_a_key_that_is_there_its_value(rt: HostRuntime) -> Result<(), Fail> {
    perform_in_turn(&rt, rt.alloc(), 65536, &REPLACES, Ok(7))
}

/// The load asks for a split while the first hand has the right. Once that is free the replace leaves the
/// file as large as it is, and the next insert splits it.
const PAST_THE_LOAD: [Turn; 9] = [
    (1, Task::TryRight, FIRST_RIGHT),
    (2, Task::Insert(b'a'), Told::Inserted),
    (2, Task::Insert(b'b'), Told::Inserted),
    (2, Task::Insert(b'c'), Told::Inserted),
    (1, Task::DropRight, Told::Done),
    (2, Task::Replace(b'a'), Told::Replaced),
    (2, Task::Buckets, Told::Number(1)),
    (2, Task::Insert(b'd'), Told::Inserted),
    (2, Task::Buckets, Told::Number(2)),
];

#[test]
fn a_replace_asks_for_no_split(rt: HostRuntime) -> Result<(), Fail> {
    let listing = Listing::empty(rt.alloc(), Config::new(1, 1, 100, 65536)?)?;
    let ended = play_in_turn(&rt, rt.alloc(), &listing, &PAST_THE_LOAD).ok_or("no memory")?;
    expect_eq!(rt; ended.wrong, None);
    expect_eq!(&rt, ended.closed.buckets(), 2);
    expect_eq!(rt; ended.settled, Ok(5));
    Ok(())
}

/// The load asks for more splits than one. Neither a search, a delete, nor an insert of a key that is there asks for
/// one, and an insert makes one at most.
const ONE_SPLIT_AN_INSERT: [Turn; 15] = [
    (1, Task::TryRight, FIRST_RIGHT),
    (2, Task::Insert(b'a'), Told::Inserted),
    (2, Task::Insert(b'b'), Told::Inserted),
    (2, Task::Insert(b'c'), Told::Inserted),
    (2, Task::Insert(b'd'), Told::Inserted),
    (1, Task::DropRight, Told::Done),
    (2, Task::Search(b'a'), Told::Found(b'1')),
    (2, Task::Buckets, Told::Number(1)),
    (2, Task::Insert(b'a'), Told::Exists),
    (2, Task::Buckets, Told::Number(1)),
    (2, Task::Delete(b'a'), Told::Deleted),
    (2, Task::Buckets, Told::Number(1)),
    (2, Task::Insert(b'a'), Told::Inserted),
    (2, Task::Buckets, Told::Number(2)),
    (1, Task::Buckets, Told::Number(2)),
];

#[test]
fn an_insert_makes_one_split_at_most(rt: HostRuntime) -> Result<(), Fail> {
    let listing = Listing::empty(rt.alloc(), Config::new(1, 1, 100, 65536)?)?;
    let ended = play_in_turn(&rt, rt.alloc(), &listing, &ONE_SPLIT_AN_INSERT).ok_or("no memory")?;
    expect_eq!(rt; ended.wrong, None);
    expect_eq!(rt; ended.settled, Ok(8));
    Ok(())
}

/// A record that was deleted is none that the load counts.
const DELETED_IN_TURN: [Turn; 9] = [
    (1, Task::Insert(b'a'), Told::Inserted),
    (1, Task::Delete(b'a'), Told::Deleted),
    (1, Task::Insert(b'b'), Told::Inserted),
    (2, Task::Delete(b'b'), Told::Deleted),
    (2, Task::Insert(b'c'), Told::Inserted),
    (2, Task::Deleted, Told::Number(2)),
    (2, Task::Buckets, Told::Number(1)),
    (2, Task::Insert(b'd'), Told::Inserted),
    (2, Task::Buckets, Told::Number(2)),
];

#[test]
fn a_deleted_record_asks_for_no_split(rt: HostRuntime) -> Result<(), Fail> {
    let listing = Listing::empty(rt.alloc(), Config::new(1, 1, 100, 65536)?)?;
    let ended = play_in_turn(&rt, rt.alloc(), &listing, &DELETED_IN_TURN).ok_or("no memory")?;
    expect_eq!(rt; ended.wrong, None);
    expect_eq!(rt; ended.settled, Ok(6));
    Ok(())
}

const RIGHT_OF_ONE: [Turn; 4] = [
    (1, Task::TryRight, FIRST_RIGHT),
    (2, Task::TryRight, BUSY),
    (1, Task::DropRight, Told::Done),
    (2, Task::TryRight, FIRST_RIGHT),
];

#[test]
fn one_hand_has_the_right(rt: HostRuntime) -> Result<(), Fail> {
    let open = Err(SettleFault::SplitUnderWay);
    perform_in_turn(&rt, rt.alloc(), 65536, &RIGHT_OF_ONE, open)
}

const FOUR_SPLITS: [Turn; 10] = [
    (1, Task::TryRight, FIRST_RIGHT),
    (1, Task::Split, Told::Done),
    (1, Task::TryRight, SECOND_RIGHT),
    (1, Task::Split, Told::Done),
    (1, Task::TryRight, THIRD_RIGHT),
    (1, Task::Split, Told::Done),
    (1, Task::TryRight, FOURTH_RIGHT),
    (1, Task::Split, Told::Done),
    (1, Task::Buckets, Told::Number(5)),
    (1, Task::TryRight, Told::Right(Right::Full)),
];

#[test]
fn a_file_splits_up_to_its_greatest_size(rt: HostRuntime) -> Result<(), Fail> {
    perform_in_turn(&rt, rt.alloc(), 5, &FOUR_SPLITS, Ok(0))
}

#[test]
fn a_full_file_gives_no_right(rt: HostRuntime) -> Result<(), Fail> {
    let full = [(1, Task::TryRight, Told::Right(Right::Full))];
    perform_in_turn(&rt, rt.alloc(), 1, &full, Ok(0))
}

#[test]
fn a_hand_gives_no_more_calls_than_it_has(rt: HostRuntime) -> Result<(), Fail> {
    let config = Config::new(1, 14, 100, 5)?;
    let (file, mut first) = HashFile::create(rt.alloc(), config, false, NoGate)?;
    let mut second = file.split_hand(&mut first, 10)?;
    let refused = file.split_hand(&mut second, 11).err();
    expect_eq!(rt; refused, Some(FileFault::Spent { left: 10 }));
    expect_eq!(&rt, second.left(), 10);
    Ok(())
}

/// The second hand may make ten calls.
const ELEVEN_CALLS: [Turn; 11] = [
    (2, Task::Insert(b'a'), Told::Inserted),
    (2, Task::Insert(b'a'), Told::Exists),
    (2, Task::Insert(b'a'), Told::Exists),
    (2, Task::Insert(b'a'), Told::Exists),
    (2, Task::Insert(b'a'), Told::Exists),
    (2, Task::Insert(b'a'), Told::Exists),
    (2, Task::Insert(b'a'), Told::Exists),
    (2, Task::Insert(b'a'), Told::Exists),
    (2, Task::Insert(b'a'), Told::Exists),
    (2, Task::Insert(b'a'), Told::Exists),
    (
        2,
        Task::Insert(b'a'),
        Told::Fault(FileFault::Spent { left: 0 }),
    ),
];

#[test]
fn a_spent_hand_makes_no_calls(rt: HostRuntime) -> Result<(), Fail> {
    perform_in_turn(&rt, rt.alloc(), 1, &ELEVEN_CALLS, Ok(10))
}
