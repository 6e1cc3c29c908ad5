//! Hands of one thread: the right to split, sizes, acts and their counts, and running out of memory.
ghost use Rattle.std.specs.Prelude.{◌≡◌, ◌≤◌, true, IfOk, OnOk};
ghost use Rattle.lh_file.specs.FileState.{IsOf};

use lh_addr::Config;
use lh_bucket::{Call, Listing, Reply};
use lh_expect::{expect, expect_eq};
use lh_file::{ActLine, Acts, FileFault, Hand, HashFile, Load, NoGate, Right, parts};
use lh_page::{Key, Value};
use lh_stage::{file_of, join_again, split_once};
use std::alloc::Global;
use std::process::Abort;
use std::sync::Wait;
use std::test::Fail;

fn insert(key: &[u8]) -> Result<Call, Fail> {
    Ok(Call::Insert(Key::new(key)?, Value::new(b"1")?))
}

fn delete(key: &[u8]) -> Result<Call, Fail> {
    Ok(Call::Delete(Key::new(key)?))
}

fn replace(key: &[u8]) -> Result<Call, Fail> {
    Ok(Call::Replace(Key::new(key)?, Value::new(b"2")?))
}

/// Makes room for an act, which may be refused once: then the hand is as it was.
fn make_room(rt: &impl Abort, file: &HashFile<NoGate>, hand: &mut Hand) -> Result<(), Fail>
    requires { IsOf file.now.state hand.old }
    ensures of { IsOf file.now.state hand.new }
    ensures room { OnOk result (file.now.state.recording ≡ true → 1 ≤ hand.new.room) }
{
    let left = hand.left();
    if parts::make_room(file, hand).is_err() {
        expect_eq!(rt; hand.left(), left);
        parts::make_room(file, hand)?;
    }
    Ok(())
}

/// Makes a call.
fn call<R: Wait>(
    rt: &R,
    file: &HashFile<NoGate>,
    hand: &mut Hand,
    call: &Call,
) -> Result<Reply, FileFault>
    requires { IsOf file.now.state hand.old }
    ensures { IsOf file.now.state hand.new }
{
    let answer = match *call {
        Call::Insert(key, value) => file.insert(rt, hand, key, value),
        Call::Search(key) => file.search(rt, hand, key),
        Call::Delete(key) => file.delete(rt, hand, key),
        Call::Replace(key, value) => file.replace(rt, hand, key, value),
    };
    Ok(answer?.reply())
}

/// Makes a call that takes one of those that the hand has left, and which may be refused once: then the hand has as
/// many as before.
fn note<R: Wait + Abort>(
    rt: &R,
    file: &HashFile<NoGate>,
    hand: &mut Hand,
    change: &Call,
) -> Result<Reply, Fail>
    requires { IsOf file.now.state hand.old }
    ensures { IsOf file.now.state hand.new }
{
    make_room(rt, file, hand)?;
    let left = hand.left();
    let reply = match call(rt, file, hand, change) {
        Err(FileFault::Memory) => {
            expect_eq!(rt; hand.left(), left);
            call(rt, file, hand, change)?
        }
        answer => answer?,
    };
    expect_eq!(rt, hand.left(), left.wrapping_sub(1));
    Ok(reply)
}

/// The answers to two hands that ask for the right: the first, the second, and the first again, and once
/// the first has dropped it, the second.
fn rights(file: &HashFile<NoGate>, first: &mut Hand, second: &mut Hand) -> [Right; 4]
    requires first { IsOf file.now.state first.old }
    requires second { IsOf file.now.state second.old }
    ensures first { IsOf file.now.state first.new }
    ensures second { IsOf file.now.state second.new }
{
    let got = file.try_split_right(first);
    let busy = file.try_split_right(second);
    let still = file.try_split_right(first);
    if first.has_right() {
        file.drop_right(first);
    }
    [got, busy, still, file.try_split_right(second)]
}

#[test]
fn one_hand_at_a_time_has_the_right(rt: HostRuntime) -> Result<(), Fail> {
    let (file, mut first) = file_of(rt.alloc(), 65536)?;
    let mut second = file.split_hand(&mut first, 10)?;
    let told = rights(&file, &mut first, &mut second);
    let got = Right::Got { old: 0, new: 1 };
    let busy = Right::Busy { seen: 3 };
    expect_eq!(rt; told, [got, busy, busy, got]);
    expect_eq!(&rt, (first.has_right(), second.has_right()), (false, true));
    Ok(())
}

/// All hands of a file in one, which got the right before.
fn joined_with_the_right(
    rt: &impl Abort,
    file: &HashFile<NoGate>,
    mut first: Hand,
) -> Result<Hand, Fail>
    requires { IsOf file.now.state first }
    ensures { IfOk result (IsOf file.now.state) }
{
    let second = file.split_hand(&mut first, 10)?;
    file.try_split_right(&mut first);
    let mut all = join_again(file, first, second)?;
    expect!(rt, all.has_right());
    let load = file.load(&mut all);
    expect_eq!(rt, (load.inserted, load.deleted), (0, 0));
    Ok(all)
}

#[test]
fn a_file_is_closed_with_the_right(rt: HostRuntime) -> Result<(), Fail> {
    let (file, first) = file_of(rt.alloc(), 65536)?;
    let all = joined_with_the_right(&rt, &file, first)?;
    let (closed, acts) = file.close(&rt, all)?;
    expect_eq!(
        &rt,
        (closed.buckets(), closed.split_open(), closed.stamps()),
        (1, true, 0)
    );
    expect_eq!(&rt, acts.len(), 0);
    Ok(())
}

#[test]
fn a_full_file_gives_no_right(rt: HostRuntime) -> Result<(), Fail> {
    let (file, mut hand) = file_of(rt.alloc(), 1)?;
    expect_eq!(&rt, file.try_split_right(&mut hand), Right::Full);
    expect!(&rt, !hand.has_right());
    expect_eq!(&rt, file.buckets(&mut hand), 1);
    Ok(())
}

/// Three splits of a file that began with one bucket.
fn split_thrice<R: Wait + Abort>(
    rt: &R,
    file: &HashFile<NoGate>,
    hand: &mut Hand,
) -> Result<(), Fail>
    requires { IsOf file.now.state hand.old }
    ensures { IsOf file.now.state hand.new }
{
    for (old, new) in [(0, 1), (0, 2), (1, 3)] {
        expect_eq!(rt, file.try_split_right(hand), Right::Got { old, new });
        expect!(rt, hand.has_right());
        file.split(rt, hand)?;
        expect_eq!(rt, file.buckets(hand), new + 1);
    }
    Ok(())
}

#[test]
fn the_pointer_goes_on(rt: HostRuntime) -> Result<(), Fail> {
    let (file, mut hand) = file_of(rt.alloc(), 4)?;
    split_thrice(&rt, &file, &mut hand)?;
    expect_eq!(&rt, file.try_split_right(&mut hand), Right::Full);
    Ok(())
}

/// Divides a hand in three: gives 10 of its calls to a second, which is refused 11 for a third and then
/// gives all its 10. Answers the refusal, how many calls the second had after it, and how many each has in
/// the end.
fn divided(
    file: &HashFile<NoGate>,
    first: &mut Hand,
) -> Result<(Option<FileFault>, u64, [u64; 3]), FileFault>
    requires { IsOf file.now.state first.old }
    ensures { IsOf file.now.state first.new }
{
    let mut second = file.split_hand(first, 10)?;
    let refused = file.split_hand(&mut second, 11).err();
    let kept = second.left();
    let third = file.split_hand(&mut second, 10)?;
    Ok((refused, kept, [first.left(), second.left(), third.left()]))
}

#[test]
fn a_hand_gives_no_more_than_it_has(rt: HostRuntime) -> Result<(), Fail> {
    let (file, mut first) = file_of(rt.alloc(), 8)?;
    let (refused, kept, left) = divided(&file, &mut first)?;
    expect_eq!(rt; refused, Some(FileFault::Spent { left: 10 }));
    expect_eq!(&rt, (kept, left), (10, [(1 << 63) - 10, 0, 10]));
    Ok(())
}

/// What a second hand sees of what the first does: the size after a split, and an insert.
fn seen_by_second<R: Wait + Abort>(
    rt: &R,
    file: &HashFile<NoGate>,
    first: &mut Hand,
    second: &mut Hand,
) -> Result<(u32, Load), Fail>
    requires first { IsOf file.now.state first.old }
    requires second { IsOf file.now.state second.old }
{
    split_once(rt, file, first);
    let size = file.buckets(second);
    note(rt, file, first, &insert(b"a")?)?;
    Ok((size, file.load(second)))
}

#[test]
fn hands_see_what_others_did(rt: HostRuntime) -> Result<(), Fail> {
    let (file, mut first) = file_of(rt.alloc(), 8)?;
    let mut second = file.split_hand(&mut first, 10)?;
    let load = Load {
        opening: 0,
        inserted: 1,
        deleted: 0,
    };
    let seen = seen_by_second(&rt, &file, &mut first, &mut second)?;
    expect_eq!(rt; seen, (2, load));
    Ok(())
}

/// Inserts five records.
fn insert_five<R: Wait>(rt: &R, file: &HashFile<NoGate>, hand: &mut Hand) -> Result<(), Fail>
    requires { IsOf file.now.state hand.old }
{
    for letter in b"abcde" {
        call(rt, file, hand, &insert(&[*letter])?)?;
    }
    Ok(())
}

/// Inserts five records by a second hand, which is dropped then.
fn lose_five<R: Wait>(rt: &R, file: &HashFile<NoGate>, first: &mut Hand) -> Result<(), Fail>
    requires { IsOf file.now.state first.old }
    ensures { IsOf file.now.state first.new }
{
    let mut second = file.split_hand(first, 5)?;
    insert_five(rt, file, &mut second)
}

/// The hand that closes the file knows of its first bucket alone.
#[test]
fn a_file_closes_with_buckets_that_its_hand_never_saw(rt: HostRuntime) -> Result<(), Fail> {
    let config = Config::new(1, 2, 100, 65536)?;
    let (file, mut first) = HashFile::create(rt.alloc(), config, false, NoGate)?;
    lose_five(&rt, &file, &mut first)?;
    let (closed, _) = file.close(&rt, first)?;
    expect_eq!(&rt, (closed.buckets(), closed.records()), (3, 5));
    expect_eq!(&rt, closed.into_listing()?.len(), 5);
    Ok(())
}

/// The replies to five calls of two hands, the second's first: a delete that misses, an insert, one that
/// meets its key, a replace, and a delete.
fn five_acts<R: Wait + Abort>(
    rt: &R,
    file: &HashFile<NoGate>,
    first: &mut Hand,
    second: &mut Hand,
) -> Result<[Reply; 5], Fail>
    requires first { IsOf file.now.state first.old }
    requires second { IsOf file.now.state second.old }
    ensures first { IsOf file.now.state first.new }
    ensures second { IsOf file.now.state second.new }
{
    let (a, gone) = (insert(b"a")?, delete(b"a")?);
    let missed = note(rt, file, second, &gone)?;
    let inserted = note(rt, file, first, &a)?;
    let met = note(rt, file, second, &a)?;
    let replaced = note(rt, file, first, &replace(b"a")?)?;
    let deleted = note(rt, file, second, &gone)?;
    Ok([missed, inserted, met, replaced, deleted])
}

/// Whether these are those acts, the first hand's before the second's.
fn are_five_acts(acts: &Acts) -> Result<bool, Fail> {
    let (a, gone) = (insert(b"a")?, delete(b"a")?);
    let kept = [
        (1, a, Reply::Inserted),
        (3, replace(b"a")?, Reply::Replaced),
        (0, gone, Reply::Absent),
        (2, a, Reply::Exists),
        (4, gone, Reply::Deleted),
    ];
    for (i, &(stamp, call, reply)) in kept.iter().enumerate() {
        if i >= acts.len() || acts.at(i) != (ActLine { stamp, call, reply }) {
            return Ok(false);
        }
    }
    Ok(acts.len() == kept.len())
}

/// All hands of a file in one, after those five calls.
fn joined_after_five<R: Wait + Abort>(
    rt: &R,
    file: &HashFile<NoGate>,
    mut first: Hand,
) -> Result<Hand, Fail>
    requires { IsOf file.now.state first }
    ensures { IfOk result (IsOf file.now.state) }
{
    let mut second = file.split_hand(&mut first, 10)?;
    let replies = five_acts(rt, file, &mut first, &mut second)?;
    let due = [
        Reply::Absent,
        Reply::Inserted,
        Reply::Exists,
        Reply::Replaced,
        Reply::Deleted,
    ];
    expect_eq!(rt; replies, due);
    expect!(rt, !second.has_right());
    let mut all = join_again(file, first, second)?;
    expect_eq!(rt, all.left(), (1 << 63) - 5);
    let load = file.load(&mut all);
    expect_eq!(rt, (load.inserted, load.deleted), (1, 1));
    Ok(all)
}

#[test]
fn acts_are_counted_and_kept(rt: HostRuntime) -> Result<(), Fail> {
    let (file, first) = file_of(rt.alloc(), 8)?;
    let all = joined_after_five(&rt, &file, first)?;
    let (closed, acts) = file.close(&rt, all)?;
    expect_eq!(
        &rt,
        (closed.buckets(), closed.split_open(), closed.stamps()),
        (1, false, 5)
    );
    expect!(&rt, are_five_acts(&acts)?);
    Ok(())
}

/// One insert, which is counted.
fn insert_one<R: Wait + Abort>(rt: &R, file: &HashFile<NoGate>, hand: &mut Hand) -> Result<(), Fail>
    requires { IsOf file.now.state hand.old }
    ensures { IsOf file.now.state hand.new }
{
    let reply = note(rt, file, hand, &insert(b"a")?)?;
    expect_eq!(rt; reply, Reply::Inserted);
    let load = file.load(hand);
    expect_eq!(rt, (load.inserted, load.deleted), (1, 0));
    Ok(())
}

#[test]
fn acts_of_a_file_that_does_not_record_are_counted(rt: HostRuntime) -> Result<(), Fail> {
    let (file, mut hand) = HashFile::new(rt.alloc(), Config::new(1, 14, 100, 8)?)?;
    insert_one(&rt, &file, &mut hand)?;
    let (closed, acts) = file.close(&rt, hand)?;
    expect_eq!(&rt, closed.stamps(), 1);
    expect_eq!(&rt, acts.len(), 0);
    Ok(())
}
