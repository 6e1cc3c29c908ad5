//! Memory that is refused: run with each request for it refused in turn, one in each run.
ghost use Rattle.std.specs.Prelude.{IfOk, IfSome};
ghost use Rattle.lh_file.specs.FileState.{IsOf};

use lh_addr::Config;
use lh_bucket::{Listing, ListingFault};
use lh_expect::{expect, expect_eq};
use lh_file::{Acts, Closed, Hand, HashFile, JoinFault, Memory, NoGate};
use lh_page::{Key, Pair, Value};
use lh_stage::{
    FIRST_RIGHT, Progress, REFUSED, Task, Told, made_again, one, second_of, settled_acts,
};
use std::alloc::Global;
use std::process::Abort;
use std::sync::Wait;
use std::test::Fail;

/// Makes a call, and counts it as a step of the test where it is answered. A call that was refused leaves the hand as
/// many calls as it had, and its right; none is told where it doesn't.
fn asked<R: Wait>(
    rt: &R,
    file: &HashFile<NoGate>,
    answered: &Progress,
    hand: &mut Hand,
    task: Task,
) -> Option<Told>
    requires { IsOf file.now.state hand.old }
    ensures { IsOf file.now.state hand.new }
{
    let (left, right) = (hand.left(), hand.has_right());
    let told = one(rt, file, answered, hand, task);
    if told == REFUSED {
        if hand.left() != left || hand.has_right() != right {
            return None;
        }
    } else {
        answered.reach(answered.step().wrapping_add(1));
    }
    Some(told)
}

/// Makes a call, and once more where it was refused.
fn asked_again<R: Wait>(
    rt: &R,
    file: &HashFile<NoGate>,
    answered: &Progress,
    hand: &mut Hand,
    task: Task,
) -> Option<Told>
    requires { IsOf file.now.state hand.old }
    ensures { IsOf file.now.state hand.new }
{
    let told = asked(rt, file, answered, hand, task);
    if told != Some(REFUSED) {
        return told;
    }
    asked(rt, file, answered, hand, task)
}

/// Inserts a letter, and says whether all went as it has to. After a refused insert another hand doesn't find the
/// letter, and it may be inserted then. The hand's right is as before, also where a split was refused.
fn insert_again<R: Wait>(
    rt: &R,
    file: &HashFile<NoGate>,
    answered: &Progress,
    hand: &mut Hand,
    other: &mut Hand,
    letter: u8,
) -> bool
    requires hand { IsOf file.now.state hand.old }
    requires other { IsOf file.now.state other.old }
    ensures hand { IsOf file.now.state hand.new }
    ensures other { IsOf file.now.state other.new }
{
    let right = hand.has_right();
    let mut told = asked(rt, file, answered, hand, Task::Insert(letter));
    if told == Some(REFUSED) {
        let found = asked_again(rt, file, answered, other, Task::Search(letter));
        if found != Some(Told::Absent) {
            return false;
        }
        told = asked(rt, file, answered, hand, Task::Insert(letter));
    }
    let found = asked_again(rt, file, answered, other, Task::Search(letter));
    told == Some(Told::Inserted) && found == Some(Told::Found(b'1')) && hand.has_right() == right
}

/// Makes a change of a letter that is there, and says whether all went as it has to. After a refused one another hand
/// finds the record as it was, and the change may be made then.
fn change_again<R: Wait>(
    rt: &R,
    file: &HashFile<NoGate>,
    answered: &Progress,
    hand: &mut Hand,
    other: &mut Hand,
    change: Task,
    due: Told,
) -> bool
    requires hand { IsOf file.now.state hand.old }
    requires other { IsOf file.now.state other.old }
    ensures hand { IsOf file.now.state hand.new }
    ensures other { IsOf file.now.state other.new }
{
    let (Task::Replace(letter) | Task::Delete(letter)) = change else {
        return false;
    };
    let told = asked(rt, file, answered, hand, change);
    if told != Some(REFUSED) {
        return told == Some(due);
    }
    let found = asked_again(rt, file, answered, other, Task::Search(letter));
    let told = asked(rt, file, answered, hand, change);
    found == Some(Told::Found(b'1')) && told == Some(due)
}

/// The first hand replaces a value and the second deletes a record; then each sees what the other did. Says whether all
/// went as it has to.
fn replace_and_delete<R: Wait>(
    rt: &R,
    file: &HashFile<NoGate>,
    answered: &Progress,
    first: &mut Hand,
    second: &mut Hand,
) -> bool
    requires first { IsOf file.now.state first.old }
    requires second { IsOf file.now.state second.old }
    ensures first { IsOf file.now.state first.new }
    ensures second { IsOf file.now.state second.new }
{
    let (replace, replaced) = (Task::Replace(b'a'), Told::Replaced);
    let (delete, deleted) = (Task::Delete(b'b'), Told::Deleted);
    if !change_again(rt, file, answered, first, second, replace, replaced)
        || !change_again(rt, file, answered, second, first, delete, deleted)
    {
        return false;
    }
    let new = asked_again(rt, file, answered, second, Task::Search(b'a'));
    let gone = asked_again(rt, file, answered, first, Task::Search(b'b'));
    new == Some(Told::Found(b'2')) && gone == Some(Told::Absent)
}

/// The number of buckets that a hand is told.
fn size_of(file: &HashFile<NoGate>, hand: &mut Hand) -> u64
    requires { IsOf file.now.state hand.old }
    ensures { IsOf file.now.state hand.new }
{
    u64::from(file.buckets(hand))
}

/// Splits the bucket of a file of one, and says whether all went as it has to. After a refused split the hand has no
/// right and the file its old size, and the split may be made then.
fn split_again<R: Wait>(
    rt: &R,
    file: &HashFile<NoGate>,
    progress: &Progress,
    hand: &mut Hand,
) -> bool
    requires { IsOf file.now.state hand.old }
    ensures { IsOf file.now.state hand.new }
{
    let told = one(rt, file, progress, hand, Task::Split);
    if hand.has_right() {
        return false;
    }
    if told != REFUSED {
        return told == Told::Done && size_of(file, hand) == 2;
    }
    let size = size_of(file, hand);
    let right = one(rt, file, progress, hand, Task::TryRight);
    let told = one(rt, file, progress, hand, Task::Split);
    size == 1 && right == FIRST_RIGHT && told == Told::Done && size_of(file, hand) == 2
}

/// Three letters are inserted by a hand that has the right to split, which it uses then. Says whether all went as it
/// has to.
fn fill_and_split<R: Wait>(
    rt: &R,
    file: &HashFile<NoGate>,
    answered: &Progress,
    first: &mut Hand,
    second: &mut Hand,
) -> bool
    requires first { IsOf file.now.state first.old }
    requires second { IsOf file.now.state second.old }
    ensures first { IsOf file.now.state first.new }
    ensures second { IsOf file.now.state second.new }
{
    let right = one(rt, file, answered, first, Task::TryRight);
    for letter in b"abc" {
        if !insert_again(rt, file, answered, first, second, *letter) {
            return false;
        }
    }
    right == FIRST_RIGHT && size_of(file, first) == 1 && split_again(rt, file, answered, first)
}

/// Joins two hands. Where that is refused, both still work, and are joined then.
fn join_again<R: Wait>(
    rt: &R,
    file: &HashFile<NoGate>,
    answered: &Progress,
    first: Hand,
    second: Hand,
) -> Option<Hand>
    requires first { IsOf file.now.state first }
    requires second { IsOf file.now.state second }
    ensures { IfSome result (IsOf file.now.state) }
{
    if second.has_right() {
        return None;
    }
    let (left, more) = (first.left(), second.left());
    let JoinFault {
        mut first,
        mut second,
    } = match file.join_hands(first, second) {
        Ok(hand) => return Some(hand),
        Err(fault) => fault,
    };
    let as_before = first.left() == left && second.left() == more;
    let by_first = asked(rt, file, answered, &mut first, Task::Search(b'c'));
    let by_second = asked(rt, file, answered, &mut second, Task::Search(b'c'));
    let found = Some(Told::Found(b'1'));
    if !as_before || by_first != found || by_second != found || second.has_right() {
        return None;
    }
    file.join_hands(first, second).ok()
}

/// Two hands insert and search eight letters, change two of them, and are joined. From the fourth letter on each insert
/// passes the load, and so asks for a split, of which one may be refused: the file then has its old size. None where a
/// call went wrong.
fn used<R: Wait>(
    rt: &R,
    file: &HashFile<NoGate>,
    answered: &Progress,
    mut first: Hand,
    mut second: Hand,
) -> Option<Hand>
    requires first { IsOf file.now.state first }
    requires second { IsOf file.now.state second }
    ensures { IfSome result (IsOf file.now.state) }
{
    if !fill_and_split(rt, file, answered, &mut first, &mut second) {
        return None;
    }
    let mut refused: u64 = 0;
    for letter in b"defgh" {
        let before = size_of(file, &mut second);
        if !insert_again(rt, file, answered, &mut first, &mut second, *letter) {
            return None;
        }
        let now = size_of(file, &mut second);
        if now == before {
            refused = refused.saturating_add(1);
        } else if now != before.wrapping_add(1) {
            return None;
        }
    }
    if refused > 1 || !replace_and_delete(rt, file, answered, &mut first, &mut second) {
        return None;
    }
    join_again(rt, file, answered, first, second)
}

/// A second hand, which may make 100 calls, asked for once more where memory was refused: the first has its calls then.
fn second_again(file: &HashFile<NoGate>, first: &mut Hand) -> Option<Hand>
    requires { IsOf file.now.state first.old }
    ensures first { IsOf file.now.state first.new }
    ensures second { IfSome result (IsOf file.now.state) }
{
    let left = first.left();
    match second_of(file, first, 100) {
        Some(second) => Some(second),
        None if first.left() == left => second_of(file, first, 100),
        None => None,
    }
}

/// A file that was closed, its acts, and how many calls were answered.
type Used = (Closed, Acts, u64);

/// Two hands use a file of pages of one record, so that much of what it does takes memory, and one closes it. None
/// where a call went wrong.
fn used_and_closed<R: Wait>(rt: &R, alloc: Global, config: Config) -> Option<Result<Used, Memory>> {
    let (file, mut first) = made_again(alloc, config).ok()?;
    let second = second_again(&file, &mut first)?;
    let answered = Progress::new();
    let hand = used(rt, &file, &answered, first, second)?;
    let answered = answered.step();
    if hand.left() != (1_u64 << 63).wrapping_sub(answered) {
        return None;
    }
    match file.close(rt, hand) {
        Ok((closed, acts)) => Some(Ok((closed, acts, answered))),
        Err(Memory) => Some(Err(Memory)),
    }
}

/// How many records the listing of a closed file has.
fn listed_records(closed: &Closed) -> Option<u64> {
    let listing = match closed.listing() {
        Err(ListingFault::Memory) => closed.listing().ok()?,
        listing => listing.ok()?,
    };
    Some(listing.len())
}

#[test]
fn refused_growth_changes_nothing(rt: HostRuntime) -> Result<(), Fail> {
    let config = Config::new(1, 1, 100, 65536)?;
    let used = used_and_closed(&rt, rt.alloc(), config).ok_or("a call went wrong")?;
    // A refused close has taken file and hand along: another file is used then.
    let (closed, acts, answered) = match used {
        Ok(used) => used,
        Err(Memory) => used_and_closed(&rt, rt.alloc(), config).ok_or("a call went wrong")??,
    };
    expect_eq!(&rt, closed.records(), 7);
    expect_eq!(&rt, listed_records(&closed), Some(7));
    expect!(&rt, closed.buckets() == 7 || closed.buckets() == 6);
    expect_eq!(rt; acts.len() as u64, answered);
    expect_eq!(
        &rt,
        settled_acts(rt.alloc(), config, &closed, &acts),
        Some(acts.len())
    );
    Ok(())
}

/// Two hands take turns to insert letters and to search for them, until a call is refused: the joined hand, and how
/// many letters were inserted. None where a call went wrong.
fn used_until_refused<R: Wait>(
    rt: &R,
    file: &HashFile<NoGate>,
    answered: &Progress,
    mut first: Hand,
    mut second: Hand,
) -> Option<(Hand, u64)>
    requires first { IsOf file.now.state first }
    requires second { IsOf file.now.state second }
    ensures { IfSome result (λ used. IsOf file.now.state used.0) }
{
    let mut inserted: u64 = 0;
    for letter in b"abcdefgh" {
        let told = asked(rt, file, answered, &mut first, Task::Insert(*letter));
        if told == Some(REFUSED) {
            break;
        }
        inserted = inserted.saturating_add(1);
        let found = asked(rt, file, answered, &mut second, Task::Search(*letter));
        if told != Some(Told::Inserted)
            || (found != Some(Told::Found(b'1')) && found != Some(REFUSED))
        {
            return None;
        }
        if found == Some(REFUSED) {
            break;
        }
    }
    let hand = join_again(rt, file, answered, first, second)?;
    Some((hand, inserted))
}

/// A file is used until a call is refused, and closed at once. None where something went wrong.
fn closed_at_once<R: Wait>(
    rt: &R,
    alloc: Global,
    config: Config,
) -> Option<Result<(Used, u64), Memory>> {
    let (file, mut first) = made_again(alloc, config).ok()?;
    let second = second_again(&file, &mut first)?;
    let answered = Progress::new();
    let (hand, inserted) = used_until_refused(rt, &file, &answered, first, second)?;
    match file.close(rt, hand) {
        Ok((closed, acts)) => Some(Ok(((closed, acts, answered.step()), inserted))),
        Err(Memory) => Some(Err(Memory)),
    }
}

/// A refused call has left no act, and no record. The closed file becomes its listing, unless that is refused.
#[test]
fn refused_growth_leaves_no_act(rt: HostRuntime) -> Result<(), Fail> {
    let config = Config::new(1, 1, 100, 65536)?;
    let used = closed_at_once(&rt, rt.alloc(), config).ok_or("a call went wrong")?;
    let ((closed, acts, answered), inserted) = match used {
        Ok(used) => used,
        Err(Memory) => closed_at_once(&rt, rt.alloc(), config).ok_or("a call went wrong")??,
    };
    expect_eq!(rt; closed.records(), inserted);
    expect_eq!(rt; closed.stamps(), answered);
    expect_eq!(rt; acts.len() as u64, answered);
    expect_eq!(
        &rt,
        settled_acts(rt.alloc(), config, &closed, &acts),
        Some(acts.len())
    );
    match closed.into_listing() {
        Ok(listing) => expect_eq!(rt; listing.len(), inserted),
        Err(fault) => expect_eq!(rt; fault, ListingFault::Memory),
    }
    Ok(())
}

/// The listing of two buckets with these records.
fn listed(
    alloc: Global,
    config: Config,
    first: &[Pair],
    second: &[Pair],
) -> Result<Listing, ListingFault> {
    let mut lists = Vec::new(alloc);
    for list in [first, second] {
        let Ok(copy) = list.to_vec(alloc) else {
            return Err(ListingFault::Memory);
        };
        if lists.push(copy).is_err() {
            return Err(ListingFault::Memory);
        }
    }
    Listing::new(alloc, config, 2, lists)
}

/// The same, asked for once more where memory was refused.
fn listed_again(
    alloc: Global,
    config: Config,
    first: &[Pair],
    second: &[Pair],
) -> Result<Listing, ListingFault> {
    match listed(alloc, config, first, second) {
        Err(ListingFault::Memory) => listed(alloc, config, first, second),
        answer => answer,
    }
}

/// A file that is opened from a listing, asked for once more where memory was refused.
fn opened_again(alloc: Global, listing: &Listing) -> Result<(HashFile<NoGate>, Hand), Memory>
    ensures { IfOk result (λ made. IsOf made.0.state made.1) }
{
    match HashFile::open_from(alloc, listing, true, NoGate) {
        Err(Memory) => HashFile::open_from(alloc, listing, true, NoGate),
        answer => answer,
    }
}

/// Both records are found, and there are two buckets.
fn expect_both<R: Wait + Abort>(rt: &R, file: &HashFile<NoGate>, hand: &mut Hand)
    requires { IsOf file.now.state hand.old }
{
    let answered = Progress::new();
    let first = asked_again(rt, file, &answered, hand, Task::Search(b'a'));
    let second = asked_again(rt, file, &answered, hand, Task::Search(b'b'));
    expect_eq!(
        rt,
        (first, second),
        (Some(Told::Found(b'1')), Some(Told::Found(b'1')))
    );
    expect_eq!(rt, size_of(file, hand), 2);
}

#[test]
fn refused_growth_of_an_opened_file_is_told(rt: HostRuntime) -> Result<(), Fail> {
    let config = Config::new(1, 1, 100, 65536)?;
    let value = Value::new(b"1")?;
    let key = Key::new(b"a")?;
    let a = Pair { key, value };
    let key = Key::new(b"b")?;
    let b = Pair { key, value };
    let listing = listed_again(rt.alloc(), config, &[a], &[b])?;
    let (file, mut hand) = opened_again(rt.alloc(), &listing)?;
    expect_both(&rt, &file, &mut hand);
    Ok(())
}
