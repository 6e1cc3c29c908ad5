//! Traced files that one thread uses.
ghost use Rattle.std.specs.Prelude.{◌≡◌, true, IfSome};
ghost use Rattle.lh_file.specs.Buckets.Brands.{IsBrandOf};
ghost use Rattle.lh_file.specs.FileState.{IsOf};

use super::ended::{Ended, File, close};
use lh_addr::Config;
use lh_bucket::{Listing, Reply};
use lh_expect::{expect, expect_eq};
use lh_file::{FileBrand, Hand, HashFile, NoGate, Opening};
use lh_page::{Key, Value};
use std::alloc::Global;
use std::marker::Brand;
use std::sync::Wait;
use std::test::Fail;

/// Inserts a hundred records, and deletes every second one after it. None where a reply isn't the one that is due.
fn hundred<J: FileBrand, R: Wait>(rt: &R, file: &File<NoGate, J>, mut hand: Hand) -> Option<Hand>
    requires { IsOf file.now.state hand }
    ensures { IfSome result (IsOf file.now.state) }
{
    for number in 0..100_u8 {
        let key = Key::new(&[number]).ok()?;
        let value = Value::new(b"1").ok()?;
        if file.insert(rt, &mut hand, key, value).ok()?.reply() != Reply::Inserted {
            return None;
        }
        if number % 2 == 0 && file.delete(rt, &mut hand, key).ok()?.reply() != Reply::Deleted {
            return None;
        }
    }
    Some(hand)
}

/// What a file tells that is closed after a hundred inserts and fifty deletes.
fn hundred_of<J: FileBrand, R: Wait>(
    rt: &R,
    alloc: Global,
    listing: &Listing,
    opening: Opening<'_, NoGate>,
) -> Option<Ended>
    requires { IsBrandOf true J.named J.tables opening }
{
    let (file, hand) = opening.file::<J>().ok()?;
    let hand = hundred(rt, &file, hand)?;
    close(rt, alloc, listing, file, hand)
}

/// An empty file's listing.
fn empty(alloc: Global) -> Result<Listing, Fail> {
    Ok(Listing::empty(alloc, Config::new(1, 2, 100, 65536)?)?)
}

#[test]
fn a_traced_file_closes_with_its_history(rt: HostRuntime) -> Result<(), Fail> {
    let alloc = rt.alloc();
    let listing = empty(alloc)?;
    let opening = Opening::of(alloc, &listing, true, NoGate)?;
    let ended = hundred_of::<Brand, _>(&rt, alloc, &listing, opening).ok_or("a call went wrong")?;
    let due = Ended {
        told: 150,
        gathered: true,
        records: 50,
        settled: Some(150),
    };
    expect_eq!(rt; ended, due);
    Ok(())
}

/// Its history is proved, and there are no acts to settle.
#[test]
fn a_traced_file_need_not_record(rt: HostRuntime) -> Result<(), Fail> {
    let alloc = rt.alloc();
    let listing = empty(alloc)?;
    let opening = Opening::of(alloc, &listing, false, NoGate)?;
    let ended = hundred_of::<Brand, _>(&rt, alloc, &listing, opening).ok_or("a call went wrong")?;
    let due = Ended {
        told: 150,
        gathered: true,
        records: 50,
        settled: None,
    };
    expect_eq!(rt; ended, due);
    Ok(())
}

/// A hand that may make some of the calls of another.
fn part_of<J: FileBrand>(file: &File<NoGate, J>, hand: &mut Hand, calls: u64) -> Option<Hand>
    requires { IsOf file.now.state hand.old }
    ensures old { IsOf file.now.state hand.new }
    ensures new { IfSome result (IsOf file.now.state) }
{
    file.split_hand(hand, calls).ok()
}

/// Inserts one record by a hand that is dropped then. Says whether it was told what is due.
fn lose<J: FileBrand, R: Wait>(rt: &R, file: &File<NoGate, J>, mut hand: Hand) -> bool
    requires { IsOf file.now.state hand }
{
    let (Ok(key), Ok(value)) = (Key::new(b"a"), Value::new(b"1")) else {
        return false;
    };
    match file.insert(rt, &mut hand, key, value) {
        Ok(answer) => answer.reply() == Reply::Inserted,
        Err(_) => false,
    }
}

/// What a file tells that is closed after its only act was lost with its hand.
fn loss_of<J: FileBrand, R: Wait>(
    rt: &R,
    alloc: Global,
    listing: &Listing,
    opening: Opening<'_, NoGate>,
) -> Option<Ended>
    requires { IsBrandOf true J.named J.tables opening }
{
    let (file, mut hand) = opening.file::<J>().ok()?;
    let lost = part_of(&file, &mut hand, 1)?;
    if !lose(rt, &file, lost) {
        return None;
    }
    close(rt, alloc, listing, file, hand)
}

/// The act stands in the history that the file tells, and is missing where recorded acts are settled.
#[test]
fn a_traced_file_tells_what_is_missing(rt: HostRuntime) -> Result<(), Fail> {
    let alloc = rt.alloc();
    let listing = empty(alloc)?;
    let opening = Opening::of(alloc, &listing, true, NoGate)?;
    let ended = loss_of::<Brand, _>(&rt, alloc, &listing, opening).ok_or("a call went wrong")?;
    let due = Ended {
        told: 1,
        gathered: true,
        records: 1,
        settled: None,
    };
    expect_eq!(rt; ended, due);
    Ok(())
}

/// Inserts one record. None where the call isn't told so.
fn insert<J: FileBrand, R: Wait>(
    rt: &R,
    file: &File<NoGate, J>,
    hand: &mut Hand,
    key: &[u8],
) -> Option<()>
    requires { IsOf file.now.state hand.old }
    ensures { IsOf file.now.state hand.new }
{
    let key = Key::new(key).ok()?;
    let value = Value::new(b"1").ok()?;
    match file.insert(rt, hand, key, value).ok()?.reply() {
        Reply::Inserted => Some(()),
        _ => None,
    }
}

/// What a file tells that is closed after five records were inserted by a hand that was lost.
fn five_of<J: FileBrand, R: Wait>(
    rt: &R,
    alloc: Global,
    listing: &Listing,
    opening: Opening<'_, NoGate>,
) -> Option<Ended>
    requires { IsBrandOf true J.named J.tables opening }
{
    let (file, mut hand) = opening.file::<J>().ok()?;
    let mut lost = part_of(&file, &mut hand, 5)?;
    insert(rt, &file, &mut lost, b"a")?;
    insert(rt, &file, &mut lost, b"b")?;
    insert(rt, &file, &mut lost, b"c")?;
    insert(rt, &file, &mut lost, b"d")?;
    insert(rt, &file, &mut lost, b"e")?;
    close(rt, alloc, listing, file, hand)
}

/// The hand that closes the file knows of its first bucket alone, and meets all three.
#[test]
fn a_traced_file_closes_with_buckets_that_its_hand_never_saw(rt: HostRuntime) -> Result<(), Fail> {
    let alloc = rt.alloc();
    let listing = empty(alloc)?;
    let opening = Opening::of(alloc, &listing, true, NoGate)?;
    let ended = five_of::<Brand, _>(&rt, alloc, &listing, opening).ok_or("a call went wrong")?;
    let due = Ended {
        told: 5,
        gathered: true,
        records: 5,
        settled: None,
    };
    expect_eq!(rt; ended, due);
    Ok(())
}

#[test]
fn an_untraced_file_is_not_gathered(rt: HostRuntime) -> Result<(), Fail> {
    let config = Config::new(1, 2, 100, 65536)?;
    let (file, hand) = HashFile::create(rt.alloc(), config, true, NoGate)?;
    let (closed, _) = file.close(&rt, hand)?;
    expect!(&rt, !closed.gathered());
    Ok(())
}

/// A caller may leave before it opens the file, and open another one with the same listing.
#[test]
fn an_opening_may_be_left(rt: HostRuntime) -> Result<(), Fail> {
    let alloc = rt.alloc();
    let listing = empty(alloc)?;
    let opening = Opening::of(alloc, &listing, true, NoGate)?;
    drop(opening);
    let (file, hand) = HashFile::open_from(alloc, &listing, true, NoGate)?;
    let (closed, _) = file.close(&rt, hand)?;
    expect_eq!(&rt, (closed.buckets(), closed.records()), (1, 0));
    Ok(())
}
