//! Memory that is refused a traced file: run with each request for it refused in turn, one in each run.
ghost use Rattle.std.specs.Prelude.{◌≡◌, true, IfSome};
ghost use Rattle.lh_file.specs.Buckets.Brands.{IsBrandOf};
ghost use Rattle.lh_file.specs.FileState.{IsOf};

use super::ended::{Ended, File, close};
use lh_addr::Config;
use lh_bucket::{Listing, Reply};
use lh_expect::expect_eq;
use lh_file::{FileBrand, FileFault, Hand, NoGate, Opening};
use lh_page::{Key, Value};
use lh_stage::empty_again;
use std::alloc::Global;
use std::marker::Brand;
use std::sync::Wait;
use std::test::Fail;

/// Inserts a number, and once more where memory was refused, which is told as no act and takes none of the hand's
/// calls. Says whether all went as it has to.
fn insert_again<J: FileBrand, R: Wait>(
    rt: &R,
    file: &File<NoGate, J>,
    hand: &mut Hand,
    number: u8,
) -> bool
    requires { IsOf file.now.state hand.old }
    ensures { IsOf file.now.state hand.new }
{
    let (Ok(key), Ok(value)) = (Key::new(&[number]), Value::new(b"1")) else {
        return false;
    };
    let (told, left) = (file.told(hand), hand.left());
    let mut answer = file.insert(rt, hand, key, value);
    if let Err(FileFault::Memory) = answer {
        if file.told(hand) != told || hand.left() != left {
            return false;
        }
        answer = file.insert(rt, hand, key, value);
    }
    match answer {
        Ok(answer) => answer.reply() == Reply::Inserted && file.told(hand) == told.wrapping_add(1),
        Err(_) => false,
    }
}

/// Inserts ten records. None where one went otherwise than it has to.
fn inserted<J: FileBrand, R: Wait>(rt: &R, file: &File<NoGate, J>, mut hand: Hand) -> Option<Hand>
    requires { IsOf file.now.state hand }
    ensures { IfSome result (IsOf file.now.state) }
{
    for number in 0..10_u8 {
        if !insert_again(rt, file, &mut hand, number) {
            return None;
        }
    }
    Some(hand)
}

/// What becomes of a file with ten records.
enum Outcome {
    /// Its opening or its closing was refused, and it is gone.
    Gone,
    /// A call went otherwise than it has to.
    Wrong,
    Closed(Ended),
}

/// Opens a file, inserts ten records, and closes it.
fn ten<J: FileBrand, R: Wait>(
    rt: &R,
    alloc: Global,
    listing: &Listing,
    opening: Opening<'_, NoGate>,
) -> Outcome
    requires { IsBrandOf true J.named J.tables opening }
{
    let Ok((file, hand)) = opening.file::<J>() else {
        return Outcome::Gone;
    };
    let Some(hand) = inserted(rt, &file, hand) else {
        return Outcome::Wrong;
    };
    match close(rt, alloc, listing, file, hand) {
        Some(ended) => Outcome::Closed(ended),
        None => Outcome::Gone,
    }
}

/// What becomes of a file with ten records that is opened from a listing.
fn ten_of<R: Wait>(rt: &R, alloc: Global, listing: &Listing) -> Outcome {
    match Opening::of(alloc, listing, true, NoGate) {
        Ok(opening) => ten::<Brand, _>(rt, alloc, listing, opening),
        Err(_) => Outcome::Gone,
    }
}

#[test]
fn refused_growth_of_a_traced_file_is_told(rt: HostRuntime) -> Result<(), Fail> {
    let alloc = rt.alloc();
    let listing = empty_again(alloc, Config::new(1, 2, 100, 65536)?)?;
    let mut made = ten_of(&rt, alloc, &listing);
    if let Outcome::Gone = made {
        made = ten_of(&rt, alloc, &listing);
    }
    let due = Ended {
        told: 10,
        gathered: true,
        records: 10,
        settled: Some(10),
    };
    match made {
        Outcome::Closed(ended) => expect_eq!(rt; ended, due),
        Outcome::Gone => return Err(Fail::from("refused twice")),
        Outcome::Wrong => return Err(Fail::from("a call went wrong")),
    }
    Ok(())
}
