//! Two hands that take turns in one thread, and the file that is settled after it.
ghost use Rattle.lh_file.specs.FileState.{IsOf};

use lh_addr::Config;
use lh_bucket::Listing;
use lh_expect::expect_eq;
use lh_file::{Acts, Closed, Gate, Hand, HashFile, NoGate, SettleFault, settle};
use lh_stage::{Progress, Task, Told, closed, one, second_of};
use std::alloc::Global;
use std::process::Abort;
use std::sync::Wait;
use std::test::Fail;

/// Which hand's turn it is, the first or the second, what it is to do, and what it is to be told.
pub(crate) type Turn = (u8, Task, Told);

/// The first answer to two hands that was not due, the file that they left, and the number of acts that
/// were settled, or why they weren't.
#[derive(Drop)]
pub(crate) struct Ended {
    pub(crate) wrong: Option<Told>,
    pub(crate) closed: Closed,
    pub(crate) settled: Result<usize, SettleFault>,
}

/// Two hands of a file after their turns, and the first answer that was not due.
#[derive(Drop)]
struct Turns {
    first: Hand,
    second: Hand,
    wrong: Option<Told>,
}

/// Two hands of a file take turns.
fn take_turns<G: Gate, R: Wait>(
    rt: &R,
    file: &HashFile<G>,
    mut first: Hand,
    mut second: Hand,
    turns: &[Turn],
) -> Turns
    requires first { IsOf file.now.state first }
    requires second { IsOf file.now.state second }
    ensures first { IsOf file.now.state result.first }
    ensures second { IsOf file.now.state result.second }
{
    let progress = Progress::new();
    let mut wrong = None;
    for (hand, task, due) in turns {
        let told = if *hand == 1 {
            one(rt, file, &progress, &mut first, *task)
        } else {
            one(rt, file, &progress, &mut second, *task)
        };
        if told != *due && wrong.is_none() {
            wrong = Some(told);
        }
    }
    Turns {
        first,
        second,
        wrong,
    }
}

/// How many acts are settled, or why they aren't.
fn settled(
    alloc: Global,
    listing: &Listing,
    closed: &Closed,
    acts: &Acts,
) -> Result<usize, SettleFault> {
    settle(alloc, listing, closed, acts).map(|history| history.len())
}

/// Two hands of a file that is opened from a listing take turns in one thread; the second may make ten
/// calls. None where memory was wanted.
pub(crate) fn play_in_turn<R: Wait>(
    rt: &R,
    alloc: Global,
    listing: &Listing,
    turns: &[Turn],
) -> Option<Ended> {
    let (file, mut hand) = HashFile::open_from(alloc, listing, true, NoGate).ok()?;
    let other = second_of(&file, &mut hand, 10)?;
    let Turns {
        first,
        second,
        wrong,
    } = take_turns(rt, &file, hand, other, turns);
    let (closed, acts) = closed(rt, file, first, second)?;
    let settled = settled(alloc, listing, &closed, &acts);
    Some(Ended {
        wrong,
        closed,
        settled,
    })
}

/// Two hands of an empty file of one bucket, which may have `max`, take turns; fails where something
/// else comes of it than was due.
pub(crate) fn perform_in_turn<R: Wait + Abort>(
    rt: &R,
    alloc: Global,
    max: u32,
    turns: &[Turn],
    settled: Result<usize, SettleFault>,
) -> Result<(), Fail> {
    let listing = Listing::empty(alloc, Config::new(1, 14, 100, max)?)?;
    let ended = play_in_turn(rt, alloc, &listing, turns).ok_or("no memory")?;
    expect_eq!(rt; ended.wrong, None);
    expect_eq!(rt; ended.settled, settled);
    Ok(())
}
