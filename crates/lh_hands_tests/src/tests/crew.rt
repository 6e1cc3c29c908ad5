//! Hands for several threads: split off at once, worked with in threads, and joined at once.
ghost use Rattle.std.specs.Prelude.{◌<◌, All, IfOk};
ghost use Rattle.lh_file.specs.FileState.{IsOf, MayBeJoined};

use lh_addr::Config;
use lh_bucket::Listing;
use lh_expect::expect_eq;
use lh_file::{Acts, Closed, FileFault, Hand, HashFile, JoinAllFault, NoGate, settle};
use lh_page::{Key, Value};
use lh_stage::made;
use std::alloc::Global;
use std::process::Abort;
use std::sync::Wait;
use std::test::Fail;
use std::thread::{self, Threads};

/// What one thread does: it adds 26 records that no other thread adds, as far as there is memory for them.
fn add<R: Wait>(rt: &R, file: &HashFile<NoGate>, hand: &mut Hand, thread: usize)
    requires { IsOf file.now.state hand.old }
    ensures { MayBeJoined file.now.state hand.new }
{
    for letter in b'a'..=b'z' {
        if let (Ok(key), Ok(value)) = (
            Key::new(&[letter, (thread % 256) as u8]),
            Value::new(&[letter]),
        ) {
            let _ = file.put(rt, hand, &key, &value);
        }
    }
    if hand.has_right() {
        file.drop_right(hand);
    }
}

/// Hands for threads, asked for once more where memory was refused: the hand has its calls then.
fn hands_again(file: &HashFile<NoGate>, hand: &mut Hand, threads: u32) -> Result<Vec<Hand>, Fail>
    requires { IsOf file.now.state hand.old }
    ensures of { IsOf file.now.state hand.new }
    ensures given { IfOk result (λ given. All (IsOf file.now.state) given.items) }
{
    let left = hand.left();
    match file.split_hands(hand, threads, 100) {
        Ok(given) => Ok(given),
        Err(_) => {
            if hand.left() != left {
                return Err(Fail::new("calls were lost"));
            }
            Ok(file.split_hands(hand, threads, 100)?)
        }
    }
}

/// All hands in one, joined once more where memory was refused: they come back then.
fn join_again(file: &HashFile<NoGate>, first: Hand, others: Vec<Hand>) -> Result<Hand, Fail>
    requires first { IsOf file.now.state first }
    requires others { All (MayBeJoined file.now.state) others.items }
    ensures { IfOk result (IsOf file.now.state) }
{
    let (left, threads) = (first.left(), others.len());
    match file.join_all(first, others) {
        Ok(hand) => Ok(hand),
        Err(JoinAllFault { first, others }) => {
            if first.left() != left || others.len() != threads {
                return Err(Fail::new("a hand was lost"));
            }
            Ok(file.join_all(first, others)?)
        }
    }
}

/// Threads that add records, each with a hand of its own, and how many acts the joined hand has made.
pub(crate) fn added_in_threads<R: Threads + Wait + Sync>(
    rt: &R,
    file: &HashFile<NoGate>,
    mut hand: Hand,
    threads: u32,
) -> Result<Hand, Fail>
    requires of { IsOf file.now.state hand }
    requires some { 0 < threads }
    ensures { IfOk result (IsOf file.now.state) }
{
    let mut hands = hands_again(file, &mut hand, threads)?;
    thread::for_each_mut(
        rt,
        &mut hands,
        threads as usize,
        &|thread: usize, hand: &mut Hand|
            requires { IsOf file.now.state hand.now }
            ensures { MayBeJoined file.entry.now.state hand.exit.now }
        { add(rt, file, hand, thread) },
    );
    join_again(file, hand, hands)
}

/// The acts of a closed file that began empty are settled, those of eight threads.
fn expect_settled(
    rt: &impl Abort,
    alloc: Global,
    config: Config,
    closed: &Closed,
    acts: &Acts,
) -> Result<(), Fail> {
    expect_eq!(rt, (closed.records(), acts.len()), (208, 208));
    let history = settle(alloc, &Listing::empty(alloc, config)?, closed, acts)?;
    expect_eq!(rt, history.len(), 208);
    Ok(())
}

#[test]
fn threads_work_with_hands_of_their_own(rt: HostRuntime) -> Result<(), Fail> {
    let config = Config::new(1, 2, 100, 65536)?;
    let (file, hand) = made(rt.alloc(), config, NoGate)?;
    let hand = added_in_threads(&rt, &file, hand, 8)?;
    expect_eq!(&rt, hand.left(), (1 << 63) - 208);
    let (closed, acts) = file.close(&rt, hand)?;
    expect_settled(&rt, rt.alloc(), config, &closed, &acts)
}

/// A hand of ten calls is split.
fn split_ten(rt: &impl Abort, file: &HashFile<NoGate>, hand: &mut Hand) -> Result<(), Fail>
    requires { IsOf file.now.state hand.old }
{
    expect_eq!(rt, file.split_hands(hand, 0, 20)?.len(), 0);
    expect_eq!(rt, hand.left(), 10);
    let refused = file.split_hands(hand, 3, 4).err();
    expect_eq!(rt; refused, Some(FileFault::Spent { left: 10 }));
    let refused = file.split_hands(hand, u32::MAX, u64::MAX).err();
    expect_eq!(rt; refused, Some(FileFault::Spent { left: 10 }));
    expect_eq!(rt, hand.left(), 10);
    let hands = file.split_hands(hand, 2, 5)?;
    expect_eq!(
        rt,
        (hands.len(), hands[0].left(), hands[1].left()),
        (2, 5, 5)
    );
    expect_eq!(rt, hand.left(), 0);
    Ok(())
}

#[test]
fn a_hand_is_split_only_into_the_calls_that_it_has(rt: HostRuntime) -> Result<(), Fail> {
    let config = Config::new(1, 2, 100, 65536)?;
    let (file, mut first) = made(rt.alloc(), config, NoGate)?;
    let mut hand = file.split_hand(&mut first, 10)?;
    split_ten(&rt, &file, &mut hand)
}
