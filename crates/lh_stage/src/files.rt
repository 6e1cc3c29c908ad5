//! Files and hands of tests. Their contracts say no more than that a hand is one of its file, so that what
//! uses them is quickly proved.
ghost use Rattle.std.specs.Prelude.{◌≡◌, false, IfOk, IfErr, IfSome};
ghost use Rattle.lh_file.specs.FileState.{IsOf};

use lh_addr::Config;
use lh_file::{
    Acts, Closed, FileBrand, Gate, Hand, HashFile, JoinFault, Memory, Mode, NoGate, Right,
};
use std::alloc::Global;
use std::sync::Wait;
use std::test::Fail;

/// An empty file that records, with its first hand.
pub fn made<G: Gate + Drop>(
    alloc: Global,
    config: Config,
    gate: G,
) -> Result<(HashFile<G>, Hand), Memory>
    ensures { IfOk result (λ made. IsOf made.0.state made.1) }
{
    HashFile::create(alloc, config, true, gate)
}

/// The same without a gate, asked for once more where memory was refused.
pub fn made_again(alloc: Global, config: Config) -> Result<(HashFile<NoGate>, Hand), Memory>
    ensures { IfOk result (λ made. IsOf made.0.state made.1) }
{
    match made(alloc, config, NoGate) {
        Err(Memory) => made(alloc, config, NoGate),
        answer => answer,
    }
}

/// Such a file that begins with one bucket and may have `max`.
pub fn file_of(alloc: Global, max: u32) -> Result<(HashFile<NoGate>, Hand), Fail>
    ensures { IfOk result (λ made. IsOf made.0.state made.1) }
{
    Ok(made_again(alloc, Config::new(1, 14, 100, max)?)?)
}

/// A second hand, which may make this many of the calls of the first.
pub fn second_of<G: Gate>(file: &HashFile<G>, first: &mut Hand, calls: u64) -> Option<Hand>
    requires { IsOf file.now.state first.old }
    ensures first { IsOf file.now.state first.new }
    ensures second { IfSome result (IsOf file.now.state) }
{
    file.split_hand(first, calls).ok()
}

/// Splits a bucket, where the right to do so is free: whether it was split.
pub fn split_once<G: Gate, M: Mode, J: FileBrand, R: Wait>(
    rt: &R,
    file: &HashFile<G, M, J>,
    hand: &mut Hand,
) -> bool
    requires { IsOf file.now.state hand.old }
    ensures { IsOf file.now.state hand.new }
{
    if let Right::Got { .. } = file.try_split_right(hand) {
        return file.split(rt, hand).is_ok();
    }
    false
}

/// One hand of two, asked for once more where memory was refused: both are as they were then.
pub fn join_again<G: Gate>(file: &HashFile<G>, first: Hand, second: Hand) -> Result<Hand, JoinFault>
    requires first { IsOf file.now.state first }
    requires second { IsOf file.now.state second }
    requires right { second.view.has_right ≡ false }
    ensures ok { IfOk result (IsOf file.now.state) }
    ensures fault { IfErr result (λ fault. IsOf file.now.state fault.first) }
{
    let before = (first.left(), first.has_right(), second.left());
    let JoinFault { first, second } = match file.join_hands(first, second) {
        Ok(hand) => return Ok(hand),
        Err(fault) => fault,
    };
    if (first.left(), first.has_right(), second.left()) != before {
        return Err(JoinFault { first, second });
    }
    file.join_hands(first, second)
}

/// One hand of two, unless the second has the right to split or there is no memory.
pub fn joined<G: Gate>(file: &HashFile<G>, first: Hand, second: Hand) -> Option<Hand>
    requires first { IsOf file.now.state first }
    requires second { IsOf file.now.state second }
    ensures { IfSome result (IsOf file.now.state) }
{
    if second.has_right() {
        return None;
    }
    join_again(file, first, second).ok()
}

/// The file closed, unless there is no memory.
pub fn closed_by<G: Gate + Drop, R: Wait>(
    rt: &R,
    file: HashFile<G>,
    hand: Hand,
) -> Option<(Closed, Acts)>
    requires { IsOf file.state hand }
{
    file.close(rt, hand).ok()
}

/// Joins two hands, first the one that has the right to split, if one has it, and closes the file.
pub fn closed<G: Gate + Drop, R: Wait>(
    rt: &R,
    file: HashFile<G>,
    first: Hand,
    second: Hand,
) -> Option<(Closed, Acts)>
    requires first { IsOf file.state first }
    requires second { IsOf file.state second }
{
    let hand = if second.has_right() {
        joined(&file, second, first)?
    } else {
        joined(&file, first, second)?
    };
    closed_by(rt, file, hand)
}
