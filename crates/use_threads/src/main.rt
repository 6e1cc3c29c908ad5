//! Many hands on threads: two threads claim the same seats, and it is settled who has which.
#![tactic(auto)]

ghost use Rattle.std.specs.Prelude.{IfOk};
ghost use Rattle.lh_file.specs.FileState.{IsOf, MayBeJoined};

use lh_addr::Config;
use lh_bucket::Listing;
use lh_file::{Hand, HashFile, NoGate, settle};
use lh_page::{Key, Value};
use std::sync::Wait;
use std::thread::{self, Threads};

type File = HashFile<NoGate>;

/// What one thread does with its hand: it claims each seat that is free.
fn claim<R: Wait>(rt: &R, file: &File, hand: &mut Hand, name: u8)
    requires { IsOf file.now.state hand.old }
    ensures { MayBeJoined file.now.state hand.new }
{
    for seat in b'a'..b'y' {
        if let (Ok(seat), Ok(name)) = (Key::new(&[seat]), Value::new(&[name])) {
            let _ = file.insert(rt, hand, seat, name);
        }
    }
    if hand.has_right() {
        file.drop_right(hand);
    }
}

/// Two threads, each with a hand of its own. All hands are joined into the first.
fn claim_in_threads<R: Threads + Wait + Sync>(
    rt: &R,
    file: &File,
    mut hand: Hand,
) -> anyhow::Result<Hand>
    requires { IsOf file.now.state hand }
    ensures { IfOk result (IsOf file.now.state) }
{
    let mut hands = file.split_hands(&mut hand, 2, 100)?;
    thread::for_each_mut(
        rt,
        &mut hands,
        2,
        &|thread: usize, hand: &mut Hand|
            requires { IsOf file.now.state hand.now }
            ensures { MayBeJoined file.entry.now.state hand.exit.now }
        { claim(rt, file, hand, if thread == 0 { b'1' } else { b'2' }) },
    );
    Ok(file.join_all(hand, hands)?)
}

fn main(rt: HostRuntime) -> anyhow::Result<()> {
    let alloc = rt.alloc();
    let config = Config::default().with_capacity(2)?;
    let (file, hand) = HashFile::create(alloc, config, true, NoGate)?;
    let hand = claim_in_threads(&rt, &file, hand)?;
    let (closed, acts) = file.close(&rt, hand)?;
    let history = settle(alloc, &Listing::empty(alloc, config)?, &closed, &acts)?;
    println!(rt; "{} calls, one history", history.len())?;
    println!(rt; "{} seats are taken", closed.records())?;
    Ok(())
}
