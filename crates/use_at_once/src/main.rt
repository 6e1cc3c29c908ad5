//! Calls that read what is under a key and write there in one step: no other thread's call comes between.
#![tactic(auto)]

ghost use Rattle.lh_file.specs.FileState.{IsOf};

use lh_addr::Config;
use lh_file::{Compared, Hand, HashFile, NoGate};
use lh_page::{Key, Value};
use std::str;
use std::sync::Wait;

/// The value of the next number, of one byte.
fn one_more(bytes: &[u8]) -> Value {
    let number = bytes.first().map_or(0, |&byte| byte);
    Value::new(&[number.wrapping_add(1)]).unwrap_or(Value::empty())
}

/// Settings, which are written whatever is there, and a seat, which the first has who asks for it.
fn write<R: Print + Wait>(rt: &R, file: &HashFile<NoGate>, hand: &mut Hand) -> anyhow::Result<()>
    requires { IsOf file.now.state hand.old }
    ensures { IsOf file.now.state hand.new }
{
    let (colour, red) = (Key::new(b"colour")?, Value::new(b"red")?);
    let is_new = file.upsert(rt, hand, &colour, &red)?;
    println!(rt; "the colour is new: {is_new}")?;

    let (seat, ada) = (Key::new(b"seat 7")?, Value::new(b"Ada")?);
    let owner = file.get_or_put(rt, hand, &seat, &ada)?.unwrap_or(ada);
    println!(rt; "the seat is {}'s", str::from_utf8(owner.bytes())?)?;
    Ok(())
}

/// A counter, which is made by its first visitor.
fn count<R: Print + Wait>(rt: &R, file: &HashFile<NoGate>, hand: &mut Hand) -> anyhow::Result<()>
    requires { IsOf file.now.state hand.old }
    ensures { IsOf file.now.state hand.new }
{
    let (visits, one) = (Key::new(b"visits")?, Value::new(&[1])?);
    let is_first = file.merge(rt, hand, &visits, &one, one_more)?;
    println!(rt; "the first visit: {is_first}")?;

    let is_counted = file.update(rt, hand, &visits, one_more)?;
    println!(rt; "counted: {is_counted}")?;
    Ok(())
}

/// A job, which one alone may take while it has the lock.
fn work<R: Print + Wait>(rt: &R, file: &HashFile<NoGate>, hand: &mut Hand) -> anyhow::Result<()>
    requires { IsOf file.now.state hand.old }
    ensures { IsOf file.now.state hand.new }
{
    let (lock, free, held) = (
        Key::new(b"lock")?,
        Value::new(b"free")?,
        Value::new(b"held")?,
    );
    file.upsert(rt, hand, &lock, &free)?;
    let has_lock = file.compare_and_set(rt, hand, &lock, &free, &held)? == Compared::Replaced;
    println!(rt; "the lock was free: {has_lock}")?;

    let job = file.take(rt, hand, &Key::new(b"job")?)?;
    println!(rt; "there was a job: {}", job.is_some())?;
    Ok(())
}

fn main(rt: HostRuntime) -> anyhow::Result<()> {
    let (file, mut hand) = HashFile::new(rt.alloc(), Config::default())?;
    write(&rt, &file, &mut hand)?;
    count(&rt, &file, &mut hand)?;
    work(&rt, &file, &mut hand)
}
