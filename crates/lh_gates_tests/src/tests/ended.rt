//! What stays of a thread that has ended.
ghost use Rattle.lh_file.specs.FileState.{IsOf};

use super::play::beside;
use lh_addr::Config;
use lh_expect::expect_eq;
use lh_file::{Hand, HashFile, NoGate};
use lh_stage::{Progress, Task, Told, made, one, second_of};
use std::sync::Wait;
use std::test::Fail;
use std::thread::Threads;

/// What the second hand of a file is told of a letter that the first hand has inserted in a thread that
/// has ended, or what the insert was told. None where a thread was wanted.
fn told_after<R: Threads + Wait + Sync>(
    rt: &R,
    file: &HashFile<NoGate>,
    first: Hand,
    second: Hand,
) -> Option<Told>
    requires first { IsOf file.now.state first }
    requires second { IsOf file.now.state second }
{
    let progress = Progress::new();
    let insert = [(Task::Insert(b'a'), Told::Inserted)];
    let mut both = beside(rt, file, &progress, first, &insert, second, &[])?;
    if both.wrong.is_some() {
        return both.wrong;
    }
    Some(one(rt, file, &progress, &mut both.second, Task::Search(b'a')))
}

/// The same of a second hand that is split off.
fn told_second<R: Threads + Wait + Sync>(
    rt: &R,
    file: &HashFile<NoGate>,
    mut first: Hand,
) -> Result<Told, Fail>
    requires { IsOf file.now.state first }
{
    let second = second_of(file, &mut first, 10).ok_or("no second hand")?;
    Ok(told_after(rt, file, first, second).ok_or("a thread was refused")?)
}

#[test]
fn a_record_outlives_the_thread_of_its_writer(rt: HostRuntime) -> Result<(), Fail> {
    let config = Config::new(1, 14, 100, 65536)?;
    let (file, first) = made(rt.alloc(), config, NoGate)?;
    expect_eq!(&rt, told_second(&rt, &file, first)?, Told::Found(b'1'));
    Ok(())
}
