//! The program `lh_bench` measures the running file as a user calls it. It is a contestant of a
//! benchmark of hash tables: it runs one workload and prints one line, as JSON.
//!
//! ```text
//! lh_bench --workload W3 --threads 4 --records 1000000 --seed 1
//! ```
//!
//! With `--shards 16` the table is 16 files as one, and the line says so. With `--traced` the file is traced, and the
//! line says so. With `--room 32` each record has room for 32 bytes of key and value, and the line says so.
//! With `--session` the calls are those of a store's session, and the line says so. `--workload all` runs on a file first,
//! and then on what of these is asked for. With `--lent` the calls are those without an answer, and a value is compared
//! where it is lent, as sessions do it. With `--image 1` the image of W5 and W10 is one of
//! version 1, which has room for its records too. With `--longest` each insert of W1 is timed, and the line tells the
//! longest.
#![tactic(auto)]

mod caller;
mod contents;
mod counting;
mod crew;
mod image;
mod kinds;
mod lengths;
mod listed;
mod look_ups;
mod meter;
mod numbers;
mod on_file;
mod on_shards;
mod order;
mod passes;
mod replacing;
mod report;
mod sessions;
mod settling;
mod splits;
mod starter;
mod steps;
mod streams;
mod table;
mod tally;
mod units;
mod workloads;

use crate::order::{Asked, Order, Room, Workload, read_words};
use crate::report::{Form, Outcome, unsupported};
use anyhow::{Result, bail};
use std::env;
use std::process::ExitCode;
use std::rt::Runtime;
use std::sync::Wait;
use std::thread::Threads;
use std::time::CpuClock;

/// Runs one workload on one table.
fn outcome_of_table<R>(rt: &R, order: &Order) -> Result<Outcome>
where
    R: Runtime + AllocGlobal + CpuClock + Threads + Wait + Sync,
{
    match order.workload {
        Workload::Image => image::write_and_read(rt, order),
        Workload::LookUps => look_ups::look_up_all(rt, order),
        _ if order.by_session => sessions::run_by_session(rt, order),
        _ if order.traced => kinds::run_traced(rt, order),
        _ => match order.shards {
            Some(shards) => kinds::run_sharded(rt, order, shards),
            None => kinds::run_untraced(rt, order),
        },
    }
}

/// Runs one workload on as many tables as it needs.
fn outcome_of<R>(rt: &R, order: &Order) -> Result<Outcome>
where
    R: Runtime + AllocGlobal + CpuClock + Threads + Wait + Sync,
{
    let mut outcome = outcome_of_table(rt, order)?;
    for _ in 1..order.tables() {
        outcome = outcome.with(outcome_of_table(rt, order)?);
    }
    Ok(outcome)
}

/// Runs one workload on files of one kind, and prints its line.
fn run_one<R>(rt: &R, order: &Order, form: Form) -> Result<()>
where
    R: Runtime + AllocGlobal + CpuClock + Threads + Wait + Sync,
{
    if let Some(why) = order.refusal() {
        return Ok(unsupported(rt, why)?);
    }
    match order.workload {
        Workload::Steps => {
            steps::measure(rt, order)?;
            return splits::measure(rt);
        }
        Workload::Settling => return settling::measure(rt, order),
        Workload::All => return Ok(()),
        _ => {}
    }
    let outcome = outcome_of(rt, order)?;
    outcome.print(rt, order, form)?;
    if !outcome.is_right() {
        bail!("a reply or a value is not the one due");
    }
    Ok(())
}

/// Runs one workload with this room on an untraced file, and then by a session, on a traced file and on shards, where they
/// are asked for and it may run so.
fn run_in_room<R>(rt: &R, order: &Order, form: Form) -> Result<()>
where
    R: Runtime + AllocGlobal + CpuClock + Threads + Wait + Sync,
{
    let plain = Order {
        traced: false,
        by_session: false,
        shards: None,
        ..*order
    };
    run_one(rt, &plain, form)?;
    if order.by_session && plain.may_be_by_session() {
        let by_session = Order {
            by_session: true,
            ..plain
        };
        run_one(rt, &by_session, form)?;
    }
    if order.traced && order.workload.may_trace() {
        let traced = Order {
            traced: true,
            ..plain
        };
        run_one(rt, &traced, form)?;
    }
    if order.shards.is_some() && order.workload.may_shard() {
        let sharded = Order {
            shards: order.shards,
            ..plain
        };
        run_one(rt, &sharded, form)?;
    }
    Ok(())
}

/// Runs one workload with room for any record, and then with the room that is asked for, where it may have that.
fn run_on_each<R>(rt: &R, order: &Order, form: Form) -> Result<()>
where
    R: Runtime + AllocGlobal + CpuClock + Threads + Wait + Sync,
{
    let wide = Order {
        room: Room::Any,
        ..*order
    };
    run_in_room(rt, &wide, form)?;
    if order.room != Room::Any && order.may_have_little_room() {
        run_in_room(rt, order, form)?;
    }
    Ok(())
}

fn run<R>(rt: &R) -> Result<u8>
where
    R: Runtime + AllocGlobal + CpuClock + Threads + Wait + Sync,
{
    let words: Vec<String> = env::args(rt)?.collect(rt.alloc())?;
    let texts: Vec<&str> = words.iter().map(|word| word.as_str()).collect(rt.alloc())?;
    let (order, form) = match read_words(rt.alloc(), texts.as_slice()) {
        Asked::Run(order, form) => (order, form),
        Asked::Told(error) => {
            error.print(rt)?;
            return Ok(if error.use_stderr() { 2 } else { 0 });
        }
    };
    if order.workload != Workload::All {
        run_one(rt, &order, form)?;
        return Ok(0);
    }
    for workload in Workload::MEASURED {
        run_on_each(rt, &Order { workload, ..order }, form)?;
    }
    Ok(0)
}

fn main(rt: HostRuntime) -> ExitCode {
    match run(&rt) {
        Ok(status) => ExitCode::from(status),
        Err(error) => {
            let _ = eprintln!(rt; "lh_bench: {error}");
            ExitCode::from(1)
        }
    }
}
