//! Eight threads on one file, under a gate at which each call lets others go first.
ghost use Rattle.std.specs.Prelude.{◌≡◌, All, IfSome};
ghost use Rattle.lh_file.specs.FileState.{IsOf};

use lh_addr::Config;
use lh_bucket::Reply;
use lh_expect::{expect, expect_eq};
use lh_file::{Acts, Closed, Hand, HashFile};
use lh_page::{Key, Value};
use lh_stage::{GiveWay, closed_by, joined, made, second_of, settled_acts};
use std::alloc::Global;
use std::sync::Wait;
use std::test::Fail;
use std::thread;
use std::thread::{Promise, PromisedHandle, Threads};

/// Which keys each of the threads calls by: those of its own, or the same three as all others.
#[derive(Clone, Copy)]
enum Keys {
    Own,
    Shared,
}

/// A hand that has done its share, and whether it was told what was due.
#[derive(Drop)]
struct Finished {
    hand: Hand,
    is_well: bool,
}

/// The hand that comes back is one of this file.
#[derive(Clone, Copy)]
struct OfCrowd<'a>(&'a HashFile<GiveWay>);

impl<'a> Promise<Finished> for OfCrowd<'a> {
    ghost kept_by = { λ file finished. IsOf file.0.now.state finished.hand };
}

/// Inserts the record of a number in the first round, gives it another value in the second, and searches
/// for it in the third. Says whether it was told what is due.
fn call<R: Wait>(rt: &R, file: &HashFile<GiveWay>, hand: &mut Hand, number: u16, round: u16) -> bool
    requires { IsOf file.now.state hand.old }
    ensures { IsOf file.now.state hand.new }
{
    let (Ok(key), Ok(old), Ok(new)) = (
        Key::new(&number.to_be_bytes()),
        Value::new(b"1"),
        Value::new(b"2"),
    ) else {
        return false;
    };
    let (answer, due) = match round {
        0 => (file.insert(rt, hand, key, old), Reply::Inserted),
        1 => (file.replace(rt, hand, key, new), Reply::Replaced),
        _ => (file.search(rt, hand, key), Reply::Found(new)),
    };
    match answer {
        Ok(answer) => answer.reply() == due,
        Err(_) => false,
    }
}

/// Inserts one of three letters in one turn, searches for it in the next one, and deletes it in the one after. Says
/// whether it was told one of the two replies that there are.
fn contend<R: Wait>(rt: &R, file: &HashFile<GiveWay>, hand: &mut Hand, turn: u16) -> bool
    requires { IsOf file.now.state hand.old }
    ensures { IsOf file.now.state hand.new }
{
    let letter = b"abc"[(turn / 3 % 3) as usize];
    let (Ok(key), Ok(value)) = (Key::new(&[letter]), Value::new(b"1")) else {
        return false;
    };
    let (answer, replies) = match turn % 3 {
        0 => (
            file.insert(rt, hand, key, value),
            [Reply::Inserted, Reply::Exists],
        ),
        1 => (
            file.search(rt, hand, key),
            [Reply::Found(value), Reply::Absent],
        ),
        _ => (file.delete(rt, hand, key), [Reply::Deleted, Reply::Absent]),
    };
    match answer {
        Ok(answer) => replies.contains(&answer.reply()),
        Err(_) => false,
    }
}

/// Inserts each eighth of a thousand numbers, then replaces their values and then searches for them, in
/// the same order; or inserts, finds and deletes three letters, as all others do.
fn share<R: Wait>(
    rt: &R,
    file: &HashFile<GiveWay>,
    mut hand: Hand,
    first: u16,
    keys: Keys,
) -> Finished
    requires { IsOf file.now.state hand }
    ensures { IsOf file.now.state result.hand }
{
    let mut is_well = true;
    for turn in 0..375_u16 {
        let is_told = match keys {
            Keys::Own => {
                let number = (turn % 125).wrapping_mul(8).wrapping_add(first);
                call(rt, file, &mut hand, number, turn / 125)
            }
            Keys::Shared => contend(rt, file, &mut hand, turn),
        };
        is_well = is_told && is_well;
    }
    Finished { hand, is_well }
}

/// Keeps a worker beside the others, or answers that there is no memory for it.
fn keep<'a>(
    file: &'a HashFile<GiveWay>,
    workers: &mut Vec<PromisedHandle<Finished, OfCrowd<'a>>>,
    worker: PromisedHandle<Finished, OfCrowd<'a>>,
) -> bool
    requires others { All (λ worker. worker.promise.0.now ≡ file.now) workers.old.items }
    requires new { worker.promise.0.now ≡ file.now }
    ensures { All (λ worker. worker.promise.0.now ≡ file.now) workers.new.items }
{
    workers.push(worker).is_ok()
}

/// Joins the hands of all workers into the first. None where one was told otherwise than was due.
fn join_all<R: Threads + Wait>(
    rt: &R,
    file: &HashFile<GiveWay>,
    mut all: Hand,
    workers: Vec<PromisedHandle<Finished, OfCrowd<'_>>>,
) -> Option<Hand>
    requires first { IsOf file.now.state all }
    requires others { All (λ worker. worker.promise.0.now ≡ file.now) workers.items }
    ensures { IfSome result (IsOf file.now.state) }
{
    for worker in workers {
        let Finished { hand, is_well } = worker.join(rt);
        if !is_well {
            return None;
        }
        all = joined(file, all, hand)?;
    }
    Some(all)
}

/// Eight threads do their shares at once.
fn crowd<R: Threads + Wait + Sync>(
    rt: &R,
    alloc: Global,
    file: &HashFile<GiveWay>,
    hand: Hand,
    keys: Keys,
) -> Option<Hand>
    requires { IsOf file.now.state hand }
    ensures { IfSome result (IsOf file.now.state) }
{
    thread::scope(
        thread::scope_env(),
        rt,
        |scope| -> Option<Hand>
            requires { IsOf file.now.state hand }
            ensures { IfSome result (IsOf file.entry.now.state) }
        {
            let mut all = hand;
            let mut workers = Vec::new(alloc);
            for first in 0..8 {
                let part = second_of(file, &mut all, 375)?;
                let Ok(worker) = scope.spawn_with(
                    OfCrowd(file),
                    move || share(rt, file, part, first, keys),
                ) else {
                    return None;
                };
                if !keep(file, &mut workers, worker) {
                    return None;
                }
            }
            join_all(rt, file, all, workers)
        },
    )
}

/// How many records a closed file has, and how many of the acts of one that began empty are settled.
fn counted(alloc: Global, config: Config, closed: &Closed, acts: &Acts) -> Option<(u64, usize)> {
    let settled = settled_acts(alloc, config, closed, acts)?;
    Some((closed.records(), settled))
}

/// How many records eight threads leave in an empty file, and how many of their acts are settled.
fn crowded<R: Threads + Wait + Sync>(
    rt: &R,
    alloc: Global,
    config: Config,
    keys: Keys,
) -> Option<(u64, usize)> {
    let (file, hand) = made(alloc, config, GiveWay).ok()?;
    let all = crowd(rt, alloc, &file, hand, keys)?;
    let (closed, acts) = closed_by(rt, file, all)?;
    counted(alloc, config, &closed, &acts)
}

#[test]
fn eight_threads_insert_replace_and_find_a_thousand_records(rt: HostRuntime) -> Result<(), Fail> {
    let config = Config::new(1, 1, 100, 65536)?;
    let left = crowded(&rt, rt.alloc(), config, Keys::Own).ok_or("a call went wrong")?;
    expect_eq!(rt; left, (1000, 3000));
    Ok(())
}

/// The acts of a bucket are settled in the order in which they changed and saw it, however many there are at once.
#[test]
fn eight_threads_insert_find_and_delete_three_records(rt: HostRuntime) -> Result<(), Fail> {
    let config = Config::new(1, 1, 100, 65536)?;
    let (records, settled) = crowded(&rt, rt.alloc(), config, Keys::Shared).ok_or(
        "a call went wrong",
    )?;
    expect!(&rt, records <= 3);
    expect_eq!(rt; settled, 3000);
    Ok(())
}
