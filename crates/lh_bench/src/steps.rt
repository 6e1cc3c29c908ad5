//! What the single atomic steps of a file's words cost.
ghost use Rattle.std.specs.Prelude.{◌≡◌, All, IfOk};
ghost use Rattle.lh_addr.specs.Fnv.{code_of};
ghost use Rattle.lh_bucket.specs.Bucket.{verdict};
ghost use Rattle.lh_bucket.specs.PlainMap.{key_of};
ghost use Rattle.lh_bucket.specs.declared.verdict.Verdict.TheVariants.{Here};
ghost use Rattle.lh_file.specs.FileState.{IsOf};

use crate::meter::Stopwatch;
use crate::order::Order;
use crate::units::Each;
use crate::workloads::empty_file;
use anyhow::Result;
use lh_addr::fnv1a;
use lh_bucket::{Bucket, Call, PagedBucket, Verdict};
use lh_file::{Hand, HashFile, NoGate, Right, parts};
use lh_page::Key;
use std::alloc::Global;
use std::rt::Clock;
use std::sync::Wait;
use std::thread;
use std::thread::Threads;
use std::time::CpuClock;

/// A kind of step, and whether it did what it was to do. The bucket is the thread's own, and the call may be made at it.
trait Kind {
    fn take(file: &HashFile<NoGate>, hand: &mut Hand, bucket: &mut PagedBucket, call: &Call) -> bool
        requires of { IsOf file.now.state hand.old }
        requires here { verdict bucket.old.head (code_of (key_of call.now)) 0 ≡ Here }
        ensures of { IsOf file.now.state hand.new }
        ensures head { bucket.new.head ≡ bucket.old.head };
}

/// The size is read.
struct Size;

impl Kind for Size {
    fn take(
        file: &HashFile<NoGate>,
        hand: &mut Hand,
        _bucket: &mut PagedBucket,
        _call: &Call,
    ) -> bool {
        file.buckets(hand) != 0
    }
}

/// A claim of the right to split, and its drop where it was got.
struct Claim;

impl Kind for Claim {
    fn take(
        file: &HashFile<NoGate>,
        hand: &mut Hand,
        _bucket: &mut PagedBucket,
        _call: &Call,
    ) -> bool {
        if hand.has_right() {
            return false;
        }
        let Right::Got { old: _, new: _ } = file.try_split_right(hand) else {
            return false;
        };
        file.drop_right(hand);
        true
    }
}

/// The drawing of a stamp, for a delete that finds no record in the bucket.
struct Stamp;

impl Kind for Stamp {
    fn take(
        file: &HashFile<NoGate>,
        hand: &mut Hand,
        bucket: &mut PagedBucket,
        call: &Call,
    ) -> bool {
        if hand.left() == 0 || parts::make_room(file, hand).is_err() {
            return false;
        }
        parts::act_on(file, bucket, hand, call, 0).is_ok()
    }
}

/// Takes this many steps, and answers how many did what they were to do.
#[inline(never)]
fn repeat<K: Kind>(
    file: &HashFile<NoGate>,
    mut hand: Hand,
    bucket: &mut PagedBucket,
    call: &Call,
    steps: u64,
) -> u64
    requires of { IsOf file.now.state hand }
    requires here { verdict bucket.old.head (code_of (key_of call.now)) 0 ≡ Here }
{
    let mut done = 0u64;
    for _ in 0..steps {
        if K::take(file, &mut hand, bucket, call) {
            done = done.wrapping_add(1);
        }
    }
    done
}

/// A kind of step, by its name.
#[derive(Clone, Copy)]
enum Name {
    Size,
    Claim,
    Stamp,
}

/// Takes this many steps of a kind, with an empty bucket that no other thread has.
fn repeat_named(
    alloc: Global,
    file: &HashFile<NoGate>,
    hand: Hand,
    key: Key,
    steps: u64,
    name: Name,
) -> u64
    requires { IsOf file.now.state hand }
{
    let Ok(mut bucket) = PagedBucket::make(alloc, 1, 14, 0, Some(0)) else {
        return 0;
    };
    // Each key is at home in the bucket of a file of one.
    let Verdict::Here = bucket.compare(fnv1a(key.bytes()), 0) else {
        return 0;
    };
    let call = Call::Delete(key);
    match name {
        Name::Size => repeat::<Size>(file, hand, &mut bucket, &call, steps),
        Name::Claim => repeat::<Claim>(file, hand, &mut bucket, &call, steps),
        Name::Stamp => repeat::<Stamp>(file, hand, &mut bucket, &call, steps),
    }
}

/// As many hands as there are threads.
fn hands_of<R: AllocGlobal>(
    rt: &R,
    file: &HashFile<NoGate>,
    mut hand: Hand,
    threads: u64,
) -> Result<Vec<Hand>>
    requires { IsOf file.now.state hand }
    ensures { IfOk result (λ hands. All (λ hand. IsOf file.now.state hand) hands.items) }
{
    let mut hands = Vec::new(rt.alloc());
    for _ in 0..threads {
        hands.push(file.split_hand(&mut hand, 1 << 40)?)?;
    }
    Ok(hands)
}

/// Takes the steps of one kind in this many threads, and prints what each cost.
fn run<R>(rt: &R, order: &Order, name: Name, text: &str) -> Result<()>
where
    R: Threads + Wait + Sync + Clock + CpuClock + Print + AllocGlobal,
{
    let alloc = rt.alloc();
    let key = Key::new(b"a")?;
    let (file, hand) = empty_file(alloc, false)?;
    let hands = hands_of(rt, &file, hand, order.threads)?;
    let (file, steps) = (&file, order.records);
    let watch = Stopwatch::start(rt)?;
    let done = thread::map_vec(
        rt,
        hands,
        &|hand: Hand| -> u64
            requires { IsOf file.now.state hand }
        { repeat_named(alloc, file, hand, key, steps, name) },
    )?;
    let spent = watch.stop(rt)?;
    let done = done.iter().fold(0u64, |sum, part| sum.wrapping_add(*part));
    let all = steps.saturating_mul(order.threads);
    let wall = Each {
        nanoseconds: spent.wall,
        steps,
    };
    let processor = Each {
        nanoseconds: spent.processor,
        steps: all,
    };
    println!(rt; "{text}: {wall} ns, {processor} ns of processor time, {done} of {all} done")?;
    Ok(())
}

/// Takes as many steps of each kind in each thread as there are to be records.
pub fn measure<R>(rt: &R, order: &Order) -> Result<()>
where
    R: Threads + Wait + Sync + Clock + CpuClock + Print + AllocGlobal,
{
    run(rt, order, Name::Size, "size")?;
    run(rt, order, Name::Claim, "claim and drop")?;
    run(rt, order, Name::Stamp, "stamp")
}
