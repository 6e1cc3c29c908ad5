//! Scans.
ghost use Rattle.std.specs.Prelude.{◌≡◌, IfSome};
ghost use Rattle.lh_file.specs.FileState.{IsOf};

use super::calls::{LETTERS, call, works_on};
use super::rights::grow;
use super::scene::{ONE_BUCKET, Scene, perform};
use super::tasks::Task;
use lh_file::{BucketCopy, FileBrand, FileFault, Gate, Hand, HashFile, Mode, Scan};
use lh_page::Pair;
use lh_stage::Told;
use std::alloc::Global;
use std::sync::Wait;
use std::test::Fail;

/// How often a scan met each key, by its only byte.
type Met = [u8; 256];

/// Counts the records of a copy.
fn count(met: &mut Met, pairs: &[Pair]) {
    for pair in pairs {
        if let Some(byte) = pair.key.bytes().first() {
            let times = &mut met[*byte as usize];
            *times = times.saturating_add(1);
        }
    }
}

/// Whether each letter was met, and no key twice.
fn is_whole(met: &Met) -> bool {
    LETTERS.iter().all(|letter| met[*letter as usize] == 1) && met.iter().all(|times| *times <= 1)
}

/// A scan of a file, begun once more where memory was refused.
fn begun<G: Gate, M: Mode, J: FileBrand>(alloc: Global, file: &HashFile<G, M, J>) -> Option<Scan>
    ensures { IfSome result (λ scan. scan.initial ≡ file.now.state.config.initial) }
{
    match Scan::new(alloc, file) {
        Ok(scan) => Some(scan),
        Err(_) => Scan::new(alloc, file).ok(),
    }
}

/// The next copy of a scan, asked for once more where memory was refused, if the file works on then.
fn next<G: Gate, M: Mode, J: FileBrand, R: Wait>(
    rt: &R,
    file: &HashFile<G, M, J>,
    hand: &mut Hand,
    scan: &mut Scan,
) -> Result<Option<BucketCopy>, FileFault>
    requires scan { scan.old.initial ≡ file.now.state.config.initial }
    requires hand { IsOf file.now.state hand.old }
    ensures scan { scan.new.initial ≡ file.now.state.config.initial }
    ensures hand { IsOf file.now.state hand.new }
{
    match scan.next(rt, file, hand) {
        Err(FileFault::Memory) if works_on(rt, file, hand) => scan.next(rt, file, hand),
        next => next,
    }
}

/// Searches for a letter between two copies, and splits so many buckets: whether the letter was found, by an act that
/// came after the copy.
fn goes_on<G: Gate, M: Mode, J: FileBrand, R: Wait>(
    rt: &R,
    file: &HashFile<G, M, J>,
    hand: &mut Hand,
    copy: &BucketCopy,
    splits: u32,
) -> bool
    requires { IsOf file.now.state hand.old }
    ensures { IsOf file.now.state hand.new }
{
    if let Told::Found(_) = call(rt, file, hand, Task::Search(LETTERS[0])) {
        return copy.stamps < file.told(hand) && grow(rt, file, hand, splits);
    }
    false
}

/// Whether a scan that has ended gives no copy any more.
fn is_over<G: Gate, M: Mode, J: FileBrand, R: Wait>(
    rt: &R,
    file: &HashFile<G, M, J>,
    hand: &mut Hand,
    scan: &mut Scan,
) -> bool
    requires scan { scan.old.initial ≡ file.now.state.config.initial }
    requires hand { IsOf file.now.state hand.old }
    ensures { IsOf file.now.state hand.new }
{
    match next(rt, file, hand, scan) {
        Ok(copy) => copy.is_none(),
        Err(_) => false,
    }
}

/// Scans a file, and splits so many buckets after each copy: whether each letter was met, and no key twice, and each
/// copy came after what was told before it.
pub(crate) fn scan<G: Gate, M: Mode, J: FileBrand, R: Wait>(
    rt: &R,
    alloc: Global,
    file: &HashFile<G, M, J>,
    hand: &mut Hand,
    splits: &[u32],
) -> bool
    requires { IsOf file.now.state hand.old }
    ensures { IsOf file.now.state hand.new }
{
    let Some(mut scan) = begun(alloc, file) else {
        return false;
    };
    let mut met = [0; 256];
    for turn in 0..10_000_usize {
        let told = file.told(hand);
        let Ok(next) = next(rt, file, hand, &mut scan) else {
            return false;
        };
        let Some(copy) = next else {
            return is_whole(&met) && is_over(rt, file, hand, &mut scan);
        };
        count(&mut met, &copy.pairs);
        let splits = splits.get(turn).copied().unwrap_or(0);
        if copy.stamps < told || !goes_on(rt, file, hand, &copy, splits) {
            return false;
        }
    }
    false
}

/// Gives each copy of a scan to a closure, and goes on where memory was refused: whether each letter was met, and no
/// key twice.
pub(crate) fn for_each<G: Gate, M: Mode, J: FileBrand, R: Wait>(
    rt: &R,
    alloc: Global,
    file: &HashFile<G, M, J>,
    hand: &mut Hand,
) -> bool
    requires { IsOf file.now.state hand.old }
    ensures { IsOf file.now.state hand.new }
{
    let Some(mut scan) = begun(alloc, file) else {
        return false;
    };
    let mut met = [0; 256];
    let mut ended = scan.for_each(rt, file, hand, |copy| count(&mut met, &copy.pairs));
    if ended == Err(FileFault::Memory) {
        ended = scan.for_each(rt, file, hand, |copy| count(&mut met, &copy.pairs));
    }
    ended.is_ok() && is_whole(&met)
}

/// Buckets that were visited and buckets that wait for it are split between two copies, some of them twice.
const THREE_SCANS: Scene = Scene {
    settings: [2, 14, 100, 65536],
    first: &[
        (Task::Fill, Told::Done),
        (Task::Grow(1), Told::Done),
        (Task::Scan(&[2, 0, 5, 1, 9]), Told::Done),
        (Task::Scan(&[0, 1, 0, 20]), Told::Done),
        (Task::Scan(&[]), Told::Done),
        (Task::ForEach, Told::Done),
        (Task::Buckets, Told::Number(41)),
        (Task::WorksOn, Told::Done),
    ],
    ..ONE_BUCKET
};

#[test]
fn a_scan_meets_all(rt: HostRuntime) -> Result<(), Fail> {
    perform(&rt, rt.alloc(), &THREE_SCANS)
}
