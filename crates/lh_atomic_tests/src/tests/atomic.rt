//! Calls that read and write in one act: what each tells, and eight threads that make them of the same keys, in untraced
//! files and in traced ones.
ghost use Rattle.std.specs.Prelude.{◌≡◌, true, IfOk};
ghost use Rattle.lh_file.specs.Buckets.Brands.{IsBrandOf};
ghost use Rattle.lh_file.specs.FileState.{IsOf, MayBeJoined};

use lh_addr::Config;
use lh_bucket::{Listing, Reply};
use lh_expect::{expect, expect_eq};
use lh_file::{
    Acts, Closed, Coded, CodedKey, Compared, FileBrand, FileFault, Hand, HashFile, Mode, NoGate,
    Opening, Traced, settle,
};
use lh_page::{Key, Value};
use std::alloc::Global;
use std::marker::Brand;
use std::process::Abort;
use std::sync::Wait;
use std::test::Fail;
use std::thread::{self, Threads};

/// How often each of eight threads takes its turn.
const TURNS: u32 = 200;

/// The number that a value is.
fn number_in(bytes: &[u8]) -> u64 {
    <[u8; 8]>::try_from(bytes).map_or(0, u64::from_be_bytes)
}

/// The value of a number.
fn value_of(number: u64) -> Value {
    Value::new(&number.to_be_bytes()).unwrap_or(Value::empty())
}

/// The value of the next number.
fn one_more(bytes: &[u8]) -> Value {
    value_of(number_in(bytes).wrapping_add(1))
}

/// One of five keys.
fn key_of(turn: u32) -> Option<Key> {
    Key::new(&[b'a', (turn % 5) as u8]).ok()
}

/// What eight threads do at once.
#[derive(Clone, Copy, PartialEq, Eq)]
enum Job {
    /// Each adds one to a counter.
    Count,
    /// Each adds one to a counter, which the first of them makes.
    Merge,
    /// Each adds one to a counter by a read and a write, while it has a lock.
    Lock,
    /// Each claims a key, and sees who has it.
    Claim,
    /// Each takes what is under a key, and puts one more of it under another.
    Pass,
    /// Each writes the key's record, whatever is there.
    Write,
}

/// The key of the lock, and of what it guards.
const LOCK: &[u8] = b"lock";

const GUARDED: &[u8] = b"guarded";

/// Adds one to a counter by a read and a write: whether both were served.
fn read_and_write<M: Mode, J: FileBrand, R: Wait>(
    rt: &R,
    file: &HashFile<NoGate, M, J>,
    hand: &mut Hand,
    key: &Key,
) -> bool
    requires { IsOf file.now.state hand.old }
    ensures { IsOf file.now.state hand.new }
{
    match file.get(rt, hand, key) {
        Ok(Some(number)) => file.set(rt, hand, key, &one_more(number.bytes())).is_ok(),
        _ => false,
    }
}

/// Adds one to what the lock guards: whether all was as it is due.
fn locked<M: Mode, J: FileBrand, R: Wait>(
    rt: &R,
    file: &HashFile<NoGate, M, J>,
    hand: &mut Hand,
    thread: usize,
) -> bool
    requires { IsOf file.now.state hand.old }
    ensures { IsOf file.now.state hand.new }
{
    let (Ok(lock), Ok(guarded)) = (Key::new(LOCK), Key::new(GUARDED)) else {
        return false;
    };
    let (free, mine) = (Value::empty(), value_of(thread as u64));
    file.compare_and_set(rt, hand, &lock, &free, &mine) == Ok(Compared::Replaced)
        && read_and_write(rt, file, hand, &guarded)
        && file.compare_and_set(rt, hand, &lock, &mine, &free) == Ok(Compared::Replaced)
}

/// Claims the key of a turn: whether who has it is there.
fn claimed<M: Mode, J: FileBrand, R: Wait>(
    rt: &R,
    file: &HashFile<NoGate, M, J>,
    hand: &mut Hand,
    thread: usize,
    turn: u32,
) -> bool
    requires { IsOf file.now.state hand.old }
    ensures { IsOf file.now.state hand.new }
{
    let Ok(key) = Key::new(&turn.to_be_bytes()) else {
        return false;
    };
    let mine = value_of(thread as u64);
    match file.get_or_put(rt, hand, &key, &mine) {
        Ok(owner) => file.get(rt, hand, &key) == Ok(Some(owner.unwrap_or(mine))),
        Err(_) => false,
    }
}

/// Adds a number to the thread's own, which is made by the first one: whether that was served.
fn kept<M: Mode, J: FileBrand, R: Wait>(
    rt: &R,
    file: &HashFile<NoGate, M, J>,
    hand: &mut Hand,
    thread: usize,
    value: &Value,
) -> bool
    requires { IsOf file.now.state hand.old }
    ensures { IsOf file.now.state hand.new }
{
    let Ok(own) = Key::new(&[b'o', (thread % 256) as u8]) else {
        return false;
    };
    let sum = number_in(value.bytes());
    let add = |bytes: &[u8]| value_of(number_in(bytes).wrapping_add(sum));
    match file.update(rt, hand, &own, add) {
        Ok(true) => true,
        Ok(false) => file.upsert(rt, hand, &own, value).is_ok(),
        Err(_) => false,
    }
}

/// Takes what is under a key, keeps it, and puts one there: whether something was taken, and all was served.
fn passed<M: Mode, J: FileBrand, R: Wait>(
    rt: &R,
    file: &HashFile<NoGate, M, J>,
    hand: &mut Hand,
    thread: usize,
    key: &Key,
) -> bool
    requires { IsOf file.now.state hand.old }
    ensures { IsOf file.now.state hand.new }
{
    match file.take(rt, hand, key) {
        Ok(Some(value)) => {
            kept(rt, file, hand, thread, &value) && file.upsert(rt, hand, key, &value_of(1)).is_ok()
        }
        _ => false,
    }
}

/// A turn at a job: whether it isn't to be tried again.
fn turn_at<M: Mode, J: FileBrand, R: Wait>(
    rt: &R,
    file: &HashFile<NoGate, M, J>,
    hand: &mut Hand,
    job: Job,
    thread: usize,
    turn: u32,
) -> bool
    requires { IsOf file.now.state hand.old }
    ensures { IsOf file.now.state hand.new }
{
    let Some(key) = key_of(turn) else {
        return false;
    };
    match job {
        Job::Count => file.update(rt, hand, &key, one_more).is_ok(),
        Job::Merge => file.merge(rt, hand, &key, &value_of(1), one_more).is_ok(),
        Job::Lock => locked(rt, file, hand, thread),
        Job::Claim => claimed(rt, file, hand, thread, turn),
        Job::Pass => passed(rt, file, hand, thread, &key),
        Job::Write => file
            .upsert(rt, hand, &key, &value_of(thread as u64))
            .is_ok(),
    }
}

/// All turns of one thread, each tried up to a million times.
fn work<M: Mode, J: FileBrand, R: Wait>(
    rt: &R,
    file: &HashFile<NoGate, M, J>,
    hand: &mut Hand,
    job: Job,
    thread: usize,
)
    requires { IsOf file.now.state hand.old }
    ensures { MayBeJoined file.now.state hand.new }
{
    let mut turn = 0_u32;
    for _try in 0..1_000_000 {
        if turn == TURNS {
            break;
        }
        if turn_at(rt, file, hand, job, thread, turn) {
            turn = turn.saturating_add(1);
        } else {
            thread::yield_now();
        }
    }
    if hand.has_right() {
        file.drop_right(hand);
    }
}

/// What was found when eight threads had done a job: how many acts there were, and had replies of these kinds; and what
/// is under six keys.
#[derive(Clone, Copy, Debug, PartialEq, Eq)]
struct Done {
    acts: usize,
    inserted: u64,
    deleted: u64,
    numbers: [u64; 5],
    guarded: u64,
}

/// The number under a key.
fn number_at<M: Mode, J: FileBrand, R: Wait>(
    rt: &R,
    file: &HashFile<NoGate, M, J>,
    hand: &mut Hand,
    key: &[u8],
) -> Result<u64, Fail>
    requires { IsOf file.now.state hand.old }
    ensures { IsOf file.now.state hand.new }
{
    let value = file.get(rt, hand, &Key::new(key)?)?;
    Ok(value.map_or(0, |value| number_in(value.bytes())))
}

/// Eight threads do a job in a new file, which is then closed and settled.
fn left_by<M: Mode + Send + Sync, J: FileBrand + Send + Sync, R: Threads + Wait + Sync>(
    rt: &R,
    alloc: Global,
    file: HashFile<NoGate, M, J>,
    mut hand: Hand,
    job: Job,
) -> Result<Done, Fail>
    requires { IsOf file.state hand }
{
    begin(rt, &file, &mut hand, job)?;
    let hand = in_eight(rt, &file, hand, job)?;
    ended(rt, alloc, file, hand)
}

/// Puts what a job wants to be there: the counters, unless they are merged, and the lock with what it guards.
fn begin<M: Mode, J: FileBrand, R: Wait>(
    rt: &R,
    file: &HashFile<NoGate, M, J>,
    hand: &mut Hand,
    job: Job,
) -> Result<(), Fail>
    requires { IsOf file.now.state hand.old }
    ensures { IsOf file.now.state hand.new }
{
    let (lock, guarded) = (Key::new(LOCK)?, Key::new(GUARDED)?);
    if job != Job::Merge {
        put_counters(rt, file, hand)?;
    }
    file.put(rt, hand, &lock, &Value::empty())?;
    file.put(rt, hand, &guarded, &value_of(0))?;
    Ok(())
}

/// Puts the five counters.
fn put_counters<M: Mode, J: FileBrand, R: Wait>(
    rt: &R,
    file: &HashFile<NoGate, M, J>,
    hand: &mut Hand,
) -> Result<(), Fail>
    requires { IsOf file.now.state hand.old }
    ensures { IsOf file.now.state hand.new }
{
    for number in 0..5_u8 {
        file.put(rt, hand, &Key::new(&[b'a', number])?, &value_of(0))?;
    }
    Ok(())
}

/// Eight threads at once, each with a hand of its own.
fn in_eight<M: Mode + Send + Sync, J: FileBrand + Send + Sync, R: Threads + Wait + Sync>(
    rt: &R,
    file: &HashFile<NoGate, M, J>,
    mut hand: Hand,
    job: Job,
) -> Result<Hand, Fail>
    requires { IsOf file.now.state hand }
    ensures { IfOk result (IsOf file.now.state) }
{
    let mut hands = file.split_hands(&mut hand, 8, 1 << 30)?;
    thread::for_each_mut(
        rt,
        &mut hands,
        8,
        &|thread: usize, hand: &mut Hand|
            requires { IsOf file.now.state hand.now }
            ensures { MayBeJoined file.entry.now.state hand.exit.now }
        { work(rt, file, hand, job, thread) },
    );
    Ok(file.join_all(hand, hands)?)
}

/// What is found at the end.
fn ended<M: Mode, J: FileBrand, R: Wait>(
    rt: &R,
    alloc: Global,
    file: HashFile<NoGate, M, J>,
    mut hand: Hand,
) -> Result<Done, Fail>
    requires { IsOf file.state hand }
{
    let load = file.load(&mut hand);
    let (numbers, guarded) = numbers_at_last(rt, &file, &mut hand)?;
    let (closed, acts) = file.close(rt, hand)?;
    Ok(Done {
        acts: settled(alloc, &closed, &acts)?,
        inserted: load.inserted,
        deleted: load.deleted,
        numbers,
        guarded,
    })
}

/// The numbers under the five keys, and the one that the lock guards.
fn numbers_at_last<M: Mode, J: FileBrand, R: Wait>(
    rt: &R,
    file: &HashFile<NoGate, M, J>,
    hand: &mut Hand,
) -> Result<([u64; 5], u64), Fail>
    requires { IsOf file.now.state hand.old }
    ensures { IsOf file.now.state hand.new }
{
    let mut numbers = [0; 5];
    for number in 0..5_usize {
        numbers[number] = number_at(rt, file, hand, &[b'a', number as u8])?;
    }
    Ok((numbers, number_at(rt, file, hand, GUARDED)?))
}

/// How many acts a closed file is settled with.
fn settled(alloc: Global, closed: &Closed, acts: &Acts) -> Result<usize, Fail> {
    let listing = Listing::empty(alloc, Config::default().with_capacity(2)?)?;
    Ok(settle(alloc, &listing, closed, acts)?.len())
}

/// The same in an untraced file.
fn left_untraced<R: Threads + Wait + Sync>(
    rt: &R,
    alloc: Global,
    config: Config,
    job: Job,
) -> Result<Done, Fail> {
    let (file, hand) = HashFile::create(alloc, config, true, NoGate)?;
    left_by(rt, alloc, file, hand, job)
}

/// The same in a traced file that is being opened.
fn left_in<J: FileBrand + Send + Sync, R: Threads + Wait + Sync>(
    rt: &R,
    alloc: Global,
    opening: Opening<'_, NoGate>,
    job: Job,
) -> Result<Done, Fail>
    requires { IsBrandOf true J.named J.tables opening }
{
    let (file, hand) = opening.file::<J>()?;
    left_by::<Traced, J, R>(rt, alloc, file, hand, job)
}

/// The same in a traced file.
fn left_traced<R: Threads + Wait + Sync>(
    rt: &R,
    alloc: Global,
    config: Config,
    job: Job,
) -> Result<Done, Fail> {
    let listing = Listing::empty(alloc, config)?;
    let opening = Opening::of(alloc, &listing, true, NoGate)?;
    left_in::<Brand, _>(rt, alloc, opening, job)
}

/// What eight threads leave, in an untraced file and in a traced one.
fn both<R: Threads + Wait + Sync>(rt: &R, alloc: Global, job: Job) -> Result<[Done; 2], Fail> {
    let config = Config::default().with_capacity(2)?;
    let untraced = left_untraced(rt, alloc, config, job)?;
    Ok([untraced, left_traced(rt, alloc, config, job)?])
}

#[test]
fn eight_threads_add_up(rt: HostRuntime) -> Result<(), Fail> {
    let due = Done {
        acts: 1613,
        inserted: 7,
        deleted: 0,
        numbers: [320; 5],
        guarded: 0,
    };
    expect_eq!(&rt, both(&rt, rt.alloc(), Job::Count)?, [due; 2]);
    Ok(())
}

#[test]
fn eight_threads_merge(rt: HostRuntime) -> Result<(), Fail> {
    let due = Done {
        acts: 1608,
        inserted: 7,
        deleted: 0,
        numbers: [320; 5],
        guarded: 0,
    };
    expect_eq!(&rt, both(&rt, rt.alloc(), Job::Merge)?, [due; 2]);
    Ok(())
}

#[test]
fn a_lock_guards_a_counter(rt: HostRuntime) -> Result<(), Fail> {
    for done in both(&rt, rt.alloc(), Job::Lock)? {
        expect_eq!(rt; done.guarded, 1600);
        expect!(&rt, done.acts >= 6413);
    }
    Ok(())
}

#[test]
fn each_key_has_one_owner(rt: HostRuntime) -> Result<(), Fail> {
    for done in both(&rt, rt.alloc(), Job::Claim)? {
        expect_eq!(&rt, (done.inserted, done.acts), (207, 3213));
    }
    Ok(())
}

#[test]
fn what_is_taken_is_taken_once(rt: HostRuntime) -> Result<(), Fail> {
    for done in both(&rt, rt.alloc(), Job::Pass)? {
        let numbers = done.numbers;
        expect_eq!(rt; done.deleted, 1600);
        expect_eq!(rt; numbers, [1; 5]);
    }
    Ok(())
}

#[test]
fn writers_leave_one_value(rt: HostRuntime) -> Result<(), Fail> {
    for done in both(&rt, rt.alloc(), Job::Write)? {
        expect_eq!(&rt, (done.inserted, done.acts), (7, 1613));
        expect!(&rt, done.numbers.iter().all(|&number| number < 8));
    }
    Ok(())
}

/// A call by a key, with the numbers of its values. An update and a merge add one.
#[derive(Clone, Copy)]
enum Task {
    Get,
    Take,
    Upsert(u64),
    GetOrPut(u64),
    Update,
    Merge(u64),
    CompareAndSet(u64, u64),
}

/// What it tells: whether the key is there or new, which value was there, or what was compared.
#[derive(Clone, Copy, Debug, PartialEq, Eq)]
enum Told {
    Is(bool),
    Was(Option<Value>),
    Compared(Compared),
}

/// The value of a number was there.
fn was(number: u64) -> Told {
    Told::Was(Some(value_of(number)))
}

/// Makes the call of a task.
fn made<K: Coded, M: Mode, J: FileBrand, R: Wait>(
    rt: &R,
    file: &HashFile<NoGate, M, J>,
    hand: &mut Hand,
    key: &K,
    task: Task,
) -> Result<Told, FileFault>
    requires { IsOf file.now.state hand.old }
    ensures { IsOf file.now.state hand.new }
{
    match task {
        Task::Get => file.get(rt, hand, key).map(Told::Was),
        Task::Take => file.take(rt, hand, key).map(Told::Was),
        Task::Upsert(number) => file.upsert(rt, hand, key, &value_of(number)).map(Told::Is),
        Task::GetOrPut(number) => file
            .get_or_put(rt, hand, key, &value_of(number))
            .map(Told::Was),
        Task::Update => file.update(rt, hand, key, one_more).map(Told::Is),
        Task::Merge(number) => file
            .merge(rt, hand, key, &value_of(number), one_more)
            .map(Told::Is),
        Task::CompareAndSet(expected, number) => file
            .compare_and_set(rt, hand, key, &value_of(expected), &value_of(number))
            .map(Told::Compared),
    }
}

/// What each call tells by a key that isn't there. It has the number 2 then.
fn make_all<K: Coded, M: Mode, J: FileBrand, R: Wait + Abort>(
    rt: &R,
    file: &HashFile<NoGate, M, J>,
    hand: &mut Hand,
    key: &K,
)
    requires { IsOf file.now.state hand.old }
    ensures { IsOf file.now.state hand.new }
{
    for (task, due) in [
        (Task::Take, Told::Was(None)),
        (Task::Update, Told::Is(false)),
        (Task::CompareAndSet(1, 2), Told::Compared(Compared::Absent)),
        (Task::Get, Told::Was(None)),
        (Task::GetOrPut(1), Told::Was(None)),
        (Task::GetOrPut(2), was(1)),
        (Task::Update, Told::Is(true)),
        (Task::CompareAndSet(1, 2), Told::Compared(Compared::Differs)),
        (
            Task::CompareAndSet(2, 7),
            Told::Compared(Compared::Replaced),
        ),
        (Task::Upsert(9), Told::Is(false)),
        (Task::Take, was(9)),
        (Task::Upsert(1), Told::Is(true)),
        (Task::Take, was(1)),
        (Task::Merge(1), Told::Is(true)),
        (Task::Merge(1), Told::Is(false)),
    ] {
        expect_eq!(rt, made(rt, file, hand, key, task), Ok(due));
    }
}

/// A closure may hand out what it was lent, here by a key that has the number 2.
fn hand_out<K: Coded, M: Mode, J: FileBrand, R: Wait + Abort>(
    rt: &R,
    file: &HashFile<NoGate, M, J>,
    hand: &mut Hand,
    key: &K,
)
    requires { IsOf file.now.state hand.old }
    ensures { IsOf file.now.state hand.new }
{
    let mut was = 0;
    let is_there = file.update(rt, hand, key, |bytes: &[u8]| {
        was = number_in(bytes);
        one_more(bytes)
    });
    expect_eq!(rt, (is_there, was), (Ok(true), 2));
    expect_eq!(rt, file.take(rt, hand, key), Ok(Some(value_of(3))));
}

/// What each call tells by a key and by the key with its code.
fn make_by_both<R: Wait + Abort>(
    rt: &R,
    file: &HashFile<NoGate>,
    hand: &mut Hand,
) -> Result<(), Fail>
    requires { IsOf file.now.state hand.old }
    ensures { IsOf file.now.state hand.new }
{
    let key = Key::new(b"key")?;
    let coded = CodedKey::new(key);
    make_all(rt, file, hand, &key);
    hand_out(rt, file, hand, &key);
    make_all(rt, file, hand, &coded);
    hand_out(rt, file, hand, &coded);
    Ok(())
}

#[test]
fn each_call_tells_what_was_there(rt: HostRuntime) -> Result<(), Fail> {
    let (file, mut hand) = HashFile::create(rt.alloc(), Config::default(), true, NoGate)?;
    make_by_both(&rt, &file, &mut hand)?;
    let (closed, acts) = file.close(&rt, hand)?;
    expect_eq!(&rt, (closed.records(), acts.len()), (0, 34));
    expect_replies(&rt, &acts);
    Ok(())
}

/// The first acts have the replies of those calls.
fn expect_replies(rt: &impl Abort, acts: &Acts) {
    let due = [
        Reply::Absent,
        Reply::Absent,
        Reply::Absent,
        Reply::Absent,
        Reply::Inserted,
        Reply::Found(value_of(1)),
        Reply::Replaced,
        Reply::Found(value_of(2)),
        Reply::Replaced,
        Reply::Replaced,
        Reply::Deleted,
        Reply::Inserted,
        Reply::Deleted,
        Reply::Inserted,
        Reply::Replaced,
        Reply::Replaced,
        Reply::Deleted,
    ];
    for (place, reply) in due.iter().enumerate() {
        expect!(rt, place < acts.len());
        expect_eq!(rt, acts.at(place).reply, *reply);
    }
}

/// Adds a record by one of three calls: whether it is new.
fn added<R: Wait>(
    rt: &R,
    file: &HashFile<NoGate>,
    hand: &mut Hand,
    number: u8,
) -> Result<bool, Fail>
    requires { IsOf file.now.state hand.old }
    ensures { IsOf file.now.state hand.new }
{
    let (key, value) = (Key::new(&[number])?, value_of(1));
    Ok(match number % 3 {
        0 => file.upsert(rt, hand, &key, &value)?,
        1 => file.get_or_put(rt, hand, &key, &value)?.is_none(),
        _ => file.merge(rt, hand, &key, &value, one_more)?,
    })
}

/// Adds nine records: how many buckets there are then.
fn added_nine<R: Wait>(rt: &R, file: &HashFile<NoGate>, hand: &mut Hand) -> Result<u32, Fail>
    requires { IsOf file.now.state hand.old }
    ensures { IsOf file.now.state hand.new }
{
    for number in 0..9_u8 {
        if !added(rt, file, hand, number)? {
            return Err(Fail::from("a record isn't new"));
        }
    }
    Ok(file.buckets(hand))
}

/// With one record to a page each new record splits a bucket, once there are two.
#[test]
fn calls_that_add_records_split_buckets(rt: HostRuntime) -> Result<(), Fail> {
    let config = Config::new(1, 1, 100, 65536)?;
    let (file, mut hand) = HashFile::create(rt.alloc(), config, false, NoGate)?;
    expect_eq!(&rt, added_nine(&rt, &file, &mut hand)?, 9);
    Ok(())
}
