//! A word counter: eight threads count the words of a text in one traced table, each word by one call, and it is proved
//! that no count is lost.
#![tactic(auto)]

ghost use Rattle.std.specs.Prelude.{◌≡◌, true, All, IfOk, IfSome};
ghost use Rattle.std.specs.Int.{to_be_bytes, w32};
ghost use Rattle.lh_file.specs.Buckets.Brands.{IsBrandOf};
ghost use Rattle.use_counter.specs.Counting.{number_of_value, one_more, IsCounter, IsFinished, HasCounted};

use anyhow::Context;
use lh_addr::Config;
use lh_bucket::Listing;
use lh_file::laws::updates_add_up;
use lh_file::{Closed, FileBrand, Hand, HashFile, NoGate, Opening, Traced};
use lh_page::{Key, Value};
use std::marker::Brand;
use std::sync::Wait;
use std::thread::{self, Threads};

/// A file whose history is traced. `J` names its table.
type File<J> = HashFile<NoGate, Traced, J>;

const TEXT: &str = "the cat and the dog and the bird saw the cat and the tree";

/// The number that a value is.
fn number(bytes: &[u8]) -> u32
    ensures { result ≡ number_of_value bytes.now }
{
    match <[u8; 4]>::try_from(bytes) {
        Ok(bytes) => u32::from_be_bytes(bytes),
        Err(_) => 0,
    }
}

/// The value of a number.
fn value(number: u32) -> Value
    ensures { result ≡ to_be_bytes w32 number }
{
    match Value::new(&number.to_be_bytes()) {
        Ok(value) => value,
        // A value has room for four bytes.
        Err(_) => unreachable!(),
    }
}

/// Counts a word once, in one act.
fn count_word<J: FileBrand, R: Wait>(rt: &R, file: &File<J>, hand: &mut Hand, word: &Key)
    requires { IsCounter file.now.state hand.old }
    ensures { IsCounter file.now.state hand.new }
{
    let _ = file.merge(
        rt,
        hand,
        word,
        &value(1),
        |bytes: &[u8]| -> Value
            ensures { result ≡ one_more bytes.now }
        { value(number(bytes).wrapping_add(1)) },
    );
}

/// What one of eight threads does: it counts every eighth word.
fn count<J: FileBrand, R: Wait>(rt: &R, file: &File<J>, hand: &mut Hand, thread: usize)
    requires { IsCounter file.now.state hand.old }
    ensures { IsFinished file.now.state hand.new }
{
    for (place, word) in TEXT.split(' ').enumerate() {
        if place % 8 == thread
            && let Ok(word) = Key::new(word.as_bytes())
        {
            count_word(rt, file, hand, &word);
        }
    }
    if hand.has_right() {
        file.drop_right(hand);
    }
}

/// Eight threads at once, each with one of these hands.
fn count_with<J: FileBrand + Send + Sync, R: Threads + Wait + Sync>(
    rt: &R,
    file: &File<J>,
    hands: &mut Vec<Hand>,
)
    requires { All (IsCounter file.now.state) hands.old.items }
    ensures { All (IsFinished file.now.state) hands.new.items }
{
    thread::for_each_mut(
        rt,
        hands,
        8,
        &|thread: usize, hand: &mut Hand|
            requires { IsCounter file.now.state hand.now }
            ensures { IsFinished file.entry.now.state hand.exit.now }
        { count(rt, file, hand, thread) },
    );
}

/// Eight threads count. All hands are joined into the first.
fn count_in_threads<J: FileBrand + Send + Sync, R: Threads + Wait + Sync>(
    rt: &R,
    file: &File<J>,
    mut hand: Hand,
) -> anyhow::Result<Hand>
    requires { IsCounter file.now.state hand }
    ensures { IfOk result (IsCounter file.now.state) }
{
    let mut hands = file.split_hands(&mut hand, 8, 100)?;
    count_with(rt, file, &mut hands);
    Ok(file.join_all(hand, hands)?)
}

/// Closes a file in which words were only counted. None where memory ran out, a call is left with another hand, a bucket
/// wasn't met, or a split is under way.
fn close<J: FileBrand, R: Wait>(rt: &R, file: File<J>, hand: Hand) -> Option<Closed>
    requires { IsCounter file.state hand }
    ensures { IfSome result (HasCounted file.state.listing) }
{
    // Its law: no update of a key is lost.
    updates_add_up();
    let left = hand.left();
    let Ok((closed, acts)) = file.close(rt, hand) else {
        return None;
    };
    let are_home = left.checked_add(acts.len() as u64) == Some(1 << 63);
    if !are_home || !closed.gathered() || closed.split_open() {
        return None;
    }
    Some(closed)
}

/// Opens a file, lets eight threads count the words in it, and closes it.
fn counted<J: FileBrand + Send + Sync, R: Threads + Wait + Sync>(
    rt: &R,
    opening: Opening<'_, NoGate>,
) -> anyhow::Result<Closed>
    requires { IsBrandOf true J.named J.tables opening }
    ensures { IfOk result (HasCounted opening.entry.listing) }
{
    let (file, hand) = opening.file::<J>()?;
    let hand = count_in_threads(rt, &file, hand)?;
    close(rt, file, hand).context("a call or a bucket is missing")
}

fn main(rt: HostRuntime) -> anyhow::Result<()> {
    let alloc = rt.alloc();
    // Each of these words has a bucket to itself, so whichever thread comes first, they are told in one order.
    let empty = Listing::empty(alloc, Config::default().with_initial(16)?)?;
    let opening = Opening::of(alloc, &empty, true, NoGate)?;
    let words = counted::<Brand, _>(&rt, opening)?.into_listing()?;
    for bucket in 0..words.buckets() {
        for word in words.pairs_of(bucket) {
            println!(rt; "{}: {}", word.key.as_str()?, number(word.value.bytes()))?;
        }
    }
    println!(rt; "{} words, and no count is lost", words.len())?;
    Ok(())
}
