//! Images that are read, opened as a running file, used by two hands, settled and written again.
ghost use Rattle.std.specs.Prelude.{◌≡◌, false, IfOk};
ghost use Rattle.lh_file.specs.FileState.{IsOf};

use lh_bucket::Listing;
use lh_expect::expect_eq;
use lh_file::{Acts, Closed, Hand, HashFile, NoGate, settle};
use lh_image::{read_image, write_image};
use lh_page::{Key, Value};
use lhash_expect::{FIVE, FIVE_WORDS, built, ran, told};
use std::alloc::{AllocGlobal, Global};
use std::process::Abort;
use std::sync::Wait;
use std::test::Fail;
use std::thread::Threads;

/// Inserts a record.
fn insert<R: Wait>(
    rt: &R,
    file: &HashFile<NoGate>,
    hand: &mut Hand,
    key: &[u8],
    value: &[u8],
) -> Result<(), Fail>
    requires { IsOf file.now.state hand.old }
    ensures of { IsOf file.now.state hand.new }
    ensures right { hand.new.view.has_right ≡ hand.old.view.has_right }
{
    file.insert(rt, hand, Key::new(key)?, Value::new(value)?)?;
    Ok(())
}

/// Inserts two keys by two hands, which are one then.
fn inserted<R: Wait>(
    rt: &R,
    file: &HashFile<NoGate>,
    mut first: Hand,
    one: &[u8],
    two: &[u8],
) -> Result<Hand, Fail>
    requires { IsOf file.now.state first }
    ensures { IfOk result (IsOf file.now.state) }
{
    let mut second = file.split_hand(&mut first, 1)?;
    insert(rt, file, &mut first, one, b"6")?;
    insert(rt, file, &mut second, two, b"7")?;
    Ok(file.join_hands(first, second)?)
}

/// Opens a listing as a file, inserts two keys by two hands, and answers what stands in the settled file.
fn used<R: Wait>(
    rt: &R,
    alloc: Global,
    listing: &Listing,
    one: &[u8],
    two: &[u8],
) -> Result<Listing, Fail> {
    let (file, first) = HashFile::open_from(alloc, listing, true, NoGate)?;
    let hand = inserted(rt, &file, first, one, two)?;
    let (closed, acts) = file.close(rt, hand)?;
    settled(alloc, listing, &closed, &acts)
}

/// What stands in a closed file whose acts are settled.
fn settled(
    alloc: Global,
    listing: &Listing,
    closed: &Closed,
    acts: &Acts,
) -> Result<Listing, Fail> {
    settle(alloc, listing, closed, acts)?;
    Ok(closed.listing()?)
}

/// The image of a listing, which is dumped as these records.
fn written_and_dumped(
    rt: &(impl AllocGlobal + Threads + Wait + Sync),
    listing: &Listing,
    records: &[u8],
) -> Result<(), Fail> {
    let mut image = Vec::new(rt.alloc());
    write_image(listing, &mut image)?;
    told(rt, &["lhash", "dump"], &image, records)
}

/// The fourth bucket comes with the seventh record.
#[test]
fn an_image_is_opened_used_and_written_again(rt: HostRuntime) -> Result<(), Fail> {
    let bytes = built(&rt, FIVE_WORDS, FIVE)?;
    let listing = read_image(rt.alloc(), &mut bytes.as_slice())?;
    let after = used(&rt, rt.alloc(), &listing, b"f", b"g")?;
    written_and_dumped(
        &rt,
        &after,
        b"0 61 31\n0 65 35\n1 62 32\n1 66 36\n2 63 33\n2 67 37\n3 64 34\n",
    )
}

/// The listing of the migrated image.
fn migrated(rt: &(impl Abort + AllocGlobal + Threads + Wait + Sync)) -> Result<Listing, Fail> {
    let old = built(rt, FIVE_WORDS, FIVE)?;
    let (code, new, _) = ran(rt, &["lhash", "migrate"], &old)?;
    expect_eq!(rt; code, 0);
    Ok(read_image(rt.alloc(), &mut new.as_slice())?)
}

fn longest_kept(
    rt: &(impl AllocGlobal + Threads + Wait + Sync),
    listing: &Listing,
) -> Result<(), Fail> {
    let key = "6b6b6b6b6b6b6b6b6b6b6b6b6b6b";
    let records = format!(in rt.alloc();
        "0 61 31\n0 65 35\n1 62 32\n1 {key}{key}{key}{key} 36\n1 66 37\n2 63 33\n2 67 37\n3 64 34\n"
    )?;
    written_and_dumped(rt, listing, records.as_bytes())
}

/// A file that was migrated takes longer keys, and is opened with them.
#[test]
fn a_migrated_image_is_opened_with_longer_keys(rt: HostRuntime) -> Result<(), Fail> {
    let longest = [b'k'; 56];
    let listing = migrated(&rt)?;
    let once = used(&rt, rt.alloc(), &listing, &longest, b"f")?;
    longest_kept(&rt, &used(&rt, rt.alloc(), &once, &longest, b"g")?)
}
