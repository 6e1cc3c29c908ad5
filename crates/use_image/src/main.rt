//! An image: a file is closed and written, read back, checked, opened again and used.
#![tactic(auto)]

ghost use Rattle.lh_file.specs.FileState.{IsOf};

use lh_addr::Config;
use lh_bucket::Reply;
use lh_file::{Hand, HashFile, NoGate};
use lh_image::{Image, check_image, read_image, write_image};
use lh_page::{Key, Value};
use std::alloc::Global;
use std::sync::Wait;

const WORDS: [&[u8]; 7] = [b"do", b"re", b"mi", b"fa", b"sol", b"la", b"ti"];

/// Inserts each word with the value "note".
fn fill<R: Wait>(rt: &R, file: &HashFile<NoGate>, hand: &mut Hand) -> anyhow::Result<()>
    requires { IsOf file.now.state hand.old }
    ensures { IsOf file.now.state hand.new }
{
    for word in WORDS {
        file.insert(rt, hand, Key::new(word)?, Value::new(b"note")?)?;
    }
    Ok(())
}

/// Looks keys up in the bytes of an image, with no listing made.
fn look_up<R: Print>(rt: &R, alloc: Global, bytes: &[u8]) -> anyhow::Result<()> {
    // A key is looked up in the bytes as they are.
    let image = Image::open(bytes)?;
    for word in [b"sol".as_slice(), b"ut".as_slice()] {
        match image.find_bytes(&Key::new(word)?)? {
            Some(value) => println!(rt; "{} bytes, of {} records", value.len(), image.len())?,
            None => println!(rt; "absent")?,
        }
    }

    // All pages are looked at once. After that no look-up has a fault.
    let checked = image.check(alloc)?;
    for word in [b"do".as_slice(), b"so".as_slice()] {
        match checked.find(&Key::new(word)?) {
            Some(value) => println!(rt; "{} bytes, checked", value.bytes().len())?,
            None => println!(rt; "absent, checked")?,
        }
    }
    Ok(())
}

fn main(rt: HostRuntime) -> anyhow::Result<()> {
    let alloc = rt.alloc();
    let config = Config::default().with_initial(2)?.with_capacity(2)?;

    // A file is filled, closed and listed.
    let (file, mut hand) = HashFile::create(alloc, config, false, NoGate)?;
    fill(&rt, &file, &mut hand)?;
    let (closed, _) = file.close(&rt, hand)?;
    let listing = closed.into_listing()?;

    // The image of that listing goes to any writer, here to memory.
    let mut bytes = Vec::new(alloc);
    write_image(&listing, &mut bytes)?;
    println!(rt; "{} bytes written", bytes.len())?;

    // It is checked, and read back as the same listing.
    let census = check_image(alloc, &mut bytes.as_slice())?;
    println!(rt;
        "{} buckets, {} records, {} pages",
        census.buckets, census.records, census.pages
    )?;
    let listing = read_image(alloc, &mut bytes.as_slice())?;

    // A file is opened from it, and has its records.
    let (file, mut hand) = HashFile::open_from(alloc, &listing, false, NoGate)?;
    let reply = file.search(&rt, &mut hand, Key::new(b"sol")?)?.reply();
    println!(rt;
        "sol is there: {}",
        reply == Reply::Found(Value::new(b"note")?)
    )?;

    look_up(&rt, alloc, &bytes)?;

    // One byte less is no image.
    if let Some((_, mut cut)) = bytes.as_slice().split_last() {
        if let Err(fault) = check_image(alloc, &mut cut) {
            println!(rt; "cut short: {fault}")?;
        }
    }
    Ok(())
}
