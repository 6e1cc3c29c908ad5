//! A file in one thread: a phone book that grows as it fills.
#![tactic(auto)]

ghost use Rattle.lh_file.specs.FileState.{IsOf};

use lh_addr::Config;
use lh_file::{Hand, HashFile, NoGate};
use lh_page::{Key, Value};
use std::str;
use std::sync::Wait;

const BOOK: [(&str, &str); 6] = [
    ("Ada", "0171"),
    ("Barbara", "0212"),
    ("Frances", "0215"),
    ("Grace", "0845"),
    ("Kathleen", "0131"),
    ("Ada", "0000"),
];

/// Inserts the whole book, and tells of names that are there already.
fn fill<R: Print + Wait>(rt: &R, file: &HashFile<NoGate>, hand: &mut Hand) -> anyhow::Result<()>
    requires { IsOf file.now.state hand.old }
    ensures { IsOf file.now.state hand.new }
{
    for (name, number) in BOOK {
        let (key, value) = (Key::new(name.as_bytes())?, Value::new(number.as_bytes())?);
        if !file.put(rt, hand, &key, &value)? {
            println!(rt; "{name} is there already")?;
        }
    }
    Ok(())
}

/// Looks a name up, and prints its number.
fn print_number<R: Print + Wait>(
    rt: &R,
    file: &HashFile<NoGate>,
    hand: &mut Hand,
    name: &str,
) -> anyhow::Result<()>
    requires { IsOf file.now.state hand.old }
    ensures { IsOf file.now.state hand.new }
{
    match file.get(rt, hand, &Key::new(name.as_bytes())?)? {
        Some(value) => println!(rt; "{name}: {}", str::from_utf8(value.bytes())?)?,
        None => println!(rt; "{name} is not in the book")?,
    }
    Ok(())
}

fn main(rt: HostRuntime) -> anyhow::Result<()> {
    // One bucket at first, two records to a page; a bucket splits whenever the pages are full.
    let config = Config::default().with_capacity(2)?;
    let (file, mut hand) = HashFile::new(rt.alloc(), config)?;
    fill(&rt, &file, &mut hand)?;

    print_number(&rt, &file, &mut hand, "Ada")?;
    file.set(&rt, &mut hand, &Key::new(b"Ada")?, &Value::new(b"0172")?)?;
    print_number(&rt, &file, &mut hand, "Ada")?;
    file.remove(&rt, &mut hand, &Key::new(b"Ada")?)?;
    print_number(&rt, &file, &mut hand, "Ada")?;

    println!(rt; "{} buckets", file.buckets(&mut hand))?;
    let (closed, _) = file.close(&rt, hand)?;
    println!(rt; "{} records", closed.records())?;
    Ok(())
}
