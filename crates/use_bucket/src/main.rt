//! A bucket type of one's own: it counts the calls that it served, so that the busiest bucket shows.
#![tactic(auto)]

mod counted;

use counted::Counted;
use lh_addr::Config;
use lh_bucket::{Bucket, Call};
use lh_core::serial;
use lh_page::{Key, Value};

/// All that `serial` promises of a file holds, whatever type of bucket it has.
fn main(rt: HostRuntime) -> anyhow::Result<()> {
    let mut calls = Vec::new(rt.alloc());
    for letter in b'a'..b'z' {
        calls.push(Call::Insert(Key::new(&[letter])?, Value::new(b"")?))?;
    }
    let ran = serial::<Counted>(rt.alloc(), Config::default().with_capacity(2)?, &calls)?;
    for number in 0..ran.world.filled() {
        let bucket = ran.world.bucket(number);
        println!(rt;
            "bucket {number}: {} records, {} calls",
            bucket.len(),
            bucket.served
        )?;
    }
    Ok(())
}
