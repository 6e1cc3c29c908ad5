//! A table of small records, whose type says how much room each has.
#![tactic(auto)]

ghost use Rattle.std.specs.Prelude.{◌≤◌, length};

use lh_store::{CallFault, Config, Session, SizedOpenStore, Value};

/// Each record has 16 bytes for its key and its value together.
type Small = SizedOpenStore<16>;

/// A counter that is one further.
fn one_more(bytes: &[u8]) -> Value
    ensures { length result ≤ 4 }
{
    let count = <[u8; 4]>::try_from(bytes).map_or(0, u32::from_be_bytes);
    Value::new(&count.wrapping_add(1).to_be_bytes()).unwrap_or(Value::empty())
}

fn main(rt: HostRuntime) -> anyhow::Result<()> {
    let mut table = Small::new(rt.alloc(), Config::default())?;
    let mut small = table.session(&rt)?;
    small.put(&7_u64.to_le_bytes(), &1_796_000_000_u64.to_le_bytes())?;
    for word in ["red", "ultramarine"] {
        match small.upsert(b"colour", word.as_bytes()) {
            Ok(is_new) => println!(rt; "{word} is kept, in a new record: {is_new}")?,
            Err(CallFault::Room { bytes, room }) => println!(rt;
                "{word}: {bytes} bytes, not {room}"
            )?,
            Err(fault) => return Err(fault.into()),
        }
    }
    // A new value has 4 bytes at most, as the contract of `one_more` says.
    small.merge_within(b"visits", &1_u32.to_be_bytes(), 4, one_more)?;
    println!(rt; "{} records", small.len())?;
    Ok(())
}
