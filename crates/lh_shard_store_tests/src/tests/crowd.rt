//! Threads that share a table.
ghost use Rattle.std.specs.Prelude.{◌≤◌, length};

use lh_expect::expect_eq;
use lh_shard_store::{CallFault, Config, Session, ShardStore, Value};
use std::test::Fail;
use std::thread::{self, Threads};

/// The number of four bytes.
fn number_in(bytes: &[u8]) -> u32 {
    match bytes {
        [a, b, c, d] => u32::from_be_bytes([*a, *b, *c, *d]),
        _ => 0,
    }
}

/// The number after that of four bytes.
fn one_more(bytes: &[u8]) -> Value
    ensures { length result ≤ 4 }
{
    let next = number_in(bytes).wrapping_add(1);
    Value::new(&next.to_be_bytes()).unwrap_or(Value::empty())
}

/// Puts a hundred records of this thread, removes every second one, and counts each under one key of all threads.
fn count<S: Session>(table: &mut S, thread: u8) -> Result<(), CallFault> {
    for turn in 0..100_u8 {
        let key = [thread, turn];
        table.put(&key, b"1")?;
        table.merge_within(b"all", &1_u32.to_be_bytes(), 4, one_more)?;
        if turn % 2 == 0 {
            table.remove(&key)?;
        }
    }
    Ok(())
}

/// Counts with each session, each in a thread of its own.
fn count_by_all<S: Session + Send>(rt: &(impl Threads + Sync), sessions: &mut [S]) {
    thread::for_each_mut(
        rt,
        sessions,
        8,
        &|thread: usize, own: &mut S| {
            let [.., last] = thread.to_be_bytes();
            let _ = count(own, last);
        },
    );
}

#[test]
fn eight_sessions_see_one_table(rt: HostRuntime) -> Result<(), Fail> {
    let mut table = ShardStore::new(rt.alloc(), Config::default().with_capacity(2)?, 4)?;
    let mut sessions = table.sessions(&rt, 8)?;
    expect_eq!(&rt, sessions.len(), 8);
    count_by_all(&rt, &mut sessions);
    for session in &mut sessions {
        let counted = session.with_value(b"all", |bytes: &[u8]| number_in(bytes))?;
        expect_eq!(&rt, (session.len(), counted), (8 * 50 + 1, Some(800)));
    }
    Ok(())
}
