//! Values that differ in one part alone are not equal.
use super::calls::{insert, search};
use lh_bucket::Reply;
use lh_core::{Effect, Event, Refusal, SplitState, WorkerState};
use lh_expect::{expect_eq, expect_ne};
use std::test::Fail;

#[test]
fn each_part_of_an_effect_counts(rt: HostRuntime) {
    let (level, bucket) = (1, 2);
    let aim = Effect::Aim { level, bucket };
    expect_ne!(rt; aim, Effect::Aim { level: 2, bucket });
    expect_ne!(rt; aim, Effect::Aim { level, bucket: 1 });
    expect_ne!(rt; aim, Effect::Locked { bucket, level });
    let locked = Effect::Locked { bucket, level };
    expect_ne!(rt; locked, Effect::Locked { bucket, level: 2 });
    expect_ne!(rt; locked, Effect::Locked { bucket: 1, level });
    expect_ne!(
        &rt,
        Effect::Answered(Reply::Exists),
        Effect::Answered(Reply::Inserted)
    );
    let (old, new) = (1, 3);
    let begun = Effect::Begun { old, new };
    expect_ne!(rt; begun, Effect::Begun { old: 0, new });
    expect_ne!(rt; begun, Effect::Begun { old, new: 2 });
    expect_ne!(rt; begun, Effect::Both { old, new });
    expect_ne!(&rt, Effect::Both { old, new }, Effect::Both { old, new: 2 });
    expect_ne!(&rt, Effect::Both { old, new }, Effect::Moved { old, new });
    expect_ne!(
        &rt,
        Effect::Moved { old, new },
        Effect::Moved { old: 0, new }
    );
    expect_ne!(
        &rt,
        Effect::Point { buckets: 2 },
        Effect::Point { buckets: 3 }
    );
    expect_ne!(&rt, Effect::Released, Effect::GivenUp);
    expect_ne!(&rt, Effect::Freed, Effect::Dropped);
    expect_ne!(&rt, Effect::Called, Effect::Released);
}

#[test]
fn refusals_are_apart(rt: HostRuntime) {
    let refusals = [
        Refusal::WrongState,
        Refusal::Held,
        Refusal::MustRehash,
        Refusal::NothingToRehash,
        Refusal::SplitBusy,
        Refusal::FileFull,
        Refusal::Memory,
    ];
    for (first, one) in refusals.iter().enumerate() {
        for (second, other) in refusals.iter().enumerate() {
            expect_eq!(&rt, *one == *other, first == second);
        }
    }
}

#[test]
fn each_part_of_an_event_and_of_a_state_counts(rt: HostRuntime) -> Result<(), Fail> {
    let (call, other) = (search(b"a")?, insert(b"a", b"1")?);
    expect_ne!(&rt, Event::Call(0, call), Event::Call(1, call));
    expect_ne!(&rt, Event::Call(0, call), Event::Call(0, other));
    expect_ne!(&rt, Event::Read(0), Event::Read(1));
    expect_ne!(&rt, Event::Read(0), Event::Lock(0));
    expect_ne!(&rt, Event::SplitLock, Event::SplitMove);
    expect_ne!(&rt, WorkerState::Idle, WorkerState::Called(call));
    expect_ne!(&rt, WorkerState::Called(other), WorkerState::Called(call));
    let aimed = WorkerState::Aimed(call, 1, 2);
    expect_ne!(rt; aimed, WorkerState::Aimed(other, 1, 2));
    expect_ne!(rt; aimed, WorkerState::Aimed(call, 2, 2));
    expect_ne!(rt; aimed, WorkerState::Aimed(call, 1, 1));
    expect_ne!(rt; aimed, WorkerState::Holding(call, 1, 2));
    expect_ne!(
        &rt,
        WorkerState::Acted(call, 1),
        WorkerState::Acted(call, 2)
    );
    expect_ne!(
        &rt,
        WorkerState::Acted(call, 1),
        WorkerState::Acted(other, 1)
    );
    expect_ne!(&rt, SplitState::Locked, SplitState::LockedMoved);
    expect_ne!(&rt, SplitState::Idle, SplitState::Moved);
    Ok(())
}
