//! Tables whose records have 16 bytes for key and value, or 32.
use super::calls::{Ask, Facts, Row, Told, all_tell, facts_of, first_wrong, tell};
use super::crowd::{count_by_all, number_in};
use lh_expect::{expect, expect_eq};
use lh_store::{
    CallFault, Config, ExtendFault, OpenStore, OpenStoreFault, RoomFault, Session, SizedOpenStore,
    Snapshots, Store, Value,
};
use std::sync::Wait;
use std::test::Fail;

type Small = SizedOpenStore<16>;

type Middle = SizedOpenStore<32>;

/// Each call where its key is there, and where it isn't.
const ROWS: [Row; 20] = [
    (Ask::Get, b'a', b'-', Told::None),
    (Ask::WithValue, b'a', b'-', Told::None),
    (Ask::Contains, b'a', b'-', Told::No),
    (Ask::Set, b'a', b'1', Told::No),
    (Ask::UpdateWithin, b'a', b'-', Told::No),
    (Ask::CompareAndSet, b'a', b'1', Told::Absent),
    (Ask::Put, b'a', b'1', Told::Yes),
    (Ask::Put, b'a', b'2', Told::No),
    (Ask::WithValue, b'a', b'-', Told::Value(b'1')),
    (Ask::Set, b'a', b'3', Told::Yes),
    (Ask::Upsert, b'a', b'4', Told::No),
    (Ask::GetOrPut, b'a', b'5', Told::Value(b'4')),
    (Ask::UpdateWithin, b'a', b'-', Told::Yes),
    (Ask::MergeWithin, b'a', b'9', Told::No),
    (Ask::CompareAndSet, b'a', b'6', Told::Replaced),
    (Ask::Take, b'a', b'-', Told::Value(b'7')),
    (Ask::MergeWithin, b'b', b'1', Told::Yes),
    (Ask::Upsert, b'c', b'2', Told::Yes),
    (Ask::GetOrPut, b'd', b'3', Told::None),
    (Ask::Remove, b'd', b'-', Told::Yes),
];

/// Two records, after an act for each row.
const DUE: Facts = Facts {
    len: 2,
    buckets: 1,
    told: 20,
    left: (1 << 44) - 20,
    listed: 2,
    given: 2,
};

/// Whether each call is answered.
fn answers_each_call<S: Snapshots>(table: &mut S) -> bool {
    first_wrong(table, &ROWS).is_none() && facts_of(table) == Ok(DUE)
}

#[test]
fn each_call_is_answered_at_a_small_room(rt: HostRuntime) -> Result<(), Fail> {
    let mut table = Small::new(rt.alloc(), Config::default())?;
    expect!(&rt, answers_each_call(&mut table.session(&rt)?));
    let mut table = Middle::new(rt.alloc(), Config::default())?;
    expect!(&rt, answers_each_call(&mut table.session(&rt)?));
    Ok(())
}

/// The calls that are to write the value that they are given.
const WRITES: [Ask; 5] = [
    Ask::Put,
    Ask::Set,
    Ask::Upsert,
    Ask::GetOrPut,
    Ask::MergeWithin,
];

/// Those that write nothing, by what they tell of a key that isn't there.
const READS: [(Ask, Told); 5] = [
    (Ask::Get, Told::None),
    (Ask::WithValue, Told::None),
    (Ask::Contains, Told::No),
    (Ask::Remove, Told::No),
    (Ask::Take, Told::None),
];

/// Whether a key that has no room is absent.
fn is_absent<S: Session>(table: &mut S, key: &[u8]) -> bool {
    for (ask, due) in READS {
        if tell(table, ask, key, b"") != due {
            return false;
        }
    }
    true
}

/// Whether closures are refused that may make a value of ten bytes beside a key of `key`, in `room`, less than that.
fn refuses_closures<S: Session>(table: &mut S, key: &[u8], room: usize) -> bool {
    let bytes = key.len().saturating_add(10);
    let fault = CallFault::Room { bytes, room };
    table.update_within(key, 10, |_bytes: &[u8]| Value::empty()) == Err(fault)
        && table.merge_within(key, b"1", 10, |_bytes: &[u8]| Value::empty()) == Err(fault)
}

/// What has no room in 16 bytes is refused, with both numbers, and is no act. What has just room is served.
fn checks_rooms<S: Session>(table: &mut S) -> bool {
    let key = [b'k'; 56];
    all_tell(table, &WRITES, &key[..10], b"1234567", Told::Room(17, 16))
        && all_tell(table, &WRITES[..4], &key[..17], b"", Told::Room(17, 16))
        && all_tell(table, &WRITES, &key, &[b'v'; 112], Told::Room(168, 16))
        && tell(table, Ask::CompareAndSet, &key[..16], b"1") == Told::Room(17, 16)
        && tell(table, Ask::UpdateWithin, &key[..16], b"") == Told::Room(17, 16)
        && tell(table, Ask::Update, &key[..1], b"") == Told::Room(113, 16)
        && tell(table, Ask::Merge, &key[..1], b"1") == Told::Room(113, 16)
        && refuses_closures(table, &key[..7], 16)
        && table.told() == 0
        && tell(table, Ask::Put, &key[..10], b"123456") == Told::Yes
        && tell(table, Ask::MergeWithin, &key[..15], b"1") == Told::Yes
        && tell(table, Ask::Set, &key[..10], b"1234567") == Told::Room(17, 16)
        && tell(table, Ask::Get, &key[..10], b"") == Told::Value(b'1')
        && tell(table, Ask::Put, &key[..16], b"") == Told::Yes
        && is_absent(table, &key[..17])
        && is_absent(table, &key)
        && table.len() == 3
}

/// A session of a table that has the longest room is never refused for want of it.
fn has_all_room<S: Session>(table: &mut S) -> bool {
    let (key, value) = ([b'k'; 56], [b'v'; 112]);
    tell(table, Ask::Upsert, &key, &value) == Told::Yes
        && tell(table, Ask::Update, &key, b"") == Told::Yes
        && tell(table, Ask::Merge, &key, &value) == Told::No
}

#[test]
fn what_has_no_room_is_told(rt: HostRuntime) -> Result<(), Fail> {
    let mut table = Small::new(rt.alloc(), Config::default())?;
    expect!(&rt, checks_rooms(&mut table.session(&rt)?));
    let mut table = OpenStore::new(rt.alloc(), Config::default())?;
    expect!(&rt, has_all_room(&mut table.session(&rt)?));
    Ok(())
}

#[test]
fn records_are_added_up_to_the_first_that_has_no_room(rt: HostRuntime) -> Result<(), Fail> {
    let mut table = Small::new(rt.alloc(), Config::default())?;
    let mut session = table.session(&rt)?;
    let told = session.extend(&[(b"a", b"1"), (b"b", b"1234567890123456"), (b"c", b"3")]);
    let fault = CallFault::Room {
        bytes: 17,
        room: 16,
    };
    expect_eq!(
        &rt,
        told,
        Err(ExtendFault {
            done: 1,
            added: 1,
            fault
        })
    );
    expect_eq!(&rt, (session.len(), session.told()), (1, 1));
    Ok(())
}

/// The records of a table in one bucket, of which the second has 17 bytes and the third 33.
fn three(rt: &(impl AllocGlobal + Wait)) -> Result<Store, Fail> {
    let mut table = OpenStore::new(rt.alloc(), Config::default())?;
    let records: [(&[u8], &[u8]); 3] = [
        (b"a", b"1"),
        (b"b", b"1234567890123456"),
        (b"c", b"12345678901234567890123456789012"),
    ];
    table.session(rt)?.extend(&records)?;
    Ok(table.snapshot(rt)?)
}

#[test]
fn the_first_record_that_has_no_room_is_named(rt: HostRuntime) -> Result<(), Fail> {
    let store = three(&rt)?;
    let first = Small::open_sized(rt.alloc(), &store).err();
    expect_eq!(
        &rt,
        first,
        Some(OpenStoreFault::Room(RoomFault {
            bucket: 0,
            place: 1
        }))
    );
    let second = Middle::open_sized(rt.alloc(), &store).err();
    expect_eq!(
        &rt,
        second,
        Some(OpenStoreFault::Room(RoomFault {
            bucket: 0,
            place: 2
        }))
    );
    let mut table = SizedOpenStore::<33>::open_sized(rt.alloc(), &store)?;
    expect_eq!(&rt, table.snapshot(&rt)?.len(), 3);
    Ok(())
}

/// Each of eight threads leaves 50 records, and they count to 800 under one key.
#[test]
fn eight_sessions_see_one_small_table(rt: HostRuntime) -> Result<(), Fail> {
    let mut table = Small::new(rt.alloc(), Config::default().with_capacity(2)?)?;
    let mut sessions = table.sessions(&rt, 8)?;
    count_by_all(&rt, &mut sessions);
    for session in &mut sessions {
        let counted = session.with_value(b"all", |bytes: &[u8]| number_in(bytes))?;
        expect_eq!(&rt, (session.len(), counted), (8 * 50 + 1, Some(800)));
    }
    Ok(())
}
