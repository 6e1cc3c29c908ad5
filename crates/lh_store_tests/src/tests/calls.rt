//! Each call of a session that is alone, on a traced store and on an untraced one.
ghost use Rattle.std.specs.Prelude.{◌≤◌, length};

use lh_expect::expect_eq;
use lh_store::{
    BucketCopy, CallFault, Compared, Config, ExtendFault, KeyLength, OpenStore, Session, Snapshots,
    Store, Value, ValueLength, Work,
};
use std::test::Fail;

/// A call of a session, by a key and with a value that are given beside it.
#[derive(Clone, Copy)]
pub(crate) enum Ask {
    Get,
    ReadInto,
    WithValue,
    Contains,
    Put,
    Set,
    Remove,
    Upsert,
    GetOrPut,
    Take,
    /// Puts the next byte in the place of the first.
    Update,
    /// The same, or the value as the first.
    Merge,
    /// Both by a closure that is said to make one byte.
    UpdateWithin,
    MergeWithin,
    /// Expects the value, and puts its next byte in its place.
    CompareAndSet,
}

/// What a call tells.
#[derive(Clone, Copy, Debug, PartialEq, Eq)]
pub(crate) enum Told {
    Yes,
    No,
    /// There is no value.
    None,
    /// A value with this first byte.
    Value(u8),
    Replaced,
    Differs,
    Absent,
    /// A fault of the key, whose length this is.
    Key(usize),
    /// A fault of the value, whose length this is.
    Length(usize),
    /// There are so many bytes, and room for so many.
    Room(usize, usize),
    Fault,
}

impl From<bool> for Told {
    fn from(is_so: bool) -> Told {
        if is_so { Told::Yes } else { Told::No }
    }
}

impl From<Option<u8>> for Told {
    fn from(byte: Option<u8>) -> Told {
        byte.map_or(Told::None, |byte| Told::Value(byte))
    }
}

impl From<Option<Value>> for Told {
    fn from(value: Option<Value>) -> Told {
        Told::from(value.map(|value| first_of(value.bytes())))
    }
}

impl From<Compared> for Told {
    fn from(compared: Compared) -> Told {
        match compared {
            Compared::Replaced => Told::Replaced,
            Compared::Differs => Told::Differs,
            Compared::Absent => Told::Absent,
        }
    }
}

impl From<CallFault> for Told {
    fn from(fault: CallFault) -> Told {
        match fault {
            CallFault::Key(KeyLength { length }) => Told::Key(length),
            CallFault::Value(ValueLength { length }) => Told::Length(length),
            CallFault::Room { bytes, room } => Told::Room(bytes, room),
            CallFault::File(_) => Told::Fault,
        }
    }
}

/// The first byte of a value, which isn't empty.
fn first_of(bytes: &[u8]) -> u8 {
    bytes.first().copied().unwrap_or(b'-')
}

/// A value of one byte, the next after the first of these.
fn next_of(bytes: &[u8]) -> Value
    ensures { length result ≤ 1 }
{
    Value::new(&[first_of(bytes).wrapping_add(1)]).unwrap_or(Value::empty())
}

/// Reads the value under a key over another one, which stays where there is none.
fn read<S: Session>(table: &mut S, key: &[u8]) -> Result<Told, CallFault> {
    let mut value = next_of(b"8");
    let is_there = table.read_into(key, &mut value)?;
    Ok(match (is_there, first_of(value.bytes())) {
        (true, byte) => Told::Value(byte),
        (false, b'9') => Told::None,
        (false, _) => Told::Fault,
    })
}

/// Makes a call.
fn made<S: Session>(table: &mut S, ask: Ask, key: &[u8], value: &[u8]) -> Result<Told, CallFault> {
    Ok(match ask {
        Ask::Get => table.get(key)?.into(),
        Ask::ReadInto => read(table, key)?,
        Ask::WithValue => table
            .with_value(key, |bytes: &[u8]| first_of(bytes))?
            .into(),
        Ask::Contains => table.contains(key)?.into(),
        Ask::Put => table.put(key, value)?.into(),
        Ask::Set => table.set(key, value)?.into(),
        Ask::Remove => table.remove(key)?.into(),
        Ask::Upsert => table.upsert(key, value)?.into(),
        Ask::GetOrPut => table.get_or_put(key, value)?.into(),
        Ask::Take => table.take(key)?.into(),
        Ask::Update => table.update(key, |bytes: &[u8]| next_of(bytes))?.into(),
        Ask::Merge => table
            .merge(key, value, |bytes: &[u8]| next_of(bytes))?
            .into(),
        Ask::UpdateWithin => table.update_within(key, 1, next_of)?.into(),
        Ask::MergeWithin => table.merge_within(key, value, 1, next_of)?.into(),
        Ask::CompareAndSet => {
            let next = next_of(value);
            table.compare_and_set(key, value, next.bytes())?.into()
        }
    })
}

/// What a call tells.
pub(crate) fn tell<S: Session>(table: &mut S, ask: Ask, key: &[u8], value: &[u8]) -> Told {
    made(table, ask, key, value).unwrap_or_else(|fault| Told::from(fault))
}

/// A call, its key, its value, and what it tells.
pub(crate) type Row = (Ask, u8, u8, Told);

/// Each call where its key is there, and where it isn't.
const ROWS: [Row; 37] = [
    (Ask::Get, b'a', b'-', Told::None),
    (Ask::ReadInto, b'a', b'-', Told::None),
    (Ask::WithValue, b'a', b'-', Told::None),
    (Ask::Contains, b'a', b'-', Told::No),
    (Ask::Set, b'a', b'1', Told::No),
    (Ask::Remove, b'a', b'-', Told::No),
    (Ask::Take, b'a', b'-', Told::None),
    (Ask::Update, b'a', b'-', Told::No),
    (Ask::CompareAndSet, b'a', b'1', Told::Absent),
    (Ask::Put, b'a', b'1', Told::Yes),
    (Ask::Get, b'a', b'-', Told::Value(b'1')),
    (Ask::ReadInto, b'a', b'-', Told::Value(b'1')),
    (Ask::WithValue, b'a', b'-', Told::Value(b'1')),
    (Ask::Contains, b'a', b'-', Told::Yes),
    (Ask::Put, b'a', b'2', Told::No),
    (Ask::Get, b'a', b'-', Told::Value(b'1')),
    (Ask::Set, b'a', b'3', Told::Yes),
    (Ask::Get, b'a', b'-', Told::Value(b'3')),
    (Ask::Upsert, b'a', b'4', Told::No),
    (Ask::GetOrPut, b'a', b'5', Told::Value(b'4')),
    (Ask::Update, b'a', b'-', Told::Yes),
    (Ask::Merge, b'a', b'9', Told::No),
    (Ask::CompareAndSet, b'a', b'5', Told::Differs),
    (Ask::CompareAndSet, b'a', b'6', Told::Replaced),
    (Ask::Take, b'a', b'-', Told::Value(b'7')),
    (Ask::Get, b'a', b'-', Told::None),
    (Ask::Upsert, b'b', b'1', Told::Yes),
    (Ask::Remove, b'b', b'-', Told::Yes),
    (Ask::GetOrPut, b'b', b'2', Told::None),
    (Ask::Get, b'b', b'-', Told::Value(b'2')),
    (Ask::Merge, b'c', b'3', Told::Yes),
    (Ask::Get, b'c', b'-', Told::Value(b'3')),
    (Ask::Put, b'd', b'4', Told::Yes),
    (Ask::UpdateWithin, b'd', b'-', Told::Yes),
    (Ask::MergeWithin, b'd', b'9', Told::No),
    (Ask::UpdateWithin, b'e', b'-', Told::No),
    (Ask::Get, b'd', b'-', Told::Value(b'6')),
];

/// The place of the first row whose call tells something else, and what it tells.
pub(crate) fn first_wrong<S: Session>(table: &mut S, rows: &[Row]) -> Option<(usize, Told)> {
    for (place, (ask, key, value, due)) in rows.iter().enumerate() {
        let told = tell(table, *ask, &[*key], &[*value]);
        if told != *due {
            return Some((place, told));
        }
    }
    None
}

/// What a session tells of its table, and of itself.
#[derive(Clone, Copy, Debug, PartialEq, Eq)]
pub(crate) struct Facts {
    pub(crate) len: u64,
    pub(crate) buckets: u64,
    pub(crate) told: u64,
    pub(crate) left: u64,
    /// How many records a snapshot has,
    pub(crate) listed: u64,
    /// and how many a closure is given.
    pub(crate) given: u64,
}

pub(crate) fn facts_of<S: Snapshots>(table: &mut S) -> Result<Facts, CallFault> {
    let mut given = 0_u64;
    table.for_each(|copy: BucketCopy| given = given.saturating_add(copy.pairs.len() as u64))?;
    let listed = table.snapshot()?.len();
    Ok(Facts {
        len: table.len(),
        buckets: table.buckets(),
        told: table.told(),
        left: table.left(),
        listed,
        given,
    })
}

/// Makes the calls of all rows, and tells what is there then.
struct Rows;

impl Work for Rows {
    type Done = (Option<(usize, Told)>, Option<Facts>);

    fn run<S: Snapshots>(&self, _thread: usize, table: &mut S) -> Self::Done {
        (first_wrong(table, &ROWS), facts_of(table).ok())
    }
}

/// Three records, after an act for each row, by a session that had this many calls.
fn due(calls: u64) -> Facts {
    Facts {
        len: 3,
        buckets: 1,
        told: 37,
        left: calls.saturating_sub(37),
        listed: 3,
        given: 3,
    }
}

/// One thread has half of 2^63 calls.
#[test]
fn each_call_is_answered_on_a_traced_store(rt: HostRuntime) -> Result<(), Fail> {
    let mut store = Store::new(rt.alloc(), Config::default())?;
    let ran = store.run(&rt, 1, &Rows)?;
    expect_eq!(&rt, ran.done.first(), Some(&(None, Some(due(1 << 62)))));
    expect_eq!(&rt, (ran.acts, store.len()), (37, 3));
    Ok(())
}

#[test]
fn each_call_is_answered_on_an_open_store(rt: HostRuntime) -> Result<(), Fail> {
    let mut table = OpenStore::new(rt.alloc(), Config::default())?;
    let told = Rows.run(0, &mut table.session(&rt)?);
    expect_eq!(rt; told, (None, Some(due(1 << 44))));
    expect_eq!(&rt, table.snapshot(&rt)?.len(), 3);
    Ok(())
}

const ALL: [Ask; 15] = [
    Ask::Get,
    Ask::ReadInto,
    Ask::WithValue,
    Ask::Contains,
    Ask::Put,
    Ask::Set,
    Ask::Remove,
    Ask::Upsert,
    Ask::GetOrPut,
    Ask::Take,
    Ask::Update,
    Ask::Merge,
    Ask::UpdateWithin,
    Ask::MergeWithin,
    Ask::CompareAndSet,
];

/// The calls that are given a value.
const WITH_A_VALUE: [Ask; 7] = [
    Ask::Put,
    Ask::Set,
    Ask::Upsert,
    Ask::GetOrPut,
    Ask::Merge,
    Ask::MergeWithin,
    Ask::CompareAndSet,
];

/// Whether each of these calls tells this.
pub(crate) fn all_tell<S: Session>(
    table: &mut S,
    asks: &[Ask],
    key: &[u8],
    value: &[u8],
    due: Told,
) -> bool {
    for ask in asks {
        if tell(table, *ask, key, value) != due {
            return false;
        }
    }
    true
}

/// What can't be a key or a value is told, the key first, and is no act. The longest of both are served.
fn checks_lengths<S: Session>(table: &mut S) -> bool {
    let (key, value) = ([b'k'; 57], [b'v'; 113]);
    all_tell(table, &ALL, b"", &value, Told::Key(0))
        && all_tell(table, &ALL, &key, &value, Told::Key(57))
        && all_tell(table, &WITH_A_VALUE, b"a", &value, Told::Length(113))
        && table.told() == 0
        && tell(table, Ask::Put, &key[..56], &value[..112]) == Told::Yes
        && tell(table, Ask::Get, &key[..56], b"") == Told::Value(b'v')
        && tell(table, Ask::Set, &key[..56], b"") == Told::Yes
}

/// Checks lengths in each thread.
struct Lengths;

impl Work for Lengths {
    type Done = bool;

    fn run<S: Session>(&self, _thread: usize, table: &mut S) -> bool {
        checks_lengths(table)
    }
}

#[test]
fn lengths_are_checked(rt: HostRuntime) -> Result<(), Fail> {
    let mut store = Store::new(rt.alloc(), Config::default())?;
    let ran = store.run(&rt, 1, &Lengths)?;
    expect_eq!(&rt, (ran.acts, ran.done.first()), (3, Some(&true)));
    let mut table = OpenStore::new(rt.alloc(), Config::default())?;
    expect_eq!(rt; checks_lengths(&mut table.session(&rt)?), true);
    Ok(())
}

/// Adds no records, then three, two of one key, then four, of which the third has no key.
struct Adding;

impl Work for Adding {
    type Done = [Result<usize, ExtendFault>; 3];

    fn run<S: Session>(&self, _thread: usize, table: &mut S) -> Self::Done {
        [
            table.extend(&[]),
            table.extend(&[(b"a", b"1"), (b"b", b"2"), (b"a", b"3")]),
            table.extend(&[(b"b", b"4"), (b"c", b"5"), (b"", b"6"), (b"d", b"7")]),
        ]
    }
}

/// What that tells: the records in front of one that is refused are there, and none behind it.
const ADDED: [Result<usize, ExtendFault>; 3] = [
    Ok(0),
    Ok(2),
    Err(ExtendFault {
        done: 2,
        added: 1,
        fault: CallFault::Key(KeyLength { length: 0 }),
    }),
];

#[test]
fn records_are_added_up_to_the_first_that_is_refused(rt: HostRuntime) -> Result<(), Fail> {
    let mut store = Store::new(rt.alloc(), Config::default())?;
    let ran = store.run(&rt, 1, &Adding)?;
    expect_eq!(&rt, ran.done.first(), Some(&ADDED));
    expect_eq!(&rt, (ran.acts, store.len()), (5, 3));
    let mut table = OpenStore::new(rt.alloc(), Config::default())?;
    let mut session = table.session(&rt)?;
    expect_eq!(&rt, Adding.run(0, &mut session), ADDED);
    expect_eq!(&rt, (session.told(), session.len()), (5, 3));
    expect_eq!(&rt, session.get(b"a")?, Some(Value::new(b"1")?));
    Ok(())
}
