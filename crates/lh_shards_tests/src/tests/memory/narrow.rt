//! Memory that is refused to shards whose records have 32 bytes.
ghost use Rattle.std.specs.Prelude.{IfOk};
ghost use Rattle.lh_page.specs.Slots.{FitsRoom};
ghost use Rattle.lh_shards.specs.Hands.{AreOf};

use crate::tests::narrow::{Narrow, record};
use lh_addr::Config;
use lh_expect::expect;
use lh_file::FileFault;
use lh_page::{Key, Value};
use lh_shards::{CreateFault, Hands};
use std::alloc::Global;
use std::sync::Wait;
use std::test::Fail;

/// Four shards.
fn made_again(alloc: Global, config: Config) -> Result<(Narrow, Hands), CreateFault>
    ensures { IfOk result (λ made. AreOf made.0 made.1) }
{
    match Narrow::create(alloc, config, 4, false) {
        Err(CreateFault::Memory) => Narrow::create(alloc, config, 4, false),
        made => made,
    }
}

/// Inserts a record: whether all went as it has to. Where the insert was refused, the key isn't there.
fn put_again<R: Wait>(rt: &R, shards: &Narrow, hands: &mut Hands, key: &Key, value: &Value) -> bool
    requires of { AreOf shards.now hands.old }
    requires fits { FitsRoom 32 key.now value.now }
    ensures { AreOf shards.now hands.new }
{
    match shards.put(rt, hands, key, value) {
        Err(FileFault::Memory) => {
            shards.get(rt, hands, key) == Ok(None) && shards.put(rt, hands, key, value) == Ok(true)
        }
        put => put == Ok(true),
    }
}

/// Inserts 24 records, and gives each its value once more, which is never refused: whether all went as it has to.
fn fill_again<R: Wait>(rt: &R, shards: &Narrow, hands: &mut Hands) -> bool
    requires { AreOf shards.now hands.old }
{
    for number in 1..25_u8 {
        let Some((key, value)) = record(number) else {
            return false;
        };
        if !put_again(rt, shards, hands, &key, &value)
            || shards.set(rt, hands, &key, &value) != Ok(true)
        {
            return false;
        }
    }
    true
}

#[test]
fn memory_refused_to_narrow_shards(rt: HostRuntime) -> Result<(), Fail> {
    let (shards, mut hands) = made_again(rt.alloc(), Config::new(1, 2, 100, 16)?)?;
    expect!(&rt, fill_again(&rt, &shards, &mut hands));
    Ok(())
}
