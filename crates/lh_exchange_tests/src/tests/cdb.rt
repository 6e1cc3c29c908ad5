//! Streams of cdb.

use super::expect_outcome;
use std::test::Fail;

#[test]
fn records_of_cdb_are_read(rt: HostRuntime) -> Result<(), Fail> {
    for (bytes, want) in [
        (b"\n".as_slice(), ""),
        (b"+3,4:ada->0171\n\n".as_slice(), "[b\"ada\" b\"0171\"]"),
        (
            b"+1,0:a->\n+1,1:a->b\n\n".as_slice(),
            "[b\"a\" b\"\"][b\"a\" b\"b\"]",
        ),
        // Lengths alone say where a key and a value end.
        (
            b"+4,5:\n->\x00->->\n\xff\n\n\n".as_slice(),
            "[b\"\\n->\\x00\" b\"->\\n\\xff\\n\"]",
        ),
        (
            b"+10,13:one of ten->another of 12\n\n".as_slice(),
            "[b\"one of ten\" b\"another of 12\"]",
        ),
    ] {
        expect_outcome(&rt, bytes, want)?;
    }
    Ok(())
}

#[test]
fn records_that_cdb_has_not_are_faults(rt: HostRuntime) -> Result<(), Fail> {
    for (bytes, want) in [
        (b"+1,1:a->b\nx".as_slice(), "record 2: bad record"),
        (
            b"+1,1:a->b\n\n\n".as_slice(),
            "record 2: bytes behind the end",
        ),
        (
            b"\n+1,1:a->b\n".as_slice(),
            "record 1: bytes behind the end",
        ),
        (b"+1,1:a->b\n".as_slice(), "record 2: no end line"),
        (b"+1,1:a->b".as_slice(), "record 1: no end line"),
        (b"+1,1:a-".as_slice(), "record 1: no end line"),
        (b"+1,1".as_slice(), "record 1: no end line"),
        (b"+".as_slice(), "record 1: no end line"),
        (b"+1,1:a-.b\n\n".as_slice(), "record 1: bad record"),
        (b"+1,1:a>>b\n\n".as_slice(), "record 1: bad record"),
        (b"+1,1:a->bc\n\n".as_slice(), "record 1: bad record"),
        (b"+1,1;a->b\n\n".as_slice(), "record 1: bad record"),
        (b"+1:1,a->b\n\n".as_slice(), "record 1: bad record"),
    ] {
        expect_outcome(&rt, bytes, want)?;
    }
    Ok(())
}

#[test]
fn lengths_are_decimal_numbers(rt: HostRuntime) -> Result<(), Fail> {
    for (bytes, want) in [
        (b"+,1:a->b\n\n".as_slice(), "record 1: bad record"),
        (b"+1,:a->b\n\n".as_slice(), "record 1: bad record"),
        (b"+01,1:a->b\n\n".as_slice(), "record 1: bad record"),
        (b"+1,00:a->b\n\n".as_slice(), "record 1: bad record"),
        (b"+-1,1:a->b\n\n".as_slice(), "record 1: bad record"),
        (b"+ 1,1:a->b\n\n".as_slice(), "record 1: bad record"),
        (b"+1a,1:a->b\n\n".as_slice(), "record 1: bad record"),
        (b"+0,1:->b\n\n".as_slice(), "record 1: key length 0"),
        (b"+57,1:".as_slice(), "record 1: key length 57"),
        (b"+1,113:".as_slice(), "record 1: value length 113"),
        (
            b"+1,18446744073709551615:".as_slice(),
            "record 1: value length 18446744073709551615",
        ),
        (
            b"+1,18446744073709551616:a->b\n\n".as_slice(),
            "record 1: bad record",
        ),
        (
            b"+18446744073709551617,1:a->b\n\n".as_slice(),
            "record 1: bad record",
        ),
        (
            b"+99999999999999999999,1:a->b\n\n".as_slice(),
            "record 1: bad record",
        ),
    ] {
        expect_outcome(&rt, bytes, want)?;
    }
    Ok(())
}
