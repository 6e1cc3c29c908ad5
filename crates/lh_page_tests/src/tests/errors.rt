//! The texts of errors.
use lh_expect::expect_eq;
use lh_page::{KeyLength, Memory, PageFault, ValueLength};
use std::alloc::{AllocError, AllocGlobal};
use std::fmt::Display;
use std::process::Abort;
use std::test::Fail;

/// A text, asked for once more where memory was refused.
fn printed<D: Display>(rt: &impl AllocGlobal, value: &D) -> Result<String, AllocError> {
    match format!(in rt.alloc(); "{value}") {
        Ok(text) => Ok(text),
        Err(AllocError) => format!(in rt.alloc(); "{value}"),
    }
}

fn expect_printed<D: Display>(
    rt: &(impl Abort + AllocGlobal),
    value: &D,
    text: &str,
) -> Result<(), Fail> {
    expect_eq!(rt; printed(rt, value)?.as_str(), text);
    Ok(())
}

#[test]
fn prints_errors(rt: HostRuntime) -> Result<(), Fail> {
    expect_printed(&rt, &KeyLength { length: 57 }, "key length 57")?;
    expect_printed(&rt, &KeyLength { length: 0 }, "key length 0")?;
    expect_printed(&rt, &ValueLength { length: 113 }, "value length 113")?;
    expect_printed(&rt, &Memory, "no memory")?;
    for (fault, text) in [
        (PageFault::Kind, "page kind"),
        (PageFault::Used, "page used"),
        (PageFault::Slot(13), "page slot 13"),
        (PageFault::Slot(3), "page slot 3"),
    ] {
        expect_printed(&rt, &fault, text)?;
    }
    Ok(())
}
