//! The texts of faults.

use lh_expect::expect;
use lh_file::{FileFault, Hand, JoinFault, Memory};
use lh_stage::file_of;
use std::alloc::AllocError;
use std::fmt::Display;
use std::test::Fail;

/// A text, asked for once more where memory was refused.
fn printed<D: Display>(rt: &HostRuntime, value: &D) -> Result<String, AllocError> {
    match format!(in rt.alloc(); "{value}") {
        Ok(text) => Ok(text),
        Err(AllocError) => format!(in rt.alloc(); "{value}"),
    }
}

/// Whether a value has this text.
fn prints<D: Display>(rt: &HostRuntime, value: &D, text: &str) -> Result<bool, AllocError> {
    Ok(printed(rt, value)?.as_str() == text)
}

#[test]
fn prints_faults(rt: HostRuntime) -> Result<(), Fail> {
    let defect = FileFault::Defect {
        wanted_bucket: 3,
        wanted_level: 2,
        found_bucket: 3,
        found_level: None,
    };
    expect!(
        &rt,
        prints(&rt, &defect, "bucket 3 at level 2 is not there")?
    );
    expect!(
        &rt,
        prints(&rt, &FileFault::Spent { left: 10 }, "10 calls left")?
    );
    expect!(&rt, prints(&rt, &FileFault::from(Memory), "no memory")?);
    Ok(())
}

/// A hand's text in a message, asked for once more where memory was refused.
fn shown(rt: &HostRuntime, hand: &Hand) -> Result<String, AllocError> {
    match format!(in rt.alloc(); "{hand:?}") {
        Ok(text) => Ok(text),
        Err(AllocError) => format!(in rt.alloc(); "{hand:?}"),
    }
}

/// Whether that is this text.
fn is_shown(rt: &HostRuntime, hand: &Hand, text: &str) -> Result<bool, AllocError> {
    Ok(shown(rt, hand)?.as_str() == text)
}

#[test]
fn prints_a_hand(rt: HostRuntime) -> Result<(), Fail> {
    let (file, mut first) = file_of(rt.alloc(), 8)?;
    let second = file.split_hand(&mut first, 10)?;
    expect!(&rt, is_shown(&rt, &second, "Hand(10 left)")?);
    Ok(())
}

#[test]
fn prints_faults_of_joins(rt: HostRuntime) -> Result<(), Fail> {
    let (file, mut first) = file_of(rt.alloc(), 8)?;
    let second = file.split_hand(&mut first, 10)?;
    expect!(&rt, prints(&rt, &JoinFault { first, second }, "no memory")?);
    Ok(())
}
