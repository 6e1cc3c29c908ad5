//! Configurations, and when a file is to grow.
use lh_addr::{Config, Range};
use lh_expect::{expect, expect_eq};
use std::test::Fail;

#[test]
fn configurations_have_limits(rt: HostRuntime) -> Result<(), Fail> {
    expect_eq!(&rt, Config::new(0, 14, 100, 1), Err(Range::Initial));
    expect_eq!(&rt, Config::new(1, 25, 300, 0), Err(Range::Capacity));
    expect_eq!(&rt, Config::new(1, 14, 201, 0), Err(Range::Load));
    expect_eq!(&rt, Config::new(3, 2, 100, 2), Err(Range::Max));
    expect_eq!(
        &rt,
        Range::Max.to_string(rt.alloc())?.as_str(),
        "max is out of range"
    );
    let config = Config::new(3, 2, 100, 65_536).ok().ok_or("config")?;
    expect_eq!(&rt, config.initial(), 3);
    expect_eq!(&rt, config.capacity(), 2);
    expect_eq!(&rt, config.load(), 100);
    expect_eq!(&rt, config.max(), 65_536);
    let widest = Config::new(1, 24, 100, 1).ok().ok_or("config")?;
    expect_eq!(&rt, widest.capacity(), 24);
    Ok(())
}

#[test]
fn a_split_is_wanted_above_the_threshold(rt: HostRuntime) -> Result<(), Fail> {
    let config = Config::new(1, 2, 100, 3).ok().ok_or("config")?;
    expect!(&rt, !config.wants_split(2, 1));
    expect!(&rt, config.wants_split(3, 1));
    expect!(&rt, config.wants_split(u64::MAX, 2));
    expect!(&rt, !config.wants_split(u64::MAX, 3));
    Ok(())
}

#[test]
fn a_setting_is_changed_by_its_name(rt: HostRuntime) -> Result<(), Fail> {
    let config = Config::default();
    expect_eq!(&rt, Config::new(1, 14, 100, 65_536), Ok(config));
    let config = config.with_initial(3).ok().ok_or("initial")?;
    let config = config.with_capacity(2).ok().ok_or("capacity")?;
    let config = config.with_load(80).ok().ok_or("load")?;
    expect_eq!(&rt, config.with_max(7), Config::new(3, 2, 80, 7));
    expect_eq!(&rt, config.with_initial(257), Err(Range::Initial));
    expect_eq!(&rt, config.with_capacity(0), Err(Range::Capacity));
    expect_eq!(&rt, config.with_load(9), Err(Range::Load));
    expect_eq!(&rt, config.with_max(2), Err(Range::Max));
    let small = config.with_max(3).ok().ok_or("max")?;
    expect_eq!(&rt, small.with_initial(4), Err(Range::Max));
    Ok(())
}
