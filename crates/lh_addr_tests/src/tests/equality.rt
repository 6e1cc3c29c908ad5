//! Values that differ in one part alone are not equal.
use lh_addr::{Aim, Config, Range, Root};
use lh_expect::expect_ne;
use std::test::Fail;

#[test]
fn each_part_counts(rt: HostRuntime) -> Result<(), Fail> {
    let aim = Aim {
        level: 1,
        bucket: 0,
    };
    expect_ne!(&rt, aim, Aim { level: 2, ..aim });
    expect_ne!(&rt, aim, Aim { bucket: 1, ..aim });
    expect_ne!(&rt, Root::new(1, 4), Root::new(2, 4));
    expect_ne!(&rt, Root::new(1, 4), Root::new(1, 5));
    expect_ne!(&rt, Range::Initial, Range::Max);
    expect_ne!(&rt, Range::Capacity, Range::Load);
    let config = Config::new(1, 14, 100, 8)?;
    for (initial, capacity, load, max) in [
        (2, 14, 100, 8),
        (1, 13, 100, 8),
        (1, 14, 101, 8),
        (1, 14, 100, 9),
    ] {
        expect_ne!(&rt, Config::new(initial, capacity, load, max)?, config);
    }
    Ok(())
}
