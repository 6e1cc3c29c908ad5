//! Roots, addresses and aims.
use lh_addr::{Aim, Config, Root, fnv1a, hash_at, level_of_size};
use lh_expect::expect_eq;
use std::test::Fail;

#[test]
fn address_goes_up_below_the_pointer(rt: HostRuntime) -> Result<(), Fail> {
    let code = fnv1a(b"a");
    expect_eq!(&rt, hash_at(3, 0, code), 1);
    expect_eq!(&rt, hash_at(3, 1, code), 4);
    expect_eq!(&rt, Root::new(3, 3).ok_or("root")?.address(code), 1);
    expect_eq!(&rt, Root::new(3, 4).ok_or("root")?.address(code), 1);
    expect_eq!(&rt, Root::new(3, 5).ok_or("root")?.address(code), 4);
    Ok(())
}

#[test]
fn root_of_three_buckets(rt: HostRuntime) -> Result<(), Fail> {
    let root = Root::new(1, 3).ok_or("root")?;
    expect_eq!(&rt, root.level(), 1);
    expect_eq!(&rt, root.pointer(), 1);
    expect_eq!(&rt, root.buckets(), 3);
    expect_eq!(&rt, root.level_of(0), 2);
    expect_eq!(&rt, root.level_of(1), 1);
    expect_eq!(&rt, root.level_of(2), 2);
    expect_eq!(&rt, root.next_split(), (1, 3, 2));
    expect_eq!(&rt, Root::new(2, 2).ok_or("root")?.next_split(), (0, 2, 1));
    Ok(())
}

#[test]
fn a_level_rises_when_all_buckets_have_doubled(rt: HostRuntime) -> Result<(), Fail> {
    expect_eq!(&rt, level_of_size(1, 1), 0);
    expect_eq!(&rt, level_of_size(1, 3), 1);
    expect_eq!(&rt, level_of_size(1, 4), 2);
    expect_eq!(&rt, level_of_size(3, 5), 0);
    expect_eq!(&rt, level_of_size(3, 6), 1);
    expect_eq!(&rt, level_of_size(3, 11), 1);
    expect_eq!(&rt, level_of_size(3, 12), 2);
    expect_eq!(&rt, level_of_size(255, 65_279), 7);
    expect_eq!(&rt, level_of_size(255, 65_280), 8);
    expect_eq!(&rt, level_of_size(256, 65_536), 8);
    expect_eq!(&rt, level_of_size(1, 65_536), 16);
    Ok(())
}

#[test]
fn an_aim_has_the_level_of_its_bucket(rt: HostRuntime) -> Result<(), Fail> {
    let root = Root::new(1, 3).ok_or("root")?;
    expect_eq!(
        &rt,
        root.aim(fnv1a(b"a")),
        Aim {
            level: 2,
            bucket: 0
        }
    );
    expect_eq!(
        &rt,
        root.aim(fnv1a(b"b")),
        Aim {
            level: 1,
            bucket: 1
        }
    );
    Ok(())
}

#[test]
fn a_root_grows_by_one_bucket(rt: HostRuntime) -> Result<(), Fail> {
    let root = Root::new(1, 3).ok_or("root")?.grown();
    expect_eq!(
        &rt,
        (root.buckets(), root.level(), root.pointer()),
        (4, 2, 0)
    );
    Ok(())
}

#[test]
fn a_configuration_has_roots(rt: HostRuntime) -> Result<(), Fail> {
    let config = Config::new(1, 2, 100, 4).ok().ok_or("config")?;
    expect_eq!(&rt, Some(config.root(3)), Root::new(1, 3));
    Ok(())
}

#[test]
fn roots_have_limits(rt: HostRuntime) -> Result<(), Fail> {
    expect_eq!(&rt, Root::new(3, 2), None);
    expect_eq!(&rt, Root::new(0, 1), None);
    expect_eq!(&rt, Root::new(257, 300), None);
    expect_eq!(&rt, Root::new(1, 65_537), None);
    let largest = Root::new(1, 65_536).ok_or("root")?;
    expect_eq!(&rt, largest.level(), 16);
    expect_eq!(&rt, largest.level_of(65_535), 16);
    Ok(())
}
