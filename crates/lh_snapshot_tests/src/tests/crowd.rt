//! Snapshots and scans beside eight threads that write and split, under a gate at which each call lets others go first.

use super::scene::{ONE_BUCKET, Scene, perform};
use super::sound::ANY;
use super::tasks::{Task, Tasks};
use lh_stage::Told;
use std::test::Fail;

/// Eight hands that write, two that take three snapshots each, and one that scans.
const CROWD: [Tasks; 11] = [
    &[(Task::Calls(0), Told::Done)],
    &[(Task::Calls(1), Told::Done)],
    &[(Task::Snapshot, Told::Done); 3],
    &[(Task::Calls(2), Told::Done)],
    &[(Task::Calls(3), Told::Done)],
    &[(Task::Scan(&[]), Told::Done); 2],
    &[(Task::Calls(4), Told::Done)],
    &[(Task::Calls(5), Told::Done)],
    &[(Task::Snapshot, Told::Done); 3],
    &[(Task::Calls(6), Told::Done)],
    &[(Task::Calls(7), Told::Done)],
];

/// Each snapshot is just what the acts before it leave, whatever is written and split meanwhile, and each scan meets
/// the letters, which are there all along, and no key twice.
const IN_A_CROWD: Scene = Scene {
    settings: [1, 1, 100, 65536],
    gives_way: true,
    hands: &CROWD,
    taken: &[ANY; 6],
    ..ONE_BUCKET
};

#[test]
fn snapshots_settle(rt: HostRuntime) -> Result<(), Fail> {
    for _round in 0..100 {
        perform(&rt, rt.alloc(), &IN_A_CROWD)?;
    }
    Ok(())
}
