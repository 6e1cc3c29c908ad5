//! Memory that is refused to hands in threads: run with each request for it refused in turn, one in each run.

use super::crew::added_in_threads;
use super::threads::{check_acts, worked_apart};
use lh_addr::Config;
use lh_expect::{expect, expect_eq};
use lh_stage::made_again;
use std::test::Fail;

/// Three hands of threads make ten calls each. Where memory was refused, one of them has not begun or has made a call
/// fewer: none of the acts that were made is lost.
#[test]
fn refused_growth_loses_no_act_of_threads(rt: HostRuntime) -> Result<(), Fail> {
    let (file, all) = worked_apart(&rt, rt.alloc(), 3, 5)?;
    let acts = match check_acts(&rt, rt.alloc(), file, all)? {
        Some(acts) => acts,
        // A refused close has taken file and hand along: another file is used then.
        None => {
            let (file, all) = worked_apart(&rt, rt.alloc(), 3, 5)?;
            check_acts(&rt, rt.alloc(), file, all)?.ok_or("no memory")?
        }
    };
    expect!(&rt, acts == 30 || acts == 29 || acts == 20);
    Ok(())
}

/// Hands for threads, and the hand that theirs are joined into, stay as they were where memory is refused, and so does
/// each call: what the joined hand has made are the acts that were served.
#[test]
fn refused_hands_come_back(rt: HostRuntime) -> Result<(), Fail> {
    let config = Config::new(1, 14, 100, 65536)?;
    let (file, hand) = made_again(rt.alloc(), config)?;
    let hand = added_in_threads(&rt, &file, hand, 2)?;
    let made = (1_u64 << 63).wrapping_sub(hand.left());
    expect!(&rt, made == 51 || made == 52);
    let mut hand = hand;
    expect_eq!(rt; file.load(&mut hand).inserted, made);
    Ok(())
}
