//! The texts of refusals.
use lh_core::Refusal;
use lh_expect::expect_eq;
use std::test::Fail;

#[test]
fn each_refusal_has_its_text(rt: HostRuntime) -> Result<(), Fail> {
    let texts = [
        (Refusal::WrongState, "not in a state for it"),
        (Refusal::Held, "the bucket is held"),
        (Refusal::MustRehash, "the place has to rehash"),
        (Refusal::NothingToRehash, "there is nothing to rehash"),
        (Refusal::SplitBusy, "a split is under way"),
        (Refusal::FileFull, "the file is full"),
        (Refusal::Memory, "no memory"),
    ];
    for (refusal, text) in texts {
        expect_eq!(rt; refusal.to_string(rt.alloc())?.as_str(), text);
    }
    Ok(())
}
