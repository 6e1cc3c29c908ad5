//! Whether a bucket is the one that a call looks for.
ghost use Rattle.std.specs.Prelude.{◌≡◌, ◌≤◌};
ghost use Rattle.std.specs.Option.{ForSome};
ghost use Rattle.lh_addr.specs.Limits.{IsInitial, most_level};
ghost use Rattle.lh_bucket.specs.Verdict.{verdict_of};

use lh_addr::hash_at;

/// What a bucket says to a call that looks for it at a level.
#[derive(Clone, Copy, Debug, PartialEq, Eq)]
pub enum Verdict {
    /// The call's key belongs here.
    Here,
    /// The bucket was split since: the call has to look one level up, at that level's bucket.
    Next { k: u8, bucket: u32 },
    /// The call can't be meant for this bucket, or the bucket isn't filled yet.
    Defect,
}

/// The verdict of a bucket with this number and level on a key of code `c` that is looked for at
/// level `k`.
#[tactic(auto, unfolding(crate::specs::Verdict::verdict_of))]
pub(crate) fn verdict_of(number: u32, initial: u32, level: Option<u8>, c: u64, k: u8) -> Verdict
    requires initial { IsInitial initial }
    requires low { k ≤ most_level }
    requires level { ForSome level (λ l. l ≤ most_level) }
    ensures { result ≡ verdict_of number initial level c k }
{
    if hash_at(initial, k, c) != number {
        return Verdict::Defect;
    }
    match level {
        None => Verdict::Defect,
        Some(level) if level < k => Verdict::Defect,
        Some(level) if level == k => Verdict::Here,
        Some(_) => Verdict::Next {
            k: k + 1,
            bucket: hash_at(initial, k + 1, c),
        },
    }
}
