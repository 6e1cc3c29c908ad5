//! What a picture means, by the definitions of `specs/Picture.antt`. Each law is the contract of a function that does
//! nothing.
ghost use Rattle.lh_replay.specs.Meaning.{BothHeldLaw, HeldLaw, LaneLaw, ReachLaw};

/// A box reaches down to the first accepted step that lets its lane's bucket go,
/// and an arrow to the first that locks one.
pub fn boxes_end_where_buckets_are_let_go()
    ensures { ReachLaw }
{}

/// Each step stands in a lane that is drawn.
pub fn steps_have_lanes()
    ensures { LaneLaw }
{}

/// As far as a box reaches, its bucket is held: by the worker whose lane it stands in, or by the splitter.
pub fn boxes_are_held()
    ensures by_worker { HeldLaw }
    ensures by_splitter { BothHeldLaw }
{}
