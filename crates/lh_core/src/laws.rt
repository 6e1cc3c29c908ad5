//! Laws of the definitions in `specs/`, each the contract of a function that does nothing: a caller
//! whose proof needs a law calls it.
ghost use Rattle.lh_core.specs.Laws.{LinearHashing, AimsLaw, OpenCallLaw, SpansLaw, RisesLaw};

use lh_addr::laws::{
    address_is_only_bucket, aims_last, hashes_are_nested, root_is_only_pair, split_moves_one_bucket,
};

/// The laws of linear hashing, together.
pub(crate) fn linear_hashing()
    ensures { LinearHashing }
{
    root_is_only_pair();
    address_is_only_bucket();
    split_moves_one_bucket();
    aims_last();
    hashes_are_nested();
}

/// In every state that a list of steps leads to, each aim leads to a filled bucket whose level isn't
/// lower.
pub fn aims_lead()
    ensures { AimsLaw }
{
    linear_hashing();
}

/// Each accepted act lies in the span of the call that it serves: the open call of its worker.
pub fn acts_lie_in_spans()
    ensures open_call { OpenCallLaw }
    ensures spans { SpansLaw }
{
    linear_hashing();
}

/// Each accepted act took place as many levels above the one that its worker read as it has rehashed
/// since.
pub fn acts_have_risen()
    ensures { RisesLaw }
{
    linear_hashing();
}
