//! Laws over the definitions of settling, each the contract of a function that does nothing: a
//! caller whose proof needs a law calls it.

ghost use Rattle.lh_settling.specs.Laws.{HistoryLaw, SettledLaw, OneFaultLaw, AnswerLaw, OrderLaw, FilledLaw};

use lh_addr::laws::address_is_only_bucket;

/// What settling can say of a file is one thing: the one history of its acts, or one fault.
pub fn settling_has_one_answer()
    ensures history { HistoryLaw }
    ensures settled { SettledLaw }
    ensures fault { OneFaultLaw }
    ensures answer { AnswerLaw }
{
    address_is_only_bucket();
}

/// Whatever stamps some acts have, they can be put in the order of these.
pub fn acts_have_an_order()
    ensures { OrderLaw }
{}

/// Buckets that hold just the records of a map whose addresses they are, none of them a key twice, hold no key twice
/// together: the records of the map are placed in them.
pub fn full_buckets_are_placed()
    ensures { FilledLaw }
{}
