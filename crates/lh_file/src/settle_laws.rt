//! Laws of settling, each the contract of a function that does nothing: a caller whose proof needs a law calls it.

ghost use Rattle.lh_file.specs.Closing.{NoneMissingLaw};

pub use lh_settling::laws::settling_has_one_answer;

/// No stamp is missing where the file records and all calls came home: where the hand that closed it may make as many
/// calls as its acts leave of 2^63. That is what [`HashFile::close`](crate::HashFile::close) ensures of its acts.
pub fn no_stamp_is_missing()
    ensures { NoneMissingLaw }
{}
