//! Laws of the rule. Each is the contract of a function that does nothing.
ghost use Rattle.lh_words.specs.RuleLaws.{OneRight, NoRight, DrawnOnce, NotDrawn};

/// At most one hand has the right to split: exactly one where the root word is odd, else none.
pub fn right_is_one_hands()
    ensures odd { OneRight }
    ensures even { NoRight }
{}

/// Each stamp was drawn by exactly one hand, once, and what is no stamp by none.
pub fn stamps_are_drawn_once()
    ensures below { DrawnOnce }
    ensures above { NotDrawn }
{}
