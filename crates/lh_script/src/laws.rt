//! Facts about words and the bytes that they stand for, each the contract of a function that does nothing.
ghost use Rattle.lh_script.specs.NotationLaws.{ExactLaw, WordsReadBackLaw, ShortLaw};

/// What is written of bytes, in either notation, is read back as these bytes.
pub fn a_word_is_read_back()
    ensures { WordsReadBackLaw }
{}

/// A word is read as text only where it is what is written of the bytes that it stands for: so no bytes have two texts.
pub fn a_text_is_read_only_as_written()
    ensures { ExactLaw }
{}

/// No word is longer than three bytes for each of those that it is written of.
pub fn words_are_short()
    ensures { ShortLaw }
{}
