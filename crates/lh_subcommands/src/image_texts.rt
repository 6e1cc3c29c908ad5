//! What `check` and `dump` write of an image, each text as what a type displays.
ghost use Rattle.std.specs.Prelude.{Some};
ghost use Rattle.lh_subcommands.specs.ImageTexts.{check_text, record_text};

use lh_image::Census;
use lh_page::Pair;
use lh_script::{KeyWord, Notation, ValueWord};
use std::fmt;

/// A census as seven lines, each a name and a number.
#[derive(Clone, Copy)]
pub struct CensusText<'a>(pub &'a Census);

impl fmt::Display for CensusText<'_> {
    ghost output = { λ text. Some (check_text text.0.now) };

    #[tactic(auto, unfolding(crate::specs::ImageTexts::check_text))]
    fn fmt<W: fmt::Write>(&self, f: &mut fmt::Formatter<W>) -> fmt::Result {
        let Census {
            buckets,
            level,
            pointer,
            records,
            pages,
            overflow,
            longest,
        } = *self.0;
        write!(
            f,
            "buckets {buckets}\nlevel {level}\npointer {pointer}\nrecords {records}\npages {pages}\noverflow {overflow}\nlongest {longest}\n"
        )
    }
}

/// A record of a bucket as one line of a text, without the line's end: the bucket's number, then key and value.
#[derive(Clone, Copy)]
pub struct RecordText<'a> {
    pub notation: Notation,
    pub bucket: u32,
    pub pair: &'a Pair,
}

impl fmt::Display for RecordText<'_> {
    ghost output = { λ text. Some (record_text text.notation text.bucket text.pair.now) };

    fn fmt<W: fmt::Write>(&self, f: &mut fmt::Formatter<W>) -> fmt::Result {
        let RecordText { notation, pair, .. } = *self;
        let key = KeyWord {
            notation,
            key: &pair.key,
        };
        let value = ValueWord {
            notation,
            value: &pair.value,
        };
        write!(f, "{} {key} {value}", self.bucket)
    }
}
