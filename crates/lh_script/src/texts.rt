//! The texts that the program writes, each as what a type displays.
ghost use Rattle.std.specs.Prelude.{Some};
ghost use Rattle.lh_script.specs.Texts.{reply_text, size_text};

use crate::byte_texts::ValueWord;
use crate::notation::Notation;
use lh_bucket::Reply;
use std::fmt;

/// A reply as one line of a text, without the line's end.
#[derive(Clone, Copy)]
pub struct ReplyText<'a> {
    pub notation: Notation,
    pub reply: &'a Reply,
}

impl fmt::Display for ReplyText<'_> {
    ghost output = { λ text. Some (reply_text text.notation text.reply.now) };

    fn fmt<W: fmt::Write>(&self, f: &mut fmt::Formatter<W>) -> fmt::Result {
        match self.reply {
            Reply::Found(value) => {
                let notation = self.notation;
                write!(f, "found {}", ValueWord { notation, value })
            },
            Reply::Absent => write!(f, "absent"),
            Reply::Inserted => write!(f, "inserted"),
            Reply::Exists => write!(f, "exists"),
            Reply::Deleted => write!(f, "deleted"),
            Reply::Replaced => write!(f, "replaced"),
        }
    }
}

/// The number of buckets of a file.
#[derive(Clone, Copy)]
pub struct SizeText(pub u32);

impl fmt::Display for SizeText {
    ghost output = { λ text. Some (size_text text.0) };

    fn fmt<W: fmt::Write>(&self, f: &mut fmt::Formatter<W>) -> fmt::Result {
        write!(f, "buckets {}", self.0)
    }
}
