//! The answers to a client's lines, and how they read.
ghost use Rattle.std.specs.Prelude.{◌≡◌, ◌++◌, OnOk, Some};
ghost use Rattle.std.specs.String.{string_bytes};
ghost use Rattle.lh_serving.specs.Texts.{answer_text, fault_text, answer_line};

use lh_bucket::{Memory, Reply};
use lh_image::WriteImageFault;
use lh_script::{LineFault, Notation, ReplyText, SizeText};
use std::fmt;

/// Why a line is not served. The file is as it was.
#[derive(Clone, Copy, Debug, PartialEq, Eq)]
pub enum Fault {
    /// It is no request.
    Line(LineFault),
    /// It has more bytes than a line may have.
    TooLong,
    /// It asks for an image, and the answers go to a terminal.
    Terminal,
    /// There was no memory for its record, or for a copy of the file.
    Memory,
    /// The file has no image.
    Image(WriteImageFault),
}

/// The answer to a line.
#[derive(Clone, Copy, Debug, PartialEq, Eq)]
pub enum LineAnswer {
    /// The reply to a call.
    Reply(Reply),
    /// The number of buckets.
    Buckets(u32),
    /// The number of records.
    Records(u64),
    /// The file's image of version 2 comes next, of so many bytes.
    Image(u64),
    /// The line was not served.
    Fault(Fault),
}

impl fmt::Display for Fault {
    ghost output = { λ fault. Some (fault_text fault) };

    fn fmt<W: fmt::Write>(&self, f: &mut fmt::Formatter<W>) -> fmt::Result {
        match self {
            Fault::Line(fault) => write!(f, "{fault}"),
            Fault::TooLong => write!(f, "line too long"),
            Fault::Terminal => write!(f, "image on a terminal"),
            Fault::Memory => write!(f, "no memory"),
            Fault::Image(fault) => write!(f, "{fault}"),
        }
    }
}

/// An answer as one line of a text, without the line's end.
#[derive(Clone, Copy)]
pub struct AnswerText<'a> {
    pub notation: Notation,
    pub answer: &'a LineAnswer,
}

impl fmt::Display for AnswerText<'_> {
    ghost output = { λ text. Some (answer_text text.notation text.answer.now) };

    fn fmt<W: fmt::Write>(&self, f: &mut fmt::Formatter<W>) -> fmt::Result {
        match self.answer {
            LineAnswer::Reply(reply) => {
                let notation = self.notation;
                write!(f, "{}", ReplyText { notation, reply })
            },
            LineAnswer::Buckets(buckets) => write!(f, "{}", SizeText(*buckets)),
            LineAnswer::Records(records) => write!(f, "records {records}"),
            LineAnswer::Image(bytes) => write!(f, "image {bytes}"),
            LineAnswer::Fault(fault) => write!(f, "fault {fault}"),
        }
    }
}

/// Adds an answer, if there is one, to those that wait.
pub fn put(
    waiting: &mut String,
    notation: Notation,
    answer: Option<LineAnswer>,
) -> Result<(), Memory>
    ensures { OnOk result (string_bytes waiting.new ≡ string_bytes waiting.old ++ answer_line notation answer) }
{
    let Some(answer) = answer else {
        return Ok(());
    };
    let answer = &answer;
    if waiting.writeln(AnswerText { notation, answer }).is_err() {
        return Err(Memory);
    }
    Ok(())
}
