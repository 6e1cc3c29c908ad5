//! A conversation with a client over a linear hash file: lines that come in parts, and their answers.
//!
//! What comes is heard in whatever pieces it comes in. A line is answered as soon as its LF has come; what its answer
//! says is that of one plain map, whatever the pieces.
//!
//! ```text
//! let mut talk = Conversation::new(alloc, Notation::Hexadecimal, false, config)?;
//! talk.hear(b"insert 61 31\nsea")?;    // the first line is answered; `sea` is left
//! talk.waiting()                       // inserted
//! ```
#![tactic(auto)]

mod answer;
mod conversation;
mod part;
mod serving;

pub use answer::{AnswerText, Fault, LineAnswer};
pub use conversation::Conversation;
pub use part::LONGEST_LINE;
