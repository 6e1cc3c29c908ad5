//! Scripts, and the texts of what they lead to: the tables of words and lines, both ways.
//!
//! `parse` reads a script of commands or of steps, whole: its statements in their order, or the first line at fault.
//! `read_request` reads one line of a client, and `cut_line` cuts the first line off what has come.
//! The other way, a reply, an effect, a refusal and a byte string each have a text, as what a type displays.
//!
//! ```text
//! let calls: Vec<Call> = parse(alloc, Notation::Text, b"insert a 1\nsearch a")?;    // an insert and a search
//! ReplyText { notation: Notation::Text, reply: &reply }.to_string(alloc)?          // found 1
//! ```
#![tactic(auto)]

mod byte_texts;
mod calls;
mod commands;
mod fault;
mod hexadecimal;
pub mod laws;
mod lines;
mod notation;
mod operands;
mod plain;
mod requests;
mod script;
mod step_texts;
mod steps;
mod texts;

pub use byte_texts::{KeyWord, ValueWord};
pub use fault::{LineFault, ParseError, ScriptFault};
pub use notation::Notation;
pub use operands::read_key;
pub use requests::{ClientRequest, cut_line, read_request};
pub use script::{MOST_BYTES, Statement, parse};
pub use step_texts::{EffectText, EntryText, RefusalText};
pub use texts::{ReplyText, SizeText};
