//! The subcommands of `lhash` that work in one thread, each from the bytes of its input to those of its output and a
//! status. They rest on no running file, so they are proved beside it.
//!
//! `commands` reads a command script, answers its calls and writes their replies. `steps` reads a step script, takes
//! its steps and writes the effect of each; `replay` draws them. `build` reads a command script and writes the
//! resulting file as an image, and `load` does so of the records of another store; `check` reads an image and writes its
//! counts, `dump` its records, also in the formats of other stores, `draw` a drawing, and `migrate` its image in version 2. `query` and `apply` read an image and behind it a command script: `query` writes
//! the replies, and `apply` the image of the file that the calls leave. `serve` answers lines as they come. The image
//! of these three may be an input of its own. `get` looks keys up in the bytes of an image. What the one that works in
//! threads shares with them stands here too.
#![tactic(auto)]

mod answer;
mod continued;
mod device;
mod draw;
mod export;
mod get;
mod image_texts;
mod images;
mod input;
pub mod laws;
mod load;
mod output;
mod replay;
mod serve;
mod status;
mod unsettled;

pub use answer::{answer_commands, answer_steps};
pub use continued::{answer_apply, answer_apply_to, answer_query, answer_query_of};
pub use device::write_all;
pub use draw::answer_draw;
pub use export::answer_export;
pub use get::answer_get;
pub use images::{answer_build, answer_check, answer_dump, answer_migrate};
pub use input::read_script;
pub use lh_exchange::StreamFormat;
pub use lh_image::WriteFailed;
pub use lh_script::Notation;
pub use load::{RecordsFault, answer_load};
pub use replay::answer_replay;
pub use serve::{answer_serve, answer_serve_from, answer_serve_of};
pub use status::{DeviceFault, InputFault, Status};
pub use unsettled::Unsettled;
