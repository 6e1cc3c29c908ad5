//! The picture of a schedule: a lane for the splitter and one for each worker, downwards a row for each step, a box for
//! each bucket that is held and an arrow for each rehash. Events and what was told of them give the elements of the
//! picture, each of which displays as SVG text.
//!
//! ```text
//! canvas_of(&events).to_string(alloc)?             // <svg xmlns=..
//! step_of(&events, &entries, 0).to_string(alloc)?  // the first step, in the lane of its worker
//! ```
#![tactic(auto)]

mod elements;
mod label;
mod lanes;
pub mod laws;
mod picture;
mod shapes;
mod sizes;

pub use elements::{End, Heading, PictureCaption, Step};
pub use label::EventLabel;
pub use lanes::{lane_count, lane_of};
pub use picture::{canvas_of, caption_of, heading_of, step_of};
pub use shapes::Shape;
