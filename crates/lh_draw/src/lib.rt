//! What is drawn of a file: its buckets from left to right, each as a stack of pages, or in groups where there are
//! many. A listing gives the elements of its drawing, each of which displays as SVG text.
//!
//! ```text
//! canvas_of(&listing, longest).to_string(alloc)?       // <svg xmlns=..
//! page_bar(&listing, 0, 0).to_string(alloc)?           // the first page of bucket 0
//! ```
#![tactic(auto)]

mod bars;
mod columns;
mod elements;
pub mod laws;
mod measures;
mod sizes;
mod tally;

pub use bars::{Bar, Cuts, More};
pub use columns::{
    canvas_of, cuts_of, floor_of, group_bar, label_count, label_of, legend_of, mark_of, more_of,
    page_bar, title_of, whole_tally,
};
pub use elements::{Canvas, Caption, Label, Legend, Mark, Plot, Title};
pub use measures::{column_count, is_detailed};
pub use sizes::MOST_DRAWN;
pub use tally::{Tally, chain_length};
