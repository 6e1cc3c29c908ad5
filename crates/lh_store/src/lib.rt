//! A table of records as one value. Each thread makes its calls by a [`Session`], and a function that is generic in its
//! session needs no contract. [`Store::run`] lets threads work on a traced table and keeps what they leave; an
//! [`OpenStore`] is a table without history.
//!
//! ```text
//! struct Booking;
//!
//! impl Work for Booking {
//!     type Done = Result<bool, CallFault>;
//!
//!     fn run<S: Session>(&self, thread: usize, seats: &mut S) -> Self::Done {
//!         seats.put(b"seat 1", GUESTS[thread])
//!     }
//! }
//!
//! let mut seats = Store::load(&rt, "seats.lhf")?;
//! let ran = seats.run(&rt, 2, &Booking)?;           // one legal history of ran.acts calls
//! seats.save(&rt, "seats.lhf")?;
//! ```
//!
//! Where keys and values are short, a [`SizedOpenStore`] names the most bytes that a key and its value have together, up to
//! 168: a record takes some 20 bytes and 1.3 for each byte of this room, 60 where it is 32, and 230 in an [`OpenStore`].
#![tactic(auto)]

mod disk;
mod fault;
mod file_session;
mod open_store;
mod room;
mod session;
mod snapshots;
mod store;
mod threads;

pub use disk::{LoadFault, SaveFault, load, save};
pub use fault::{CallFault, ExtendFault, OpenStoreFault};
pub use file_session::{FileSession, SessionName, SizedSession, Unnamed};
pub use lh_addr::Config;
pub use lh_file::{
    BucketCopy, Compared, FileFault, Memory, RoomFault, Traced, Unbranded, Untraced, WIDEST_ROOM,
};
pub use lh_image::{ImageFault, WriteImageFault};
pub use lh_page::{Key, KeyLength, Value, ValueLength};
pub use open_store::{OpenStore, SizedOpenStore};
pub use session::Session;
pub use snapshots::Snapshots;
pub use store::{Store, Work, WorkDone};
