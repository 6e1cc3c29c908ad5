//! Keys, values and records, packed chains of them, and the bytes of a page in either format of images.
//!
//! ```
//! let mut chain = Chain::new(rt.alloc(), 14)?;
//! let key = Key::new(b"name")?;
//! if chain.find(&key).is_none() {
//!     chain.push(Pair { key, value: Value::new(b"Ada")? })?;
//! }
//! ```
#![tactic(auto)]

mod chain;
mod comparing;
mod division;
mod fault;
pub mod format;
mod going;
mod head;
mod key;
mod key_set;
pub mod lanes;
pub mod laws;
pub mod limits;
mod marks;
mod memory;
mod packing;
mod page;
mod pair;
mod pairs;
mod reading;
mod record_list;
mod record_slot;
mod rows;
mod slot;
mod texts;
mod value;
mod writing;

pub use chain::{Chain, SizedChain};
pub use fault::PageFault;
pub use head::{PageHead, is_zero, page_head, page2_head};
pub use key::{Key, KeyLength};
pub use key_set::KeySet;
pub use memory::Memory;
pub use packing::pages_needed;
pub use page::{Page, PageKind};
pub use pair::Pair;
pub use pairs::Pairs;
pub use reading::{page_from_bytes, page2_from_bytes, pairs_behind_head};
pub use texts::{KeyText, ValueText};
pub use value::{Value, ValueLength};
pub use writing::{page_to_bytes, page2_to_bytes};
