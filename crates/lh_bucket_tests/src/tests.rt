//! Both buckets through their trait, and listings.

mod calls;
mod changes;
mod equality;
mod listings;
mod memory;
mod rooms;
mod serving;
mod splitting;
