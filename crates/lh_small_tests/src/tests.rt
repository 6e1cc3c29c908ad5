//! Files of small records, untraced and traced: eight threads, a snapshot, where memory is refused, and records of two bytes.
mod crowd;
mod made;
mod memory;
mod narrow;
mod snapshot;
