//! What no contract says: two hands that take turns in one thread, files that are opened from a listing, segments, keys with
//! their codes, and growth that is refused.
mod coded;
mod memory;
mod opened;
mod outer;
mod segments;
mod turns;
