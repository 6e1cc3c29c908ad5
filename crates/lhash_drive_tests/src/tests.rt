//! Runs in threads, and runs that something fails.
mod devices;
mod drive;
mod drive_shards;
mod memory;
