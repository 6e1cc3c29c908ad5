//! Images on a disk, snapshots that are saved there, and where memory is refused.
mod disk;
mod memory;
mod moments;
mod saving;
