//! Traced files: alone, in a crowd, ended, and where memory is refused.
mod alone;
mod crowd;
mod ended;
mod memory;
