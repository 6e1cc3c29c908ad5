//! Sessions alone and in a crowd, tables that are closed and opened, and where memory is refused.
mod calls;
mod crowd;
mod memory;
mod opened;
