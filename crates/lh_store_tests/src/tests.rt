//! Sessions alone and in a crowd, and at small rooms.
mod calls;
mod crowd;
mod rooms;
