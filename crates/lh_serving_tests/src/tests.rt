//! Conversations from bytes to bytes.
mod conversations;
mod long;
mod text;
mod turns;
