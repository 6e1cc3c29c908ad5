//! Scripts from end to end.
mod commands;
mod memory;
mod steps;
mod text;
