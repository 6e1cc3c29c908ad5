//! Words from end to end.
mod files;
mod options;
mod text;
