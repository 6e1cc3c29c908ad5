//! Runs from words and bytes to bytes and a status.
mod commands;
mod get;
mod replay;
mod serve;
mod steps;
mod text;
mod words;
