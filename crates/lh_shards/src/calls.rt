//! Calls by a key: each is that of the key's file.
mod answered;
mod atomic;
mod lent;
