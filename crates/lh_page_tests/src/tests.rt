//! What no contract says: worked rows, printed texts, and each public call once.
mod chains;
mod equality;
mod errors;
mod keys;
mod memory;
mod pages;
mod records;
