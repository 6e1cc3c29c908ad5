//! Published values, and figures of linear hashing.

mod codes;
mod configurations;
mod equality;
mod root_words;
mod roots;
