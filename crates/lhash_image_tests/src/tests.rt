//! Runs that read an image or write one.
mod draw;
mod images;
mod load;
