//! What is wrong with the pages of an image, and the listing of pages with which nothing is.
pub(crate) mod chains;
pub(crate) mod links;
pub(crate) mod listed;
pub(crate) mod lists;
pub(crate) mod misplaced;
pub(crate) mod page_checks;
