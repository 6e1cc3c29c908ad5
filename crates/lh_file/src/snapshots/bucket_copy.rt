//! What is copied of one bucket of a running file.
use lh_addr::Aim;
use lh_page::Pair;

/// The records of one bucket of a running file, at one moment.
#[derive(Debug, Drop)]
pub struct BucketCopy {
    /// Where the codes of its keys lead: the bucket, and its level then.
    pub aim: Aim,
    /// How many stamps were drawn by then: how many acts there were.
    pub stamps: u64,
    pub pairs: Vec<Pair>,
}
