//! A bucket that counts the calls that it served.

use lh_bucket::{Answer, Bucket, Call, Memory, PagedBucket, Verdict};
use lh_page::Pair;
use std::alloc::Global;

/// A bucket of pages that counts what it served. As a bucket it is the one of pages, so all that is
/// proved of every bucket holds of it.
#[derive(Drop)]
pub struct Counted {
    bucket: PagedBucket,
    pub served: u64,
}

impl Bucket for Counted {
    ghost seen = { λ c. c.bucket };

    fn make(
        alloc: Global,
        initial: u32,
        capacity: u32,
        number: u32,
        level: Option<u8>,
    ) -> Result<Self, Memory> {
        let bucket = PagedBucket::make(alloc, initial, capacity, number, level)?;
        Ok(Counted { bucket, served: 0 })
    }

    fn number(&self) -> u32 {
        self.bucket.number()
    }

    fn initial(&self) -> u32 {
        self.bucket.initial()
    }

    fn capacity(&self) -> u32 {
        self.bucket.capacity()
    }

    fn level(&self) -> Option<u8> {
        self.bucket.level()
    }

    fn len(&self) -> usize {
        self.bucket.len()
    }

    fn pair_at(&self, place: usize) -> Pair {
        self.bucket.pair_at(place)
    }

    fn compare(&self, c: u64, k: u8) -> Verdict {
        self.bucket.compare(c, k)
    }

    fn look(&self, call: &Call, k: u8) -> Answer {
        self.bucket.look(call, k)
    }

    fn serve(&mut self, call: &Call, k: u8) -> Result<Answer, Memory> {
        self.served = self.served.saturating_add(1);
        self.bucket.serve(call, k)
    }

    fn split_into(&mut self, new: &mut Self) -> Result<(), Memory> {
        self.bucket.split_into(&mut new.bucket)
    }
}
