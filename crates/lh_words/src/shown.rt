//! What a call that picks is shown of a bucket.
ghost use Rattle.lh_bucket.specs.Bucket.{Seen};

use lh_bucket::SizedBucket;

/// A bucket, whatever room its records have. A call that picks what is done names no room, so it is passed one of these.
pub(crate) trait Shown {
    // What contracts see of it.
    ghost seen: { Self → Seen };
}

impl<const ROOM: usize> Shown for SizedBucket<ROOM> {
    ghost seen = { λ bucket. bucket };
}
