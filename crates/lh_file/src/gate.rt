//! Points at which a call tells its file's gate where it stands.

/// Where a call of a file stands. Buckets go by their numbers.
#[derive(Clone, Copy, Debug, PartialEq, Eq)]
pub enum Point {
    /// A call has read the size of the file: a search, an insert, a delete, a replace or a snapshot.
    Read,
    /// It has got the lock of a bucket, and hasn't looked at it yet; a visit has, which reads no size.
    Holding { bucket: u32 },
    /// It has served its call at the bucket, whose lock it still has.
    Acted { bucket: u32 },
    /// It has dropped the lock of the bucket, served or not, or a visit has.
    Released { bucket: u32 },
    /// A snapshot has the locks of all buckets, which are this many, and has copied none yet.
    Surveyed { buckets: u32 },
    /// It has copied the bucket and dropped its lock, and has those of all buckets behind it still.
    Copied { bucket: u32 },
    /// The right to split was got.
    RightGot,
    /// A split has moved its records and dropped both locks. The file's size is the old one yet.
    Moved { old: u32, new: u32 },
    /// A split has made the file this many buckets large, and given the right up.
    Pointed { buckets: u32 },
}

/// What a file tells of each point, in the thread of the call that stands there. A gate may wait,
/// as tests do to hold a call in a place; a call whose gate never returns never returns. The file
/// holds no lock at a point but those that the point names.
pub trait Gate {
    fn at(&self, point: Point);
}

/// A gate at which nothing happens.
#[derive(Clone, Copy, Debug, PartialEq, Eq)]
pub struct NoGate;

impl Gate for NoGate {
    fn at(&self, _point: Point) {}
}

/// A gate that is lent, so that its owner may look at it while the file has it.
impl<G: Gate> Gate for &G {
    fn at(&self, point: Point) {
        (**self).at(point);
    }
}
