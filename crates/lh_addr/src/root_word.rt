//! The root of a running file, in one word.
ghost use Rattle.std.specs.Prelude.{◌≡◌, ◌<◌, ◌^◌};

/// The coding of a running file's root in one word, which a single atomic step reads or changes:
/// twice the number of buckets, and one more while a caller has the right to split.
///
/// ```text
/// RootWord::new(5, true)                       // 11
/// RootWord::buckets_of(11)                     // 5
/// RootWord::split_of(11)                       // true
/// ```
pub struct RootWord;

impl RootWord {
    ghost use Rattle.lh_addr.specs.RootWord.{root_word, buckets_of, split_of};

    /// The word of a file of `buckets` buckets, in which a caller has the right to split or nobody
    /// has it.
    pub fn new(buckets: u32, split: bool) -> u64
        ensures value { result ≡ root_word buckets split }
        ensures buckets { buckets_of result ≡ buckets }
        ensures split { split_of result ≡ split }
        ensures below { result < 2 ^ 33 }
    {
        2 * buckets as u64 + split as u64
    }

    /// The number of buckets.
    pub fn buckets_of(word: u64) -> u32
        requires { word < 2 ^ 33 }
        ensures { result ≡ buckets_of word }
    {
        (word / 2) as u32
    }

    /// Whether a caller has the right to split.
    pub fn split_of(word: u64) -> bool
        requires { word < 2 ^ 33 }
        ensures { result ≡ split_of word }
    {
        word % 2 == 1
    }
}
