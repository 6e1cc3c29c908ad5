//! How the columns of a drawing lie. All of it follows from the number of buckets, 1 to 65,536.
ghost use Rattle.std.specs.Prelude.{◌≡◌, ◌+◌, ◌*◌, ◌<◌, ◌≤◌, IsTrue};
ghost use Rattle.lh_addr.specs.Limits.{most_buckets};
ghost use Rattle.lh_draw.specs.Columns.{bar_width, centre, column_count, end_bucket, first_bucket, group_size};
ghost use Rattle.lh_draw.specs.Columns.{is_detailed, label_step, left, pitch};

/// Whether a column shows the pages of one bucket.
pub fn is_detailed(buckets: u32) -> bool
    ensures { result ≡ is_detailed buckets }
{
    buckets <= 128
}

/// How many buckets a column shows: as few as give 512 columns or fewer.
pub fn group_size(buckets: u32) -> u32
    requires most { buckets ≤ most_buckets }
    requires some { 1 ≤ buckets }
    ensures value { result ≡ group_size buckets }
    ensures low { 1 ≤ result }
    ensures high { result ≤ 128 }
{
    (buckets + 511) / 512
}

/// How many columns there are. The last one may show fewer buckets.
pub fn column_count(buckets: u32) -> u32
    requires most { buckets ≤ most_buckets }
    requires some { 1 ≤ buckets }
    ensures value { result ≡ column_count buckets }
    ensures low { 1 ≤ result }
    ensures high { result ≤ 512 }
{
    let group = group_size(buckets);
    (buckets + group - 1) / group
}

/// The first bucket of a column.
pub fn first_bucket(buckets: u32, column: u32) -> u32
    requires most { buckets ≤ most_buckets }
    requires some { 1 ≤ buckets }
    requires column { column < column_count buckets }
    ensures value { result ≡ first_bucket buckets column }
    ensures within { result < buckets }
{
    group_size(buckets) * column
}

/// The bucket behind the last one of a column.
pub fn end_bucket(buckets: u32, column: u32) -> u32
    requires most { buckets ≤ most_buckets }
    requires some { 1 ≤ buckets }
    requires column { column < column_count buckets }
    ensures value { result ≡ end_bucket buckets column }
    ensures within { result ≤ buckets }
    ensures behind { first_bucket buckets column < result }
{
    (first_bucket(buckets, column) + group_size(buckets)).min(buckets)
}

/// How far a column's left edge is from that of the next one: 2 to 64.
pub fn pitch(buckets: u32) -> u32
    requires most { buckets ≤ most_buckets }
    requires some { 1 ≤ buckets }
    ensures value { result ≡ pitch buckets }
    ensures low { 2 ≤ result }
    ensures high { result ≤ 64 }
{
    (1024 / column_count(buckets)).min(64)
}

/// How broad a bar is.
pub fn bar_width(buckets: u32) -> u32
    requires most { buckets ≤ most_buckets }
    requires some { 1 ≤ buckets }
    ensures value { result ≡ bar_width buckets }
    ensures high { result ≤ 64 }
{
    let pitch = pitch(buckets);
    pitch - pitch / 4
}

/// Where a column's left edge is.
pub fn left(buckets: u32, column: u32) -> u32
    requires most { buckets ≤ most_buckets }
    requires some { 1 ≤ buckets }
    requires column { column ≤ column_count buckets }
    ensures value { result ≡ left buckets column }
    ensures high { result ≤ 32768 }
{
    pitch(buckets) * column
}

/// Where the middle of a column's bars is.
pub fn centre(buckets: u32, column: u32) -> u32
    requires most { buckets ≤ most_buckets }
    requires some { 1 ≤ buckets }
    requires column { column ≤ column_count buckets }
    ensures { result ≡ centre buckets column }
{
    left(buckets, column) + bar_width(buckets) / 2
}

/// From how many columns one has a label.
pub fn label_step(buckets: u32) -> u32
    requires most { buckets ≤ most_buckets }
    requires some { 1 ≤ buckets }
    ensures value { result ≡ label_step buckets }
    ensures low { 1 ≤ result }
{
    let columns = column_count(buckets);
    if columns <= 32 {
        1
    } else if columns <= 128 {
        8
    } else {
        64
    }
}
