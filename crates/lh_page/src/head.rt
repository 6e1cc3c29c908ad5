//! The head of a page: what stands before its slots.
ghost use Rattle.std.specs.Prelude.{◌≡◌, ◌≤◌, length};
ghost use Rattle.lh_page.specs.PageFields.{kind_of, used_of, level_of, bucket_of, next_of, is_clear, all_zero, head_of};

use crate::format::{HEAD, PAGE_1, PAGE_2};
use byteorder::{ByteOrder, LittleEndian};

/// The fields before a page's slots, as they stand there.
#[derive(Clone, Copy, Debug, PartialEq, Eq)]
pub struct PageHead {
    /// 1 for a primary page, 2 for an overflow page.
    pub kind: u8,
    /// The number of records in the page.
    pub used: u8,
    /// The local level of the bucket.
    pub level: u8,
    /// Whether the reserved bytes are zero.
    pub clear: bool,
    /// The number of the bucket.
    pub bucket: u32,
    /// The number of the next page of the chain, 0 for none.
    pub next: u32,
}

/// The head of a page of version 1, whatever its bytes are.
pub fn page_head(bytes: &[u8; PAGE_1]) -> PageHead
    ensures kind { result.kind ≡ kind_of bytes.now }
    ensures used { result.used ≡ used_of bytes.now }
    ensures level { result.level ≡ level_of bytes.now }
    ensures clear { result.clear ≡ is_clear bytes.now }
    ensures bucket { result.bucket ≡ bucket_of bytes.now }
    ensures next { result.next ≡ next_of bytes.now }
{
    head_in(bytes)
}

/// The head of a page of version 2, whatever its bytes are.
pub fn page2_head(bytes: &[u8; PAGE_2]) -> PageHead
    ensures { result ≡ head_of bytes.now }
{
    head_in(bytes)
}

/// The head of a page of any format.
#[tactic(auto, unfolding(crate::specs::PageFields::bucket_of, crate::specs::PageFields::next_of, crate::specs::PageFields::is_clear))]
pub(crate) fn head_in(bytes: &[u8]) -> PageHead
    requires { HEAD ≤ length bytes.now }
    ensures { result ≡ head_of bytes.now }
{
    PageHead {
        kind: bytes[0],
        used: bytes[1],
        level: bytes[2],
        clear: is_zero(&bytes[3..4]) && is_zero(&bytes[12..16]),
        bucket: LittleEndian::read_u32(&bytes[4..8]),
        next: LittleEndian::read_u32(&bytes[8..12]),
    }
}

/// Whether every byte is zero. No byte ends the loop, so many are compared at once.
pub fn is_zero(bytes: &[u8]) -> bool
    ensures { result ≡ all_zero bytes.now }
{
    let mut zero = true;
    for byte in bytes {
        zero &= *byte == 0;
    }
    zero
}
