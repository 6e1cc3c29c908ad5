//! The head of a page, by the version of its image.
ghost use Rattle.std.specs.Prelude.{◌≡◌, ◌≤◌, length};
ghost use Rattle.lh_page.specs.PageFields.{head_of, next_of, used_of};
ghost use Rattle.lh_image.specs.Version.{page_bytes};

use crate::version::Version;
use byteorder::{ByteOrder, LittleEndian};
use lh_page::format::HEAD;
use lh_page::{PageHead, page_head, page2_head};

/// The bytes as an array.
fn array_of<const N: usize>(bytes: &[u8]) -> &[u8; N]
    requires { length bytes.now ≡ N }
    ensures { result.now ≡ bytes.now }
{
    match bytes.split_first_chunk() {
        Some((array, _)) => array,
        None => unreachable!(),
    }
}

/// The head of a page.
#[tactic(auto, unfolding(crate::specs::Version::page_bytes))]
pub(crate) fn head_of(version: Version, bytes: &[u8]) -> PageHead
    requires { length bytes.now ≡ page_bytes version }
    ensures { result ≡ head_of bytes.now }
{
    match version {
        Version::One => page_head(array_of(bytes)),
        Version::Two => page2_head(array_of(bytes)),
    }
}

/// How many records a page has, by its head.
#[inline]
pub(crate) fn used_of(bytes: &[u8]) -> u8
    requires { HEAD ≤ length bytes.now }
    ensures { result ≡ used_of bytes.now }
{
    bytes[1]
}

/// The next page of a page's chain, by its head.
#[inline]
#[tactic(auto, unfolding(lh_page::specs::PageFields::next_of))]
pub(crate) fn next_of(bytes: &[u8]) -> u32
    requires { HEAD ≤ length bytes.now }
    ensures { result ≡ next_of bytes.now }
{
    LittleEndian::read_u32(&bytes[8..12])
}
