//! The versions of the image.
ghost use Rattle.std.specs.Prelude.{◌≡◌, ◌≤◌, IfNone, IfSome, false, true};
ghost use Rattle.lh_image.specs.Faults.{no_magic};
ghost use Rattle.lh_image.specs.Version.{begins, format_of, magic, page_bytes, slots, version_of};

use crate::layout::MAGIC;
use lh_page::format::{Format, PAGE_1, PAGE_2, VERSION_1, VERSION_2};

/// A version of the image: what it begins with, and what its pages have room for.
#[derive(Clone, Copy, Debug, PartialEq, Eq)]
pub enum Version {
    /// Pages of 1,024 bytes.
    One,
    /// Pages of 4,096 bytes.
    Two,
}

impl Version {
    /// The version that bytes begin as, if they begin as an image.
    #[tactic(auto, unfolding(crate::specs::Faults::no_magic, crate::specs::Version::version_of))]
    pub(crate) fn of(bytes: &[u8]) -> Option<Version>
        ensures version { IfSome result (λ version. version ≡ version_of bytes.now) }
        ensures some { IfSome result (λ _. no_magic bytes.now ≡ false) }
        ensures none { IfNone result (no_magic bytes.now ≡ true) }
    {
        if begins(bytes, Version::Two) {
            return Some(Version::Two);
        }
        if begins(bytes, Version::One) {
            return Some(Version::One);
        }
        None
    }

    /// The bytes that an image begins with.
    pub(crate) fn magic(self) -> &'static [u8; MAGIC]
        ensures { result.now ≡ magic self }
    {
        match self {
            Version::One => b"LHF1",
            Version::Two => b"LHF2",
        }
    }

    /// What the pages have room for.
    pub(crate) fn format(self) -> Format
        ensures { result ≡ format_of self }
    {
        match self {
            Version::One => VERSION_1,
            Version::Two => VERSION_2,
        }
    }

    /// The most records of a page.
    pub(crate) fn slots(self) -> u32
        ensures { result ≡ slots self }
    {
        match self {
            Version::One => VERSION_1.slots as u32,
            Version::Two => VERSION_2.slots as u32,
        }
    }

    /// The bytes of a page.
    #[tactic(auto, unfolding(crate::specs::Version::page_bytes))]
    pub(crate) fn page_bytes(self) -> usize
        ensures value { result ≡ page_bytes self }
        ensures least { PAGE_1 ≤ result }
        ensures most { result ≤ PAGE_2 }
    {
        match self {
            Version::One => PAGE_1,
            Version::Two => PAGE_2,
        }
    }
}

/// Whether bytes begin as an image of a version does.
#[tactic(auto, unfolding(crate::specs::Version::begins))]
fn begins(bytes: &[u8], version: Version) -> bool
    ensures { result ≡ begins bytes.now version }
{
    bytes.len() >= MAGIC && &bytes[..MAGIC] == version.magic().as_slice()
}
