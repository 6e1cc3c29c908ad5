//! What C keeps of an image.
ghost use Rattle.std.specs.Prelude.{◌≡◌, IfSome, IsSome};
ghost use Rattle.lh_addr.specs.Extent.{IsExtent};
ghost use Rattle.lh_image.specs.declared.version.Version.{Version};
ghost use Rattle.lhf.specs.Handles.{HasNumbers, number_of_version};

use lh_addr::Root;
use lh_image::indexed::Start;
use lh_image::{Image, PageIndex, Version};

/// Bytes that are lent.
#[repr(C)]
#[derive(Drop)]
pub struct Slice<'a> {
    pub bytes: &'a [u8],
}

/// An image that was opened: its bytes, its index where it was checked, and the numbers of its header.
#[repr(C)]
#[derive(Drop)]
pub struct Handle<'a> {
    pub bytes: &'a [u8],
    pub index: &'a [PageIndex],
    pub records: u64,
    pub version: u32,
    pub initial: u32,
    pub capacity: u32,
    pub load: u32,
    pub max: u32,
    pub buckets: u32,
    pub pages: u32,
    pub at: u32,
}

/// A key that is looked up with others, and what is answered of it. Behind the code stands what the library has read of it.
#[repr(C)]
#[derive(Drop)]
pub struct Ask<'a> {
    pub key: Slice<'a>,
    pub value: Slice<'a>,
    pub code: u32,
    pub start: Start,
    pub place: u8,
    pub first: u8,
}

/// The number of a version.
pub(crate) fn version_number(version: Version) -> u32
    ensures { result ≡ number_of_version version }
{
    match version {
        Version::One => 1,
        Version::Two => 2,
    }
}

/// The version that a handle names, if there is one of its number.
#[inline]
pub(crate) fn version_of(image: &Handle) -> Option<Version>
    ensures version { IfSome result (λ version. image.now.version ≡ number_of_version version) }
    ensures known { (version : Version) → image.now.version ≡ number_of_version version → IsSome result }
{
    match image.version {
        1 => Some(Version::One),
        2 => Some(Version::Two),
        _ => None,
    }
}

/// The root that a handle names, if there is one of its numbers.
#[inline]
pub(crate) fn root_of(image: &Handle) -> Option<Root>
    ensures root { IfSome result (λ root. root
        ≡ record { initial = image.now.initial; buckets = image.now.buckets }) }
    ensures known { IsExtent (record { initial = image.now.initial; buckets = image.now.buckets }) → IsSome result }
{
    Root::new(image.initial, image.buckets)
}

/// Puts the numbers of an image that was opened into a handle.
pub(crate) fn put_numbers(image: &mut Handle, opened: &Image)
    ensures numbers { HasNumbers opened.now image.new }
    ensures bytes { image.new.bytes ≡ image.old.bytes }
    ensures index { image.new.index ≡ image.old.index }
{
    let config = opened.config();
    image.records = opened.len();
    image.version = version_number(opened.version());
    image.initial = config.initial();
    image.capacity = config.capacity();
    image.load = config.load();
    image.max = config.max();
    image.buckets = opened.buckets();
    image.pages = opened.pages();
}
