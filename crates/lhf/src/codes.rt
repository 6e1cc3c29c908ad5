//! What C is told: numbers.
ghost use Rattle.std.specs.Prelude.{◌≡◌, ◌≤◌};
ghost use Rattle.lhf.specs.Codes.{code_of, place_of};

use lh_image::ImageFault;

pub(crate) const OK: u32 = 0;

/// There was no memory.
pub(crate) const NO_MEMORY: u32 = 15;

/// Bytes or index aren't those that were checked.
pub(crate) const CHANGED: u32 = 16;

/// There is no such key, or no record more.
pub(crate) const ABSENT: u32 = 17;

/// There is too little room for an image.
pub(crate) const TOO_SMALL: u32 = 21;

/// The number of a fault, as the table of images has it.
pub(crate) fn code_of(fault: &ImageFault) -> u32
    ensures code { result ≡ code_of fault.now }
    ensures from { 1 ≤ result }
    ensures to { result ≤ 16 }
{
    match fault {
        ImageFault::Magic => 1,
        ImageFault::HeaderField(_) => 2,
        ImageFault::Counts => 3,
        ImageFault::Short => 4,
        ImageFault::Trailing => 5,
        ImageFault::Kind(_) => 6,
        ImageFault::BucketNumber(_) => 7,
        ImageFault::Level(_) => 8,
        ImageFault::Used(_) => 9,
        ImageFault::Next(_) => 10,
        ImageFault::Twice(_) => 11,
        ImageFault::Never(_) => 12,
        ImageFault::Slot(_) => 13,
        ImageFault::Misfit(_) => 14,
        ImageFault::ReadFault => CHANGED,
        ImageFault::Memory => NO_MEMORY,
    }
}

/// The page of a fault, or the offset of a header's.
pub(crate) fn place_of(fault: &ImageFault) -> u32
    ensures { result ≡ place_of fault.now }
{
    match fault {
        ImageFault::HeaderField(offset) => *offset,
        ImageFault::Kind(page) => *page,
        ImageFault::BucketNumber(page) => *page,
        ImageFault::Level(page) => *page,
        ImageFault::Used(page) => *page,
        ImageFault::Next(page) => *page,
        ImageFault::Twice(page) => *page,
        ImageFault::Never(page) => *page,
        ImageFault::Slot(page) => *page,
        ImageFault::Misfit(page) => *page,
        _ => 0,
    }
}
