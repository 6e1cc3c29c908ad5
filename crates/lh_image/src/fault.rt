//! Why bytes are no image, and why a listing was not written.
ghost use Rattle.std.specs.Prelude.{Some};

use std::error::Error;
use std::fmt;

/// Why bytes are no image of a listing: the first of these that applies, in this order, and of it the
/// one at the least page. Pages count from 0, which is the header.
#[derive(Clone, Copy, Debug, PartialEq, Eq)]
pub enum ImageFault {
    /// The input begins neither with `LHF1` nor with `LHF2` (I1).
    Magic,
    /// The field of the header at this offset, in bytes, is out of its range; offset 36 stands for the
    /// bytes behind the fields, which are to be zeros (I2).
    HeaderField(u32),
    /// The header's number of pages or of records can't be (I3).
    Counts,
    /// There are fewer bytes than a header, or than the header's number of pages (I4).
    Short,
    /// There are more bytes than the header's number of pages (I5).
    Trailing,
    /// The page is a primary one where an overflow page is to stand or the other way round, or a reserved
    /// byte isn't zero (I6).
    Kind(u32),
    /// The page has another bucket than its own, or one that the file hasn't (I7).
    BucketNumber(u32),
    /// The page's level isn't the local level of its bucket (I8).
    Level(u32),
    /// The page's number of records can't be; page 0 stands for the sum of all (I9).
    Used(u32),
    /// The page names a next one that is no overflow page of its bucket (I10).
    Next(u32),
    /// Two pages or more name the page as their next one (I11).
    Twice(u32),
    /// The page is on no bucket's chain (I12).
    Never(u32),
    /// A slot of the page has no record where it is in use, or isn't all zeros where it isn't (I13).
    Slot(u32),
    /// A record of the page belongs to another bucket, or its key stands before it in its chain (I14).
    Misfit(u32),
    /// A read failed. An interrupted read counts as failed, and no read is tried again.
    ReadFault,
    /// There was no memory.
    Memory,
}

impl fmt::Display for ImageFault {
    ghost use Rattle.lh_image.specs.Texts.{image_fault_text};

    ghost output = { λ fault. Some (image_fault_text fault) };

    fn fmt<W: fmt::Write>(&self, f: &mut fmt::Formatter<W>) -> fmt::Result {
        match self {
            ImageFault::Magic => write!(f, "image I1"),
            ImageFault::HeaderField(offset) => write!(f, "image I2 at offset {offset}"),
            ImageFault::Counts => write!(f, "image I3"),
            ImageFault::Short => write!(f, "image I4"),
            ImageFault::Trailing => write!(f, "image I5"),
            ImageFault::Kind(page) => write!(f, "image I6 at page {page}"),
            ImageFault::BucketNumber(page) => write!(f, "image I7 at page {page}"),
            ImageFault::Level(page) => write!(f, "image I8 at page {page}"),
            ImageFault::Used(page) => write!(f, "image I9 at page {page}"),
            ImageFault::Next(page) => write!(f, "image I10 at page {page}"),
            ImageFault::Twice(page) => write!(f, "image I11 at page {page}"),
            ImageFault::Never(page) => write!(f, "image I12 at page {page}"),
            ImageFault::Slot(page) => write!(f, "image I13 at page {page}"),
            ImageFault::Misfit(page) => write!(f, "image I14 at page {page}"),
            ImageFault::ReadFault => write!(f, "read failed"),
            ImageFault::Memory => write!(f, "no memory"),
        }
    }
}

impl Error for ImageFault {}

/// Why a listing was not written as an image: the first of these that applies, in this order. A record that is
/// named is the one in the least bucket, and there at the least place.
#[derive(Clone, Copy, Debug, PartialEq, Eq)]
pub enum WriteImageFault {
    /// A page of the listing has room for more than 14 records, as no page of version 1 has; nothing was written.
    OldCapacity,
    /// The record has a key of more than 30 or a value of more than 40 bytes, for which no slot of version 1 has
    /// room; nothing was written.
    OldRecord { bucket: u32, place: usize },
    /// The image would have more than 1,048,576 pages; nothing was written.
    TooLarge,
    /// A write or the flush failed, or a write took no byte. A beginning of the image may have gone out.
    WriteFault,
    /// There was no memory; nothing was written. The writer of this crate takes none.
    Memory,
}

impl fmt::Display for WriteImageFault {
    ghost use Rattle.lh_image.specs.Texts.{write_image_fault_text};

    ghost output = { λ fault. Some (write_image_fault_text fault) };

    fn fmt<W: fmt::Write>(&self, f: &mut fmt::Formatter<W>) -> fmt::Result {
        match self {
            WriteImageFault::OldCapacity => write!(f, "image V1"),
            WriteImageFault::OldRecord { bucket, place } => {
                write!(f, "image V2 at bucket {bucket} place {place}")
            }
            WriteImageFault::TooLarge => write!(f, "image too large"),
            WriteImageFault::WriteFault => write!(f, "write failed"),
            WriteImageFault::Memory => write!(f, "no memory"),
        }
    }
}

impl Error for WriteImageFault {}
