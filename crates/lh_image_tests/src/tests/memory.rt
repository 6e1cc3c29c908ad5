//! Growth that is refused: run with each request for memory refused in turn, one in each run. The images
//! themselves take no memory.
use crate::tests::building::{THREE_BUCKETS, TWO_PAGES, put_all, read_again};
use crate::tests::census::expect_census;
use crate::tests::streams::reader_of;
use crate::tests::version_2::THREE_BUCKETS_2;
use lh_expect::{expect, expect_eq};
use lh_image::*;
use std::alloc::Global;
use std::io::{self, Write};
use std::process::Abort;

/// The fault of bytes, if they have one. Where memory was refused that is told and nothing else, and the
/// same bytes have their answer then.
fn expect(rt: &impl Abort, alloc: Global, bytes: &[u8], wanted: Option<ImageFault>) {
    let mut told = read_image(alloc, &mut reader_of(bytes, 1024)).err();
    if told == Some(ImageFault::Memory) {
        told = read_image(alloc, &mut reader_of(bytes, 1024)).err();
    }
    expect_eq!(rt; told, wanted);
    let mut told = read_leading_image(alloc, &mut reader_of(bytes, 1024)).err();
    if told == Some(ImageFault::Memory) {
        told = read_leading_image(alloc, &mut reader_of(bytes, 1024)).err();
    }
    expect_eq!(rt; told, wanted);
}

/// A sound image, and one whose only fault is the last of the table, so that all memory is asked for.
#[test]
fn refused_growth_is_told(rt: HostRuntime) {
    let mut bytes = [0; 4096];
    put_all(&mut bytes, THREE_BUCKETS);
    expect(&rt, rt.alloc(), &bytes, None);
    bytes[1042] = b'b';
    expect(&rt, rt.alloc(), &bytes, Some(ImageFault::Misfit(1)));
}

/// The same of version 2.
#[test]
fn refused_growth_is_told_of_version_2(rt: HostRuntime) {
    let mut bytes = [0; 16_384];
    put_all(&mut bytes, THREE_BUCKETS_2);
    expect(&rt, rt.alloc(), &bytes, None);
    bytes[4114] = b'b';
    expect(&rt, rt.alloc(), &bytes, Some(ImageFault::Misfit(1)));
}

/// A check tells it, too, and only while it looks; the same bytes are checked then.
#[test]
fn refused_growth_of_a_check_is_told(rt: HostRuntime) {
    let mut bytes = [0; 3072];
    put_all(&mut bytes, TWO_PAGES);
    expect_checked(&rt, rt.alloc(), &bytes, None);
    bytes[2066] = b'a';
    expect_checked(&rt, rt.alloc(), &bytes, Some(ImageFault::Misfit(2)));
}

/// The fault of a check of bytes that are opened, as [`expect`] has that of reading.
fn expect_checked(rt: &impl Abort, alloc: Global, bytes: &[u8], wanted: Option<ImageFault>) {
    match Image::open(bytes) {
        Ok(image) => {
            let mut told = image.check(alloc).err();
            if told == Some(ImageFault::Memory) {
                told = image.check(alloc).err();
            }
            expect_eq!(rt; told, wanted);
        }
        Err(_) => expect!(rt, false),
    }
}

/// A fault comes before those behind it, whatever was refused on the way.
#[test]
fn refused_growth_keeps_the_order_of_faults(rt: HostRuntime) {
    let mut bytes = [0; 3072];
    put_all(&mut bytes, TWO_PAGES);
    bytes[2066] = b'a';
    expect(&rt, rt.alloc(), &bytes, Some(ImageFault::Misfit(2)));
    bytes[1043] = 1;
    expect(&rt, rt.alloc(), &bytes, Some(ImageFault::Slot(1)));
    bytes[1032] = 0;
    expect(&rt, rt.alloc(), &bytes, Some(ImageFault::Never(2)));
    bytes[2056] = 1;
    expect(&rt, rt.alloc(), &bytes, Some(ImageFault::Next(2)));
}

/// The census of a sound image.
#[test]
fn refused_growth_of_a_census_is_told(rt: HostRuntime) {
    let mut bytes = [0; 3072];
    put_all(&mut bytes, TWO_PAGES);
    let census = Census {
        buckets: 1,
        level: 0,
        pointer: 0,
        records: 4,
        pages: 3,
        overflow: 1,
        longest: 2,
    };
    expect_census(&rt, rt.alloc(), &bytes, census);
}

/// Holds what is written against the bytes that are due, and so takes no memory.
#[derive(Drop)]
struct Due<'a> {
    bytes: &'a [u8],
    is_same: bool,
}

impl Write for Due<'_> {
    fn write(&mut self, buf: &[u8]) -> io::Result<usize> {
        self.is_same = self.is_same && self.bytes.get(..buf.len()) == Some(buf);
        self.bytes = self.bytes.get(buf.len()..).unwrap_or(&[]);
        Ok(buf.len())
    }

    fn flush(&mut self) -> io::Result<()> {
        Ok(())
    }
}

/// Writing takes no memory: whatever was refused on the way to a listing, that is written.
#[test]
fn refused_growth_stops_no_writing(rt: HostRuntime) {
    let mut bytes = [0; 4096];
    put_all(&mut bytes, THREE_BUCKETS);
    let mut due = Due {
        bytes: &bytes,
        is_same: true,
    };
    match read_again(rt.alloc(), &bytes) {
        Ok(listing) => expect_eq!(&rt, write_image_v1(&listing, &mut due), Ok(())),
        Err(fault) => panic!(rt; "{fault}"),
    }
    expect!(&rt, due.is_same && due.bytes.is_empty());
}

/// The same of version 2.
#[test]
fn refused_growth_stops_no_writing_of_version_2(rt: HostRuntime) {
    let mut bytes = [0; 16_384];
    put_all(&mut bytes, THREE_BUCKETS_2);
    let mut due = Due {
        bytes: &bytes,
        is_same: true,
    };
    match read_again(rt.alloc(), &bytes) {
        Ok(listing) => expect_eq!(&rt, write_image(&listing, &mut due), Ok(())),
        Err(fault) => panic!(rt; "{fault}"),
    }
    expect!(&rt, due.is_same && due.bytes.is_empty());
}
