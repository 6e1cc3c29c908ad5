//! Censuses of worked images.
use crate::tests::building::{empty_image, three_buckets_image, two_pages_image};
use crate::tests::pages::{VERSION_1, falling_chain};
use crate::tests::streams::reader_of;
use lh_expect::{expect, expect_eq};
use lh_image::*;
use std::alloc::Global;
use std::process::Abort;
use std::test::Fail;

/// The census of an image, however few bytes a read gives, which is asked for once more where memory was refused.
/// No read is of more bytes than a page has.
pub(crate) fn expect_census(rt: &impl Abort, alloc: Global, bytes: &[u8], wanted: Census) {
    let page = if bytes.first_chunk() == Some(b"LHF1") {
        1024
    } else {
        4096
    };
    for most in [1, 7, 1024, 4095] {
        let mut reader = reader_of(bytes, most);
        let mut found = check_image(alloc, &mut reader);
        if found == Err(ImageFault::Memory) {
            found = check_image(alloc, &mut reader_of(bytes, most));
        }
        expect_eq!(rt, (most, found), (most, Ok(wanted)));
        expect!(rt, reader.longest <= page);
    }
}

#[test]
fn a_file_with_no_record(rt: HostRuntime) -> Result<(), Fail> {
    let census = Census {
        buckets: 1,
        level: 0,
        pointer: 0,
        records: 0,
        pages: 2,
        overflow: 0,
        longest: 1,
    };
    expect_census(&rt, rt.alloc(), &empty_image(rt.alloc())?, census);
    Ok(())
}

#[test]
fn three_buckets_with_no_overflow(rt: HostRuntime) -> Result<(), Fail> {
    let census = Census {
        buckets: 3,
        level: 1,
        pointer: 1,
        records: 5,
        pages: 4,
        overflow: 0,
        longest: 1,
    };
    expect_census(&rt, rt.alloc(), &three_buckets_image(rt.alloc())?, census);
    Ok(())
}

#[test]
fn a_chain_of_two_pages(rt: HostRuntime) -> Result<(), Fail> {
    let census = Census {
        buckets: 1,
        level: 0,
        pointer: 0,
        records: 4,
        pages: 3,
        overflow: 1,
        longest: 2,
    };
    expect_census(&rt, rt.alloc(), &two_pages_image(rt.alloc())?, census);
    Ok(())
}

#[test]
fn a_chain_of_300_pages(rt: HostRuntime) -> Result<(), Fail> {
    let census = Census {
        buckets: 1,
        level: 0,
        pointer: 0,
        records: 300,
        pages: 301,
        overflow: 299,
        longest: 300,
    };
    expect_census(
        &rt,
        rt.alloc(),
        &falling_chain(rt.alloc(), &VERSION_1, 300)?,
        census,
    );
    Ok(())
}
