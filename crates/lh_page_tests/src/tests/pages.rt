//! Pages and their bytes.
ghost use Rattle.std.specs.Prelude.{IfOk};
ghost use Rattle.lh_page.specs.Format.{version_1, FitsFormat};

use crate::tests::records::pair_of;
use lh_expect::{expect, expect_eq, expect_ne};
use lh_page::{
    Page, PageFault, PageHead, PageKind, Pairs, page_from_bytes, page_head, page_to_bytes,
    page2_from_bytes, page2_head, page2_to_bytes,
};
use std::process::Abort;
use std::test::Fail;

/// The primary page of bucket 0 at level 2, with a and e.
fn worked_page() -> Result<Page, Fail>
    ensures { IfOk result (λ page. FitsFormat version_1 page.pairs) }
{
    let mut pairs = Pairs::new();
    pairs.push(pair_of(b"a", b"1")?);
    pairs.push(pair_of(b"e", b"5")?);
    Ok(Page {
        kind: PageKind::Primary,
        level: 2,
        bucket: 0,
        next: 0,
        pairs,
    })
}

/// Its bytes in version 1, from the format's worked example.
fn worked_bytes() -> [u8; 1024] {
    let mut bytes = [0; 1024];
    bytes[..3].copy_from_slice(&[0x01, 0x02, 0x02]);
    bytes[16..19].copy_from_slice(&[0x01, 0x01, 0x61]);
    bytes[48] = 0x31;
    bytes[88..91].copy_from_slice(&[0x01, 0x01, 0x65]);
    bytes[120] = 0x35;
    bytes
}

/// Its bytes in version 2, from the format's worked example.
fn worked_bytes_2() -> [u8; 4096] {
    let mut bytes = [0; 4096];
    bytes[..3].copy_from_slice(&[0x01, 0x02, 0x02]);
    bytes[16..19].copy_from_slice(&[0x01, 0x01, 0x61]);
    bytes[74] = 0x31;
    bytes[186..189].copy_from_slice(&[0x01, 0x01, 0x65]);
    bytes[244] = 0x35;
    bytes
}

/// A page of 24 records of the longest keys and values.
fn full_page(rt: &impl Abort) -> Result<Page, Fail> {
    let mut pairs = Pairs::new();
    for record in 0..24 {
        expect!(rt, pairs.len() < 24);
        pairs.push(pair_of(&[record + 1; 56], &[record; 112])?);
    }
    Ok(Page {
        kind: PageKind::Overflow,
        level: 16,
        bucket: 65535,
        next: 65536,
        pairs,
    })
}

#[test]
fn writes_and_reads_the_worked_bytes_of_version_2(rt: HostRuntime) -> Result<(), Fail> {
    let page = worked_page()?;
    expect_eq!(&rt, page2_to_bytes(&page), worked_bytes_2());
    expect_eq!(&rt, page2_from_bytes(&worked_bytes_2(), 2), Ok(page));
    let full = full_page(&rt)?;
    let bytes = page2_to_bytes(&full);
    expect_eq!(
        &rt,
        &bytes[..18],
        [
            2, 24, 16, 0, 0xff, 0xff, 0, 0, 0, 0, 1, 0, 0, 0, 0, 0, 56, 112
        ]
        .as_slice()
    );
    // Slot 23 is the last 170 bytes: the lengths, 56 bytes of the key, 112 of the value.
    expect_eq!(&rt, &bytes[3926..3929], [56, 112, 24].as_slice());
    expect_eq!(&rt, &bytes[3982..3986], [24, 24, 23, 23].as_slice());
    expect_eq!(&rt, bytes[4095], 23);
    let head = PageHead {
        kind: 2,
        used: 24,
        level: 16,
        clear: true,
        bucket: 65535,
        next: 65536,
    };
    expect_eq!(rt; page2_head(&bytes), head);
    expect_eq!(&rt, page2_from_bytes(&bytes, 24), Ok(full));
    expect_eq!(&rt, page2_from_bytes(&bytes, 23), Err(PageFault::Used));
    Ok(())
}

#[test]
fn names_the_first_fault_of_version_2(rt: HostRuntime) {
    // Where a byte is changed, to what, and the fault that is due with room for two records.
    let rows = [
        (0, 3, PageFault::Kind),
        (15, 1, PageFault::Kind),
        (1, 3, PageFault::Used),
        (1, 1, PageFault::Slot(1)),
        (16, 57, PageFault::Slot(0)),
        (16, 0, PageFault::Slot(0)),
        (17, 113, PageFault::Slot(0)),
        (73, 1, PageFault::Slot(0)),
        (185, 1, PageFault::Slot(0)),
        (356, 1, PageFault::Slot(2)),
        (4095, 1, PageFault::Slot(23)),
    ];
    for (place, byte, fault) in rows {
        let mut bytes = worked_bytes_2();
        expect!(&rt, place < 4096);
        bytes[place] = byte;
        assert_eq!(rt;
            page2_from_bytes(&bytes, 2),
            Err(fault),
            "byte {place} is {byte}"
        );
    }
}

#[test]
fn writes_and_reads_the_worked_bytes(rt: HostRuntime) -> Result<(), Fail> {
    let page = worked_page()?;
    expect_eq!(&rt, page_to_bytes(&page), worked_bytes());
    expect_eq!(&rt, page_from_bytes(&worked_bytes(), 2), Ok(page));
    let overflow = Page {
        kind: PageKind::Overflow,
        level: 16,
        bucket: 65535,
        next: 65536,
        pairs: Pairs::new(),
    };
    let bytes = page_to_bytes(&overflow);
    expect_eq!(
        &rt,
        &bytes[..12],
        [2, 0, 16, 0, 0xff, 0xff, 0, 0, 0, 0, 1, 0].as_slice()
    );
    let head = PageHead {
        kind: 2,
        used: 0,
        level: 16,
        clear: true,
        bucket: 65535,
        next: 65536,
    };
    expect_eq!(rt; page_head(&bytes), head);
    expect_eq!(&rt, page_from_bytes(&bytes, 1), Ok(overflow));
    Ok(())
}

#[test]
fn names_the_first_fault(rt: HostRuntime) {
    // Where a byte is changed, to what, and the fault that is due with room for two records.
    let rows = [
        (0, 3, PageFault::Kind),
        (0, 0, PageFault::Kind),
        (3, 1, PageFault::Kind),
        (15, 1, PageFault::Kind),
        (1, 3, PageFault::Used),
        (1, 1, PageFault::Slot(1)),
        (16, 31, PageFault::Slot(0)),
        (16, 0, PageFault::Slot(0)),
        (17, 41, PageFault::Slot(0)),
        (47, 1, PageFault::Slot(0)),
        (87, 1, PageFault::Slot(0)),
        (160, 1, PageFault::Slot(2)),
        (1023, 1, PageFault::Slot(13)),
    ];
    for (place, byte, fault) in rows {
        let mut bytes = worked_bytes();
        expect!(&rt, place < 1024);
        bytes[place] = byte;
        assert_eq!(rt;
            page_from_bytes(&bytes, 2),
            Err(fault),
            "byte {place} is {byte}"
        );
    }
    let mut bytes = worked_bytes();
    bytes[13] = 1;
    expect!(&rt, !page_head(&bytes).clear);
}

#[test]
fn keeps_records_in_place(rt: HostRuntime) -> Result<(), Fail> {
    let mut pairs = Pairs::new();
    expect_eq!(&rt, pairs.len(), 0);
    pairs.push(pair_of(b"a", b"1")?);
    expect_eq!(&rt, pairs.len(), 1);
    expect_eq!(&rt, pairs.at(0), pair_of(b"a", b"1")?);
    expect_ne!(rt; pairs, Pairs::new());
    Ok(())
}
