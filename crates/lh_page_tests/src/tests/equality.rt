//! Values that differ in one part alone are not equal.
use crate::tests::records::pair_of;
use lh_expect::{expect_eq, expect_ne};
use lh_page::{KeyLength, Page, PageFault, PageHead, PageKind, Pairs, ValueLength};
use std::test::Fail;

#[test]
fn each_part_of_a_fault_and_of_a_head_counts(rt: HostRuntime) {
    expect_ne!(&rt, PageFault::Slot(0), PageFault::Slot(1));
    expect_ne!(&rt, PageFault::Kind, PageFault::Used);
    expect_ne!(&rt, PageFault::Used, PageFault::Slot(0));
    expect_ne!(&rt, KeyLength { length: 0 }, KeyLength { length: 57 });
    expect_ne!(
        &rt,
        ValueLength { length: 113 },
        ValueLength { length: 114 }
    );
    let head = PageHead {
        kind: 1,
        used: 2,
        level: 3,
        clear: true,
        bucket: 4,
        next: 5,
    };
    expect_ne!(rt; head, PageHead { kind: 2, ..head });
    expect_ne!(rt; head, PageHead { used: 3, ..head });
    expect_ne!(rt; head, PageHead { level: 4, ..head });
    expect_ne!(rt;
        head,
        PageHead {
            clear: false,
            ..head
        }
    );
    expect_ne!(rt; head, PageHead { bucket: 5, ..head });
    expect_ne!(rt; head, PageHead { next: 6, ..head });
}

/// The primary page of bucket 1 at level 1 with a record.
fn page_of(key: &[u8]) -> Result<Page, Fail> {
    let mut pairs = Pairs::new();
    pairs.push(pair_of(key, b"1")?);
    Ok(Page {
        kind: PageKind::Primary,
        level: 1,
        bucket: 1,
        next: 0,
        pairs,
    })
}

#[test]
fn each_part_of_a_page_counts(rt: HostRuntime) -> Result<(), Fail> {
    let page = page_of(b"a")?;
    expect_eq!(rt; page, page_of(b"a")?);
    expect_ne!(rt; page, page_of(b"b")?);
    let mut other = page_of(b"a")?;
    other.kind = PageKind::Overflow;
    expect_ne!(rt; page, other);
    let mut other = page_of(b"a")?;
    other.level = 2;
    expect_ne!(rt; page, other);
    let mut other = page_of(b"a")?;
    other.bucket = 0;
    expect_ne!(rt; page, other);
    let mut other = page_of(b"a")?;
    other.next = 1;
    expect_ne!(rt; page, other);
    Ok(())
}
