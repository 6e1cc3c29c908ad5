//! Values that differ in one part alone are not equal.
use super::calls::pair;
use lh_bucket::{Call, ListingFault, Reply, Verdict};
use lh_expect::{expect_eq, expect_ne};
use std::test::Fail;

#[test]
fn each_part_of_a_call_counts(rt: HostRuntime) -> Result<(), Fail> {
    let (a, b) = (pair(b"a", b"1")?, pair(b"b", b"2")?);
    expect_ne!(&rt, Call::Search(a.key), Call::Search(b.key));
    expect_ne!(&rt, Call::Search(a.key), Call::Delete(a.key));
    expect_ne!(&rt, Call::Delete(a.key), Call::Delete(b.key));
    expect_ne!(
        &rt,
        Call::Insert(a.key, a.value),
        Call::Insert(b.key, a.value)
    );
    expect_ne!(
        &rt,
        Call::Insert(a.key, a.value),
        Call::Insert(a.key, b.value)
    );
    expect_ne!(
        &rt,
        Call::Insert(a.key, a.value),
        Call::Replace(a.key, a.value)
    );
    expect_ne!(
        &rt,
        Call::Replace(a.key, a.value),
        Call::Replace(b.key, a.value)
    );
    expect_ne!(
        &rt,
        Call::Replace(a.key, a.value),
        Call::Replace(a.key, b.value)
    );
    Ok(())
}

#[test]
fn each_part_of_a_reply_counts(rt: HostRuntime) -> Result<(), Fail> {
    let (a, b) = (pair(b"a", b"1")?, pair(b"b", b"2")?);
    expect_ne!(&rt, Reply::Found(a.value), Reply::Found(b.value));
    let replies = [
        Reply::Found(a.value),
        Reply::Absent,
        Reply::Inserted,
        Reply::Exists,
        Reply::Deleted,
        Reply::Replaced,
    ];
    for (first, one) in replies.iter().enumerate() {
        for (second, other) in replies.iter().enumerate() {
            expect_eq!(&rt, *one == *other, first == second);
        }
    }
    Ok(())
}

#[test]
fn each_part_of_a_verdict_and_of_a_fault_counts(rt: HostRuntime) {
    let next = Verdict::Next { k: 1, bucket: 2 };
    expect_ne!(rt; next, Verdict::Next { k: 2, bucket: 2 });
    expect_ne!(rt; next, Verdict::Next { k: 1, bucket: 3 });
    expect_ne!(rt; next, Verdict::Here);
    expect_ne!(&rt, Verdict::Here, Verdict::Defect);
    let (bucket, place) = (1, 2);
    let twice = ListingFault::Twice { bucket, place };
    expect_ne!(rt; twice, ListingFault::Misplaced { bucket, place });
    expect_ne!(rt; twice, ListingFault::Twice { bucket: 0, place });
    expect_ne!(rt; twice, ListingFault::Twice { bucket, place: 1 });
    let misplaced = ListingFault::Misplaced { bucket, place };
    expect_ne!(rt; misplaced, ListingFault::Misplaced { bucket: 0, place });
    expect_ne!(rt; misplaced, ListingFault::Misplaced { bucket, place: 1 });
    expect_ne!(&rt, ListingFault::Shape, ListingFault::Memory);
}
