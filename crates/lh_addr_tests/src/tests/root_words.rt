//! The word of a running file.
use lh_addr::RootWord;
use lh_expect::expect_eq;

#[test]
fn root_word_codes_buckets_and_right(rt: HostRuntime) {
    expect_eq!(&rt, RootWord::new(5, true), 11);
    expect_eq!(&rt, RootWord::buckets_of(11), 5);
    expect_eq!(&rt, RootWord::split_of(11), true);
    expect_eq!(&rt, RootWord::new(65536, false), 131_072);
}
