//! Codes of keys.
use lh_addr::fnv1a;
use lh_expect::expect_eq;

#[test]
fn fnv1a_has_the_published_values(rt: HostRuntime) {
    expect_eq!(&rt, fnv1a(b""), 0xcbf29ce484222325);
    expect_eq!(&rt, fnv1a(b"a"), 0xaf63dc4c8601ec8c);
    expect_eq!(&rt, fnv1a(b"foobar"), 0x85944171f73967e8);
}

#[test]
fn fnv1a_takes_every_byte(rt: HostRuntime) {
    let keys = [b"a", b"b", b"c", b"d", b"e", b"f", b"g", b"h", b"i"];
    let low_bytes = [0x8c, 0xa5, 0xf2, 0x73, 0xc0, 0xd9, 0x26, 0xd7, 0x24];
    for (key, low_byte) in keys.iter().zip(low_bytes) {
        expect_eq!(&rt, fnv1a(key.as_slice()) % 256, low_byte);
    }
}
