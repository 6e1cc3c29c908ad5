//! Keys and values.
use crate::tests::records::pair_of;
use lh_expect::{expect, expect_eq, expect_ne};
use lh_page::{Key, KeyLength, Value, ValueLength};
use std::test::Fail;

#[test]
fn refuses_lengths(rt: HostRuntime) -> Result<(), Fail> {
    let bytes = [b'a'; 113];
    expect_eq!(&rt, Key::new(&bytes[..57]), Err(KeyLength { length: 57 }));
    expect_eq!(&rt, Key::new(&[]), Err(KeyLength { length: 0 }));
    expect_eq!(&rt, Value::new(&bytes), Err(ValueLength { length: 113 }));
    expect_eq!(&rt, Key::new(&bytes[..56])?.bytes().len(), 56);
    expect_eq!(&rt, Value::new(&bytes[..112])?.bytes().len(), 112);
    expect_eq!(&rt, Value::new(&[])?.bytes().len(), 0);
    Ok(())
}

#[test]
fn orders_by_bytes(rt: HostRuntime) -> Result<(), Fail> {
    let a = Key::new(b"a")?;
    let longer = Key::new(b"a\0")?;
    let b = Key::new(b"b")?;
    expect!(&rt, a < longer);
    expect!(&rt, longer < b);
    expect_ne!(rt; a, longer);
    // Each byte counts, up to the last one of the longest keys.
    let mut bytes = [b'a'; 56];
    let all = Key::new(&bytes)?;
    for place in 0..56 {
        bytes[place] = b'b';
        expect_ne!(rt; Key::new(&bytes)?, all);
        bytes[place] = b'a';
    }
    expect_eq!(rt; Key::new(&bytes)?, all);
    expect!(&rt, pair_of(b"a", b"2")? > pair_of(b"a", b"1")?);
    expect!(&rt, pair_of(b"a", b"2")? < pair_of(b"b", b"1")?);
    Ok(())
}

#[test]
fn a_value_takes_other_bytes(rt: HostRuntime) -> Result<(), Fail> {
    let mut value = Value::empty();
    expect_eq!(rt; value, Value::new(b"")?);
    value.set(&[b'a'; 112]);
    expect_eq!(rt; value, Value::new(&[b'a'; 112])?);
    value.set(b"b");
    expect_eq!(rt; value, Value::new(b"b")?);
    value.set(b"");
    expect_eq!(rt; value, Value::empty());
    Ok(())
}

#[test]
fn keys_and_values_are_shown_as_literals(rt: HostRuntime) -> Result<(), Fail> {
    let rows: [(&[u8], &str); 6] = [
        (b"", "b\"\""),
        (b"ada lovelace", "b\"ada lovelace\""),
        (b"say \"it's\"", "b\"say \\\"it\\'s\\\"\""),
        (b"a\\b", "b\"a\\\\b\""),
        (b"\0\t\n\r\x1b\x7f", "b\"\\x00\\t\\n\\r\\x1b\\x7f\""),
        (&[0xc3, 0xa9, 0xff], "b\"\\xc3\\xa9\\xff\""),
    ];
    for (bytes, text) in rows {
        let shown = format!(in rt.alloc(); "{:?}", Value::new(bytes)?)?;
        expect_eq!(rt; shown.as_str(), text);
    }
    let shown = format!(in rt.alloc(); "{:?}", pair_of(b"a\x80", b"")?)?;
    expect_eq!(
        &rt,
        shown.as_str(),
        "Pair { key: b\"a\\x80\", value: b\"\" }"
    );
    Ok(())
}

#[test]
fn keys_and_values_are_text_where_they_are(rt: HostRuntime) -> Result<(), Fail> {
    expect_eq!(&rt, Key::new("Zoë".as_bytes())?.as_str()?, "Zoë");
    expect_eq!(&rt, Value::empty().as_str()?, "");
    let cut = Key::new(&[b'a', 0xc3])?;
    expect!(
        &rt,
        cut.as_str().is_err_and(|fault| fault.valid_up_to() == 1)
    );
    expect!(&rt, Value::new(&[0xff])?.as_str().is_err());
    Ok(())
}
