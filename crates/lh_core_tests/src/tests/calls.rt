//! Calls and a configuration, as the tests take them.
use lh_addr::Config;
use lh_bucket::Call;
use lh_page::{Key, Value};
use std::test::Fail;

pub(super) fn search(key: &[u8]) -> Result<Call, Fail> {
    Ok(Call::Search(Key::new(key)?))
}

pub(super) fn insert(key: &[u8], value: &[u8]) -> Result<Call, Fail> {
    Ok(Call::Insert(Key::new(key)?, Value::new(value)?))
}

pub(super) fn delete(key: &[u8]) -> Result<Call, Fail> {
    Ok(Call::Delete(Key::new(key)?))
}

/// A file of one bucket at first, with pages of 14 records.
pub(super) fn small() -> Result<Config, Fail> {
    Ok(Config::new(1, 14, 100, 65536)?)
}
