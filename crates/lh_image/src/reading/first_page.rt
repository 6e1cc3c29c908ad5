//! The first page: the header's fields, and the faults that it decides alone.
ghost use Rattle.std.specs.Prelude.{◌≡◌, ◌≤◌, ◌||◌, true, take, length, nat_lt, IfErr, IfOk, IfSome};
ghost use Rattle.std.specs.Result.{result_err};
ghost use Rattle.lh_addr.specs.Settings.{IsInRange};
ghost use Rattle.lh_addr.specs.Limits.{most_buckets, most_capacity};
ghost use Rattle.lh_image.specs.Faults.{bad_field, bad_counts, field_rows, first_fault_of, out_of};
ghost use Rattle.lh_image.specs.Header.{AreInRange, IsFirstBadSetting, ReadsFront, ReadsHeader, header_with};
ghost use Rattle.lh_image.specs.Layout.{ends_in_zeros, fields_end, header_of};
ghost use Rattle.lh_image.specs.Version.{page_bytes, slots, version_of};
ghost use Rattle.lh_image.specs.declared.version.Version.{Version};

use crate::fault::ImageFault;
use crate::header::Header;
use crate::layout;
use crate::limits::MAX_PAGES;
use crate::reading::filling::{read_into, read_whole};
use crate::version::Version;
use byteorder::{ByteOrder, LittleEndian};
use lh_addr::limits::MAX_BUCKETS;
use lh_addr::{Config, Range};
use lh_page::format::{PAGE_1, PAGE_2};
use lh_page::is_zero;
use std::io::Read;

/// The numbers of a header, as they stand there.
#[derive(Clone, Copy)]
pub(crate) struct Fields {
    pub initial: u32,
    pub capacity: u32,
    pub load: u32,
    pub buckets: u32,
    pub max: u32,
    pub pages: u32,
    pub records: u64,
}

/// The numbers that stand in a page's bytes.
fn fields_of(page: &[u8]) -> Fields
    requires { fields_end ≤ length page.now }
    ensures { header_with (version_of page.now) result ≡ header_of page.now }
{
    Fields {
        initial: LittleEndian::read_u32(&page[layout::INITIAL..layout::CAPACITY]),
        capacity: LittleEndian::read_u32(&page[layout::CAPACITY..layout::LOAD]),
        load: LittleEndian::read_u32(&page[layout::LOAD..layout::BUCKETS]),
        buckets: LittleEndian::read_u32(&page[layout::BUCKETS..layout::MAX]),
        max: LittleEndian::read_u32(&page[layout::MAX..layout::PAGES]),
        pages: LittleEndian::read_u32(&page[layout::PAGES..layout::RECORDS]),
        records: LittleEndian::read_u64(&page[layout::RECORDS..layout::FIELDS_END]),
    }
}

/// Whether the number of buckets is out of its range.
fn has_bad_buckets(fields: &Fields) -> bool
    ensures { result ≡ out_of fields.now.initial most_buckets fields.now.buckets }
{
    fields.buckets < fields.initial || fields.buckets > MAX_BUCKETS
}

/// The configuration that the fields say, or the first of its ranges that they are out of. A page has room for
/// no more records than a page of the version has slots.
fn ranged(version: Version, fields: &Fields) -> Result<Config, Range>
    ensures ok { IfOk result (λ config. config ≡ (header_with version fields.now).config) }
    ensures in_range { IfOk result (λ config. IsInRange config) }
    ensures room { IfOk result (λ config. config.capacity ≤ slots version) }
    ensures err { IfErr result (IsFirstBadSetting (header_with version fields.now)) }
{
    match Config::new(fields.initial, fields.capacity, fields.load, fields.max) {
        Err(Range::Initial) => Err(Range::Initial),
        _ if fields.capacity > version.slots() => Err(Range::Capacity),
        answer => answer,
    }
}

/// The configuration that the fields say, or the offset of the first that is out of its range.
fn config_of(version: Version, fields: &Fields) -> Result<Config, u32>
    ensures ok { IfOk result (λ config. config ≡ (header_with version fields.now).config) }
    ensures in_range { IfOk result (λ config. IsInRange config) }
    ensures room { IfOk result (λ config. config.capacity ≤ slots version) }
    ensures buckets { IfOk result (λ config. (config.initial ≤ fields.now.buckets)
        × (fields.now.buckets ≤ config.max)) }
    ensures fault { result_err result ≡ bad_field (header_with version fields.now) true }
{
    match ranged(version, fields) {
        Err(Range::Initial) => Err(layout::INITIAL as u32),
        Err(Range::Capacity) => Err(layout::CAPACITY as u32),
        Err(Range::Load) => Err(layout::LOAD as u32),
        Err(Range::Max) => Err(if has_bad_buckets(fields) {
            layout::BUCKETS as u32
        } else {
            layout::MAX as u32
        }),
        Ok(config) => {
            if has_bad_buckets(fields) {
                return Err(layout::BUCKETS as u32);
            }
            if fields.buckets > fields.max {
                return Err(layout::MAX as u32);
            }
            Ok(config)
        }
    }
}

/// Whether the numbers of pages and of records can't be.
#[tactic(auto, unfolding(crate::specs::Faults::bad_counts))]
fn has_bad_counts(fields: &Fields) -> bool
    requires buckets { fields.now.buckets ≤ most_buckets }
    requires capacity { fields.now.capacity ≤ most_capacity }
    ensures { (version : Version) → result ≡ bad_counts (header_with version fields.now) }
{
    let pages = fields.pages;
    if pages < 1 + fields.buckets || pages > MAX_PAGES {
        return true;
    }
    fields.records > fields.capacity as u64 * (pages as u64 - 1)
}

/// The header that a page is, or the fault of its fields.
pub(crate) fn header_of(version: Version, page: &[u8]) -> Result<Header, ImageFault>
    requires version { version ≡ version_of page.now }
    requires size { length page.now ≡ page_bytes version }
    ensures header { IfOk result (λ header. header ≡ header_of page.now) }
    ensures in_range { IfOk result (λ header. AreInRange header) }
    ensures fault { result_err result ≡ first_fault_of (field_rows (header_of page.now) (ends_in_zeros page.now)) }
{
    let fields = fields_of(page);
    let config = match config_of(version, &fields) {
        Ok(config) => config,
        Err(offset) => return Err(ImageFault::HeaderField(offset)),
    };
    if !is_zero(&page[layout::FIELDS_END..]) {
        return Err(ImageFault::HeaderField(layout::FIELDS_END as u32));
    }
    if has_bad_counts(&fields) {
        return Err(ImageFault::Counts);
    }
    Ok(Header {
        version,
        config,
        buckets: fields.buckets,
        pages: fields.pages,
        records: fields.records,
    })
}

/// Reads as many bytes as a page of version 1 has, by which each first page begins, and tells its version.
fn read_front<R: Read>(reader: &mut R, front: &mut [u8]) -> Result<Version, ImageFault>
    requires { length front.old ≡ PAGE_1 }
    ensures size { length front.new ≡ length front.old }
    ensures told { IfOk result (λ version. version ≡ version_of front.new) }
    ensures read { IfSome (R.remaining reader.old) (λ bytes.
        ReadsFront bytes result (λ _. front.new) (R.remaining reader.new)) }
{
    let count = read_into(reader, front)?;
    let Some(version) = Version::of(&front[..count]) else {
        return Err(ImageFault::Magic);
    };
    if count < PAGE_1 {
        return Err(ImageFault::Short);
    }
    Ok(version)
}

/// Reads the first page to the front of a buffer, and tells its version. What a longer page has more is read
/// only where the bytes before it tell that it is one.
fn read_first_page<R: Read>(reader: &mut R, page: &mut [u8; PAGE_2]) -> Result<Version, ImageFault>
    ensures told { IfOk result (λ version. version ≡ version_of (take (page_bytes version) page.new)) }
    ensures read { IfSome (R.remaining reader.old) (λ bytes. ReadsFront bytes result
        (λ version. take (page_bytes version) page.new) (R.remaining reader.new)) }
{
    let version = read_front(reader, &mut page[..PAGE_1])?;
    read_whole(reader, &mut page[PAGE_1..version.page_bytes()])?;
    Ok(version)
}

/// Reads the first page, and decides the faults that it shows alone.
pub(crate) fn read_header<R: Read>(reader: &mut R) -> Result<Header, ImageFault>
    ensures in_range { IfOk result (λ header. AreInRange header) }
    ensures read { IfSome (R.remaining reader.old) (λ bytes. ReadsHeader bytes result (R.remaining reader.new)) }
{
    let mut page = [0; PAGE_2];
    let version = read_first_page(reader, &mut page)?;
    header_of(version, &page[..version.page_bytes()])
}
