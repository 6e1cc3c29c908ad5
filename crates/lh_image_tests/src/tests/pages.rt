//! Images of either version put together byte by byte, faultless and forged ones.
use std::alloc::Global;
use std::test::Fail;

/// The first bytes of a version's images, and the bytes of a page, of a slot's key and of its value.
#[derive(Clone, Copy)]
pub(crate) struct Shape {
    magic: [u8; 4],
    page: usize,
    key: usize,
    value: usize,
}

pub(crate) const VERSION_1: Shape = Shape {
    magic: *b"LHF1",
    page: 1024,
    key: 30,
    value: 40,
};

pub(crate) const VERSION_2: Shape = Shape {
    magic: *b"LHF2",
    page: 4096,
    key: 56,
    value: 112,
};

/// What a page begins with: its kind, how many records it has, and its level.
type Head = [u8; 3];

const PRIMARY: Head = [1, 1, 0];

const OVERFLOW: Head = [2, 1, 0];

fn put_number(bytes: &mut Vec<u8>, number: u32) -> Result<(), Fail> {
    bytes.extend_from_slice(&number.to_le_bytes())?;
    Ok(())
}

/// A part, and zeros behind it: this many bytes in all.
fn put_padded(bytes: &mut Vec<u8>, part: &[u8], room: usize) -> Result<(), Fail> {
    let end = bytes.len().saturating_add(room);
    bytes.extend_from_slice(part)?;
    bytes.resize(end, 0)?;
    Ok(())
}

/// The header with these numbers.
pub(crate) fn put_header(
    bytes: &mut Vec<u8>,
    shape: &Shape,
    numbers: [u32; 7],
) -> Result<(), Fail> {
    let end = bytes.len().saturating_add(shape.page);
    bytes.extend_from_slice(&shape.magic)?;
    for number in numbers {
        put_number(bytes, number)?;
    }
    bytes.resize(end, 0)?;
    Ok(())
}

/// A page with one record.
fn put_page(
    bytes: &mut Vec<u8>,
    shape: &Shape,
    head: Head,
    bucket: u32,
    next: u32,
    key: &[u8],
    value: &[u8],
) -> Result<(), Fail> {
    let end = bytes.len().saturating_add(shape.page);
    put_padded(bytes, &head, 4)?;
    put_number(bytes, bucket)?;
    put_number(bytes, next)?;
    put_number(bytes, 0)?;
    bytes.push(key.len().min(255) as u8)?;
    bytes.push(value.len().min(255) as u8)?;
    put_padded(bytes, key, shape.key)?;
    put_padded(bytes, value, shape.value)?;
    bytes.resize(end, 0)?;
    Ok(())
}

/// Two buckets with an overflow page each.
pub(crate) fn two_buckets(alloc: Global, shape: &Shape) -> Result<Vec<u8>, Fail> {
    let mut bytes = Vec::new(alloc);
    put_header(&mut bytes, shape, [2, 1, 100, 2, 2, 5, 4])?;
    put_page(&mut bytes, shape, PRIMARY, 0, 3, b"a", b"1")?;
    put_page(&mut bytes, shape, PRIMARY, 1, 4, b"b", b"2")?;
    put_page(&mut bytes, shape, OVERFLOW, 0, 0, b"c", b"3")?;
    put_page(&mut bytes, shape, OVERFLOW, 1, 0, b"d", b"4")?;
    Ok(bytes)
}

/// The image of [`two_buckets`] with its overflow pages exchanged.
pub(crate) fn two_buckets_exchanged(alloc: Global, shape: &Shape) -> Result<Vec<u8>, Fail> {
    let mut bytes = Vec::new(alloc);
    put_header(&mut bytes, shape, [2, 1, 100, 2, 2, 5, 4])?;
    put_page(&mut bytes, shape, PRIMARY, 0, 4, b"a", b"1")?;
    put_page(&mut bytes, shape, PRIMARY, 1, 3, b"b", b"2")?;
    put_page(&mut bytes, shape, OVERFLOW, 1, 0, b"d", b"4")?;
    put_page(&mut bytes, shape, OVERFLOW, 0, 0, b"c", b"3")?;
    Ok(bytes)
}

/// One bucket with a chain of four pages.
pub(crate) fn four_pages(alloc: Global, shape: &Shape) -> Result<Vec<u8>, Fail> {
    let mut bytes = Vec::new(alloc);
    put_header(&mut bytes, shape, [1, 1, 100, 1, 1, 5, 4])?;
    put_page(&mut bytes, shape, PRIMARY, 0, 2, b"a", b"1")?;
    put_page(&mut bytes, shape, OVERFLOW, 0, 3, b"c", b"3")?;
    put_page(&mut bytes, shape, OVERFLOW, 0, 4, b"e", b"5")?;
    put_page(&mut bytes, shape, OVERFLOW, 0, 0, b"g", b"7")?;
    Ok(bytes)
}

/// One bucket whose overflow pages stand in falling order, each page with its number as key.
pub(crate) fn falling_chain(alloc: Global, shape: &Shape, pages: u32) -> Result<Vec<u8>, Fail> {
    let mut bytes = Vec::new(alloc);
    put_header(
        &mut bytes,
        shape,
        [1, 1, 100, 1, 1, pages.saturating_add(1), pages],
    )?;
    for page in 1..=pages {
        let next = match page {
            1 => pages,
            2 => 0,
            _ => page - 1,
        };
        let head = if page == 1 { PRIMARY } else { OVERFLOW };
        put_page(&mut bytes, shape, head, 0, next, &page.to_be_bytes(), &[])?;
    }
    Ok(bytes)
}

pub(crate) fn set(bytes: &mut Vec<u8>, at: usize, byte: u8) {
    if let Some(place) = bytes.get_mut(at) {
        *place = byte;
    }
}
