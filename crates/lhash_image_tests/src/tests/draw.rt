//! Drawings of images.
use lh_expect::{expect, expect_eq};
use lhash_expect::{built, has_parts, inserts, ran};
use std::process::Abort;
use std::sync::Wait;
use std::test::Fail;
use std::thread::Threads;

/// What is drawn of an empty file of two buckets.
const EMPTY_FILE: &str =
    "<svg xmlns='http://www.w3.org/2000/svg' width='648' height='188' viewBox='0 0 648 188' role='img' aria-labelledby='title desc' font-family='sans-serif' font-size='12' fill='#333333'>
<title id='title'>Linear hash file: buckets 2, level 0, pointer 0, records 0, pages 3, longest chain 1</title>
<rect width='100%' height='100%' fill='#ffffff'/>
<text x='24' y='24'>buckets 2, level 0, pointer 0, records 0, pages 3, longest chain 1</text>
<path fill='#0072b2' d='M24 50v-12h12v12z'/><text x='42' y='48'>level 0</text><text x='104' y='48'>buckets in a column: 1</text>
<desc id='desc'>Columns of boxes, one for each bucket, blue at the level of the file and orange one above: a box is a page, coloured as far as its slots are used. A triangle marks the bucket that splits next.</desc>
<text x='24' y='68'>a box is a page, coloured as far as its slots are used</text>
<g transform='translate(24 132)'>
<path fill='#b3d5e8' d='M0 -0v-36h48v36z'/><path fill='#0072b2' d='M0 -0v-0h48v0z'/>
<path fill='#b3d5e8' d='M64 -0v-36h48v36z'/><path fill='#0072b2' d='M64 -0v-0h48v0z'/>
<path stroke='#ffffff' stroke-width='128' stroke-dasharray='4 36' d='M64 -40v40'/>
<text x='24' y='16' text-anchor='middle'>0</text>
<text x='88' y='16' text-anchor='middle'>1</text>
<path d='M24 20l5 9h-10z'/><text x='24' y='43' text-anchor='middle'>n = 0</text>
</g>
</svg>
";

/// The image of an empty file of two buckets.
fn empty_file(rt: &(impl AllocGlobal + Threads + Wait + Sync)) -> Result<Vec<u8>, Fail> {
    let (_, image, _) = ran(rt, ["lhash", "build", "--initial", "2"].as_slice(), b"")?;
    Ok(image)
}

#[test]
fn an_empty_file_is_drawn(rt: HostRuntime) -> Result<(), Fail> {
    let image = empty_file(&rt)?;
    let (code, written, text) = ran(&rt, ["lhash", "draw"].as_slice(), image.as_slice())?;
    expect_eq!(&rt, text.as_str(), "");
    expect_eq!(&rt, written.as_slice(), EMPTY_FILE.as_bytes());
    expect_eq!(rt; code, 0);
    Ok(())
}

#[test]
fn a_cut_off_image_is_not_drawn(rt: HostRuntime) -> Result<(), Fail> {
    let mut image = empty_file(&rt)?;
    image.truncate(3071);
    let (code, written, text) = ran(&rt, ["lhash", "draw"].as_slice(), image.as_slice())?;
    expect_eq!(&rt, text.as_str(), "image I4");
    expect_eq!(rt; code, 1);
    expect!(&rt, written.is_empty());
    Ok(())
}

/// What is drawn of an image has each part so often.
fn drawing_has(
    rt: &(impl Abort + AllocGlobal + Threads + Wait + Sync),
    image: &[u8],
    parts: &[(&str, usize)],
) -> Result<(), Fail> {
    let (code, written, text) = ran(rt, ["lhash", "draw"].as_slice(), image)?;
    expect_eq!(rt, text.as_str(), "");
    expect_eq!(rt; code, 0);
    has_parts(written.as_slice(), parts)
}

/// What is drawn of the file that this many inserts make in pages of one record has each part so often.
fn draws(
    rt: &(impl Abort + AllocGlobal + Threads + Wait + Sync),
    most: &str,
    records: u32,
    parts: &[(&str, usize)],
) -> Result<(), Fail> {
    let script = inserts(rt, records)?;
    let words = ["lhash", "build", "--image=1", "--capacity=1", most];
    let image = built(rt, words.as_slice(), script.as_str())?;
    drawing_has(rt, &image, parts)
}

/// Of 26 pages 24 are drawn, each of them all blue.
#[test]
fn a_long_chain_is_drawn_in_part(rt: HostRuntime) -> Result<(), Fail> {
    let parts = [
        (" width='648' height='1148' ", 1),
        (
            "buckets 1, level 0, pointer 0, records 26, pages 27, longest chain 26</t",
            2,
        ),
        ("<path fill='#b3d5e8' d='M0 -", 24),
        ("v-36h48v36z'/><path fill='#0072b2' d='M0 -", 24),
        ("' d='M0 -920v-36h48v36z'/>", 2),
        (
            "<text transform='translate(24 -964)rotate(-90)' dy='3' font-size='8'>+2</text>\n",
            1,
        ),
        (
            "<path stroke='#ffffff' stroke-width='64' stroke-dasharray='4 36' d='M32 -960v960'/>\n",
            1,
        ),
    ];
    draws(&rt, "--max=1", 26, parts.as_slice())
}

/// Three buckets to a column, which is two wide: the column of bucket 1023 is blue, and the last one orange. That no
/// chain is longer than two pages, and how many there are, comes of the codes of the keys.
#[test]
fn many_buckets_are_drawn_in_groups(rt: HostRuntime) -> Result<(), Fail> {
    let parts = [
        (" width='1048' height='228' ", 1),
        (
            "buckets 1500, level 10, pointer 476, records 1500, pages 1859, longest chain 2</t",
            2,
        ),
        (
            ">level 10</text><path fill='#e69f00' d='M104 50v-12h12v12z'/><text x='122' y='48'>level 11<",
            1,
        ),
        (">buckets in a column: 3</text>", 1),
        (
            "<desc id='desc'>Columns, one for each group of buckets, ",
            1,
        ),
        (
            ">a column is as high as its longest chain, 24 pages at most, and ",
            1,
        ),
        ("h2v", 1_000),
        ("<path fill='#b3d5e8' d='M682 -0v-", 1),
        ("<path fill='#f8e2b3' d='M998 -0v-", 1),
        ("<text x='897' y='16' text-anchor='middle'>1344</text>\n", 1),
        ("' y='16' text-anchor='middle'>", 8),
        (
            "<path d='M317 20l5 9h-10z'/><text x='317' y='43' text-anchor='middle'>n = 476<",
            1,
        ),
    ];
    draws(&rt, "--max=65536", 1_500, parts.as_slice())
}
