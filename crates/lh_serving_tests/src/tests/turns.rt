//! A client at the other end of `serve`, who looks at what was flushed whenever it is listened to.
use lh_addr::Config;
use lh_expect::{expect, expect_eq};
use lh_subcommands::{Notation, answer_serve, answer_serve_from};
use std::cell::Cell;
use std::io::{self, Error, ErrorKind, Read, Write};
use std::process::Abort;
use std::test::Fail;

/// Sends a piece at each read, and then nothing or a fault; and notes how many bytes were flushed before each.
#[derive(Drop)]
struct Sends<'a> {
    pieces: &'a [&'a [u8]],
    sent: usize,
    fails: bool,
    flushed: &'a Cell<usize>,
    noted: Vec<usize>,
}

impl Read for Sends<'_> {
    fn read(&mut self, buf: &mut [u8]) -> io::Result<usize> {
        if self.noted.push(self.flushed.get()).is_err() {
            return Err(Error::from(ErrorKind::OutOfMemory));
        }
        if self.sent >= self.pieces.len() {
            return if self.fails {
                Err(Error::from(ErrorKind::Interrupted))
            } else {
                Ok(0)
            };
        }
        let piece = self.pieces[self.sent];
        self.sent += 1;
        let count = piece.len().min(buf.len());
        buf[..count].copy_from_slice(&piece[..count]);
        Ok(count)
    }
}

/// Takes what is written, and notes how much of it was flushed.
#[derive(Drop)]
struct Hears<'a> {
    bytes: Vec<u8>,
    flushed: &'a Cell<usize>,
}

impl Write for Hears<'_> {
    fn write(&mut self, buf: &[u8]) -> io::Result<usize> {
        self.bytes.extend_from_slice(buf)?;
        Ok(buf.len())
    }

    fn flush(&mut self) -> io::Result<()> {
        self.flushed.set(self.bytes.len());
        Ok(())
    }
}

/// What is sent, and how much of the answers is flushed before each read.
const PIECES: [&[u8]; 5] = [
    b"insert 61 31\nsea",
    b"rch 61\nfrob\n",
    b"reco",
    b"rds",
    b"\nsearch 61\nsea",
];

const FLUSHED: [usize; 6] = [0, 9, 37, 37, 37, 56];

const ANSWERS: &[u8] = b"inserted\nfound 31\nfault unknown word\nrecords 1\nfound 31\n";

#[test]
fn each_line_is_answered_before_the_next_read(rt: HostRuntime) -> Result<(), Fail> {
    for fails in [false, true] {
        let flushed = Cell::new(0);
        let mut sends = Sends {
            pieces: PIECES.as_slice(),
            sent: 0,
            fails,
            flushed: &flushed,
            noted: Vec::new(rt.alloc()),
        };
        let mut hears = Hears {
            bytes: Vec::new(rt.alloc()),
            flushed: &flushed,
        };
        let status = answer_serve(
            rt.alloc(),
            Notation::Hexadecimal,
            false,
            Config::default(),
            &mut sends,
            &mut hears,
        );
        expect!(&rt, status.code() == if fails { 3 } else { 0 });
        expect_eq!(&rt, hears.bytes.as_slice(), ANSWERS);
        expect_eq!(&rt, sends.noted.as_slice(), FLUSHED.as_slice());
    }
    Ok(())
}

/// The conversation of some pieces, from an empty file or from the image that the first ones are.
pub fn told(
    rt: &(impl AllocGlobal + Abort),
    notation: Notation,
    is_terminal: bool,
    pieces: &[&[u8]],
    from_image: bool,
    flushed_before: &[usize],
) -> Result<Vec<u8>, Fail> {
    let flushed = Cell::new(0);
    let mut sends = Sends {
        pieces,
        sent: 0,
        fails: false,
        flushed: &flushed,
        noted: Vec::new(rt.alloc()),
    };
    let mut hears = Hears {
        bytes: Vec::new(rt.alloc()),
        flushed: &flushed,
    };
    let status = if from_image {
        answer_serve_from(rt.alloc(), notation, is_terminal, &mut sends, &mut hears)
    } else {
        answer_serve(
            rt.alloc(),
            notation,
            is_terminal,
            Config::default(),
            &mut sends,
            &mut hears,
        )
    };
    expect_eq!(rt, status.code(), 0);
    expect_eq!(rt; sends.noted.as_slice(), flushed_before);
    Ok(hears.bytes)
}

/// The bytes of an empty file's image.
const EMPTY_IMAGE: usize = 8_192;

#[test]
fn an_image_is_told_before_what_comes_behind_it(rt: HostRuntime) -> Result<(), Fail> {
    // Three lines at once: the image stands between the answers to the other two.
    let all: [&[u8]; 1] = [b"records\nimage\nbuckets\nrec"];
    let front = b"records 0\nimage 8192\nLHF2";
    let behind = b"buckets 1\n";
    let length = front.len() - 4 + EMPTY_IMAGE + behind.len();
    let told_at_once = told(
        &rt,
        Notation::Hexadecimal,
        false,
        all.as_slice(),
        false,
        [0, length].as_slice(),
    )?;
    expect_eq!(rt; told_at_once.len(), length);
    expect!(&rt, told_at_once.as_slice().starts_with(front.as_slice()));
    expect!(&rt, told_at_once.as_slice().ends_with(behind.as_slice()));
    Ok(())
}

/// The line before an empty file's image.
const IMAGE_LINE: &[u8] = b"image 8192\n";

/// An empty file's image, as it is told.
fn told_first(rt: &(impl AllocGlobal + Abort)) -> Result<Vec<u8>, Fail> {
    let all: [&[u8]; 1] = [b"image\n"];
    let length = IMAGE_LINE.len() + EMPTY_IMAGE;
    told(
        rt,
        Notation::Hexadecimal,
        false,
        all.as_slice(),
        false,
        [0, length].as_slice(),
    )
}

/// A conversation that goes on from the image that was told, which is sent in pieces of as many bytes as are read at
/// once, and with lines behind it that have so many bytes of answers.
fn told_behind(
    rt: &(impl AllocGlobal + Abort),
    notation: Notation,
    is_terminal: bool,
    told_first: &[u8],
    lines: &[u8],
    length: usize,
) -> Result<Vec<u8>, Fail> {
    if told_first.len() != IMAGE_LINE.len() + EMPTY_IMAGE {
        return Err(Fail::from("no image of an empty file"));
    }
    let image = &told_first[IMAGE_LINE.len()..];
    let (first, rest) = image.split_at(1_024);
    let (second, last) = rest.split_at(3_072);
    let pieces: [&[u8]; 4] = [first, second, last, lines];
    told(
        rt,
        notation,
        is_terminal,
        pieces.as_slice(),
        true,
        [0, 0, 0, 0, length].as_slice(),
    )
}

fn goes_on(rt: &(impl AllocGlobal + Abort), told_first: &[u8]) -> Result<(), Fail> {
    let lines = b"insert 61 31\nrecords\nimage\n";
    let answers = b"inserted\nrecords 1\nimage 8192\n";
    let length = answers.len() + EMPTY_IMAGE;
    let next = told_behind(rt, Notation::Hexadecimal, false, told_first, lines, length)?;
    expect_eq!(rt; next.len(), length);
    expect!(rt, next.as_slice().starts_with(answers));
    Ok(())
}

#[test]
fn a_conversation_goes_on_from_its_image(rt: HostRuntime) -> Result<(), Fail> {
    let first = told_first(&rt)?;
    goes_on(&rt, &first)
}

fn goes_on_at_a_terminal(rt: &(impl AllocGlobal + Abort), told_first: &[u8]) -> Result<(), Fail> {
    let lines = b"insert ada 0172\nimage\nsearch ada\n";
    let answers = b"inserted\nfault image on a terminal\nfound 0172\n";
    let next = told_behind(rt, Notation::Text, true, told_first, lines, answers.len())?;
    expect_eq!(rt; next.as_slice(), answers.as_slice());
    Ok(())
}

#[test]
fn a_conversation_in_text_goes_on_from_its_image(rt: HostRuntime) -> Result<(), Fail> {
    let first = told_first(&rt)?;
    goes_on_at_a_terminal(&rt, &first)
}
