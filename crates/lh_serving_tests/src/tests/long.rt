//! Conversations of many reads, and answers that are longer together than what waits at most.
use lh_addr::Config;
use lh_expect::{expect, expect_eq};
use lh_subcommands::{Notation, answer_serve};
use std::alloc::{AllocError, Global};
use std::io::{self, Read, Write};
use std::process::Abort;
use std::test::Fail;

/// Sends so many empty lines, one at each read.
#[derive(Drop)]
struct SendsEmptyLines {
    left: u32,
}

impl Read for SendsEmptyLines {
    fn read(&mut self, buf: &mut [u8]) -> io::Result<usize> {
        if self.left == 0 || buf.is_empty() {
            return Ok(0);
        }
        self.left -= 1;
        buf[0] = b'\n';
        Ok(1)
    }
}

/// Counts the bytes that are written, and those of the longest write.
#[derive(Drop)]
struct Counts {
    bytes: usize,
    longest: usize,
}

impl Counts {
    fn new() -> Counts {
        Counts {
            bytes: 0,
            longest: 0,
        }
    }
}

impl Write for Counts {
    fn write(&mut self, buf: &[u8]) -> io::Result<usize> {
        self.bytes = self.bytes.saturating_add(buf.len());
        self.longest = self.longest.max(buf.len());
        Ok(buf.len())
    }

    fn flush(&mut self) -> io::Result<()> {
        Ok(())
    }
}

#[test]
fn a_conversation_has_many_reads(rt: HostRuntime) -> Result<(), Fail> {
    let mut sends = SendsEmptyLines { left: 120_000 };
    let mut counts = Counts::new();
    let status = answer_serve(
        rt.alloc(),
        Notation::Hexadecimal,
        false,
        Config::default(),
        &mut sends,
        &mut counts,
    );
    expect_eq!(&rt, status.code(), 0);
    expect_eq!(&rt, (sends.left, counts.bytes), (0, 0));
    Ok(())
}

fn add(lines: &mut String, text: &str, count: usize) -> Result<(), AllocError> {
    for _ in 0..count {
        lines.push_str(text)?;
    }
    Ok(())
}

/// A line that inserts a value of 112 times a byte, and two thousand lines that ask for it.
fn questions(alloc: Global, insert: &str, byte: &str, search: &str) -> Result<String, AllocError> {
    let mut lines = String::from_str(alloc, insert)?;
    add(&mut lines, byte, 112)?;
    add(&mut lines, "\n", 1)?;
    add(&mut lines, search, 2_000)?;
    Ok(lines)
}

/// These lines come with one read. Of their answers no more wait than begin within the first 65,536 bytes.
fn are_told(
    rt: &(impl Abort + AllocGlobal),
    notation: Notation,
    lines: &[u8],
    too_many: usize,
    bytes: usize,
) {
    let mut sends = lines;
    let mut counts = Counts::new();
    let status = answer_serve(
        rt.alloc(),
        notation,
        false,
        Config::default(),
        &mut sends,
        &mut counts,
    );
    expect_eq!(rt, status.code(), 0);
    expect_eq!(rt, counts.bytes, bytes);
    expect!(rt, counts.longest < too_many);
}

/// An answer has 231 bytes.
#[test]
fn answers_are_told_before_too_many_wait(rt: HostRuntime) -> Result<(), Fail> {
    let lines = questions(rt.alloc(), "insert 61 ", "31", "search 61\n")?;
    are_told(
        &rt,
        Notation::Hexadecimal,
        lines.as_bytes(),
        65_536 + 231,
        462_009,
    );
    Ok(())
}

/// As text an answer has up to 343 bytes.
#[test]
fn answers_in_text_are_told_before_too_many_wait(rt: HostRuntime) -> Result<(), Fail> {
    let lines = questions(rt.alloc(), "insert a ", r"\ff", "search a\n")?;
    are_told(&rt, Notation::Text, lines.as_bytes(), 65_536 + 343, 686_009);
    Ok(())
}
