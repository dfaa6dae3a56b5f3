//! What no contract says: that a text can be read at all, and what an image is answered by.
use crate::{Bytes, Image, Numbers, Unread, answer_all, read_text};
use std::alloc::{AllocError, AllocFailed};
use std::io::{self, ErrorKind, Read, Write};
use std::test::Fail;
use streams::FixedReader;

/// A reader that fails.
#[derive(Drop)]
struct Failing;

impl Read for Failing {
    fn read(&mut self, _buf: &mut [u8]) -> io::Result<usize> {
        Err(io::Error::from(ErrorKind::BrokenPipe))
    }
}

#[test]
fn reads_a_text(rt: HostRuntime) -> Result<(), Fail> {
    let text = read_text(rt.alloc(), b"s 1\n#\xFF\n=\n".as_slice())?;
    assert_eq!(rt; text.as_str(), "s 1\n#\u{FFFD}\n=\n");
    let failed = read_text(rt.alloc(), Failing);
    assert_eq!(rt;
        failed.err().map(|error| error.kind()),
        Some(ErrorKind::BrokenPipe)
    );
    Ok(())
}

#[test]
fn heap_that_is_out_is_told(rt: HostRuntime) -> Result<(), Fail> {
    assert_eq!(rt; Unread::from(AllocError), Unread::OutOfMemory);
    assert_eq!(rt; Unread::from(AllocFailed { value: 7 }), Unread::OutOfMemory);
    let mut told = Vec::new(rt.alloc());
    write!(told, "{}", Unread::OutOfMemory)?;
    assert_eq!(rt; told.as_slice(), b"out of memory".as_slice());
    Ok(())
}

/// How many sections' numbers and bytes an image has.
fn answer<W: Write>(out: &mut W, image: &Image) -> io::Result<()> {
    writeln!(out, "{} {}", image.sections.len(), image.bytes.len())
}

#[test]
fn answers_each_image(rt: HostRuntime) -> Result<(), Fail> {
    let mut numbers: Numbers = [0; 400000];
    let mut bytes: Bytes = [0; 300000];
    let mut out = Vec::new(rt.alloc());
    let text = "s 1 100\nb 00*3\n=\nx\n=\nb 00*493e1\n=\ns 1";
    answer_all(
        &mut FixedReader::new(text.as_bytes()),
        &mut numbers,
        &mut bytes,
        &mut out,
        |out, image| answer(out, image),
    )?;
    assert_eq!(rt; out.as_slice(), b"2 3\n=\n?\n=\n!\n=\n?\n=\n".as_slice());
    Ok(())
}
