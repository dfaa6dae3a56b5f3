//! A writer with room of a fixed size before another.
ghost use Rattle.std.specs.Prelude.{◌≡◌, ◌≤◌, [], length, take, drop, OnOk};
ghost use Rattle.std.specs.Io.KnownBytes.{Appends, Keeps};
ghost use Rattle.streams.specs.Fixed.{written};
ghost use Rattle.arrayvec.specs.ArrayVec.{array_vec_len};

use arrayvec::ArrayVec;
use runs::remove_range;
use std::io::{self, ErrorKind, Write};

/// How many bytes are kept at most.
const ROOM: usize = 8192;

/// A writer that keeps what it is given, and hands it on at once where there is no more room, or when it is flushed. What the other does
/// not take stays. Nothing is handed on when it is dropped.
#[derive(Drop)]
pub struct FixedWriter<W> {
    inner: W,
    kept: ArrayVec<u8, ROOM>,
}

impl<W: Write> FixedWriter<W> {
    pub fn new(inner: W) -> Self
        ensures inner { result.inner ≡ inner }
        ensures empty { result.kept.items ≡ [] }
    {
        FixedWriter {
            inner,
            kept: ArrayVec::new(),
        }
    }

    /// What is kept is handed on.
    fn hand_on(&mut self) -> io::Result<()>
        ensures bytes { Keeps (written W.contents self.old) (written W.contents self.new) }
        ensures empty { OnOk result (self.new.kept.items ≡ []) }
    {
        let (count, outcome) = write_out(self.kept.as_slice(), &mut self.inner);
        remove_range(&mut self.kept, 0, count);
        outcome
    }

    /// Bytes that do not fit behind what is kept: that is handed on first.
    #[inline(never)]
    fn write_over(&mut self, buf: &[u8]) -> io::Result<()>
        ensures { OnOk result (Appends (written W.contents self.old) (written W.contents self.new) buf.now) }
    {
        self.hand_on()?;
        if self.kept.try_extend_from_slice(buf).is_ok() {
            return Ok(());
        }
        self.inner.write_all(buf)
    }
}

impl<W: Write> Write for FixedWriter<W> {
    ghost contents = { written W.contents };

    fn write(&mut self, buf: &[u8]) -> io::Result<usize> {
        if self.kept.try_extend_from_slice(buf).is_ok() {
            return Ok(buf.len());
        }
        self.hand_on()?;
        if self.kept.try_extend_from_slice(buf).is_ok() {
            return Ok(buf.len());
        }
        self.inner.write(buf)
    }

    fn write_all(&mut self, buf: &[u8]) -> io::Result<()> {
        if self.kept.try_extend_from_slice(buf).is_ok() {
            return Ok(());
        }
        self.write_over(buf)
    }

    fn flush(&mut self) -> io::Result<()>
        ensures bytes { Keeps (written W.contents self.old) (written W.contents self.new) }
        ensures empty { OnOk result (self.new.kept.items ≡ []) }
    {
        self.hand_on()?;
        self.inner.flush()
    }
}

/// How many of the bytes a writer took, and whether these are all.
fn write_out<W: Write>(bytes: &[u8], to: &mut W) -> (usize, io::Result<()>)
    ensures bound { result.0 ≤ length bytes.now }
    ensures all { OnOk result.1 (result.0 ≡ length bytes.now) }
    ensures taken { Appends (W.contents to.old) (W.contents to.new) (take result.0 bytes.now) }
{
    let mut count = 0;
    while count < bytes.len() {
        match to.write(&bytes[count..]) {
            Ok(0) => return (count, Err(io::Error::from(ErrorKind::WriteZero))),
            Ok(more) => count += more,
            Err(error) => return (count, Err(error)),
        }
    }
    (count, Ok(()))
}
