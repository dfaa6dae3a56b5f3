//! A reader with room of a fixed size before another.
ghost use Rattle.std.specs.Prelude.{◌≡◌, ◌≤◌, [], length, drop, OnOk};
ghost use Rattle.std.specs.Io.KnownBytes.{Keeps, IsAtEnd};
ghost use Rattle.streams.specs.Fixed.{ahead, left};

use std::io::{self, Read};

/// How many bytes are read at a time.
const ROOM: usize = 4096;

/// A reader that reads ahead, and shows what it has read.
#[derive(Drop)]
pub struct FixedReader<R> {
    inner: R,
    space: [u8; ROOM],
    /// what was read and is not consumed yet stands in the space from here up to there
    next: usize,
    end: usize,
}

impl<R: Read> FixedReader<R> {
    /// Nothing is read.
    pub fn new(inner: R) -> Self
        ensures inner { result.inner ≡ inner }
        ensures empty { ahead result ≡ [] }
    {
        FixedReader {
            inner,
            space: [0; ROOM],
            next: 0,
            end: 0,
        }
    }

    /// What was read and is not consumed yet.
    pub fn buffer(&self) -> &[u8]
        ensures { result.now ≡ ahead self.now }
    {
        let end = self.end.min(ROOM);
        &self.space[self.next.min(end)..end]
    }

    /// So many bytes of it are consumed.
    pub fn consume(&mut self, amount: usize)
        requires { amount ≤ length (ahead self.old) }
        ensures bytes { ahead self.new ≡ drop amount (ahead self.old) }
        ensures inner { self.new.inner ≡ self.old.inner }
    {
        self.next += amount;
    }

    /// Reads on where nothing is left of what was read. If nothing is left then, there is nothing more.
    pub fn fill(&mut self) -> io::Result<()>
        ensures bytes { Keeps (left R.remaining self.old) (left R.remaining self.new) }
        ensures end { OnOk result (ahead self.new ≡ [] → IsAtEnd (R.remaining self.new.inner)) }
    {
        if self.buffer().is_empty() {
            self.next = 0;
            self.end = 0;
            self.end = self.inner.read(&mut self.space)?;
        }
        Ok(())
    }
}
