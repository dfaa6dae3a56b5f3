//! Standard input and output, which never fail.
ghost use Rattle.std.specs.Prelude.{◌≡◌, length, IsOk, Ok, None, true, false};
ghost use Rattle.std.specs.Io.{ReadsAtMost, WritesAtMost};
ghost use Rattle.std.specs.Io.KnownBytes.{Keeps, ReadConsumes, WriteAppends};

use std::io::{Read, Result, Write};

/// Standard input. A read that fails is its end. A read fills all that it is lent, as far as there is anything to read, so that what is
/// read at a time does not depend on how the bytes come. Which bytes there are is not known, since any read may fail.
#[derive(Debug, Drop)]
pub struct Input;

impl Read for Input {
    fn read(&mut self, buf: &mut [u8]) -> Result<usize>
        ensures bound { ReadsAtMost result buf.new }
        ensures bytes { ReadConsumes None None result buf.new }
        ensures never_fails { IsOk result }
    {
        let count = io::read_full(0, buf);
        Ok(count)
    }
}

/// Standard input that is read to its end: a read that gives less than it is lent was the last, and nothing is asked for behind it. (Who
/// types would have to end the input twice.)
#[derive(Debug, Drop)]
pub struct WholeInput {
    is_ended: bool,
}

impl WholeInput {
    /// Nothing is read.
    pub fn new() -> Self
        ensures { result.is_ended ≡ false }
    {
        WholeInput { is_ended: false }
    }
}

impl Read for WholeInput {
    fn read(&mut self, buf: &mut [u8]) -> Result<usize>
        ensures bound { ReadsAtMost result buf.new }
        ensures bytes { ReadConsumes None None result buf.new }
        ensures never_fails { IsOk result }
        ensures ended { self.old.is_ended ≡ true → result ≡ Ok 0 }
    {
        if self.is_ended {
            return Ok(0);
        }
        let got = io::read_full(0, buf);
        self.is_ended = got < buf.len();
        Ok(got)
    }
}

/// Standard output. What cannot be written is passed over: the rest of what it was given then, and nothing that comes later.
#[derive(Debug, Drop)]
pub struct Output;

impl Write for Output {
    fn write(&mut self, buf: &[u8]) -> Result<usize>
        ensures bound { WritesAtMost result buf.now }
        ensures bytes { WriteAppends None None result buf.now }
        ensures never_fails { result ≡ Ok (length buf.now) }
    {
        let _is_written = io::write_all(1, buf);
        Ok(buf.len())
    }

    fn write_all(&mut self, buf: &[u8]) -> Result<()>
        ensures never_fails { IsOk result }
    {
        self.write(buf)?;
        Ok(())
    }

    fn flush(&mut self) -> Result<()>
        ensures bytes { Keeps None None }
        ensures never_fails { IsOk result }
    {
        Ok(())
    }
}
