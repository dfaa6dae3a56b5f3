//! The text in which the test programs read the lists that are lent for an image.
//!
//! An image is lines of text, ended by a line `=`. A line that begins with `#` is a remark. Any other line begins with the letter of a
//! list, and puts numbers at that list's end, so the lists are lent as they stand, rows that are not whole too:
//!
//!   s  sections     o  outcomes     f  functions     j  objects     k  skips     e  entry     b  bytes
//!   n  known functions     w  walks (both for the program `walked` alone)
//!
//! Numbers are hexadecimal, in small letters, of up to eight digits, with spaces between them; bytes have two digits each, and need no
//! spaces. `*` and a hexadecimal count at the end of a line say how often the line's numbers come in all. The lines of a list of
//! numbers stand together.
//!
//! An image with a line that is not of this form, or that no `=` ends, is told by `?`; one with more than 400,000 numbers or 300,000
//! bytes by `!`.
#![tactic(auto)]

mod digits;
mod image;
#[cfg(test)]
mod tests;

ghost use Rattle.std.specs.Prelude.{◌≡◌, ◌≢◌, length, IfOk, IfErr, IfSome};
ghost use Rattle.std.specs.IoError.{error_kind};
ghost use Rattle.std.specs.Str.Lossy.{utf8_lossy};
ghost use Rattle.std.specs.String.{string_bytes};

use image::Reading;
pub use image::{Bytes, Image, Numbers, Unread};
use std::alloc::Global;
use std::io::{self, ErrorKind, Read, Write};
use streams::FixedReader;

/// After so many images the rest of the input is passed over.
const MOST_IMAGES: usize = 1000000;

/// Nothing says that the input ends; a million reads are four gigabytes.
const MOST_READS: usize = 1000000;

/// All that a reader gives, on the heap. Bytes that are no text become a character that stands in no line but a remark.
pub fn read_text<R: Read + Drop>(alloc: Global, mut from: R) -> io::Result<String>
    ensures text { IfOk result (λ text. IfSome (R.remaining from) (λ bytes. string_bytes text ≡ utf8_lossy bytes)) }
    ensures retried { IfErr result (λ e. error_kind e ≢ ErrorKind.Interrupted) }
{
    let mut bytes = Vec::new(alloc);
    from.read_to_end(&mut bytes)?;
    Ok(String::from_utf8_lossy(alloc, &bytes)?)
}

/// The image that comes next, as far as the input goes.
fn read_image<R: Read>(
    from: &mut FixedReader<R>,
    numbers: &mut [u32],
    bytes: &mut [u8],
) -> io::Result<Reading>
    requires numbers { length numbers.old ≡ 400000 }
    requires bytes { length bytes.old ≡ 300000 }
{
    let mut reading = Reading::new();
    for _ in 0..MOST_READS {
        let taken = reading.take_all(from.buffer(), numbers, bytes);
        from.consume(taken);
        if reading.is_ended() {
            break;
        }
        from.fill()?;
        if from.buffer().is_empty() {
            break;
        }
    }
    Ok(reading)
}

/// What is written for each image that is read: what `answer` writes, or why there is no answer, and a line `=`. It is written before more
/// is read than the image needs.
pub fn answer_all<R: Read, W: Write, F: Fn(&mut W, &Image) -> io::Result<()>>(
    from: &mut FixedReader<R>,
    numbers: &mut Numbers,
    bytes: &mut Bytes,
    out: &mut W,
    answer: F,
) -> io::Result<()>
    requires { F.IsAlwaysCallable answer }
{
    for _ in 0..MOST_IMAGES {
        let reading = read_image(from, numbers, bytes)?;
        if !reading.is_ended() {
            if reading.is_open() {
                writeln!(out, "{}\n=", Unread::Malformed)?;
            }
            break;
        }
        match reading.image(numbers, bytes) {
            Ok(image) => answer(out, &image)?,
            Err(unread) => writeln!(out, "{unread}")?,
        }
        writeln!(out, "=")?;
        out.flush()?;
    }
    out.flush()
}
