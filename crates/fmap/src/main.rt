//! Reads an image from standard input, as lines of hexadecimal with one frame a line, and prints its map.
//!
//! crates/reading has the frames; `fmap_text` of crates/mapping is what is printed of a text of them. 1,048,576 bytes are read at most: a
//! text that is so long may go on, and is refused by R 01 as one with a line that is no frame is.
#![tactic(auto)]

ghost use Rattle.std.specs.Prelude.{◌≡◌, ◌≤◌, length, take, OnOk, IfSome};
ghost use Rattle.std.specs.Io.KnownBytes.{Appends};
ghost use Rattle.printing.specs.Told.{Begun};
ghost use Rattle.mapping.specs.Answers.{fmap_text, text_room};

use std::io::{self, Read, Write};
use streams::{Output, WholeInput};

/// How much is read at most.
type Text = [u8; 1048576];

/// Room for the longest text of a map.
type Map = [u8; 1489000];

/// What a reader gives, to its end or as far as there is room, at the front of `text`: how much that is, and whether a read failed, which
/// ends it too.
fn read_text<R: Read>(from: &mut R, text: &mut [u8]) -> (usize, io::Result<()>)
    ensures within { result.0 ≤ length text.new }
    ensures bytes { OnOk result.1 (IfSome (R.remaining from.old)
        (λ bytes. take result.0 text.new ≡ take (length text.old) bytes)) }
{
    let mut count = 0;
    while count < text.len() {
        match from.read(&mut text[count..]) {
            Ok(0) => break,
            Ok(more) => count += more,
            Err(error) => return (count, Err(error)),
        }
    }
    (count, Ok(()))
}

/// What is printed of a text: `map` begins with it, and is as it was behind it. The answer is how long it is.
fn map_read(text: &[u8], map: &mut Map) -> usize
    requires { length map.old ≡ 1489000 }
    ensures { Begun (fmap_text text.now) map.old map.new result }
{
    mapping::fmap_text(text, map)
}

/// The map of the image that a reader gives, to a writer. A read that fails is the image's end, and is told behind the map.
fn write_map<R: Read, W: Write>(
    from: &mut R,
    text: &mut Text,
    map: &mut Map,
    to: &mut W,
) -> io::Result<()>
    requires text_room { length text.old ≡ 1048576 }
    requires map_room { length map.old ≡ 1489000 }
    ensures { OnOk result (IfSome (R.remaining from.old)
        (λ bytes. Appends (W.contents to.old) (W.contents to.new) (fmap_text (take text_room bytes)))) }
{
    let (read, outcome) = read_text(from, text);
    let count = map_read(&text[..read], map);
    to.write_all(&map[..count])?;
    outcome
}

// What can be read is mapped, and what can be written of the map is written: nothing else is said of what fails.
fn main() {
    let mut text: Text = [0; 1048576];
    let mut map: Map = [0; 1489000];
    let _ = write_map(&mut WholeInput::new(), &mut text, &mut map, &mut Output);
}
