//! Prints the map of each image of its input as `fmap` prints it, and a line `=` behind each.
//!
//! A line `=` ends an image. What stands behind the last such line is an image too if it is not empty. An image of 1,048,576 bytes or more
//! is refused by R 01, as `fmap` refuses it.
#![tactic(auto)]

mod cutting;

ghost use Rattle.std.specs.Prelude.{◌≡◌, ◌<◌, ◌≤◌, ◌++◌, length, take, codes, IfOk, OnOk};
ghost use Rattle.std.specs.Io.KnownBytes.{Appends};
ghost use Rattle.printing.specs.Told.{Begun};
ghost use Rattle.mapping.specs.Answers.{fmap_text, text_room};
ghost use Rattle.replay.specs.Rest.{Rest, kept, LineEnded};

use std::io::{self, Read, Write};
use streams::{Input, Output};

/// The room that `fmap` has for an image, which is shorter.
const IMAGE_ROOM: usize = 1048576;

/// Room for the longest image, and for 65,536 bytes more.
type Text = [u8; 1114112];

/// Room for the longest text of a map.
type Map = [u8; 1489000];

// ---- answers

/// What `fmap` prints of an image: `map` begins with it, and is as it was behind it. The answer is how long it is.
fn map_one(image: &[u8], map: &mut Map) -> usize
    requires { length map.old ≡ 1489000 }
    ensures { Begun (fmap_text image.now) map.old map.new result }
{
    mapping::fmap_text(image, map)
}

/// The map of an image, and a line `=`.
fn answer<W: Write>(image: &[u8], map: &mut Map, to: &mut W) -> io::Result<()>
    requires { length map.old ≡ 1489000 }
    ensures room { length map.new ≡ 1489000 }
    ensures written { OnOk result (Appends (W.contents to.old) (W.contents to.new) (fmap_text image.now ++ codes "=\n")) }
{
    let count = map_one(image, map);
    to.write_all(&map[..count])?;
    to.write_all(b"=\n")
}

/// Answers each image that a line `=` ends. Where the text behind the last such line begins.
fn answer_ended<W: Write>(text: &[u8], map: &mut Map, to: &mut W) -> io::Result<usize>
    requires { length map.old ≡ 1489000 }
    ensures rest { IfOk result (Rest text.now) }
    ensures room { length map.new ≡ 1489000 }
{
    let mut at = 0;
    while let Some(end) = cutting::next_mark(&text[at..]) {
        answer(&text[at..at + end], map, to)?;
        at += end + 2;
    }
    Ok(at)
}

// ---- the text that is read

/// What is left of the first `count` bytes behind the images that were answered, put at the text's front; how much it is. Too much for an
/// image is refused whatever comes; it is cut down to a line that is no frame, which is refused too, and the last two bytes, with which a
/// line `=` may begin.
fn keep_rest(text: &mut [u8], at: usize, count: usize) -> usize
    requires behind { at ≤ count }
    requires within { count ≤ length text.old }
    ensures kept { take result text.new ≡ kept at (take count text.old) }
    ensures whole { result ≡ length (kept at (take count text.old)) }
    ensures few { result ≤ text_room }
{
    let rest = count - at;
    if rest < IMAGE_ROOM {
        text.copy_within(at..count, 0);
        return rest;
    }
    let a = text[count - 2];
    let b = text[count - 1];
    text[0] = b'?';
    text[1] = a;
    text[2] = b;
    3
}

/// More of the input, put behind the first `count` bytes; how many there are then. No more than before is the input's end.
fn fill<R: Read>(from: &mut R, text: &mut [u8], count: usize) -> io::Result<usize>
    requires { count ≤ length text.old }
    ensures more { IfOk result (λ filled. (count ≤ filled) × (filled ≤ length text.new)) }
    ensures behind { take count text.new ≡ take count text.old }
{
    let more = from.read(&mut text[count..])?;
    Ok(count + more)
}

/// A newline behind a last byte `=` of the first `count`, so that this may be a line `=` too; how many bytes there are then.
fn end_line(text: &mut [u8], count: usize) -> usize
    requires { count < length text.old }
    ensures within { result ≤ length text.new }
    ensures ended { LineEnded (take count text.old) (take result text.new) }
{
    if count == 0 || text[count - 1] != b'=' {
        return count;
    }
    text[count] = b'\n';
    count + 1
}

// ---- all of it

/// The last `count` bytes of the input.
fn replay_last<W: Write>(text: &mut [u8], count: usize, map: &mut Map, to: &mut W) -> io::Result<()>
    requires within { count < length text.old }
    requires room { length map.old ≡ 1489000 }
{
    let count = end_line(text, count);
    let at = answer_ended(&text[..count], map, to)?;
    if at < count {
        answer(&text[at..count], map, to)?;
    }
    Ok(())
}

fn replay<R: Read, W: Write>(
    from: &mut R,
    text: &mut Text,
    map: &mut Map,
    to: &mut W,
) -> io::Result<()>
    requires text_room { length text.old ≡ 1114112 }
    requires map_room { length map.old ≡ 1489000 }
{
    let mut count = 0;
    // Nothing says that the input ends.
    for _ in 0..u64::MAX {
        let filled = fill(from, text, count)?;
        if filled == count {
            break;
        }
        let at = answer_ended(&text[..filled], map, to)?;
        count = keep_rest(text, at, filled);
    }
    replay_last(text, count, map, to)
}

// What can be read is replayed, and what can be written of the answers is written: nothing else is said of what fails.
fn main() {
    let mut text: Text = [0; 1114112];
    let mut map: Map = [0; 1489000];
    let _ = replay(&mut Input, &mut text, &mut map, &mut Output);
}
