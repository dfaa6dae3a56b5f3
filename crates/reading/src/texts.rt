// A text of frames, one to a line, read into the lent lists that stand for an image.
ghost use Rattle.std.specs.Prelude.{◌<◌, length};
ghost use Rattle.reading.specs.Texts.{Ends, TextRead};

use crate::line::read_frame;
use crate::put::put_frame;
use crate::state::Reading;

// Where the line that begins at a place ends: at the next newline, or with the text.
fn line_end(text: &[u8], from: usize) -> usize
    requires { from < length text.now }
    ensures { Ends text.now from result }
{
    for i in from..text.len() {
        if text[i] == b'\n' {
            return i;
        }
    }
    text.len()
}

// The lines of a text put into the lists one after the other, up to the first that is no frame or does not belong there.
pub fn read_image(
    text: &[u8],
    sections: &mut [u32; 36],
    bytes: &mut [u8; 393216],
    outcomes: &mut [u32; 6144],
    functions: &mut [u32; 3075],
    objects: &mut [u32; 3075],
    skips: &mut [u32; 130],
    entry: &mut [u32; 2],
) -> Reading
    ensures { TextRead text.now result sections.old sections.new bytes.old
        bytes.new outcomes.old outcomes.new functions.old
        functions.new objects.old objects.new skips.old skips.new
        entry.old entry.new }
{
    let mut r = Reading {
        ok: true,
        sections: 0,
        bytes: 0,
        outcomes: 0,
        functions: 0,
        objects: 0,
        skips: 0,
        entry: 0,
    };
    let mut at: usize = 0;
    while at < text.len() {
        let end = line_end(text, at);
        match read_frame(&text[at..end]) {
            Some(f) => {
                r = put_frame(
                    r, sections, bytes, outcomes, functions, objects, skips, entry, f,
                );
            }
            None => return Reading { ok: false, ..r },
        }
        if !r.ok {
            return r;
        }
        at = end + 1;
    }
    r
}
