//! A text of several images cut at its lines `=`.
ghost use Rattle.std.specs.Prelude.{◌<◌, length};
ghost use Rattle.replay.specs.Marks.{IsMark, NextMark};

/// Whether a line `=` begins at a place.
fn is_mark(text: &[u8], i: usize) -> bool
    requires { i < length text.now }
    ensures { IsMark result text.now i }
{
    text[i] == b'=' && text.get(i + 1) == Some(&b'\n') && (i == 0 || text[i - 1] == b'\n')
}

/// Where the next line `=` begins.
pub fn next_mark(text: &[u8]) -> Option<usize>
    ensures { NextMark text.now result }
{
    for i in 0..text.len() {
        if is_mark(text, i) {
            return Some(i);
        }
    }
    None
}
