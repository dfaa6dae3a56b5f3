// Words of the last section, and what code words do.
ghost use Rattle.std.specs.Prelude.{◌≡◌, true, ◌≤◌, length};
ghost use Rattle.reading.specs.declared.line.Frame.TheVariants.{CodeWord};
ghost use Rattle.reading.specs.View.{WordPut, ImagePut};

use crate::rows::add_row;
use crate::state::Reading;
use crate::words::{add_word, last_kind};

// The kinds of sections that words are of, as last_kind has them.
pub const CODE: u32 = 1;

pub const OTHER: u32 = 2;

// How many numbers the outcomes of 1,024 code words, less one, have.
const OUTCOMES: usize = 6138;

// A word of the last section, if this is of the kind that is asked for.
pub fn put_word(
    r: Reading,
    sections: &mut [u32; 36],
    bytes: &mut [u8; 393216],
    w: u32,
    kind: u32,
) -> Reading
    requires going { (r.ok ≡ true) × (1 ≤ kind) × (kind ≤ 2) }
    requires fit { (r.sections ≤ length sections.old) × (r.bytes ≤ length bytes.old) }
    ensures { WordPut kind w r result sections.old sections.new bytes.old bytes.new }
{
    if last_kind(sections, r.sections) == kind {
        let c = add_word(sections, r.sections, bytes, r.bytes, w);
        Reading {
            ok: c.ok,
            bytes: c.count,
            ..r
        }
    } else {
        Reading { ok: false, ..r }
    }
}

// A code word with its outcome. Code is at most 1,024 words.
pub fn put_code_word(
    r: Reading,
    sections: &mut [u32; 36],
    bytes: &mut [u8; 393216],
    outcomes: &mut [u32; 6144],
    w: u32,
    outcome: u32,
    mark: u32,
) -> Reading
    requires going { r.ok ≡ true }
    requires fit { (r.sections ≤ length sections.old) ×
        (r.bytes ≤ length bytes.old) ×
        (r.outcomes ≤ length outcomes.old) }
    ensures { ImagePut (CodeWord w outcome mark) r result sections.old sections.new bytes.old bytes.new
        outcomes.old outcomes.new }
{
    let q = put_word(r, sections, bytes, w, CODE);
    if !q.ok {
        return q;
    }
    if r.outcomes <= OUTCOMES {
        let c = add_row(outcomes, r.outcomes, OUTCOMES, &[outcome, mark, 0, 0, 0, 0]);
        Reading {
            ok: c.ok,
            outcomes: c.count,
            ..q
        }
    } else {
        Reading { ok: false, ..q }
    }
}
