// One frame put into the lent lists.
ghost use Rattle.reading.specs.Kinds.{Ranged};
ghost use Rattle.reading.specs.View.{Fit, FramePut};

use crate::image::{OTHER, put_code_word, put_word};
use crate::line::Frame;
use crate::outcomes::{add_branch, set_table, set_target};
use crate::rows::add_row;
use crate::state::Reading;

// The most numbers that a list has by its rule; add_row takes a row more, which breaks it. There are eight sections, 1,024 symbols of
// either kind, 64 skip ranges and one entry point.
const SECTIONS: usize = 32;

const SYMBOLS: usize = 3072;

const SKIPS: usize = 128;

const ENTRIES: usize = 1;

// A frame put into the lists. Where it does not belong there, nothing is said of them any more.
pub fn put_frame(
    r: Reading,
    sections: &mut [u32; 36],
    bytes: &mut [u8; 393216],
    outcomes: &mut [u32; 6144],
    functions: &mut [u32; 3075],
    objects: &mut [u32; 3075],
    skips: &mut [u32; 130],
    entry: &mut [u32; 2],
    f: Frame,
) -> Reading
    requires ranged { Ranged f }
    requires fit { Fit r sections.old bytes.old outcomes.old functions.old objects.old skips.old entry.old }
    ensures { FramePut f r result sections.old sections.new bytes.old bytes.new
        outcomes.old outcomes.new functions.old functions.new
        objects.old objects.new skips.old skips.new entry.old
        entry.new }
{
    if !r.ok {
        return r;
    }
    match f {
        Frame::Section(kind, base, size) => {
            let c = add_row(sections, r.sections, SECTIONS, &[kind, base, size, 0]);
            Reading {
                ok: c.ok,
                sections: c.count,
                ..r
            }
        }
        Frame::Word(w) => put_word(r, sections, bytes, w, OTHER),
        Frame::CodeWord(w, outcome, mark) => {
            put_code_word(r, sections, bytes, outcomes, w, outcome, mark)
        }
        Frame::Target(a) => Reading {
            ok: set_target(outcomes, r.outcomes, a),
            ..r
        },
        Frame::Table(a, size) => Reading {
            ok: set_table(outcomes, r.outcomes, a, size),
            ..r
        },
        Frame::Branch(link, to, a) => Reading {
            ok: add_branch(outcomes, r.outcomes, link, to, a),
            ..r
        },
        Frame::Function(a, size, known) => {
            let c = add_row(functions, r.functions, SYMBOLS, &[a, size, known]);
            Reading {
                ok: c.ok,
                functions: c.count,
                ..r
            }
        }
        Frame::Object(a, size, known) => {
            let c = add_row(objects, r.objects, SYMBOLS, &[a, size, known]);
            Reading {
                ok: c.ok,
                objects: c.count,
                ..r
            }
        }
        Frame::Skip(first, past) => {
            let c = add_row(skips, r.skips, SKIPS, &[first, past]);
            Reading {
                ok: c.ok,
                skips: c.count,
                ..r
            }
        }
        Frame::Entry(a) => {
            let c = add_row(entry, r.entry, ENTRIES, &[a]);
            Reading {
                ok: c.ok,
                entry: c.count,
                ..r
            }
        }
    }
}
