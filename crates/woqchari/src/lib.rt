// The library: an image in, its map out. crates/woqchari_c has the same functions for programs in C and Rust (include/woqchari.h).
#![tactic(auto)]

pub mod one_list;

ghost use Rattle.std.specs.Prelude.{◌≡◌};
ghost use Rattle.rules.specs.Run.{run};
ghost use Rattle.obj_image.specs.Lent.{lent, given, image};
ghost use Rattle.detection.specs.Maps.{room_of, reply, reply_of, Told, Counted};

use detection::MapSize;
use faults::Fault;

// An answer as C takes it: the number is the result, and how many entries and numbers there are is written through.
fn tell(found: Result<MapSize, Fault>, entries: &mut usize, numbers: &mut usize) -> u32
    ensures { reply result entries.new numbers.new ≡ reply_of found }
{
    match found {
        Ok(size) => {
            *entries = size.entries;
            *numbers = size.numbers;
            0
        }
        Err(fault) => {
            *entries = 0;
            *numbers = 0;
            fault.number()
        }
    }
}

// detection::detect_functions.
pub fn woqchari_detect_functions(
    sections: &[u32],
    bytes: &[u8],
    outcomes: &[u32],
    functions: &[u32],
    objects: &[u32],
    skips: &[u32],
    entry: &[u32],
    rows: &mut [u64],
    lists: &mut [u64],
    entries: &mut usize,
    numbers: &mut usize,
) -> u32
    ensures told { Told
        (run
        (given
        (lent sections.now bytes.now outcomes.now functions.now
        objects.now skips.now entry.now))
        (room_of rows.old lists.old))
        rows.old lists.old rows.new lists.new
        (reply result entries.new numbers.new) }
    ensures counted { Counted
        (image
        (lent sections.now bytes.now outcomes.now functions.now
        objects.now skips.now entry.now))
        rows.new lists.new
        (reply result entries.new numbers.new) }
{
    let found = detection::detect_functions(
        sections, bytes, outcomes, functions, objects, skips, entry, rows, lists,
    );
    tell(found, entries, numbers)
}
