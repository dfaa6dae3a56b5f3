// The library for C and Rust: what a program in another language links and calls (include/woqchari.h). Each function calls that of
// woqchari and says the same.
#![tactic(auto)]

pub mod one_list;

ghost use Rattle.rules.specs.Run.{run};
ghost use Rattle.obj_image.specs.Lent.{lent, given, image};
ghost use Rattle.detection.specs.Maps.{room_of, reply, Told, Counted};

// detection::detect_functions: the number is the result, and how many entries and numbers there are is written through.
#[unsafe(no_mangle)]
pub extern "C" fn woqchari_detect_functions(
    sections: &[u32],
    bytes: &[u8],
    outcomes: &[u32],
    functions: &[u32],
    objects: &[u32],
    skips: &[u32],
    entry: &[u32],
    rows: &mut [u64],
    lists: &mut [u64],
    entries: &mut usize,
    numbers: &mut usize,
) -> u32
    ensures told { Told
        (run
        (given
        (lent sections.now bytes.now outcomes.now functions.now
        objects.now skips.now entry.now))
        (room_of rows.old lists.old))
        rows.old lists.old rows.new lists.new
        (reply result entries.new numbers.new) }
    ensures counted { Counted
        (image
        (lent sections.now bytes.now outcomes.now functions.now
        objects.now skips.now entry.now))
        rows.new lists.new
        (reply result entries.new numbers.new) }
{
    woqchari::woqchari_detect_functions(
        sections, bytes, outcomes, functions, objects, skips, entry, rows, lists, entries, numbers,
    )
}
