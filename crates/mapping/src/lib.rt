// The whole of `fmap` on lent slices: a text of frames in, the text of its map out.
#![tactic(auto)]

ghost use Rattle.std.specs.Prelude.{◌≡◌, List, ◌+◌, ◌*◌, ◌/◌, ◌≤◌, length};
ghost use Rattle.rules.specs.Choice.{Answer};
ghost use Rattle.rules.specs.Known.{Entry};
ghost use Rattle.rules.specs.Run.{run};
ghost use Rattle.rules.specs.Lines as rules;
ghost use Rattle.obj_image.specs.Lent.{lent, given};
ghost use Rattle.reading.specs.View.{view, Fit};
ghost use Rattle.printing.specs.Told.{Begun};
ghost use Rattle.detection.specs.Maps.{room_of, reply_of};
ghost use Rattle.mapping.specs.Answers.{answer, map_text, image_room, map_room, fmap_text, Shows, Showing, Sized};

use detection::MapSize;
use faults::Fault;
use reading::state::Reading;

// The number of a text with a line that is no frame.
const NO_FRAME: u32 = 1;

// The texts that `fmap` takes are shorter than this.
const TEXT_ROOM: usize = 0x10_0000;

// The text of an answer: the map that the result lists hold, or the fault's number alone.
fn print_answer(found: Result<MapSize, Fault>, rows: &[u64], lists: &[u64], out: &mut [u8]) -> usize
    requires shown { Showing found rows.now lists.now }
    requires room { 6 + 46 * (reply_of found).entries + 11 * length lists.now ≤ length out.old }
    ensures { (a : Answer (List Entry)) →
        Shows a found rows.now lists.now →
        Begun (rules.text (rules.lines a)) out.old out.new result }
{
    match found {
        Ok(size) => printing::put_map(rows, lists, size.entries, out),
        Err(fault) => printing::put_refusal(fault.number(), out),
    }
}

// The lists of an image to the text of its map.
fn map_lists(
    sections: &[u32],
    bytes: &[u8],
    outcomes: &[u32],
    functions: &[u32],
    objects: &[u32],
    skips: &[u32],
    entry: &[u32],
    rows: &mut [u64; 10240],
    lists: &mut [u64; 131072],
    out: &mut [u8; 1489000],
) -> usize
    requires room { 6 + 46 * (length rows.old / 10) + 11 * length lists.old ≤ length out.old }
    ensures { Begun
        (rules.text
        (rules.lines
        (run
        (given
        (lent sections.now bytes.now outcomes.now functions.now
        objects.now skips.now entry.now))
        (room_of rows.old lists.old))))
        out.old out.new result }
{
    let found = detection::detect_functions(
        sections, bytes, outcomes, functions, objects, skips, entry, rows, lists,
    );
    print_answer(found, rows, lists, out)
}

// What was read of a text to the text of its map. The lists that stand for the image are the first numbers of each lent one.
fn map_read(
    q: Reading,
    sections: &[u32],
    bytes: &[u8],
    outcomes: &[u32],
    functions: &[u32],
    objects: &[u32],
    skips: &[u32],
    entry: &[u32],
    rows: &mut [u64; 10240],
    lists: &mut [u64; 131072],
    out: &mut [u8; 1489000],
) -> usize
    requires fit { Fit q sections.now bytes.now outcomes.now functions.now objects.now skips.now entry.now }
    requires room { 6 + 46 * (length rows.old / 10) + 11 * length lists.old ≤ length out.old }
    ensures { Begun
        (rules.text
        (rules.lines
        (answer
        (view q sections.now bytes.now outcomes.now functions.now
        objects.now skips.now entry.now)
        (room_of rows.old lists.old))))
        out.old out.new result }
{
    if q.ok {
        map_lists(
            &sections[..q.sections],
            &bytes[..q.bytes],
            &outcomes[..q.outcomes],
            &functions[..q.functions],
            &objects[..q.objects],
            &skips[..q.skips],
            &entry[..q.entry],
            rows,
            lists,
            out,
        )
    } else {
        printing::put_refusal(NO_FRAME, out)
    }
}

// A text of frames to the text of its map, which `out` then begins with; the answer is how long it is. The other arrays are room to work
// in, and what they hold before is of no account: rows and lists bound how large a map may be (4 where it passes them), the seven before
// them how long a list of the image.
fn map_text(
    text: &[u8],
    sections: &mut [u32; 36],
    bytes: &mut [u8; 393216],
    outcomes: &mut [u32; 6144],
    functions: &mut [u32; 3075],
    objects: &mut [u32; 3075],
    skips: &mut [u32; 130],
    entry: &mut [u32; 2],
    rows: &mut [u64; 10240],
    lists: &mut [u64; 131072],
    out: &mut [u8; 1489000],
) -> usize
    requires sized { Sized sections.old bytes.old outcomes.old functions.old objects.old skips.old entry.old
        rows.old lists.old out.old }
    ensures { Begun (map_text image_room map_room text.now) out.old out.new result }
{
    let q = reading::texts::read_image(
        text, sections, bytes, outcomes, functions, objects, skips, entry,
    );
    map_read(
        q, sections, bytes, outcomes, functions, objects, skips, entry, rows, lists, out,
    )
}

// The same with the room that `fmap` has for an image and its map.
fn map_image(text: &[u8], out: &mut [u8; 1489000]) -> usize
    requires room { length out.old ≡ 1489000 }
    ensures { Begun (map_text image_room map_room text.now) out.old out.new result }
{
    let mut sections: [u32; 36] = [0; 36];
    let mut bytes: [u8; 393216] = [0; 393216];
    let mut outcomes: [u32; 6144] = [0; 6144];
    let mut functions: [u32; 3075] = [0; 3075];
    let mut objects: [u32; 3075] = [0; 3075];
    let mut skips: [u32; 130] = [0; 130];
    let mut entry: [u32; 2] = [0; 2];
    let mut rows: [u64; 10240] = [0; 10240];
    let mut lists: [u64; 131072] = [0; 131072];
    map_text(
        text,
        &mut sections,
        &mut bytes,
        &mut outcomes,
        &mut functions,
        &mut objects,
        &mut skips,
        &mut entry,
        &mut rows,
        &mut lists,
        out,
    )
}

// What `fmap` prints of a text, which `out` then begins with; the answer is how long it is. A text that is too long for `fmap` is
// refused as one with a line that is no frame is.
pub fn fmap_text(text: &[u8], out: &mut [u8; 1489000]) -> usize
    requires { length out.old ≡ 1489000 }
    ensures { Begun (fmap_text text.now) out.old out.new result }
{
    if text.len() >= TEXT_ROOM {
        return printing::put_refusal(NO_FRAME, out);
    }
    map_image(text, out)
}
