// AnalyzerState::detect_functions: the whole map of an image.
//
// Lent are the lists that stand for an image (docs/ARCHITECTURE.md has their table) and two lists for the result. `rows` gets ten numbers
// for each entry, in order of address: the entry, its end (0 where there is no function), flags (1 analyzed, 2 has lists, 4 conditional
// `blr`, 8 `rfi`, 16 load of r1, 32 finalized), prologue, epilogue (0 for none), and how many basic blocks, ways on, references, jump
// tables and possible blocks it has. `lists` gets the numbers of the functions' lists, one function's directly behind the other's: the
// starts of its basic blocks and their ends (0 for an open one), the words that ways on are from and where they go, the references, the
// addresses and sizes of its jump tables. Past both there are zeros. Addresses have their section: (section + 1) * 2^32 + address.
#![tactic(auto)]

ghost use Rattle.std.specs.Prelude.{◌≡◌, length, replicate};
ghost use Rattle.rules.specs.Map as rules;
ghost use Rattle.rules.specs.Run.{run};
ghost use Rattle.obj_image.specs.Lent.{lent, given, image};
ghost use Rattle.obj_info.specs.Info.{image_of};
ghost use Rattle.detection.specs.Maps.{room_of, reply_of, Left, Told, Counted};

use analyzer::AnalyzerState;
use arrayvec::ArrayVec;
use faults::Fault;
use obj_info::ObjInfo;
use result_lists::{ROW, put_results};
use walks::{KnownFunctions, Walk};

/// How many entries a map has, and how many numbers their lists have.
#[derive(Clone, Copy, Debug, PartialEq, Eq)]
pub struct MapSize {
    pub entries: usize,
    pub numbers: usize,
}

// Nothing but zeros.
fn clear(list: &mut [u64])
    ensures { list.new ≡ replicate (length list.old) 0 }
{
    let len = list.len();
    runs::fill(list, 0, 0, len);
}

// The map of an image that passed the checks; where there is none, zeros.
fn detect(obj: &ObjInfo, rows: &mut [u64], lists: &mut [u64]) -> Result<MapSize, Fault>
    ensures { Left (rules.detect (image_of obj.now) (room_of rows.old lists.old))
        rows.old lists.old rows.new lists.new result }
{
    let room = rows.len() / ROW;
    // written out, since of a state that a function answers the compiler makes another one on this stack
    let mut state = AnalyzerState {
        known: KnownFunctions::new(),
        infos: ArrayVec::new(),
        room,
    };
    let mut walk = Walk::new();
    match rounds::detect(&mut state, lists, &mut walk, obj, room) {
        Ok(()) => {
            let numbers = put_results(&state, rows, lists);
            Ok(MapSize {
                entries: state.known.len(),
                numbers,
            })
        }
        Err(fault) => {
            clear(rows);
            clear(lists);
            Err(fault)
        }
    }
}

/// The map of an image, or the number of the rule that it breaks (1 to 3, and the lists stay as they were) or of the fault that the walk
/// met (4 to 17, and the lists are zero). Nothing is asked of what is lent.
pub fn detect_functions(
    sections: &[u32],
    bytes: &[u8],
    outcomes: &[u32],
    functions: &[u32],
    objects: &[u32],
    skips: &[u32],
    entry: &[u32],
    rows: &mut [u64],
    lists: &mut [u64],
) -> Result<MapSize, Fault>
    ensures told { Told
        (run
        (given
        (lent sections.now bytes.now outcomes.now functions.now
        objects.now skips.now entry.now))
        (room_of rows.old lists.old))
        rows.old lists.old rows.new lists.new (reply_of result) }
    ensures counted { Counted
        (image
        (lent sections.now bytes.now outcomes.now functions.now
        objects.now skips.now entry.now))
        rows.new lists.new (reply_of result) }
{
    let obj = ObjInfo::new(sections, bytes, outcomes, functions, objects, skips, entry)?;
    detect(&obj, rows, lists)
}
