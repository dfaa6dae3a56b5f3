// The walk of one function for itself: FunctionSlices::analyze on an empty value.
//
// Lent are the lists that stand for an image (docs/ARCHITECTURE.md has their table), the known functions (rows of an entry and its
// end, 0 for none; entries ascend), and a list for the result. Addresses have their section: (section + 1) * 2^32 + address. The
// result's list gets, column after column: the starts of the basic blocks and their ends (0 for an open one), the words that ways on
// are from and where they go, the references, the addresses and sizes of the jump tables, the possible blocks; and zeros past them.
#![tactic(auto)]

mod asked;

ghost use Rattle.std.specs.Prelude.{◌≡◌, List, [], length, replicate};
ghost use Rattle.rules.specs.Known.{Entry};
ghost use Rattle.rules.specs.Slices.{with_only};
ghost use Rattle.rules.specs.Analyze.{analyze};
ghost use Rattle.rules.specs.OneFunction as rules;
ghost use Rattle.obj_image.specs.Lent.{lent, given};
ghost use Rattle.slices.specs.View.{slices_of};
ghost use Rattle.walks.specs.Around.{Knows, around_of};
ghost use Rattle.one_function.specs.Results.{analyzed, kept_in, Finished, Told};
ghost use Rattle.one_function.specs.Rows.{are_known_list, known_blocks};

use crate::asked::{are_bounds, known_functions, nonzero};
use faults::Fault;
use numbers::{Header, put_numbers};
use obj_info::ObjInfo;
use slices::FunctionSlices;
use walks::{Around, Walk};

/// Whether there is a function, how many elements each of its lists has, and what is no list. A block's start counts once, a way on once
/// for each target.
#[derive(Clone, Copy, Debug, PartialEq, Eq)]
pub struct Function {
    pub found: bool,
    pub header: Header,
}

// Puts the lists of an analysis before the zeros of the lent one, if that is long enough.
fn store(slices: &FunctionSlices, found: bool, list: &mut [u64]) -> Result<Function, Fault>
    requires { list.old ≡ replicate (length list.old) 0 }
    ensures { Finished (rules.stored (length list.old) (analyzed found (slices_of slices.now))) (length list.old) list.new result }
{
    let header = Header::of(slices);
    let count = header.len();
    if list.len() < count {
        return Err(Fault::Limit);
    }
    put_numbers(slices, &mut list[..count]);
    Ok(Function { found, header })
}

// The analysis from the start on an empty value, stored. A fault leaves zeros.
fn walk(around: &Around, list: &mut [u64]) -> Result<Function, Fault>
    ensures { (es : List Entry) →
        Knows around.now.known.now es →
        Finished (kept_in (length list.old) (analyze (around_of around.now es) around.now.start (with_only [])))
        (length list.old) list.new result }
{
    list.fill(0);
    let mut walk = Walk::new();
    let found = passes::analyze(&mut walk, around, around.start)?;
    store(&walk.slices, found, list)
}

/// The walk from a start up to an end, 0 for none. Nothing is asked of what is lent: what breaks a rule is refused under 1 to 3, and
/// the list stays as it was.
pub fn walk_function(
    sections: &[u32],
    bytes: &[u8],
    outcomes: &[u32],
    functions: &[u32],
    objects: &[u32],
    skips: &[u32],
    entry: &[u32],
    known: &[u64],
    start: u64,
    end: u64,
    list: &mut [u64],
) -> Result<Function, Fault>
    ensures { Told
        (rules.walk_function
        (given (lent sections.now bytes.now outcomes.now functions.now objects.now skips.now entry.now))
        (are_known_list known.now) (known_blocks known.now) start end (length list.old))
        list.old list.new result }
{
    let obj = ObjInfo::new(sections, bytes, outcomes, functions, objects, skips, entry)?;
    let known = known_functions(known)?;
    if !are_bounds(&obj, start, end) {
        return Err(Fault::List);
    }
    let around = Around {
        obj,
        start,
        end: nonzero(end),
        known: &known,
    };
    walk(&around, list)
}
