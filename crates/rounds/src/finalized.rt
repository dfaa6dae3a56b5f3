// AnalyzerState::finalize_functions (cfa.rs): each function that has no end yet is finalized, if all its possible blocks can be settled.
ghost use Rattle.std.specs.Prelude.{◌≡◌, Bool, List, ℕ, map};
ghost use Rattle.rules.specs.Choice.{filter};
ghost use Rattle.rules.specs.Known.{Entry, entry_of, is_unfinalized};
ghost use Rattle.rules.specs.Map as rules;
ghost use Rattle.faults.specs.Outcome.{outcome};
ghost use Rattle.obj_info.specs.Info.{image_of};
ghost use Rattle.slices.specs.View.{slices_of};
ghost use Rattle.walks.specs.Around.{Knows};
ghost use Rattle.analyzer.specs.Table.{Holds, slices_at};
ghost use Rattle.analyzer.specs.Told.{Turned};
ghost use Rattle.rounds.specs.Settled.{settled_lists, since};

use analyzer::AnalyzerState;
use arrayvec::ArrayVec;
use faults::Fault;
use obj_info::{ObjInfo, section_of};
use slices::FunctionSlices;
use walks::{Around, FUNCTIONS, KnownFunctions, Walk};

// A settled function is finalized, and stored behind what it refers to.
fn keep_settled(
    state: &mut AnalyzerState,
    lists: &mut [u64],
    slices: &mut FunctionSlices,
    obj: &ObjInfo,
    key: u64,
) -> Result<bool, Fault>
    ensures { (cap : rules.Capacity) (es : List Entry) (before : Bool) →
        Holds cap state.old lists.old es →
        Turned cap (rules.keep_settled (image_of obj.now) cap key (slices_of slices.old) (rules.round before es))
        state.new lists.new (since before result) }
{
    finalizing::finalize(slices, obj, &state.known)?;
    additions::try_add_functions(state, obj, slices.function_references.as_slice())?;
    let end = slices.last_end();
    state.store(lists, key, slices, end)?;
    Ok(true)
}

// The possible blocks of the function at `key` are settled, from the lowest address of its section on. (Not inlined: the trial walk's
// tables are not to lie on the stack while the keys of a round are put together.)
#[inline(never)]
fn settle(
    walk: &mut Walk,
    obj: &ObjInfo,
    known: &KnownFunctions,
    last: bool,
    key: u64,
) -> Result<(), Fault>
    ensures { (cap : rules.Capacity) (es : List Entry) →
        Knows known.now es →
        outcome (slices_of walk.new.slices) result ≡ settled_lists (image_of obj.now) cap last key es (slices_of walk.old.slices) }
{
    let around = Around {
        obj: *obj,
        start: walk.slices.first_start().unwrap_or(0),
        end: walk.slices.last_end(),
        known,
    };
    settling::settle_all(walk, &around, section_of(key) * 0x1_0000_0000, last)?;
    Ok(())
}

// The entry at `key`, if it has lists: its possible blocks are settled, and where none is left it is finalized and stored. Whether it is.
fn finalize_entry(
    state: &mut AnalyzerState,
    lists: &mut [u64],
    walk: &mut Walk,
    obj: &ObjInfo,
    last: bool,
    key: u64,
) -> Result<bool, Fault>
    ensures { (cap : rules.Capacity) (es : List Entry) (before : Bool) →
        Holds cap state.old lists.old es →
        Turned cap (rules.finalize_entry (image_of obj.now) cap last key (slices_at key es) (rules.round before es))
        state.new lists.new (since before result) }
{
    if !state.load(lists, key, &mut walk.slices) {
        return Ok(false);
    }
    settle(walk, obj, &state.known, last, key)?;
    if walk.slices.possible_blocks.is_empty() {
        return keep_settled(state, lists, &mut walk.slices, obj, key);
    }
    Ok(false)
}

// The entries with lists and no end, put where they are looked at: of a table that is answered the caller keeps two.
#[inline(never)]
fn put_unfinalized(state: &AnalyzerState, keys: &mut ArrayVec<u64, FUNCTIONS>)
    ensures { (cap : rules.Capacity) (lists : List ℕ) (es : List Entry) →
        Holds cap state.now lists es →
        keys.new.items ≡ map entry_of (filter is_unfinalized es) }
{
    *keys = state.unfinalized();
}

/// AnalyzerState::finalize_functions: entries with lists and no end are finalized, those that can be. In the last rounds possible blocks
/// are taken for the function's own where nothing speaks against it. Whether any was finalized.
pub fn finalize_functions(
    state: &mut AnalyzerState,
    lists: &mut [u64],
    walk: &mut Walk,
    obj: &ObjInfo,
    last: bool,
) -> Result<bool, Fault>
    ensures { (cap : rules.Capacity) (es : List Entry) →
        Holds cap state.old lists.old es →
        Turned cap (rules.finalize_functions (image_of obj.now) cap last es) state.new lists.new result }
{
    let mut keys = ArrayVec::new();
    put_unfinalized(state, &mut keys);
    let mut changed = false;
    // Finalizing one adds others, so each is looked up anew.
    for &key in keys.as_slice() {
        changed |= finalize_entry(state, lists, walk, obj, last, key)?;
    }
    Ok(changed)
}
