// An entry is walked, and stored with its lists or set aside (cfa.rs).
ghost use Rattle.std.specs.Prelude.{◌≡◌, List, ℕ, unwrap_or};
ghost use Rattle.rules.specs.Known.{Entry, end_of_entry};
ghost use Rattle.rules.specs.Map as rules;
ghost use Rattle.obj_info.specs.Info.{image_of, some_nonzero};
ghost use Rattle.slices.specs.View.{slices_of};
ghost use Rattle.walks.specs.Around.{Knows, around_of};
ghost use Rattle.analyzer.specs.Table.{Holds};
ghost use Rattle.analyzer.specs.Told.{Told};

use analyzer::AnalyzerState;
use faults::Fault;
use obj_info::ObjInfo;
use slices::FunctionSlices;
use walks::{Around, Walk};

// With nothing left to settle, the function is finalized at once.
fn store_final(
    state: &mut AnalyzerState,
    lists: &mut [u64],
    slices: &mut FunctionSlices,
    obj: &ObjInfo,
    key: u64,
) -> Result<(), Fault>
    ensures { (cap : rules.Capacity) (es : List Entry) →
        Holds cap state.old lists.old es →
        Told cap (rules.store_final (image_of obj.now) cap key (slices_of slices.old) es) state.new lists.new result }
{
    finalizing::finalize(slices, obj, &state.known)?;
    let end = slices.last_end();
    state.store(lists, key, slices, end)
}

// What the function refers to becomes an entry first.
fn store_function(
    state: &mut AnalyzerState,
    lists: &mut [u64],
    slices: &mut FunctionSlices,
    obj: &ObjInfo,
    key: u64,
) -> Result<(), Fault>
    ensures { (cap : rules.Capacity) (es : List Entry) →
        Holds cap state.old lists.old es →
        Told cap (rules.store_function (image_of obj.now) cap key (slices_of slices.old) es) state.new lists.new result }
{
    additions::try_add_functions(state, obj, slices.function_references.as_slice())?;
    if slices.possible_blocks.is_empty() {
        return store_final(state, lists, slices, obj, key);
    }
    state.store(lists, key, slices, None)
}

// An end; 0 is none.
fn known_end(end: Option<u64>) -> Option<u64>
    ensures { result ≡ some_nonzero (unwrap_or end 0) }
{
    match end {
        Some(end) if end != 0 => Some(end),
        _ => None,
    }
}

/// AnalyzerState::process_function_at: an entry is walked; a function is stored, and where there is none the entry is set aside.
pub fn process_function_at(
    state: &mut AnalyzerState,
    lists: &mut [u64],
    walk: &mut Walk,
    obj: &ObjInfo,
    key: u64,
) -> Result<(), Fault>
    ensures { (cap : rules.Capacity) (es : List Entry) →
        Holds cap state.old lists.old es →
        Told cap (rules.process_function_at (image_of obj.now) cap key es) state.new lists.new result }
{
    walk.slices.clear();
    let around = Around {
        obj: *obj,
        start: key,
        end: known_end(state.end_of_entry(key)),
        known: &state.known,
    };
    let found = passes::analyze(walk, &around, key)?;
    if found {
        store_function(state, lists, &mut walk.slices, obj, key)
    } else {
        state.set_aside(key)
    }
}
