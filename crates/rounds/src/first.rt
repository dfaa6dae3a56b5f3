// What is known of functions beforehand is walked once (cfa.rs, the beginning of AnalyzerState::detect_functions).
ghost use Rattle.std.specs.Prelude.{◌≡◌, List, [], map};
ghost use Rattle.rules.specs.Known.{Entry};
ghost use Rattle.rules.specs.Map as rules;
ghost use Rattle.obj_info.specs.Info.{image_of};
ghost use Rattle.tables.specs.Rows.{key_of};
ghost use Rattle.analyzer.specs.Table.{Holds};
ghost use Rattle.analyzer.specs.Told.{Told};

use crate::process::process_function_at;
use analyzer::AnalyzerState;
use arrayvec::ArrayVec;
use faults::Fault;
use obj_info::ObjInfo;
use walks::{FUNCTIONS, KnownFunctions, Walk};

// The entries that there are now.
fn keys_of(known: &KnownFunctions) -> ArrayVec<u64, FUNCTIONS>
    ensures { result.items ≡ map key_of known.now }
{
    let mut keys = ArrayVec::new();
    for entry in known.as_slice() {
        keys.push(entry.key);
    }
    keys
}

// The entries at these keys are walked, one after the other.
fn process_each(
    state: &mut AnalyzerState,
    lists: &mut [u64],
    walk: &mut Walk,
    obj: &ObjInfo,
    keys: &[u64],
) -> Result<(), Fault>
    ensures { (cap : rules.Capacity) (es : List Entry) →
        Holds cap state.old lists.old es →
        Told cap (rules.process_each (image_of obj.now) cap keys.now es) state.new lists.new result }
{
    for &key in keys {
        process_function_at(state, lists, walk, obj, key)?;
    }
    Ok(())
}

// The entry point is walked, if there is one.
fn process_entry_point(
    state: &mut AnalyzerState,
    lists: &mut [u64],
    walk: &mut Walk,
    obj: &ObjInfo,
) -> Result<(), Fault>
    ensures { (cap : rules.Capacity) (es : List Entry) →
        Holds cap state.old lists.old es →
        Told cap (rules.process_entry_point (image_of obj.now) cap es) state.new lists.new result }
{
    match obj.entry() {
        Some(key) => process_function_at(state, lists, walk, obj, key),
        None => Ok(()),
    }
}

/// What is known beforehand becomes entries, which are walked once, and then the entry point; entries that are added meanwhile are not.
/// (Not inlined: the keys are not to lie below the walks of all later rounds.)
#[inline(never)]
pub fn walk_given(
    state: &mut AnalyzerState,
    lists: &mut [u64],
    walk: &mut Walk,
    obj: &ObjInfo,
) -> Result<(), Fault>
    ensures { (cap : rules.Capacity) →
        Holds cap state.old lists.old [] →
        Told cap (rules.walk_given (image_of obj.now) cap) state.new lists.new result }
{
    additions::first_entries(state, obj)?;
    let keys = keys_of(&state.known);
    process_each(state, lists, walk, obj, keys.as_slice())?;
    process_entry_point(state, lists, walk, obj)
}
