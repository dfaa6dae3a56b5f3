// The rounds of a run (cfa.rs): entries are walked, finalized and found, until nothing changes.
#![tactic(auto)]

mod finalized;
mod first;
mod process;

ghost use Rattle.std.specs.Prelude.{◌≡◌, List, ℕ, true, false, length};
ghost use Rattle.rules.specs.Image.{Image};
ghost use Rattle.rules.specs.Known.{Entry};
ghost use Rattle.rules.specs.Map as rules;
ghost use Rattle.rules.proofs.Placed.{Table};
ghost use Rattle.faults.specs.Outcome.{outcome};
ghost use Rattle.obj_info.specs.Info.{image_of};
ghost use Rattle.analyzer.specs.Table.{Holds};
ghost use Rattle.analyzer.specs.Told.{Told, Turned};
ghost use Rattle.rounds.specs.Ready.{Ready};

use analyzer::AnalyzerState;
use faults::Fault;
pub use finalized::finalize_functions;
use obj_info::ObjInfo;
pub use process::process_function_at;
use walks::Walk;

// Nothing is left to be walked: what can be is finalized, or else new ones are searched for. Whether anything changed.
fn finalize_or_detect(
    state: &mut AnalyzerState,
    lists: &mut [u64],
    walk: &mut Walk,
    obj: &ObjInfo,
) -> Result<bool, Fault>
    ensures { (cap : rules.Capacity) (es : List Entry) →
        Holds cap state.old lists.old es →
        Turned cap (rules.finalize_or_detect (image_of obj.now) cap es) state.new lists.new result }
{
    let finalized = finalize_functions(state, lists, walk, obj, false)?;
    if finalized {
        return Ok(true);
    }
    additions::detect_new_functions(state, obj)
}

// One round: the first entry that is not analyzed is walked, if there is one. Whether anything changed.
fn process_step(
    state: &mut AnalyzerState,
    lists: &mut [u64],
    walk: &mut Walk,
    obj: &ObjInfo,
) -> Result<bool, Fault>
    ensures { (cap : rules.Capacity) (es : List Entry) →
        Holds cap state.old lists.old es →
        Turned cap (rules.process_step (image_of obj.now) cap (rules.round true es)) state.new lists.new result }
{
    match state.first_unbounded_function() {
        Some(key) => {
            process_function_at(state, lists, walk, obj, key)?;
            Ok(true)
        }
        None => finalize_or_detect(state, lists, walk, obj),
    }
}

/// AnalyzerState::process_functions: rounds until one changes nothing.
pub fn process_functions(
    state: &mut AnalyzerState,
    lists: &mut [u64],
    walk: &mut Walk,
    obj: &ObjInfo,
) -> Result<(), Fault>
    requires ready { Ready (image_of obj.now) state.old lists.old }
    ensures { (cap : rules.Capacity) (es : List Entry) →
        Holds cap state.old lists.old es →
        Table (image_of obj.now) false true es →
        Told cap (rules.process_functions (image_of obj.now) cap es) state.new lists.new result }
{
    let mut changed = true;
    while changed {
        changed = process_step(state, lists, walk, obj)?;
    }
    Ok(())
}

// A round in which possible blocks are taken for the function's own. Whether any function was finalized.
fn last_step(
    state: &mut AnalyzerState,
    lists: &mut [u64],
    walk: &mut Walk,
    obj: &ObjInfo,
) -> Result<bool, Fault>
    requires ready { Ready (image_of obj.now) state.old lists.old }
    ensures { (cap : rules.Capacity) (es : List Entry) →
        Holds cap state.old lists.old es →
        Table (image_of obj.now) false true es →
        Turned cap (rules.last_step (image_of obj.now) cap (rules.round true es)) state.new lists.new result }
{
    let finalized = finalize_functions(state, lists, walk, obj, true)?;
    if !finalized {
        return Ok(false);
    }
    process_functions(state, lists, walk, obj)?;
    Ok(true)
}

/// The last rounds, in which possible blocks are taken for the function's own.
pub fn last_rounds(
    state: &mut AnalyzerState,
    lists: &mut [u64],
    walk: &mut Walk,
    obj: &ObjInfo,
) -> Result<(), Fault>
    requires ready { Ready (image_of obj.now) state.old lists.old }
    ensures { (cap : rules.Capacity) (es : List Entry) →
        Holds cap state.old lists.old es →
        Table (image_of obj.now) false true es →
        Told cap (rules.last_rounds (image_of obj.now) cap es) state.new lists.new result }
{
    let mut changed = true;
    while changed {
        changed = last_step(state, lists, walk, obj)?;
    }
    Ok(())
}

// No function is left that could not be finalized.
fn all_finalized(state: &AnalyzerState) -> Result<(), Fault>
    ensures { (im : Image) (cap : rules.Capacity) (lists : List ℕ) (es : List Entry) →
        Holds cap state.now lists es →
        outcome es result ≡ rules.all_finalized im cap es }
{
    if state.any_unfinalized() {
        return Err(Fault::NotFinalized);
    }
    Ok(())
}

/// AnalyzerState::detect_functions, of a state that has no entry at its start: there is room for so many entries.
pub fn detect(
    state: &mut AnalyzerState,
    lists: &mut [u64],
    walk: &mut Walk,
    obj: &ObjInfo,
    room: usize,
) -> Result<(), Fault>
    ensures { Told (record { entries = room; numbers = length lists.old })
        (rules.detect (image_of obj.now) (record { entries = room; numbers = length lists.old })) state.new lists.new result }
{
    state.clear(room);
    first::walk_given(state, lists, walk, obj)?;
    process_functions(state, lists, walk, obj)?;
    last_rounds(state, lists, walk, obj)?;
    all_finalized(state)
}
