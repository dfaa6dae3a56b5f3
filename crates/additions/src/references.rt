// What a function refers to becomes an entry, unless it lies in a skip range.
ghost use Rattle.std.specs.Prelude.{◌≡◌, List, ℕ};
ghost use Rattle.rules.specs.Known.{Entry};
ghost use Rattle.rules.specs.Map as rules;
ghost use Rattle.obj_info.specs.Info.{image_of};
ghost use Rattle.analyzer.specs.Table.{Holds};
ghost use Rattle.analyzer.specs.Told.{Told};

use analyzer::AnalyzerState;
use faults::Fault;
use obj_info::{ObjInfo, address_of, section_of};

// An entry in code, not skipped.
fn try_add_function(state: &mut AnalyzerState, obj: &ObjInfo, key: u64) -> Result<(), Fault>
    ensures { (cap : rules.Capacity) (lists : List ℕ) (es : List Entry) →
        Holds cap state.old lists es →
        Told cap (rules.try_add_function (image_of obj.now) cap key es) state.new lists result }
{
    if section_of(key) == obj.code().number && !obj.in_skipped_range(address_of(key)) {
        state.add_entry(key)
    } else {
        Ok(())
    }
}

/// AnalyzerState::try_add_function, of each of them.
pub fn try_add_functions(
    state: &mut AnalyzerState,
    obj: &ObjInfo,
    keys: &[u64],
) -> Result<(), Fault>
    ensures { (cap : rules.Capacity) (lists : List ℕ) (es : List Entry) →
        Holds cap state.old lists es →
        Told cap (rules.try_add_functions (image_of obj.now) cap keys.now es) state.new lists result }
{
    for key in keys {
        try_add_function(state, obj, *key)?;
    }
    Ok(())
}
