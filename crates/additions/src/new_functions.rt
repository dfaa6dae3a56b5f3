// Functions that none knew, found behind the ends of those that are known.
ghost use Rattle.std.specs.Prelude.{◌≡◌, ◌+◌, ◌<◌, List, ℕ, IfOk, IfErr, length, drop};
ghost use Rattle.rules.specs.Choice.{ok, fault};
ghost use Rattle.rules.specs.Image.{Image};
ghost use Rattle.rules.specs.Ordered.{first};
ghost use Rattle.rules.specs.Known.{Entry, new_entry};
ghost use Rattle.rules.specs.Map as rules;
ghost use Rattle.faults.specs.Number.{number_of};
ghost use Rattle.obj_info.specs.Info.{image_of};
ghost use Rattle.walks.specs.Around.{Knows};
ghost use Rattle.analyzer.specs.Table.{Holds};
ghost use Rattle.analyzer.specs.Told.{Told, Turned};

use crate::code::section_end;
use crate::gaps::found_behind;
use analyzer::AnalyzerState;
use arrayvec::ArrayVec;
use faults::Fault;
use obj_info::ObjInfo;
use tables::Row;
use walks::{FUNCTIONS, KnownFunctions};

// The entry behind the function `i`, or the section's end.
fn next_entry(obj: &ObjInfo, functions: &[Row], i: usize) -> u64
    requires { i < length functions.now }
    ensures { (cap : rules.Capacity) (es : List Entry) →
        Knows functions.now es →
        result ≡ (first (new_entry (rules.section_end (image_of obj.now) cap)) (drop (i + 1) es)).entry }
{
    match functions.get(i + 1) {
        Some(next) => next.key,
        None => section_end(obj),
    }
}

// What is found behind each entry's end, up to the next entry.
fn new_functions(obj: &ObjInfo, known: &KnownFunctions) -> Result<ArrayVec<u64, FUNCTIONS>, Fault>
    ensures found { (cap : rules.Capacity) (es : List Entry) →
        Knows known.now es →
        IfOk result (λ keys. ok keys.items ≡ rules.new_functions (image_of obj.now) cap es) }
    ensures fault { (cap : rules.Capacity) (es : List Entry) →
        Knows known.now es →
        IfErr result (λ e. fault (number_of e) ≡ rules.new_functions (image_of obj.now) cap es) }
{
    let functions = known.as_slice();
    let mut keys = ArrayVec::new();
    for (i, function) in functions.iter().enumerate() {
        let after = next_entry(obj, functions, i);
        if let Some(key) = found_behind(obj, *function, after)? {
            keys.push(key);
        }
    }
    Ok(keys)
}

// Entries at these keys, one after the other.
fn add_entries(state: &mut AnalyzerState, keys: &[u64]) -> Result<(), Fault>
    ensures { (im : Image) (cap : rules.Capacity) (lists : List ℕ) (es : List Entry) →
        Holds cap state.old lists es →
        Told cap (rules.add_entries im cap keys.now es) state.new lists result }
{
    for key in keys {
        state.add_entry(*key)?;
    }
    Ok(())
}

/// An entry for each function found behind an end; none is added where an end lies above the next entry. Whether any was found.
/// (Not inlined: the keys, handed on by value, are not to lie below the walks.)
#[inline(never)]
pub fn detect_new_functions(state: &mut AnalyzerState, obj: &ObjInfo) -> Result<bool, Fault>
    ensures { (cap : rules.Capacity) (lists : List ℕ) (es : List Entry) →
        Holds cap state.old lists es →
        Turned cap (rules.detect_new_functions (image_of obj.now) cap es) state.new lists result }
{
    let keys = new_functions(obj, &state.known)?;
    add_entries(state, &keys)?;
    Ok(!keys.is_empty())
}
