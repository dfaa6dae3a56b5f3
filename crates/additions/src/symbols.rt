// What is known of functions beforehand: each function symbol is an entry, and so is the code section's first word.
ghost use Rattle.std.specs.Prelude.{List, ℕ, [], map};
ghost use Rattle.rules.specs.Given as given;
ghost use Rattle.rules.specs.Known.{Entry};
ghost use Rattle.rules.specs.Map as rules;
ghost use Rattle.obj_rows.specs.Symbols.{symbol_of};
ghost use Rattle.obj_info.specs.Info.{image_of, symbol_in};
ghost use Rattle.analyzer.specs.Table.{Holds};
ghost use Rattle.analyzer.specs.Told.{Told};

use crate::code::code_key;
use analyzer::AnalyzerState;
use faults::Fault;
use obj_info::ObjInfo;
use obj_rows::symbols::Symbol;

// A function symbol is an entry, with its end if the size is known.
fn add_symbol(state: &mut AnalyzerState, obj: &ObjInfo, symbol: Symbol) -> Result<(), Fault>
    ensures { (cap : rules.Capacity) (lists : List ℕ) (es : List Entry) →
        Holds cap state.old lists es →
        Told cap (rules.add_symbol (image_of obj.now) cap (given.symbol_of (symbol_of symbol)) es) state.new lists result }
{
    let key = code_key(obj, symbol.address);
    let end = (symbol.known == 1).then_some(key + u64::from(symbol.size));
    state.set_end(key, end)
}

// Each of them.
fn add_symbols(state: &mut AnalyzerState, obj: &ObjInfo, symbols: &[[u32; 3]]) -> Result<(), Fault>
    ensures { (cap : rules.Capacity) (lists : List ℕ) (es : List Entry) →
        Holds cap state.old lists es →
        Told cap (rules.add_symbols (image_of obj.now) cap (map symbol_in symbols.now) es) state.new lists result }
{
    for symbol in symbols {
        add_symbol(state, obj, Symbol::from(symbol))?;
    }
    Ok(())
}

/// Function symbols, with their ends where the sizes are known, and the code section's first word.
pub fn first_entries(state: &mut AnalyzerState, obj: &ObjInfo) -> Result<(), Fault>
    ensures { (cap : rules.Capacity) (lists : List ℕ) →
        Holds cap state.old lists [] →
        Told cap (rules.first_entries (image_of obj.now) cap) state.new lists result }
{
    add_symbols(state, obj, obj.functions())?;
    state.add_entry(code_key(obj, obj.code().base))
}
