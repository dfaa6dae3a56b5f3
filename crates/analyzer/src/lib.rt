// What is known of the functions of an image (AnalyzerState and FunctionInfo of cfa.rs). The numbers of their lists lie in a lent list, one
// function's directly behind the other's.
#![tactic(auto)]

mod changes;
mod store;

ghost use Rattle.std.specs.Prelude.{◌≡◌, ◌&&◌, List, ℕ, [], eqb, is_some, map, length};
ghost use Rattle.rules.specs.Choice.{any, filter};
ghost use Rattle.rules.specs.Known as rules;
ghost use Rattle.rules.specs.Known.{Entry, entry_of};
ghost use Rattle.rules.specs.Map as maps;
ghost use Rattle.obj_info.specs.Info.{some_nonzero};
ghost use Rattle.analyzer.specs.Table.{Holds};

use arrayvec::ArrayVec;
use numbers::{Header, nonzero};
use tables::Row;
use walks::{FUNCTIONS, KnownFunctions};

/// What is known of a function beside its entry and its end.
#[derive(Clone, Copy, Debug, Default, PartialEq, Eq)]
pub struct FunctionInfo {
    /// Of its lists, where there are some.
    pub slices: Option<Header>,
    pub analyzed: bool,
    /// Zeros, which fill the row up: of rows with a gap the compiler makes an empty table elsewhere on the stack, and copies it.
    pub fill_1: u8,
    pub fill_2: u16,
    pub fill_4: u32,
}

/// The entries. Their ends stand apart from the rest, since a walk looks them up at each word.
#[derive(Drop)]
pub struct AnalyzerState {
    /// Entries and ends, 0 for none.
    pub known: KnownFunctions,
    /// What else is known of each, in the same order.
    pub infos: ArrayVec<FunctionInfo, FUNCTIONS>,
    /// How many entries there is room for.
    pub room: usize,
}

// Whether an entry is analyzed, with lists and no end.
fn is_unfinalized(row: &Row, info: &FunctionInfo) -> bool
    ensures { result ≡ (info.now.analyzed && eqb row.now.value 0 && is_some info.now.slices) }
{
    info.analyzed && row.value == 0 && info.slices.is_some()
}

impl AnalyzerState {
    /// No entry.
    pub fn new(room: usize) -> Self
        ensures { (lists : List ℕ) → Holds (record { entries = room; numbers = length lists }) result lists [] }
    {
        AnalyzerState {
            known: KnownFunctions::new(),
            infos: ArrayVec::new(),
            room,
        }
    }

    /// No entry again, with room for so many.
    pub fn clear(&mut self, room: usize)
        ensures { (lists : List ℕ) → Holds (record { entries = room; numbers = length lists }) self.new lists [] }
    {
        self.known.clear();
        self.infos.clear();
        self.room = room;
    }

    /// The first entry that is not analyzed.
    pub fn first_unbounded_function(&self) -> Option<u64>
        ensures { (cap : maps.Capacity) (lists : List ℕ) (es : List Entry) →
            Holds cap self.now lists es →
            result ≡ some_nonzero (maps.first_unbounded_function es) }
    {
        for (row, info) in self.known.as_slice().iter().zip(self.infos.as_slice()) {
            if !info.analyzed {
                return nonzero(Some(row.key));
            }
        }
        None
    }

    /// The entries that are analyzed, with lists and no end. (Not inlined: the table as it is filled is not to lie below the walks, too.)
    #[inline(never)]
    pub fn unfinalized(&self) -> ArrayVec<u64, FUNCTIONS>
        ensures { (cap : maps.Capacity) (lists : List ℕ) (es : List Entry) →
            Holds cap self.now lists es →
            result.items ≡ map entry_of (filter rules.is_unfinalized es) }
    {
        let mut entries = ArrayVec::new();
        for (row, info) in self.known.as_slice().iter().zip(self.infos.as_slice()) {
            if is_unfinalized(row, info) {
                entries.push(row.key);
            }
        }
        entries
    }

    /// Whether one is.
    pub fn any_unfinalized(&self) -> bool
        ensures { (cap : maps.Capacity) (lists : List ℕ) (es : List Entry) →
            Holds cap self.now lists es →
            result ≡ any rules.is_unfinalized es }
    {
        for (entry, info) in self.known.as_slice().iter().zip(self.infos.as_slice()) {
            if is_unfinalized(entry, info) {
                return true;
            }
        }
        false
    }

    /// The end of the entry at `key`.
    pub fn end_of_entry(&self, key: u64) -> Option<u64>
        ensures { (cap : maps.Capacity) (lists : List ℕ) (es : List Entry) →
            Holds cap self.now lists es →
            result ≡ some_nonzero (rules.end_of_entry key es) }
    {
        nonzero(self.known.get(key))
    }
}
