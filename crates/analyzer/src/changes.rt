// Entries added, and what is known of them changed.

ghost use Rattle.std.specs.Prelude.{◌≡◌, ◌<◌, List, ℕ, true, false, IfOk, OnOk, length};
ghost use Rattle.rules.specs.Ordered.{rank, has};
ghost use Rattle.rules.specs.Known.{Entry, entry_of};
ghost use Rattle.rules.specs.Map as maps;
ghost use Rattle.slices.specs.Some.{or_zero};
ghost use Rattle.analyzer.specs.Table.{Holds};
ghost use Rattle.analyzer.specs.Told.{Told, end_set};
ghost use Rattle.analyzer.specs.Placed.{Placed};

use crate::{AnalyzerState, FunctionInfo};
use faults::Fault;
use walks::FUNCTIONS;

impl AnalyzerState {
    // An entry of which nothing is known, in its place.
    fn insert(&mut self, at: usize, key: u64) -> Result<(), Fault>
        ensures within { OnOk result (at < length self.new.infos.items) }
        ensures told { (cap : maps.Capacity) (lists : List ℕ) (es : List Entry) →
            Holds cap self.old lists es →
            at ≡ rank entry_of key es →
            has entry_of key es ≡ false →
            Told cap (maps.add_entry cap key es) self.new lists result }
    {
        if self.known.len() >= self.room.min(FUNCTIONS) {
            return Err(Fault::Limit);
        }
        // there is a row of infos for each entry, so that it goes in there, too
        if self.infos.is_full() || at > self.infos.len() {
            return Err(Fault::Limit);
        }
        self.known.insert(key, 0)?;
        runs::insert(&mut self.infos, at, FunctionInfo::default());
        Ok(())
    }

    // The place of the entry at `key`, which is added if there is none.
    pub(crate) fn place_of(&mut self, key: u64) -> Result<usize, Fault>
        ensures within { IfOk result (λ at. at < length self.new.infos.items) }
        ensures placed { (cap : maps.Capacity) (lists : List ℕ) (es : List Entry) →
            Holds cap self.old lists es →
            Placed cap (maps.add_entry cap key es) key self.new lists result }
    {
        match self.known.position(key) {
            Ok(at) => {
                if at < self.infos.len() {
                    return Ok(at);
                }
                Err(Fault::Limit)
            }
            Err(at) => {
                self.insert(at, key)?;
                Ok(at)
            }
        }
    }

    /// An entry at `key`, if there is none.
    pub fn add_entry(&mut self, key: u64) -> Result<(), Fault>
        ensures { (cap : maps.Capacity) (lists : List ℕ) (es : List Entry) →
            Holds cap self.old lists es →
            Told cap (maps.add_entry cap key es) self.new lists result }
    {
        self.place_of(key)?;
        Ok(())
    }

    /// The end of the entry at `key`, which is added if there is none.
    pub fn set_end(&mut self, key: u64, end: Option<u64>) -> Result<(), Fault>
        ensures { (cap : maps.Capacity) (lists : List ℕ) (es : List Entry) →
            Holds cap self.old lists es →
            Told cap (end_set cap key (or_zero end) es) self.new lists result }
    {
        self.place_of(key)?;
        self.known.insert(key, end.unwrap_or(0))
    }

    /// There is no function at `key`: the entry, which is added if there is none, is analyzed and has no end.
    pub fn set_aside(&mut self, key: u64) -> Result<(), Fault>
        ensures { (cap : maps.Capacity) (lists : List ℕ) (es : List Entry) →
            Holds cap self.old lists es →
            Told cap (maps.set_aside cap key es) self.new lists result }
    {
        let at = self.place_of(key)?;
        self.infos[at].analyzed = true;
        let no_end = 0;
        self.known.insert(key, no_end)
    }
}
