// The entries of a jump table, as a walk takes them.
ghost use Rattle.std.specs.Prelude.{◌≡◌, ◌<◌, List, length, true};
ghost use Rattle.rules.specs.Address.{address_of};
ghost use Rattle.rules.specs.Choice.{any};
ghost use Rattle.rules.specs.Known.{Entry};
ghost use Rattle.rules.specs.Step as rules;
ghost use Rattle.faults.specs.Outcome.{outcome};
ghost use Rattle.jump_tables.specs.Entries.{entries_of};
ghost use Rattle.slices.specs.View.{slices_of};
ghost use Rattle.obj_info.specs.Info.{some_nonzero};
ghost use Rattle.walks.specs.Around.{Knows, around_of};
ghost use Rattle.walks.specs.State.{walk_of};

use crate::around::Around;
use crate::walk::Walk;
use faults::Fault;
use jump_tables::{JumpTable, uniq_jump_table_entries_of};

impl Walk {
    // Whether an entry lies among the blocks of the function: behind its start, and no further than the last block or the next word.
    fn table_inside(&self, around: &Around, addr: u64, entries: &[u64]) -> bool
        requires { address_of addr < 0xF000_0000 }
        ensures { (es : List Entry) →
            result ≡ rules.table_inside (around_of around.now es) addr entries.now (slices_of self.now.slices) }
    {
        let last = self.slices.last_start().unwrap_or(0).max(addr + 4);
        entries
            .iter()
            .any(|&entry| around.start < entry && entry <= last)
    }

    // Whether one of the entries is in another known function.
    fn any_known(&self, around: &Around, entries: &[u64]) -> bool
        ensures { (es : List Entry) →
            Knows around.now.known.now es →
            result ≡ any (rules.is_known_function (around_of around.now es) (slices_of self.now.slices)) entries.now }
    {
        entries
            .iter()
            .any(|&entry| self.is_known_function(around, entry))
    }

    // Whether the entries are blocks of the function: one lies among them, and none in another known function.
    fn is_own_table(&self, around: &Around, addr: u64, entries: &[u64]) -> bool
        requires { address_of addr < 0xF000_0000 }
        ensures own { (es : List Entry) →
            Knows around.now.known.now es →
            result ≡ rules.is_own_table (around_of around.now es) addr entries.now (slices_of self.now.slices) }
        ensures some { result ≡ true → 0 < length entries.now }
    {
        self.table_inside(around, addr, entries) && !self.any_known(around, entries)
    }

    // The entries are blocks of the function, and ways on.
    fn do_own_table(&mut self, addr: u64, target: u64, table: &JumpTable) -> Result<(), Fault>
        requires { 0 < length table.now.entries }
        ensures { (e : rules.Around) →
            outcome (walk_of self.new) result ≡ rules.do_own_table e addr target (entries_of table.now) (walk_of self.old) }
    {
        self.slices
            .set_jump_table_reference(target, u64::from(table.size))?;
        let entries = table.entries.as_slice();
        self.mark_and_push_all(entries)?;
        self.set_branches(addr, entries)
    }

    // The function's end, where it is known, else the last block's.
    fn known_end(&self, around: &Around) -> Option<u64>
        ensures { (es : List Entry) →
            result ≡ some_nonzero (rules.known_end (around_of around.now es) (slices_of self.now.slices)) }
    {
        around.end.or(self.slices.last_end())
    }

    /// The jump table at `target`, with a size or 0.
    pub fn do_table(
        &mut self,
        around: &Around,
        addr: u64,
        target: u64,
        size: u32,
    ) -> Result<(), Fault>
        requires { address_of addr < 0xF000_0000 }
        ensures { (es : List Entry) →
            Knows around.now.known.now es →
            outcome (walk_of self.new) result ≡ rules.do_table (around_of around.now es) addr target size (walk_of self.old) }
    {
        let past = self.known_end(around);
        let tables = around.obj.tables();
        let table = uniq_jump_table_entries_of(&tables, target, size, around.start, past)?;
        let entries = table.entries.as_slice();
        if self.is_own_table(around, addr, entries) {
            return self.do_own_table(addr, target, &table);
        }
        self.slices.add_all_possible_blocks(entries)
    }
}
