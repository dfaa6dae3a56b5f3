// A table's entries as they are read.
ghost use Rattle.std.specs.Prelude.{◌≡◌, ◌≤◌};
ghost use Rattle.faults.specs.Outcome.{outcome};
ghost use Rattle.jump_tables.specs.Readings.{begun, taken};

use faults::Fault;
use tables::Set;

// The entries so far, and how many more words may be taken.
#[derive(Drop)]
pub struct Reading {
    pub entries: Set<256>,
    pub room: u32,
}

impl Reading {
    pub fn new() -> Self
        ensures { result ≡ begun }
    {
        Reading {
            entries: Set::new(),
            room: 256,
        }
    }

    // Takes the word `value` as an entry to the address `target`.
    pub fn take(&mut self, value: u32, target: u64) -> Result<(), Fault>
        ensures is { outcome self.new result ≡ taken value target self.old }
        ensures room { self.new.room ≤ self.old.room }
    {
        if value % 4 != 0 {
            return Err(Fault::Misaligned);
        }
        if self.room == 0 {
            return Err(Fault::Limit);
        }
        self.room -= 1;
        self.entries.insert(target)
    }
}
