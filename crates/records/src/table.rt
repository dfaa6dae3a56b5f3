//! The table of blocks, in records and in the core's two columns.
ghost use Rattle.std.specs.Prelude.{◌≡◌};
ghost use Rattle.records.specs.Sums.{sum_of_rows};

use crate::answers::{Both, Told, mix};
use faults::Fault;
use marks::Marking;
use records_blocks::{Block, Done};

/// How many rows are lent.
const ROWS: usize = 260;

#[derive(Drop)]
pub struct Table {
    records: [Block; ROWS],
    count: usize,
    starts: [u64; ROWS],
    ends: [u64; ROWS],
    blocks: usize,
}

/// Two columns as records.
fn joined(starts: &[u64; ROWS], ends: &[u64; ROWS]) -> [Block; ROWS] {
    let mut blocks = [Block { start: 0, end: 0 }; ROWS];
    for (block, (&start, &end)) in blocks.iter_mut().zip(starts.iter().zip(ends)) {
        *block = Block { start, end };
    }
    blocks
}

fn sum(blocks: &[Block]) -> u64
    ensures { result ≡ sum_of_rows blocks.now }
{
    blocks
        .iter()
        .fold(0, |sum, block| mix(mix(sum, block.start), block.end))
}

impl Table {
    /// No block.
    pub fn new() -> Table {
        Table {
            records: [Block { start: 0, end: 0 }; ROWS],
            count: 0,
            starts: [0; ROWS],
            ends: [0; ROWS],
            blocks: 0,
        }
    }

    /// Puts a row behind the last, if there is room for it.
    pub fn put_row(&mut self, start: u64, end: u64) {
        let last = self.count;
        if last < ROWS {
            self.records[last] = Block { start, end };
            self.starts[last] = start;
            self.ends[last] = end;
            self.set_count(last + 1);
        }
    }

    /// There are so many blocks.
    pub fn set_count(&mut self, count: usize)
        ensures { (self.new.count ≡ count) × (self.new.blocks ≡ count) }
    {
        self.count = count;
        self.blocks = count;
    }

    // What the records say of an operation.
    fn told_of_records(&mut self, done: Result<Done, Fault>) -> Told {
        let sum = sum(&self.records);
        match done {
            Ok(done) => {
                self.count = done.count;
                Told {
                    first: 0,
                    yes: done.yes,
                    count: done.count,
                    sum,
                }
            }
            Err(fault) => Told {
                first: fault.number() as u64,
                yes: false,
                count: self.count,
                sum,
            },
        }
    }

    // What both forms say of an operation.
    fn told(&mut self, letter: char, done: Result<Done, Fault>, marking: Marking) -> Both {
        self.blocks = marking.count;
        let core = joined(&self.starts, &self.ends);
        Both {
            letter,
            records: self.told_of_records(done),
            core: Told {
                first: marking.number as u64,
                yes: marking.new,
                count: marking.count,
                sum: sum(&core),
            },
            same: self.records.as_slice() == core.as_slice(),
        }
    }

    // The core's mark.
    fn core_mark(&mut self, addr: u64) -> Marking {
        marks::mark(&mut self.starts, &mut self.ends, self.blocks, addr)
    }

    /// Marks an address in both.
    pub fn mark(&mut self, addr: u64) -> Both {
        let done = records_blocks::mark(&mut self.records, self.count, addr);
        let marking = self.core_mark(addr);
        self.told('m', done, marking)
    }

    // What the core says of a cut: of a mark where one was made or refused, yes where the mark opened no block.
    fn core_cut(&mut self, done: Result<Done, Fault>, addr: u64) -> Marking {
        if let Ok(Done { yes: false, .. }) = done {
            return Marking {
                number: 0,
                count: self.blocks,
                new: false,
            };
        }
        let marking = self.core_mark(addr);
        Marking {
            number: marking.number,
            count: marking.count,
            new: marking.number == 0 && !marking.new,
        }
    }

    /// Cuts the block that reaches over an address in both.
    pub fn cut(&mut self, addr: u64) -> Both {
        let done = records_blocks::cut(&mut self.records, self.count, addr);
        let marking = self.core_cut(done, addr);
        self.told('c', done, marking)
    }
}
