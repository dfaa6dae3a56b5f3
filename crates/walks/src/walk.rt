// The state of a walk, and its elementary changes.
ghost use Rattle.std.specs.Prelude.{◌≡◌, ◌+◌, ◌<◌, [], length};
ghost use Rattle.rules.specs.Analyze.{new_walk};
ghost use Rattle.rules.specs.Slices as lists;
ghost use Rattle.rules.specs.Step as rules;
ghost use Rattle.faults.specs.Outcome.{outcome};
ghost use Rattle.slices.specs.View.{slices_of};
ghost use Rattle.walks.specs.State.{walk_of};

use faults::Fault;
use slices::FunctionSlices;
use worklist::{Pending, Visited};

/// Where a walk is.
#[derive(Clone, Copy, Debug, PartialEq, Eq)]
pub enum Place {
    /// Between two blocks.
    Idle,
    /// Before a word.
    At { word: u64, block: u64 },
    /// At its end, since it met no function.
    Nowhere,
}

/// A walk of one function.
#[derive(Drop)]
pub struct Walk {
    pub slices: FunctionSlices,
    pub visited: Visited,
    pub pending: Pending,
    /// Whether this pass visited a word that none had visited.
    pub fresh: bool,
    pub place: Place,
}

impl Walk {
    /// A walk that has not begun.
    pub fn new() -> Self
        ensures { walk_of result ≡ new_walk (lists.with_only []) }
    {
        Walk {
            slices: FunctionSlices::new(),
            visited: Visited::new(),
            pending: Pending::new(),
            fresh: false,
            place: Place::Idle,
        }
    }

    /// The block ends behind the word at `addr`.
    pub fn end_block(&mut self, addr: u64, block: u64) -> Result<(), Fault>
        requires { addr + 4 < 0x1_0000_0000_0000_0000 }
        ensures { outcome (walk_of self.new) result ≡ rules.end_block addr block (walk_of self.old) }
    {
        self.slices.set_block(block, addr + 4)?;
        self.place = Place::Idle;
        Ok(())
    }

    /// Sets the ways on from a word.
    pub fn set_branches(&mut self, from: u64, targets: &[u64]) -> Result<(), Fault>
        requires { 0 < length targets.now }
        ensures { outcome (walk_of self.new) result ≡ rules.on_slices (lists.set_branches from targets.now) (walk_of self.old) }
    {
        self.slices.set_branches(from, targets)
    }

    /// Adds a function that is referred to.
    pub fn add_function_reference(&mut self, addr: u64) -> Result<(), Fault>
        ensures { outcome (walk_of self.new) result ≡ rules.on_slices (lists.add_function_reference addr) (walk_of self.old) }
    {
        self.slices.add_function_reference(addr)
    }

    /// An address is to be walked.
    pub fn push(&mut self, addr: u64) -> Result<(), Fault>
        ensures { outcome (walk_of self.new) result ≡ rules.push addr (walk_of self.old) }
    {
        self.pending.push(addr)
    }

    /// A new block start is to be walked.
    pub fn mark_and_push(&mut self, addr: u64) -> Result<(), Fault>
        ensures { outcome (walk_of self.new) result ≡ rules.mark_and_push addr (walk_of self.old) }
    {
        if self.slices.add_block_start(addr)? {
            return self.push(addr);
        }
        Ok(())
    }

    /// Each of them.
    pub fn mark_and_push_all(&mut self, addrs: &[u64]) -> Result<(), Fault>
        ensures { outcome (walk_of self.new) result ≡ rules.mark_and_push_all addrs.now (walk_of self.old) }
    {
        for &addr in addrs {
            self.mark_and_push(addr)?;
        }
        Ok(())
    }
}
