// A function's lists (`FunctionSlices`): its basic blocks, the ways on from its words, and what it refers to.
#![tactic(auto)]

ghost use Rattle.std.specs.Prelude.{◌≡◌, ◌<◌, ◌≤◌, ◌+◌, ◌&&◌, [], IfOk, not, leb, length, is_some, option_map};
ghost use Rattle.rules.specs.Choice.{any};
ghost use Rattle.rules.specs.Ordered.{self as own, has, upper, empty};
ghost use Rattle.rules.specs.Blocks as blocks;
ghost use Rattle.rules.specs.Slices as rules;
ghost use Rattle.faults.specs.Outcome.{outcome};
ghost use Rattle.slices.specs.Some.{some_nonzero, or_zero};
ghost use Rattle.slices.specs.Blocks.{block_of, some_closed};
ghost use Rattle.slices.specs.View.{slices_of};

use faults::Fault;
use tables::{Map, Row, Set, Ways};

pub mod basic_blocks;

/// How many basic blocks a function may have.
pub const BLOCKS: usize = 256;

/// How many ways on.
pub const BRANCHES: usize = 1024;

/// How many functions it may refer to.
pub const REFERENCES: usize = 256;

/// How many jump tables.
pub const TABLES: usize = 256;

/// How many possible blocks.
pub const POSSIBLE: usize = 128;

/// What is known of a function.
#[derive(Drop)]
pub struct FunctionSlices {
    /// The end of each block by its start, 0 while it is open.
    pub blocks: Map<BLOCKS>,
    pub branches: Ways<BRANCHES>,
    pub function_references: Set<REFERENCES>,
    /// The size of each jump table by its address.
    pub jump_table_references: Map<TABLES>,
    pub prologue: Option<u64>,
    pub epilogue: Option<u64>,
    /// Either blocks or tail calls.
    pub possible_blocks: Set<POSSIBLE>,
    pub has_conditional_blr: bool,
    pub has_rfi: bool,
    pub finalized: bool,
    /// Possibly instead of a prologue.
    pub has_r1_load: bool,
}

impl FunctionSlices {
    /// Nothing yet.
    pub fn new() -> Self
        ensures { slices_of result ≡ rules.with_only [] }
    {
        FunctionSlices {
            blocks: Map::new(),
            branches: Ways::new(),
            function_references: Set::new(),
            jump_table_references: Map::new(),
            prologue: None,
            epilogue: None,
            possible_blocks: Set::new(),
            has_conditional_blr: false,
            has_rfi: false,
            finalized: false,
            has_r1_load: false,
        }
    }

    /// Nothing again.
    pub fn clear(&mut self)
        ensures { slices_of self.new ≡ rules.with_only [] }
    {
        self.blocks.clear();
        self.branches.clear();
        self.function_references.clear();
        self.jump_table_references.clear();
        self.prologue = None;
        self.epilogue = None;
        self.possible_blocks.clear();
        self.has_conditional_blr = false;
        self.has_rfi = false;
        self.finalized = false;
        self.has_r1_load = false;
    }

    /// The last block's end, if it is closed.
    pub fn last_end(&self) -> Option<u64>
        ensures { result ≡ some_nonzero (blocks.last_end (slices_of self.now).blocks) }
    {
        let last = self.blocks.last()?;
        if last.value == 0 {
            return None;
        }
        Some(last.value)
    }

    /// The last start.
    pub fn last_start(&self) -> Option<u64>
        ensures start { or_zero result ≡ blocks.last_start (slices_of self.now).blocks }
        ensures some { is_some result ≡ not (empty (slices_of self.now).blocks) }
    {
        let block = self.blocks.last()?;
        Some(block.key)
    }

    /// The first start.
    pub fn first_start(&self) -> Option<u64>
        ensures start { or_zero result ≡ blocks.first_start (slices_of self.now).blocks }
        ensures some { is_some result ≡ not (empty (slices_of self.now).blocks) }
    {
        let block = self.blocks.first()?;
        Some(block.key)
    }

    /// Sets the end of the block that starts at `start`, which is put in if there is none.
    pub fn set_block(&mut self, start: u64, end: u64) -> Result<(), Fault>
        ensures { outcome (slices_of self.new) result ≡ rules.set_block start end (slices_of self.old) }
    {
        self.blocks.insert(start, end)
    }

    /// Marks `addr` as the start of a block. Whether that opened one.
    pub fn add_block_start(&mut self, addr: u64) -> Result<bool, Fault>
        ensures marked { outcome (slices_of self.new) result ≡ rules.add_block_start addr (slices_of self.old) }
        ensures new { IfOk result (λ new. new ≡ blocks.is_new addr (slices_of self.old).blocks) }
    {
        basic_blocks::add_block_start(&mut self.blocks, addr)
    }

    /// Whether a block starts at `addr`.
    pub fn has_start(&self, addr: u64) -> bool
        ensures { result ≡ has blocks.start_of addr (slices_of self.now).blocks }
    {
        self.blocks.contains_key(addr)
    }

    /// The first block that stands apart from the next.
    pub fn first_disconnected_block(&self) -> Option<Row>
        ensures { option_map block_of result ≡ some_closed (blocks.first_disconnected_block
            (slices_of self.now).blocks) }
    {
        basic_blocks::first_disconnected_block(self.blocks.as_slice())
    }

    /// Whether a block is open.
    pub fn any_open(&self) -> bool
        ensures { result ≡ any blocks.is_open (slices_of self.now).blocks }
    {
        basic_blocks::any_open(self.blocks.as_slice())
    }

    /// Sets the ways on from a word, instead of those that it had.
    pub fn set_branches(&mut self, from: u64, targets: &[u64]) -> Result<(), Fault>
        requires { 0 < length targets.now }
        ensures { outcome (slices_of self.new) result ≡ rules.set_branches from targets.now (slices_of self.old) }
    {
        self.branches.set(from, targets)
    }

    /// Adds a function that is referred to.
    pub fn add_function_reference(&mut self, addr: u64) -> Result<(), Fault>
        ensures { outcome (slices_of self.new) result ≡ rules.add_function_reference addr (slices_of self.old) }
    {
        self.function_references.insert(addr)
    }

    /// Whether `addr` is a function that is referred to.
    pub fn is_function_reference(&self, addr: u64) -> bool
        ensures { result ≡ has own addr (slices_of self.now).function_references }
    {
        self.function_references.contains(addr)
    }

    /// Whether a function from `low` to `high` is referred to.
    pub fn any_function_reference(&self, low: u64, high: u64) -> bool
        ensures { result ≡ any (λ x. leb low x && leb x high) (slices_of self.now).function_references }
    {
        self.function_references.any_within(low, high)
    }

    /// Nothing but the references of another function.
    pub fn copy_function_references(&mut self, other: &FunctionSlices)
        ensures { slices_of self.new ≡ rules.with_only (slices_of other.now).function_references }
    {
        self.clear();
        self.function_references
            .copy_from(&other.function_references);
    }

    /// Sets the size of the jump table at `addr`, which is put in if there is none.
    pub fn set_jump_table_reference(&mut self, addr: u64, size: u64) -> Result<(), Fault>
        ensures { outcome (slices_of self.new) result ≡ rules.set_jump_table_reference addr size (slices_of self.old) }
    {
        self.jump_table_references.insert(addr, size)
    }

    /// Adds a block that may be the function's.
    pub fn add_possible_block(&mut self, addr: u64) -> Result<(), Fault>
        ensures { outcome (slices_of self.new) result ≡ rules.add_possible_block addr (slices_of self.old) }
    {
        self.possible_blocks.insert(addr)
    }

    /// Adds each of them.
    pub fn add_all_possible_blocks(&mut self, addrs: &[u64]) -> Result<(), Fault>
        ensures { outcome (slices_of self.new) result ≡ rules.add_all_possible_blocks addrs.now (slices_of self.old) }
    {
        for &addr in addrs {
            self.add_possible_block(addr)?;
        }
        Ok(())
    }

    /// No longer a block that may be the function's.
    pub fn discard_possible_block(&mut self, addr: u64)
        ensures { slices_of self.new ≡ rules.discard_possible_block addr (slices_of self.old) }
    {
        self.possible_blocks.remove(addr);
    }

    /// The first possible block at `current` or above.
    #[tactic(auto, unfolding(crate::specs::View::slices_of))]
    pub fn next_possible_block(&self, current: u64) -> Option<u64>
        ensures value { result ≡ some_nonzero (upper own current 0 (slices_of self.now).possible_blocks) }
        ensures few { length (slices_of self.now).possible_blocks ≤ 128 }
    {
        let next = self.possible_blocks.first_from(current)?;
        if next == 0 {
            return None;
        }
        Some(next)
    }

    /// The first possible block behind the word at `block`. Where `block + 4` would overflow there is none.
    #[tactic(auto, unfolding(crate::specs::View::slices_of))]
    pub fn next_possible_block_behind(&self, block: u64) -> Option<u64>
        ensures value { result ≡ some_nonzero (upper own (block + 4) 0 (slices_of self.now).possible_blocks) }
        ensures few { length (slices_of self.now).possible_blocks ≤ 128 }
    {
        let blocks = self.possible_blocks.as_slice();
        let at = blocks.partition_point(|next| next.saturating_sub(block) < 4);
        blocks.get(at).copied()
    }
}
