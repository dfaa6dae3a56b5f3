// An entry of the map in the lent result lists: its row of ten numbers, and the numbers of its lists.
ghost use Rattle.std.specs.Prelude.{◌≡◌, ◌<◌, ◌≤◌, length};
ghost use Rattle.result_lists.specs.Back.{set_in};
ghost use Rattle.printing.specs.Rows.{row_from, numbers_long};
ghost use Rattle.printing.specs.Told.{of_function, Cut};

use result_lists::ROW;

// What the bits of a row's flags say.
const ANALYZED: u64 = 1;

const HAS_LISTS: u64 = 2;

const CONDITIONAL_BLR: u64 = 4;

const RFI: u64 = 8;

const R1_LOAD: u64 = 16;

// An entry's row by value. Of its end, prologue and epilogue 0 is none.
#[derive(Clone, Copy)]
pub struct EntryRow {
    pub entry: u64,
    pub end: u64,
    flags: u64,
    pub prologue: u64,
    pub epilogue: u64,
    blocks: usize,
    branches: usize,
    function_references: usize,
    jump_tables: usize,
    possible_blocks: usize,
}

// The columns of an entry's numbers that are printed, and the numbers of the entries behind it.
#[derive(Clone, Copy)]
pub struct Lists<'a> {
    pub block_starts: &'a [u64],
    pub block_ends: &'a [u64],
    pub froms: &'a [u64],
    pub tos: &'a [u64],
    pub function_references: &'a [u64],
    pub table_addresses: &'a [u64],
    pub table_sizes: &'a [u64],
    pub behind: &'a [u64],
}

impl From<&[u64; ROW]> for EntryRow {
    ghost from_gives = { λ row entry. entry ≡ row_from row.now };

    fn from(row: &[u64; ROW]) -> EntryRow {
        let [
            entry,
            end,
            flags,
            prologue,
            epilogue,
            blocks,
            branches,
            function_references,
            jump_tables,
            possible_blocks,
        ] = *row;
        EntryRow {
            entry,
            end,
            flags,
            prologue,
            epilogue,
            blocks: blocks as usize,
            branches: branches as usize,
            function_references: function_references as usize,
            jump_tables: jump_tables as usize,
            possible_blocks: possible_blocks as usize,
        }
    }
}

impl EntryRow {
    fn has(&self, flag: u64) -> bool
        requires { 0 < flag }
        ensures { result ≡ set_in self.now.flags flag }
    {
        self.flags / flag % 2 == 1
    }

    // Whether it is a function: analyzed, with an end and lists.
    pub fn is_function(&self) -> bool
        ensures { result ≡ of_function self.now }
    {
        self.has(ANALYZED) && self.end != 0 && self.has(HAS_LISTS)
    }

    // Whether a conditional `blr` was met.
    pub fn has_conditional_blr(&self) -> bool
        ensures { result ≡ set_in self.now.flags 4 }
    {
        self.has(CONDITIONAL_BLR)
    }

    // Whether an `rfi` was met.
    pub fn has_rfi(&self) -> bool
        ensures { result ≡ set_in self.now.flags 8 }
    {
        self.has(RFI)
    }

    // Whether a load of r1 was met.
    pub fn has_r1_load(&self) -> bool
        ensures { result ≡ set_in self.now.flags 16 }
    {
        self.has(R1_LOAD)
    }

    // The columns of its numbers, which stand first.
    pub fn lists<'a>(&self, numbers: &'a [u64]) -> Lists<'a>
        requires { numbers_long self.now ≤ length numbers.now }
        ensures { Cut self.now numbers.now result }
    {
        let (block_starts, rest) = numbers.split_at(self.blocks);
        let (block_ends, rest) = rest.split_at(self.blocks);
        let (froms, rest) = rest.split_at(self.branches);
        let (tos, rest) = rest.split_at(self.branches);
        let (function_references, rest) = rest.split_at(self.function_references);
        let (table_addresses, rest) = rest.split_at(self.jump_tables);
        let (table_sizes, rest) = rest.split_at(self.jump_tables);
        let (_, behind) = rest.split_at(self.possible_blocks);
        Lists {
            block_starts,
            block_ends,
            froms,
            tos,
            function_references,
            table_addresses,
            table_sizes,
            behind,
        }
    }
}
