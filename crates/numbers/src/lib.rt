// A function's lists as numbers: the starts of its basic blocks and their ends, the words that ways on are from and where they go,
// references, addresses and sizes of jump tables, possible blocks.
#![tactic(auto)]

ghost use Rattle.std.specs.Prelude.{◌≡◌, ◌<◌, ℕ, true, false, length, map, min, take, drop};
ghost use Rattle.rules.specs.OneFunction.{numbers as numbers_of};
ghost use Rattle.rules.specs.Slices as rules;
ghost use Rattle.obj_info.specs.Info.{some_nonzero};
ghost use Rattle.slices.specs.Some.{or_zero};
ghost use Rattle.slices.specs.View.{slices_of};
ghost use Rattle.numbers.specs.Stored.{header_of, header_len, Right};
ghost use Rattle.numbers.specs.Columns.{Computes};

use slices::FunctionSlices;

/// What is stored of a function beside the numbers of its lists: how many each list has, and what is no list.
#[derive(Clone, Copy, Debug, Default, PartialEq, Eq)]
pub struct Header {
    pub prologue: Option<u64>,
    pub epilogue: Option<u64>,
    pub blocks: u16,
    pub branches: u16,
    pub function_references: u16,
    pub jump_table_references: u16,
    pub possible_blocks: u16,
    pub has_conditional_blr: bool,
    pub has_rfi: bool,
    pub finalized: bool,
    pub has_r1_load: bool,
}

/// The number, unless it is 0: as an address, 0 is none.
pub fn nonzero(number: Option<u64>) -> Option<u64>
    ensures { result ≡ some_nonzero (or_zero number) }
{
    match number {
        Some(number) => {
            if number == 0 {
                return None;
            }
            Some(number)
        }
        None => None,
    }
}

impl Header {
    /// Of a function.
    pub fn of(slices: &FunctionSlices) -> Self
        ensures header { result ≡ header_of (slices_of slices.now) }
        ensures right { Right (slices_of slices.now) }
    {
        let blocks = slices.blocks.as_slice();
        let ways = slices.branches.as_slice();
        let references = slices.function_references.as_slice();
        let tables = slices.jump_table_references.as_slice();
        let possible = slices.possible_blocks.as_slice();
        Header {
            blocks: blocks.len() as u16,
            branches: ways.len() as u16,
            function_references: references.len() as u16,
            jump_table_references: tables.len() as u16,
            possible_blocks: possible.len() as u16,
            prologue: nonzero(slices.prologue),
            epilogue: nonzero(slices.epilogue),
            has_conditional_blr: slices.has_conditional_blr,
            has_rfi: slices.has_rfi,
            finalized: slices.finalized,
            has_r1_load: slices.has_r1_load,
        }
    }

    /// How many numbers there are: two for a block, a way on or a jump table, one for a reference or a possible block.
    pub fn len(&self) -> usize
        ensures value { result ≡ header_len self.now }
        ensures small { result < 0x80000 }
    {
        2 * usize::from(self.blocks)
            + 2 * usize::from(self.branches)
            + usize::from(self.function_references)
            + 2 * usize::from(self.jump_table_references)
            + usize::from(self.possible_blocks)
    }
}

// Puts a number of each row into a column that is as long.
fn put_column<T, F: Fn(&T) -> u64>(rows: &[T], number: F, column: &mut [u64])
    requires len { length column.old ≡ length rows.now }
    requires callable { F.IsAlwaysCallable number }
    ensures { (f : T → ℕ) → Computes (F.post number) f → column.new ≡ map f rows.now }
{
    for (at, row) in rows.iter().enumerate() {
        column[at] = number(row);
    }
}

// Copies a column. (Of std's method the compiler makes a call of C's `memmove`, which nobody had to bring who links the library.)
fn copy_from_slice(to: &mut [u64], from: &[u64])
    requires { length to.old ≡ length from.now }
    ensures { to.new ≡ from.now }
{
    for (at, &number) in from.iter().enumerate() {
        to[at] = number;
    }
}

/// Puts the numbers of a function's lists into a slice that is as long.
pub fn put_numbers(slices: &FunctionSlices, out: &mut [u64])
    requires len { length out.old ≡ length (numbers_of (slices_of slices.now)) }
    ensures { out.new ≡ numbers_of (slices_of slices.now) }
{
    let blocks = slices.blocks.as_slice();
    let ways = slices.branches.as_slice();
    let references = slices.function_references.as_slice();
    let tables = slices.jump_table_references.as_slice();
    let possible = slices.possible_blocks.as_slice();
    let (starts, rest) = out.split_at_mut(blocks.len());
    let (ends, rest) = rest.split_at_mut(blocks.len());
    let (froms, rest) = rest.split_at_mut(ways.len());
    let (tos, rest) = rest.split_at_mut(ways.len());
    let (refers, rest) = rest.split_at_mut(references.len());
    let (addresses, rest) = rest.split_at_mut(tables.len());
    let (sizes, rest) = rest.split_at_mut(tables.len());
    put_column(blocks, |block| block.key, starts);
    put_column(blocks, |block| block.value, ends);
    put_column(ways, |way| way.from, froms);
    put_column(ways, |way| way.to, tos);
    copy_from_slice(refers, references);
    put_column(tables, |table| table.key, addresses);
    put_column(tables, |table| table.value, sizes);
    copy_from_slice(rest, possible);
}

// The first `count` numbers, or as many as there are, and the others.
fn split(numbers: &[u64], count: u16) -> (&[u64], &[u64])
    ensures first { result.0.now ≡ take count numbers.now }
    ensures rest { result.1.now ≡ drop count numbers.now }
{
    numbers.split_at(usize::from(count).min(numbers.len()))
}

/// A function's lists again, from their numbers.
pub fn take_numbers(slices: &mut FunctionSlices, header: Header, numbers: &[u64])
    ensures { (s : rules.Slices) →
        Right s →
        header ≡ header_of s →
        numbers.now ≡ numbers_of s →
        slices_of slices.new ≡ s }
{
    let (starts, rest) = split(numbers, header.blocks);
    let (ends, rest) = split(rest, header.blocks);
    let (froms, rest) = split(rest, header.branches);
    let (tos, rest) = split(rest, header.branches);
    let (references, rest) = split(rest, header.function_references);
    let (addresses, rest) = split(rest, header.jump_table_references);
    let (sizes, possible) = split(rest, header.jump_table_references);
    slices.blocks.assign(starts, ends);
    slices.branches.assign(froms, tos);
    slices.function_references.assign(references);
    slices.jump_table_references.assign(addresses, sizes);
    slices.possible_blocks.assign(possible);
    slices.prologue = header.prologue;
    slices.epilogue = header.epilogue;
    slices.has_conditional_blr = header.has_conditional_blr;
    slices.has_rfi = header.has_rfi;
    slices.finalized = header.finalized;
    slices.has_r1_load = header.has_r1_load;
}
