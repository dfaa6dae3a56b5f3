// The public mark: one address in a lent table of blocks, which may be any. The table is two slices that the caller lends, one of starts
// and one of ends, as C has them: so the search and the insertion are those of `blocks` on such columns, and no `tables::Map` could stand
// for it.
#![tactic(auto)]

ghost use Rattle.std.specs.Prelude.{◌≡◌, ◌+◌, ◌<◌, ◌≤◌, min, true, [], ◌∷◌, length, drop};
ghost use Rattle.rules.specs.Blocks.{block, is_block, is_table, most_blocks};
ghost use Rattle.blocks.specs.Table.{rows};
ghost use Rattle.marks.specs.Marks.{goes_on, markable, mark_lent, IsAnswered, IsMarking};

use blocks::{Added, Step, add_block_start};

// Whether start and end are multiples of 4, and a closed end lies above its start.
pub fn is_block(start: u64, end: u64) -> bool
    ensures value { result ≡ is_block (block start end) }
    ensures start_bound { result ≡ true → start + 1 < 18446744073709551616 }
{
    if (start | end) % 4 == 0 {
        // One less than the end, 0, of an open block wraps to the highest number.
        return start <= std::num::wrapping_sub_u64(end, 1);
    }
    false
}

// Whether the last row, if one is left, is a block whose start is `least` or more.
fn is_rest(ss: &[u64], es: &[u64], count: usize, i: usize, least: u64) -> bool
    requires { (count ≤ length ss.now) × (count ≤ length es.now) × (i ≤ count) × (count ≤ i + 1) }
    ensures { result ≡ goes_on least (drop i (rows count ss.now es.now)) }
{
    if count <= i {
        return true;
    }
    let start = ss[i];
    if start < least {
        return false;
    }
    is_block(start, es[i])
}

// Whether two rows are blocks, and their starts ascend strictly from `least` on.
fn is_pair(start: u64, end: u64, second: u64, until: u64, least: u64) -> bool
    ensures value { result ≡ goes_on least (block start end ∷ block second until ∷ []) }
    ensures second_bound { result ≡ true → second + 1 < 18446744073709551616 }
{
    if start < least {
        return false;
    }
    if second <= start {
        return false;
    }
    is_block(start, end) & is_block(second, until)
}

// Whether all rows are blocks, and their starts ascend strictly. Two rows in each turn take less time than one in each of two.
fn is_table(ss: &[u64], es: &[u64], count: usize) -> bool
    requires { (count ≤ length ss.now) × (count ≤ length es.now) }
    ensures { result ≡ is_table (rows count ss.now es.now) }
{
    let mut i: usize = 0;
    let mut next: usize = 1;
    // What the next start must reach: a start is a multiple of 4, so one more than it fits.
    let mut least: u64 = 0;
    while next < count {
        let second = ss[next];
        if is_pair(ss[i], es[i], second, es[next], least) {
            least = second + 1;
            i = next + 1;
            next = i + 1;
        } else {
            return false;
        }
    }
    is_rest(ss, es, count, i, least)
}

fn shorter(a: usize, b: usize) -> usize
    ensures { result ≡ min a b }
{
    if a < b {
        return a;
    }
    b
}

// How many blocks may stand in slices of these lengths: 256, or as many as the shorter holds.
fn room_in(a: usize, b: usize) -> usize
    ensures { result ≡ most_blocks (min a b) }
{
    shorter(256, shorter(a, b))
}

// Whether the count fits both slices, and the address and the table break no rule.
fn is_markable(ss: &[u64], es: &[u64], count: usize, addr: u64) -> bool
    ensures { result ≡ markable count addr ss.now es.now }
{
    if count <= ss.len() {
        if count <= es.len() {
            if addr % 4 == 0 {
                return is_table(ss, es, count);
            }
        }
    }
    false
}

// What a mark came to: 0, or 3 or 4 where nothing was changed; how many blocks there are; whether a new open block starts there.
#[derive(Clone, Copy)]
pub struct Marking {
    pub number: u32,
    pub count: usize,
    pub new: bool,
}

// The answer of a mark in a table that breaks no rule.
fn answered(r: Step) -> Marking
    ensures { IsAnswered r result }
{
    let count = r.count;
    let added = r.added;
    match added {
        Added::Yes => Marking {
            number: 0,
            count,
            new: true,
        },
        Added::No => Marking {
            number: 0,
            count,
            new: false,
        },
        Added::Full => Marking {
            number: 4,
            count,
            new: false,
        },
    }
}

// Marks addr in a lent table, which may be any: 3 where it or addr breaks a rule, 4 where it is full.
pub fn mark(ss: &mut [u64], es: &mut [u64], count: usize, addr: u64) -> Marking
    ensures { IsMarking (mark_lent count addr ss.old es.old) count ss.old es.old
        ss.new es.new result }
{
    if is_markable(ss, es, count, addr) {
        let room = room_in(ss.len(), es.len());
        if room < count {
            return Marking {
                number: 4,
                count,
                new: false,
            };
        }
        let r = add_block_start(ss, es, count, room, addr);
        return answered(r);
    }
    Marking {
        number: 3,
        count,
        new: false,
    }
}

// The same as C takes it: the number is the result, and the count and the answer are written through.
pub fn blocks_mark(
    ss: &mut [u64],
    es: &mut [u64],
    len: usize,
    addr: u64,
    count: &mut usize,
    new: &mut bool,
) -> u32
    ensures { IsMarking (mark_lent len addr ss.old es.old) len ss.old es.old
        ss.new es.new (record { number = result; count = count.new; new = new.new }) }
{
    let m = mark(ss, es, len, addr);
    *count = m.count;
    *new = m.new;
    m.number
}
