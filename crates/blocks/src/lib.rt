// The table of a function's basic blocks, ascending by start: two lent slices, starts and ends. An open block ends at 0.
#![tactic(auto)]

ghost use Rattle.std.specs.Prelude.{◌≡◌, true, ◌||◌, false, ◌∷◌, min, ◌+◌, ◌<◌, ◌≤◌, ltb, length, get_or};
ghost use Rattle.rules.specs.Ordered.{has, put};
ghost use Rattle.rules.specs.Blocks.{block, start_of, below, cut, first_start, last_start};
ghost use Rattle.rules.specs.Blocks.{last_end, apart, first_disconnected_block, is_block, is_table, most_blocks};
ghost use Rattle.blocks.specs.Table.{rows, Table, Room, Looked, Reached, Holds, IsStored, IsAdded};

// Whether an address became the start of a new open block, or the table is full.
#[derive(Clone, Copy)]
pub enum Added {
    Yes,
    No,
    Full,
}

// How many blocks the table has after a mark, and what the mark came to.
#[derive(Clone, Copy)]
pub struct Step {
    pub count: usize,
    pub added: Added,
}

// How many blocks the table has after a block was put in, or that it is full.
#[derive(Clone, Copy)]
pub struct Stored {
    pub count: usize,
    pub full: bool,
}

// A block by value; 0 0 for none.
#[derive(Clone, Copy)]
pub struct BlockRange {
    pub start: u64,
    pub end: u64,
}

// The element before the place p; 0 where there is none.
fn before_place(xs: &[u64], p: usize) -> u64
    requires { p ≤ length xs.now }
    ensures { result ≡ get_or (0 ∷ xs.now) p 0 }
{
    if p == 0 {
        return 0;
    }
    xs[p - 1]
}

// Whether a block with the start that was looked up can be put in.
fn has_room(f: ordered::Found, count: usize, room: usize) -> bool
    ensures { result ≡ (f.hit || ltb count room) }
{
    if f.hit {
        return true;
    }
    count < room
}

// Puts a block in at the place where its start was looked up; how many there are then.
fn put_at(
    ss: &mut [u64],
    es: &mut [u64],
    count: usize,
    f: ordered::Found,
    start: u64,
    end: u64,
) -> usize
    requires { Looked count start f ss.old es.old }
    ensures { Holds result (put start_of (block start end) (rows count ss.old es.old)) ss.old
        es.old ss.new es.new }
{
    let at = f.at;
    if f.hit {
        ordered::replace_at(es, count, at, end);
        return count;
    }
    ordered::insert_at(ss, count, at, start);
    ordered::insert_at(es, count, at, end);
    count + 1
}

// Sets the end of the block that starts at start, which is put in if there is none.
pub fn set_end(
    ss: &mut [u64],
    es: &mut [u64],
    len: usize,
    room: usize,
    start: u64,
    end: u64,
) -> Stored
    requires table { Table len ss.old es.old }
    requires room { Room len room ss.old es.old }
    ensures { IsStored len room (block start end) ss.old es.old ss.new es.new
        result }
{
    let f = ordered::find(ss, len, start);
    if has_room(f, len, room) {
        let count = put_at(ss, es, len, f, start, end);
        return Stored { count, full: false };
    }
    Stored {
        count: len,
        full: true,
    }
}

// Ends the block that reaches over addr there, and starts the rest of it at addr; how many blocks there are then.
fn cut_at(
    ss: &mut [u64],
    es: &mut [u64],
    count: usize,
    f: ordered::Found,
    addr: u64,
    end: u64,
) -> usize
    requires { Reached count addr f end ss.old es.old }
    ensures { Holds result (cut addr (rows count ss.old es.old)) ss.old es.old
        ss.new es.new }
{
    let q = f.at - 1;
    ordered::replace_at(es, count, q, addr);
    put_at(ss, es, count, f, addr, end)
}

// Marks addr as the start of a block: cuts the block that reaches over it, or opens one there.
pub fn add_block_start(ss: &mut [u64], es: &mut [u64], len: usize, room: usize, addr: u64) -> Step
    requires table { Table len ss.old es.old }
    requires room { Room len room ss.old es.old }
    ensures { IsAdded len room addr ss.old es.old ss.new es.new result }
{
    let f = ordered::find(ss, len, addr);
    let end = before_place(es, f.at);
    if has_room(f, len, room) {
        if addr < end {
            let count = cut_at(ss, es, len, f, addr, end);
            let added = Added::No;
            return Step { count, added };
        }
        if f.hit {
            return Step {
                count: len,
                added: Added::No,
            };
        }
        let count = put_at(ss, es, len, f, addr, 0);
        return Step {
            count,
            added: Added::Yes,
        };
    }
    Step {
        count: len,
        added: Added::Full,
    }
}

// Whether a block starts at addr.
pub fn has_start(ss: &[u64], es: &[u64], count: usize, addr: u64) -> bool
    requires { Table count ss.now es.now }
    ensures { result ≡ has start_of addr (rows count ss.now es.now) }
{
    ordered::find(ss, count, addr).hit
}

// The first start; 0 where there is none.
pub fn start(ss: &[u64], es: &[u64], count: usize) -> u64
    requires { (count ≤ length ss.now) × (count ≤ length es.now) }
    ensures { result ≡ first_start (rows count ss.now es.now) }
{
    if count == 0 {
        return 0;
    }
    ss[0]
}

// The last start; 0 where there is none.
pub fn last_start(ss: &[u64], es: &[u64], count: usize) -> u64
    requires { (count ≤ length ss.now) × (count ≤ length es.now) }
    ensures { result ≡ last_start (rows count ss.now es.now) }
{
    before_place(ss, count)
}

// The last block's end; 0 where it is open or there is none.
pub fn end(ss: &[u64], es: &[u64], count: usize) -> u64
    requires { (count ≤ length ss.now) × (count ≤ length es.now) }
    ensures { result ≡ last_end (rows count ss.now es.now) }
{
    before_place(es, count)
}

// The nearest block that starts below addr.
pub fn lower(ss: &[u64], es: &[u64], count: usize, addr: u64) -> BlockRange
    requires { Table count ss.now es.now }
    ensures { block result.start result.end ≡ below addr (rows count ss.now es.now) }
{
    let p = ordered::rank_in(ss, count, addr);
    BlockRange {
        start: before_place(ss, p),
        end: before_place(es, p),
    }
}

// Whether both blocks are closed, and words lie between.
fn is_apart(start: u64, end: u64, next: u64, until: u64) -> bool
    ensures { result ≡ apart (block start end) (block next until) }
{
    if end == 0 {
        return false;
    }
    if until == 0 {
        return false;
    }
    end < next
}

// The first block that stands apart from the next.
pub fn first_disconnected_block(ss: &[u64], es: &[u64], count: usize) -> BlockRange
    requires { (count ≤ length ss.now) × (count ≤ length es.now) }
    ensures { block result.start result.end ≡ first_disconnected_block (rows count ss.now es.now) }
{
    let mut i: usize = 0;
    let mut next: usize = 1;
    while next < count {
        if is_apart(ss[i], es[i], ss[next], es[next]) {
            return BlockRange {
                start: ss[i],
                end: es[i],
            };
        }
        i = next;
        next += 1;
    }
    BlockRange { start: 0, end: 0 }
}
