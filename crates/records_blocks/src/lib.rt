// A table of blocks as a lent slice of records, marked and cut where it lies.
#![tactic(auto)]

ghost use Rattle.std.specs.Prelude.{◌≡◌, true, false, ◌+◌, ◌<◌, ◌≤◌, min, length};
ghost use Rattle.records_blocks.specs.Sweep.{checked, moved, turned, after, swept};
ghost use Rattle.records_blocks.specs.Plan.{looking, changing, still, refused, longer, opening, placed, planned};
ghost use Rattle.records_blocks.specs.Records.{mark_records, cut_records, change_records, IsDone};

use faults::Fault;
use marks::is_block;

// A block, from its start up to its end; the end of an open one is 0.
#[repr(C)]
#[derive(Clone, Copy, Debug, PartialEq, Eq)]
pub struct Block {
    pub start: u64,
    pub end: u64,
}

// Whether all blocks so far may stand in a table, and what the next start must then reach.
#[derive(Clone, Copy)]
struct Check {
    least: u64,
    sound: bool,
}

// One more block.
fn check_next(check: Check, b: Block) -> Check
    ensures { result ≡ checked check b }
{
    if check.sound {
        if check.least <= b.start {
            if is_block(b.start, b.end) {
                return Check {
                    least: b.start + 1,
                    sound: true,
                };
            }
        }
    }
    Check {
        least: check.least,
        sound: false,
    }
}

// What a sweep carries from one block to the next. Mode 0: it looks for addr. 1: it has found its place. 3: from `at` on it moves each
// block up by one. 4: it puts `hold` at `at`.
#[derive(Clone, Copy)]
struct Carry {
    // what is written back
    out: Block,
    // what comes next
    hold: Block,
    addr: u64,
    // the place of addr, and whether a block starts there
    at: usize,
    hit: bool,
    // the end of the block before the place
    below: u64,
    // whether the block at `last` is to end at addr
    cut: bool,
    last: usize,
    mode: u8,
    check: Check,
}

// One block of a sweep, which is checked already.
fn move_on(c: Carry, i: usize, b: Block) -> Carry
    ensures { result ≡ moved c i b }
{
    let mut d = c;
    d.out = b;
    if c.mode == 0 {
        if b.start < c.addr {
            d.below = b.end;
            return d;
        }
        d.mode = 1;
        d.at = i;
        d.hit = b.start == c.addr;
        return d;
    }
    if i < c.at {
        if c.cut {
            if i == c.last {
                let e = Block {
                    start: b.start,
                    end: c.addr,
                };
                let h = Block {
                    start: c.addr,
                    end: b.end,
                };
                d.out = e;
                d.hold = h;
                return d;
            }
            return d;
        }
        return d;
    }
    if c.mode == 3 {
        let h = c.hold;
        d.out = h;
        d.hold = b;
        return d;
    }
    if c.mode == 4 {
        if i == c.at {
            let h = c.hold;
            d.out = h;
            return d;
        }
        return d;
    }
    d
}

// One block of a sweep.
fn turn(c: Carry, i: usize, b: Block) -> Carry
    ensures { result ≡ turned c i b }
{
    let k = check_next(c.check, b);
    let mut d = c;
    d.check = k;
    move_on(d, i, b)
}

// The first `count` blocks are gone through, each read and written back.
fn sweep(blocks: &mut [Block], count: usize, c: Carry) -> Carry
    requires { count ≤ length blocks.old }
    ensures { (result ≡ after count 0 c blocks.old) × (blocks.new ≡ swept count 0 c blocks.old) }
{
    let mut d = c;
    let mut i: usize = 0;
    while i < count {
        d = turn(d, i, blocks[i]);
        blocks[i] = d.out;
        i += 1;
    }
    d
}

/// The table after a mark or a cut: how many blocks there are, and whether a new open block starts there, or one was cut.
#[derive(Clone, Copy, Debug, PartialEq, Eq)]
pub struct Done {
    pub count: usize,
    pub yes: bool,
}

// A sweep over the first n blocks, and what is answered after it.
#[derive(Clone, Copy)]
struct Plan {
    carry: Carry,
    n: usize,
    done: Result<Done, Fault>,
}

// A sweep that checks count blocks and looks for addr; over none where there are fewer.
fn look(len: usize, count: usize, addr: u64) -> Plan
    ensures { result ≡ looking len count addr }
{
    let mut n = count;
    if len < count {
        n = 0;
    }
    let z = Block { start: 0, end: 0 };
    Plan {
        carry: Carry {
            out: z,
            hold: z,
            addr,
            at: n,
            hit: false,
            below: 0,
            cut: false,
            last: 0,
            mode: 0,
            check: Check {
                least: 0,
                sound: true,
            },
        },
        n,
        done: Ok(Done { count, yes: false }),
    }
}

// A sweep that changes the table.
fn change(c: Carry, cut: bool, last: usize, mode: u8) -> Carry
    ensures { result ≡ changing c cut last mode }
{
    let h = Block {
        start: c.addr,
        end: 0,
    };
    let mut d = c;
    d.hold = h;
    d.cut = cut;
    d.last = last;
    d.mode = mode;
    d
}

// Nothing is to be done.
fn stay(c: Carry, count: usize) -> Plan
    ensures { result ≡ still c count }
{
    Plan {
        carry: c,
        n: 0,
        done: Ok(Done { count, yes: false }),
    }
}

// Nothing is done, since there is a fault.
fn refuse(c: Carry, fault: Fault) -> Plan
    ensures { result ≡ refused c fault }
{
    Plan {
        carry: c,
        n: 0,
        done: Err(fault),
    }
}

// One more block.
fn grow(c: Carry, count: usize, room: usize, yes: bool) -> Plan
    requires { count < room }
    ensures { result ≡ longer c count yes }
{
    Plan {
        carry: c,
        n: count + 1,
        done: Ok(Done {
            count: count + 1,
            yes,
        }),
    }
}

// No block reaches over the address.
fn open(only: bool, room: usize, count: usize, c: Carry) -> Plan
    ensures { result ≡ opening only room count c }
{
    if only {
        return stay(c, count);
    }
    if c.hit {
        return stay(c, count);
    }
    if count < room {
        return grow(change(c, false, 0, 3), count, room, true);
    }
    refuse(c, Fault::Limit)
}

// What is to be done, from what was seen of a table with room for so many blocks.
fn place(only: bool, room: usize, count: usize, c: Carry) -> Plan
    ensures { result ≡ placed only room count c }
{
    let p = c.at;
    if p == 0 {
        return open(only, room, count, c);
    }
    let last = p - 1;
    if c.below <= c.addr {
        return open(only, room, count, c);
    }
    if c.hit {
        return Plan {
            carry: change(c, true, last, 4),
            n: count,
            done: Ok(Done { count, yes: only }),
        };
    }
    if count < room {
        return grow(change(c, true, last, 3), count, room, only);
    }
    refuse(c, Fault::Limit)
}

// How many blocks may stand in a slice of this length.
fn room_in(len: usize) -> usize
    ensures { result ≡ min 256 len }
{
    if 256 < len {
        return 256;
    }
    len
}

// What is to be done, from what was seen: nothing where the table or the address breaks a rule, or the table is full.
fn decide(only: bool, len: usize, count: usize, c: Carry) -> Plan
    ensures { result ≡ planned only len count c }
{
    if len < count {
        return refuse(c, Fault::List);
    }
    if c.addr % 4 == 0 {
        if c.check.sound {
            let room = room_in(len);
            if count <= room {
                return place(only, room, count, c);
            }
            return refuse(c, Fault::Limit);
        }
        return refuse(c, Fault::List);
    }
    refuse(c, Fault::List)
}

// One sweep that looks, and one that does what is then decided: `only` cuts, and opens no block.
fn work(blocks: &mut [Block], only: bool, count: usize, addr: u64) -> Result<Done, Fault>
    ensures { IsDone (change_records only count addr blocks.old) blocks.old blocks.new
        result }
{
    let p = look(blocks.len(), count, addr);
    let c = sweep(blocks, p.n, p.carry);
    let q = decide(only, blocks.len(), count, c);
    sweep(blocks, q.n, q.carry);
    q.done
}

/// Marks addr as the start of a block: a block that reaches over it is cut there; else an open block starts there, unless one does. Nothing
/// changes where the table or addr breaks a rule, or the table is full. The answer is yes where a new open block starts.
pub fn mark(blocks: &mut [Block], count: usize, addr: u64) -> Result<Done, Fault>
    ensures { IsDone (mark_records count addr blocks.old) blocks.old blocks.new result }
{
    work(blocks, false, count, addr)
}

/// Cuts the block that reaches over addr, if one does, with the checks of a mark. The answer is yes where one was cut.
pub fn cut(blocks: &mut [Block], count: usize, addr: u64) -> Result<Done, Fault>
    ensures { IsDone (cut_records count addr blocks.old) blocks.old blocks.new result }
{
    work(blocks, true, count, addr)
}
